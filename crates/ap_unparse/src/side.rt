//! Where a goal stands in a text.

/// By itself or behind `;`, on the left of `,` or `;`, or behind `,`.
#[derive(Clone, Copy)]
pub enum Side {
    Alone,
    OnLeft,
    BehindComma,
}
