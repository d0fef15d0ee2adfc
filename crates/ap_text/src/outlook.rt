// What is known of a text by its items so far.

use ap_defs::faults::{SyntaxFault, TypeFault};

/// What is known of a text by its items so far, where it splits into tokens.
#[derive(Drop)]
pub enum Outlook {
    /// They have no fault of their grammar or their types: a typing has them.
    Typed,
    /// They are in the grammar, and this is the first fault of their types.
    Mistyped(TypeFault),
    /// This is the first fault of their grammar.
    Ungrammatical(SyntaxFault),
}
