//! Lists of terms that are shared.

use ap_defs::terms::Term;

/// Terms whose identifiers are numbered from `base` on, below `end`.
#[derive(Clone, Copy)]
pub struct Terms<'a> {
    pub base: u64,
    pub end: u64,
    pub terms: &'a [Term],
}
