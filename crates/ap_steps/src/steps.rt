//! The steps of a derivation.

use ap_defs::lists::List;

/// So many bytes of a text: those of a name, where its colour is not 0, which is that of its binder.
#[derive(Clone, Copy)]
pub struct Mark {
    pub length: usize,
    pub colour: u32,
}

/// A text whose bound names are marked, from its beginning on; what no mark reaches is not a bound name.
#[derive(Drop)]
pub struct Phrase {
    pub text: List<u8>,
    pub marks: List<Mark>,
}

/// A step of a derivation: how many it stands under, the judgement, the rule by which it holds and where
/// that stands, and the conditions at the side of the rule.
#[derive(Drop)]
pub struct Step {
    pub depth: usize,
    pub judgement: Phrase,
    pub rule: List<u8>,
    pub sides: List<Phrase>,
}
