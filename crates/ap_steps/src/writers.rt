//! How a derivation is written.

use ap_answers::speller::Speller;
use ap_defs::goals::Program;
use ap_defs::lists::Text;
use ap_defs::terms::Term;
use std::alloc::Global;

/// The program of a derivation, the words of its predicates, and the spelling of the names and variables.
#[derive(Drop)]
pub struct Writer<'a> {
    pub alloc: Global,
    pub program: &'a Program<Term>,
    pub words: &'a [Text],
    pub by: &'a Speller<'a>,
}
