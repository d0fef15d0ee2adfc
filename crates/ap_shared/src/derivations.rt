//! Answers and derivations whose terms are lines of a table.
//!
//! A derivation can be as deep as the search went, on either side, so it is dropped in a loop.

ghost use Rattle.std.specs.Prelude.{◌≡◌, ◌<◌, true, false};
ghost use Rattle.ap_defs.specs.Derivations.{both, derivation_weight};
ghost use Rattle.ap_shared.specs.LineDerivations.{derivation_lines};

use crate::arena::SharedTerms;
use ap_defs::lists::List;
use ap_defs::terms::{Cond, Name, Ty, Var};
use std::mem;
use std::rc::Rc;

/// How an atom used a clause: the clause's number from 1 among those of its predicate, and the names and
/// the lines of the terms for its free names and variables, in the order of its identifiers.
#[derive(Drop)]
pub struct SharedUse {
    pub clause: u32,
    pub names: List<Name>,
    pub terms: List<usize>,
}

/// How a goal was solved: a node for each goal that was selected. A node takes 24 bytes, and what an atom or
/// a `new` brings stands in a box of its own.
pub enum SharedDerivation {
    /// How the clause was used, and the derivation of its body.
    Atom(Box<SharedUse>, Box<SharedDerivation>),
    Eq,
    Fresh,
    True,
    Both(Box<SharedDerivation>, Box<SharedDerivation>),
    Left(Box<SharedDerivation>),
    Right(Box<SharedDerivation>),
    /// The line of the term, and the derivation of the body.
    Exists(usize, Box<SharedDerivation>),
    New(Box<Name>, Box<SharedDerivation>),
}

/// Turns the part of the left derivation, or its first one, to the right, and puts what was right in its
/// place. It answers whether the left one has a part.
fn turn_part(left: &mut SharedDerivation, right: &mut Box<SharedDerivation>) -> bool
    ensures turned { result ≡ true →
        derivation_weight (both (derivation_lines right.new.value) (derivation_lines left.new))
        < derivation_weight (both (derivation_lines left.old) (derivation_lines right.old.value)) }
    ensures leaf { result ≡ false →
        (right.new ≡ right.old) × (derivation_weight (derivation_lines left.new) ≡ 1) }
{
    match left {
        SharedDerivation::Eq => false,
        SharedDerivation::Fresh => false,
        SharedDerivation::True => false,
        SharedDerivation::Atom(_, body) => {
            mem::swap(body, right);
            true
        }
        SharedDerivation::Both(first, second) => {
            mem::swap(first, right);
            mem::swap(first, second);
            true
        }
        SharedDerivation::Left(side) => {
            mem::swap(side, right);
            true
        }
        SharedDerivation::Right(side) => {
            mem::swap(side, right);
            true
        }
        SharedDerivation::Exists(_, body) => {
            mem::swap(body, right);
            true
        }
        SharedDerivation::New(_, body) => {
            mem::swap(body, right);
            true
        }
    }
}

impl Drop for SharedDerivation {
    fn drop(mut self) {
        loop {
            match self {
                SharedDerivation::Eq | SharedDerivation::Fresh | SharedDerivation::True => return,
                SharedDerivation::Atom(_used, body) => self = Box::into_inner(body),
                SharedDerivation::Both(mut left, mut right) => {
                    if turn_part(&mut left, &mut right) {
                        self = SharedDerivation::Both(right, left);
                    } else {
                        self = Box::into_inner(right);
                    }
                }
                SharedDerivation::Left(side) => self = Box::into_inner(side),
                SharedDerivation::Right(side) => self = Box::into_inner(side),
                SharedDerivation::Exists(_line, body) => self = Box::into_inner(body),
                SharedDerivation::New(_name, body) => self = Box::into_inner(body),
            }
        }
    }
}

/// An answer: the lines of the bindings of the query's free variables in order, the conditions ascending,
/// and the unbound variables with their types, ascending.
#[derive(Drop)]
pub struct SharedAnswer {
    pub binds: List<usize>,
    pub conds: List<Cond>,
    pub vars: List<(Var, Ty)>,
}

/// An answer to the query of this number, from 1, with its derivation, and the terms of both.
#[derive(Drop)]
pub struct SharedProved {
    pub query: u32,
    pub terms: Rc<SharedTerms>,
    pub answer: SharedAnswer,
    pub derivation: SharedDerivation,
}

/// A text with derivations of answers to its queries.
#[derive(Drop)]
pub struct SharedBundle {
    pub text: List<u8>,
    pub proved: List<SharedProved>,
}
