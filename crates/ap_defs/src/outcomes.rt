//! Answers, what is shown of them, and derivations.
//!
//! A derivation can be as deep as the search went, on either side, so it is dropped in a loop.

ghost use Rattle.std.specs.Prelude.{◌≡◌, ◌<◌, true, false};
ghost use Rattle.ap_defs.specs.Derivations.{both, derivation_of, derivation_weight};

use crate::lists::{List, Text};
use crate::terms::{Cond, Name, Term, Ty, Var};
use std::mem;

/// An answer: the bindings of the query's free variables in order, the conditions ascending, and
/// the unbound variables with their types, ascending.
#[derive(Drop)]
pub struct Answer {
    pub binds: List<Term>,
    pub conds: List<Cond>,
    pub vars: List<(Var, Ty)>,
}

/// How an atom used a clause: the clause's number from 1 among those of its predicate, and the names and
/// the terms for its free names and variables, in the order of its identifiers.
#[derive(Drop)]
pub struct ClauseUse {
    pub clause: u32,
    pub names: List<Name>,
    pub terms: List<Term>,
}

/// How a goal was solved: a node for each goal that was selected. A node takes 24 bytes, and what it brings
/// stands in a box of its own.
pub enum Derivation {
    /// How the clause was used, and the derivation of its body.
    Atom(Box<ClauseUse>, Box<Derivation>),
    Eq,
    Fresh,
    True,
    Both(Box<Derivation>, Box<Derivation>),
    Left(Box<Derivation>),
    Right(Box<Derivation>),
    Exists(Box<Term>, Box<Derivation>),
    New(Box<Name>, Box<Derivation>),
}

/// Turns the part of the left derivation, or its first one, to the right, and puts what was right in its
/// place. It answers whether the left one has a part.
fn turn_part(left: &mut Derivation, right: &mut Box<Derivation>) -> bool
    ensures turned { result ≡ true →
        derivation_weight (both (derivation_of right.new.value) (derivation_of left.new))
        < derivation_weight (both (derivation_of left.old) (derivation_of right.old.value)) }
    ensures leaf { result ≡ false →
        (right.new ≡ right.old) × (derivation_weight (derivation_of left.new) ≡ 1) }
{
    match left {
        Derivation::Eq => false,
        Derivation::Fresh => false,
        Derivation::True => false,
        Derivation::Atom(_, body) => {
            mem::swap(body, right);
            true
        }
        Derivation::Both(first, second) => {
            mem::swap(first, right);
            mem::swap(first, second);
            true
        }
        Derivation::Left(side) => {
            mem::swap(side, right);
            true
        }
        Derivation::Right(side) => {
            mem::swap(side, right);
            true
        }
        Derivation::Exists(_, body) => {
            mem::swap(body, right);
            true
        }
        Derivation::New(_, body) => {
            mem::swap(body, right);
            true
        }
    }
}

impl Drop for Derivation {
    fn drop(mut self) {
        loop {
            match self {
                Derivation::Eq | Derivation::Fresh | Derivation::True => return,
                Derivation::Atom(_used, body) => self = Box::into_inner(body),
                Derivation::Both(mut left, mut right) => {
                    if turn_part(&mut left, &mut right) {
                        self = Derivation::Both(right, left);
                    } else {
                        self = Box::into_inner(right);
                    }
                }
                Derivation::Left(side) => self = Box::into_inner(side),
                Derivation::Right(side) => self = Box::into_inner(side),
                Derivation::Exists(_term, body) => self = Box::into_inner(body),
                Derivation::New(_name, body) => self = Box::into_inner(body),
            }
        }
    }
}

/// An answer to the query of this number, from 1, with its derivation.
#[derive(Drop)]
pub struct Proved {
    pub query: u32,
    pub answer: Answer,
    pub derivation: Derivation,
}

/// A text with derivations of answers to its queries.
#[derive(Drop)]
pub struct Bundle {
    pub text: List<u8>,
    pub proved: List<Proved>,
}

/// What a checker says: yes, or the first refused node and its least rule.
#[derive(Clone, Copy)]
pub enum Verdict {
    Yes,
    No { node: u64, rule: u32 },
}

/// What is shown of an answer. `names` and `vars` are those that print as generated, in order.
#[derive(Drop)]
pub struct Shown {
    pub binds: List<(Text, Term)>,
    pub conds: List<Cond>,
    pub names: List<Name>,
    pub vars: List<Var>,
}
