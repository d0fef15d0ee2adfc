//! Copies of the terms of closures, which are made part by part.
//!
//! A term of a derivation can be nested as deep as whoever made it wants, on either side. What stands round
//! the part that is still to be made is kept in lists, so no term is too deep.

ghost use Rattle.std.specs.Prelude.{◌≡◌, ◌<◌, ℕ, [], ◌∷◌, ◌++◌, IfOk, OnOk};
ghost use Rattle.ap_defs.specs.Terms.{term_of};
ghost use Rattle.ap_defs.specs.Unification.{size};
ghost use Rattle.ap_judge.specs.Outsides.{IsNextPart};
ghost use Rattle.ap_judge.specs.Closures.{head_term, scoped_term};

use crate::closures::{Closure, Head, head_at};
use ap_defs::lists::Swaps;
use ap_defs::memory::Memory;
use ap_defs::spines::{TermLayer, close_term};
use ap_defs::terms::Term;
use std::alloc::Global;
use std::mem;

/// A pair whose left part is still to be made: what stands round it within the pair before, and its right
/// part, which is made afterwards.
#[derive(Drop)]
pub(crate) struct Half<'a> {
    pub layers: Vec<TermLayer>,
    pub right: Closure<'a>,
}

/// What stands round a part that is still to be made: halves of pairs, the innermost last, and the layers
/// within the last of them.
#[derive(Drop)]
pub(crate) struct Outside<'a> {
    pub halves: Vec<Half<'a>>,
    pub layers: Vec<TermLayer>,
}

/// What comes next: a part that is to be made, or nothing, where the whole was made.
#[derive(Drop)]
pub(crate) enum Next<'a> {
    Part(Closure<'a>),
    Whole(Term),
}

impl<'a> Outside<'a> {
    /// Nothing stands round the part.
    fn new(alloc: Global) -> Outside<'a>
        ensures halves { result.halves.items ≡ [] }
        ensures layers { result.layers.items ≡ [] }
    {
        Outside {
            halves: Vec::new(alloc),
            layers: Vec::new(alloc),
        }
    }

    /// One more layer stands round the part, innermost.
    fn wrap(&mut self, layer: TermLayer) -> Result<(), Memory>
        ensures halves { self.new.halves.items ≡ self.old.halves.items }
        ensures layers { OnOk result (self.new.layers.items ≡ self.old.layers.items ++ layer ∷ []) }
    {
        self.layers.push(layer)?;
        Ok(())
    }

    /// The left part of a pair is to be made first.
    fn halve(&mut self, alloc: Global, right: Closure<'a>) -> Result<(), Memory>
        ensures halves { OnOk result (self.new.halves.items ≡ self.old.halves.items
            ++ (record { layers = self.old.layers; right = right.entry }) ∷ []) }
        ensures layers { OnOk result (self.new.layers.items ≡ []) }
    {
        let layers = mem::replace(&mut self.layers, Vec::new(alloc));
        self.halves.push(Half { layers, right })?;
        Ok(())
    }

    /// What comes next, where the part was made.
    fn close(&mut self, alloc: Global, part: Term) -> Result<Next<'a>, Memory>
        ensures { IfOk result (λ next. (n : ℕ) → 0 < n →
            IsNextPart n self.old (term_of part) self.new next) }
    {
        let layers = mem::replace(&mut self.layers, Vec::new(alloc));
        let made = close_term(alloc, layers, part)?;
        let Some(half) = self.halves.pop() else {
            return Ok(Next::Whole(made));
        };
        let Half { layers, right } = half;
        self.layers = layers;
        self.layers.push(TermLayer::Left(made))?;
        Ok(Next::Part(right))
    }

    /// What comes next, where the part with this head is to be made.
    fn enter(&mut self, alloc: Global, part: Head<'a>) -> Result<Next<'a>, Memory>
        ensures { IfOk result (λ next. IsNextPart (size (head_term part.entry)) self.old
            (head_term part.entry) self.new next) }
    {
        match part {
            Head::Unit => self.close(alloc, Term::Unit),
            Head::Name(a) => self.close(alloc, Term::Name(a)),
            Head::Susp(swaps, x) => {
                let waiting = Swaps::of(alloc, swaps)?;
                self.close(alloc, Term::Susp(waiting, x))
            }
            Head::Pair(left, right) => {
                self.halve(alloc, right)?;
                Ok(Next::Part(left))
            }
            Head::App(f, argument) => {
                self.wrap(TermLayer::App(f))?;
                Ok(Next::Part(argument))
            }
            Head::Abs(a, body) => {
                self.wrap(TermLayer::Abs(a))?;
                Ok(Next::Part(body))
            }
        }
    }
}

/// A copy of a closure's term, with what stands for its identifiers put in and swappings carried out: they
/// wait in front of each suspension.
pub(crate) fn copied(alloc: Global, t: Closure<'_>) -> Result<Term, Memory>
    ensures { IfOk result (λ u. term_of u ≡ scoped_term t.entry) }
{
    let mut outside = Outside::new(alloc);
    let mut rest = t;
    'parts: loop {
        let part = head_at(alloc, &rest)?;
        match outside.enter(alloc, part)? {
            Next::Part(part) => rest = part,
            Next::Whole(made) => return Ok(made),
        }
    }
}
