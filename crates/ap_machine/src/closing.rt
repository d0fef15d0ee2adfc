//! Terms with all bindings carried out, in which the list of each suspension is canonical.

ghost use Rattle.std.specs.Prelude.{◌≡◌, ◌≤◌, ◌<◌, ◌+◌, ◌*◌, ◌++◌, ◌∷◌, [], IfOk, MatchOption, OnOk};
ghost use Rattle.ap_defs.specs.Canonical.{canonical, canonical_term};
ghost use Rattle.ap_defs.specs.Substitution.{under};
ghost use Rattle.ap_defs.specs.Terms.{NominalTerm, pair, term_of};
ghost use Rattle.ap_defs.specs.Unification.{size};
ghost use Rattle.ap_perm.specs.Closures.{closure_term, lent_term};
ghost use Rattle.ap_store.specs.Heads.{IsHeadUnbound};
ghost use Rattle.ap_store.specs.Views.{bindings_of, meaning_in};
ghost use Rattle.ap_store.specs.declared.store.Store.{Store};
ghost use Rattle.ap_machine.specs.declared.closing.Part.TheVariants as parts;
ghost use Rattle.ap_machine.specs.declared.closing.Round.TheVariants as round;
ghost use Rattle.ap_machine.specs.Closed.{closed_part, closed_round, closed_within, part_work, round_work, rounds_work};

use crate::along::{constant, go_in_along, is_unit, leaf_of};
use ap_defs::lists::Swaps;
use ap_defs::memory::Memory;
use ap_defs::terms::{Swap, Term};
use ap_perm::closures::{Closure, Lent, Opened};
use ap_perm::joining::copied;
use ap_perm::swappings::canonical_list;
use ap_store::store::Store;
use std::alloc::Global;

/// What stands round the part of a term that is made: the part is right of a term that is made, left of
/// one that is still to be made, the argument of a constructor, or the body of an abstraction. A pair that is
/// the argument of a constructor makes one round with it, as the cell of a list does. There are as many as a list is
/// long, so one is small.
#[derive(Drop)]
pub enum Round<'a> {
    RightOf(Box<Term>),
    LeftOf(Box<Closure<'a>>),
    RightIn(u32, Box<Term>),
    LeftIn(u32, Box<Closure<'a>>),
    App(u32),
    Abs(u32, u64),
}

/// A part of a term that is still to be made, or one that is made.
#[derive(Drop)]
pub enum Part<'a> {
    Left(Closure<'a>),
    Made(Term),
}

/// The canonical list of a permutation. Where nothing is moved, as nearly always, it takes no time.
pub(crate) fn canonical_of(alloc: Global, swaps: Vec<Swap>) -> Result<Vec<Swap>, Memory>
    ensures { IfOk result (λ r. r.items ≡ canonical swaps.items) }
{
    if swaps.is_empty() {
        return Ok(swaps);
    }
    canonical_list(alloc, &swaps)
}

/// Swappings that wait. Where there are none, those that are given are shared, which are none either.
pub(crate) fn waiting_of(alloc: Global, none: &Swaps, swaps: Vec<Swap>) -> Result<Swaps, Memory>
    requires { none.now ≡ [] }
    ensures { IfOk result (λ s. s ≡ swaps.items) }
{
    if swaps.is_empty() {
        return none.share();
    }
    Swaps::of(alloc, swaps)
}

/// What a closure stands for, with no bound variable at its head.
fn headed<'a>(store: &Store<'a>, c: Closure<'a>) -> Result<Closure<'a>, Memory>
    ensures term { IfOk result (λ d. meaning_in store.now d ≡ meaning_in store.now c.entry) }
    ensures head { IfOk result (λ d. IsHeadUnbound (bindings_of store.now) (closure_term d)) }
{
    match c.term {
        Term::Susp(_, _) => store.follow(c),
        Term::Unit => Ok(c),
        Term::Name(_) => Ok(c),
        Term::Pair(_, _) => Ok(c),
        Term::App(_, _) => Ok(c),
        Term::Abs(_, _, _) => Ok(c),
    }
}

/// A pair of terms.
fn paired(alloc: Global, left: Box<Term>, right: Term) -> Result<Term, Memory>
    ensures { IfOk result (λ t. term_of t ≡ pair (term_of left.value) (term_of right)) }
{
    let right = Box::new(alloc, right)?;
    Ok(Term::Pair(left, right))
}

/// Takes the round of a constructor off, if it is the innermost one.
fn take_app(rounds: &mut Vec<Round<'_>>) -> Option<u32>
    ensures { MatchOption result (rounds.new.items ≡ rounds.old.items)
        (λ f. rounds.old.items ≡ rounds.new.items ++ round.App f ∷ []) }
{
    match rounds.last() {
        Some(Round::App(f)) => {
            let f = *f;
            let _app = rounds.pop();
            Some(f)
        }
        _ => None,
    }
}

/// Keeps what stands right of the part that is made next, in a round with the constructor of which the pair of
/// both is the argument, if it is one.
#[tactic(auto, using(crate::proofs::ClosedLemmas::closed_within_last, crate::proofs::ClosedLemmas::rounds_work_last))]
fn keep_right<'a>(
    alloc: Global,
    rounds: &mut Vec<Round<'a>>,
    right: Closure<'a>,
) -> Result<(), Memory>
    ensures same { OnOk result ((s : Store) (t : NominalTerm) → closed_within s rounds.new.items t
        ≡ closed_within s rounds.old.items (pair t (canonical_term (meaning_in s right.entry)))) }
    ensures work { OnOk result ((s : Store) → rounds_work s rounds.new.items
        ≤ rounds_work s rounds.old.items + (2 + 3 * size (meaning_in s right.entry))) }
{
    let waiting = Box::new(alloc, right)?;
    match take_app(rounds) {
        None => rounds.push(Round::LeftOf(waiting))?,
        Some(f) => rounds.push(Round::LeftIn(f, waiting))?,
    }
    Ok(())
}

/// Keeps what stands left of the part that is made next, likewise.
#[tactic(auto, using(crate::proofs::ClosedLemmas::closed_within_last, crate::proofs::ClosedLemmas::rounds_work_last))]
fn keep_left(alloc: Global, rounds: &mut Vec<Round<'_>>, left: Term) -> Result<(), Memory>
    ensures same { OnOk result ((s : Store) (t : NominalTerm) → closed_within s rounds.new.items t
        ≡ closed_within s rounds.old.items (pair (term_of left) t)) }
    ensures work { OnOk result ((s : Store) → rounds_work s rounds.new.items
        ≤ rounds_work s rounds.old.items + 1) }
{
    let made = Box::new(alloc, left)?;
    match take_app(rounds) {
        None => rounds.push(Round::RightOf(made))?,
        Some(f) => rounds.push(Round::RightIn(f, made))?,
    }
    Ok(())
}

/// Goes into a pair: its left part comes next, unless it is made at once.
fn go_in_pair<'a>(
    alloc: Global,
    store: &Store<'a>,
    none: &Swaps,
    rounds: &mut Vec<Round<'a>>,
    left: Closure<'a>,
    right: Closure<'a>,
) -> Result<Part<'a>, Memory>
    requires { none.now ≡ [] }
    ensures same { IfOk result (λ p.
        closed_within store.now rounds.new.items (closed_part store.now p)
        ≡ closed_within store.now rounds.old.items (canonical_term
        (pair (meaning_in store.now left.entry) (meaning_in store.now right.entry)))) }
    ensures less { IfOk result (λ p.
        rounds_work store.now rounds.new.items + part_work store.now p
        < rounds_work store.now rounds.old.items + 3
        * size (pair (meaning_in store.now left.entry) (meaning_in store.now right.entry))) }
{
    match leaf_of(alloc, store, none, &left)? {
        Some(made) => {
            keep_left(alloc, rounds, made)?;
            Ok(Part::Left(right))
        }
        None => {
            keep_right(alloc, rounds, right)?;
            Ok(Part::Left(left))
        }
    }
}

/// Goes into a part that is still to be made: what stands round the next one is kept, unless this one
/// has no parts.
fn go_in<'a>(
    alloc: Global,
    store: &Store<'a>,
    none: &Swaps,
    rounds: &mut Vec<Round<'a>>,
    c: Closure<'a>,
) -> Result<Part<'a>, Memory>
    requires { none.now ≡ [] }
    ensures same { IfOk result (λ p.
        closed_within store.now rounds.new.items (closed_part store.now p)
        ≡ closed_within store.now rounds.old.items (canonical_term (meaning_in store.now c.entry))) }
    ensures less { IfOk result (λ p.
        rounds_work store.now rounds.new.items + part_work store.now p
        < rounds_work store.now rounds.old.items + part_work store.now (parts.Left c.entry)) }
{
    let head = headed(store, c)?;
    match head.open(alloc)? {
        Opened::Unit => Ok(Part::Made(Term::Unit)),
        Opened::Name(a) => Ok(Part::Made(Term::Name(a))),
        Opened::Susp(swaps, x) => {
            let swaps = canonical_of(alloc, swaps)?;
            let waiting = waiting_of(alloc, none, swaps)?;
            Ok(Part::Made(Term::Susp(waiting, x)))
        }
        Opened::Pair(left, right) => go_in_pair(alloc, store, none, rounds, left, right),
        Opened::App(f, argument) => {
            if is_unit(argument.term) {
                let made = constant(alloc, f)?;
                return Ok(Part::Made(made));
            }
            rounds.push(Round::App(f))?;
            Ok(Part::Left(argument))
        }
        Opened::Abs(a, body) => {
            rounds.push(Round::Abs(a.sort, a.num))?;
            Ok(Part::Left(body))
        }
    }
}

/// Goes out of a part that is made: into what stands right of it where that is still to be made, and
/// else what stands round it is made.
#[tactic(auto, using(crate::proofs::ClosedLemmas::closed_within_last, crate::proofs::ClosedLemmas::rounds_work_last))]
fn go_out<'a>(
    alloc: Global,
    rounds: &mut Vec<Round<'a>>,
    round: Round<'a>,
    made: Term,
) -> Result<Part<'a>, Memory>
    ensures same { IfOk result (λ p. (s : Store) →
        closed_within s rounds.new.items (closed_part s p)
        ≡ closed_within s rounds.old.items (closed_round s round.entry (term_of made))) }
    ensures less { IfOk result (λ p. (s : Store) →
        rounds_work s rounds.new.items + part_work s p
        < rounds_work s rounds.old.items + round_work s round.entry) }
{
    match round {
        Round::RightOf(left) => Ok(Part::Made(paired(alloc, left, made)?)),
        Round::LeftOf(right) => {
            rounds.push(Round::RightOf(Box::new(alloc, made)?))?;
            Ok(Part::Left(Box::into_inner(right)))
        }
        Round::RightIn(f, left) => {
            let argument = paired(alloc, left, made)?;
            Ok(Part::Made(Term::App(f, Box::new(alloc, argument)?)))
        }
        Round::LeftIn(f, right) => {
            rounds.push(Round::RightIn(f, Box::new(alloc, made)?))?;
            Ok(Part::Left(Box::into_inner(right)))
        }
        Round::App(f) => Ok(Part::Made(Term::App(f, Box::new(alloc, made)?))),
        Round::Abs(sort, num) => {
            let body = Box::new(alloc, made)?;
            Ok(Part::Made(Term::Abs(sort, num, body)))
        }
    }
}

/// What a closure stands for under the bindings, with canonical lists, made part by part.
#[tactic(auto, using(crate::proofs::ClosedLemmas::closed_within_last, crate::proofs::ClosedLemmas::rounds_work_last))]
fn close<'a>(
    alloc: Global,
    store: &Store<'a>,
    none: &Swaps,
    first: Closure<'a>,
) -> Result<Term, Memory>
    requires { none.now ≡ [] }
    ensures { IfOk result (λ t. term_of t
        ≡ canonical_term (meaning_in store.now first.entry)) }
{
    let mut rounds = Vec::new(alloc);
    let mut part = Part::Left(first);
    'closing: loop {
        match part {
            Part::Left(c) => {
                let rest = go_in_along(alloc, store, none, &mut rounds, c)?;
                part = go_in(alloc, store, none, &mut rounds, rest)?;
            }
            Part::Made(t) => match rounds.pop() {
                None => return Ok(t),
                Some(round) => part = go_out(alloc, &mut rounds, round, t)?,
            },
        }
    }
}

/// What a closure stands for under the bindings, with canonical lists. It is made once, and what stands
/// round the part that is being made lies on a stack of its own. Suspensions on which no swappings wait share the
/// given ones, which are none.
pub(crate) fn closed_from<'a>(
    alloc: Global,
    store: &Store<'a>,
    none: &Swaps,
    c: Lent<'_, 'a>,
) -> Result<Term, Memory>
    requires { none.now ≡ [] }
    ensures { IfOk result (λ t. term_of t
        ≡ canonical_term (under (bindings_of store.now) (lent_term c.entry))) }
{
    let swaps = copied(alloc, c.swaps)?;
    let first = Closure {
        swaps,
        base: c.base,
        end: c.end,
        term: c.term,
    };
    close(alloc, store, none, first)
}
