//! Swappings, carried out in terms that are let go meanwhile, so that their memory is used again at once.

ghost use Rattle.std.specs.Prelude.{◌≡◌, ◌<◌, [], true, false, map, IfOk, MatchOption};
ghost use Rattle.ap_defs.specs.RawTerms.{raw_of, app, pair};
ghost use Rattle.ap_defs.specs.Terms as nominal;
ghost use Rattle.ap_defs.specs.Terms.{term_of};
ghost use Rattle.ap_defs.specs.Unification.{size};
ghost use Rattle.ap_program.specs.CarryingOut.{carried_out};
ghost use Rattle.ap_restrict.specs.Owned.{brought_back, taken_term};

use crate::carrying::carry_term;
use ap_defs::lists::{List, Swaps};
use ap_defs::memory::Memory;
use ap_defs::terms::{Raw, Term};
use std::alloc::Global;
use std::mem;

/// A term, taken apart: a list cell, a pair, an application, or one that stays whole.
#[derive(Drop)]
enum Taken {
    Cell(Raw, Raw),
    Pair(Raw, Raw),
    App(u32, Raw),
    Whole(Raw),
}

/// Takes the two parts of a pair out of a term. A term that is no pair stays.
fn take_pair(t: &mut Raw) -> Option<(Raw, Raw)>
    ensures { MatchOption result (t.new ≡ t.old)
        (λ p. raw_of t.old ≡ pair (raw_of p.0) (raw_of p.1)) }
{
    match t {
        Raw::Pair(left, right) => {
            let left = mem::replace(&mut **left, Raw::Unit);
            let right = mem::replace(&mut **right, Raw::Unit);
            Some((left, right))
        }
        _ => None,
    }
}

/// Takes the argument of a constructor out of a term. A term that is no application stays.
fn take_argument(t: &mut Raw) -> Option<(u32, Raw)>
    ensures { MatchOption result (t.new ≡ t.old) (λ p. raw_of t.old ≡ app p.0 (raw_of p.1)) }
{
    match t {
        Raw::App(f, argument) => {
            let argument = mem::replace(&mut **argument, Raw::Unit);
            Some((*f, argument))
        }
        _ => None,
    }
}

/// An application, taken apart.
fn taken_application(f: u32, argument: Raw) -> Taken
    ensures { taken_term result ≡ app f (raw_of argument) }
{
    let mut rest = argument;
    if f == 1 {
        if let Some((head, tail)) = take_pair(&mut rest) {
            return Taken::Cell(head, tail);
        }
    }
    Taken::App(f, rest)
}

/// A term, taken apart.
fn taken_apart(t: Raw) -> Taken
    ensures { taken_term result ≡ raw_of t }
{
    let mut whole = t;
    if let Some((left, right)) = take_pair(&mut whole) {
        return Taken::Pair(left, right);
    }
    match take_argument(&mut whole) {
        Some((f, argument)) => taken_application(f, argument),
        None => Taken::Whole(whole),
    }
}

/// A term that is let go, with its swappings carried out, under none, in a box.
fn carried_part(alloc: Global, none: &Swaps, t: Raw) -> Result<Box<Term>, Memory>
    requires { none.now ≡ [] }
    ensures { IfOk result (λ u. term_of u.value ≡ carried_out (raw_of t)) }
{
    let made = carry_term(alloc, none, &t)?;
    drop(t);
    Ok(Box::new(alloc, made)?)
}

/// What is above the right part of a pair, by what is above the pair and by its left part, which is let go.
fn above_right(alloc: Global, none: &Swaps, above: Term, left: Raw) -> Result<Term, Memory>
    requires { none.now ≡ [] }
    ensures { IfOk result (λ a. term_of a
        ≡ nominal.pair (carried_out (raw_of left)) (term_of above)) }
{
    let left = carried_part(alloc, none, left)?;
    Ok(Term::Pair(left, Box::new(alloc, above)?))
}

/// What is above the tail of a list cell, by what is above the cell and by its head, which is let go.
fn above_tail(alloc: Global, none: &Swaps, above: Term, head: Raw) -> Result<Term, Memory>
    requires { none.now ≡ [] }
    ensures { IfOk result (λ a. term_of a
        ≡ nominal.pair (carried_out (raw_of head)) (nominal.app 1 (term_of above))) }
{
    let cell = Term::App(1, Box::new(alloc, above)?);
    above_right(alloc, none, cell, head)
}

/// Goes back up from the last part of a term, and answers whether there was something above it.
fn go_up(above: &mut Term, t: &mut Term) -> bool
    ensures up { result ≡ true → brought_back (term_of above.new) (term_of t.new)
        ≡ brought_back (term_of above.old) (term_of t.old) }
    ensures smaller { result ≡ true → size (term_of above.new) < size (term_of above.old) }
    ensures top { result ≡ false →
        term_of t.new ≡ brought_back (term_of above.old) (term_of t.old) }
{
    match &mut *above {
        Term::Unit | Term::Name(_) | Term::Abs(_, _, _) | Term::Susp(_, _) => return false,
        Term::Pair(_, last) => mem::swap(&mut **last, t),
        Term::App(_, last) => mem::swap(&mut **last, t),
    }
    mem::swap(t, above);
    true
}

/// The term with this last part, by what is above it. It takes no memory.
fn bring_back(top: Term, last: Term) -> Term
    ensures { term_of result ≡ brought_back (term_of top) (term_of last) }
{
    let mut above = top;
    let mut made = last;
    'up: while go_up(&mut above, &mut made) {}
    made
}

/// A term that is let go, with its swappings carried out, under none.
///
/// It goes on along tails, right parts of pairs and arguments. This way is turned round as it is gone, each part on it
/// with what is above it in place of what is below, and in the end turned back: so what is made takes the memory of
/// what was let go just before, and none beside it.
pub(crate) fn carry_owned(alloc: Global, none: &Swaps, t: Raw) -> Result<Term, Memory>
    requires { none.now ≡ [] }
    ensures { IfOk result (λ u. term_of u ≡ carried_out (raw_of t)) }
{
    let mut above = Term::Unit;
    let mut rest = t;
    loop {
        match taken_apart(rest) {
            Taken::Cell(head, tail) => {
                above = above_tail(alloc, none, above, head)?;
                rest = tail;
            }
            Taken::Pair(left, right) => {
                above = above_right(alloc, none, above, left)?;
                rest = right;
            }
            Taken::App(f, argument) => {
                above = Term::App(f, Box::new(alloc, above)?);
                rest = argument;
            }
            Taken::Whole(last) => {
                let last = carry_term(alloc, none, &last)?;
                return Ok(bring_back(above, last));
            }
        }
    }
}

/// Terms that are let go, with their swappings carried out. All suspensions on which none wait share these.
pub(crate) fn carry_own_terms(alloc: Global, ts: List<Raw>) -> Result<List<Term>, Memory>
    ensures { IfOk result (λ us. map term_of us ≡ map carried_out (map raw_of ts)) }
{
    let none = Swaps::none(alloc)?;
    let ts = ts.into_vec();
    let mut carried = Vec::with_capacity(alloc, ts.len())?;
    for t in ts {
        carried.push(carry_owned(alloc, &none, t)?)?;
    }
    Ok(List::of(carried))
}
