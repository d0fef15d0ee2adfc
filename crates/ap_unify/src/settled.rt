//! Pairs of variables that stand for one term already, so that nothing is left of their equation.

ghost use Rattle.std.specs.Prelude.{◌≡◌, ◌+◌, ◌-◌, ◌^◌, List, [], true, IfOk, IfSome, OnOk, min, nat_lt};
ghost use Rattle.ap_defs.specs.Substitution.{Binding};
ghost use Rattle.ap_defs.specs.Terms.{susp};
ghost use Rattle.ap_equations.specs.Plain.{plain_term};
ghost use Rattle.ap_store.specs.Views.{bindings_of};
ghost use Rattle.ap_unify.specs.Settled.{AreSame, AreSettled, MakesSame};

use crate::heads::{Head, headed};
use crate::parts::{Ahead, Turn, forms};
use ap_defs::memory::Memory;
use ap_defs::terms::{Term, Var};
use ap_equations::plain::{Plain, PlainPair};
use ap_store::store::Store;
use std::alloc::Global;
use std::collections::BTreeSet;

/// No look is made before a run has gone on so often.
const FEW: u64 = 64;

/// The first looks go no further than this.
const NEAR: u64 = 32;

/// Later ones go further, by one step for so many turns of the run.
const PART: u64 = 256;

/// After a look in vain none is made before the run has gone on so often for each step that it took.
const PAUSE: u64 = 128;

/// A pair is kept where its look was no shorter than this.
const WORTH: u64 = 8;

/// Pairs of variables that are known to stand for one term, how often a run went on, and from where a look is made
/// again.
#[derive(Drop)]
pub struct Settled {
    pub pairs: BTreeSet<(u64, u64)>,
    pub turns: u64,
    pub until: u64,
}

impl Settled {
    ghost use Rattle.std.specs.Prelude.{List};
    ghost use Rattle.ap_defs.specs.Substitution.{Binding};
    ghost use Rattle.ap_unify.specs.Settled.{AreSettled};

    /// No pair is known. It takes no memory.
    pub fn new(alloc: Global) -> Settled
        ensures { (s : List Binding) → AreSettled s result }
    {
        Settled {
            pairs: BTreeSet::new(alloc),
            turns: 0,
            until: FEW,
        }
    }
}

/// The variable of which a part is a suspension, on which no swappings wait.
pub(crate) fn variable_of(p: Plain<'_>) -> Option<Var>
    ensures { IfSome result (λ x. plain_term p.entry ≡ susp [] x) }
{
    match p.term {
        Term::Susp(q, x) => {
            if q.items().is_empty() {
                // `end` fits in a u64, so the sum below it does.
                let _end = p.end;
                Some(Var {
                    num: p.base + x.num,
                })
            } else {
                None
            }
        }
        _ => None,
    }
}

/// The variables of two parts that are known to stand for one term, if both are variables.
fn is_kept(settled: &Settled, pair: PlainPair<'_>) -> bool
    ensures { (s : List Binding) → result ≡ true → AreSettled s settled.now →
        AreSame s pair.entry }
{
    match (variable_of(pair.left), variable_of(pair.right)) {
        (Some(x), Some(y)) => settled.pairs.contains(&(x.num, y.num)),
        _ => false,
    }
}

/// What is left to look at of the two parts that come next.
fn look_further<'a>(store: &Store<'a>, settled: &Settled, ahead: &mut Ahead<'a>) -> Turn
    requires { AreSettled (bindings_of store.now) settled.now }
    ensures { MakesSame (bindings_of store.now) result ahead.new ahead.old.next }
{
    if is_kept(settled, ahead.next) {
        return Turn::Done;
    }
    let left = headed(store, ahead.next.left);
    let right = headed(store, ahead.next.right);
    match (left.head, right.head) {
        (Head::Form, Head::Form) => {
            ahead.next = PlainPair {
                left: left.part,
                right: right.part,
            };
            forms(ahead)
        }
        (Head::Free(x), Head::Free(y)) => {
            if x.num == y.num {
                Turn::Done
            } else {
                Turn::Other
            }
        }
        _ => Turn::Other,
    }
}

/// Whether a look tells that two parts stand for one term, and how many steps it took.
#[derive(Clone, Copy)]
struct Seen {
    same: bool,
    steps: u64,
}

/// A look at two parts, of no more steps than these.
fn look<'a>(
    alloc: Global,
    store: &Store<'a>,
    settled: &Settled,
    near: u64,
    first: PlainPair<'a>,
) -> Result<Seen, Memory>
    requires { AreSettled (bindings_of store.now) settled.now }
    ensures { IfOk result (λ seen. seen.same ≡ true →
        AreSame (bindings_of store.now) first.entry) }
{
    let mut waiting = Vec::new(alloc);
    let mut ahead = Ahead {
        next: first,
        later: first,
    };
    'looking: for steps in 0..near {
        match look_further(store, settled, &mut ahead) {
            Turn::Clash => return Ok(Seen { same: false, steps }),
            Turn::Other => return Ok(Seen { same: false, steps }),
            Turn::On => continue,
            Turn::Both => {
                waiting.push(ahead.later)?;
                continue;
            }
            Turn::Done => {}
        }
        let Some(next) = waiting.pop() else {
            return Ok(Seen { same: true, steps });
        };
        ahead.next = next;
    }
    Ok(Seen {
        same: false,
        steps: near,
    })
}

/// Keeps the variables of two parts that stand for one term, if both are variables.
fn keep(settled: &mut Settled, pair: PlainPair<'_>) -> Result<(), Memory>
    ensures { OnOk result ((s : List Binding) → AreSame s pair.entry → AreSettled s settled.old →
        AreSettled s settled.new) }
{
    match (variable_of(pair.left), variable_of(pair.right)) {
        (Some(x), Some(y)) => {
            settled.pairs.insert((x.num, y.num))?;
            Ok(())
        }
        _ => Ok(()),
    }
}

/// Counts a turn of a run, and tells whether there may be a look before it.
fn is_time(settled: &mut Settled) -> bool
    ensures time { result ≡ nat_lt settled.new.until settled.new.turns }
    ensures turns { settled.new.turns ≡ min (settled.old.turns + 1) (2 ^ 64 - 1) }
    ensures until { settled.new.until ≡ settled.old.until }
    ensures settled { (s : List Binding) → AreSettled s settled.old → AreSettled s settled.new }
{
    settled.turns = settled.turns.saturating_add(1);
    settled.turns > settled.until
}

/// Whether a look tells that two variables stand for one term; a pair whose look was long is kept.
fn is_seen<'a>(
    alloc: Global,
    store: &Store<'a>,
    settled: &mut Settled,
    pair: PlainPair<'a>,
) -> Result<bool, Memory>
    requires { AreSettled (bindings_of store.now) settled.old }
    ensures same { IfOk result (λ same. same ≡ true → AreSame (bindings_of store.now) pair.entry) }
    ensures settled { OnOk result (AreSettled (bindings_of store.now) settled.new) }
{
    if variable_of(pair.left).is_none() || variable_of(pair.right).is_none() {
        return Ok(false);
    }
    let near = (settled.turns / PART).saturating_add(NEAR);
    let seen = look(alloc, store, settled, near, pair)?;
    if !seen.same {
        let pause = seen.steps.saturating_add(1).saturating_mul(PAUSE);
        settled.until = settled.turns.saturating_add(pause);
        return Ok(false);
    }
    if seen.steps < WORTH {
        return Ok(true);
    }
    keep(settled, pair)?;
    Ok(true)
}

/// Whether two parts are variables that are known to stand for one term, or a look tells it, which is made before
/// some turns of a run alone.
pub fn is_settled<'a>(
    alloc: Global,
    store: &Store<'a>,
    settled: &mut Settled,
    pair: PlainPair<'a>,
) -> Result<bool, Memory>
    requires { AreSettled (bindings_of store.now) settled.old }
    ensures same { IfOk result (λ same. same ≡ true → AreSame (bindings_of store.now) pair.entry) }
    ensures settled { OnOk result (AreSettled (bindings_of store.now) settled.new) }
{
    if !is_time(settled) {
        return Ok(false);
    }
    is_seen(alloc, store, settled, pair)
}
