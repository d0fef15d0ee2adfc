//! What variables stand for, entered in a table.
//!
//! Each variable is closed once: the term that it is bound to is entered behind its parts, of which those
//! that are variables have a line already or get one, and its line is kept. So what it takes is linear in the
//! terms of the program and the query that variables are bound to, however large the terms are that they
//! stand for. Where swappings act on a bound variable, its term is entered anew.

ghost use Rattle.std.specs.Prelude.{◌≡◌, ◌<◌, [], IfOk, None, OnOk, Some, length, map, set};
ghost use Rattle.ap_defs.specs.Answers.{closed_term};
ghost use Rattle.ap_defs.specs.Canonical.{canonical};
ghost use Rattle.ap_defs.specs.Terms.{susp};
ghost use Rattle.ap_machine.specs.Views.{state_in};
ghost use Rattle.ap_search.specs.Records.{closed_vars};
ghost use Rattle.ap_perm.specs.Closures.{closure_term, lent_term};
ghost use Rattle.ap_shared.specs.Shared.{AreLinesBelow, IsBehind, IsGrown, entry_term, shared_at};
ghost use Rattle.ap_store.specs.Views.{raw_bound};
ghost use Rattle.ap_derive.specs.declared.closing.Closing.{Closing};
ghost use Rattle.ap_derive.specs.Closing.{PartGoesOn, PartGoesOut, IsClosing, IsPartForVar, IsRoundWithin, closing_terms, kept_line};

use ap_defs::lists::Swaps;
use ap_defs::memory::Memory;
use ap_defs::terms::{Name, Swap, Var};
use ap_perm::closures::{Closure, Lent, Opened};
use ap_perm::joining::joined;
use ap_perm::swappings::canonical_list;
use ap_shared::arena::SharedTerms;
use ap_shared::lines::Entry;
use ap_store::store::Store;
use std::alloc::Global;

/// A table of terms, and the lines of the variables that were closed, by their numbers.
#[derive(Drop)]
pub struct Closing {
    pub terms: SharedTerms,
    pub lines: Vec<Option<usize>>,
}

/// What stands round the part of a term that is entered: the part is right of a line, left of a term that is
/// still to be entered, the argument of a constructor, the body of an abstraction, or what a variable stands
/// for.
#[derive(Drop)]
pub enum Round<'a> {
    RightOf(usize),
    LeftOf(Closure<'a>),
    App(u32),
    Abs(Name),
    Bound(Var),
}

/// A part of a term that is still to be entered, or the line of one that was.
#[derive(Drop)]
pub enum Part<'a> {
    Left(Closure<'a>),
    Made(usize),
}

/// The line that is kept for a variable.
#[tactic(auto, using(crate::proofs::ClosingLemmas::none_past))]
fn kept(closing: &Closing, x: Var) -> Option<usize>
    ensures { result ≡ kept_line closing.now.lines.items x.num }
{
    let place = x.num as usize;
    if place >= closing.lines.len() {
        return None;
    }
    closing.lines[place]
}

/// Keeps the line of a variable.
#[tactic(auto, using(std::proofs::lemmas::List::set_past))]
fn keep(closing: &mut Closing, x: Var, line: usize)
    ensures terms { closing.new.terms ≡ closing.old.terms }
    ensures lines { closing.new.lines.items ≡ set closing.old.lines.items x.num (Some line) }
{
    let place = x.num as usize;
    if place >= closing.lines.len() {
        return;
    }
    closing.lines[place] = Some(line);
}

/// One line more.
fn add_line(closing: &mut Closing, entry: Entry) -> Result<usize, Memory>
    requires { IsBehind (length (closing_terms closing.old)) entry }
    ensures lines { OnOk result (closing.new.lines.items ≡ closing.old.lines.items) }
    ensures grown { OnOk result (IsGrown (closing_terms closing.old) (closing_terms closing.new)) }
    ensures within { IfOk result (λ i. i < length (closing_terms closing.new)) }
    ensures line { IfOk result (λ i. shared_at (closing_terms closing.new) i
        ≡ entry_term (closing_terms closing.old) entry) }
{
    let line = closing.terms.add(entry)?;
    Ok(line)
}

/// The canonical list of a permutation. Where nothing is moved, as nearly always, it takes no time.
fn canonical_of(alloc: Global, swaps: Vec<Swap>) -> Result<Vec<Swap>, Memory>
    ensures { IfOk result (λ r. r.items ≡ canonical swaps.items) }
{
    if swaps.is_empty() {
        return Ok(swaps);
    }
    canonical_list(alloc, &swaps)
}

/// The line of a variable that is not bound, with these swappings.
fn close_unbound<'a>(
    alloc: Global,
    store: &Store<'a>,
    closing: &mut Closing,
    swaps: Vec<Swap>,
    x: Var,
) -> Result<Part<'a>, Memory>
    requires { raw_bound store.now x ≡ None }
    ensures { IfOk result (IsPartForVar store.now closing.old closing.new (susp swaps.items x)) }
{
    let ascending = canonical_of(alloc, swaps)?;
    let waiting = Swaps::of(alloc, ascending)?;
    let line = add_line(closing, Entry::Susp(waiting, x))?;
    Ok(Part::Made(line))
}

/// What a variable is bound to, with these swappings before its own.
fn close_bound<'a>(
    alloc: Global,
    store: &Store<'a>,
    swaps: Vec<Swap>,
    x: Var,
    bound: Lent<'_, 'a>,
) -> Result<Part<'a>, Memory>
    requires { raw_bound store.now x ≡ Some (lent_term bound) }
    ensures { IfOk result (λ p. (closing : Closing) →
        IsPartForVar store.now closing closing (susp swaps.items x) p) }
{
    let all = joined(alloc, &swaps, bound.swaps)?;
    Ok(Part::Left(Closure {
        swaps: all,
        base: bound.base,
        end: bound.end,
        term: bound.term,
    }))
}

/// Goes to what a variable is bound to, with these swappings; one that is not bound gets a line.
fn go_on<'a>(
    alloc: Global,
    store: &Store<'a>,
    closing: &mut Closing,
    swaps: Vec<Swap>,
    x: Var,
) -> Result<Part<'a>, Memory>
    ensures { IfOk result (IsPartForVar store.now closing.old closing.new (susp swaps.items x)) }
{
    match store.binding(x) {
        None => close_unbound(alloc, store, closing, swaps, x),
        Some(bound) => close_bound(alloc, store, swaps, x, bound),
    }
}

/// Goes to a variable without swappings, which waits for its line.
fn wait_for<'a>(
    alloc: Global,
    store: &Store<'a>,
    closing: &mut Closing,
    rounds: &mut Vec<Round<'a>>,
    swaps: Vec<Swap>,
    x: Var,
) -> Result<Part<'a>, Memory>
    requires { swaps.items ≡ [] }
    ensures { IfOk result (PartGoesOn store.now closing.old closing.new rounds.old.items
        rounds.new.items (susp swaps.items x)) }
{
    rounds.push(Round::Bound(x))?;
    let part = go_on(alloc, store, closing, swaps, x)?;
    Ok(part)
}

/// Goes to a variable without swappings: its line is taken where one is kept, and else it waits for its line.
fn go_to_bare<'a>(
    alloc: Global,
    store: &Store<'a>,
    closing: &mut Closing,
    rounds: &mut Vec<Round<'a>>,
    swaps: Vec<Swap>,
    x: Var,
) -> Result<Part<'a>, Memory>
    requires closing { IsClosing store.now closing.old }
    requires bare { swaps.items ≡ [] }
    ensures { IfOk result (PartGoesOn store.now closing.old closing.new rounds.old.items
        rounds.new.items (susp swaps.items x)) }
{
    match kept(closing, x) {
        Some(line) => Ok(Part::Made(line)),
        None => wait_for(alloc, store, closing, rounds, swaps, x),
    }
}

/// Goes to a variable on which swappings act: what it is bound to is entered anew.
fn go_to_moved<'a>(
    alloc: Global,
    store: &Store<'a>,
    closing: &mut Closing,
    rounds: &mut Vec<Round<'a>>,
    swaps: Vec<Swap>,
    x: Var,
) -> Result<Part<'a>, Memory>
    ensures { IfOk result (PartGoesOn store.now closing.old closing.new rounds.old.items
        rounds.new.items (susp swaps.items x)) }
{
    let part = go_on(alloc, store, closing, swaps, x)?;
    Ok(part)
}

/// Goes to a variable.
fn go_to<'a>(
    alloc: Global,
    store: &Store<'a>,
    closing: &mut Closing,
    rounds: &mut Vec<Round<'a>>,
    swaps: Vec<Swap>,
    x: Var,
) -> Result<Part<'a>, Memory>
    requires { IsClosing store.now closing.old }
    ensures { IfOk result (PartGoesOn store.now closing.old closing.new rounds.old.items
        rounds.new.items (susp swaps.items x)) }
{
    if swaps.is_empty() {
        go_to_bare(alloc, store, closing, rounds, swaps, x)
    } else {
        go_to_moved(alloc, store, closing, rounds, swaps, x)
    }
}

/// Goes into a part that is still to be entered: what stands round the next one is kept, unless this one has
/// no parts.
fn go_in<'a>(
    alloc: Global,
    store: &Store<'a>,
    closing: &mut Closing,
    rounds: &mut Vec<Round<'a>>,
    c: Closure<'a>,
) -> Result<Part<'a>, Memory>
    requires { IsClosing store.now closing.old }
    ensures { IfOk result (PartGoesOn store.now closing.old closing.new rounds.old.items
        rounds.new.items (closure_term c.entry)) }
{
    match c.open(alloc)? {
        Opened::Unit => {
            let line = add_line(closing, Entry::Unit)?;
            Ok(Part::Made(line))
        }
        Opened::Name(a) => {
            let line = add_line(closing, Entry::Name(a))?;
            Ok(Part::Made(line))
        }
        Opened::Susp(swaps, x) => {
            let part = go_to(alloc, store, closing, rounds, swaps, x)?;
            Ok(part)
        }
        Opened::Pair(left, right) => {
            rounds.push(Round::LeftOf(right))?;
            Ok(Part::Left(left))
        }
        Opened::App(f, argument) => {
            rounds.push(Round::App(f))?;
            Ok(Part::Left(argument))
        }
        Opened::Abs(a, body) => {
            rounds.push(Round::Abs(a))?;
            Ok(Part::Left(body))
        }
    }
}

/// Goes out of a part that has a line: into what stands right of it where that is still to be entered, and
/// else what stands round it gets a line.
fn go_out<'a>(
    closing: &mut Closing,
    rounds: &mut Vec<Round<'a>>,
    round: Round<'a>,
    made: usize,
) -> Result<Part<'a>, Memory>
    requires made { made < length (closing_terms closing.old) }
    requires round { IsRoundWithin (length (closing_terms closing.old)) round }
    ensures { IfOk result (PartGoesOut closing.old closing.new rounds.old.items rounds.new.items
        round.entry made) }
{
    match round {
        Round::RightOf(left) => {
            let line = add_line(closing, Entry::Pair(left, made))?;
            Ok(Part::Made(line))
        }
        Round::LeftOf(right) => {
            rounds.push(Round::RightOf(made))?;
            Ok(Part::Left(right))
        }
        Round::App(f) => {
            let line = add_line(closing, Entry::App(f, made))?;
            Ok(Part::Made(line))
        }
        Round::Abs(a) => {
            let line = add_line(closing, Entry::Abs(a.sort, a.num, made))?;
            Ok(Part::Made(line))
        }
        Round::Bound(x) => {
            keep(closing, x, made);
            Ok(Part::Made(made))
        }
    }
}

/// The line of what a variable stands for, with canonical lists.
pub(crate) fn close_var<'a>(
    alloc: Global,
    store: &Store<'a>,
    closing: &mut Closing,
    x: Var,
) -> Result<usize, Memory>
    requires { IsClosing store.now closing.old }
    ensures closing { OnOk result (IsClosing store.now closing.new) }
    ensures grown { OnOk result (IsGrown (closing_terms closing.old) (closing_terms closing.new)) }
    ensures within { IfOk result (λ i. i < length (closing_terms closing.new)) }
    ensures line { IfOk result (λ i. shared_at (closing_terms closing.new) i
        ≡ closed_term (state_in store.now) (susp [] x)) }
{
    let mut rounds = Vec::new(alloc);
    let none = Vec::new(alloc);
    let mut part = go_to(alloc, store, closing, &mut rounds, none, x)?;
    'walking: loop {
        match part {
            Part::Left(c) => {
                let inner = go_in(alloc, store, closing, &mut rounds, c)?;
                part = inner;
            }
            Part::Made(line) => {
                let Some(round) = rounds.pop() else {
                    return Ok(line);
                };
                let outer = go_out(closing, &mut rounds, round, line)?;
                part = outer;
            }
        }
    }
}

/// The lines of what variables stand for.
pub(crate) fn close_each(
    alloc: Global,
    store: &Store<'_>,
    closing: &mut Closing,
    vars: &[Var],
) -> Result<Vec<usize>, Memory>
    requires { IsClosing store.now closing.old }
    ensures closing { OnOk result (IsClosing store.now closing.new) }
    ensures grown { OnOk result (IsGrown (closing_terms closing.old) (closing_terms closing.new)) }
    ensures below { IfOk result (λ ls.
        AreLinesBelow (length (closing_terms closing.new)) ls.items) }
    ensures lines { IfOk result (λ ls. map (shared_at (closing_terms closing.new)) ls.items
        ≡ closed_vars (state_in store.now) vars.now) }
{
    let mut lines = Vec::new(alloc);
    for x in vars {
        let line = close_var(alloc, store, closing, *x)?;
        lines.push(line)?;
    }
    Ok(lines)
}
