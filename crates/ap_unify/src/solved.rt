//! Equations of two suspensions that were solved in this run, so that nothing is left of them.

ghost use Rattle.std.specs.Prelude.{◌≡◌, ◌==◌, ◌<◌, ◌≤◌, ◌+◌, ◌%◌, ◌^◌, ◌∷◌, ◌++◌, [], true, IfOk, OnOk, Some, length, slice_get, slice_set};
ghost use Rattle.ap_defs.specs.Freshness.{var_eq};
ghost use Rattle.ap_defs.specs.Substitution.{◌≐◌};
ghost use Rattle.ap_defs.specs.Terms.{act_term, susp};
ghost use Rattle.ap_defs.specs.Unification.{Stage};
ghost use Rattle.ap_unify.specs.Moved.{moved_equation, waiting};
ghost use Rattle.ap_unify.specs.Solved.{AllKnown, AreSolved, FindsOthers, IsSolvedIn, IsSolvedBefore, place_for, put_there, suspensions_equation, variables_of};

use crate::settled::variable_of;
use crate::sides::{Sides, between};
use ap_defs::memory::Memory;
use ap_defs::terms::{Swap, Var};
use ap_equations::plain::PlainPair;
use std::alloc::Global;
use std::collections::BTreeMap;

/// Of so many equations that are not known one is noted.
const ONE_IN: u64 = 16;

/// Two variables, and the swappings that wait on the second one, as a canonical list.
#[derive(Drop)]
pub struct Suspensions {
    pub x: Var,
    pub swaps: Vec<Swap>,
    pub y: Var,
}

/// Two suspensions whose equation is being solved. It is solved once no more equations are left than were behind it.
#[derive(Drop)]
pub struct Awaited {
    pub pair: Suspensions,
    pub behind: usize,
}

/// Suspensions whose equations are solved, the last ones of each two variables, with the places where they stand; those
/// whose equations are being solved; and how many equations were met that were not known. Where nothing is noted, none is
/// known.
#[derive(Drop)]
pub struct Solved {
    pub is_noting: bool,
    pub known: Vec<Suspensions>,
    pub places: BTreeMap<(u64, u64), usize>,
    pub awaited: Vec<Awaited>,
    pub met: u64,
}

impl Solved {
    ghost use Rattle.std.specs.Prelude.{◌≡◌, false, true};
    ghost use Rattle.ap_defs.specs.Unification.{Stage};
    ghost use Rattle.ap_unify.specs.Solved.{AreSolved};

    /// Nothing is known. It takes no memory.
    pub fn new(alloc: Global) -> Solved
        ensures solved { (r : Stage) → AreSolved r result }
        ensures noting { result.is_noting ≡ true }
    {
        Solved {
            is_noting: true,
            known: Vec::new(alloc),
            places: BTreeMap::new(alloc),
            awaited: Vec::new(alloc),
            met: 0,
        }
    }

    /// Nothing is known, and nothing will be noted. It takes no memory.
    pub fn without_notes(alloc: Global) -> Solved
        ensures solved { (r : Stage) → AreSolved r result }
        ensures noting { result.is_noting ≡ false }
    {
        Solved {
            is_noting: false,
            known: Vec::new(alloc),
            places: BTreeMap::new(alloc),
            awaited: Vec::new(alloc),
            met: 0,
        }
    }
}

/// Whether two lists of swappings are one.
fn are_one(p: &[Swap], q: &[Swap]) -> bool
    ensures { result ≡ true → p.now ≡ q.now }
{
    p == q
}

/// Whether two variables are one.
fn is_same(x: Var, y: Var) -> bool
    ensures { result ≡ var_eq x y }
{
    x.num == y.num
}

/// Whether two suspensions are these variables with the swappings that wait on the sides.
fn are_these(alloc: Global, e: &Suspensions, sides: &Sides, x: Var, y: Var) -> Result<bool, Memory>
    ensures { IfOk result (λ same. (r : Stage) → same ≡ true →
        IsSolvedIn r (suspensions_equation e.now) →
        IsSolvedIn r (act_term (waiting sides.now.left) (susp [] x)
        ≐ act_term (waiting sides.now.right) (susp [] y))) }
{
    if !is_same(e.x, x) {
        return Ok(false);
    }
    if !is_same(e.y, y) {
        return Ok(false);
    }
    let swaps = between(alloc, sides)?;
    Ok(are_one(&e.swaps, &swaps))
}

/// Whether the equation of two variables with the swappings that wait on the sides stands at a place of those that are
/// solved.
fn is_at(
    alloc: Global,
    known: &[Suspensions],
    place: usize,
    sides: &Sides,
    x: Var,
    y: Var,
) -> Result<bool, Memory>
    ensures { IfOk result (λ same. (r : Stage) → same ≡ true → AllKnown r known.now →
        IsSolvedIn r (act_term (waiting sides.now.left) (susp [] x)
        ≐ act_term (waiting sides.now.right) (susp [] y))) }
{
    if place < known.len() {
        are_these(alloc, &known[place], sides, x, y)
    } else {
        Ok(false)
    }
}

/// Whether the equation of two variables with the swappings that wait on the sides is known to be solved.
fn is_known(alloc: Global, solved: &Solved, sides: &Sides, x: Var, y: Var) -> Result<bool, Memory>
    ensures { IfOk result (λ same. (r : Stage) → same ≡ true → AreSolved r solved.now →
        IsSolvedIn r (act_term (waiting sides.now.left) (susp [] x)
        ≐ act_term (waiting sides.now.right) (susp [] y))) }
{
    match solved.places.get(&(x.num, y.num)) {
        Some(place) => is_at(alloc, &solved.known, *place, sides, x, y),
        None => Ok(false),
    }
}

/// The place where suspensions of two variables stand, or the next one where there are none.
fn place_of(solved: &Solved, variables: (u64, u64)) -> usize
    ensures { result ≡ place_for solved.now variables }
{
    match solved.places.get(&variables) {
        Some(place) => *place,
        None => solved.known.len(),
    }
}

/// Puts suspensions in the place of others.
fn put_in_place(known: &mut Vec<Suspensions>, place: usize, pair: Suspensions)
    requires { place < length known.old.items }
    ensures { known.new.items ≡ slice_set known.old.items place pair }
{
    known[place] = pair;
}

/// Puts suspensions behind the others.
fn put_behind(solved: &mut Solved, pair: Suspensions) -> Result<(), Memory>
    ensures known { OnOk result (solved.new.known.items ≡ solved.old.known.items ++ pair ∷ []) }
    ensures found { OnOk result (
        slice_get solved.new.known.items (place_for solved.new (variables_of pair)) ≡ Some pair) }
    ensures others { OnOk result (FindsOthers (variables_of pair) solved.old solved.new) }
    ensures awaited { solved.new.awaited.items ≡ solved.old.awaited.items }
{
    let variables = (pair.x.num, pair.y.num);
    let place = solved.known.len();
    solved.known.push(pair)?;
    solved.places.insert(variables, place)?;
    Ok(())
}

/// Keeps two suspensions whose equation is solved, in place of those of the same variables.
fn learn(solved: &mut Solved, pair: Suspensions) -> Result<(), Memory>
    ensures known { OnOk result (solved.new.known.items
        ≡ put_there solved.old.known.items (place_for solved.old (variables_of pair)) pair) }
    ensures found { OnOk result (
        slice_get solved.new.known.items (place_for solved.new (variables_of pair)) ≡ Some pair) }
    ensures others { OnOk result (FindsOthers (variables_of pair) solved.old solved.new) }
    ensures awaited { solved.new.awaited.items ≡ solved.old.awaited.items }
{
    let place = place_of(solved, (pair.x.num, pair.y.num));
    if place < solved.known.len() {
        put_in_place(&mut solved.known, place, pair);
        return Ok(());
    }
    put_behind(solved, pair)
}

/// Keeps those as solved whose equations are, where so many are left.
pub fn take_solved(solved: &mut Solved, left: usize) -> Result<(), Memory>
    ensures { OnOk result ((r : Stage) → length r.equations ≤ left → AreSolved r solved.old →
        AreSolved r solved.new) }
{
    'taking: while let Some(last) = solved.awaited.pop() {
        if last.behind < left {
            solved.awaited.push(last)?;
            return Ok(());
        }
        let Awaited { pair, behind: _ } = last;
        learn(solved, pair)?;
    }
    Ok(())
}

/// Notes the equation of two variables with the swappings that wait on the sides, before so many others.
fn note(
    alloc: Global,
    solved: &mut Solved,
    sides: &Sides,
    x: Var,
    y: Var,
    behind: usize,
) -> Result<(), Memory>
    ensures { OnOk result ((r : Stage) → AreSolved r solved.old → IsSolvedBefore r behind
        (act_term (waiting sides.now.left) (susp [] x)
        ≐ act_term (waiting sides.now.right) (susp [] y)) → AreSolved r solved.new) }
{
    let swaps = between(alloc, sides)?;
    let pair = Suspensions { x, swaps, y };
    solved.awaited.push(Awaited { pair, behind })?;
    Ok(())
}

/// Counts an equation that is not known, and tells whether it is to be noted.
fn is_turn(solved: &mut Solved) -> bool
    ensures turn { result ≡ (solved.new.met % 16 == 0) }
    ensures met { solved.new.met ≡ (solved.old.met + 1) % 2 ^ 64 }
    ensures solved { (r : Stage) → AreSolved r solved.old → AreSolved r solved.new }
{
    solved.met = solved.met.wrapping_add(1);
    solved.met % ONE_IN == 0
}

/// Whether the equation of two variables with the swappings that wait on the sides is known to be solved. If not, one in
/// so many is noted.
fn is_solved_for(
    alloc: Global,
    solved: &mut Solved,
    sides: &Sides,
    x: Var,
    y: Var,
    behind: usize,
) -> Result<bool, Memory>
    ensures known { IfOk result (λ same. (r : Stage) → same ≡ true → AreSolved r solved.old →
        IsSolvedIn r (act_term (waiting sides.now.left) (susp [] x)
        ≐ act_term (waiting sides.now.right) (susp [] y))) }
    ensures solved { OnOk result ((r : Stage) → AreSolved r solved.old → IsSolvedBefore r behind
        (act_term (waiting sides.now.left) (susp [] x)
        ≐ act_term (waiting sides.now.right) (susp [] y)) → AreSolved r solved.new) }
{
    if is_known(alloc, solved, sides, x, y)? {
        return Ok(true);
    }
    if is_turn(solved) {
        note(alloc, solved, sides, x, y, behind)?;
    }
    Ok(false)
}

/// Whether two parts are variables whose equation, with the swappings that wait on the sides, is known to be solved. If
/// not, one in so many is noted, with how many equations are behind it.
pub fn is_solved(
    alloc: Global,
    solved: &mut Solved,
    sides: &Sides,
    pair: PlainPair<'_>,
    behind: usize,
) -> Result<bool, Memory>
    ensures known { IfOk result (λ same. (r : Stage) → same ≡ true → AreSolved r solved.old →
        IsSolvedIn r (moved_equation sides.now pair.entry)) }
    ensures solved { OnOk result ((r : Stage) → AreSolved r solved.old →
        IsSolvedBefore r behind (moved_equation sides.now pair.entry) → AreSolved r solved.new) }
{
    if !solved.is_noting {
        return Ok(false);
    }
    match (variable_of(pair.left), variable_of(pair.right)) {
        (Some(x), Some(y)) => is_solved_for(alloc, solved, sides, x, y, behind),
        _ => Ok(false),
    }
}
