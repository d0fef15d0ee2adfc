//! The constructor that is chosen for each data type.

ghost use Rattle.std.specs.Prelude.{◌≡◌, ◌<◌, ◌≤◌, ℕ, List as list, [], ◌∷◌, ◌++◌, Bool, true, false, Some, None, is_some, length, map, take, IfOk, slice_get};
ghost use Rattle.ap_defs.specs.Types.{constructor_of, type_of};
ghost use Rattle.ap_types.specs.Inhabited.{all_inhabited, inhabited_if};
ghost use Rattle.ap_types.specs.Rounds.{marked};
ghost use Rattle.ap_picks.specs.Choices.{AreChoices, choice_in};
ghost use Rattle.ap_picks.specs.Picks.{data_bound};
ghost use Rattle.ap_picks.specs.ChoiceRounds.{GoesRound, IsLookedAt};

use ap_defs::goals::Constructor;
use ap_defs::memory::Memory;
use ap_defs::terms::Ty;
use std::alloc::Global;

/// The constructor that is chosen for a data type: its place among the declared ones, from 0, and after how
/// many rounds it is the first of which each argument is inhabited.
#[derive(Clone, Copy)]
pub struct Choice {
    pub rounds: usize,
    pub place: usize,
}

/// Whether a data type is marked.
fn is_marked(found: &[bool], base: u32) -> bool
    ensures { result ≡ marked found.now base }
{
    let place = base as usize;
    place < found.len() && found[place]
}

/// Whether a type is inhabited, by the data types that are marked as inhabited. It calls itself on left parts
/// of pairs alone.
fn is_inhabited_by(found: &[bool], ty: &Ty) -> bool
    ensures { result ≡ inhabited_if (marked found.now) (type_of ty.now) }
{
    let mut rest = ty;
    loop {
        match rest {
            Ty::Unit | Ty::Names(_) | Ty::List(_) => return true,
            Ty::Base(base) => return is_marked(found, *base),
            Ty::Pair(left, right) => {
                if !is_inhabited_by(found, left) {
                    return false;
                }
                rest = right;
            }
            Ty::Abs(_, body) => rest = body,
        }
    }
}

/// Whether each of a constructor's arguments is.
fn are_inhabited_by(found: &[bool], args: &[Ty]) -> bool
    ensures { result ≡ all_inhabited (marked found.now) (map type_of args.now) }
{
    let mut rest = args;
    'testing: while let [ty, others @ ..] = rest {
        if !is_inhabited_by(found, ty) {
            return false;
        }
        rest = others;
    }
    true
}

/// One more than the greatest number of a data type with a constructor.
pub(crate) fn bound_of(constructors: &[Constructor]) -> usize
    ensures { result ≡ data_bound (map constructor_of constructors.now) }
{
    let mut bound: usize = 0;
    let mut rest = constructors;
    'bounding: while let [constructor, others @ ..] = rest {
        bound = bound.max(constructor.result as usize + 1);
        rest = others;
    }
    bound
}

/// Which data types have a choice.
fn found_in(alloc: Global, choices: &[Option<Choice>]) -> Result<Vec<bool>, Memory>
    ensures { IfOk result (λ v. (d : ℕ) → marked v.items d ≡ is_some (choice_in choices.now d)) }
{
    let mut found = Vec::with_capacity(alloc, choices.len())?;
    for choice in choices {
        found.push(choice.is_some())?;
    }
    Ok(found)
}

/// Looks at the constructor at a place in the round after so many others: its data type has it as its choice
/// where it has none, and each argument is inhabited by the data types that the rounds before found. It
/// answers whether that is so.
fn choose(
    found: &[bool],
    constructor: &Constructor,
    choice: Choice,
    choices: &mut Vec<Option<Choice>>,
) -> bool
    ensures { IsLookedAt (marked found.now) (constructor_of constructor.now) choice
        choices.old.items choices.new.items result }
{
    let base = constructor.result as usize;
    if base >= choices.len() {
        return false;
    }
    if choices[base].is_some() {
        return false;
    }
    if !are_inhabited_by(found, constructor.args.items()) {
        return false;
    }
    choices[base] = Some(choice);
    true
}

/// Looks at each constructor in the round after so many others. It answers whether a data type was found.
fn go_round(
    constructors: &[Constructor],
    found: &[bool],
    rounds: usize,
    choices: &mut Vec<Option<Choice>>,
) -> bool
    requires { data_bound (map constructor_of constructors.now) ≤ length choices.old.items }
    ensures { GoesRound (map constructor_of constructors.now) (marked found.now) rounds
        choices.old.items choices.new.items result }
{
    let mut more = false;
    for place in 0..constructors.len() {
        let choice = Choice { rounds, place };
        if choose(found, &constructors[place], choice, choices) {
            more = true;
        }
    }
    more
}

/// The constructor that is chosen for each data type, by its number: of those whose arguments are inhabited by
/// data types that earlier rounds find than its own the first one; none for a data type without terms. It costs
/// as much as the constructors are long together, a round.
pub fn choices_of(
    alloc: Global,
    constructors: &[Constructor],
) -> Result<Vec<Option<Choice>>, Memory>
    ensures { IfOk result (λ v. AreChoices (map constructor_of constructors.now) v.items) }
{
    let bound = bound_of(constructors);
    let mut choices = Vec::from_elem(alloc, None, bound)?;
    for rounds in 0..bound {
        let found = found_in(alloc, &choices)?;
        if !go_round(constructors, &found, rounds, &mut choices) {
            return Ok(choices);
        }
    }
    Ok(choices)
}
