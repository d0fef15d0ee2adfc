//! Ground terms for all variables of an answer, which meet its conditions.

ghost use Rattle.std.specs.Prelude.{◌≤◌, ◌<◌, IfOk, map};
ghost use Rattle.ap_defs.specs.Answers.{answer_of};
ghost use Rattle.ap_defs.specs.Types.{constructor_of};
ghost use Rattle.ap_coverer.specs.Covering.{AreNamesBelow, IsFilled};
ghost use Rattle.ap_picks.specs.Pickers.{IsPicker};
ghost use Rattle.ap_property.specs.StatementsOnProperties.{HasTypedVars};

use ap_defs::memory::Memory;
use ap_defs::outcomes::Answer;
use ap_defs::terms::{Cond, Name, Swap};
use ap_instance::picks::{Picks, picks_of};
use ap_perm::swappings::image;
use ap_picks::Picker;
use std::alloc::Global;

/// A number that is at least this one, and above the name's. `Err` is want of numbers.
fn above_name(above: u64, name: Name) -> Result<u64, Memory>
    ensures least { IfOk result (λ n. above ≤ n) }
    ensures name { IfOk result (λ n. name.num < n) }
{
    if name.num < above {
        return Ok(above);
    }
    if name.num == u64::MAX {
        return Err(Memory);
    }
    Ok(name.num + 1)
}

/// A number above those of the names of conditions under swappings. `Err` is want of numbers.
fn above_conds(swaps: &[Swap], conds: &[Cond]) -> Result<u64, Memory>
    ensures { IfOk result (λ n. AreNamesBelow n swaps.now conds.now) }
{
    let mut above = 0;
    let mut rest = conds;
    'passing: while let Some((cond, others)) = rest.split_first() {
        above = above_name(above, image(swaps, cond.name))?;
        rest = others;
    }
    Ok(above)
}

/// A ground term of its type for each variable of an answer, with new names alone: so they meet the conditions under
/// the swappings.
pub(crate) fn filling(
    alloc: Global,
    picker: &Picker<'_>,
    swaps: &[Swap],
    answer: &Answer,
) -> Result<Picks, Memory>
    requires picker { IsPicker picker.now }
    requires typed { HasTypedVars (map constructor_of picker.now.constructors.now)
        (answer_of answer.now) }
    ensures { IfOk result (λ p. IsFilled (map constructor_of picker.now.constructors.now)
        (answer_of answer.now) swaps.now p) }
{
    let first = above_conds(swaps, answer.conds.items())?;
    let mut sorts = Vec::new(alloc);
    picks_of(alloc, picker, first, answer.vars.items(), &mut sorts)
}
