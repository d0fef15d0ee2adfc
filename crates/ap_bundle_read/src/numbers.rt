// The numbers that belong to a letter. The last of the vector is the first.
ghost use Rattle.std.specs.Prelude.{◌≡◌, reverse, IfOk};
ghost use Rattle.std.specs.Option.{option_map};
ghost use Rattle.ap_bundle.specs.Forms as spec;

use ap_defs::memory::Memory;
use ap_defs::terms::{Name, Swap};
use std::alloc::Global;

/// The first number, taken off.
pub(crate) fn first_number(numbers: &mut Vec<u64>) -> Option<u64>
    ensures { option_map (λ n. (n, reverse numbers.new.items)) result
        ≡ spec.first (reverse numbers.old.items) }
{
    numbers.pop()
}

/// A number below 2 ^ 32.
#[tactic(auto, unfolding(ap_bundle::specs::Forms::small))]
pub(crate) fn small(numbers: &mut Vec<u64>) -> Option<u32>
    ensures { option_map (λ n. (n, reverse numbers.new.items)) result
        ≡ spec.small (reverse numbers.old.items) }
{
    let number = first_number(numbers)?;
    u32::try_from(number).ok()
}

#[tactic(auto, unfolding(ap_bundle::specs::Forms::a_name))]
pub(crate) fn a_name(numbers: &mut Vec<u64>) -> Option<Name>
    ensures { option_map (λ a. (a, reverse numbers.new.items)) result
        ≡ spec.a_name (reverse numbers.old.items) }
{
    let sort = small(numbers)?;
    let num = first_number(numbers)?;
    Some(Name { sort, num })
}

#[tactic(auto, unfolding(ap_bundle::specs::Forms::a_swap))]
fn a_swap(numbers: &mut Vec<u64>) -> Option<Swap>
    ensures { option_map (λ s. (s, reverse numbers.new.items)) result
        ≡ spec.a_swap (reverse numbers.old.items) }
{
    let sort = small(numbers)?;
    let left = first_number(numbers)?;
    let right = first_number(numbers)?;
    Some(Swap { sort, left, right })
}

/// So many swappings.
pub(crate) fn swaps(
    alloc: Global,
    count: u64,
    numbers: &mut Vec<u64>,
) -> Result<Option<Vec<Swap>>, Memory>
    ensures { IfOk result (λ r. option_map (λ v. (v.items, reverse numbers.new.items)) r
        ≡ spec.swaps count (reverse numbers.old.items)) }
{
    let mut all = Vec::new(alloc);
    for _ in 0..count {
        let Some(swap) = a_swap(numbers) else {
            return Ok(None);
        };
        all.push(swap)?;
    }
    Ok(Some(all))
}
