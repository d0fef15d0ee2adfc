//! Clauses in order of their items.

ghost use Rattle.std.specs.Prelude.{◌≡◌, IfOk};
ghost use Rattle.ap_text_commands.specs.Counts as spec;

use crate::counting::counts::ClauseCount;
use ap_defs::memory::Memory;
use std::alloc::Global;
use std::collections::BTreeMap;

/// The counts in order of items.
pub(crate) fn in_order_of_items(
    alloc: Global,
    counts: &[ClauseCount],
) -> Result<Vec<ClauseCount>, Memory>
    ensures { IfOk result (λ v. v.items ≡ spec.in_order_of_items counts.now) }
{
    let mut placed = BTreeMap::new(alloc);
    for i in (0..counts.len()).rev() {
        let count = counts[i];
        placed.insert((count.item, i), count)?;
    }
    let ordered = placed.values().copied().collect(alloc)?;
    Ok(ordered)
}
