//! The lines of clauses.

ghost use Rattle.std.specs.Prelude.{◌≡◌, ◌++◌, IfOk, OnOk, flat_map};
ghost use Rattle.ap_text_commands.specs.CountReports.{count_line};

use crate::counting::counts::ClauseCount;
use ap_defs::memory::Memory;
use std::alloc::Global;

/// Writes the line of a clause.
fn write_count(alloc: Global, out: &mut Vec<u8>, count: ClauseCount) -> Result<(), Memory>
    ensures { OnOk result (out.new.items ≡ out.old.items ++ count_line count) }
{
    let ClauseCount { item, line, uses } = count;
    let text = format!(in alloc; "% item {item}, line {line}: {uses} uses\n")?;
    out.extend_from_slice(text.as_bytes())?;
    Ok(())
}

/// The lines of clauses.
pub(crate) fn lines_of(alloc: Global, counts: &[ClauseCount]) -> Result<Vec<u8>, Memory>
    ensures { IfOk result (λ v. v.items ≡ flat_map count_line counts.now) }
{
    let mut out = Vec::new(alloc);
    for count in counts {
        write_count(alloc, &mut out, *count)?;
    }
    Ok(out)
}
