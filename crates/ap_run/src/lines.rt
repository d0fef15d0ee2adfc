// Reports of one line.
ghost use Rattle.std.specs.Prelude.{◌≡◌, IfOk};
ghost use Rattle.ap_run.specs.Inputs.{line as line_of};

use ap_defs::lists::List;
use ap_defs::memory::Memory;
use ap_report::{Report, Status};
use std::alloc::Global;

/// A report of one line. `Err` is want of memory.
pub fn line(alloc: Global, text: &str, status: Status) -> Result<Report, Memory>
    ensures { IfOk result (λ r. r ≡ line_of text.now status) }
{
    Ok(Report {
        bytes: List::of(text.as_bytes().to_vec(alloc)?),
        status,
    })
}
