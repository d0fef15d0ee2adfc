//! Reports of the verdicts on derivations.

ghost use Rattle.std.specs.Prelude.{◌≡◌, IfOk, map};
ghost use Rattle.std.specs.Option.{option_map};
ghost use Rattle.ap_defs.specs.Goals.{program_of};
ghost use Rattle.ap_bundle.specs.Bundles.{proved_of};
ghost use Rattle.ap_bundle_reports.specs.BundleReports.{check_report, refused_report};
ghost use Rattle.ap_shared.specs.SharedViews.{shared_proved};
ghost use Rattle.ap_verdicts.specs.Verdicts.{first_refused};

use crate::lines;
use ap_checker::refusals::{first_refused, first_shared_refused};
use ap_defs::memory::Memory;
use ap_defs::outcomes::Proved;
use ap_program::restricted::Restricted;
use ap_report::Report;
use ap_shared::derivations::SharedProved;
use std::alloc::Global;

/// The report of the first derivation that is refused, if one is. `Err` is want of memory.
pub fn report_of_refused(
    alloc: Global,
    program: &Restricted,
    proved: &[Proved],
) -> Result<Option<Report>, Memory>
    ensures { IfOk result (λ o. o ≡ option_map refused_report
        (first_refused (program_of program.now) 1 (map proved_of proved.now))) }
{
    match first_refused(alloc, program, proved)? {
        Some(refusal) => Ok(Some(lines::refused_report(alloc, refusal)?)),
        None => Ok(None),
    }
}

/// The report on derivations for a program: the first that is refused, or how many there are.
pub fn report_verdicts(
    alloc: Global,
    program: &Restricted,
    proved: &[SharedProved],
) -> Result<Report, Memory>
    ensures { IfOk result (λ r. r
        ≡ check_report (map shared_proved proved.now) (program_of program.now)) }
{
    match first_shared_refused(alloc, program, proved)? {
        Some(refusal) => lines::refused_report(alloc, refusal),
        None => lines::checked_report(alloc, proved.len()),
    }
}
