//! Reports of one line.

ghost use Rattle.std.specs.Prelude.{◌≡◌, IfOk};
ghost use Rattle.ap_bundle_reports.specs.CheckLines as spec;
ghost use Rattle.ap_checker.specs.Refusals.{refusal_of};
ghost use Rattle.ap_bundle_reports.specs.BundleReports as reports;

use ap_bundle::faults::BundleFault;
use ap_checker::refusals::Refusal;
use ap_defs::lists::List;
use ap_defs::memory::Memory;
use ap_report::{Report, Status};
use std::alloc::Global;

/// The report of a bundle's fault: its line. `Err` is want of memory.
pub fn bundle_fault_report(alloc: Global, fault: BundleFault) -> Result<Report, Memory>
    ensures { IfOk result (λ r. r ≡ reports.bundle_fault_report fault) }
{
    let line = fault.line;
    let number = fault.kind.number();
    let word = fault.kind.word();
    let text = format!(in alloc; "% bundle fault: line {line}, kind {number} {word}\n")?;
    Ok(Report {
        bytes: List::of(text.into_bytes()),
        status: Status::Syntax,
    })
}

/// The word of the rule with this number.
fn rule_word(rule: u32) -> &'static str
    ensures { result.now ≡ spec.rule_word rule }
{
    match rule {
        1 => "Shape",
        2 => "Clause",
        3 => "Count",
        4 => "Distinct",
        5 => "Typing",
        6 => "Head",
        7 => "Equal",
        8 => "Fresh",
        9 => "NewName",
        _ => "Answer",
    }
}

/// The report of a derivation that is refused.
pub fn refused_report(alloc: Global, refusal: Refusal) -> Result<Report, Memory>
    ensures { IfOk result (λ r. r ≡ reports.refused_report (refusal_of refusal)) }
{
    let Refusal { number, node, rule } = refusal;
    let word = rule_word(rule);
    let text = format!(in alloc; "% derivation {number}: node {node}, rule {rule} {word}\n")?;
    Ok(Report {
        bytes: List::of(text.into_bytes()),
        status: Status::NotChecked,
    })
}

/// The report of so many derivations that check.
pub fn checked_report(alloc: Global, count: usize) -> Result<Report, Memory>
    ensures { IfOk result (λ r. r ≡ reports.checked_report count) }
{
    let text = format!(in alloc; "% {count} derivations checked\n")?;
    Ok(Report {
        bytes: List::of(text.into_bytes()),
        status: Status::Ok,
    })
}
