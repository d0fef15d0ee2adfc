// The reports of faults.
ghost use Rattle.std.specs.Prelude.{◌≡◌, IfOk};
ghost use Rattle.ap_report.specs.FaultLines as spec;

use crate::{Report, Status};
use ap_defs::faults::{Fault, NameFault, Place};
use ap_defs::lists::List;
use ap_defs::memory::Memory;
use std::alloc::Global;

/// The line of a fault at a place.
fn fault_line(
    alloc: Global,
    what: &str,
    place: Place,
    kind: u32,
    said: &str,
) -> Result<List<u8>, Memory>
    ensures { IfOk result (λ bytes. bytes ≡ spec.fault_line what.now place kind said.now) }
{
    let Place { item, line } = place;
    let text = format!(in alloc; "% {what} fault: item {item}, line {line}, kind {kind} {said}\n")?;
    Ok(List::of(text.into_bytes()))
}

/// The line of a fault of an item's names.
fn name_line(alloc: Global, fault: &NameFault) -> Result<List<u8>, Memory>
    ensures { IfOk result (λ bytes. bytes ≡ (spec.fault_report (Fault.Names fault.now)).bytes) }
{
    let word = fault.kind.word();
    let name = fault.name.as_str();
    let said = format!(in alloc; "{word}, name {name}")?;
    fault_line(alloc, "name", fault.place, fault.kind.number(), &said)
}

/// The report of a text's first fault: one line. `Err` is want of memory.
pub fn fault_report(alloc: Global, fault: &Fault) -> Result<Report, Memory>
    ensures { IfOk result (λ r. r ≡ spec.fault_report fault.now) }
{
    match fault {
        Fault::Syntax(f) => Ok(Report {
            bytes: fault_line(alloc, "syntax", f.place, f.kind.number(), f.kind.word())?,
            status: Status::Syntax,
        }),
        Fault::Types(f) => Ok(Report {
            bytes: fault_line(alloc, "type", f.place, f.kind.number(), f.kind.word())?,
            status: Status::Types,
        }),
        Fault::Names(f) => Ok(Report {
            bytes: name_line(alloc, f)?,
            status: Status::Names,
        }),
    }
}
