//! What is said beside reports.

use crate::session::Settings;
use ap_defs::limits::{GREATEST_DEPTH, SIZE_LIMIT};
use ap_defs::memory::Memory;
use ap_explain::explain_text;
use ap_inputs::orders::MOST_ANSWERS;
use ap_located::Tally;
use ap_report::{Report, Status};
use std::alloc::Global;

/// What is said of a text that is too large.
pub(crate) const TOO_LARGE: &str = "error: the text has more than 16777216 bytes\n";

// What is said of a query that is no property.
const NOT_A_PROPERTY: &str =
    "error: the query is no property\n  = a property has a `,`: its last goal is to hold wherever those before it do\n";

/// A message of its own.
pub(crate) fn message(alloc: Global, text: &str) -> Result<String, Memory> {
    let mut said = String::new(alloc);
    said.push_str(text)?;
    Ok(said)
}

/// How many lines of a report are answers.
fn count_answers(report: &[u8]) -> u64 {
    let mut count: u64 = 0;
    let mut begins = true;
    for byte in report {
        if begins && *byte != b'%' {
            count = count.saturating_add(1);
        }
        begins = *byte == b'\n';
    }
    count
}

/// What is said where branches were cut.
fn say_cut(said: &mut String, settings: &Settings, cut: u64) -> Result<(), Memory> {
    let depth = settings.depth.get();
    if cut > 0 && depth < GREATEST_DEPTH {
        write!(
            said,
            "note: branches that were cut at depth {depth}: {cut}; `:deeper` follows them further\n"
        )?;
    }
    Ok(())
}

/// What is said where branches are stuck.
fn say_stuck(said: &mut String, stuck: u64) -> Result<(), Memory> {
    if stuck > 0 {
        write!(
            said,
            "note: branches that are stuck: {stuck}; each is at a goal `#` whose left side is still a variable\n"
        )?;
    }
    Ok(())
}

/// What is said where there may be more answers.
fn say_more(said: &mut String, settings: &Settings, report: &[u8]) -> Result<(), Memory> {
    let wanted = settings.answers;
    if count_answers(report) >= wanted && wanted < MOST_ANSWERS {
        write!(
            said,
            "note: answers that were asked for: {wanted}; `:more` asks for ten times as many\n"
        )?;
    }
    Ok(())
}

/// The sums over a report's lines of totals.
fn tally_of(report: &[u8]) -> Tally {
    let mut tally = Tally::new();
    tally.add(report);
    tally
}

/// What is said of how to ask further.
fn say_further(alloc: Global, settings: &Settings, report: &[u8]) -> Result<String, Memory> {
    let tally = tally_of(report);
    let mut said = String::new(alloc);
    say_cut(&mut said, settings, tally.cut())?;
    say_stuck(&mut said, tally.stuck())?;
    say_more(&mut said, settings, report)?;
    Ok(said)
}

/// What is said of the fault of a text.
pub(crate) fn explained(alloc: Global, text: &[u8]) -> Result<String, Memory> {
    if text.len() <= SIZE_LIMIT {
        explain_text(alloc, text)
    } else {
        message(alloc, TOO_LARGE)
    }
}

/// What is said beside the report on a text: of its fault, or how to ask further.
pub(crate) fn beside_report(
    alloc: Global,
    settings: &Settings,
    text: &[u8],
    report: &Report,
) -> Result<String, Memory> {
    match report.status {
        Status::Ok => say_further(alloc, settings, report.bytes.items()),
        status => beside_status(alloc, text, status),
    }
}

/// What is said beside a report on a text that has this status.
pub(crate) fn beside_status(alloc: Global, text: &[u8], status: Status) -> Result<String, Memory> {
    match status {
        Status::Ok => Ok(String::new(alloc)),
        Status::NotAProperty => message(alloc, NOT_A_PROPERTY),
        _ => explained(alloc, text),
    }
}
