//! What the program says on standard error.

use ap_defs::limits::SIZE_LIMIT;
use ap_explain::explain_text;
use ap_remarks::{Tally, branch_remarks, warnings};
use ap_report::Status;
use std::alloc::Global;

/// How the program is called.
const USAGE: &str = "usage: alphaprolog run --depth D [--workers W] [--answers N] < FILE
       alphaprolog prove --depth D [--workers W] [--answers N] < FILE > BUNDLE
       alphaprolog check < BUNDLE
       alphaprolog convert --to V < BUNDLE > BUNDLE
       alphaprolog count --depth D [--workers W] < FILE
       alphaprolog cover --depth D [--workers W] < BUNDLE
       alphaprolog examine --depth D [--workers W] < FILE
       alphaprolog work --seed N --size K [--workers W]

  run           answers the queries of the text on standard input
  prove         writes the text with each answer and its derivation, as a bundle
  check         checks each derivation of a bundle
  convert       writes a bundle in another version
  count         counts how often each clause is used in the derivations of the answers
  cover         tells which answer covers each ground proof of a bundle
  examine       searches for counterexamples to the properties of the text
  work          runs a text that is made from a number, and writes its totals
  --depth D     how many clauses may be used one inside another, from 0 to 1000000
  --workers W   how many workers search side by side, from 1 to 64; 1 where it isn't given
  --answers N   how many answers of each query are wanted, from 1 to 1000000; all where it isn't given
  --to V        the version of the bundle that is written, 1 or 2
  --seed N      the number from which the text is made, from 0 to 18446744073709551615
  --size K      how many queries the text has, from 1 to 1000

Beside it, `alphaprolog-shell [FILE..]` is an interactive session, and `alphaprolog-show` shows the
derivations of a bundle as text, LaTeX or HTML.

Options come in any order, each once. The report goes to standard output, and what is said
of a fault of the text to standard error. Exit status: 0 report, 1 usage, 2 syntax, 3 types,
4 names, 5 input can't be read, 6 output can't be written, 7 memory, 8 not checked, 9 too large,
11 not covered, 12 not a property.
";

/// What is said of a status that has no place in the text.
fn status_text(status: Status) -> &'static str {
    match status {
        Status::Usage => USAGE,
        Status::Read => "error: standard input could not be read\n",
        Status::Write => "error: the report could not be written whole to standard output\n",
        Status::Memory => "error: there was not enough memory; nothing was written\n",
        Status::NotChecked => "error: a derivation of the bundle does not check\n",
        Status::Syntax | Status::Types | Status::Names => {
            "error: the input has a fault; the report tells where\n"
        }
        Status::TooLarge => "error: the input has more than 16777216 bytes\n",
        Status::NotCovered => "error: a proof of the bundle is not ground or is too high\n",
        Status::NotAProperty => "error: a query is not a property\n",
        Status::Ok => "",
    }
}

/// Writes to standard error. Where it can't be written, nothing comes of it.
fn put<R: Eprint>(rt: &R, said: &str) {
    if !said.is_empty() {
        let _ = eprint!(rt; "{said}");
    }
}

/// What is said of the fault of a text.
fn say_fault<R: Eprint>(rt: &R, alloc: Global, text: &[u8]) {
    if text.len() <= SIZE_LIMIT {
        if let Ok(said) = explain_text(alloc, text) {
            put(rt, said.as_str());
        }
    }
}

/// What is said of a text beside its report.
fn say_remarks<R: Eprint>(rt: &R, alloc: Global, text: &[u8], tally: Tally) {
    if text.len() <= SIZE_LIMIT {
        if let Ok(said) = warnings(alloc, text) {
            put(rt, said.as_str());
        }
        if let Ok(said) = branch_remarks(alloc, text, tally) {
            put(rt, said.as_str());
        }
    }
}

/// Says what helps with a status, given what was read and what was written.
pub fn say<R: Eprint>(rt: &R, alloc: Global, status: Status, text: Option<&[u8]>, tally: Tally) {
    match (status, text) {
        (Status::Ok, Some(text)) => say_remarks(rt, alloc, text, tally),
        (Status::Syntax | Status::Types | Status::Names, Some(text)) => say_fault(rt, alloc, text),
        _ => put(rt, status_text(status)),
    }
}
