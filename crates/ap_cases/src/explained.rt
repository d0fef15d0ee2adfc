//! Texts, one after the other, and what is written of each on standard error: of its fault, or beside its report.
//!
//! The texts stand in the files of the folder `explained`. A file has parts that lines of four dashes divide: a
//! beginning that all its texts have, and what follows it in each. Where a text has no fault, its report's totals stand
//! in its comments.

ghost use Rattle.std.specs.Prelude.{◌≡◌, ◌≤◌, length};
ghost use Rattle.ap_defs.specs.Limits.{size_limit};

use crate::files::DIVIDER;
use crate::spelling::Spelling;
use ap_defs::limits::SIZE_LIMIT;
use ap_defs::memory::Memory;
use ap_explain::explain_text;
use ap_remarks::{Tally, branch_remarks, warnings};

/// Texts that are not UTF-8.
const BYTES: [&[u8]; 4] = [
    b"exp : type.\n\xFFz : exp.\n",
    b"exp : type. % \xE9\n",
    b"\xCE",
    b"z\xC3\xA9 : exp\xC3(",
];

/// Tells what is said beside the report of a text.
fn put_remarks(out: &mut Spelling, text: &[u8]) -> Result<(), Memory>
    requires { length text.now ≤ size_limit }
{
    let mut tally = Tally::new();
    tally.add(text);
    out.put(warnings(out.alloc(), text)?.as_str());
    out.put(branch_remarks(out.alloc(), text, tally)?.as_str());
    Ok(())
}

/// Adds what is written of a text: the message of its fault, or what is said beside its report.
fn put_said(out: &mut Spelling, text: &[u8]) -> Result<(), Memory>
    requires { length text.now ≤ size_limit }
{
    let said = explain_text(out.alloc(), text)?;
    if said.is_empty() {
        return put_remarks(out, text);
    }
    out.put(said.as_str());
    Ok(())
}

/// Tells what is written of a text, and ends its line.
fn explain(out: &mut Spelling, text: &[u8]) {
    if text.len() > SIZE_LIMIT || put_said(out, text).is_err() {
        out.lose();
    }
    out.put("\n");
}

/// Tells the last part of each text of a file, and what is written of the text.
pub fn explain_texts(out: &mut Spelling, name: &str, all: &str) {
    out.put_all(&["% ", name, "\n"]);
    let mut parts = all.trim_end().split(DIVIDER);
    let begin = parts.next().unwrap_or("");
    for end in parts {
        out.put_all(&[end, "\n"]);
        let text = out.joined(&[begin, end]);
        explain(out, text.as_bytes());
    }
}

/// Tells what is written of texts that are not UTF-8.
pub fn explain_bytes(out: &mut Spelling) {
    for text in &BYTES {
        explain(out, text);
    }
}
