//! Files of texts. A file has parts that lines of four dashes divide: the depth, a beginning that all its texts have, and
//! what follows it in each. Each text is run by one worker and by several, and a line tells where these write different
//! bytes. A line tells of the derivations of the answers of all texts of a file.

use crate::call::tell_by;
use crate::derivations::{NONE, Tally, tally_of, tell};
use crate::files::DIVIDER;
use crate::spelling::Spelling;
use std::sync::Wait;
use std::thread::Threads;

const SEVERAL: [&str; 3] = ["2", "8", "64"];

/// Tells the text's last part, and what the top call writes for the text, with the status. Its answers are counted.
fn run<R: Threads + Wait + Sync>(
    rt: &R,
    out: &mut Spelling,
    depth: &str,
    begin: &str,
    end: &str,
) -> Tally {
    let text = out.joined(&[begin, end]);
    out.put_all(&[end, "\n"]);
    tell_by(rt, out, "run", depth, text.as_bytes(), &SEVERAL);
    tally_of(rt, out, depth, &text)
}

/// Runs the texts of a file.
pub fn run_texts<R: Threads + Wait + Sync>(rt: &R, out: &mut Spelling, name: &str, all: &str) {
    let mut parts = all.trim_end().split(DIVIDER);
    let depth = parts.next().unwrap_or("");
    let begin = parts.next().unwrap_or("");
    // One row of these would mix what the name and the text lend: the borrow checker doesn't cover that.
    out.put("% ");
    out.put(name);
    out.put(", depth ");
    out.put(depth);
    out.put("\n");
    let mut tally = NONE;
    for end in parts {
        tally = tally.plus(run(rt, out, depth, begin, end));
    }
    tell(out, name, tally);
}
