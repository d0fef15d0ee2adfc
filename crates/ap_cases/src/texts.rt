//! Texts and what they are read as, one after the other, and then large texts, each of which is read, written back
//! and dropped: queries with a million parts, and queries that are nested 250 deep.
//!
//! The texts stand in the files of the folder `read`, with lines of four dashes between them; the file `large` has a line
//! for each large text.

use crate::files::DIVIDER;
use crate::nested::nested_text;
use crate::round::round_of;
use crate::shown::{Reading, put_shown};
use crate::spelling::Spelling;

/// Tells each text of a file, and what it is read as.
pub fn read_texts(out: &mut Spelling, reading: Reading, name: &str, all: &str) {
    out.put_all(&["% ", name, "\n"]);
    for text in all.trim_end().split(DIVIDER) {
        out.put_all(&[text, "\n"]);
        put_shown(out, reading, text);
        out.put("\n");
    }
}

/// Tells what becomes of each large text. A line has its name, and tells of it as a nested text is told of.
pub fn go_round(out: &mut Spelling, all: &str) {
    for line in all.lines() {
        if let Some((name, told)) = line.split_once(": ") {
            let goal = nested_text(out, told);
            let outcome = round_of(out, &goal);
            out.put_all(&[name, ": "]);
            out.put_all(&[outcome.text(), "\n"]);
        }
    }
}
