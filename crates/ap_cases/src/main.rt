//! Whole texts and what the top call writes for each, what parts of the program do by themselves, and measurements.
//!
//! The files `.cases` of the folder that this program is run in have texts, which are run by one worker and by
//! several; those of `sampled_to_0.cases` and so on were made at random, and what is wanted of them is from an
//! implementation that was written apart. The answers of each text are counted, with what their derivations come to. The
//! file `words` has command lines; what is done with each other file stands in the table of `parts.rt`. The texts of the
//! folders `examples` and `bytes` are told in `folders.rt` and `streams.rt`, what is asked of a search in `questions.rt`
//! and `searched.rt`, bundles in `bundles.rt` and `prefixes.rt`, visits of paths in `visits.rt`, keys of clauses in
//! `keys.rt`, calls whose reads and writes fail in `failing.rt`, and the large texts in `large.rt`. The library's call
//! `cover` is made on the ground proofs among all these derivations, and on the proofs of the file `calls.cases`, and it
//! is looked at term by term whether what it gives covers the proof.
//!
//! Parts that the top call doesn't reach, or that show more by themselves: what texts are read as (`texts.rt`), what is
//! said beside their reports (`explained.rt`), and what is shown of bundles (`pages.rt`). With a word this program makes a
//! measurement (`measures.rt`), and prints what was measured.
#![tactic(auto)]

mod applied;
mod bundles;
mod call;
mod calls;
mod cases;
mod command_lines;
mod covering;
mod derivations;
mod explained;
mod failing;
mod files;
mod folders;
mod keys;
mod large;
mod measures;
mod nested;
mod pages;
mod parts;
mod prefixes;
mod problems;
mod proving;
mod questions;
mod raws;
mod reading;
mod renamed;
mod round;
mod searched;
mod shown;
mod spelling;
mod streams;
mod texts;
mod trees;
mod typed;
mod visits;
mod written;

use crate::measures::measure;
use crate::parts::{PARTS, write_part};
use crate::spelling::Spelling;
use std::{env, io};

fn main(rt: HostRuntime) -> io::Result<()> {
    let mut out = Spelling::new(rt.alloc());
    match env::args(&rt)?.nth(1) {
        Some(word) => measure(&rt, &mut out, &word),
        None => {
            for part in &PARTS {
                write_part(&rt, &mut out, *part);
                out.flush(&rt);
            }
        }
    }
    out.end(&rt)
}
