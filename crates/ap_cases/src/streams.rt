//! Texts and bundles that are read as streams. The file `commands` of a folder has a line for each command line, with what
//! it reads.

use crate::call::{put_status, status_of, words_in};
use crate::files::text_of;
use crate::spelling::Spelling;
use ap_io::{NoGate, StdSink, StdSource};
use std::fs::{File, Files};
use std::io;
use std::sync::Wait;
use std::thread::Threads;

/// Writes what the top call writes for words and what a path has, and tells the status.
fn run<R: Threads + Wait + Sync + Files + Print>(
    rt: &R,
    out: &mut Spelling,
    words: &[String],
    path: &str,
) {
    out.flush(rt);
    match File::open(rt, path) {
        Ok(file) => {
            let mut source = StdSource::new(file);
            let mut sink = StdSink::new(io::writer(rt));
            let status = status_of(rt, out.alloc(), words, &mut source, &mut sink, &NoGate);
            put_status(out, status);
        }
        Err(error) => out.lose_by(error.kind()),
    }
}

/// Writes what the top call writes for the words of a line and what a file of a folder has.
fn run_line<R: Threads + Wait + Sync + Files + Print>(
    rt: &R,
    out: &mut Spelling,
    line: &str,
    folder: &str,
    name: &str,
) {
    let path = out.joined(&[folder, "/", name]);
    match words_in(out.alloc(), line) {
        Ok(words) => run(rt, out, &words, &path),
        Err(_) => out.lose(),
    }
}

/// Runs a text of a folder to a depth.
pub fn run_text<R: Threads + Wait + Sync + Files + Print>(
    rt: &R,
    out: &mut Spelling,
    depth: &str,
    folder: &str,
    name: &str,
) {
    out.put_all(&["% ", folder, "/", name, "\n"]);
    let line = out.joined(&["run --depth ", depth]);
    run_line(rt, out, &line, folder, name);
}

/// Runs the command lines of a folder: what stands behind ` < ` is what the command reads.
pub fn run_commands<R: Threads + Wait + Sync + AllocGlobal + Files + Print>(
    rt: &R,
    out: &mut Spelling,
    folder: &str,
) {
    for line in text_of(rt, out, folder, "commands").lines() {
        if let Some((words, name)) = line.split_once(" < ") {
            out.put_all(&["% ", words, " < ", folder, "/", name, "\n"]);
            run_line(rt, out, words, folder, name);
        }
    }
}
