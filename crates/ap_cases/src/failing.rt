//! Calls whose reads and writes fail. The file `failing` has parts: a command line, a line of rows, and a text. A row
//! has the numbers of the read and of the write that fail, from 1 on, 0 for none, and the most bytes that a write takes.

use crate::call::{Answer, called, words_in};
use crate::spelling::Spelling;
use ap_defs::memory::Memory;
use ap_io::MemSink;
use std::alloc::{AllocError, Global};
use std::sync::Wait;
use std::thread::Threads;

/// The bytes that a sink has room for.
const ROOM: usize = 4096;

/// The number, or none for 0.
fn numbers(alloc: Global, number: u32) -> Result<Vec<u64>, AllocError> {
    let mut all = Vec::new(alloc);
    if number != 0 {
        all.push(number as u64)?;
    }
    Ok(all)
}

/// An empty sink whose writes take so many bytes, at least one, and of which one fails.
fn sink_of(alloc: Global, write: u32, most: u32) -> Result<MemSink, Memory> {
    let most = if most == 0 { 1 } else { most };
    MemSink::new(alloc, most as usize, ROOM, numbers(alloc, write)?)
}

/// What the top call answers where its read and its write fail that a row tells of.
fn answer_by_row<R: Threads + Wait + Sync>(
    rt: &R,
    out: &mut Spelling,
    words: &[String],
    text: &str,
    row: &str,
) -> Result<Answer, Memory> {
    let alloc = out.alloc();
    let (read, rest) = row.split_once(' ').unwrap_or(("0", row));
    let (write, most) = rest.split_once(' ').unwrap_or(("0", rest));
    let fails = numbers(alloc, out.number(read))?;
    let (write, most) = (out.number(write), out.number(most));
    let sink = sink_of(alloc, write, most)?;
    called(rt, alloc, words, text.as_bytes(), fails, sink)
}

/// Tells a row, and what the top call writes where its read and its write fail, with the status.
fn run_row<R: Threads + Wait + Sync>(
    rt: &R,
    out: &mut Spelling,
    words: &[String],
    text: &str,
    row: &str,
) {
    out.put_all(&[row, "\n"]);
    match answer_by_row(rt, out, words, text, row) {
        Ok(answer) => answer.tell(out),
        Err(Memory) => out.lose(),
    }
}

/// Runs a text by the words of a line, once for each row.
fn run_rows<R: Threads + Wait + Sync>(
    rt: &R,
    out: &mut Spelling,
    words: &[String],
    rows: &str,
    text: &str,
) {
    for row in rows.split(", ") {
        run_row(rt, out, words, text, row);
    }
}

/// Runs a part of the file: what stands behind its first line are a line of rows and a text.
pub fn run_failing<R: Threads + Wait + Sync>(rt: &R, out: &mut Spelling, line: &str, rest: &str) {
    let (rows, text) = rest.split_once('\n').unwrap_or((rest, ""));
    match words_in(out.alloc(), line) {
        Ok(words) => run_rows(rt, out, &words, rows, text),
        Err(_) => out.lose(),
    }
}
