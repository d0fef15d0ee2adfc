//! Calls on bytes in memory.

use crate::spelling::Spelling;
use ap_defs::memory::Memory;
use ap_io::{Gate, MemSink, MemSource, Sink, Source};
use ap_top::top;
use std::alloc::{AllocError, Global};
use std::sync::Wait;
use std::thread::Threads;

/// The bytes that a sink has room for: the largest bundle that is made here has 3,459,659.
const ROOM: usize = 1 << 22;

/// A gate that holds no worker. It says that it may, so that several workers are started for a short search too.
struct Starts;

impl Gate for Starts {
    fn enter(&self, _worker: u32, _task: u64) {}

    fn may_hold(&self) -> bool {
        true
    }
}

/// What a call ends with, and what it wrote.
#[derive(Drop)]
pub struct Answer {
    pub status: u8,
    pub bytes: Vec<u8>,
}

impl Answer {
    /// Whether another call ended with the same and wrote the same.
    pub fn is_same(&self, other: &Answer) -> bool {
        self.status == other.status && self.bytes == other.bytes
    }

    /// Tells what was written, and the status.
    pub fn tell(&self, out: &mut Spelling) {
        out.put_bytes(&self.bytes);
        put_status(out, self.status);
    }
}

/// Tells a status.
pub fn put_status(out: &mut Spelling, status: u8) {
    out.put("% status ");
    out.put_number(status as u64, "\n");
}

/// The words of a command line.
pub fn words_of(alloc: Global, words: &[&str]) -> Result<Vec<String>, AllocError> {
    let mut all = Vec::new(alloc);
    for word in words {
        all.push(word.to_string(alloc)?)?;
    }
    Ok(all)
}

/// The words of a line, with a space between each two. With nothing in it there are none.
pub fn words_in(alloc: Global, line: &str) -> Result<Vec<String>, AllocError> {
    let mut words = Vec::new(alloc);
    if line.is_empty() {
        return Ok(words);
    }
    for word in line.split(' ') {
        words.push(word.to_string(alloc)?)?;
    }
    Ok(words)
}

/// The number of the status with which the top call ends.
pub fn status_of<R: Threads + Wait + Sync, S: Source, K: Sink, G: Gate>(
    rt: &R,
    alloc: Global,
    words: &[String],
    source: &mut S,
    sink: &mut K,
    gate: &G,
) -> u8 {
    top(rt, alloc, words, source, sink, gate).code()
}

/// What a call answers whose reads of these numbers fail, and which writes into a sink. As many workers as the words
/// ask for are started for each search, however short it is.
pub fn called<R: Threads + Wait + Sync>(
    rt: &R,
    alloc: Global,
    words: &[String],
    input: &[u8],
    fails: Vec<u64>,
    mut sink: MemSink,
) -> Result<Answer, Memory> {
    let mut source = MemSource::new(input.to_vec(alloc)?, fails);
    let status = status_of(rt, alloc, words, &mut source, &mut sink, &Starts);
    let bytes = sink.bytes().to_vec(alloc)?;
    Ok(Answer { status, bytes })
}

/// The answer, or an empty one where it is lost.
fn kept(out: &mut Spelling, made: Result<Answer, Memory>) -> Answer {
    match made {
        Ok(answer) => answer,
        Err(Memory) => {
            out.lose();
            Answer {
                status: 0,
                bytes: Vec::new(out.alloc()),
            }
        }
    }
}

/// What a call answers whose reads of these numbers fail.
fn call<R: Threads + Wait + Sync>(
    rt: &R,
    alloc: Global,
    words: &[String],
    input: &[u8],
    fails: Vec<u64>,
) -> Result<Answer, Memory> {
    let sink = MemSink::new(alloc, ROOM, ROOM, Vec::new(alloc))?;
    called(rt, alloc, words, input, fails, sink)
}

/// What a call answers that reads all of its input.
pub fn answer_to<R: Threads + Wait + Sync>(
    rt: &R,
    out: &mut Spelling,
    words: &[String],
    input: &[u8],
) -> Answer {
    let alloc = out.alloc();
    kept(out, call(rt, alloc, words, input, Vec::new(alloc)))
}

/// What a call answers whose first read fails.
pub fn answer_unread<R: Threads + Wait + Sync>(
    rt: &R,
    out: &mut Spelling,
    words: &[String],
    input: &[u8],
) -> Answer {
    let alloc = out.alloc();
    match Vec::from_array(alloc, [1]) {
        Ok(fails) => kept(out, call(rt, alloc, words, input, fails)),
        Err(_) => kept(out, Err(Memory)),
    }
}

/// What a call by these words answers.
pub fn answer_by<R: Threads + Wait + Sync>(
    rt: &R,
    out: &mut Spelling,
    words: &[&str],
    input: &[u8],
) -> Answer {
    match words_of(out.alloc(), words) {
        Ok(words) => answer_to(rt, out, &words, input),
        Err(_) => kept(out, Err(Memory)),
    }
}

/// What a call by the words of a line answers.
pub fn answer_line<R: Threads + Wait + Sync>(
    rt: &R,
    out: &mut Spelling,
    line: &str,
    input: &[u8],
) -> Answer {
    match words_in(out.alloc(), line) {
        Ok(words) => answer_to(rt, out, &words, input),
        Err(_) => kept(out, Err(Memory)),
    }
}

/// What a call by a command and to a depth answers, by so many workers.
fn answer_with<R: Threads + Wait + Sync>(
    rt: &R,
    out: &mut Spelling,
    command: &str,
    depth: &str,
    workers: &str,
    text: &[u8],
) -> Answer {
    let words = [command, "--depth", depth, "--workers", workers];
    answer_by(rt, out, &words, text)
}

/// Tells what one worker writes for a text by a command and to a depth, a line for each number of workers that answer
/// otherwise, and the status.
pub fn tell_by<R: Threads + Wait + Sync>(
    rt: &R,
    out: &mut Spelling,
    command: &str,
    depth: &str,
    text: &[u8],
    several: &[&str],
) {
    let first = answer_with(rt, out, command, depth, "1", text);
    out.put_bytes(&first.bytes);
    for workers in several {
        if !answer_with(rt, out, command, depth, workers, text).is_same(&first) {
            out.put("% ");
            out.put(workers);
            out.put(" workers write otherwise\n");
        }
    }
    put_status(out, first.status);
}
