//! The top call with two workers at once.

use crate::pairs::Hold;
use ap_defs::memory::Memory;
use ap_io::{MemSink, MemSource};
use ap_top::top;
use std::alloc::Global;
use std::sync::Wait;
use std::thread::Threads;

const FACTS: &[u8] = b"pred p. pred q. p :- q. p :- q. q. ?- p.";

const ANSWERS: &[u8] = b"yes\nyes\n% query 1: 2 answers, 0 cut, 0 stuck\n";

/// The words of a line.
fn words_of(alloc: Global, line: &str) -> Result<Vec<String>, Memory> {
    let mut words = Vec::new(alloc);
    for word in line.split(' ') {
        words.push(word.to_string(alloc)?)?;
    }
    Ok(words)
}

/// Whether two workers write the answers.
fn answers_are_written<R: Threads + Wait + Sync>(
    rt: &R,
    alloc: Global,
    gate: &Hold,
) -> Result<bool, Memory> {
    let words = words_of(alloc, "run --depth 3 --workers 2")?;
    let mut source = MemSource::new(FACTS.to_vec(alloc)?, Vec::new(alloc));
    let mut sink = MemSink::new(alloc, 4096, 4096, Vec::new(alloc))?;
    let status = top(rt, alloc, &words, &mut source, &mut sink, gate);
    Ok(status.code() == 0 && sink.bytes() == ANSWERS)
}

#[test]
fn two_workers_work_at_once(rt: HostRuntime) {
    let gate = Hold::new();
    let written = answers_are_written(&rt, rt.alloc(), &gate);
    assert!(rt; matches!(written, Ok(true)));
    assert!(rt; gate.was_kept(), "they have not met");
}
