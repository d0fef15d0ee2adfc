//! The program that runs texts, and does nothing else: from the words of the command line and standard
//! input to standard output and the exit status. It stands on fewer crates than the program of all
//! commands, so it is sooner proved.
#![tactic(auto)]

use ap_beside::{Counting, Remembering, given_words, is_stack_large, keep_memory, say};
use ap_io::{NoGate, StdSink, StdSource};
use ap_run::{AtEnd, Status};
use std::process::ExitCode;
use std::sync::Wait;
use std::thread::{Builder, Threads};
use std::{io, thread};

// The stack of the thread that does the work where the first one has too little. Memory is taken only for
// what is used of it.
const STACK: usize = 1 << 30;

/// Runs the interpreter on standard input and output, and says on standard error what helps.
fn run<R: Threads + Wait + Sync + AllocGlobal + Input + Print + Eprint>(
    rt: &R,
    words: &[String],
) -> Status {
    let alloc = rt.alloc();
    keep_memory(alloc);
    let mut source = Remembering::new(alloc, StdSource::new(rt.reader()));
    let mut sink = Counting::new(StdSink::new(io::writer(rt)));
    let status = ap_run::run(
        rt,
        alloc,
        words,
        &mut source,
        &mut sink,
        &NoGate,
        AtEnd::Left,
    );
    say(rt, alloc, status, source.read_so_far(), sink.tally());
    status
}

fn main(rt: HostRuntime) -> ExitCode {
    let Ok(words) = given_words(&rt) else {
        return ExitCode::from(Status::Memory.code());
    };
    if is_stack_large(&rt) {
        return ExitCode::from(run(&rt, &words).code());
    }
    let status = thread::scope(thread::scope_env(), &rt, |scope| {
        let large = Builder::new().stack_size(STACK);
        match large.spawn_scoped(scope, || run(&rt, &words)) {
            Ok(worker) => worker.join(&rt),
            // No thread with such a stack can be started.
            Err(_) => run(&rt, &words),
        }
    });
    ExitCode::from(status.code())
}
