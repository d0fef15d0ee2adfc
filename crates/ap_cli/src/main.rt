//! The program: from the words of the command line and standard input to standard output and the
//! exit status.
#![tactic(auto)]

use ap_beside::{Counting, Remembering, given_words, is_stack_large, keep_memory, say};
use ap_io::{NoGate, StdSink, StdSource};
use ap_remarks::Tally;
use ap_top::{Status, top};
use std::process::ExitCode;
use std::sync::Wait;
use std::thread::{Builder, Threads};
use std::{io, thread};

// The stack of the thread that does the work, but for runs. The terms of a stated instance, or of a proof that
// is covered, may be as deep as a search goes, and a walk down their left parts takes a frame a level. Memory
// is taken only for what is used of it.
const STACK: usize = 1 << 30;

/// The word that names the command.
fn command(words: &[String]) -> &str {
    match words.first() {
        Some(word) => word.as_str(),
        None => "",
    }
}

/// Whether the input is a bundle, and not a text.
fn reads_bundle(words: &[String]) -> bool {
    let command = command(words);
    command == "check" || command == "convert" || command == "cover"
}

/// Whether a text is run. Its report has lines of totals; a bundle has none of its own.
fn runs_text(words: &[String]) -> bool {
    command(words) == "run"
}

/// Runs the interpreter on standard input and output, and says on standard error what helps.
fn run<R: Threads + Wait + Sync + AllocGlobal + Input + Print + Eprint>(
    rt: &R,
    words: &[String],
) -> Status {
    let alloc = rt.alloc();
    keep_memory(alloc);
    let input = StdSource::new(rt.reader());
    let mut source = if reads_bundle(words) {
        Remembering::without_copy(alloc, input)
    } else {
        Remembering::new(alloc, input)
    };
    let mut sink = Counting::new(StdSink::new(io::writer(rt)));
    let status = top(rt, alloc, words, &mut source, &mut sink, &NoGate);
    let counted = sink.tally();
    let tally = if runs_text(words) {
        counted
    } else {
        Tally::new()
    };
    say(rt, alloc, status, source.read_so_far(), tally);
    status
}

fn main(rt: HostRuntime) -> ExitCode {
    let Ok(words) = given_words(&rt) else {
        return ExitCode::from(Status::Memory.code());
    };
    if runs_text(&words) && is_stack_large(&rt) {
        return ExitCode::from(run(&rt, &words).code());
    }
    let status = thread::scope(thread::scope_env(), &rt, |scope| {
        let large = Builder::new().stack_size(STACK);
        match large.spawn_scoped(scope, || run(&rt, &words)) {
            Ok(worker) => worker.join(&rt),
            // No thread with such a stack can be started.
            Err(_) => run(&rt, &words),
        }
    });
    ExitCode::from(status.code())
}
