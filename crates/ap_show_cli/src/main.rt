//! The program that shows derivations: from a bundle on standard input to a document on standard output.
#![tactic(auto)]

mod saying;
mod words;

use ap_defs::memory::Memory;
use ap_io::{StdSink, StdSource};
use ap_report::{Report, Status};
use ap_run::{ReadError, line, put, read_whole};
use ap_show::show_bytes;
use ap_steps::pages::Format;
use saying::say;
use std::alloc::AllocError;
use std::process::ExitCode;
use std::rt::Env;
use std::thread::{Builder, Threads};
use std::{env, io, thread};
use words::format_asked;

// The stack of the thread that does the work. A text may be nested 256 deep, and reading takes some
// frames a level. Memory is taken only for what is used of it.
const STACK: usize = 1 << 30;

/// The words after the program's name. Where one isn't UTF-8 there are none, which is refused too.
fn given_words(rt: &(impl Env + AllocGlobal)) -> Result<Vec<String>, AllocError> {
    match env::args(rt) {
        Ok(args) => args.skip(1).collect(rt.alloc()),
        Err(error) if error.kind() == io::ErrorKind::OutOfMemory => Err(AllocError),
        Err(_) => Ok(Vec::new(rt.alloc())),
    }
}

/// The report on what standard input holds, shown in a format.
fn shown<R: AllocGlobal + Input>(rt: &R, format: Format) -> Result<Report, Memory> {
    let alloc = rt.alloc();
    let mut source = StdSource::new(rt.reader());
    match read_whole(alloc, &mut source) {
        Ok(bytes) => show_bytes(alloc, format, bytes.as_slice()),
        Err(ReadError::Failed) => line(alloc, "% read fault\n", Status::Read),
        Err(ReadError::TooLarge) => line(alloc, "% text too large\n", Status::TooLarge),
        Err(ReadError::Memory) => Err(Memory),
    }
}

/// The report that the words ask for.
fn report<R: AllocGlobal + Input>(rt: &R, words: &[String]) -> Result<Report, Memory> {
    match format_asked(rt.alloc(), words)? {
        Some(format) => shown(rt, format),
        None => line(rt.alloc(), "% usage fault\n", Status::Usage),
    }
}

/// Shows standard input in the format that the words ask for, and says on standard error what helps.
fn run<R: AllocGlobal + Input + Print + Eprint>(rt: &R, words: &[String]) -> Status {
    let mut sink = StdSink::new(io::writer(rt));
    let status = match report(rt, words) {
        Ok(report) => put(&mut sink, &report),
        Err(Memory) => Status::Memory,
    };
    say(rt, status);
    status
}

fn main(rt: HostRuntime) -> ExitCode {
    let Ok(words) = given_words(&rt) else {
        return ExitCode::from(Status::Memory.code());
    };
    let status = thread::scope(thread::scope_env(), &rt, |scope| {
        let large = Builder::new().stack_size(STACK);
        match large.spawn_scoped(scope, || run(&rt, &words)) {
            Ok(worker) => worker.join(&rt),
            // No thread with such a stack can be started.
            Err(_) => run(&rt, &words),
        }
    });
    ExitCode::from(status.code())
}
