//! The interactive program: an αProlog session on standard input and output.
#![tactic(auto)]

mod files;
mod lines;
mod output;
mod talk;

use ap_report::Status;
use ap_shell::Session;
use files::load_files;
use std::alloc::AllocError;
use std::fs::Files;
use std::io::IsTerminal;
use std::process::ExitCode;
use std::rt::Env;
use std::sync::Wait;
use std::thread::{Builder, Threads};
use std::time::Clock;
use std::{env, io, thread};
use talk::converse;

// The stack of the thread that does the work. The terms of a stated instance may be as deep as a search goes,
// and a walk down their left parts takes a frame a level. Memory is taken only for what is used of it.
const STACK: usize = 1 << 30;

const USAGE: &str = "usage: alphaprolog-shell [FILE..]

Loads the files, as one text, and answers queries that are typed: `GOAL.`; `:help` tells the commands. Exit status:
0 at the end, 1 usage, 5 input can't be read, 6 output can't be written, 7 memory.
";

const GREETING: &str = "alphaprolog: a query ends with a full stop; `:help` tells the commands\n";

/// The words after the program's name. Where one isn't UTF-8 there are none.
fn words(rt: &(impl Env + AllocGlobal)) -> Result<Option<Vec<String>>, AllocError> {
    match env::args(rt) {
        Ok(args) => {
            let words = args.skip(1).collect(rt.alloc())?;
            Ok(Some(words))
        }
        Err(error) if error.kind() == io::ErrorKind::OutOfMemory => Err(AllocError),
        Err(_) => Ok(None),
    }
}

/// Whether the words name files.
fn are_files(words: &[String]) -> bool {
    words.iter().all(|word| !word.as_str().starts_with('-'))
}

/// Gives a session its files, and loads them.
fn begin<R: AllocGlobal + Print + Eprint + Files>(
    rt: &R,
    session: &mut Session,
    files: &[String],
    prompts: bool,
) -> io::Result<()> {
    for name in files {
        session.files.push(name.clone()?)?;
    }
    if prompts {
        print!(rt; "{GREETING}")?;
    }
    if !files.is_empty() {
        load_files(rt, session)?;
    }
    Ok(())
}

/// Begins a session, and goes on to its end.
fn hold<R: Threads + Wait + Sync + AllocGlobal + Input + Print + Eprint + Files + Clock>(
    rt: &R,
    session: &mut Session,
    files: &[String],
    prompts: bool,
) -> io::Result<()> {
    begin(rt, session, files, prompts)?;
    converse(rt, session, prompts)
}

/// A session, and the status with which it ends.
fn run<R: Threads + Wait + Sync + AllocGlobal + Input + Print + Eprint + Files + Clock>(
    rt: &R,
    files: &[String],
    prompts: bool,
) -> Status {
    let held = hold(rt, &mut Session::new(rt.alloc()), files, prompts);
    match held {
        Ok(()) => Status::Ok,
        Err(error) => output::status_of(&error),
    }
}

fn main(rt: HostRuntime) -> ExitCode {
    let Ok(words) = words(&rt) else {
        return ExitCode::from(Status::Memory.code());
    };
    let files = match words {
        Some(words) if are_files(&words) => words,
        _ => {
            let _ = eprint!(rt; "{USAGE}");
            return ExitCode::from(Status::Usage.code());
        }
    };
    let prompts = rt.stdin().is_terminal();
    let status = thread::scope(thread::scope_env(), &rt, |scope| {
        let large = Builder::new().stack_size(STACK);
        match large.spawn_scoped(scope, || run(&rt, &files, prompts)) {
            Ok(worker) => worker.join(&rt),
            // No thread with such a stack can be started.
            Err(_) => run(&rt, &files, prompts),
        }
    });
    ExitCode::from(status.code())
}
