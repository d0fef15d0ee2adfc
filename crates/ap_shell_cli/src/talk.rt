//! A session, line by line.

use crate::files::load_files;
use crate::lines::Lines;
use crate::output::{say, write_bytes};
use ap_defs::memory::Memory;
use ap_io::NoGate;
use ap_shell::{Reply, Session, Step, step};
use std::fs::Files;
use std::io;
use std::sync::Wait;
use std::thread::Threads;
use std::time::{Clock, Instant};

const DROPPED: &str = "note: the lines before, in which no query ended, are dropped\n";

const UNENDED: &str = "error: the input ends before the full stop\n";

const NO_MEMORY: &str = "error: there was not enough memory\n";

/// Says how long a query took.
fn say_time<R: Print + Eprint + Clock>(
    rt: &R,
    session: &Session,
    start: Instant,
) -> io::Result<()> {
    let taken = start.elapsed(rt)?;
    let seconds = taken.as_secs();
    let millis = taken.subsec_millis();
    let _ = eprint!(rt; "time: {seconds}.{millis:03} s\n");
    Ok(())
}

/// Writes what is answered, and tells whether the session goes on.
fn put<R: Print + Eprint + Files + AllocGlobal>(
    rt: &R,
    session: &mut Session,
    reply: &Reply,
) -> io::Result<bool> {
    match reply {
        Reply::Asked(answer)
        | Reply::Proved(answer)
        | Reply::Counted(answer)
        | Reply::Examined(answer) => {
            write_bytes(rt, answer.report.bytes.items())?;
            say(rt, session.channel, answer.said.as_str())?;
        }
        Reply::Told(told) => {
            write_bytes(rt, &told.written)?;
            say(rt, session.channel, told.said.as_str())?;
        }
        Reply::Load => load_files(rt, session)?,
        Reply::Quit => return Ok(false),
    }
    Ok(true)
}

// What is left to do of a line.
enum Next {
    At(usize),
    Quit,
}

/// Writes what comes of a part of a line.
fn answer<R: AllocGlobal + Print + Eprint + Files + Clock>(
    rt: &R,
    session: &mut Session,
    step: &Step,
    start: Instant,
) -> io::Result<Next> {
    if step.dropped {
        say(rt, session.channel, DROPPED)?;
    }
    if !put(rt, session, &step.reply)? {
        return Ok(Next::Quit);
    }
    if session.is_timed && step.is_search() {
        say_time(rt, session, start)?;
    }
    Ok(Next::At(step.used))
}

/// Takes the first part of a line.
fn take_part<R: Threads + Wait + Sync + AllocGlobal + Print + Eprint + Files + Clock>(
    rt: &R,
    session: &mut Session,
    line: &[u8],
) -> io::Result<Next> {
    let start = Instant::now(rt)?;
    match step(rt, rt.alloc(), &NoGate, session, line) {
        Ok(step) => answer(rt, session, &step, start),
        Err(Memory) => {
            say(rt, session.channel, NO_MEMORY)?;
            Ok(Next::At(line.len()))
        }
    }
}

/// Takes a line, and tells whether the session goes on.
fn take_line<R: Threads + Wait + Sync + AllocGlobal + Print + Eprint + Files + Clock>(
    rt: &R,
    session: &mut Session,
    line: &[u8],
) -> io::Result<bool> {
    let mut at = 0;
    // Each part has a byte at least.
    for _ in 0..line.len() {
        let Some(rest) = line.get(at..) else {
            return Ok(true);
        };
        if rest.is_empty() {
            return Ok(true);
        }
        match take_part(rt, session, rest)? {
            Next::At(used) => at = at.saturating_add(used),
            Next::Quit => return Ok(false),
        }
    }
    Ok(true)
}

/// Shows that a line is waited for.
fn prompt<R: Print>(rt: &R, session: &Session) -> io::Result<()> {
    if session.is_adding || !session.waiting.is_empty() {
        print!(rt; "|  ")
    } else {
        print!(rt; "?- ")
    }
}

/// Ends a session whose input ends.
fn end<R: Print + Eprint>(rt: &R, session: &Session, prompts: bool) -> io::Result<()> {
    if prompts {
        println!(rt; "")?;
    }
    if session.is_adding || !session.waiting.is_empty() {
        say(rt, session.channel, UNENDED)?;
    }
    Ok(())
}

/// A session on standard input, up to its end.
pub fn converse<R: Threads + Wait + Sync + AllocGlobal + Input + Print + Eprint + Files + Clock>(
    rt: &R,
    session: &mut Session,
    prompts: bool,
) -> io::Result<()> {
    let mut lines = Lines::new(rt.alloc(), rt.reader())?;
    let mut line = Vec::new(rt.alloc());
    for _ in 0..u64::MAX {
        if prompts {
            prompt(rt, session)?;
        }
        if !lines.next(&mut line)? {
            return end(rt, session, prompts);
        }
        if !take_line(rt, session, &line)? {
            return Ok(());
        }
    }
    Ok(())
}
