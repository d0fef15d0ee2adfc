//! Files that are loaded.

use crate::output::say;
use ap_defs::limits::SIZE_LIMIT;
use ap_shell::{Outcome, Session, load};
use std::alloc::{AllocError, Global};
use std::fs::{File, Files};
use std::io::{self, ErrorKind, Read};

/// Texts of files, one behind the other, and the line at which each begins.
#[derive(Drop)]
struct Joined {
    text: Vec<u8>,
    firsts: Vec<usize>,
}

/// How many ends of lines there are.
fn count_lines(text: &[u8]) -> usize {
    text.iter().filter(|byte| **byte == b'\n').count()
}

/// Adds what a reader has, up to a chunk past the limit.
fn read_into<R: Read>(reader: &mut R, text: &mut Vec<u8>) -> io::Result<()> {
    let mut chunk = [0u8; 4096];
    for _ in 0..u64::MAX {
        let count = reader.read(&mut chunk)?;
        if count == 0 || text.len() > SIZE_LIMIT {
            return Ok(());
        }
        text.extend_from_slice(&chunk[..count])?;
    }
    Ok(())
}

/// Adds the end of a line, where the text doesn't end with one.
fn end_line(text: &mut Vec<u8>) -> Result<(), AllocError> {
    match text.last() {
        None | Some(b'\n') => Ok(()),
        Some(_) => {
            text.push(b'\n')?;
            Ok(())
        }
    }
}

/// Adds a file.
fn add_file<R: Files>(rt: &R, name: &str, joined: &mut Joined) -> io::Result<()> {
    let mut file = File::open(rt, name)?;
    joined
        .firsts
        .push(count_lines(&joined.text).saturating_add(1))?;
    read_into(&mut file, &mut joined.text)?;
    end_line(&mut joined.text)?;
    Ok(())
}

/// The texts of files, or what is said of the first that can't be read.
fn join<R: Files>(rt: &R, alloc: Global, names: &[String]) -> io::Result<Result<Joined, String>> {
    let mut joined = Joined {
        text: Vec::new(alloc),
        firsts: Vec::new(alloc),
    };
    for name in names {
        if let Err(error) = add_file(rt, name.as_str(), &mut joined) {
            if error.kind() == ErrorKind::OutOfMemory {
                return Err(error);
            }
            let said = format!(in alloc; "error: `{name}` can't be read: {error}\n")?;
            return Ok(Err(said));
        }
    }
    Ok(Ok(joined))
}

/// Says where each file begins.
fn say_places<R: Print + Eprint + AllocGlobal>(
    rt: &R,
    session: &Session,
    firsts: &[usize],
) -> io::Result<()> {
    for (name, first) in session.files.iter().zip(firsts) {
        let said = format!(in rt.alloc(); "note: `{name}` begins at line {first}\n")?;
        say(rt, session.channel, said.as_str())?;
    }
    Ok(())
}

/// Loads texts.
fn load_joined<R: Print + Eprint + AllocGlobal>(
    rt: &R,
    session: &mut Session,
    joined: &Joined,
) -> io::Result<()> {
    let Ok(loading) = load(rt.alloc(), session, &joined.text) else {
        return Err(ErrorKind::OutOfMemory.into());
    };
    say(rt, session.channel, loading.said.as_str())?;
    if loading.outcome == Outcome::Faulty && joined.firsts.len() > 1 {
        say_places(rt, session, &joined.firsts)?;
    }
    Ok(())
}

/// Loads the session's files, and says what came of it.
pub fn load_files<R: Files + Print + Eprint + AllocGlobal>(
    rt: &R,
    session: &mut Session,
) -> io::Result<()> {
    match join(rt, rt.alloc(), &session.files)? {
        Ok(joined) => load_joined(rt, session, &joined),
        Err(said) => say(rt, session.channel, said.as_str()),
    }
}
