//! A book of a large tree.

use ap_book::{Book, merge};
use ap_defs::lists::List;
use ap_defs::memory::Memory;
use ap_defs::paths::{Out, Path};
use ap_paths::{Closed, Run};
use std::alloc::Global;

const LEVELS: usize = 16;

/// Splits a path in two, or ends it with one output at the last level.
fn visit(alloc: Global, book: &mut Book, open: &mut Vec<Path>, path: Path) -> Result<(), Memory> {
    if path.choices().len() < LEVELS {
        if book.split(alloc, 0, &path, &[1, 2]).is_err() {
            return Err(Memory);
        }
        open.push(path.child(alloc, 2)?)?;
        open.push(path.child(alloc, 1)?)?;
        return Ok(());
    }
    let mut runs = Vec::new(alloc);
    runs.push(Run::One(Out::Cut(path.copy(alloc)?)))?;
    match book.done(0, &path, runs) {
        Ok(()) => Ok(()),
        Err(_) => Err(Memory),
    }
}

fn filled(alloc: Global) -> Result<Book, Memory> {
    let mut book = Book::new(alloc)?;
    let mut open = Vec::new(alloc);
    open.push(Path::root(alloc))?;
    for _ in 0..1_000_000 {
        match open.pop() {
            Some(path) => visit(alloc, &mut book, &mut open, path)?,
            None => break,
        }
    }
    Ok(book)
}

/// A book is filled, closed and merged: how many outputs it has.
pub fn merged(alloc: Global) -> Result<usize, Memory> {
    let history = filled(alloc)?.close();
    let logs = List::of(Vec::new(alloc));
    Ok(merge(alloc, Closed { history, logs })?.len())
}
