//! Turns of a shared book, where nobody else wants one.

ghost use Rattle.std.specs.Prelude.{◌≡◌, IfOk};
ghost use Rattle.ap_tools.specs.Seats.{book_id};

use ap_defs::memory::Memory;
use ap_paths::Limit;
use ap_tools::{Seat, SharedBook};
use std::alloc::Global;
use std::sync::Wait;

const TURNS: usize = 1_000_000;

fn made(alloc: Global) -> Result<(SharedBook, Seat), Memory>
    ensures { IfOk result (λ r. r.1.book ≡ book_id r.0) }
{
    let (book, mut seats) = SharedBook::make(alloc, 1, Limit::All)?;
    let Some(seat) = seats.pop() else {
        return Err(Memory);
    };
    Ok((book, seat))
}

/// Turns of a book are taken, so many.
pub fn taken<R: Wait>(rt: &R, alloc: Global) -> Result<usize, Memory> {
    let (book, mut seat) = made(alloc)?;
    for _ in 0..TURNS {
        book.status(rt, &mut seat);
    }
    Ok(TURNS)
}
