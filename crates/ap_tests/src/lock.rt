ghost use Rattle.std.specs.Prelude.{◌≡◌, ◌∷◌, [], All, vec_len, IfOk};
ghost use Rattle.ap_tools.specs.Seats.{book_id, seats_of};

use crate::book::answer_at;
use crate::pairs::cut_at;
use ap_book::{BookError, SkipError};
use ap_defs::memory::Memory;
use ap_defs::paths::{Path, Progress};
use ap_paths::{Closed, Limit};
use ap_tools::{Seat, SharedBook};
use std::alloc::Global;
use std::sync::Wait;
use std::thread;
use std::thread::Threads;

/// A book with two seats.
fn pair(alloc: Global) -> Result<(SharedBook, Seat, Seat), Memory>
    ensures { IfOk result (λ r. (r.1.book ≡ book_id r.0) × (r.2.book ≡ book_id r.0)
        × (seats_of r.0 ≡ 2)) }
{
    let (book, mut seats) = SharedBook::make(alloc, 2, Limit::All)?;
    let Some(second) = seats.pop() else {
        return Err(Memory);
    };
    let Some(first) = seats.pop() else {
        return Err(Memory);
    };
    Ok((book, first, second))
}

fn close_pair(alloc: Global, book: SharedBook, first: Seat, second: Seat) -> Result<Closed, Memory>
    requires { (first.book ≡ book_id book) × (second.book ≡ book_id book) × (seats_of book ≡ 2) }
{
    let seats = Vec::from_array(alloc, [first, second])?;
    book.close(alloc, seats)
}

fn kid(alloc: Global, k: u32) -> Result<Path, Memory> {
    Path::root(alloc).child(alloc, k)
}

fn split_root<R: Wait>(
    rt: &R,
    alloc: Global,
    book: &SharedBook,
    seat: &mut Seat,
) -> Result<(), BookError>
    requires { seat.old.book ≡ book_id book.now }
    ensures { seat.new.book ≡ seat.old.book }
{
    book.split(rt, alloc, seat, &Path::root(alloc), &[1, 2])
}

fn ends<R: Wait>(
    rt: &R,
    alloc: Global,
    book: &SharedBook,
    seat: &mut Seat,
    k: u32,
) -> Result<bool, Memory>
    requires { seat.old.book ≡ book_id book.now }
    ensures { seat.new.book ≡ seat.old.book }
{
    let path = kid(alloc, k)?;
    Ok(book.done(rt, seat, &path, cut_at(alloc, &path)?).is_ok())
}

/// Whether two seats open the empty path once.
fn open_once<R: Wait>(
    rt: &R,
    alloc: Global,
    book: &SharedBook,
    first: &mut Seat,
    second: &mut Seat,
) -> bool
    requires { (first.old.book ≡ book_id book.now) × (second.old.book ≡ book_id book.now) }
    ensures { (first.new.book ≡ first.old.book) × (second.new.book ≡ second.old.book) }
{
    let before = book.status(rt, second) == Progress::Left(1);
    let opened = split_root(rt, alloc, book, first) == Ok(());
    let again = split_root(rt, alloc, book, second) == Err(BookError::NotOpen);
    before && opened && again
}

/// Whether two seats end one path each, and nothing is open then.
fn end_both<R: Wait>(
    rt: &R,
    alloc: Global,
    book: &SharedBook,
    first: &mut Seat,
    second: &mut Seat,
) -> Result<bool, Memory>
    requires { (first.old.book ≡ book_id book.now) × (second.old.book ≡ book_id book.now) }
    ensures { (first.new.book ≡ first.old.book) × (second.new.book ≡ second.old.book) }
{
    let one = ends(rt, alloc, book, second, 1)?;
    let left = book.status(rt, second) == Progress::Left(1);
    let two = ends(rt, alloc, book, first, 2)?;
    let finished = book.status(rt, first) == Progress::Finished;
    Ok(one && left && two && finished)
}

/// Whether the one seat sees that the other has stopped the search.
fn stops<R: Wait>(rt: &R, book: &SharedBook, first: &mut Seat, second: &mut Seat) -> bool
    requires { (first.old.book ≡ book_id book.now) × (second.old.book ≡ book_id book.now) }
    ensures { (first.new.book ≡ first.old.book) × (second.new.book ≡ second.old.book) }
{
    book.stop(rt, second);
    book.status(rt, first) == Progress::Stopped
}

/// Whether each of two seats has every other one of four entries.
fn takes_turns(closed: &Closed) -> bool {
    match closed.logs.items() {
        [one, two] => {
            closed.history.items().len() == 4
                && one.items() == [0, 2].as_slice()
                && two.items() == [1, 3].as_slice()
        }
        _ => false,
    }
}

fn find_entries<R: Wait>(rt: &R, alloc: Global) -> Result<bool, Memory> {
    let (book, mut first, mut second) = pair(alloc)?;
    let opened = open_once(rt, alloc, &book, &mut first, &mut second);
    let ended = end_both(rt, alloc, &book, &mut first, &mut second)?;
    let stopped = stops(rt, &book, &mut first, &mut second);
    let closed = close_pair(alloc, book, first, second)?;
    Ok(opened && ended && stopped && takes_turns(&closed))
}

#[test]
fn seats_find_their_own_entries(rt: HostRuntime) {
    assert!(rt; matches!(find_entries(&rt, rt.alloc()), Ok(true)));
}

/// A book with one seat, of which one answer is wanted.
fn alone(alloc: Global) -> Result<(SharedBook, Seat), Memory>
    ensures { IfOk result (λ r. r.1.book ≡ book_id r.0) }
{
    let (book, mut seats) = SharedBook::make(alloc, 1, Limit::First(1))?;
    let Some(seat) = seats.pop() else {
        return Err(Memory);
    };
    Ok((book, seat))
}

/// What comes of leaving out [2].
fn skip_second<R: Wait>(
    rt: &R,
    alloc: Global,
    book: &SharedBook,
    seat: &mut Seat,
) -> Result<(), SkipError>
    requires { seat.old.book ≡ book_id book.now }
    ensures { seat.new.book ≡ seat.old.book }
{
    let Ok(path) = kid(alloc, 2) else {
        return Err(SkipError::Memory);
    };
    book.skip(rt, seat, &path)
}

/// Whether [1] ends with an answer.
fn answers<R: Wait>(
    rt: &R,
    alloc: Global,
    book: &SharedBook,
    seat: &mut Seat,
) -> Result<bool, Memory>
    requires { seat.old.book ≡ book_id book.now }
    ensures { seat.new.book ≡ seat.old.book }
{
    let path = kid(alloc, 1)?;
    Ok(book.done(rt, seat, &path, answer_at(alloc, &path)?).is_ok())
}

/// Whether a seat alone leaves [2] out once, as soon as an answer has ended before it.
fn skips_once<R: Wait>(
    rt: &R,
    alloc: Global,
    book: &SharedBook,
    seat: &mut Seat,
) -> Result<bool, Memory>
    requires { seat.old.book ≡ book_id book.now }
    ensures { seat.new.book ≡ seat.old.book }
{
    let opened = split_root(rt, alloc, book, seat) == Ok(());
    let early = skip_second(rt, alloc, book, seat) == Err(SkipError::Needed(0));
    let answered = answers(rt, alloc, book, seat)?;
    let enough = skip_second(rt, alloc, book, seat) == Ok(());
    let finished = book.status(rt, seat) == Progress::Finished;
    let again = skip_second(rt, alloc, book, seat) == Err(SkipError::NotOpen);
    Ok(opened && early && answered && enough && finished && again)
}

fn skips<R: Wait>(rt: &R, alloc: Global) -> Result<bool, Memory> {
    let (book, mut seat) = alone(alloc)?;
    skips_once(rt, alloc, &book, &mut seat)
}

#[test]
fn a_seat_leaves_a_path_out_behind_answers_enough(rt: HostRuntime) {
    assert!(rt; matches!(skips(&rt, rt.alloc()), Ok(true)));
}

/// Splits a path of fewer than five choices into ten, and ends a longer one.
fn visit<R: Wait>(
    rt: &R,
    alloc: Global,
    book: &SharedBook,
    seat: &mut Seat,
    path: &Path,
    todo: &mut Vec<Path>,
) -> Result<(), Memory>
    requires { seat.old.book ≡ book_id book.now }
    ensures { seat.new.book ≡ seat.old.book }
{
    if path.choices().len() == 5 {
        let ended = book.done(rt, seat, path, Vec::new(alloc));
        return if ended.is_ok() { Ok(()) } else { Err(Memory) };
    }
    let kids = [1, 2, 3, 4, 5, 6, 7, 8, 9, 10];
    if book.split(rt, alloc, seat, path, &kids).is_err() {
        return Err(Memory);
    }
    for k in 1..11 {
        todo.push(path.child(alloc, k)?)?;
    }
    Ok(())
}

/// Visits all paths below one choice of the root: 1,111 are split, and 10,000 end.
fn enter_all<R: Wait>(rt: &R, alloc: Global, book: &SharedBook, mut seat: Seat) -> Seat
    requires { seat.book ≡ book_id book.now }
    ensures { result.book ≡ book_id book.now }
{
    let mut todo = Vec::new(alloc);
    let Ok(path) = kid(alloc, seat.number().wrapping_add(1)) else {
        return seat;
    };
    if todo.push(path).is_err() {
        return seat;
    }
    for _ in 0..20000 {
        let Some(path) = todo.pop() else { break };
        if visit(rt, alloc, book, &mut seat, &path, &mut todo).is_err() {
            break;
        }
    }
    seat
}

fn run_all<R: Threads + Wait + Sync>(
    rt: &R,
    alloc: Global,
    book: &SharedBook,
    seats: Vec<Seat>,
) -> Result<Vec<Seat>, Memory>
    requires { All (λ s. s.book ≡ book_id book.now) seats.items }
    ensures len { IfOk result (λ v. vec_len v ≡ vec_len seats) }
    ensures each { IfOk result (λ v. All (λ s. s.book ≡ book_id book.now) v.items) }
{
    let seats = thread::map_vec(
        rt,
        seats,
        &|seat: Seat| -> Seat
            requires { seat.book ≡ book_id book.now }
            ensures { result.book ≡ book_id book.entry.now }
        { enter_all(rt, alloc, book, seat) },
    )?;
    Ok(seats)
}

/// A book with one seat and four more.
fn five(alloc: Global) -> Result<(SharedBook, Seat, Vec<Seat>), Memory>
    ensures { IfOk result (λ r. (r.1.book ≡ book_id r.0) × All (λ s. s.book ≡ book_id r.0) r.2.items
        × (vec_len r.2 ≡ 4) × (seats_of r.0 ≡ 5)) }
{
    let (book, mut seats) = SharedBook::make(alloc, 5, Limit::All)?;
    let Some(own) = seats.pop() else {
        return Err(Memory);
    };
    Ok((book, own, seats))
}

fn close_five(
    alloc: Global,
    book: SharedBook,
    own: Seat,
    mut seats: Vec<Seat>,
) -> Result<Closed, Memory>
    requires own { own.book ≡ book_id book }
    requires seats { All (λ s. s.book ≡ book_id book) seats.items }
    requires len { (vec_len seats ≡ 4) × (seats_of book ≡ 5) }
{
    seats.push(own)?;
    book.close(alloc, seats)
}

/// Whether four seats have a fourth of the entries each, and the fifth has the first one.
fn are_fourths(closed: &Closed) -> bool {
    match closed.logs.items() {
        [fourths @ .., last] => {
            closed.history.items().len() == 44445
                && fourths.len() == 4
                && fourths.iter().all(|log| log.items().len() == 11111)
                && last.items() == [0].as_slice()
        }
        _ => false,
    }
}

/// Splits the empty path in four.
fn begin<R: Wait>(rt: &R, alloc: Global, book: &SharedBook, own: &mut Seat) -> Result<(), BookError>
    requires { own.old.book ≡ book_id book.now }
    ensures { own.new.book ≡ own.old.book }
{
    book.split(rt, alloc, own, &Path::root(alloc), &[1, 2, 3, 4])
}

fn enter_beside<R: Threads + Wait + Sync>(rt: &R, alloc: Global) -> Result<bool, Memory> {
    let (book, mut own, seats) = five(alloc)?;
    let begun = begin(rt, alloc, &book, &mut own) == Ok(());
    let seats = run_all(rt, alloc, &book, seats)?;
    let finished = book.status(rt, &mut own) == Progress::Finished;
    let closed = close_five(alloc, book, own, seats)?;
    Ok(begun && finished && are_fourths(&closed))
}

#[test]
fn four_threads_enter(rt: HostRuntime) {
    assert!(rt; matches!(enter_beside(&rt, rt.alloc()), Ok(true)));
}
