use crate::pairs::{are_both_cuts, cut_at};
use ap_book::{Book, BookError, Kids, SkipError, merge};
use ap_defs::lists::List;
use ap_defs::memory::Memory;
use ap_defs::outcomes::Answer;
use ap_defs::paths::{Out, Path, Progress};
use ap_paths::{Closed, Limit, Run};
use std::alloc::Global;

fn path_of(alloc: Global, k: u32) -> Result<Path, Memory> {
    Path::root(alloc).child(alloc, k)
}

/// Whether an end of a path that is not open is refused, and hands its output back.
fn is_handed_back(alloc: Global, book: &mut Book, k: u32) -> Result<bool, Memory> {
    let path = path_of(alloc, k)?;
    match book.done(0, &path, cut_at(alloc, &path)?) {
        Ok(()) => Ok(false),
        Err(refusal) => {
            Ok(
                refusal.cause == BookError::NotOpen
                    && matches!(refusal.outs.items(), [Run::One(Out::Cut(_))]),
            )
        }
    }
}

/// What comes of a split of the empty path in two.
fn split_root(alloc: Global, book: &mut Book) -> Result<(), BookError> {
    book.split(alloc, 0, &Path::root(alloc), &[1, 2])
}

/// Whether the empty path is open once.
fn opens_once(alloc: Global, book: &mut Book) -> bool {
    let before = book.status() == Progress::Left(1);
    let first = split_root(alloc, book) == Ok(());
    let after = book.status() == Progress::Left(2);
    let second = split_root(alloc, book) == Err(BookError::NotOpen);
    before && first && after && second
}

/// Whether a stop stands once, behind the split.
fn stops_once(mut book: Book) -> bool {
    book.stop(1);
    book.stop(1);
    book.status() == Progress::Stopped && book.close().items().len() == 2
}

fn enters(alloc: Global) -> Result<bool, Memory> {
    let mut book = Book::new(alloc)?;
    let handed_back = is_handed_back(alloc, &mut book, 1)?;
    let once = opens_once(alloc, &mut book);
    Ok(handed_back && once && stops_once(book))
}

#[test]
fn entries_are_made_where_paths_are_open(rt: HostRuntime) {
    assert!(rt; matches!(enters(rt.alloc()), Ok(true)));
}

/// Enters the split of the empty path with kids that were made before.
fn enter_ready(alloc: Global, book: &mut Book) -> Result<bool, Memory> {
    let root = Path::root(alloc);
    let kids = Kids::of(alloc, &root, &[1, 3])?;
    let ready = kids.choices.as_slice() == [1, 3].as_slice() && kids.paths.len() == 2;
    let entered = book.enter_split(0, &root, Ok(kids)) == Ok(());
    Ok(ready && entered && book.status() == Progress::Left(2))
}

/// What comes of a split for whose kids memory was wanting.
fn enter_none(alloc: Global, book: &mut Book, k: u32) -> Result<BookError, Memory> {
    let path = path_of(alloc, k)?;
    match book.enter_split(0, &path, Err(Memory)) {
        Ok(()) => Err(Memory),
        Err(refusal) => Ok(refusal),
    }
}

fn enters_ready(alloc: Global) -> Result<bool, Memory> {
    let mut book = Book::new(alloc)?;
    let ready = enter_ready(alloc, &mut book)?;
    let open = enter_none(alloc, &mut book, 3)? == BookError::Memory;
    let other = enter_none(alloc, &mut book, 2)? == BookError::NotOpen;
    Ok(ready && open && other && book.status() == Progress::Left(2))
}

#[test]
fn kids_are_made_ready(rt: HostRuntime) {
    assert!(rt; matches!(enters_ready(rt.alloc()), Ok(true)));
}

fn end(alloc: Global, book: &mut Book, k: u32) -> Result<(), Memory> {
    let path = path_of(alloc, k)?;
    match book.done(0, &path, cut_at(alloc, &path)?) {
        Ok(()) => Ok(()),
        Err(_) => Err(Memory),
    }
}

/// What is merged where [2] ends before [1].
fn merged(alloc: Global) -> Result<Vec<Run>, Memory> {
    let mut book = Book::new(alloc)?;
    if split_root(alloc, &mut book).is_err() {
        return Err(Memory);
    }
    end(alloc, &mut book, 2)?;
    end(alloc, &mut book, 1)?;
    let history = book.close();
    let logs = List::of(Vec::new(alloc));
    merge(alloc, Closed { history, logs })
}

#[test]
fn outputs_are_merged_in_path_order(rt: HostRuntime) {
    let outs = merged(rt.alloc());
    assert!(rt; matches!(&outs, Ok(outs) if are_both_cuts(outs.as_slice())));
}

/// An answer that says nothing, at a path.
pub fn answer_at(alloc: Global, path: &Path) -> Result<Vec<Run>, Memory> {
    let answer = Answer {
        binds: List::of(Vec::new(alloc)),
        conds: List::of(Vec::new(alloc)),
        vars: List::of(Vec::new(alloc)),
    };
    let mut runs = Vec::new(alloc);
    runs.push(Run::One(Out::Found(path.copy(alloc)?, answer)))?;
    Ok(runs)
}

/// Ends a path with an answer.
fn answer(alloc: Global, book: &mut Book, path: &Path) -> Result<bool, Memory> {
    let outs = answer_at(alloc, path)?;
    Ok(book.done(0, path, outs).is_ok())
}

/// Whether [2] is left out once, as soon as there is an answer before it.
fn skips_once(alloc: Global, book: &mut Book) -> Result<bool, Memory> {
    let (left, right) = (path_of(alloc, 1)?, path_of(alloc, 2)?);
    let one = Limit::First(1);
    let early = book.skip(0, &right, one) == Err(SkipError::Needed(0));
    let answered = answer(alloc, book, &left)?;
    let all = book.skip(0, &right, Limit::All) == Err(SkipError::Needed(1));
    let enough = book.skip(0, &right, one) == Ok(());
    let finished = book.status() == Progress::Finished;
    let again = book.skip(0, &right, one) == Err(SkipError::NotOpen);
    Ok(early && answered && all && enough && finished && again)
}

fn skips(alloc: Global) -> Result<bool, Memory> {
    let mut book = Book::new(alloc)?;
    if split_root(alloc, &mut book).is_err() {
        return Ok(false);
    }
    skips_once(alloc, &mut book)
}

#[test]
fn a_path_is_left_out_behind_answers_enough(rt: HostRuntime) {
    assert!(rt; matches!(skips(rt.alloc()), Ok(true)));
}
