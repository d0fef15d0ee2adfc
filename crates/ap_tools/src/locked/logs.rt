//! The places of each seat's entries in a history.

ghost use Rattle.std.specs.Prelude.{◌≡◌, [], IfOk};
ghost use Rattle.ap_tools.specs.Turns.{maker_of};
ghost use Rattle.ap_tools.specs.Seats.{logs_of};
ghost use Rattle.ap_tools.specs.Noting.{lists_of, noted};

use ap_defs::lists::List;
use ap_defs::memory::Memory;
use ap_paths::Entry;
use std::alloc::Global;

/// The number of the seat that made an entry.
fn maker(entry: &Entry) -> u32
    ensures { result ≡ maker_of entry.now }
{
    match entry {
        Entry::Split {
            seat,
            path: _path,
            kids: _kids,
        } => *seat,
        Entry::Done {
            seat,
            path: _path,
            outs: _outs,
        } => *seat,
        Entry::Skip {
            seat,
            path: _path,
            found: _found,
        } => *seat,
        Entry::Stop { seat } => *seat,
    }
}

/// Adds the place of an entry to the log of its number, if there is one.
fn note(entry: &Entry, place: u64, logs: &mut Vec<Vec<u64>>) -> Result<(), Memory>
    ensures { IfOk result (λ _. lists_of logs.new.items
        ≡ noted (maker_of entry.now) place (lists_of logs.old.items)) }
{
    let number = maker(entry) as usize;
    if number < logs.len() {
        let log = &mut logs[number];
        log.push(place)?;
    }
    Ok(())
}

/// So many logs without a place.
fn make_empty(alloc: Global, seats: usize) -> Result<Vec<Vec<u64>>, Memory>
    ensures { IfOk result (λ v. lists_of v.items ≡ logs_of seats []) }
{
    let mut logs = Vec::with_capacity(alloc, seats)?;
    for _ in 0..seats {
        logs.push(Vec::new(alloc))?;
    }
    Ok(logs)
}

/// The places of all entries, each in the log of its number.
fn note_all(alloc: Global, history: &[Entry], seats: usize) -> Result<Vec<Vec<u64>>, Memory>
    ensures { IfOk result (λ v. lists_of v.items ≡ logs_of seats history.now) }
{
    let mut logs = make_empty(alloc, seats)?;
    let mut place = 0;
    for entry in history {
        note(entry, place, &mut logs)?;
        place += 1;
    }
    Ok(logs)
}

/// The places of the entries of each number below `seats`, ascending, in order of the numbers. It goes
/// through the history once.
pub fn make_logs(alloc: Global, history: &[Entry], seats: usize) -> Result<Vec<List<u64>>, Memory>
    ensures { IfOk result (λ v. v.items ≡ logs_of seats history.now) }
{
    let mut logs = Vec::with_capacity(alloc, seats)?;
    for log in note_all(alloc, history, seats)? {
        logs.push(List::of(log))?;
    }
    Ok(logs)
}
