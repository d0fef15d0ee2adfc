//! The ground proofs among the derivations of a text's answers, and what `cover` is to write for them.
//!
//! Those without variables and conditions are ground proofs, and `cover` is to write that each is covered by the answer
//! that it is of: for both versions of their bundle, by one worker and by several, and with the names of each proof
//! exchanged in a way of its own. The library's call is made on each of them too, and it is looked at term by term whether
//! what it gives covers the proof.

use crate::bundles::versions_of;
use crate::calls::are_answered;
use crate::proving::{Written, is_written};
use crate::renamed::renamed;
use crate::spelling::Spelling;
use ap_bundle_read::read_bundle;
use ap_cover::ground::is_ground;
use ap_cover::path::path_of;
use ap_defs::lists::List;
use ap_defs::memory::Memory;
use ap_defs::outcomes::{Bundle, Proved};
use std::sync::Wait;
use std::thread::Threads;

/// An answer's query, and its place among the answers of that query, from 1.
#[derive(Clone, Copy)]
struct Place {
    query: u32,
    number: usize,
}

/// The place of the answer behind one at a place. Answers come query by query.
fn next_place(last: Place, query: u32) -> Place {
    let number = if last.query == query {
        last.number.saturating_add(1)
    } else {
        1
    };
    Place { query, number }
}

/// Adds a path with dots.
pub fn put_path(out: &mut Spelling, choices: &[u32]) {
    let mut dot = "";
    for choice in choices {
        out.put(dot);
        out.put_number(*choice as u64, "");
        dot = ".";
    }
    if choices.is_empty() {
        out.put("-");
    }
}

/// Adds the line that is wanted of a proof with this number, which is of the answer at a place.
fn put_wanted(
    out: &mut Spelling,
    number: usize,
    place: Place,
    proved: &Proved,
) -> Result<(), Memory> {
    let path = path_of(out.alloc(), &proved.derivation)?;
    out.put("% proof ");
    out.put_number(number as u64, ": answer ");
    out.put_number(place.number as u64, " of query ");
    out.put_number(place.query as u64, ", path ");
    put_path(out, path.choices());
    out.put("\n");
    Ok(())
}

/// The ground proofs of answers. Adds the lines that are wanted of them.
fn ground_proofs(lines: &mut Spelling, all: Vec<Proved>) -> Result<Vec<Proved>, Memory> {
    let mut kept = Vec::new(lines.alloc());
    let mut place = Place {
        query: 0,
        number: 0,
    };
    for proved in all {
        place = next_place(place, proved.query);
        if is_ground(&proved) {
            put_wanted(lines, kept.len().saturating_add(1), place, &proved)?;
            kept.push(proved)?;
        }
    }
    Ok(kept)
}

/// So many ground proofs of a text: their bundle in both versions, and with their names exchanged.
#[derive(Drop)]
struct Grounds {
    count: usize,
    written: Written,
    renamed: String,
}

/// The ground proofs of a text's bundle. Adds the lines that are wanted of them.
fn grounds_in(lines: &mut Spelling, bytes: &[u8]) -> Result<Bundle, Memory> {
    let Bundle { text, proved } = read_bundle(lines.alloc(), bytes).or(Err(Memory))?;
    let proved = List::of(ground_proofs(lines, proved.into_vec())?);
    Ok(Bundle { text, proved })
}

/// Ground proofs, as they are written.
fn grounds_of(lines: &mut Spelling, bundle: &Bundle) -> Result<Grounds, Memory> {
    let written = versions_of(lines.alloc(), bundle)?;
    let renamed = renamed(lines, &written.full, bundle.text.items().len());
    Ok(Grounds {
        count: bundle.proved.items().len(),
        written,
        renamed,
    })
}

/// The ground proofs of a text's bundle, as they are written. Adds the lines that are wanted of them.
fn read_grounds(lines: &mut Spelling, bytes: &[u8]) -> Result<Grounds, Memory> {
    let bundle = grounds_in(lines, bytes)?;
    grounds_of(lines, &bundle)
}

/// Whether `cover` writes these lines of proofs, in both versions and with their names exchanged: that the answer covers
/// each that it is of; and whether the library's call gives values by which it does.
fn are_covered<R: Threads + Wait + Sync>(
    rt: &R,
    out: &mut Spelling,
    depth: &str,
    lines: &str,
    grounds: &Grounds,
) -> bool {
    let wanted = lines.as_bytes();
    let (full, shared) = (
        grounds.written.full.as_slice(),
        grounds.written.shared.as_slice(),
    );
    let renamed = grounds.renamed.as_bytes();
    let alone: &[&str] = &["cover", "--depth", depth];
    let many: &[&str] = &["cover", "--depth", depth, "--workers", "8"];
    let number = out.number(depth);
    is_written(rt, out, alone, full, wanted)
        && is_written(rt, out, many, shared, wanted)
        && is_written(rt, out, many, renamed, wanted)
        && are_answered(out.alloc(), number, shared)
        && are_answered(out.alloc(), number, renamed)
}

/// How many ground proofs a bundle of a text's answers has, and a line where `cover` writes otherwise for them.
pub fn cover_bundle<R: Threads + Wait + Sync>(
    rt: &R,
    out: &mut Spelling,
    depth: &str,
    bytes: &[u8],
) -> usize {
    let mut lines = Spelling::new(out.alloc());
    match read_grounds(&mut lines, bytes) {
        Ok(found) => {
            let lines = out.taken(lines);
            if found.count > 0 && !are_covered(rt, out, depth, &lines, &found) {
                out.put("% cover writes otherwise\n");
            }
            found.count
        }
        Err(Memory) => {
            out.lose();
            0
        }
    }
}
