//! A bundle, from its bytes.
ghost use Rattle.std.specs.Prelude.{◌≡◌, ◌≤◌, [], length, map, count_by};
ghost use Rattle.ap_bundle.specs.Bundles.{bundle_of, proved_of};
ghost use Rattle.ap_bundle.specs.LineForms as lines;
ghost use Rattle.ap_bundle.specs.Readers as readers;
ghost use Rattle.ap_bundle.specs.Reading as spec;
ghost use Rattle.ap_bundle_read.specs.Outcomes.{Answers, Gives, place_of};
ghost use Rattle.ap_bundle.specs.TableForms.{read_cited, read_shared};
ghost use Rattle.ap_bundle_read.specs.Tables.{reader_of};
ghost use Rattle.ap_shared.specs.SharedViews.{shared_bundle, shared_proved, shared_terms};

use crate::answers::{read_all, read_count};
use crate::cited_answers;
use crate::error::{BundleError, ReadError};
use crate::line_forms::{first_form, is_end};
use crate::place::{Place, ROOM, first_line, words_at, wrong};
use crate::table::entries::read_entries;
use crate::table::term_lines::Terms;
use ap_bundle::faults::{BundleFault, BundleKind};
use ap_bundle::version::Version;
use ap_bundle::words::Head;
use ap_defs::lists::List;
use ap_defs::outcomes::{Bundle, Proved};
use ap_shared::arena::SharedTerms;
use ap_shared::derivations::{SharedBundle, SharedProved};
use std::alloc::Global;
use std::rc::Rc;

/// The version that the first line tells, and the place behind it.
#[tactic(auto, unfolding(ap_bundle::specs::Readers::read_line))]
fn read_first(place: Place<'_>) -> Result<(Version, Place<'_>), ReadError>
    ensures { Gives (λ r. (r.0, place_of r.1)) result
        (readers.read_line BundleKind.Header lines.first_form (place_of place.entry)) }
{
    let Some((line, rest)) = first_line(place.rest) else {
        return Err(ReadError::Wrong(BundleKind::Unended, 0));
    };
    let Some(version) = first_form(line) else {
        return Err(wrong(BundleKind::Header, place));
    };
    Ok((
        version,
        Place {
            rest,
            room: place.room,
        },
    ))
}

/// A text of this length, and the place behind its LF.
#[tactic(auto, unfolding(ap_bundle::specs::Reading::read_text))]
fn read_text<'a>(
    alloc: Global,
    length: u64,
    place: Place<'a>,
) -> Result<(Vec<u8>, Place<'a>), ReadError>
    ensures { Gives (λ r. (r.0.items, place_of r.1)) result
        (spec.read_text length (place_of place.entry)) }
{
    let bytes = place.rest;
    if bytes.len() as u64 <= length {
        return Err(ReadError::Wrong(BundleKind::Unended, 0));
    }
    let (text, behind) = bytes.split_at(length as usize);
    if behind[0] != b'\n' {
        return Err(ReadError::Wrong(BundleKind::Header, behind.len()));
    }
    let text = text.to_vec(alloc)?;
    Ok((
        text,
        Place {
            rest: &behind[1..],
            room: place.room,
        },
    ))
}

/// The last line, after which nothing stands.
#[tactic(auto, unfolding(ap_bundle::specs::Reading::read_last, ap_bundle::specs::Readers::read_form))]
fn read_last(alloc: Global, place: Place<'_>) -> Result<(), ReadError>
    ensures { Gives (λ r. []) result (spec.read_last (place_of place.entry)) }
{
    let (words, rest) = words_at(alloc, BundleKind::Header, place)?;
    if !is_end(&words) {
        return Err(wrong(BundleKind::Header, place));
    }
    if !rest.rest.is_empty() {
        return Err(wrong(BundleKind::Header, rest));
    }
    Ok(())
}

/// What follows the text, and the table if there is one.
#[tactic(auto, unfolding(ap_bundle::specs::Reading::read_rest))]
fn read_rest(alloc: Global, terms: &Terms, place: Place<'_>) -> Result<Vec<Proved>, ReadError>
    ensures { Gives (λ v. map proved_of v.items) result
        (spec.read_rest (reader_of terms.now) (place_of place.entry)) }
{
    let (all, rest) = read_all(alloc, terms, place)?;
    read_last(alloc, rest)?;
    Ok(all)
}

/// The table, and what follows it.
#[tactic(auto, unfolding(ap_bundle::specs::Reading::read_shared_rest))]
fn read_shared_rest(alloc: Global, place: Place<'_>) -> Result<Vec<Proved>, ReadError>
    ensures { Gives (λ v. map proved_of v.items) result
        (spec.read_shared_rest read_shared (place_of place.entry)) }
{
    let (count, rest) = read_count(alloc, Head::Terms, place)?;
    let (table, rest) = read_entries(alloc, count, rest)?;
    read_rest(alloc, &Terms::Shared(table), rest)
}

/// What follows the text in this version.
fn read_version(alloc: Global, version: Version, place: Place<'_>) -> Result<Vec<Proved>, ReadError>
    ensures { Gives (λ v. map proved_of v.items) result
        (spec.read_version read_shared version (place_of place.entry)) }
{
    match version {
        Version::One => read_rest(alloc, &Terms::InFull, place),
        Version::Two => read_shared_rest(alloc, place),
    }
}

/// The bundle that begins at a place.
#[tactic(auto, unfolding(ap_bundle::specs::Reading::read_at))]
fn read_at(alloc: Global, place: Place<'_>) -> Result<Bundle, ReadError>
    ensures { Gives bundle_of result (spec.read_at read_shared (place_of place.entry)) }
{
    let (version, place) = read_first(place)?;
    let (length, place) = read_count(alloc, Head::Text, place)?;
    let (text, place) = read_text(alloc, length, place)?;
    let proved = read_version(alloc, version, place)?;
    Ok(Bundle {
        text: List::of(text),
        proved: List::of(proved),
    })
}

/// What follows the table, by the lines of terms.
#[tactic(auto, unfolding(ap_bundle::specs::Reading::read_rest))]
fn read_cited_rest(
    alloc: Global,
    table: &Rc<SharedTerms>,
    place: Place<'_>,
) -> Result<Vec<SharedProved>, ReadError>
    ensures { Gives (λ v. map shared_proved v.items) result
        (spec.read_rest (read_cited (shared_terms table.now.value)) (place_of place.entry)) }
{
    let (all, rest) = cited_answers::read_all(alloc, table, place)?;
    read_last(alloc, rest)?;
    Ok(all)
}

/// The table, and what follows it, by the lines of terms.
#[tactic(auto, unfolding(ap_bundle::specs::Reading::read_shared_rest))]
fn read_cited_table(alloc: Global, place: Place<'_>) -> Result<Vec<SharedProved>, ReadError>
    ensures { Gives (λ v. map shared_proved v.items) result
        (spec.read_shared_rest read_cited (place_of place.entry)) }
{
    let (count, rest) = read_count(alloc, Head::Terms, place)?;
    let (table, rest) = read_entries(alloc, count, rest)?;
    let table = Rc::new(alloc, table)?;
    read_cited_rest(alloc, &table, rest)
}

/// What follows the text of version 1. Terms in full are entered in a table for each answer.
#[tactic(auto, unfolding(ap_bundle::specs::Reading::read_rest))]
fn read_entered_rest(alloc: Global, place: Place<'_>) -> Result<Vec<SharedProved>, ReadError>
    ensures { Gives (λ v. map shared_proved v.items) result
        (spec.read_rest (reader_of Terms.InFull) (place_of place.entry)) }
{
    let (all, rest) = cited_answers::read_all_entered(alloc, place)?;
    read_last(alloc, rest)?;
    Ok(all)
}

/// What follows the text in this version, by the lines of terms.
fn read_cited_version(
    alloc: Global,
    version: Version,
    place: Place<'_>,
) -> Result<Vec<SharedProved>, ReadError>
    ensures { Gives (λ v. map shared_proved v.items) result
        (spec.read_version read_cited version (place_of place.entry)) }
{
    match version {
        Version::One => read_entered_rest(alloc, place),
        Version::Two => read_cited_table(alloc, place),
    }
}

/// The bundle that begins at a place, by the lines of its terms.
#[tactic(auto, unfolding(ap_bundle::specs::Reading::read_at))]
fn read_cited_at(alloc: Global, place: Place<'_>) -> Result<SharedBundle, ReadError>
    ensures { Gives shared_bundle result (spec.read_at read_cited (place_of place.entry)) }
{
    let (version, place) = read_first(place)?;
    let (length, place) = read_count(alloc, Head::Text, place)?;
    let (text, place) = read_text(alloc, length, place)?;
    let proved = read_cited_version(alloc, version, place)?;
    Ok(SharedBundle {
        text: List::of(text),
        proved: List::of(proved),
    })
}

/// How many LFs there are.
fn count_lines(bytes: &[u8]) -> usize
    ensures value { result ≡ count_by readers.is_lf bytes.now }
    ensures bound { result ≤ length bytes.now }
{
    bytes.iter().filter(|byte| **byte == b'\n').count()
}

/// A fault at its line.
fn fault_in(bytes: &[u8], kind: BundleKind, left: usize) -> BundleFault
    ensures { result ≡ readers.fault_in bytes.now (record { kind = kind; left = left }) }
{
    let before = bytes.len().saturating_sub(left);
    BundleFault {
        line: 1 + count_lines(&bytes[..before]) as u64,
        kind,
    }
}

/// The bundle of either version that the bytes are.
///
/// The lines and the text are read in order, and `Fault` tells the first of them that is wrong. `Memory` is
/// want of memory.
pub fn read_bundle(alloc: Global, bytes: &[u8]) -> Result<Bundle, BundleError>
    ensures { Answers bundle_of result (spec.reading bytes.now) }
{
    let start = Place {
        rest: bytes,
        room: ROOM,
    };
    match read_at(alloc, start) {
        Ok(bundle) => Ok(bundle),
        Err(ReadError::Wrong(kind, left)) => {
            Err(BundleError::Fault(fault_in(bytes, kind, left)))
        }
        Err(ReadError::Memory) => Err(BundleError::Memory),
    }
}

/// The bundle of either version that the bytes are, by the lines of its terms: no term is made of what a
/// line of a table says, so that each of the bundle's may be as large as those of `read_bundle` together.
///
/// The lines and the text are read in order, and `Fault` tells the first of them that is wrong. `Memory` is
/// want of memory.
pub fn read_cited_bundle(alloc: Global, bytes: &[u8]) -> Result<SharedBundle, BundleError>
    ensures { Answers shared_bundle result (spec.cited_reading bytes.now) }
{
    let start = Place {
        rest: bytes,
        room: ROOM,
    };
    match read_cited_at(alloc, start) {
        Ok(bundle) => Ok(bundle),
        Err(ReadError::Wrong(kind, left)) => {
            Err(BundleError::Fault(fault_in(bytes, kind, left)))
        }
        Err(ReadError::Memory) => Err(BundleError::Memory),
    }
}
