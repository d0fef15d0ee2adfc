// Places in the bytes, and the line at a place.
ghost use Rattle.std.specs.Prelude.{◌≡◌, length, map, IfOk};
ghost use Rattle.std.specs.Option.{option_map};
ghost use Rattle.ap_bundle.specs.Readers as spec;
ghost use Rattle.ap_bundle_read.specs.Outcomes.{Gives, place_of};

use crate::error::ReadError;
use crate::words::line_words;
use ap_bundle::faults::BundleKind;
use ap_bundle::words::Word;
use std::alloc::Global;

/// How large the shared terms of a bundle may be, each in full.
pub(crate) const ROOM: u64 = 16_777_216;

/// What is left of the bytes, and how large the shared terms may be that are still to come.
#[derive(Clone, Copy)]
pub(crate) struct Place<'a> {
    pub(crate) rest: &'a [u8],
    pub(crate) room: u64,
}

/// The bytes before the first LF, and those after it.
pub(crate) fn first_line(bytes: &[u8]) -> Option<(&[u8], &[u8])>
    ensures { option_map (λ l. (l.0.now, l.1.now)) result ≡ spec.first_line bytes.now }
{
    for i in 0..bytes.len() {
        if bytes[i] == b'\n' {
            return Some((&bytes[..i], &bytes[i + 1..]));
        }
    }
    None
}

/// What begins at the place is wrong.
pub(crate) fn wrong(kind: BundleKind, place: Place<'_>) -> ReadError
    ensures { result ≡ ReadError.Wrong kind (length place.entry.rest.now) }
{
    ReadError::Wrong(kind, place.rest.len())
}

/// The words of the line at the place, and the place behind it.
#[tactic(auto, unfolding(ap_bundle::specs::Readers::read_line))]
pub(crate) fn words_at<'a>(
    alloc: Global,
    kind: BundleKind,
    place: Place<'a>,
) -> Result<(Vec<Word>, Place<'a>), ReadError>
    ensures { Gives (λ r. (r.0.items, place_of r.1)) result
        (spec.read_words kind (place_of place.entry)) }
{
    let Some((line, rest)) = first_line(place.rest) else {
        return Err(ReadError::Wrong(BundleKind::Unended, 0));
    };
    let Some(words) = line_words(alloc, line)? else {
        return Err(wrong(kind, place));
    };
    Ok((
        words,
        Place {
            rest,
            room: place.room,
        },
    ))
}
