//! The lines of proofs.

ghost use Rattle.std.specs.Prelude.{◌≡◌, ◌++◌, IfOk, OnOk, flat_map};
ghost use Rattle.std.specs.Fmt.{decimal};
ghost use Rattle.std.specs.Option.{option_map};
ghost use Rattle.ap_cover.specs.Said.{cover_said};
ghost use Rattle.ap_covering.specs.CoverLines as spec;

use crate::uncovered::{Reason, Uncovered};
use ap_cover::covers::Cover;
use ap_defs::lists::List;
use ap_defs::memory::Memory;
use ap_defs::paths::Path;
use std::alloc::Global;

/// Writes a number.
fn write_number(alloc: Global, out: &mut Vec<u8>, number: u32) -> Result<(), Memory>
    ensures { OnOk result (out.new.items ≡ out.old.items ++ decimal number) }
{
    let text = format!(in alloc; "{number}")?;
    out.extend_from_slice(text.as_bytes())?;
    Ok(())
}

/// Writes a choice after a dot.
fn write_choice(alloc: Global, out: &mut Vec<u8>, choice: u32) -> Result<(), Memory>
    ensures { OnOk result (out.new.items ≡ out.old.items ++ spec.dotted choice) }
{
    let text = format!(in alloc; ".{choice}")?;
    out.extend_from_slice(text.as_bytes())?;
    Ok(())
}

/// Writes the choices behind the first one of a path.
fn write_choices(alloc: Global, out: &mut Vec<u8>, choices: &[u32]) -> Result<(), Memory>
    ensures { OnOk result (out.new.items ≡ out.old.items ++ flat_map spec.dotted choices.now) }
{
    'writing: for choice in choices {
        write_choice(alloc, out, *choice)?;
    }
    Ok(())
}

/// Writes a path with dots.
fn write_path(alloc: Global, out: &mut Vec<u8>, path: &Path) -> Result<(), Memory>
    ensures { OnOk result (out.new.items ≡ out.old.items ++ spec.path_text path.now) }
{
    let [first, rest @ ..] = path.choices() else {
        out.push(b'-')?;
        return Ok(());
    };
    write_number(alloc, out, *first)?;
    write_choices(alloc, out, rest)
}

/// Writes a line that ends with a path.
fn write_line(alloc: Global, out: &mut Vec<u8>, head: &str, path: &Path) -> Result<(), Memory>
    ensures { OnOk result (out.new.items ≡ out.old.items ++ spec.path_line head.now path.now) }
{
    out.extend_from_slice(head.as_bytes())?;
    write_path(alloc, out, path)?;
    out.push(b'\n')?;
    Ok(())
}

/// Writes the line of the proof with this number of the query with this number, by what covers it.
pub(crate) fn write_cover(
    alloc: Global,
    out: &mut Vec<u8>,
    number: usize,
    query: u32,
    cover: Option<Cover<'_>>,
) -> Result<(), Memory>
    ensures { OnOk result (out.new.items ≡ out.old.items
        ++ spec.cover_line number query (option_map cover_said cover.entry)) }
{
    match cover {
        None => Ok(()),
        Some(Cover::Answer { place, path }) => {
            let head = format!(in alloc;
                "% proof {number}: answer {place} of query {query}, path "
            )?;
            write_line(alloc, out, &head, path)
        }
        Some(Cover::Stuck { place, path }) => {
            let head = format!(in alloc;
                "% proof {number}: stuck {place} of query {query}, path "
            )?;
            write_line(alloc, out, &head, path)
        }
    }
}

/// What is said of a proof that is not to be covered.
fn reason_text(reason: Reason) -> &'static str
    ensures { result.now ≡ spec.reason_text reason }
{
    match reason {
        Reason::NotGround => "not ground",
        Reason::TooHigh => "too high",
    }
}

/// The line of a proof that is not to be covered.
pub fn uncovered_line(alloc: Global, uncovered: Uncovered) -> Result<List<u8>, Memory>
    ensures { IfOk result (λ l. l ≡ spec.uncovered_line uncovered) }
{
    let number = uncovered.number;
    let reason = reason_text(uncovered.reason);
    let text = format!(in alloc; "% proof {number}: {reason}\n")?;
    Ok(List::of(text.into_bytes()))
}
