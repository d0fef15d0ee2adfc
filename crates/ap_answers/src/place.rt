//! Where a term stands in a text.

ghost use Rattle.std.specs.Prelude.{◌≡◌, ◌++◌, OnOk, IfOk, []};
ghost use Rattle.ap_defs.specs.Printing.{barred, unit_text, nil_text};
ghost use Rattle.ap_answers.specs.Places.{written_place, has_parentheses, between, part_after};

use ap_defs::memory::Memory;

/// By itself, as the right part of a pair, as the rest of a list, as the two parts of a list cell, or as
/// the arguments of a constructor with so many.
#[derive(Clone, Copy)]
pub enum Place {
    Whole,
    Part,
    Rest,
    Cell,
    Arguments(usize),
}

/// Whether a pair that stands here has parentheses of its own.
pub fn parenthesized(place: Place) -> bool
    ensures { result ≡ has_parentheses (written_place place) }
{
    match place {
        Place::Whole | Place::Rest => true,
        Place::Part | Place::Cell => false,
        Place::Arguments(count) => count < 2,
    }
}

/// Writes the bar that stands before the rest of a list.
pub fn write_bar(out: &mut Vec<u8>, place: Place) -> Result<(), Memory>
    ensures { OnOk result (out.new.items ≡ out.old.items ++ barred (written_place place) []) }
{
    if let Place::Rest = place {
        out.push(b'|')?;
    }
    Ok(())
}

/// Writes unit.
pub fn write_unit(out: &mut Vec<u8>, place: Place) -> Result<(), Memory>
    ensures { OnOk result (out.new.items ≡ out.old.items ++ unit_text (written_place place)) }
{
    if let Place::Arguments(0) = place {
        return Ok(());
    }
    write_bar(out, place)?;
    out.extend_from_slice(b"()")?;
    Ok(())
}

/// Writes the empty list: nothing at the end of a list.
pub fn write_nil(out: &mut Vec<u8>, place: Place) -> Result<(), Memory>
    ensures { OnOk result (out.new.items ≡ out.old.items ++ nil_text (written_place place)) }
{
    if let Place::Rest = place {
        return Ok(());
    }
    out.extend_from_slice(b"[]")?;
    Ok(())
}

/// Writes what stands between the parts of a pair, and says where the right part stands.
pub fn write_between(out: &mut Vec<u8>, place: Place) -> Result<Place, Memory>
    ensures written { OnOk result (out.new.items ≡ out.old.items ++ between (written_place place)) }
    ensures place { IfOk result (λ next. written_place next ≡ part_after (written_place place)) }
{
    match place {
        Place::Cell => Ok(Place::Rest),
        Place::Arguments(count) if count >= 2 => {
            out.push(b',')?;
            Ok(Place::Arguments(count - 1))
        }
        _ => {
            out.push(b',')?;
            Ok(Place::Part)
        }
    }
}
