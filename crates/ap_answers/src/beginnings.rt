//! What is written before the parts of terms and behind them.

ghost use Rattle.std.specs.Prelude.{◌≡◌, ◌++◌, [], ◌∷◌, codes, reverse, map, Some, OnOk, IfOk};
ghost use Rattle.std.specs.Option.{option_map};
ghost use Rattle.ap_defs.specs.Printing.{barred, swaps_text};
ghost use Rattle.ap_defs.specs.Types.{constructor_of};
ghost use Rattle.ap_answers.specs.Spelled.{spelling_in};
ghost use Rattle.ap_answers.specs.Places.{written_place, pair_opening, pair_closing, cell_opening, cell_closing, declared_opening, declared_closing, declared_place, opening, closing, argument_place};
ghost use Rattle.ap_answers.specs.Swappings.{heads_text};

use crate::place::{Place, parenthesized, write_bar, write_nil};
use crate::speller::Speller;
use ap_defs::goals::Constructor;
use ap_defs::memory::Memory;
use ap_defs::terms::{Name, Swap, Var};

/// Writes the beginnings of swappings.
fn write_heads(out: &mut Vec<u8>, by: &Speller<'_>, swaps: &[Swap]) -> Result<(), Memory>
    ensures { OnOk result (out.new.items
        ≡ out.old.items ++ heads_text (spelling_in by.now).names swaps.now) }
{
    for swap in swaps {
        write_head(out, by, swap)?;
    }
    Ok(())
}

/// Writes the beginning of a swapping.
fn write_head(out: &mut Vec<u8>, by: &Speller<'_>, swap: &Swap) -> Result<(), Memory>
    ensures { OnOk result (out.new.items
        ≡ out.old.items ++ heads_text (spelling_in by.now).names (swap.now ∷ [])) }
{
    let sort = swap.sort;
    out.extend_from_slice(b"swap(")?;
    by.write_name(
        out,
        Name {
            sort,
            num: swap.left,
        },
    )?;
    out.push(b',')?;
    by.write_name(
        out,
        Name {
            sort,
            num: swap.right,
        },
    )?;
    out.push(b',')?;
    Ok(())
}

/// Writes a variable inside swappings, the first outermost.
pub(crate) fn write_suspension(
    out: &mut Vec<u8>,
    by: &Speller<'_>,
    swaps: &[Swap],
    var: Var,
) -> Result<(), Memory>
    ensures { OnOk result (out.new.items
        ≡ out.old.items
        ++ swaps_text (spelling_in by.now).names swaps.now ((spelling_in by.now).vars var)) }
{
    write_heads(out, by, swaps)?;
    by.write_var(out, var)?;
    for _swap in swaps {
        out.push(b')')?;
    }
    Ok(())
}

/// Writes what stands before the left part of a pair, and keeps what will stand behind the right one.
pub(crate) fn begin_pair(
    out: &mut Vec<u8>,
    closers: &mut Vec<u8>,
    place: Place,
) -> Result<(), Memory>
    ensures written { OnOk result (out.new.items
        ≡ out.old.items ++ pair_opening (written_place place)) }
    ensures kept { OnOk result (closers.new.items
        ≡ closers.old.items ++ pair_closing (written_place place)) }
{
    if parenthesized(place) {
        write_bar(out, place)?;
        out.push(b'(')?;
        closers.push(b')')?;
    }
    Ok(())
}

/// Writes what stands before the parts of a list cell, and keeps what will stand behind them.
fn begin_cell(out: &mut Vec<u8>, closers: &mut Vec<u8>, place: Place) -> Result<(), Memory>
    ensures written { OnOk result (out.new.items
        ≡ out.old.items ++ cell_opening (written_place place)) }
    ensures kept { OnOk result (closers.new.items
        ≡ closers.old.items ++ cell_closing (written_place place)) }
{
    if let Place::Rest = place {
        out.push(b',')?;
    } else {
        out.push(b'[')?;
        closers.push(b']')?;
    }
    Ok(())
}

/// Writes a constructor and what stands before its arguments, and keeps what will stand behind them.
/// Says where they stand, if there are any.
fn begin_declared(
    out: &mut Vec<u8>,
    closers: &mut Vec<u8>,
    constructor: &Constructor,
    place: Place,
) -> Result<Option<Place>, Memory>
    ensures written { OnOk result (out.new.items
        ≡ out.old.items
        ++ declared_opening (Some (constructor_of constructor.now)) (written_place place)) }
    ensures kept { OnOk result (closers.new.items
        ≡ closers.old.items ++ declared_closing (Some (constructor_of constructor.now))) }
    ensures place { IfOk result (λ next. option_map written_place next
        ≡ declared_place (Some (constructor_of constructor.now))) }
{
    write_bar(out, place)?;
    out.extend_from_slice(constructor.text.as_str().as_bytes())?;
    let count = constructor.args.items().len();
    if count == 0 {
        return Ok(None);
    }
    out.push(b'(')?;
    closers.push(b')')?;
    Ok(Some(Place::Arguments(count)))
}

/// Writes what stands before the argument of an application, and keeps what will stand behind it. Says
/// where it stands, if it is written.
pub(crate) fn begin_application(
    out: &mut Vec<u8>,
    closers: &mut Vec<u8>,
    constructors: &[Constructor],
    f: u32,
    place: Place,
) -> Result<Option<Place>, Memory>
    ensures written { OnOk result (out.new.items
        ≡ out.old.items ++ opening (map constructor_of constructors.now) f (written_place place)) }
    ensures kept { OnOk result (closers.new.items
        ≡ closers.old.items ++ closing (map constructor_of constructors.now) f (written_place place)) }
    ensures place { IfOk result (λ next. option_map written_place next
        ≡ argument_place (map constructor_of constructors.now) f) }
{
    if f == 0 {
        write_nil(out, place)?;
        return Ok(None);
    }
    if f == 1 {
        begin_cell(out, closers, place)?;
        return Ok(Some(Place::Cell));
    }
    let index = (f - 2) as usize;
    if index >= constructors.len() {
        write_bar(out, place)?;
        return Ok(None);
    }
    begin_declared(out, closers, &constructors[index], place)
}

/// Writes a binder and its mark.
pub(crate) fn begin_abstraction(
    out: &mut Vec<u8>,
    by: &Speller<'_>,
    name: Name,
    place: Place,
) -> Result<(), Memory>
    ensures { OnOk result (out.new.items
        ≡ out.old.items
        ++ barred (written_place place) ((spelling_in by.now).names name ++ codes "\\")) }
{
    write_bar(out, place)?;
    by.write_name(out, name)?;
    out.push(b'\\')?;
    Ok(())
}

/// Writes what has been kept, the last first.
pub(crate) fn write_closers(out: &mut Vec<u8>, mut closers: Vec<u8>) -> Result<(), Memory>
    ensures { OnOk result (out.new.items ≡ out.old.items ++ reverse closers.items) }
{
    while let Some(closer) = closers.pop() {
        out.push(closer)?;
    }
    Ok(())
}
