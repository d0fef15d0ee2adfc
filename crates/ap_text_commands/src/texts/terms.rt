//! Terms that are drawn.

ghost use Rattle.std.specs.Prelude.{◌≡◌, ◌++◌, ◌≤◌, OnOk};
ghost use Rattle.ap_text_commands.specs.Generated.{application, lambda, leaf, bound_name, drawn, next_draw, term};

use crate::texts::draws::Draws;
use ap_defs::memory::Memory;

/// Writes a name that is drawn.
fn write_name(draws: &mut Draws, out: &mut Vec<u8>) -> Result<(), Memory>
    ensures text { OnOk result (out.new.items
        ≡ out.old.items ++ bound_name (drawn 3 draws.old.state)) }
    ensures state { OnOk result (draws.new.state ≡ next_draw draws.old.state) }
{
    match draws.draw(3) {
        0 => out.push(b'b')?,
        1 => out.push(b'c')?,
        _ => out.push(b'd')?,
    }
    Ok(())
}

/// Writes a variable.
fn write_leaf(draws: &mut Draws, out: &mut Vec<u8>) -> Result<(), Memory>
    ensures text { OnOk result (out.new.items ≡ out.old.items ++ (leaf draws.old.state).text) }
    ensures state { OnOk result (draws.new.state ≡ (leaf draws.old.state).state) }
{
    out.extend_from_slice(b"var(")?;
    write_name(draws, out)?;
    out.push(b')')?;
    Ok(())
}

/// Writes an abstraction of a term of at most this height.
#[cycle(terms)]
fn write_lambda(draws: &mut Draws, height: u32, out: &mut Vec<u8>) -> Result<(), Memory>
    ensures text { OnOk result (out.new.items
        ≡ out.old.items ++ (lambda (term height) draws.old.state).text) }
    ensures state { OnOk result (draws.new.state
        ≡ (lambda (term height) draws.old.state).state) }
{
    out.extend_from_slice(b"lam(")?;
    write_name(draws, out)?;
    out.push(b'\\')?;
    write_term(draws, height, out)?;
    out.push(b')')?;
    Ok(())
}

/// Writes an application of terms of at most this height.
#[cycle(terms)]
fn write_application(draws: &mut Draws, height: u32, out: &mut Vec<u8>) -> Result<(), Memory>
    ensures text { OnOk result (out.new.items
        ≡ out.old.items ++ (application (term height) draws.old.state).text) }
    ensures state { OnOk result (draws.new.state
        ≡ (application (term height) draws.old.state).state) }
{
    out.extend_from_slice(b"app(")?;
    write_term(draws, height, out)?;
    out.push(b',')?;
    write_term(draws, height, out)?;
    out.push(b')')?;
    Ok(())
}

/// Writes a term of at most this height. The calls go no deeper than that.
#[cycle(terms)]
pub fn write_term(draws: &mut Draws, height: u32, out: &mut Vec<u8>) -> Result<(), Memory>
    ensures text { OnOk result (out.new.items
        ≡ out.old.items ++ (term height draws.old.state).text) }
    ensures state { OnOk result (draws.new.state ≡ (term height draws.old.state).state) }
{
    if height == 0 {
        return write_leaf(draws, out);
    }
    match draws.draw(4) {
        0 => write_leaf(draws, out),
        1 => write_lambda(draws, height - 1, out),
        _ => write_application(draws, height - 1, out),
    }
}
