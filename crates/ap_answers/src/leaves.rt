//! Terms that have no parts to write.

ghost use Rattle.std.specs.Prelude.{◌≡◌, ◌++◌, true, false, map, Some, None, IfOk};
ghost use Rattle.ap_defs.specs.Printing.{term_at, whole};
ghost use Rattle.ap_defs.specs.Terms.{app, term_of};
ghost use Rattle.ap_defs.specs.Types.{constructor_of};
ghost use Rattle.ap_answers.specs.Spelled.{spelling_in};
ghost use Rattle.ap_answers.specs.Places.{argument_place, declared_place};

use crate::beginnings::{begin_application, write_closers, write_suspension};
use crate::place::Place;
use crate::speller::Speller;
use ap_defs::goals::Constructor;
use ap_defs::memory::Memory;
use ap_defs::terms::Term;
use std::alloc::Global;

/// Whether a declared constructor has no arguments.
fn is_bare(constructor: &Constructor) -> bool
    ensures { result ≡ true → declared_place (Some (constructor_of constructor.now)) ≡ None }
{
    constructor.args.items().is_empty()
}

/// Whether a constructor is written without its argument.
#[tactic(auto, using(crate::proofs::TextLemmas::nil_place, crate::proofs::TextLemmas::past_place))]
fn stands_alone(constructors: &[Constructor], f: u32) -> bool
    ensures { result ≡ true → argument_place (map constructor_of constructors.now) f ≡ None }
{
    if f < 2 {
        return f == 0;
    }
    let index = (f - 2) as usize;
    if index >= constructors.len() {
        return true;
    }
    is_bare(&constructors[index])
}

/// Writes a constructor that is written without its argument, and tells whether it is.
#[tactic(auto, using(crate::proofs::TextLemmas::constant_written))]
fn write_constant(
    alloc: Global,
    out: &mut Vec<u8>,
    by: &Speller<'_>,
    f: u32,
    argument: &Term,
) -> Result<bool, Memory>
    ensures written { IfOk result (λ b. b ≡ true → out.new.items ≡ out.old.items
        ++ term_at (spelling_in by.now) (app f (term_of argument.now)) whole) }
    ensures kept { IfOk result (λ b. b ≡ false → out.new.items ≡ out.old.items) }
{
    if !stands_alone(by.constructors, f) {
        return Ok(false);
    }
    let mut closers = Vec::new(alloc);
    let _place = begin_application(out, &mut closers, by.constructors, f, Place::Whole)?;
    write_closers(out, closers)?;
    Ok(true)
}

/// Writes a term that has no parts to write, by itself, and tells whether it has none.
pub(crate) fn write_leaf(
    alloc: Global,
    out: &mut Vec<u8>,
    by: &Speller<'_>,
    term: &Term,
) -> Result<bool, Memory>
    ensures written { IfOk result (λ b. b ≡ true → out.new.items ≡ out.old.items
        ++ term_at (spelling_in by.now) (term_of term.now) whole) }
    ensures kept { IfOk result (λ b. b ≡ false → out.new.items ≡ out.old.items) }
{
    match term {
        Term::Susp(swaps, var) => {
            write_suspension(out, by, swaps.items(), *var)?;
            Ok(true)
        }
        Term::Name(name) => {
            by.write_name(out, *name)?;
            Ok(true)
        }
        Term::App(f, argument) => write_constant(alloc, out, by, *f, argument),
        Term::Unit | Term::Pair(_, _) | Term::Abs(_, _, _) => Ok(false),
    }
}
