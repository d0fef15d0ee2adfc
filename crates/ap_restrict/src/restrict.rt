//! Programs that are typed, tested against the name restriction.

ghost use Rattle.std.specs.Prelude.{◌≡◌, ◌≤◌, IfOk, IfErr};
ghost use Rattle.ap_defs.specs.RawTerms.{raw_of};
ghost use Rattle.ap_defs.specs.Limits.{size_limit};
ghost use Rattle.ap_defs.specs.Goals.{program_of, program_over};
ghost use Rattle.ap_program.specs.Typed.{IsTypedRawProgram};
ghost use Rattle.ap_program.specs.CarryingOut.{carried_out_program};
ghost use Rattle.ap_program.specs.NameRestriction.{item_count, items_of, AllPass};
ghost use Rattle.ap_restrict.specs.Outcomes.{IsRefusal};

use crate::errors::NameError;
use crate::programs::{carry_program, first_fault};
use ap_defs::goals::Program;
use ap_defs::terms::Raw;
use ap_program::restricted::Restricted;
use std::alloc::Global;

/// The program as one that keeps the name restriction, with its swappings carried out.
///
/// `Fault` comes exactly where an item fails: at the first such item of the text, with the least kind that
/// applies to it, and how the identifier is spelled that is at fault. `Memory` is want of memory. In each
/// case the program is consumed.
pub fn restrict(alloc: Global, program: Program<Raw>) -> Result<Restricted, NameError>
    requires typed { IsTypedRawProgram (program_over raw_of program) }
    requires bounded { item_count (program_over raw_of program) ≤ size_limit }
    ensures passes { IfOk result (λ r. AllPass (program_over raw_of program).signature.constructors
        (items_of (program_over raw_of program))) }
    ensures carried { IfOk result (λ r. program_of r
        ≡ carried_out_program (program_over raw_of program)) }
    ensures fault { IfErr result (IsRefusal (program_over raw_of program)) }
{
    match first_fault(alloc, &program)? {
        Some(fault) => Err(NameError::Fault(fault)),
        None => {
            let carried = carry_program(alloc, program)?;
            Ok(Restricted::of(carried))
        }
    }
}
