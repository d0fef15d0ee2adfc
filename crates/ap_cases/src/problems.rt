//! Programs of texts, and their queries.

ghost use Rattle.std.specs.Prelude.{IfSome};
ghost use Rattle.ap_backchain.specs.Problems.{HasQuery};

use ap_backchain::problem::Problem;
use ap_defs::limits::SIZE_LIMIT;
use ap_defs::memory::Memory;
use ap_index::index::Index;
use ap_program::restricted::Restricted;
use ap_text::{TextError, program_of_text};
use std::alloc::Global;

/// The program of a text, or none where the text has a fault. A text that is too long for any is taken for want of memory.
pub fn program_of(alloc: Global, text: &[u8]) -> Result<Option<Restricted>, Memory> {
    if text.len() > SIZE_LIMIT {
        return Err(Memory);
    }
    match program_of_text(alloc, text) {
        Ok(program) => Ok(Some(program)),
        Err(TextError::Fault(_)) => Ok(None),
        Err(TextError::Memory) => Err(Memory),
    }
}

/// A query of a program, to a depth, if the program has it.
pub fn problem_of<'a>(program: &'a Index<'_>, query: u32, depth: u32) -> Option<Problem<'a>>
    ensures { IfSome result (λ p. HasQuery p) }
{
    if 1 <= query && query as usize <= program.program().queries.items().len() {
        Some(Problem {
            program: &*program,
            query,
            depth,
        })
    } else {
        None
    }
}
