//! The report on a query.

ghost use Rattle.std.specs.Prelude.{◌≡◌, ◌≤◌, ℕ, List as list, length, IfOk};
ghost use Rattle.ap_defs.specs.Types.{locals_of};
ghost use Rattle.ap_defs.specs.Goals.{program_of};
ghost use Rattle.ap_defs.specs.Answers.{outs_of};
ghost use Rattle.ap_defs.specs.Lines.{query_lines};
ghost use Rattle.ap_defs.specs.Printing.{has_word};
ghost use Rattle.ap_program.specs.NameRestriction.{IsRestricted};
ghost use Rattle.ap_answers.specs.Queries.{query_locals};
ghost use Rattle.ap_answers.specs.Words.{knows, IsTaken};

use crate::report::report;
use crate::words::{Taken, taken_words, word_set};
use ap_defs::goals::Local;
use ap_defs::memory::Memory;
use ap_defs::paths::Out;
use ap_program::restricted::Restricted;
use std::alloc::Global;
use std::collections::HashSet;

/// The identifiers of the query of this number, from 1, and that the program is restricted.
pub fn locals_in(program: &Restricted, query: u32) -> &[Local]
    requires from_one { 1 ≤ query }
    requires exists { query ≤ length (program_of program.now).queries }
    ensures locals { locals_of result.now ≡ query_locals (program_of program.now) query }
    ensures restricted { IsRestricted (program_of program.now) }
{
    let query = &program.program().queries.items()[(query - 1) as usize];
    query.locals.items()
}

/// The set of the words of a program's text, which are left out where words are generated.
pub fn words_in(alloc: Global, program: &Restricted) -> Result<HashSet<&str>, Memory>
    ensures { IfOk result (λ set. (w : list ℕ) → knows set w ≡ has_word w program.now.words) }
{
    word_set(alloc, program.program().words.items())
}

/// The words of a program's text, as they are left out where words are generated for many queries.
pub fn taken_in(alloc: Global, program: &Restricted) -> Result<Taken<'_>, Memory>
    ensures { IfOk result (λ t. IsTaken program.now.words t) }
{
    taken_words(alloc, program.program().words.items())
}

/// The same as [`lines`], where the set of the words of the text is known. It is worth while for the queries
/// of one program.
pub fn lines_among(
    alloc: Global,
    program: &Restricted,
    taken: &Taken<'_>,
    query: u32,
    outs: &[Out],
) -> Result<Vec<u8>, Memory>
    requires words { IsTaken program.now.words taken.now }
    requires from_one { 1 ≤ query }
    requires exists { query ≤ length (program_of program.now).queries }
    ensures { IfOk result (λ bytes. bytes.items
        ≡ query_lines (program_of program.now) query (query_locals (program_of program.now) query)
        (outs_of outs.now)) }
{
    let locals = locals_in(program, query);
    report(alloc, program.program(), taken, query, locals, outs)
}

/// The report on the query of this number, from 1: a line for each answer, one for each longest run of
/// cuts and of stuck branches, and the totals. Terms are written as nominal terms are read.
pub fn lines(
    alloc: Global,
    program: &Restricted,
    query: u32,
    outs: &[Out],
) -> Result<Vec<u8>, Memory>
    requires from_one { 1 ≤ query }
    requires exists { query ≤ length (program_of program.now).queries }
    ensures { IfOk result (λ bytes. bytes.items
        ≡ query_lines (program_of program.now) query (query_locals (program_of program.now) query)
        (outs_of outs.now)) }
{
    let taken = taken_in(alloc, program)?;
    lines_among(alloc, program, &taken, query, outs)
}
