//! The clauses of a program, each with how often it is used.

ghost use Rattle.std.specs.Prelude.{◌≡◌, ◌++◌, IfOk, OnOk, map};
ghost use Rattle.ap_defs.specs.Goals.{clause_of, program_in};
ghost use Rattle.ap_text_commands.specs.Rows.{counts_in_row, counts_in_rows};

use ap_defs::goals::Clause;
use ap_defs::lists::List;
use ap_defs::memory::Memory;
use ap_defs::terms::Term;
use std::alloc::Global;

/// The item and the line of a clause, and how often it is used. A number that doesn't fit in 64 bits is given
/// as the greatest that does.
#[derive(Clone, Copy)]
pub struct ClauseCount {
    pub item: u32,
    pub line: u64,
    pub uses: u64,
}

/// Adds the clauses of a predicate with the numbers of its row.
fn add_counts(
    clauses: &[Clause<Term>],
    row: &[u64],
    counts: &mut Vec<ClauseCount>,
) -> Result<(), Memory>
    ensures { OnOk result (counts.new.items ≡ counts.old.items
        ++ counts_in_row (map clause_of clauses.now) row.now) }
{
    let mut rest = clauses;
    let mut numbers = row;
    'adding: while let [clause, others @ ..] = rest {
        let [uses, more @ ..] = numbers else {
            return Ok(());
        };
        counts.push(ClauseCount {
            item: clause.item,
            line: clause.line,
            uses: *uses,
        })?;
        rest = others;
        numbers = more;
    }
    Ok(())
}

/// The clauses of a program with the numbers of a table, in order of their predicates.
pub(crate) fn counts_of(
    alloc: Global,
    program: &[List<Clause<Term>>],
    table: &[Vec<u64>],
) -> Result<Vec<ClauseCount>, Memory>
    ensures { IfOk result (λ v. v.items ≡
        counts_in_rows (program_in program.now) (map (λ r. r.items) table.now)) }
{
    let mut counts = Vec::new(alloc);
    let mut rest = program;
    let mut rows = table;
    'adding: while let [clauses, others @ ..] = rest {
        let [row, more @ ..] = rows else {
            return Ok(counts);
        };
        add_counts(clauses.items(), row.as_slice(), &mut counts)?;
        rest = others;
        rows = more;
    }
    Ok(counts)
}
