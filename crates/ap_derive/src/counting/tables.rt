//! Tables with a number for each clause, how often it is used. A number that doesn't fit in 64 bits is
//! given as the greatest that does.

ghost use Rattle.std.specs.Prelude.{◌≡◌, [], IfOk, length, map, replicate};
ghost use Rattle.ap_defs.specs.Goals.{program_in};
ghost use Rattle.ap_derive.specs.Uses.{use_table};
ghost use Rattle.ap_derive.specs.Tables.{added_row, added_rows, one_more, counts_of, with_use_at};

use ap_defs::goals::Clause;
use ap_defs::lists::List;
use ap_defs::memory::Memory;
use ap_defs::terms::Term;
use std::alloc::Global;

/// A row of noughts for the clauses of a predicate.
fn unused_row(alloc: Global, clauses: &[Clause<Term>]) -> Result<Vec<u64>, Memory>
    ensures { IfOk result (λ r. r.items ≡ replicate (length clauses.now) 0) }
{
    let row = Vec::from_elem(alloc, 0, clauses.len())?;
    Ok(row)
}

/// The table of a program of which nothing is used.
pub fn unused_table(alloc: Global, program: &[List<Clause<Term>>]) -> Result<Vec<Vec<u64>>, Memory>
    ensures { IfOk result (λ t. counts_of t ≡ use_table (program_in program.now) []) }
{
    let mut table = Vec::with_capacity(alloc, program.len())?;
    let mut rest = program;
    'filling: while let Some((clauses, others)) = rest.split_first() {
        let row = unused_row(alloc, clauses.items())?;
        table.push(row)?;
        rest = others;
    }
    Ok(table)
}

/// Counts one more use of the clause with this number, from 1, where there is one.
fn add_to_row(row: &mut Vec<u64>, number: u32)
    ensures { row.new.items ≡ one_more number row.old.items }
{
    let number = number as usize;
    if number == 0 {
        return;
    }
    if number > row.len() {
        return;
    }
    row[number - 1] = row[number - 1].saturating_add(1);
}

/// Counts one more use of the predicate's clause with this number, from 1, where there is one.
pub fn add_use(table: &mut Vec<Vec<u64>>, pred: u32, number: u32)
    ensures { counts_of table.new ≡ with_use_at pred number (counts_of table.old) }
{
    let place = pred as usize;
    if place < table.len() {
        add_to_row(&mut table[place], number);
    }
}

/// The sum of two rows.
fn sum_of_rows(alloc: Global, first: &[u64], second: &[u64]) -> Result<Vec<u64>, Memory>
    ensures { IfOk result (λ r. r.items ≡ added_row first.now second.now) }
{
    let mut sums = Vec::with_capacity(alloc, first.len())?;
    let mut left = first;
    let mut right = second;
    'adding: while let [m, others @ ..] = left {
        let [n, more @ ..] = right else {
            return Ok(sums);
        };
        sums.push(m.saturating_add(*n))?;
        left = others;
        right = more;
    }
    Ok(sums)
}

/// The sum of two tables.
pub fn sum_of_tables(
    alloc: Global,
    first: &[Vec<u64>],
    second: &[Vec<u64>],
) -> Result<Vec<Vec<u64>>, Memory>
    ensures { IfOk result (λ t. counts_of t ≡ added_rows (map (λ r. r.items) first.now)
        (map (λ r. r.items) second.now)) }
{
    let mut sums = Vec::with_capacity(alloc, first.len())?;
    let mut left = first;
    let mut right = second;
    'adding: while let [row, others @ ..] = left {
        let [beside, more @ ..] = right else {
            return Ok(sums);
        };
        sums.push(sum_of_rows(alloc, row.as_slice(), beside.as_slice())?)?;
        left = others;
        right = more;
    }
    Ok(sums)
}
