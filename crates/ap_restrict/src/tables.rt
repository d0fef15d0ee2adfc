//! A table for each sort of a free name: the data types that may hold names of it.

ghost use Rattle.std.specs.Prelude.{◌≡◌, ◌≤◌, length, IfSome, IfOk};
ghost use Rattle.ap_defs.specs.Types.{signature_of};
ghost use Rattle.ap_types.specs.Tables.{IsHoldingTable};
ghost use Rattle.ap_restrict.specs.Heads.{AreTables};

use ap_defs::goals::{Clause, Kind, Local, Program, Signature};
use ap_defs::lists::List;
use ap_defs::memory::Memory;
use ap_defs::terms::Raw;
use ap_types::holding::{Holding, types_holding};
use std::alloc::Global;

/// Adds the sorts of the names that are not marked as bound.
fn add_sorts(locals: &[Local], sorts: &mut Vec<u32>) -> Result<(), Memory> {
    for local in locals {
        if let Kind::Name(sort) = &local.kind {
            if !local.bound {
                sorts.push(*sort)?;
            }
        }
    }
    Ok(())
}

/// The sorts of the free names of clauses, ascending, each as often as it comes.
fn sorts_of(alloc: Global, clauses: &[List<Clause<Raw>>]) -> Result<Vec<u32>, Memory> {
    let mut sorts = Vec::new(alloc);
    for list in clauses {
        for clause in list.items() {
            add_sorts(clause.locals.items(), &mut sorts)?;
        }
    }
    sorts.sort_unstable();
    Ok(sorts)
}

/// A table for each of the sorts, which ascend.
fn tables_of(alloc: Global, sig: &Signature, sorts: &[u32]) -> Result<Vec<Holding>, Memory>
    ensures { IfOk result (λ v. AreTables (signature_of sig.now).constructors v.items) }
{
    let mut tables = Vec::new(alloc);
    let mut last = None;
    for sort in sorts {
        if last != Some(*sort) {
            tables.push(types_holding(alloc, sig, *sort)?)?;
            last = Some(*sort);
        }
    }
    Ok(tables)
}

/// The tables of a program, ascending by sort. They spare work: one that is not there is made where it is
/// wanted.
pub(crate) fn make_tables(alloc: Global, program: &Program<Raw>) -> Result<Vec<Holding>, Memory>
    ensures { IfOk result (λ v. AreTables (signature_of program.now.signature).constructors
        v.items) }
{
    let sorts = sorts_of(alloc, program.clauses.items())?;
    tables_of(alloc, &program.signature, sorts.as_slice())
}

/// The first place whose table is not of a lesser sort.
fn place_of(tables: &[Holding], sort: u32) -> usize
    ensures { result ≤ length tables.now }
{
    let mut low = 0;
    let mut high = tables.len();
    'halving: while low < high {
        let middle = low + (high - low) / 2;
        if tables[middle].sort < sort {
            low = middle + 1;
        } else {
            high = middle;
        }
    }
    low
}

/// The table of the sort, where there is one.
pub(crate) fn table_of<'a>(sig: &Signature, tables: &'a [Holding], sort: u32) -> Option<&'a Holding>
    requires { AreTables (signature_of sig.now).constructors tables.now }
    ensures { IfSome result (λ h. IsHoldingTable (signature_of sig.now).constructors sort h.now) }
{
    let place = place_of(tables, sort);
    if place >= tables.len() {
        return None;
    }
    let table = &tables[place];
    if table.sort == sort {
        Some(table)
    } else {
        None
    }
}
