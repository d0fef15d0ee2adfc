//! Variables that clauses and `exists` brought, in ranges.

use ap_defs::goals::Local;
use ap_defs::lists::List;

/// The variables that `exists` or a clause brought: the one with a number; or those among the
/// identifiers of a clause that are not marked as bound, the first of which has a number.
#[derive(Clone, Copy)]
pub enum Brought<'a> {
    Exists(u32),
    Clause(u32, &'a List<Local>),
}
