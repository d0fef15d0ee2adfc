//! Keys of clauses.

ghost use Rattle.std.specs.Prelude.{◌≡◌, ◌<◌, ◌^◌, IfOk, map};
ghost use Rattle.ap_defs.specs.Goals.{clause_of};
ghost use Rattle.ap_defs.specs.HeadKeys.{first_key, head_key};
ghost use Rattle.ap_defs.specs.Terms.{term_of};
ghost use Rattle.ap_index.specs.Keys.{AreNarrow, keys_of};

use ap_defs::goals::Clause;
use ap_defs::memory::Memory;
use ap_defs::terms::Term;
use std::alloc::Global;

/// The key of what a term begins with: 0 for a suspension, which may stand for any term, 1 for `()`,
/// 2 for a name, 3 for a pair, 4 for an abstraction, and `5 + f` for the constructor `f`.
fn key_of_term(t: &Term) -> u32
    requires { head_key (term_of t.now) < 2 ^ 32 }
    ensures { result ≡ head_key (term_of t.now) }
{
    match t {
        Term::Susp(_, _) => 0,
        Term::Unit => 1,
        Term::Name(_) => 2,
        Term::Pair(_, _) => 3,
        Term::Abs(_, _, _) => 4,
        Term::App(f, _) => 5 + *f,
    }
}

/// The key of the first argument of a clause, or 0 where it has none.
fn key_of_clause(clause: &Clause<Term>) -> u32
    requires { first_key (clause_of clause.now).args < 2 ^ 32 }
    ensures { result ≡ first_key (clause_of clause.now).args }
{
    match clause.args.items().first() {
        None => 0,
        Some(first) => key_of_term(first),
    }
}

/// The keys of clauses, in order.
pub fn keys_of_clauses(alloc: Global, clauses: &[Clause<Term>]) -> Result<Vec<u32>, Memory>
    requires { AreNarrow (keys_of (map clause_of clauses.now)) }
    ensures { IfOk result (λ v. v.items ≡ keys_of (map clause_of clauses.now)) }
{
    let mut keys = Vec::with_capacity(alloc, clauses.len())?;
    let mut rest = clauses;
    'reading: while let Some((clause, others)) = rest.split_first() {
        keys.push(key_of_clause(clause))?;
        rest = others;
    }
    Ok(keys)
}
