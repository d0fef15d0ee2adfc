//! Whole texts.

ghost use Rattle.std.specs.Prelude.{◌≡◌, ◌++◌, IfOk, OnOk};
ghost use Rattle.ap_text_commands.specs.Generated.{calculus, generated, query, term};

use crate::texts::draws::Draws;
use crate::texts::terms::write_term;
use ap_defs::memory::Memory;
use std::alloc::Global;

/// Substitution on lambda terms.
const CALCULUS: &[u8] = b"id : name_type.\n\
exp : type.\n\
var : id -> exp.\n\
app : (exp, exp) -> exp.\n\
lam : id\\exp -> exp.\n\
pred subst(exp, id, exp, exp).\n\
subst(var(X), X, E, E).\n\
subst(var(Y), X, E, var(Y)) :- X # Y.\n\
subst(app(M,N), X, E, app(M2,N2)) :- subst(M,X,E,M2), subst(N,X,E,N2).\n\
subst(lam(y\\M), X, E, lam(y\\M2)) :- y # X, y # E, subst(M,X,E,M2).\n";

/// Writes the calculus of substitution on lambda terms.
fn write_calculus(out: &mut Vec<u8>) -> Result<(), Memory>
    ensures { OnOk result (out.new.items ≡ out.old.items ++ calculus) }
{
    out.extend_from_slice(CALCULUS)?;
    Ok(())
}

/// Writes a query for the terms in which the substitution of `var(b)` for `a` gives a term that is
/// drawn.
fn write_query(draws: &mut Draws, out: &mut Vec<u8>) -> Result<(), Memory>
    ensures text { OnOk result (out.new.items
        ≡ out.old.items ++ query draws.old.state) }
    ensures state { OnOk result (draws.new.state ≡ (term 3 draws.old.state).state) }
{
    out.extend_from_slice(b"?- subst(M,a,var(b),")?;
    write_term(draws, 3, out)?;
    out.extend_from_slice(b").\n")?;
    Ok(())
}

/// The text of a seed with so many queries. `Err` is want of memory.
pub fn program_of(alloc: Global, seed: u64, size: u32) -> Result<Vec<u8>, Memory>
    ensures { IfOk result (λ v. v.items ≡ generated seed size) }
{
    let mut out = Vec::new(alloc);
    write_calculus(&mut out)?;
    let mut draws = Draws::of(seed);
    for _ in 0..size {
        write_query(&mut draws, &mut out)?;
    }
    Ok(out)
}
