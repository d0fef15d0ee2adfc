//! Whether a name is new for names and variables, where `new` and `exists` round them bring some.

ghost use Rattle.std.specs.Prelude.{◌≡◌, ◌&&◌, IfOk};
ghost use Rattle.std.specs.List.{list_any};
ghost use Rattle.ap_defs.specs.Freshness.{fresh_under};
ghost use Rattle.ap_judge.specs.Scopes.{environment_of};
ghost use Rattle.ap_sides.specs.Brought.{are_apart, are_fresh, is_id_of_name, is_id_of_var};

use ap_defs::memory::Memory;
use ap_defs::terms::{Id, Name, Var};
use ap_judge::freshness::is_fresh_under;
use ap_judge::index::IndexedAnswer;
use ap_judge::scope::{Standing, name_in, term_in};
use ap_judge::swappings::is_same;
use std::alloc::Global;

/// Whether what is brought is this name.
fn brings_name(what: &Id, b: &Name) -> bool
    ensures { result ≡ is_id_of_name b.now what.now }
{
    match what {
        Id::Name(a) => is_same(a, b),
        Id::Var(_) => false,
    }
}

/// Whether what is brought is this variable.
fn brings_var(what: &Id, y: Var) -> bool
    ensures { result ≡ is_id_of_var y what.now }
{
    match what {
        Id::Name(_) => false,
        Id::Var(x) => x.num == y.num,
    }
}

/// Whether the name is brought.
#[tactic(auto, using(crate::proofs::BroughtLemmas::any_here, crate::proofs::BroughtLemmas::any_later))]
fn is_name_brought(brought: &[Id], b: &Name) -> bool
    ensures { result ≡ list_any (is_id_of_name b.now) brought.now }
{
    for what in brought {
        if brings_name(what, b) {
            return true;
        }
    }
    false
}

/// Whether the variable is brought.
#[tactic(auto, using(crate::proofs::BroughtLemmas::any_here, crate::proofs::BroughtLemmas::any_later))]
fn is_var_brought(brought: &[Id], y: Var) -> bool
    ensures { result ≡ list_any (is_id_of_var y) brought.now }
{
    for what in brought {
        if brings_var(what, y) {
            return true;
        }
    }
    false
}

/// Whether the name stands for none of the names but those that are brought.
fn stands_for_none(scope: &[Standing<'_>], c: &Name, brought: &[Id], names: &[Name]) -> bool
    ensures { result ≡ are_apart c.now (environment_of scope.now) brought.now names.now }
{
    for b in names {
        if is_same(&name_in(scope, *b), c) && !is_name_brought(brought, b) {
            return false;
        }
    }
    true
}

/// Whether the name is fresh for what stands for the variable.
fn is_fresh_for(
    alloc: Global,
    answer: &IndexedAnswer<'_>,
    scope: &[Standing<'_>],
    c: Name,
    x: Var,
) -> Result<bool, Memory>
    ensures { IfOk result (λ yes. yes ≡
        fresh_under answer.now.conds c ((environment_of scope.now).terms x)) }
{
    match term_in(scope, x) {
        None => Ok(true),
        Some(t) => is_fresh_under(alloc, answer, c, t),
    }
}

/// Whether the name is fresh for what stands for each of the variables but those that are brought.
fn is_fresh_for_each(
    alloc: Global,
    answer: &IndexedAnswer<'_>,
    scope: &[Standing<'_>],
    c: Name,
    brought: &[Id],
    vars: &[Var],
) -> Result<bool, Memory>
    ensures { IfOk result (λ yes. yes ≡
        are_fresh answer.now.conds c (environment_of scope.now) brought.now vars.now) }
{
    for x in vars {
        if !is_var_brought(brought, *x) && !is_fresh_for(alloc, answer, scope, c, *x)? {
            return Ok(false);
        }
    }
    Ok(true)
}

/// Whether the name stands for none of the names, and is fresh for what stands for each of the variables, but those
/// that are brought.
pub fn is_new_for(
    alloc: Global,
    answer: &IndexedAnswer<'_>,
    scope: &[Standing<'_>],
    c: Name,
    brought: &[Id],
    names: &[Name],
    vars: &[Var],
) -> Result<bool, Memory>
    ensures { IfOk result (λ yes. yes
        ≡ (are_apart c (environment_of scope.now) brought.now names.now
        && are_fresh answer.now.conds c (environment_of scope.now) brought.now vars.now)) }
{
    if !stands_for_none(scope, &c, brought, names) {
        return Ok(false);
    }
    is_fresh_for_each(alloc, answer, scope, c, brought, vars)
}
