//! The end of a run: freshness problems and conditions, reduced under the final bindings.

ghost use Rattle.std.specs.Prelude.{◌≡◌, ◌++◌, true, Some, IfOk, length, map};
ghost use Rattle.ap_defs.specs.Freshness.{Conds};
ghost use Rattle.ap_defs.specs.Unification.{problem_of, reduce_all};
ghost use Rattle.ap_fresh.specs.Reduction.{added};
ghost use Rattle.ap_store.specs.Triples.{AreOnUnbound, IsPrefixOf};
ghost use Rattle.ap_store.specs.Views.{bindings_of, kinds, present, versions};
ghost use Rattle.ap_theory.specs.StatementsOnConditions.{collected};
ghost use Rattle.ap_unify.specs.Finishing.{items_in, reduced, some_if, with_kept};
ghost use Rattle.ap_rules.specs.Work.{problem_for, problems_met};

use crate::reducing::{reduce_closure, reduce_var};
use ap_defs::memory::Memory;
use ap_defs::terms::Cond;
use ap_perm::sets::make_set;
use ap_rules::pairs::{FreshFor, Work};
use ap_store::store::Store;
use std::alloc::Global;

/// Puts the conditions to which a problem reduces behind others, unless it is refuted.
fn reduce_one<'a>(
    store: &Store<'a>,
    p: &FreshFor<'a>,
    conds: &mut Vec<Cond>,
) -> Result<bool, Memory>
    ensures { IfOk result (λ fine. added (reduced (bindings_of store.now) (problem_for p.now))
        conds.old.items ≡ collected (some_if fine conds.new.items)) }
{
    match p {
        FreshFor::OfTerm(a, c) => reduce_closure(store, *a, c, conds),
        FreshFor::OfVar(c) => reduce_var(store, c.name, c.var, conds),
    }
}

/// Puts the conditions to which problems reduce behind others, unless one is refuted.
fn reduce_each<'a>(
    store: &Store<'a>,
    problems: &[FreshFor<'a>],
    conds: &mut Vec<Cond>,
) -> Result<bool, Memory>
    ensures { IfOk result (λ fine. added (reduce_all (bindings_of store.now)
        (map problem_for problems.now)) conds.old.items ≡ collected (some_if fine conds.new.items)) }
{
    'reducing: for i in (0..problems.len()).rev() {
        if !reduce_one(store, &problems[i], conds)? {
            return Ok(false);
        }
    }
    Ok(true)
}

/// Puts the conditions to which conditions reduce behind others, unless one is refuted.
fn reduce_taken<'a>(
    store: &Store<'a>,
    taken: &[Cond],
    conds: &mut Vec<Cond>,
) -> Result<bool, Memory>
    ensures { IfOk result (λ fine. added (reduce_all (bindings_of store.now)
        (map problem_of taken.now)) conds.old.items ≡ collected (some_if fine conds.new.items)) }
{
    'reducing: for i in (0..taken.len()).rev() {
        if !reduce_var(store, taken[i].name, taken[i].var, conds)? {
            return Ok(false);
        }
    }
    Ok(true)
}

/// The set of the conditions to which the problems that were met reduce, and those that were taken, or
/// none where one is refuted.
fn reduce_met<'a>(
    alloc: Global,
    store: &Store<'a>,
    work: &Work<'a>,
) -> Result<Option<Vec<Cond>>, Memory>
    ensures { IfOk result (λ o. collected (reduce_all (bindings_of store.now) (map problem_of
        work.now.taken.items ++ problems_met work.now)) ≡ items_in o) }
{
    let mut conds = Vec::new(alloc);
    if !reduce_each(store, &work.problems, &mut conds)? {
        return Ok(None);
    }
    if !reduce_taken(store, &work.taken, &mut conds)? {
        return Ok(None);
    }
    make_set(&mut conds);
    Ok(Some(conds))
}

/// Whether no problem was met and no condition taken. It takes no memory.
fn is_settled(work: &Work<'_>) -> bool
    ensures { result ≡ true → (length work.now.taken.items ≡ 0)
        × (length work.now.problems.items ≡ 0) }
{
    work.taken.is_empty() && work.problems.is_empty()
}

/// Adds the conditions to which the problems that were met reduce, and those that were taken. It
/// answers false where one is refuted.
fn finish_met<'a>(alloc: Global, store: &mut Store<'a>, work: &Work<'a>) -> Result<bool, Memory>
    requires { (cs : Conds) →
        collected (reduce_all (bindings_of store.old) (map problem_of work.now.taken.items
        ++ problems_met work.now)) ≡ Some cs → AreOnUnbound (present store.old) cs }
    ensures conditions { IfOk result (λ fine. with_kept (present store.old).conditions (reduce_all
        (bindings_of store.old) (map problem_of work.now.taken.items ++ problems_met work.now))
        ≡ some_if fine (present store.new).conditions) }
    ensures bindings { bindings_of store.new ≡ bindings_of store.old }
    ensures next { (present store.new).next ≡ (present store.old).next }
    ensures past { IsPrefixOf (versions store.old) (versions store.new) }
    ensures kinds { kinds store.new ≡ kinds store.old }
{
    match reduce_met(alloc, store, work)? {
        None => Ok(false),
        Some(conds) => {
            if !conds.is_empty() {
                store.add(&conds)?;
            }
            Ok(true)
        }
    }
}

/// Adds the conditions to which the problems that were met reduce, and those that were taken, where there
/// are any. It answers false where one is refuted.
pub fn finish<'a>(alloc: Global, store: &mut Store<'a>, work: &Work<'a>) -> Result<bool, Memory>
    requires { (cs : Conds) →
        collected (reduce_all (bindings_of store.old) (map problem_of work.now.taken.items
        ++ problems_met work.now)) ≡ Some cs → AreOnUnbound (present store.old) cs }
    ensures conditions { IfOk result (λ fine. with_kept (present store.old).conditions (reduce_all
        (bindings_of store.old) (map problem_of work.now.taken.items ++ problems_met work.now))
        ≡ some_if fine (present store.new).conditions) }
    ensures bindings { bindings_of store.new ≡ bindings_of store.old }
    ensures next { (present store.new).next ≡ (present store.old).next }
    ensures past { IsPrefixOf (versions store.old) (versions store.new) }
    ensures kinds { kinds store.new ≡ kinds store.old }
{
    if is_settled(work) {
        return Ok(true);
    }
    finish_met(alloc, store, work)
}
