//! Suspensions that are compared within binders.

ghost use Rattle.std.specs.Prelude.{◌≡◌, ◌&&◌, IfOk};
ghost use Rattle.ap_defs.specs.Permutations.{inverse};
ghost use Rattle.ap_judge.specs.Binders.{AreBinders};
ghost use Rattle.ap_judge.specs.Settled.{are_all_settled as all_settled, are_bound_settled, are_settled, is_settled};

use crate::binders::Binders;
use crate::images::Images;
use crate::index::IndexedAnswer;
use ap_defs::memory::Memory;
use ap_defs::terms::{Cond, Name, Swap, Var};
use std::alloc::Global;

/// Whether what the two lists of swappings make of the name means the same within the binders, or it is known
/// to be fresh for the variable.
fn settles(
    answer: &IndexedAnswer<'_>,
    binders: &Binders,
    p: &Images<'_>,
    q: &Images<'_>,
    var: Var,
    name: Name,
) -> bool
    requires { AreBinders binders.now }
    ensures { result ≡ is_settled answer.now.conds binders.now.pairs.items p.now q.now var name }
{
    binders.mean_same(p.image(name), q.image(name)) || answer.has(&Cond { name, var })
}

/// Whether they do so on each name of some swappings.
fn settles_each(
    answer: &IndexedAnswer<'_>,
    binders: &Binders,
    p: &Images<'_>,
    q: &Images<'_>,
    var: Var,
    of: &[Swap],
) -> bool
    requires { AreBinders binders.now }
    ensures { result ≡ are_settled answer.now.conds binders.now.pairs.items p.now q.now var of.now }
{
    for s in of {
        let left = Name {
            sort: s.sort,
            num: s.left,
        };
        let right = Name {
            sort: s.sort,
            num: s.right,
        };
        if !settles(answer, binders, p, q, var, left)
            || !settles(answer, binders, p, q, var, right)
        {
            return false;
        }
    }
    true
}

/// The swappings, the last one first.
fn reversed(alloc: Global, swaps: &[Swap]) -> Result<Vec<Swap>, Memory>
    ensures { IfOk result (λ v. v.items ≡ inverse swaps.now) }
{
    let mut all = Vec::new(alloc);
    for i in (0..swaps.len()).rev() {
        all.push(swaps[i])?;
    }
    Ok(all)
}

/// Whether they do so on each name of which they make one that is bound.
fn settles_bound(
    answer: &IndexedAnswer<'_>,
    binders: &Binders,
    p: &Images<'_>,
    q: &Images<'_>,
    back_p: &Images<'_>,
    back_q: &Images<'_>,
    var: Var,
) -> bool
    requires binders { AreBinders binders.now }
    requires left { back_p.now ≡ inverse p.now }
    requires right { back_q.now ≡ inverse q.now }
    ensures { result ≡ are_bound_settled answer.now.conds binders.now.pairs.items p.now q.now var
        binders.now.pairs.items }
{
    for s in &binders.pairs {
        let left = back_p.image(Name {
            sort: s.sort,
            num: s.left,
        });
        let right = back_q.image(Name {
            sort: s.sort,
            num: s.right,
        });
        if !settles(answer, binders, p, q, var, left)
            || !settles(answer, binders, p, q, var, right)
        {
            return false;
        }
    }
    true
}

/// Whether they do so on each name of both lists of swappings.
fn settles_both(
    answer: &IndexedAnswer<'_>,
    binders: &Binders,
    p: &Images<'_>,
    q: &Images<'_>,
    var: Var,
) -> bool
    requires { AreBinders binders.now }
    ensures { result
        ≡ (are_settled answer.now.conds binders.now.pairs.items p.now q.now var p.now
        && are_settled answer.now.conds binders.now.pairs.items p.now q.now var q.now) }
{
    settles_each(answer, binders, p, q, var, p.swaps())
        && settles_each(answer, binders, p, q, var, q.swaps())
}

/// Whether they do so on each name of which they make one that is bound, which is sought from there.
fn settles_back(
    alloc: Global,
    answer: &IndexedAnswer<'_>,
    binders: &Binders,
    p: &Images<'_>,
    q: &Images<'_>,
    var: Var,
) -> Result<bool, Memory>
    requires { AreBinders binders.now }
    ensures { IfOk result (λ yes. yes
        ≡ are_bound_settled answer.now.conds binders.now.pairs.items p.now q.now var
        binders.now.pairs.items) }
{
    let before_p = reversed(alloc, p.swaps())?;
    let before_q = reversed(alloc, q.swaps())?;
    let back_p = Images::of(alloc, &before_p)?;
    let back_q = Images::of(alloc, &before_q)?;
    Ok(settles_bound(answer, binders, p, q, &back_p, &back_q, var))
}

/// Whether they do so on each name.
pub(crate) fn are_all_settled(
    alloc: Global,
    answer: &IndexedAnswer<'_>,
    binders: &Binders,
    p: &[Swap],
    q: &[Swap],
    var: Var,
) -> Result<bool, Memory>
    requires { AreBinders binders.now }
    ensures { IfOk result (λ yes. yes
        ≡ all_settled answer.now.conds binders.now.pairs.items p.now q.now var) }
{
    let p = Images::of(alloc, p)?;
    let q = Images::of(alloc, q)?;
    if !settles_both(answer, binders, &p, &q, var) {
        return Ok(false);
    }
    settles_back(alloc, answer, binders, &p, &q, var)
}
