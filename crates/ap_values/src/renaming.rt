//! Renaming of clauses apart: each number of a name or a variable becomes so much higher.

ghost use Rattle.std.specs.Prelude.{◌≡◌, ◌+◌, ◌<◌, ◌^◌, IfOk, length, map};
ghost use Rattle.ap_defs.specs.Goals.{goal_of};
ghost use Rattle.ap_defs.specs.Renaming.{AreBelow, AreSwapsBelow, IsBelow, IsGoalBelow, rename_goal as renamed_goal, rename_name as renamed_name, rename_swap as renamed_swap, rename_term as renamed_term, rename_var as renamed_var};
ghost use Rattle.ap_defs.specs.Terms.{term_of};

use ap_defs::goals::{Clause, Fresh, Goal};
use ap_defs::lists::{List, Swaps};
use ap_defs::memory::Memory;
use ap_defs::terms::{Name, Swap, Term, Var};
use std::alloc::Global;

/// The clause with its identifiers numbered from `n` on, as sequential resolution takes it (Cheney
/// and Urban, "Nominal logic programming"): identifier i, bound or free, gets the number n + i, and
/// the next number is n plus their count.
pub fn rename(alloc: Global, clause: &Clause<Term>, n: u64) -> Result<Fresh, Memory>
    requires args { AreBelow (length clause.now.locals) (map term_of clause.now.args) }
    requires body { IsGoalBelow (length clause.now.locals) (goal_of clause.now.body) }
    requires fits { n + length clause.now.locals < 2 ^ 64 }
    ensures args { IfOk result (λ f. map term_of f.args
        ≡ map (renamed_term n) (map term_of clause.now.args)) }
    ensures body { IfOk result (λ f. goal_of f.body ≡ renamed_goal n (goal_of clause.now.body)) }
    ensures next { IfOk result (λ f. f.next ≡ n + length clause.now.locals) }
{
    let args = List::of(rename_terms(alloc, n, clause.args.items())?);
    let body = rename_goal(alloc, n, &clause.body)?;
    let next = n + clause.locals.items().len() as u64;
    Ok(Fresh { args, body, next })
}

/// The goal with each number higher by `base`.
pub fn rename_goal(alloc: Global, base: u64, goal: &Goal<Term>) -> Result<Goal<Term>, Memory>
    requires { IsGoalBelow (2 ^ 64) (renamed_goal base (goal_of goal.now)) }
    ensures { IfOk result (λ g. goal_of g ≡ renamed_goal base (goal_of goal.now)) }
{
    match goal {
        Goal::True => Ok(Goal::True),
        Goal::Atom(pred, args) => {
            let args = rename_terms(alloc, base, args.items())?;
            Ok(Goal::Atom(*pred, List::of(args)))
        }
        Goal::Equal(left, right) => {
            let left = rename_term(alloc, base, left)?;
            let right = rename_term(alloc, base, right)?;
            Ok(Goal::Equal(left, right))
        }
        Goal::Fresh(left, right) => {
            let left = rename_term(alloc, base, left)?;
            let right = rename_term(alloc, base, right)?;
            Ok(Goal::Fresh(left, right))
        }
        Goal::Both(left, right) => {
            let left = Box::new(alloc, rename_goal(alloc, base, left)?)?;
            let right = Box::new(alloc, rename_goal(alloc, base, right)?)?;
            Ok(Goal::Both(left, right))
        }
        Goal::Either(left, right) => {
            let left = Box::new(alloc, rename_goal(alloc, base, left)?)?;
            let right = Box::new(alloc, rename_goal(alloc, base, right)?)?;
            Ok(Goal::Either(left, right))
        }
        Goal::Exists(x, body) => {
            let body = Box::new(alloc, rename_goal(alloc, base, body)?)?;
            Ok(Goal::Exists(rename_var(base, *x), body))
        }
        Goal::New(a, body) => {
            let body = Box::new(alloc, rename_goal(alloc, base, body)?)?;
            Ok(Goal::New(rename_name(base, *a), body))
        }
    }
}

/// The terms with each number higher by `base`.
pub fn rename_terms(alloc: Global, base: u64, terms: &[Term]) -> Result<Vec<Term>, Memory>
    requires { AreBelow (2 ^ 64) (map (renamed_term base) (map term_of terms.now)) }
    ensures { IfOk result (λ v. map term_of v.items
        ≡ map (renamed_term base) (map term_of terms.now)) }
{
    let mut renamed = Vec::new(alloc);
    for t in terms {
        renamed.push(rename_term(alloc, base, t)?)?;
    }
    Ok(renamed)
}

/// The term with each number of a name or a variable higher by `base`.
pub fn rename_term(alloc: Global, base: u64, t: &Term) -> Result<Term, Memory>
    requires { IsBelow (2 ^ 64) (renamed_term base (term_of t.now)) }
    ensures { IfOk result (λ u. term_of u ≡ renamed_term base (term_of t.now)) }
{
    match t {
        Term::Unit => Ok(Term::Unit),
        Term::Name(a) => Ok(Term::Name(rename_name(base, *a))),
        Term::Pair(left, right) => {
            let left = Box::new(alloc, rename_term(alloc, base, left)?)?;
            let right = Box::new(alloc, rename_term(alloc, base, right)?)?;
            Ok(Term::Pair(left, right))
        }
        Term::App(f, argument) => {
            let argument = Box::new(alloc, rename_term(alloc, base, argument)?)?;
            Ok(Term::App(*f, argument))
        }
        Term::Abs(sort, num, body) => {
            let a = Name {
                sort: *sort,
                num: *num,
            };
            let body = Box::new(alloc, rename_term(alloc, base, body)?)?;
            let renamed = rename_name(base, a);
            Ok(Term::Abs(renamed.sort, renamed.num, body))
        }
        Term::Susp(swaps, x) => {
            let swaps = rename_swaps(alloc, base, swaps.items())?;
            let waiting = Swaps::of(alloc, swaps)?;
            Ok(Term::Susp(waiting, rename_var(base, *x)))
        }
    }
}

/// The swappings with each number higher by `base`.
fn rename_swaps(alloc: Global, base: u64, swaps: &[Swap]) -> Result<Vec<Swap>, Memory>
    requires { AreSwapsBelow (2 ^ 64) (map (renamed_swap base) swaps.now) }
    ensures { IfOk result (λ v. v.items ≡ map (renamed_swap base) swaps.now) }
{
    let mut renamed = Vec::new(alloc);
    for s in swaps {
        renamed.push(rename_swap(base, *s))?;
    }
    Ok(renamed)
}

/// The swapping with both numbers higher by `base`.
fn rename_swap(base: u64, s: Swap) -> Swap
    requires left { base + s.left < 2 ^ 64 }
    requires right { base + s.right < 2 ^ 64 }
    ensures { result ≡ renamed_swap base s }
{
    Swap {
        sort: s.sort,
        left: base + s.left,
        right: base + s.right,
    }
}

/// The name with a number higher by `base`.
pub fn rename_name(base: u64, a: Name) -> Name
    requires { base + a.num < 2 ^ 64 }
    ensures { result ≡ renamed_name base a }
{
    Name {
        sort: a.sort,
        num: base + a.num,
    }
}

/// The variable with a number higher by `base`.
pub fn rename_var(base: u64, x: Var) -> Var
    requires { base + x.num < 2 ^ 64 }
    ensures { result ≡ renamed_var base x }
{
    Var { num: base + x.num }
}
