//! The freshness goals of a clause's body, reduced.

ghost use Rattle.std.specs.Prelude.{◌≡◌, ◌++◌, map, IfOk, OnOk};
ghost use Rattle.ap_defs.specs.Permutations.{act_name, inverse};
ghost use Rattle.ap_defs.specs.Terms.{term_of};
ghost use Rattle.ap_defs.specs.Goals.{goal_of, fresh};
ghost use Rattle.ap_facts.specs.Facts.{is_refuted, left_by, fact_of, facts_of, has_fact, HasSame};

use ap_defs::goals::Goal;
use ap_defs::memory::Memory;
use ap_defs::terms::{Name, Swap, Term, Var};
use ap_perm::swappings::preimage;
use std::alloc::Global;
use std::collections::HashSet;

/// A condition that freshness goals with the name `left` on the left leave: `name` is fresh for `var`.
#[derive(Clone, Copy, PartialEq, Eq, Hash)]
pub struct Fact {
    pub left: Name,
    pub name: Name,
    pub var: Var,
}

/// Whether the name is free in the term.
#[tactic(auto, unfolding(ap_defs::specs::Permutations::name_eq))]
fn refutes(a: Name, t: &Term) -> bool
    ensures { result ≡ is_refuted a (term_of t.now) }
{
    let mut rest = t;
    loop {
        match rest {
            Term::Unit | Term::Susp(_, _) => return false,
            Term::Name(b) => return a == *b,
            Term::Pair(left, right) => {
                if refutes(a, left) {
                    return true;
                }
                rest = right;
            }
            Term::App(_, argument) => rest = argument,
            Term::Abs(sort, num, body) => {
                let b = Name {
                    sort: *sort,
                    num: *num,
                };
                if a == b {
                    return false;
                }
                rest = body;
            }
        }
    }
}

/// What a freshness problem leaves of a suspension.
fn fact_at(a: Name, swaps: &[Swap], x: Var) -> Fact
    ensures { result ≡ fact_of a (record { name = act_name (inverse swaps.now) a; var = x }) }
{
    Fact {
        left: a,
        name: preimage(swaps, a),
        var: x,
    }
}

/// Adds what a freshness problem leaves.
#[tactic(auto, unfolding(ap_defs::specs::Permutations::name_eq))]
fn add_left(a: Name, t: &Term, facts: &mut Vec<Fact>) -> Result<(), Memory>
    ensures { OnOk result (facts.new.items
        ≡ facts.old.items ++ map (fact_of a) (left_by a (term_of t.now))) }
{
    let mut rest = t;
    loop {
        match rest {
            Term::Unit | Term::Name(_) => return Ok(()),
            Term::Pair(left, right) => {
                add_left(a, left, facts)?;
                rest = right;
            }
            Term::App(_, argument) => rest = argument,
            Term::Abs(sort, num, body) => {
                let b = Name {
                    sort: *sort,
                    num: *num,
                };
                if a == b {
                    return Ok(());
                }
                rest = body;
            }
            Term::Susp(swaps, x) => {
                facts.push(fact_at(a, swaps.items(), *x))?;
                return Ok(());
            }
        }
    }
}

/// Adds what a freshness goal leaves.
fn add_fresh(t: &Term, u: &Term, facts: &mut Vec<Fact>) -> Result<(), Memory>
    ensures { OnOk result (facts.new.items
        ≡ facts.old.items ++ facts_of (fresh (term_of t.now) (term_of u.now))) }
{
    match t {
        Term::Name(a) => {
            if refutes(*a, u) {
                Ok(())
            } else {
                add_left(*a, u, facts)
            }
        }
        _ => Ok(()),
    }
}

/// Adds what the freshness goals under `,` leave.
fn add_facts(g: &Goal<Term>, facts: &mut Vec<Fact>) -> Result<(), Memory>
    ensures { OnOk result (facts.new.items ≡ facts.old.items ++ facts_of (goal_of g.now)) }
{
    let mut rest = g;
    loop {
        match rest {
            Goal::Both(left, right) => {
                add_facts(left, facts)?;
                rest = right;
            }
            Goal::Fresh(t, u) => return add_fresh(t, u, facts),
            _ => return Ok(()),
        }
    }
}

/// The set of the facts.
fn gathered(alloc: Global, facts: &[Fact]) -> Result<HashSet<Fact>, Memory>
    ensures { IfOk result (λ s. HasSame s.keys facts.now) }
{
    let mut known = HashSet::new(alloc);
    for fact in facts {
        known.insert(*fact)?;
    }
    Ok(known)
}

/// The facts that the freshness goals of a body state.
pub fn known_facts(alloc: Global, body: &Goal<Term>) -> Result<HashSet<Fact>, Memory>
    ensures { IfOk result (λ s. HasSame s.keys (facts_of (goal_of body.now))) }
{
    let mut facts = Vec::new(alloc);
    add_facts(body, &mut facts)?;
    gathered(alloc, facts.as_slice())
}

/// Whether a fact is one of those that are known.
#[tactic(auto, unfolding(ap_defs::specs::Permutations::name_eq))]
pub fn has(known: &HashSet<Fact>, fact: Fact) -> bool
    ensures { result ≡ has_fact fact known.now.keys }
{
    known.contains(&fact)
}
