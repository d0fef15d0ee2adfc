//! The uses in the derivations of many answers, counted by several workers.

ghost use Rattle.std.specs.Prelude.{◌≡◌, ℕ, IfOk, List as list, map};
ghost use Rattle.std.specs.List.{AllByRecursion};
ghost use Rattle.ap_defs.specs.Derivations.{NominalDerivation};
ghost use Rattle.ap_defs.specs.Goals.{goal_of, program_in};
ghost use Rattle.ap_defs.specs.Terms.{NominalTerm};
ghost use Rattle.ap_shared.specs.SharedViews.{shared_derivation};
ghost use Rattle.ap_derive.specs.Uses.{use_table, uses_in_each};
ghost use Rattle.ap_derive.specs.Tables.{counts_of};

use crate::counting::tables::{sum_of_tables, unused_table};
use crate::counting::walk::add_uses;
use ap_defs::goals::{Clause, Goal};
use ap_defs::lists::List;
use ap_defs::memory::Memory;
use ap_defs::paths::Path;
use ap_defs::terms::Term;
use ap_shared::derivations::SharedDerivation;
use std::alloc::Global;
use std::thread::{Threads, join};

/// Where the derivations of answers come from.
pub trait Derive: Sync {
    /// Whether a path leads to an answer.
    ghost leads: { Self → list ℕ → Type 0 };

    /// The derivation of the answer at a path.
    ghost at: { Self → list ℕ → NominalDerivation };

    /// The derivation of the answer at a path, over the lines of some table. The only error is want of
    /// memory.
    fn derivation(&self, alloc: Global, path: &Path) -> Result<SharedDerivation, Memory>
        requires { leads self.now path.now }
        ensures { IfOk result (λ d. (ts : list NominalTerm) ×
            (shared_derivation ts d ≡ at self.now path.now)) };
}

/// The goal of a query, with the clauses of its program.
#[derive(Clone, Copy)]
pub struct Question<'a> {
    pub program: &'a [List<Clause<Term>>],
    pub goal: &'a Goal<Term>,
}

/// How often each clause is used in the derivations of the answers at these paths, by one worker.
fn uses_by_one<D: Derive>(
    alloc: Global,
    question: Question<'_>,
    paths: &[Path],
    from: &D,
) -> Result<Vec<Vec<u64>>, Memory>
    requires { AllByRecursion (D.leads from.now) paths.now }
    ensures { IfOk result (λ t. counts_of t ≡ use_table (program_in question.entry.program.now)
        (uses_in_each (program_in question.entry.program.now) (goal_of question.entry.goal.now)
        (map (D.at from.now) paths.now))) }
{
    let mut table = unused_table(alloc, question.program)?;
    let mut rest = paths;
    'counting: while let Some((path, others)) = rest.split_first() {
        let derivation = from.derivation(alloc, path)?;
        add_uses(
            alloc,
            question.program,
            question.goal,
            &derivation,
            &mut table,
        )?;
        rest = others;
    }
    Ok(table)
}

/// How often each clause is used in the derivations of the answers at these paths: a list a predicate
/// with a number a clause. The paths are parted among so many workers, and the tables of the parts are
/// added; the table is the same for every number of workers. The only error is want of memory.
#[cycle(parts)]
pub fn uses<R: Threads + Sync, D: Derive>(
    rt: &R,
    alloc: Global,
    question: Question<'_>,
    paths: &[Path],
    from: &D,
    workers: u32,
) -> Result<Vec<Vec<u64>>, Memory>
    requires { AllByRecursion (D.leads from.now) paths.now }
    ensures { IfOk result (λ t. counts_of t ≡ use_table (program_in question.entry.program.now)
        (uses_in_each (program_in question.entry.program.now) (goal_of question.entry.goal.now)
        (map (D.at from.now) paths.now))) }
{
    if workers < 2 || paths.len() < 2 {
        return uses_by_one(alloc, question, paths, from);
    }
    let (left, right) = paths.split_at(paths.len() / 2);
    let half = workers / 2;
    let others = workers - half;
    let front = move || -> Result<Vec<Vec<u64>>, Memory>
        requires { AllByRecursion (D.leads from.now) left.now }
        ensures { IfOk result (λ t. counts_of t ≡ use_table (program_in question.entry.program.now)
            (uses_in_each (program_in question.entry.program.now) (goal_of question.entry.goal.now)
            (map (D.at from.entry.now) left.entry.now))) }
    { uses(rt, alloc, question, left, from, half) };
    let back = move || -> Result<Vec<Vec<u64>>, Memory>
        requires { AllByRecursion (D.leads from.now) right.now }
        ensures { IfOk result (λ t. counts_of t ≡ use_table (program_in question.entry.program.now)
            (uses_in_each (program_in question.entry.program.now) (goal_of question.entry.goal.now)
            (map (D.at from.entry.now) right.entry.now))) }
    { uses(rt, alloc, question, right, from, others) };
    let (first, second) = join(rt, front, back);
    let first = first?;
    let second = second?;
    sum_of_tables(alloc, first.as_slice(), second.as_slice())
}
