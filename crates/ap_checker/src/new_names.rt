//! The names of `new` nodes.
//!
//! The parts of a goal stand on a stack, each told how much of what `new` and `exists` bring round it.

ghost use Rattle.std.specs.Prelude.{◌≡◌, ◌++◌, [], ◌∷◌, length, reverse, IfOk, OnOk};
ghost use Rattle.ap_defs.specs.Goals.{goal_of};
ghost use Rattle.ap_checks.specs.Checks.{is_new as is_new_under};
ghost use Rattle.ap_checker.specs.NewNames.{is_new_inside, mark_of_part, size_of_part};
ghost use Rattle.ap_judge.specs.Scopes.{environment_of};
ghost use Rattle.ap_judge.specs.Stacks.{AreWithin, IsTestedThere};

use crate::free::{names_of_each, names_of_two, vars_of_each, vars_of_two};
use ap_defs::goals::Goal;
use ap_defs::memory::Memory;
use ap_defs::terms::{Id, Name, Term};
use ap_judge::index::IndexedAnswer;
use ap_judge::scope::Standing;
use ap_sides::newness::is_new_for;
use std::alloc::Global;

/// A part of a goal, and how much is brought round it.
#[derive(Clone, Copy)]
pub(crate) struct Part<'a> {
    pub goal: &'a Goal<Term>,
    pub mark: usize,
}

/// What is brought round parts of a goal, the innermost last, and the parts that are left, the next one last.
#[derive(Drop)]
pub(crate) struct Parts<'a> {
    pub brought: Vec<Id>,
    pub pending: Vec<Part<'a>>,
}

impl<'a> Parts<'a> {
    /// The part comes next, where all is brought.
    fn put(&mut self, goal: &'a Goal<Term>) -> Result<(), Memory>
        ensures brought { self.new.brought.items ≡ self.old.brought.items }
        ensures pending { OnOk result (self.new.pending.items ≡ self.old.pending.items
            ++ (record { goal = goal.entry; mark = length self.old.brought.items }) ∷ []) }
    {
        let mark = self.brought.len();
        self.pending.push(Part { goal, mark })?;
        Ok(())
    }

    /// A name or a variable is brought innermost.
    fn bring(&mut self, what: Id) -> Result<(), Memory>
        ensures brought { OnOk result (self.new.brought.items
            ≡ self.old.brought.items ++ what ∷ []) }
        ensures pending { self.new.pending.items ≡ self.old.pending.items }
    {
        self.brought.push(what)?;
        Ok(())
    }
}

/// Looks at a part of a goal for which the name is to be new: its parts come next.
fn look<'a>(
    alloc: Global,
    answer: &IndexedAnswer<'_>,
    scope: &[Standing<'_>],
    c: Name,
    parts: &mut Parts<'a>,
    at: Part<'a>,
) -> Result<bool, Memory>
    requires { AreWithin mark_of_part (length parts.old.brought.items)
        (reverse parts.old.pending.items) }
    ensures { IfOk result (λ yes.
        IsTestedThere mark_of_part (is_new_inside answer.now.conds c (environment_of scope.now))
        size_of_part at.entry
        parts.old.brought.items parts.old.pending.items
        parts.new.brought.items parts.new.pending.items yes) }
{
    match at.goal {
        Goal::True => Ok(true),
        Goal::Atom(_, terms) => {
            let names = names_of_each(alloc, terms.items())?;
            let vars = vars_of_each(alloc, terms.items())?;
            is_new_for(alloc, answer, scope, c, &parts.brought, &names, &vars)
        }
        Goal::Equal(t, u) | Goal::Fresh(t, u) => {
            let names = names_of_two(alloc, t, u)?;
            let vars = vars_of_two(alloc, t, u)?;
            is_new_for(alloc, answer, scope, c, &parts.brought, &names, &vars)
        }
        Goal::Both(left, right) | Goal::Either(left, right) => {
            parts.put(right)?;
            parts.put(left)?;
            Ok(true)
        }
        Goal::Exists(x, inner) => {
            parts.bring(Id::Var(*x))?;
            parts.put(inner)?;
            Ok(true)
        }
        Goal::New(a, inner) => {
            parts.bring(Id::Name(*a))?;
            parts.put(inner)?;
            Ok(true)
        }
    }
}

/// Whether the name stands for no free name of the goal, and is fresh under the answer's conditions for
/// what stands for each free variable of it.
pub(crate) fn is_new(
    alloc: Global,
    answer: &IndexedAnswer<'_>,
    scope: &[Standing<'_>],
    c: Name,
    goal: &Goal<Term>,
) -> Result<bool, Memory>
    ensures { IfOk result (λ yes. yes ≡
        is_new_under answer.now.conds c (goal_of goal.now) (environment_of scope.now)) }
{
    let mut parts = Parts {
        brought: Vec::new(alloc),
        pending: Vec::new(alloc),
    };
    parts.put(goal)?;
    'parts: while let Some(next) = parts.pending.pop() {
        parts.brought.truncate(next.mark);
        if !look(alloc, answer, scope, c, &mut parts, next)? {
            return Ok(false);
        }
    }
    Ok(true)
}
