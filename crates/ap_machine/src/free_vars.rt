//! The free variables of goals.

ghost use Rattle.std.specs.Prelude.{◌≡◌, ◌^◌, IfOk};
ghost use Rattle.ap_defs.specs.Goals.{goal_of};
ghost use Rattle.ap_defs.specs.Occurrences.{free_vars};
ghost use Rattle.ap_defs.specs.Renaming.{IsGoalBelow, rename_goal};

use crate::vars::{push_vars_of, push_vars_of_terms, without};
use ap_defs::goals::Goal;
use ap_defs::memory::Memory;
use ap_defs::terms::{Term, Var};
use std::alloc::Global;

/// The variables that occur in a goal, whose numbers are raised, and that no `exists` inside it
/// brings.
///
/// It goes on along what is right of `,` and `;`, and calls itself on what is left of them and inside
/// `exists` alone.
pub fn free_vars_of(alloc: Global, base: u64, goal: &Goal<Term>) -> Result<Vec<Var>, Memory>
    requires { IsGoalBelow (2 ^ 64) (rename_goal base (goal_of goal.now)) }
    ensures { IfOk result (λ v. v.items ≡ free_vars (rename_goal base (goal_of goal.now))) }
{
    let mut vars = Vec::new(alloc);
    let mut rest = goal;
    loop {
        match rest {
            Goal::True => return Ok(vars),
            Goal::Atom(_, args) => {
                push_vars_of_terms(&mut vars, base, args.items())?;
                return Ok(vars);
            }
            Goal::Equal(t, u) => {
                push_vars_of(&mut vars, base, t)?;
                push_vars_of(&mut vars, base, u)?;
                return Ok(vars);
            }
            Goal::Fresh(t, u) => {
                push_vars_of(&mut vars, base, t)?;
                push_vars_of(&mut vars, base, u)?;
                return Ok(vars);
            }
            Goal::Both(g, h) | Goal::Either(g, h) => {
                let mut first = free_vars_of(alloc, base, g)?;
                vars.append(&mut first)?;
                rest = h;
            }
            Goal::Exists(x, g) => {
                let inner = free_vars_of(alloc, base, g)?;
                let mut others = without(alloc, Var { num: base + x.num }, &inner)?;
                vars.append(&mut others)?;
                return Ok(vars);
            }
            Goal::New(_, g) => rest = g,
        }
    }
}
