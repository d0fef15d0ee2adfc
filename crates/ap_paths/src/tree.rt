//! A tree of paths, as its choices and its outputs below each path.

ghost use Rattle.std.specs.Prelude.{◌≡◌, ℕ, Option, List as list, IfOk};
ghost use Rattle.ap_defs.specs.Answers.{NominalOut};
ghost use Rattle.ap_paths.specs.Entries.{Plan, visit_of};
ghost use Rattle.ap_paths.specs.Runs.{outs_of_runs};
ghost use Rattle.ap_paths.specs.Trees.{InChoiceTree, IsTree, IsPlan};

use crate::runs::Run;
use ap_defs::lists::List;
use ap_defs::memory::Memory;
use ap_defs::paths::Path;
use std::alloc::Global;

/// What a tree of paths answers at a path: its kids, ascending, or the outputs below it.
#[derive(Drop)]
pub enum Visit {
    Kids(List<u32>),
    Outs(List<Run>),
}

/// A tree of paths with the outputs below each. The empty path is in it; where a path has `w`
/// choices, the paths that go on from it by one entry are those with 1 to `w` appended.
///
/// The only error of each method is want of memory.
pub trait Tree: Sync {
    /// The number of choices at a path, or none where it ends without one.
    ghost choices: { Self → list ℕ → Option ℕ };

    /// The outputs below a path.
    ghost at: { Self → list ℕ → list NominalOut };

    /// What `visit` answers: the tree, the path and how much is searched at most fix it.
    ghost plan: { Self → Option ℕ → list ℕ → Plan };

    /// The number of choices at a path of the tree, or none where it ends without one.
    fn width(&self, alloc: Global, path: &Path) -> Result<Option<u32>, Memory>
        requires { InChoiceTree (choices self.now) path.now }
        ensures { IfOk result (λ w. w ≡ choices self.now path.now) };

    /// The outputs below a path of the tree, in path order.
    fn outs(&self, alloc: Global, path: &Path) -> Result<Vec<Run>, Memory>
        requires { InChoiceTree (choices self.now) path.now }
        ensures { IfOk result (λ v. outs_of_runs v.items ≡ at self.now path.now) };

    /// The kids of a path that are worth a visit, only where it is at a choice, or the outputs
    /// below it. Each choice that is left out has no outputs below it. `most` tells how much is
    /// searched below the path at most before its kids are told (with none, all of it), in steps
    /// of the tree.
    fn visit(&self, alloc: Global, path: &Path, most: Option<u64>) -> Result<Visit, Memory>
        requires { InChoiceTree (choices self.now) path.now }
        ensures { IfOk result (λ v. visit_of v ≡ plan self.now most path.now) };

    ghost branches: { (t : Self) → IsTree (choices t) (at t) };

    ghost planned: { (t : Self) (most : Option ℕ) (p : list ℕ) → InChoiceTree (choices t) p → IsPlan (choices t) (at t) p (plan t most p) };
}
