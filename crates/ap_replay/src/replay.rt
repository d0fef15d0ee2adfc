//! Branches at paths.

ghost use Rattle.std.specs.Prelude.{◌≡◌, [], ◌∷◌, ◌++◌, true, IfOk, IsErrOf};
ghost use Rattle.ap_paths.specs.Trees.{InChoiceTree, IsChoice};
ghost use Rattle.ap_backchain.specs.Branches.{IsBranchOf, IsDescentOf, path_of_branch, path_of_descent};
ghost use Rattle.ap_backchain.specs.Problems.{HasQuery};
ghost use Rattle.ap_replay.specs.ProblemTrees.{problem_choices};

use crate::error::ReplayError;
use ap_backchain::branch::Branch;
use ap_backchain::descent::Descent;
use ap_backchain::problem::Problem;
use ap_defs::memory::Memory;
use ap_defs::paths::Path;
use std::alloc::Global;

/// Whether a choice among so many has this way.
fn offers(width: Option<u32>, choice: u32) -> bool
    ensures offered { result ≡ true → IsChoice width choice }
    ensures all { IsChoice width choice → result ≡ true }
{
    match width {
        Some(width) => 1 <= choice && choice <= width,
        None => false,
    }
}

/// The search after one more choice.
fn step_to<'a>(
    alloc: Global,
    p: &Problem<'a>,
    descent: Descent<'a>,
    choice: u32,
) -> Result<Descent<'a>, ReplayError>
    requires query { HasQuery p.now }
    requires of { IsDescentOf p.now descent }
    ensures of { IfOk result (λ d. IsDescentOf p.now d) }
    ensures path { IfOk result (λ d. path_of_descent d
        ≡ path_of_descent descent.entry ++ choice ∷ []) }
    ensures taken { IfOk result (λ d.
        IsChoice (problem_choices p.now (path_of_descent descent.entry)) choice) }
    ensures refused { IsErrOf result ReplayError.NotABranch →
        IsChoice (problem_choices p.now (path_of_descent descent.entry)) choice → ⊥ }
{
    if offers(descent.width(), choice) {
        Ok(descent.step(alloc, p, choice)?)
    } else {
        Err(ReplayError::NotABranch)
    }
}

/// The branch of a path of the search of a problem. It answers NotABranch exactly where some entry
/// of the path has no choice to take or is none of its ways. Each choice on the way costs what the way
/// that is taken costs, however many others there are.
pub fn at<'a>(alloc: Global, p: &Problem<'a>, path: &Path) -> Result<Branch<'a>, ReplayError>
    requires { HasQuery p.now }
    ensures of { IfOk result (λ b. IsBranchOf p.now b) }
    ensures path { IfOk result (λ b. path_of_branch b ≡ path.now) }
    ensures there { IfOk result (λ b. InChoiceTree (problem_choices p.now) path.now) }
    ensures refused { IsErrOf result ReplayError.NotABranch →
        InChoiceTree (problem_choices p.now) path.now → ⊥ }
{
    let choices = path.choices();
    let mut descent = Descent::root(alloc, p)?;
    'stepping: for choice in choices {
        descent = step_to(alloc, p, descent, *choice)?;
    }
    Ok(descent.stop(alloc, p)?)
}

/// The branch of a path that the search has.
pub fn branch_at<'a>(alloc: Global, p: &Problem<'a>, path: &Path) -> Result<Branch<'a>, Memory>
    requires query { HasQuery p.now }
    requires there { InChoiceTree (problem_choices p.now) path.now }
    ensures of { IfOk result (λ b. IsBranchOf p.now b) }
    ensures path { IfOk result (λ b. path_of_branch b ≡ path.now) }
{
    match at(alloc, p, path) {
        Ok(branch) => Ok(branch),
        Err(ReplayError::Memory) => Err(Memory),
        Err(ReplayError::NotABranch) => unreachable!(),
    }
}
