//! The end of a search beside a path that it covers.

ghost use Rattle.std.specs.Prelude.{◌≡◌, ◌∷◌, ◌++◌, [], IfOk, true};
ghost use Rattle.ap_backchain.specs.Branches.{IsBranchOf, IsChoiceOf, IsChoiceOfNode, path_of_branch};
ghost use Rattle.ap_backchain.specs.Problems.{HasQuery};
ghost use Rattle.ap_coverer.specs.Followed.{CoversPath, IsEnd, IsInSearch};

use ap_backchain::branch::Branch;
use ap_backchain::problem::Problem;
use ap_defs::memory::Memory;
use ap_defs::paths::Node;
use std::alloc::Global;

/// Whether a node is a choice that has this way.
fn offers(node: &Node, choice: u32) -> bool
    ensures offered { result ≡ true → IsChoiceOfNode choice node.now }
    ensures all { IsChoiceOfNode choice node.now → result ≡ true }
{
    match node {
        Node::Choice(width, _) => 1 <= choice && choice <= *width,
        _ => false,
    }
}

/// The branch after one more choice that it offers.
fn go_on<'a>(
    alloc: Global,
    p: &Problem<'a>,
    branch: Branch<'a>,
    choice: u32,
) -> Result<Branch<'a>, Memory>
    requires query { HasQuery p.now }
    requires of { IsBranchOf p.now branch }
    requires choice { IsChoiceOf choice branch }
    requires there { IsInSearch p.now (path_of_branch branch) }
    ensures of { IfOk result (λ b. IsBranchOf p.now b) }
    ensures path { IfOk result (λ b. path_of_branch b
        ≡ path_of_branch branch.entry ++ choice ∷ []) }
    ensures there { IfOk result (λ b. IsInSearch p.now (path_of_branch b)) }
{
    branch.step(alloc, p, choice)
}

/// The branch to which a path leads, where the search covers the path: it stands at the answer of the path, or is
/// stuck at a beginning of it. Each entry of the path is taken once.
pub fn follow<'a>(alloc: Global, p: &Problem<'a>, path: &[u32]) -> Result<Branch<'a>, Memory>
    requires query { HasQuery p.now }
    requires covers { CoversPath p.now path.now }
    ensures of { IfOk result (λ b. IsBranchOf p.now b) }
    ensures ended { IfOk result (λ b. IsEnd b.node (path_of_branch b) path.now) }
{
    let mut branch = Branch::root(alloc, p)?;
    let mut rest = path;
    'following: while let Some((choice, others)) = rest.split_first() {
        if !offers(branch.node(), *choice) {
            return Ok(branch);
        }
        branch = go_on(alloc, p, branch, *choice)?;
        rest = others;
    }
    Ok(branch)
}
