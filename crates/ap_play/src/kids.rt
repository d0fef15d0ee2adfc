//! Whether kids are what a tree may answer at a path.

ghost use Rattle.std.specs.Prelude.{◌≡◌, ℕ, ◌+◌, ◌∷◌, ◌++◌, [], ◌<◌, ◌≤◌, IfOk, Some, drop, length};
ghost use Rattle.std.specs.Bool.{MatchBool};
ghost use Rattle.ap_paths.specs.Trees.{InChoiceTree, AreKids};
ghost use Rattle.ap_play.specs.Covers.{covers, is_none, starts};

use ap_defs::memory::Memory;
use ap_defs::paths::Path;
use ap_paths::{Tree, outs_in_full};
use std::alloc::Global;

/// Whether the kids are ascending choices of the path, and each choice that they leave out has no
/// outputs below it.
pub fn are_kids<T: Tree>(alloc: Global, tree: &T, path: &Path, kids: &[u32]) -> Result<bool, Memory>
    requires { InChoiceTree (T.choices tree.now) path.now }
    ensures { IfOk result (λ b. MatchBool b (AreKids (T.choices tree.now) (T.at tree.now) path.now
        kids.now) (AreKids (T.choices tree.now) (T.at tree.now) path.now kids.now → ⊥)) }
{
    let Some(width) = tree.width(alloc, path)? else {
        return Ok(false);
    };
    let covered = cover(alloc, tree, path, width, kids)?;
    Ok(covered)
}

/// Whether each of the choices is the next of the kids, or has no outputs below it, with no kid left.
fn cover<T: Tree>(
    alloc: Global,
    tree: &T,
    path: &Path,
    width: u32,
    kids: &[u32],
) -> Result<bool, Memory>
    requires inside { InChoiceTree (T.choices tree.now) path.now }
    requires wide { T.choices tree.now path.now ≡ Some width }
    ensures { IfOk result (λ b. b ≡ covers (T.at tree.now) path.now 1 width kids.now) }
{
    let mut next = 0usize;
    for i in 0..width {
        if starts_at(kids, next, i + 1) {
            next += 1;
        } else if !is_barren(alloc, tree, path, i + 1)? {
            return Ok(false);
        }
    }
    Ok(next == kids.len())
}

/// Whether the number stands at this place.
fn starts_at(kids: &[u32], at: usize, k: u32) -> bool
    requires { at ≤ length kids.now }
    ensures { result ≡ starts k (drop at kids.now) }
{
    at < kids.len() && kids[at] == k
}

/// Whether nothing is below a choice of the path.
fn is_barren<T: Tree>(alloc: Global, tree: &T, path: &Path, k: u32) -> Result<bool, Memory>
    requires { InChoiceTree (T.choices tree.now) (path.now ++ k ∷ []) }
    ensures { IfOk result (λ b. b ≡ is_none (T.at tree.now (path.now ++ k ∷ []))) }
{
    let kid = path.child(alloc, k)?;
    let runs = tree.outs(alloc, &kid)?;
    let outs = outs_in_full(alloc, runs)?;
    Ok(outs.is_empty())
}
