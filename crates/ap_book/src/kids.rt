//! Kids of a path, made ready for a book.

ghost use Rattle.std.specs.Prelude.{◌≡◌, [], ◌∷◌, ◌++◌, IfOk};
ghost use Rattle.ap_paths.specs.History.{kids_of};
ghost use Rattle.ap_book.specs.Kept.{paths_of, AreKidsOf};

use ap_defs::memory::Memory;
use ap_defs::paths::Path;
use std::alloc::Global;

/// The kids of a path: the choices, and the choices from the root to each of them. They are made
/// before a book is asked for, so that a worker who shares one takes less time of its turn.
#[derive(Drop)]
pub struct Kids {
    pub choices: Vec<u32>,
    pub paths: Vec<Vec<u32>>,
}

impl Kids {
    /// The kids of a path by these choices. The only error is want of memory.
    pub fn of(alloc: Global, path: &Path, kids: &[u32]) -> Result<Kids, Memory>
        ensures { IfOk result (λ k. AreKidsOf path.now kids.now k) }
    {
        let mut choices = Vec::new(alloc);
        choices.extend_from_slice(kids)?;
        Ok(Kids {
            choices,
            paths: make_kids(alloc, path, kids)?,
        })
    }
}

/// The choices of the path's kids.
fn make_kids(alloc: Global, path: &Path, kids: &[u32]) -> Result<Vec<Vec<u32>>, Memory>
    ensures { IfOk result (λ v. paths_of v.items ≡ kids_of path.now kids.now) }
{
    let mut made = Vec::with_capacity(alloc, kids.len())?;
    for k in kids {
        made.push(make_kid(alloc, path, *k)?)?;
    }
    Ok(made)
}

fn make_kid(alloc: Global, path: &Path, k: u32) -> Result<Vec<u32>, Memory>
    ensures { IfOk result (λ v. v.items ≡ path.now ++ k ∷ []) }
{
    let mut choices = Vec::with_capacity(alloc, path.choices().len().saturating_add(1))?;
    choices.extend_from_slice(path.choices())?;
    choices.push(k)?;
    Ok(choices)
}
