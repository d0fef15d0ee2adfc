//! The set of open paths.

ghost use Rattle.std.specs.Prelude.{◌≡◌, ℕ, ◌+◌, ◌≤◌, List as list, [], ◌∷◌, ◌++◌, true, IfOk, OnOk, vec_len};
ghost use Rattle.std.specs.HashSet.{spare};
ghost use Rattle.ap_paths.specs.History.{is_open};
ghost use Rattle.ap_paths.specs.Weights.{weigh, is_it, times_in, HaveSame};
ghost use Rattle.ap_book.specs.Kept.{paths_of};

use ap_defs::memory::Memory;
use ap_defs::paths::Path;
use std::alloc::Global;
use std::collections::HashSet;

/// The empty path alone.
pub fn only_root(alloc: Global) -> Result<HashSet<Vec<u32>>, Memory>
    ensures { IfOk result (λ s. HaveSame (paths_of s.keys) ([] ∷ [])) }
{
    let mut opened = HashSet::new(alloc);
    opened.insert(Vec::new(alloc))?;
    Ok(opened)
}

/// Whether the path is in the set.
pub fn has(opened: &HashSet<Vec<u32>>, path: &Path) -> bool
    ensures { result ≡ is_open path.now (paths_of opened.now.keys) }
{
    opened.contains(path.choices())
}

/// Takes memory for so many more paths.
pub fn make_room(opened: &mut HashSet<Vec<u32>>, more: usize) -> Result<(), Memory>
    ensures same { HaveSame (paths_of opened.new.keys) (paths_of opened.old.keys) }
    ensures room { OnOk result (more ≤ spare opened.new) }
{
    opened.reserve(more)?;
    Ok(())
}

/// Takes a path out of the set, and gives what stood there.
pub fn take_out(opened: &mut HashSet<Vec<u32>>, path: &Path) -> Vec<u32>
    requires { is_open path.now (paths_of opened.old.keys) ≡ true }
    ensures path { result.items ≡ path.now }
    ensures taken { (h : list ℕ → ℕ) →
        weigh h (paths_of opened.new.keys) + h path.now ≡ weigh h (paths_of opened.old.keys) }
    ensures room { spare opened.old ≤ spare opened.new }
{
    let Some(taken) = opened.take(path.choices()) else {
        unreachable!()
    };
    taken
}

/// Puts paths that are not there in the place of one, where there is room for them, and gives that one.
pub fn replace(opened: &mut HashSet<Vec<u32>>, path: &Path, kids: Vec<Vec<u32>>) -> Vec<u32>
    requires there { is_open path.now (paths_of opened.old.keys) ≡ true }
    requires room { vec_len kids ≤ spare opened.old }
    requires once { (q : list ℕ) →
        times_in (paths_of kids.items) q + times_in (paths_of opened.old.keys) q
        ≤ 1 + is_it q path.now }
    ensures path { result.items ≡ path.now }
    ensures replaced { (h : list ℕ → ℕ) →
        weigh h (paths_of opened.new.keys) + h path.now
        ≡ weigh h (paths_of opened.old.keys) + weigh h (paths_of kids.items) }
{
    let taken = take_out(opened, path);
    add_all(opened, kids);
    taken
}

/// Adds paths that are not there, for which there is room.
fn add_all(opened: &mut HashSet<Vec<u32>>, mut paths: Vec<Vec<u32>>)
    requires room { vec_len paths ≤ spare opened.old }
    requires once { (q : list ℕ) →
        times_in (paths_of paths.items) q + times_in (paths_of opened.old.keys) q ≤ 1 }
    ensures { (h : list ℕ → ℕ) →
        weigh h (paths_of opened.new.keys)
        ≡ weigh h (paths_of opened.old.keys) + weigh h (paths_of paths.items) }
{
    while let Some(path) = paths.pop() {
        let _added = opened.insert(path);
    }
}
