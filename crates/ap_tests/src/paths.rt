use crate::pairs::{Pairs, cut_at};
use ap_defs::lists::List;
use ap_defs::memory::Memory;
use ap_defs::paths::{Out, Path};
use ap_paths::{Endings, Run, Tree, Visit, merges_whole};
use std::alloc::Global;
use std::cmp::Ordering;

/// How many choices the empty path of a tree has, and how many kids.
fn widths<T: Tree>(alloc: Global, tree: &T) -> Result<(Option<u32>, usize), Memory> {
    let root = Path::root(alloc);
    let kids = match tree.visit(alloc, &root, None)? {
        Visit::Kids(kids) => kids.items().len(),
        Visit::Outs(_) => 0,
    };
    Ok((tree.width(alloc, &root)?, kids))
}

/// How many outputs are below the empty path of a tree.
fn count_outs<T: Tree>(alloc: Global, tree: &T) -> Result<usize, Memory> {
    merges_whole(tree);
    Ok(tree.outs(alloc, &Path::root(alloc))?.len())
}

#[test]
fn a_tree_is_visited(rt: HostRuntime) {
    let alloc = rt.alloc();
    assert!(rt; matches!(widths(alloc, &Pairs::of(1)), Ok((Some(2), 2))));
    assert!(rt; matches!(count_outs(alloc, &Pairs::of(0)), Ok(1)));
}

/// Puts a cut at the path of a choice.
fn put_cut(alloc: Global, endings: &mut Endings, k: u32) -> Result<(), Memory> {
    let path = Path::root(alloc).child(alloc, k)?;
    let outs = cut_at(alloc, &path)?;
    endings.put(alloc, &path, List::of(outs))
}

/// Cuts that are put at [2] and at [1], as they stand at last.
fn both_ends(alloc: Global) -> Result<Vec<(Path, List<Run>)>, Memory> {
    let mut endings = Endings::new(alloc);
    put_cut(alloc, &mut endings, 2)?;
    put_cut(alloc, &mut endings, 1)?;
    endings.into_vec(alloc)
}

/// Whether these are ends at [1] and [2], with one output each.
pub fn are_both_ends(ends: &[(Path, List<Run>)]) -> bool {
    match ends {
        [(first, outs), (second, others)] => {
            first.choices() == [1].as_slice()
                && second.choices() == [2].as_slice()
                && matches!(outs.items(), [Run::One(Out::Cut(_))])
                && matches!(others.items(), [Run::One(Out::Cut(_))])
        }
        _ => false,
    }
}

#[test]
fn ends_stand_in_path_order(rt: HostRuntime) {
    let ends = both_ends(rt.alloc());
    assert!(rt; matches!(&ends, Ok(ends) if are_both_ends(ends.as_slice())));
}

/// Paths by 1, by 1 and then 2, and by 2.
fn three_paths(alloc: Global) -> Result<(Path, Path, Path), Memory> {
    let first = Path::root(alloc).child(alloc, 1)?;
    let below = first.child(alloc, 2)?.copy(alloc)?;
    let second = Path::root(alloc).child(alloc, 2)?;
    Ok((first, below, second))
}

fn are_in_order(first: &Path, below: &Path, second: &Path) -> bool {
    first.cmp(below) == Ordering::Less
        && second.cmp(below) == Ordering::Greater
        && first.cmp(first) == Ordering::Equal
        && first.is_prefix(below)
        && !second.is_prefix(below)
        && below.choices() == [1, 2].as_slice()
}

#[test]
fn a_path_comes_before_the_paths_that_go_on_from_it(rt: HostRuntime) {
    let paths = three_paths(rt.alloc());
    assert!(rt; matches!(&paths, Ok((first, below, second)) if are_in_order(first, below, second)));
}
