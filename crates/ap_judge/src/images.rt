//! What swappings make of names, to be looked up.

ghost use Rattle.std.specs.Prelude.{◌≡◌, ◌++◌, [], ◌∷◌, List as list, IfOk, OnOk};
ghost use Rattle.std.specs.BTreeMap as tree;
ghost use Rattle.ap_defs.specs.declared.terms.Swap.{Swap};
ghost use Rattle.ap_defs.specs.Permutations.{act_name};
ghost use Rattle.ap_judge.specs.Indexes.{AreIndexedImages, indexed_image, sought_name_cmp};

use ap_defs::memory::Memory;
use ap_defs::terms::{Name, Swap};
use std::alloc::Global;
use std::collections::BTreeMap;
use std::marker::Model;

/// Swappings with the image of each name that stands in one of them, which is found in time in proportion
/// to the logarithm of their number. Contracts see the swappings.
#[derive(Drop)]
pub(crate) struct Images<'a> {
    swaps: &'a [Swap],
    // The numbers of images, by the sorts and numbers of names.
    moved: BTreeMap<(u32, u64), u64>,
}

impl<'a> Model for Images<'a> {
    ghost use Rattle.std.specs.Prelude.{List as list};
    ghost use Rattle.ap_defs.specs.declared.terms.Swap.{Swap};

    ghost Value = { list Swap };

    ghost use Rattle.ap_defs.specs.contracts.terms.Swap as s;
    ghost use Rattle.std.specs.Coded.{coded_list};

    ghost coded = { coded_list s.the_row.coded };

    ghost use Rattle.std.specs.BTreeMap as tree;
    ghost use Rattle.ap_judge.specs.Indexes.{AreIndexedImages, sought_name_cmp};

    ghost view = { λ i. i.swaps.now };

    ghost invariant = { λ i. AreIndexedImages i.swaps.now (tree.get sought_name_cmp i.moved) };
}

/// The image of a name in a table.
fn image_in(moved: &BTreeMap<(u32, u64), u64>, a: Name) -> Name
    ensures { result ≡ indexed_image (tree.get sought_name_cmp moved.now) a }
{
    match moved.get(&(a.sort, a.num)) {
        None => a,
        Some(num) => Name {
            sort: a.sort,
            num: *num,
        },
    }
}

/// The table of swappings, and of one more, which acts before them.
fn swap_in(moved: &mut BTreeMap<(u32, u64), u64>, s: &Swap) -> Result<(), Memory>
    ensures { OnOk result ((p : list Swap) → AreIndexedImages p (tree.get sought_name_cmp moved.old)
        → AreIndexedImages (p ++ s.now ∷ []) (tree.get sought_name_cmp moved.new)) }
{
    let sort = s.sort;
    let left = image_in(moved, Name { sort, num: s.left });
    let right = image_in(moved, Name { sort, num: s.right });
    moved.insert((sort, s.left), right.num)?;
    moved.insert((sort, s.right), left.num)?;
    Ok(())
}

impl<'a> Images<'a> {
    /// The swappings with their images. `Err` is want of memory.
    pub(crate) fn of(alloc: Global, swaps: &'a [Swap]) -> Result<Images<'a>, Memory>
        ensures { IfOk result (λ i. i ≡ swaps.now) }
    {
        let mut moved = BTreeMap::new(alloc);
        for s in swaps {
            swap_in(&mut moved, s)?;
        }
        Ok(Images { swaps, moved })
    }

    /// The swappings.
    pub(crate) fn swaps(&self) -> &'a [Swap]
        ensures { result.now ≡ self.now }
    {
        self.swaps
    }

    /// What the swappings make of a name.
    pub(crate) fn image(&self, a: Name) -> Name
        ensures { result ≡ act_name self.now a }
    {
        image_in(&self.moved, a)
    }
}
