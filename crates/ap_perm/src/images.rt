//! Tables of what swappings make of names, in which an image is found in time in proportion to the
//! logarithm of their number.
//!
//! The only error here is want of memory.

ghost use Rattle.std.specs.Prelude.{◌≡◌, ◌++◌, [], ◌∷◌, List, map, IfOk, OnOk};
ghost use Rattle.std.specs.BTreeMap as tree;
ghost use Rattle.ap_defs.specs.declared.terms.Swap.{Swap};
ghost use Rattle.ap_defs.specs.Permutations.{act_name, inverse};
ghost use Rattle.ap_perm.specs.Images.{AreImages, image_by, key_cmp, name_of};

use ap_defs::memory::Memory;
use ap_defs::terms::{Name, Swap};
use std::alloc::Global;
use std::collections::BTreeMap;

/// The numbers of images, by the numbers and sorts of names. A name that isn't there stays.
pub type Images = BTreeMap<(u64, u32), u64>;

/// The image of a name.
pub fn image_in(images: &Images, a: Name) -> Name
    ensures { result ≡ image_by (tree.get key_cmp images.now) a }
{
    match images.get(&(a.num, a.sort)) {
        None => a,
        Some(num) => Name {
            sort: a.sort,
            num: *num,
        },
    }
}

/// The images under one more swapping, which acts before the others.
fn swap_before(images: &mut Images, s: &Swap) -> Result<(), Memory>
    ensures { OnOk result ((p : List Swap) → AreImages p (tree.get key_cmp images.old)
        → AreImages (p ++ s.now ∷ []) (tree.get key_cmp images.new)) }
{
    let sort = s.sort;
    let left = image_in(images, Name { sort, num: s.left });
    let right = image_in(images, Name { sort, num: s.right });
    images.insert((s.left, sort), right.num)?;
    images.insert((s.right, sort), left.num)?;
    Ok(())
}

/// The images under one more swapping, which acts after the others, and those under the inverse. It does
/// what a swapping does that acts before the others, of the names of which they make its two names.
pub(crate) fn swap_after(images: &mut Images, origins: &mut Images, s: &Swap) -> Result<(), Memory>
    ensures { OnOk result ((p : List Swap) → AreImages p (tree.get key_cmp images.old)
        → AreImages (inverse p) (tree.get key_cmp origins.old)
        → AreImages (s.now ∷ p) (tree.get key_cmp images.new)
        × AreImages (inverse (s.now ∷ p)) (tree.get key_cmp origins.new)) }
{
    let sort = s.sort;
    let left = image_in(origins, Name { sort, num: s.left });
    let right = image_in(origins, Name { sort, num: s.right });
    let earlier = Swap {
        sort,
        left: left.num,
        right: right.num,
    };
    swap_before(images, &earlier)?;
    swap_before(origins, s)?;
    Ok(())
}

/// The images under a list of swappings.
pub fn images_of(alloc: Global, swaps: &[Swap]) -> Result<Images, Memory>
    ensures { IfOk result (λ images. AreImages swaps.now (tree.get key_cmp images)) }
{
    let mut images = BTreeMap::new(alloc);
    for s in swaps {
        swap_before(&mut images, s)?;
    }
    Ok(images)
}

/// The images under the inverse of a list of swappings.
pub(crate) fn origins_of(alloc: Global, swaps: &[Swap]) -> Result<Images, Memory>
    ensures { IfOk result (λ images. AreImages (inverse swaps.now) (tree.get key_cmp images)) }
{
    let mut images = BTreeMap::new(alloc);
    for i in (0..swaps.len()).rev() {
        swap_before(&mut images, &swaps[i])?;
    }
    Ok(images)
}

/// The names of a table, ascending by number and then by sort.
pub(crate) fn names_in(alloc: Global, images: &Images) -> Result<Vec<Name>, Memory>
    ensures names { IfOk result (λ names. names.items ≡ map name_of (tree.keys images.now)) }
    ensures ordered { tree.IsOrdered key_cmp images.now }
{
    let names = images
        .keys()
        .map(|k| Name {
            sort: k.1,
            num: k.0,
        })
        .collect(alloc)?;
    Ok(names)
}
