//! Permutations as the names that they move, ascending by sort and then by number, beside the numbers of
//! their images.
//!
//! The only error here is want of memory.

ghost use Rattle.std.specs.Prelude.{◌≡◌, ◌≤◌, [], ◌++◌, List, drop, length, map, IfOk, OnOk};
ghost use Rattle.std.specs.BTreeMap as tree;
ghost use Rattle.ap_defs.specs.Canonical.{moved_names};
ghost use Rattle.ap_defs.specs.Permutations.{act_name, inverse, name_before};
ghost use Rattle.ap_defs.specs.declared.terms.Swap.{Swap};
ghost use Rattle.ap_values.specs.Differing.{differing_places};
ghost use Rattle.ap_values.specs.Flat.{image_num, kept, moved_by, moved_list, united};
ghost use Rattle.ap_perm.specs.Images.{AreImages, key_cmp};

use crate::differing::differ;
use ap_defs::memory::Memory;
use ap_defs::terms::Name;
use ap_perm::images::{Images, image_in};
use ap_perm::swappings::is_same;
use smallvec::SmallVec;
use std::alloc::Global;
use std::collections::BTreeMap;

/// A name that is moved, and the number of its image.
#[derive(Clone, Copy)]
pub(crate) struct Moved {
    pub name: Name,
    pub image: u64,
}

impl Default for Moved {
    fn default() -> Moved {
        Moved {
            name: Name { sort: 0, num: 0 },
            image: 0,
        }
    }
}

/// What moves at most four names takes no memory.
pub(crate) type MovedNames = SmallVec<Moved, 4>;

/// Whether a name comes before another one, by sort and then by number.
#[tactic(auto, unfolding(ap_defs::specs::Permutations::name_before))]
fn is_before(a: &Name, b: &Name) -> bool
    ensures { result ≡ name_before a.now b.now }
{
    if a.sort == b.sort {
        a.num < b.num
    } else {
        a.sort < b.sort
    }
}

/// The image of a name, looked for by halving. It takes no memory.
pub(crate) fn image_of(moved: &[Moved], a: Name) -> Name
    ensures { (p : List Swap) → moved_list p ≡ moved.now → result ≡ act_name p a }
{
    let mut low = 0;
    let mut high = moved.len();
    'halving: while low < high {
        let middle = low + (high - low) / 2;
        let Moved { name, image } = moved[middle];
        if is_same(&a, &name) {
            return Name {
                sort: a.sort,
                num: image,
            };
        }
        if is_before(&name, &a) {
            low = middle + 1;
        } else {
            high = middle;
        }
    }
    a
}

/// The name of which `a` is the image. It takes no memory.
pub(crate) fn origin_of(moved: &[Moved], a: Name) -> Name
    ensures { (p : List Swap) → moved_list p ≡ moved.now → result ≡ act_name (inverse p) a }
{
    'looking: for i in 0..moved.len() {
        let Moved { name, image } = moved[i];
        let there = Name {
            sort: name.sort,
            num: image,
        };
        if is_same(&there, &a) {
            return name;
        }
    }
    a
}

/// Names beside the numbers of their images.
pub(crate) fn beside_images(
    alloc: Global,
    names: &[Name],
    images: &Images,
) -> Result<MovedNames, Memory>
    ensures { IfOk result (λ moved. (p : List Swap) → AreImages p (tree.get key_cmp images.now)
        → moved.items ≡ map (moved_by p) names.now) }
{
    let mut moved = SmallVec::new(alloc);
    for a in names {
        moved.push(Moved {
            name: *a,
            image: image_in(images, *a).num,
        })?;
    }
    Ok(moved)
}

/// The names that are moved.
pub(crate) fn names_of(alloc: Global, moved: &[Moved]) -> Result<Vec<Name>, Memory>
    ensures { IfOk result (λ names. (p : List Swap) → moved_list p ≡ moved.now
        → names.items ≡ moved_names p) }
{
    let mut names = Vec::new(alloc);
    for m in moved {
        names.push(m.name)?;
    }
    Ok(names)
}

/// The images as a table.
pub(crate) fn image_table(alloc: Global, moved: &[Moved]) -> Result<Images, Memory>
    ensures { IfOk result (λ images. (p : List Swap) → moved_list p ≡ moved.now
        → AreImages p (tree.get key_cmp images)) }
{
    let mut images = BTreeMap::new(alloc);
    for m in moved {
        images.insert((m.name.num, m.name.sort), m.image)?;
    }
    Ok(images)
}

/// The images under the inverse as a table.
pub(crate) fn origin_table(alloc: Global, moved: &[Moved]) -> Result<Images, Memory>
    ensures { IfOk result (λ images. (p : List Swap) → moved_list p ≡ moved.now
        → AreImages (inverse p) (tree.get key_cmp images)) }
{
    let mut images = BTreeMap::new(alloc);
    for m in moved {
        images.insert((m.image, m.name.sort), m.name.num)?;
    }
    Ok(images)
}

/// The names behind a place, added to others.
fn add_rest(names: &mut Vec<Name>, moved: &[Moved], from: usize) -> Result<(), Memory>
    requires { from ≤ length moved.now }
    ensures { OnOk result ((p : List Swap) → moved_list p ≡ moved.now
        → names.new.items ≡ names.old.items ++ drop from (moved_names p)) }
{
    for i in from..moved.len() {
        names.push(moved[i].name)?;
    }
    Ok(())
}

/// The names that one of two permutations moves, in order.
pub(crate) fn union_of(alloc: Global, left: &[Moved], right: &[Moved]) -> Result<Vec<Name>, Memory>
    ensures { IfOk result (λ names. (p q : List Swap) → moved_list p ≡ left.now
        → moved_list q ≡ right.now → names.items ≡ united (moved_names p) (moved_names q)) }
{
    let mut names = Vec::new(alloc);
    let mut i = 0;
    let mut j = 0;
    'merging: while i < left.len() && j < right.len() {
        let a = left[i].name;
        let b = right[j].name;
        if is_before(&a, &b) {
            names.push(a)?;
            i += 1;
        } else if is_before(&b, &a) {
            names.push(b)?;
            j += 1;
        } else {
            names.push(a)?;
            i += 1;
            j += 1;
        }
    }
    add_rest(&mut names, left, i)?;
    add_rest(&mut names, right, j)?;
    Ok(names)
}

/// The names of which one permutation after another makes something else, with the numbers of their
/// images.
pub(crate) fn composed(
    alloc: Global,
    names: &[Name],
    first: &[Moved],
    after: &[Moved],
) -> Result<MovedNames, Memory>
    ensures { IfOk result (λ moved. (p q : List Swap) → moved_list p ≡ first.now
        → moved_list q ≡ after.now
        → moved.items ≡ map (moved_by (q ++ p)) (kept (q ++ p) [] names.now)) }
{
    let mut moved = SmallVec::new(alloc);
    for a in names {
        let b = image_of(after, image_of(first, *a));
        if !is_same(&b, a) {
            moved.push(Moved {
                name: *a,
                image: b.num,
            })?;
        }
    }
    Ok(moved)
}

/// The numbers of the images of names.
pub(crate) fn images_at(alloc: Global, names: &[Name], moved: &[Moved]) -> Result<Vec<u64>, Memory>
    ensures { IfOk result (λ nums. (p : List Swap) → moved_list p ≡ moved.now
        → nums.items ≡ map (image_num p) names.now) }
{
    let mut nums = Vec::new(alloc);
    for a in names {
        nums.push(image_of(moved, *a).num)?;
    }
    Ok(nums)
}

/// Marks of the places at which two lists of numbers differ.
pub(crate) fn marks_of(alloc: Global, left: &[u64], right: &[u64]) -> Result<Vec<u8>, Memory>
    requires { length right.now ≡ length left.now }
    ensures { IfOk result (λ marks. marks.items ≡ differing_places left.now right.now) }
{
    let mut marks = Vec::from_elem(alloc, 0, left.len())?;
    differ(left, right, &mut marks);
    Ok(marks)
}

/// The names whose places are marked.
pub(crate) fn marked(alloc: Global, names: &[Name], marks: &[u8]) -> Result<Vec<Name>, Memory>
    requires { length marks.now ≡ length names.now }
    ensures { IfOk result (λ picked. (p q : List Swap)
        → marks.now ≡ differing_places (map (image_num p) names.now) (map (image_num q) names.now)
        → picked.items ≡ kept p q names.now) }
{
    let mut picked = Vec::new(alloc);
    for i in 0..names.len() {
        if marks[i] == 1 {
            picked.push(names[i])?;
        }
    }
    Ok(picked)
}
