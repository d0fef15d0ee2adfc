//! Lists of swappings, of which the first is outermost: the last one acts first.
//!
//! The only error here is want of memory.

ghost use Rattle.std.specs.Prelude.{◌≡◌, List, map, IfOk, OnOk};
ghost use Rattle.std.specs.BTreeMap as tree;
ghost use Rattle.ap_defs.specs.Canonical.{canonical};
ghost use Rattle.ap_defs.specs.Permutations.{swap_name, act_name, inverse, disagreement, name_eq};
ghost use Rattle.ap_defs.specs.declared.terms.Swap.{Swap};
ghost use Rattle.ap_perm.specs.Images.{AreImages, key_cmp, name_at};
ghost use Rattle.ap_perm.specs.Names.{add_differing};

use crate::images::{Images, image_in, images_of, names_in, origins_of, swap_after};
use ap_defs::memory::Memory;
use ap_defs::terms::{Name, Swap};
use std::alloc::Global;
use std::collections::BTreeSet;

/// Names by their sorts and numbers.
type Names = BTreeSet<(u32, u64)>;

/// What a swapping makes of a name. It takes no memory.
#[tactic(auto, unfolding(ap_defs::specs::Permutations::swap_name, ap_defs::specs::Permutations::name_eq))]
pub fn swapped(swap: &Swap, a: Name) -> Name
    ensures { result ≡ swap_name swap.now a }
{
    let Name { sort, num } = a;
    if sort != swap.sort {
        a
    } else if num == swap.left {
        Name {
            sort,
            num: swap.right,
        }
    } else if num == swap.right {
        Name {
            sort,
            num: swap.left,
        }
    } else {
        a
    }
}

/// What a list of swappings makes of a name. It takes no memory.
#[tactic(auto, using(crate::proofs::SwappingLemmas::act_last))]
pub fn image(swaps: &[Swap], a: Name) -> Name
    ensures { result ≡ act_name swaps.now a }
{
    let mut moved = a;
    for i in (0..swaps.len()).rev() {
        moved = swapped(&swaps[i], moved);
    }
    moved
}

/// The name of which a list of swappings makes `a`. It takes no memory.
#[tactic(auto, using(crate::proofs::SwappingLemmas::undo_first))]
pub fn preimage(swaps: &[Swap], a: Name) -> Name
    ensures { result ≡ act_name (inverse swaps.now) a }
{
    let mut moved = a;
    for swap in swaps {
        moved = swapped(swap, moved);
    }
    moved
}

/// Whether two names are one.
#[tactic(auto, unfolding(ap_defs::specs::Permutations::name_eq))]
pub fn is_same(a: &Name, b: &Name) -> bool
    ensures { result ≡ name_eq a.now b.now }
{
    a == b
}

/// Adds a name to a set, where two lists of swappings, whose images are these, differ on it.
fn add_if_differing(p: &Images, q: &Images, a: Name, names: &mut Names) -> Result<(), Memory>
    ensures { OnOk result ((r s : List Swap) → AreImages r (tree.get key_cmp p.now)
        → AreImages s (tree.get key_cmp q.now)
        → map name_at names.new.keys ≡ add_differing r s a (map name_at names.old.keys)) }
{
    if is_same(&image_in(p, a), &image_in(q, a)) {
        return Ok(());
    }
    names.insert((a.sort, a.num))?;
    Ok(())
}

/// The names of a set, in order.
fn names_in_order(alloc: Global, names: &Names) -> Result<Vec<Name>, Memory>
    ensures { IfOk result (λ v. v.items ≡ map name_at names.now.keys) }
{
    let ordered = names
        .iter()
        .map(|k| Name {
            sort: k.0,
            num: k.1,
        })
        .collect(alloc)?;
    Ok(ordered)
}

/// The names on which two lists of swappings differ, ascending by sort and then by number.
#[tactic(auto, using(crate::proofs::SwappingLemmas::disagreement_append))]
pub fn differing(alloc: Global, p: &[Swap], q: &[Swap]) -> Result<Vec<Name>, Memory>
    ensures { IfOk result (λ names. names.items ≡ disagreement p.now q.now) }
{
    let mut swaps = p.to_vec(alloc)?;
    swaps.extend_from_slice(q)?;
    let by_p = images_of(alloc, p)?;
    let by_q = images_of(alloc, q)?;
    let mut names = BTreeSet::new(alloc);
    for i in (0..swaps.len()).rev() {
        let Swap { sort, left, right } = swaps[i];
        add_if_differing(&by_p, &by_q, Name { sort, num: right }, &mut names)?;
        add_if_differing(&by_p, &by_q, Name { sort, num: left }, &mut names)?;
    }
    let ordered = names_in_order(alloc, &names)?;
    Ok(ordered)
}

/// The canonical list of a permutation of which these are the images, and those under its inverse: the
/// least name that is moved is exchanged with its image, and then what is left is exchanged.
///
/// Names are exchanged in ascending order, and those that come before are moved no more.
pub fn exchanged(
    alloc: Global,
    mut images: Images,
    mut origins: Images,
) -> Result<Vec<Swap>, Memory>
    ensures { IfOk result (λ swaps. (p : List Swap) → AreImages p (tree.get key_cmp images)
        → AreImages (inverse p) (tree.get key_cmp origins) → swaps.items ≡ canonical p) }
{
    let names = names_in(alloc, &images)?;
    let mut swaps = Vec::new(alloc);
    for a in &names {
        let b = image_in(&images, *a);
        if !is_same(&b, a) {
            let swap = Swap {
                sort: a.sort,
                left: a.num,
                right: b.num,
            };
            swap_after(&mut images, &mut origins, &swap)?;
            swaps.push(swap)?;
        }
    }
    Ok(swaps)
}

/// The canonical list of the permutation of a list of swappings.
pub fn canonical_list(alloc: Global, p: &[Swap]) -> Result<Vec<Swap>, Memory>
    ensures { IfOk result (λ swaps. swaps.items ≡ canonical p.now) }
{
    let images = images_of(alloc, p)?;
    let origins = origins_of(alloc, p)?;
    let swaps = exchanged(alloc, images, origins)?;
    Ok(swaps)
}
