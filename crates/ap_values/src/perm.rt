//! Permutations of names.

ghost use Rattle.std.specs.Prelude.{◌≡◌, [], ◌++◌, IfOk};
ghost use Rattle.ap_defs.specs.Canonical.{canonical};
ghost use Rattle.ap_defs.specs.Permutations.{act_name, inverse, disagreement, IsSamePerm};
ghost use Rattle.ap_values.specs.Flat.{Flat};
ghost use Rattle.ap_values.specs.FlatProps.{flat_prop};

use crate::flat::{
    MovedNames, beside_images, composed, image_of, image_table, images_at, marked, marks_of,
    names_of, origin_of, origin_table, union_of,
};
use ap_defs::memory::Memory;
use ap_defs::terms::{Name, Swap};
use ap_perm::images::images_of;
use ap_perm::swappings::{differing, exchanged};
use smallvec::SmallVec;
use std::alloc::Global;
use std::marker::Model;

/// A permutation of names that keeps sorts and moves finitely many names.
///
/// Contracts see it as its canonical list of swappings, so that equal permutations are one value.
/// The list is empty for the identity. Else it begins with the swapping of the least name that is
/// moved, by number and then by sort, with its image, and goes on with the list of what is left.
///
/// The only error of its calls is want of memory. See Urban, Pitts and Gabbay, "Nominal unification".
#[derive(Drop)]
pub struct Perm {
    moved: MovedNames,
    ghost flat: { Flat moved.items } by { flat_prop moved.items },
}

impl Model for Perm {
    ghost use Rattle.std.specs.Prelude.{List as list};
    ghost use Rattle.ap_defs.specs.declared.terms.Swap.{Swap};

    ghost Value = { list Swap };

    ghost view = { λ p. p.flat.0 };
}

impl Perm {
    /// The permutation that leaves every name. It takes no memory.
    pub fn identity(alloc: Global) -> Perm
        ensures { result ≡ [] }
    {
        Perm {
            moved: SmallVec::new(alloc),
        }
    }

    /// The permutation of a list of swappings, of which the first is outermost.
    pub fn of(alloc: Global, swaps: &[Swap]) -> Result<Perm, Memory>
        ensures { IfOk result (λ p. p ≡ canonical swaps.now) }
    {
        let names = differing(alloc, swaps, &[])?;
        let images = images_of(alloc, swaps)?;
        let moved = beside_images(alloc, &names, &images)?;
        Ok(Perm { moved })
    }

    /// The image of a name. It takes no memory.
    pub fn apply(&self, a: Name) -> Name
        ensures { result ≡ act_name self.now a }
    {
        image_of(&self.moved, a)
    }

    /// The name of which `a` is the image. It takes no memory.
    pub fn preimage(&self, a: Name) -> Name
        ensures { result ≡ act_name (inverse self.now) a }
    {
        origin_of(&self.moved, a)
    }

    /// First this permutation, and then the other one.
    pub fn then(&self, alloc: Global, after: &Perm) -> Result<Perm, Memory>
        ensures { IfOk result (λ p. p ≡ canonical (after.now ++ self.now)) }
    {
        let names = union_of(alloc, &self.moved, &after.moved)?;
        let moved = composed(alloc, &names, &self.moved, &after.moved)?;
        Ok(Perm { moved })
    }

    /// The permutation that undoes this one.
    pub fn inverse(&self, alloc: Global) -> Result<Perm, Memory>
        ensures { IfOk result (λ p. p ≡ canonical (inverse self.now)) }
    {
        let names = names_of(alloc, &self.moved)?;
        let origins = origin_table(alloc, &self.moved)?;
        let moved = beside_images(alloc, &names, &origins)?;
        Ok(Perm { moved })
    }

    /// The names on which two permutations differ, ascending by sort and then by number.
    pub fn differences(&self, alloc: Global, other: &Perm) -> Result<Vec<Name>, Memory>
        ensures { IfOk result (λ names. names.items ≡ disagreement self.now other.now) }
    {
        let names = union_of(alloc, &self.moved, &other.moved)?;
        let left = images_at(alloc, &names, &self.moved)?;
        let right = images_at(alloc, &names, &other.moved)?;
        let marks = marks_of(alloc, &left, &right)?;
        let differing = marked(alloc, &names, &marks)?;
        Ok(differing)
    }

    /// The canonical list.
    pub fn swaps(&self, alloc: Global) -> Result<Vec<Swap>, Memory>
        ensures list { IfOk result (λ swaps. swaps.items ≡ self.now) }
        ensures canonical { IfOk result (λ swaps. swaps.items ≡ canonical self.now) }
    {
        let images = image_table(alloc, &self.moved)?;
        let origins = origin_table(alloc, &self.moved)?;
        let swaps = exchanged(alloc, images, origins)?;
        Ok(swaps)
    }

    /// A permutation equal to this one.
    pub fn copy(&self, alloc: Global) -> Result<Perm, Memory>
        ensures { IfOk result (λ p. p ≡ self.now) }
    {
        let moved = SmallVec::from_slice(alloc, &self.moved)?;
        Ok(Perm { moved })
    }

    /// Equal permutations are one value: a law, and nothing is done.
    pub fn equal_ones_are_one(&self, other: &Perm)
        ensures { IsSamePerm self.now other.now → self.now ≡ other.now }
    {
        let _own = &self.moved;
        let _other = &other.moved;
    }
}
