//! Paths whose type says that they are in a tree.

ghost use Rattle.std.specs.Prelude.{◌≡◌, ℕ, Option, List as list, [], ◌∷◌, ◌++◌, IfOk};
ghost use Rattle.ap_paths.specs.Trees.{IsChoice, InChoiceTree};

use ap_defs::memory::Memory;
use ap_defs::paths::Path;
use std::alloc::Global;
use std::marker::{Brand, Model, PhantomData};

/// Which tree it is, by the number of choices at each path. It has no value: a call that makes
/// deques picks it, by passing `Brand`.
pub trait Shape {
    ghost choices: { list ℕ → Option ℕ };
}

impl Shape for Brand {
    ghost use Rattle.std.specs.Prelude.{None};

    ghost choices = { λ p. None };
}

/// A path of the tree of this shape. Contracts see it as the list of its choices.
#[derive(Drop)]
pub struct Placed<W: Shape> {
    path: Path,
    of: PhantomData<W>,
}

impl<W: Shape> Model for Placed<W> {
    ghost use Rattle.std.specs.Prelude.{List as list, ℕ};
    ghost use Rattle.ap_paths.specs.Trees.{InChoiceTree};

    ghost Value = { list ℕ };

    ghost view = { λ p. p.path };

    ghost invariant = { λ p. InChoiceTree W.choices p.path };
}

impl<W: Shape> Placed<W> {
    /// The path, which is known to be in the tree.
    pub fn new(path: Path) -> Placed<W>
        requires { InChoiceTree W.choices path }
        ensures { result ≡ path }
    {
        Placed {
            path,
            of: PhantomData,
        }
    }

    /// The empty path, which is in each tree. It takes no memory.
    pub fn root(alloc: Global) -> Placed<W>
        ensures { result ≡ [] }
    {
        Placed::new(Path::root(alloc))
    }

    /// The path that goes on from this one by the choice `k`. The only error is want of memory.
    pub fn child(&self, alloc: Global, k: u32) -> Result<Placed<W>, Memory>
        requires { IsChoice (W.choices self.now) k }
        ensures { IfOk result (λ p. p ≡ self.now ++ k ∷ []) }
    {
        let path = self.path.child(alloc, k)?;
        Ok(Placed::new(path))
    }

    /// The path itself. It is in the tree.
    pub fn path(&self) -> &Path
        ensures same { result.now ≡ self.now }
        ensures there { InChoiceTree W.choices result.now }
    {
        &self.path
    }
}
