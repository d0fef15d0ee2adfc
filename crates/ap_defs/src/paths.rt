//! Paths of a search, its outputs, and what workers record of it.

ghost use Rattle.std.specs.Prelude.{◌≡◌, [], ◌∷◌, ◌++◌, IfOk};
ghost use Rattle.std.specs.Cmp.Lexicographic.{slice_cmp};
ghost use Rattle.std.specs.Ordering.{nat_cmp};
ghost use Rattle.ap_defs.specs.PathOrder.{has_prefix};

use crate::lists::List;
use crate::memory::Memory;
use crate::outcomes::Answer;
use std::alloc::Global;
use std::cmp::Ordering;
use std::marker::Model;

/// The choices from the root of a search, in order. Contracts see it as their list.
#[derive(Drop)]
pub struct Path {
    choices: Vec<u32>,
}

impl Model for Path {
    ghost use Rattle.std.specs.Prelude.{List as list, ℕ};

    ghost Value = { list ℕ };

    ghost view = { λ p. p.choices.items };
}

impl Path {
    /// The empty path. It takes no memory.
    pub fn root(alloc: Global) -> Path
        ensures { result ≡ [] }
    {
        Path {
            choices: Vec::new(alloc),
        }
    }

    /// The path of these choices.
    pub fn of(choices: Vec<u32>) -> Path
        ensures { result ≡ choices.items }
    {
        Path { choices }
    }

    /// The choices, the first one first.
    pub fn choices(&self) -> &[u32]
        ensures { result.now ≡ self.now }
    {
        self.choices.as_slice()
    }

    /// The path that goes on from this one by the choice `k`.
    pub fn child(&self, alloc: Global, k: u32) -> Result<Path, Memory>
        ensures { IfOk result (λ p. p ≡ self.now ++ k ∷ []) }
    {
        let mut choices = Vec::with_capacity(alloc, self.choices.len().saturating_add(1))?;
        choices.extend_from_slice(self.choices.as_slice())?;
        choices.push(k)?;
        Ok(Path { choices })
    }

    /// A path of the same choices.
    pub fn copy(&self, alloc: Global) -> Result<Path, Memory>
        ensures { IfOk result (λ p. p ≡ self.now) }
    {
        let mut choices = Vec::new(alloc);
        choices.extend_from_slice(self.choices.as_slice())?;
        Ok(Path { choices })
    }

    /// The order of paths: that of lists of numbers, where a beginning comes first.
    pub fn cmp(&self, other: &Path) -> Ordering
        ensures { result ≡ slice_cmp nat_cmp self.now other.now }
    {
        self.choices.as_slice().cmp(other.choices.as_slice())
    }

    /// Whether the other path begins with this one.
    pub fn is_prefix(&self, other: &Path) -> bool
        ensures { result ≡ has_prefix self.now other.now }
    {
        other.choices.starts_with(&self.choices)
    }
}

/// What a branch of the search came to, with its path.
#[derive(Drop)]
pub enum Out {
    Found(Path, Answer),
    Cut(Path),
    Stuck(Path),
}

/// What a branch stands at. A choice has its width and the choices that are worth trying.
#[derive(Drop)]
pub enum Node {
    Choice(u32, List<u32>),
    Answer,
    Cut,
    Stuck,
    Failed,
}

/// How far a search is: so many paths are open, none is, or it was stopped.
#[derive(Clone, Copy, PartialEq, Eq)]
pub enum Progress {
    Left(u64),
    Finished,
    Stopped,
}
