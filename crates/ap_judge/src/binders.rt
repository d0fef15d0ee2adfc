//! Pairs of binders round two terms that are compared.

ghost use Rattle.std.specs.Prelude.{◌≡◌, ◌<◌, ◌++◌, [], ◌∷◌, length, take, OnOk};
ghost use Rattle.ap_defs.specs.declared.terms.Swap.{Swap};
ghost use Rattle.ap_judge.specs.Binders.{AreBinders, left_key as key_of_left, mean_same as mean_one, means, right_key as key_of_right};
ghost use Rattle.ap_judge.specs.Latest.{name_key};

use crate::latest::Latest;
use crate::swappings::is_same;
use ap_defs::memory::Memory;
use ap_defs::terms::{Name, Swap};
use std::alloc::Global;

/// The binders of one sort round two terms, in pairs, the innermost last, and where each name is bound last.
#[derive(Drop)]
pub(crate) struct Binders {
    pub pairs: Vec<Swap>,
    pub lefts: Latest,
    pub rights: Latest,
}

/// A name as it is sought.
fn key_of(a: Name) -> (u64, (u32, u64))
    ensures { result ≡ name_key a }
{
    (0, (a.sort, a.num))
}

/// The left binder of a pair, as it is sought.
fn left_key(s: &Swap) -> (u64, (u32, u64))
    ensures { result ≡ key_of_left s.now }
{
    (0, (s.sort, s.left))
}

/// The right binder of a pair, as it is sought.
fn right_key(s: &Swap) -> (u64, (u32, u64))
    ensures { result ≡ key_of_right s.now }
{
    (0, (s.sort, s.right))
}

/// Whether two names are bound at one place, or neither is bound and it is said that they agree.
fn agree(left: Option<usize>, right: Option<usize>, free: bool) -> bool
    ensures { result ≡ means left right free }
{
    match (left, right) {
        (Some(i), Some(j)) => i == j,
        (None, None) => free,
        _ => false,
    }
}

impl Binders {
    /// No binders.
    pub(crate) fn new(alloc: Global) -> Binders
        ensures none { result.pairs.items ≡ [] }
        ensures found { AreBinders result }
    {
        Binders {
            pairs: Vec::new(alloc),
            lefts: Latest::new(alloc),
            rights: Latest::new(alloc),
        }
    }

    /// Whether a name within the left binders means what the other does within the right ones.
    pub(crate) fn mean_same(&self, a: Name, b: Name) -> bool
        requires { AreBinders self.now }
        ensures { result ≡ mean_one self.now.pairs.items a b }
    {
        let left = self.lefts.place(key_of(a));
        let right = self.rights.place(key_of(b));
        agree(left, right, is_same(&a, &b))
    }

    /// One more pair stands innermost.
    pub(crate) fn push(&mut self, s: Swap) -> Result<(), Memory>
        requires { AreBinders self.old }
        ensures pairs { OnOk result (self.new.pairs.items ≡ self.old.pairs.items ++ s ∷ []) }
        ensures found { OnOk result (AreBinders self.new) }
    {
        let place = self.pairs.len();
        self.lefts.push(left_key(&s), place)?;
        self.rights.push(right_key(&s), place)?;
        self.pairs.push(s)?;
        Ok(())
    }

    /// The innermost pair is left.
    fn pop(&mut self) -> Result<(), Memory>
        requires some { 0 < length self.old.pairs.items }
        requires found { AreBinders self.old }
        ensures pairs { OnOk result ((s : Swap)
            × (self.old.pairs.items ≡ self.new.pairs.items ++ s ∷ [])) }
        ensures found { OnOk result (AreBinders self.new) }
    {
        if let Some(s) = self.pairs.pop() {
            self.lefts.pop(left_key(&s))?;
            self.rights.pop(right_key(&s))?;
        }
        Ok(())
    }

    /// All pairs are left but so many outermost ones.
    pub(crate) fn truncate(&mut self, len: usize) -> Result<(), Memory>
        requires { AreBinders self.old }
        ensures pairs { OnOk result (self.new.pairs.items ≡ take len self.old.pairs.items) }
        ensures found { OnOk result (AreBinders self.new) }
    {
        while self.pairs.len() > len {
            self.pop()?;
        }
        Ok(())
    }
}
