//! Where the keys of a stack stand last.

ghost use Rattle.std.specs.Prelude.{◌≡◌, ◌++◌, [], ◌∷◌, List as list, length, OnOk};
ghost use Rattle.ap_judge.specs.Latest.{IsLatest, Key, last_place};

use ap_defs::memory::Memory;
use std::alloc::Global;
use std::collections::BTreeMap;

/// For each key of a stack the place where it stands last, which is found in time in proportion to the
/// logarithm of their number.
#[derive(Drop)]
pub(crate) struct Latest {
    pub places: BTreeMap<(u64, (u32, u64)), usize>,
    /// For each that stands there, its last place before it was put.
    pub before: Vec<Option<usize>>,
}

impl Latest {
    /// Those of an empty stack.
    pub(crate) fn new(alloc: Global) -> Latest
        ensures { IsLatest [] result }
    {
        Latest {
            places: BTreeMap::new(alloc),
            before: Vec::new(alloc),
        }
    }

    /// A key is put on the stack, at this place.
    pub(crate) fn push(&mut self, key: (u64, (u32, u64)), place: usize) -> Result<(), Memory>
        ensures { OnOk result ((keys : list Key) → place ≡ length keys → IsLatest keys self.old →
            IsLatest (keys ++ key ∷ []) self.new) }
    {
        let before = self.places.insert(key, place)?;
        self.before.push(before)?;
        Ok(())
    }

    /// The last key is taken from the stack.
    pub(crate) fn pop(&mut self, key: (u64, (u32, u64))) -> Result<(), Memory>
        ensures { OnOk result ((keys : list Key) → IsLatest (keys ++ key ∷ []) self.old →
            IsLatest keys self.new) }
    {
        let Some(before) = self.before.pop() else {
            return Ok(());
        };
        match before {
            Some(place) => {
                self.places.insert(key, place)?;
            }
            None => {
                self.places.remove(&key);
            }
        }
        Ok(())
    }

    /// Where a key stands last.
    pub(crate) fn place(&self, key: (u64, (u32, u64))) -> Option<usize>
        ensures { (keys : list Key) → IsLatest keys self.now → result ≡ last_place keys key }
    {
        self.places.get(&key).copied()
    }
}
