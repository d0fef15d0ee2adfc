//! What has ended in a search, by path.

ghost use Rattle.std.specs.Prelude.{◌≡◌, ◌-◌, ◌^◌, min, [], IfOk, OnOk, OnErr};
ghost use Rattle.ap_paths.specs.Ends.{ends_of};
ghost use Rattle.ap_paths.specs.Merging.{insert, found_before};

use crate::limits::answers_in_runs;
use crate::runs::Run;
use ap_defs::lists::List;
use ap_defs::memory::Memory;
use ap_defs::paths::Path;
use std::alloc::Global;
use std::collections::BTreeMap;
use std::marker::Model;

/// Paths that have ended, with their outputs, in path order. Ends of one path stand in the order in
/// which they came.
#[derive(Drop)]
pub struct Endings {
    // A number tells apart ends of one path.
    ends: BTreeMap<(Vec<u32>, usize), List<Run>>,
}

impl Model for Endings {
    ghost use Rattle.std.specs.Prelude.{ℕ, List as list, length};
    ghost use Rattle.ap_paths.specs.declared.runs.Run.{Run};

    ghost Value = { list (list ℕ × list Run) };

    ghost use Rattle.ap_paths.specs.contracts.runs.Run as r;
    ghost use Rattle.std.specs.Coded.{coded×, coded_list, coded_ℕ};

    ghost coded = { coded_list (coded× (coded_list coded_ℕ) (coded_list r.the_row.coded)) };

    ghost use Rattle.ap_paths.specs.Ends.{ends_in, AreNumbersBelow};

    ghost view = { λ a. ends_in a.ends.entries };

    ghost invariant = { λ a. AreNumbersBelow (length a.ends.entries) a.ends.entries };
}

impl Endings {
    /// No ends.
    pub fn new(alloc: Global) -> Endings
        ensures { result ≡ [] }
    {
        Endings {
            ends: BTreeMap::new(alloc),
        }
    }

    /// Adds an end in its place. It takes time in proportion to the logarithm of their number.
    pub fn put(&mut self, alloc: Global, path: &Path, outs: List<Run>) -> Result<(), Memory>
        ensures ok { OnOk result (self.new ≡ insert path.now outs self.old) }
        ensures err { OnErr result (self.new ≡ self.old) }
    {
        let mut choices = Vec::new(alloc);
        choices.extend_from_slice(path.choices())?;
        let number = self.ends.len();
        self.ends.insert((choices, number), outs)?;
        Ok(())
    }

    /// How many answers have ended with paths before this one, or the greatest count where there are
    /// more.
    pub fn answers_before(&self, path: &Path) -> u64
        ensures { result ≡ min (found_before path.now (ends_of self.now)) (2 ^ 64 - 1) }
    {
        let mut count: u64 = 0;
        for (key, outs) in self.ends.iter() {
            if key.0.as_slice().cmp(path.choices()).is_lt() {
                count = count.saturating_add(answers_in_runs(outs.items()));
            }
        }
        count
    }

    /// The paths that have ended and their outputs, in path order. The outputs are moved.
    pub fn into_vec(self, alloc: Global) -> Result<Vec<(Path, List<Run>)>, Memory>
        ensures { IfOk result (λ v. v.items ≡ self) }
    {
        let Endings { ends } = self;
        let mut all = Vec::new(alloc);
        for ((choices, _number), outs) in ends {
            all.push((Path::of(choices), outs))?;
        }
        Ok(all)
    }
}
