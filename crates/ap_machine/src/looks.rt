//! What was seen of the variables that were brought.

ghost use Rattle.std.specs.Prelude.{◌≡◌, ◌+◌, ◌-◌, ◌<◌, ◌≤◌, ◌||◌, [], IfOk, List as list, length, nat_lt, take};
ghost use Rattle.ap_store.specs.Triples.{Triple};
ghost use Rattle.ap_store.specs.Views.{past, versions};
ghost use Rattle.ap_machine.specs.Looks.{HasLooked};
ghost use Rattle.ap_machine.specs.declared.brought.Brought.{Brought as ranges};

use crate::brought::Brought;
use crate::unbound::unbound_of;
use ap_defs::memory::Memory;
use ap_defs::terms::Var;
use ap_store::store::Store;
use std::alloc::Global;

// So few ranges, or variables, are looked at by each answer.
const FEW: usize = 32;

/// What was seen when the variables that were brought were looked at: when the store had its version at `place`, these
/// variables of the first ranges, so many, were unbound. The others are bound until the search goes back before that
/// version, so that an answer need not look at them again.
#[derive(Drop)]
pub struct Look {
    pub place: usize,
    pub looked: usize,
    pub unbound: Vec<Var>,
}

impl Look {
    /// Nothing was looked at. It takes no memory.
    pub fn new(alloc: Global) -> Look
        ensures place { result.place ≡ 0 }
        ensures looked { result.looked ≡ 0 }
        ensures unbound { result.unbound.items ≡ [] }
    {
        Look {
            place: 0,
            looked: 0,
            unbound: Vec::new(alloc),
        }
    }

    /// Forgets what was seen, unless it was seen at a version up to this place, and of no more than so many ranges. It
    /// takes no memory.
    pub fn go_back(&mut self, place: usize, brought: usize)
        ensures { (vs : list Triple) (bs : list ranges) → HasLooked vs bs self.old
            → place < length vs → brought ≤ length bs
            → HasLooked (take (place + 1) vs) (take brought bs) self.new }
    {
        if self.place > place || self.looked > brought {
            self.place = 0;
            self.looked = 0;
            self.unbound.truncate(0);
        }
    }

    /// Whether an answer looks at many ranges or variables.
    pub fn is_long(&self, brought: usize) -> bool
        ensures { result ≡ (nat_lt 32 (length self.now.unbound.items)
            || nat_lt 32 (brought - self.now.looked)) }
    {
        self.unbound.len() > FEW || brought.saturating_sub(self.looked) > FEW
    }

    /// What is seen now. What was bound before is not looked at again.
    pub fn again(
        &self,
        alloc: Global,
        store: &Store<'_>,
        brought: &[Brought<'_>],
    ) -> Result<Look, Memory>
        requires { HasLooked (versions store.now) brought.now self.now }
        ensures looked { IfOk result (λ l. HasLooked (versions store.now) brought.now l) }
        ensures now { IfOk result (λ l. (l.place ≡ length (past store.now))
            × (l.looked ≡ length brought.now)) }
    {
        let unbound = unbound_of(alloc, store, self, brought)?;
        Ok(Look {
            place: store.mark().place,
            looked: brought.len(),
            unbound,
        })
    }
}
