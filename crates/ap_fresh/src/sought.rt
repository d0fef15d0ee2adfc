//! Names that a look has sought in variables.

ghost use Rattle.std.specs.Prelude.{◌≡◌, ◌⊎◌, true, IfOk, OnOk, IsErrOf};
ghost use Rattle.ap_defs.specs.declared.terms.Cond.{Cond as condition};
ghost use Rattle.ap_fresh.specs.Sought.{cond_key, was_sought};

use crate::error::FreshError;
use ap_defs::terms::Cond;
use std::alloc::Global;
use std::collections::BTreeSet;

/// A look that goes through no more variables than this keeps none.
const FEW: u64 = 64;

/// The names that a look has sought in variables, as conditions on these. One is kept where more variables were gone
/// through than there are numbers between the least and the greatest of theirs, so that one was gone through twice.
#[derive(Drop)]
pub(crate) struct Sought {
    /// The variable of each name that is kept, and the name's sort and number.
    pub pairs: BTreeSet<(u64, (u32, u64))>,
    /// How many variables were gone through, each as often as it was.
    pub count: u64,
    /// The least number of such a variable.
    pub least: u64,
    /// The greatest one.
    pub greatest: u64,
}

impl Sought {
    ghost use Rattle.std.specs.Prelude.{◌≡◌, false};
    ghost use Rattle.ap_defs.specs.declared.terms.Cond.{Cond as condition};
    ghost use Rattle.ap_fresh.specs.Sought.{was_sought};

    /// Nothing was sought. It takes no memory.
    pub fn new(alloc: Global) -> Sought
        ensures { (c : condition) → was_sought result c ≡ false }
    {
        Sought {
            pairs: BTreeSet::new(alloc),
            count: 0,
            least: u64::MAX,
            greatest: 0,
        }
    }
}

/// A name in a variable as it is kept.
fn key_of(c: &Cond) -> (u64, (u32, u64))
    ensures { result ≡ cond_key c.now }
{
    (c.var.num, (c.name.sort, c.name.num))
}

/// Seeks a name in a variable. The answer is whether it was sought there before, as far as this is kept.
pub(crate) fn seek(sought: &mut Sought, c: &Cond) -> Result<bool, FreshError>
    ensures before { IfOk result (λ before. before ≡ was_sought sought.old c.now) }
    ensures sought { OnOk result ((d : condition) → was_sought sought.new d ≡ true →
        (was_sought sought.old d ≡ true) ⊎ (d ≡ c.now)) }
    ensures kept { OnOk result ((d : condition) → was_sought sought.old d ≡ true →
        was_sought sought.new d ≡ true) }
    ensures memory { IsErrOf result FreshError.Refuted → ⊥ }
{
    sought.count = sought.count.saturating_add(1);
    sought.least = sought.least.min(c.var.num);
    sought.greatest = sought.greatest.max(c.var.num);
    let numbers = sought.greatest.saturating_sub(sought.least);
    if sought.count > numbers.saturating_add(FEW) {
        let is_new = sought.pairs.insert(key_of(c))?;
        Ok(!is_new)
    } else {
        Ok(sought.pairs.contains(&key_of(c)))
    }
}
