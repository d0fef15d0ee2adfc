//! The store as a lookup of bindings.

use crate::store::Store;
use ap_defs::terms::Var;
use ap_perm::closures::Lent;
use ap_perm::look::Look;

impl Look for Store<'_> {
    ghost use Rattle.ap_store.specs.Views.{rank, raw_bound};

    ghost bound = { raw_bound };

    ghost rank = { rank };

    ghost ranked = { λ s. s.ranked };

    fn look(&self, v: Var) -> Option<Lent<'_, '_>> {
        self.binding(v)
    }
}
