//! Lookups of what variables are bound to.

ghost use Rattle.std.specs.Prelude.{◌≡◌, ℕ, Option, Some, None, MatchOption};
ghost use Rattle.ap_defs.specs.Terms.{NominalTerm};
ghost use Rattle.ap_defs.specs.declared.terms.Var.{Var};
ghost use Rattle.ap_perm.specs.Closures.{lent_term};
ghost use Rattle.ap_perm.specs.Lookups.{IsRanked};

use crate::closures::Lent;
use ap_defs::terms::Var;

/// What variables are bound to, each bound one to a closure. No variable is reached from itself
/// through bindings, since their ranks fall.
pub trait Look {
    /// The term to which a variable is bound, if it is bound.
    ghost bound: { Self → Var → Option NominalTerm };

    /// A rank for each variable.
    ghost rank: { Self → Var → ℕ };

    /// The binding of a variable, or none where it is unbound. It takes no memory.
    fn look(&self, v: Var) -> Option<Lent<'_, '_>>
        ensures { MatchOption result (bound self.now v ≡ None) (λ c. bound self.now v ≡ Some (lent_term c)) };

    ghost ranked: { (l : Self) → IsRanked (bound l) (rank l) };
}
