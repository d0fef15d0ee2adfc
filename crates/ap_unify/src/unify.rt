//! Unification of lists of terms.

ghost use Rattle.std.specs.Prelude.{◌≡◌, ◌&&◌, false, true, IfOk, OnErr, length};
ghost use Rattle.ap_defs.specs.Groundings.{Grounding};
ghost use Rattle.ap_defs.specs.Renaming.{AreBelow};
ghost use Rattle.ap_defs.specs.Unification.{unify as unify_lem};
ghost use Rattle.ap_store.specs.Triples.{IsPrefixOf};
ghost use Rattle.ap_store.specs.Views.{IsUnchanged, bindings_of, kinds, present, versions};
ghost use Rattle.ap_unify.specs.Lists.{renamed_terms_in};
ghost use Rattle.ap_unify.specs.Unified.{IsResult, is_of, solves};

use crate::finish::finish;
use crate::runs::run_places;
use crate::terms::Terms;
use ap_defs::memory::Memory;
use ap_rules::pairs::Work;
use ap_store::store::Store;
use std::alloc::Global;

/// Unification that may leave bindings behind where there is no solution.
fn unify_forward<'a>(
    alloc: Global,
    store: &mut Store<'a>,
    work: &mut Work<'a>,
    left: Terms<'a>,
    right: Terms<'a>,
) -> Result<bool, Memory>
    requires lengths { length left.terms.now ≡ length right.terms.now }
    requires left { AreBelow left.end (renamed_terms_in left) }
    requires right { AreBelow right.end (renamed_terms_in right) }
    requires left_made { AreBelow (present store.old).next (renamed_terms_in left) }
    requires right_made { AreBelow (present store.old).next (renamed_terms_in right) }
    ensures defined { IfOk result (λ solved. IsResult (unify_lem (bindings_of store.old)
        (present store.old).conditions (renamed_terms_in left.entry) (renamed_terms_in right.entry))
        (present store.old) solved (present store.new)) }
    ensures past { IsPrefixOf (versions store.old) (versions store.new) }
    ensures kinds { kinds store.new ≡ kinds store.old }
{
    work.clear();
    if !run_places(alloc, store, work, left, right)? {
        return Ok(false);
    }
    finish(alloc, store, work)
}

/// Makes the terms at each place of two lists equal, by the most general bindings and conditions
/// (Urban, Pitts and Gabbay, "Nominal Unification").
///
/// It answers true where there are such, and then the store has them. It answers false exactly
/// where there are none. Then, and after want of memory, the store is as before. What `work` has is
/// forgotten, and its memory used.
pub fn unify<'a>(
    alloc: Global,
    store: &mut Store<'a>,
    work: &mut Work<'a>,
    left: Terms<'a>,
    right: Terms<'a>,
) -> Result<bool, Memory>
    requires lengths { length left.terms.now ≡ length right.terms.now }
    requires left { AreBelow left.end (renamed_terms_in left) }
    requires right { AreBelow right.end (renamed_terms_in right) }
    requires left_made { AreBelow (present store.old).next (renamed_terms_in left) }
    requires right_made { AreBelow (present store.old).next (renamed_terms_in right) }
    // The answer and the bindings, conditions and next number are those of the rules.
    ensures defined { IfOk result (λ solved. IsResult (unify_lem (bindings_of store.old)
        (present store.old).conditions (renamed_terms_in left.entry) (renamed_terms_in right.entry))
        (present store.old) solved (present store.new)) }
    // The groundings of the new bindings and conditions are those of the old ones that make the two sides at each place equal.
    ensures instances { IfOk result (λ solved. (g : Grounding) →
        solves g (present store.old) (renamed_terms_in left.entry) (renamed_terms_in right.entry)
        ≡ (solved && is_of g (present store.new))) }
    ensures past { IsPrefixOf (versions store.old) (versions store.new) }
    ensures kinds { kinds store.new ≡ kinds store.old }
    ensures failed { IfOk result (λ solved. solved ≡ false → IsUnchanged store.old store.new) }
    ensures unchanged { OnErr result (IsUnchanged store.old store.new) }
{
    let start = store.mark();
    match unify_forward(alloc, store, work, left, right) {
        Ok(true) => Ok(true),
        Ok(false) => {
            store.undo_to(start);
            Ok(false)
        }
        Err(refusal) => {
            store.undo_to(start);
            Err(refusal)
        }
    }
}
