//! Keys of atoms.

ghost use Rattle.std.specs.Prelude.{map, ◌≡◌};
ghost use Rattle.ap_defs.specs.Renaming.{AreBelow, rename_term as renamed};
ghost use Rattle.ap_defs.specs.Substitution.{under};
ghost use Rattle.ap_defs.specs.Terms.{term_of};
ghost use Rattle.ap_store.specs.Views.{bindings_of, present};
ghost use Rattle.ap_defs.specs.HeadKeys.{first_key};

use ap_defs::terms::Term;
use ap_perm::closures::Closure;
use ap_store::store::Store;
use std::alloc::Global;

/// The key of what the first argument of an atom begins with under the bindings, or 0 where it has
/// none.
pub fn key_of_atom<'a>(alloc: Global, store: &Store<'a>, args: &'a [Term], base: u64) -> u64
    requires { AreBelow (present store.now).next (map (renamed base) (map term_of args.now)) }
    ensures { result
        ≡ first_key (map (under (bindings_of store.now)) (map (renamed base)
        (map term_of args.now))) }
{
    match args.first() {
        None => 0,
        Some(first) => store.head_key(&Closure::of(alloc, base, store.next(), first)),
    }
}
