//! Single words with their numbers: binders, names, variables and constructors.
ghost use Rattle.std.specs.Prelude.{◌≡◌, ◌<◌, IfOk, OnOk, IfSome};
ghost use Rattle.ap_defs.specs.RawTerms.{raw_of};
ghost use Rattle.ap_defs.specs.Limits.{size_limit};
ghost use Rattle.ap_trees.specs.Trees.{name_of_binder};
ghost use Rattle.ap_scopes.specs.Resolution as spec;
ghost use Rattle.ap_scopes.specs.Declarations.{constructor_place};
ghost use Rattle.ap_scopes.specs.Views.{IsIndexed, IsSmall, IsNumbered, declared_of, found_of, scope_of};

use crate::declarations::Declarations;
use crate::identifiers::{Brought, Identifiers};
use ap_defs::memory::Memory;
use ap_defs::terms::{Id, Name, Raw, Var};
use ap_trees::Binder;
use std::alloc::Global;

/// A binder, or a place of a swapping.
pub(crate) fn binder<'a>(
    scope: &Brought<'_, 'a>,
    spelling: Binder<'a>,
    found: &mut Identifiers<'a>,
) -> Result<Id, Memory>
    requires { IsNumbered found.old }
    ensures value { IfOk result (λ i. (i, found_of found.new)
        ≡ spec.binder (scope_of scope.now) (name_of_binder spelling.entry) (found_of found.old)) }
    ensures numbered { OnOk result (IsNumbered found.new) }
{
    let num = found.number(scope, spelling)?;
    match spelling {
        Binder::Word(_) => Ok(Id::Name(Name { sort: 0, num })),
        Binder::Var(_) => Ok(Id::Var(Var { num })),
    }
}

/// A name or variable as a term.
pub(crate) fn identifier<'a>(
    scope: &Brought<'_, 'a>,
    spelling: Binder<'a>,
    found: &mut Identifiers<'a>,
) -> Result<Raw, Memory>
    requires { IsNumbered found.old }
    ensures value { IfOk result (λ t. (raw_of t, found_of found.new)
        ≡ spec.identifier (scope_of scope.now) (name_of_binder spelling.entry)
        (found_of found.old)) }
    ensures numbered { OnOk result (IsNumbered found.new) }
{
    let num = found.number(scope, spelling)?;
    match spelling {
        Binder::Word(_) => Ok(Raw::Name(Name { sort: 0, num })),
        Binder::Var(_) => Ok(Raw::Var(Var { num })),
    }
}

/// The number of the constructor at a place.
pub(crate) fn constructor_number(place: Option<usize>) -> u32
    requires { IfSome place (λ i. i < size_limit) }
    ensures { result ≡ spec.constructor_number place }
{
    match place {
        Some(place) => place as u32 + 2,
        None => 0,
    }
}

/// A word without parentheses.
pub(crate) fn word_alone<'a>(
    alloc: Global,
    declared: &Declarations<'_>,
    scope: &Brought<'_, 'a>,
    word: &'a str,
    found: &mut Identifiers<'a>,
) -> Result<Raw, Memory>
    requires indexed { IsIndexed declared.now }
    requires small { IsSmall declared.now }
    requires numbered { IsNumbered found.old }
    ensures value { IfOk result (λ t. (raw_of t, found_of found.new)
        ≡ spec.word_alone (scope_of scope.now) word.entry.now (constructor_place
        (declared_of declared.now) word.entry.now) (found_of found.old)) }
    ensures numbered { OnOk result (IsNumbered found.new) }
{
    match declared.constructor_place(word) {
        Some(place) => Ok(Raw::App(place as u32 + 2, Box::new(alloc, Raw::Unit)?)),
        None => identifier(scope, Binder::Word(word), found),
    }
}
