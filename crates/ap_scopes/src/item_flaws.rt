//! The faults that items show before they are typed.
ghost use Rattle.std.specs.Prelude.{◌≡◌};
ghost use Rattle.std.specs.Option.{option_map};
ghost use Rattle.ap_defs.specs.Types.{type_of};
ghost use Rattle.ap_trees.specs.Trees.{form_of, types_of};
ghost use Rattle.ap_scopes.specs.Flaws as spec;
ghost use Rattle.ap_scopes.specs.Views.{declared_of, IsIndexed, IsSmall};

use crate::declarations::Declarations;
use crate::flaws::least;
use crate::goal_flaws::{clause_flaw, goal_flaw};
use crate::types::{result_flaw, types_flaw};
use ap_defs::faults::TypeKind;
use ap_defs::terms::Ty;
use ap_trees::{Form, TypeTree};

/// The fault of declaring a word that stands for a type.
fn redeclared_type(found: Option<Ty>) -> Option<TypeKind>
    ensures { result ≡ spec.redeclared_if (option_map type_of found) }
{
    match found {
        Some(_) => Some(TypeKind::Redeclared),
        None => None,
    }
}

/// The fault of declaring a word that has a place.
fn redeclared_place(found: Option<usize>) -> Option<TypeKind>
    ensures { result ≡ spec.redeclared_if found }
{
    match found {
        Some(_) => Some(TypeKind::Redeclared),
        None => None,
    }
}

/// The least kind of a constructor's faults.
fn constructor_flaw(
    declared: &Declarations<'_>,
    word: &str,
    args: &[TypeTree<'_>],
    data_type: &str,
) -> Option<TypeKind>
    requires indexed { IsIndexed declared.now }
    requires small { IsSmall declared.now }
    ensures { result
        ≡ spec.constructor_flaw (declared_of declared.now) word.now (types_of args.now)
        data_type.now }
{
    let types = least(
        types_flaw(declared, args),
        result_flaw(declared.type_named(data_type)),
    );
    least(redeclared_place(declared.constructor_place(word)), types)
}

/// The least kind of a predicate's faults.
fn predicate_flaw(
    declared: &Declarations<'_>,
    word: &str,
    args: &[TypeTree<'_>],
) -> Option<TypeKind>
    requires indexed { IsIndexed declared.now }
    requires small { IsSmall declared.now }
    ensures { result ≡ spec.predicate_flaw (declared_of declared.now) word.now (types_of args.now) }
{
    least(
        redeclared_place(declared.predicate_place(word)),
        types_flaw(declared, args),
    )
}

/// The least kind of the faults that an item's words show before it is typed.
pub fn item_flaw(declared: &Declarations<'_>, form: &Form<'_>) -> Option<TypeKind>
    requires indexed { IsIndexed declared.now }
    requires small { IsSmall declared.now }
    ensures { result ≡ spec.item_flaw (declared_of declared.now) (form_of form.now) }
{
    match form {
        Form::NameType(word) => redeclared_type(declared.type_named(word)),
        Form::DataType(word) => redeclared_type(declared.type_named(word)),
        Form::Constructor(word, args, data_type) => {
            constructor_flaw(declared, word, args.items(), data_type)
        }
        Form::Predicate(word, args) => predicate_flaw(declared, word, args.items()),
        Form::Clause(word, args, body) => clause_flaw(declared, word, args.items(), body),
        Form::Query(goal) => goal_flaw(declared, goal),
    }
}
