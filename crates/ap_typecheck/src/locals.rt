//! The identifiers of a clause or query with their kinds.
ghost use Rattle.std.specs.Prelude.{◌≡◌, IfOk, map};
ghost use Rattle.ap_defs.specs.Types.{kind_of, local_of, locals_of};
ghost use Rattle.ap_trees.specs.Trees.{name_of_binder};
ghost use Rattle.ap_scopes.specs.Views.{identifier_of};
ghost use Rattle.ap_typecheck.specs.Checking as spec;
ghost use Rattle.ap_typecheck.specs.Declaring as made;

use crate::spellings::Spellings;
use ap_defs::goals::{Kind, Local};
use ap_defs::lists::List;
use ap_defs::memory::Memory;
use ap_kinds::IdentKind;
use ap_scopes::identifiers::Identifier;
use ap_trees::Binder;
use std::alloc::Global;

/// Whether it is a name or a variable.
fn class_of(spelling: Binder<'_>) -> IdentKind
    ensures { result ≡ spec.class_of (name_of_binder spelling.entry) }
{
    match spelling {
        Binder::Word(_) => IdentKind::Name,
        Binder::Var(_) => IdentKind::Var,
    }
}

/// Which identifiers are names, and which are variables.
pub fn classes_of(alloc: Global, found: &[Identifier<'_>]) -> Result<Vec<IdentKind>, Memory>
    ensures { IfOk result (λ v. v.items ≡ spec.classes_of (map identifier_of found.now)) }
{
    let mut classes = Vec::with_capacity(alloc, found.len())?;
    for identifier in found {
        classes.push(class_of(identifier.spelling))?;
    }
    Ok(classes)
}

/// An identifier with its kind. Those that are spelled alike share their text.
fn local(
    alloc: Global,
    spellings: &mut Spellings,
    identifier: &Identifier<'_>,
    kind: Kind,
) -> Result<Local, Memory>
    ensures { IfOk result (λ l. local_of l
        ≡ made.with_kind (identifier_of identifier.now) (kind_of kind)) }
{
    let word = match identifier.spelling {
        Binder::Word(word) => word,
        Binder::Var(word) => word,
    };
    Ok(Local {
        kind,
        bound: identifier.bound,
        text: spellings.text_of(alloc, word)?,
    })
}

/// Identifiers with their kinds.
#[tactic(auto, using(crate::proofs::Sorted::with_kinds_none, std::proofs::lemmas::Grind::common_steps))]
pub fn with_kinds(
    alloc: Global,
    spellings: &mut Spellings,
    found: &[Identifier<'_>],
    kinds: Vec<Kind>,
) -> Result<List<Local>, Memory>
    ensures { IfOk result (λ ls. locals_of ls
        ≡ made.with_kinds (map identifier_of found.now) (map kind_of kinds.items)) }
{
    let mut locals = Vec::with_capacity(alloc, found.len())?;
    let mut rest = kinds.into_iter();
    for identifier in found {
        let Some(kind) = rest.next() else {
            return Ok(List::of(locals));
        };
        locals.push(local(alloc, spellings, identifier, kind)?)?;
    }
    Ok(List::of(locals))
}
