//! The free names and variables of a query.

ghost use Rattle.std.specs.Prelude.{◌≡◌, ◌+◌, ◌++◌, [], zero, OnOk, IfOk};
ghost use Rattle.ap_program.specs.FreeLocals.{free_sort, is_free_var};
ghost use Rattle.ap_defs.specs.Types.{kind_of, local_of, locals_of};
ghost use Rattle.ap_defs.specs.Renaming.{local_names, name_unless};
ghost use Rattle.ap_defs.specs.Lines.{name_texts, var_texts};
ghost use Rattle.ap_answers.specs.Locals.{AllBelow, lent_texts};

use crate::occurrences::add_name;
use ap_defs::goals::{Kind, Local};
use ap_defs::lists::{SharedText, Text};
use ap_defs::memory::Memory;
use ap_defs::terms::Name;
use indexmap::IndexSet;
use std::alloc::Global;

/// The sort of a free name.
fn sort_of(local: &Local) -> Option<u32>
    ensures { result ≡ free_sort (local_of local.now) }
{
    match &local.kind {
        Kind::Name(sort) if !local.bound => Some(*sort),
        _ => None,
    }
}

/// Whether it is a free variable.
pub(crate) fn is_variable(local: &Local) -> bool
    ensures { result ≡ is_free_var (local_of local.now) }
{
    match &local.kind {
        Kind::Var(_) => !local.bound,
        Kind::Name(_) => false,
    }
}

/// The spellings of the free variables, in order.
pub fn variable_texts(alloc: Global, locals: &[Local]) -> Result<Vec<&Text>, Memory>
    ensures { IfOk result (λ texts. lent_texts texts.items ≡ var_texts (locals_of locals.now)) }
{
    let mut texts = Vec::new(alloc);
    for local in locals {
        if is_variable(local) {
            texts.push(local.text.text())?;
        }
    }
    Ok(texts)
}

/// The spellings of the free names, in order.
pub fn free_name_texts(alloc: Global, locals: &[Local]) -> Result<Vec<SharedText>, Memory>
    ensures { IfOk result (λ texts. texts.items ≡ name_texts (locals_of locals.now)) }
{
    let mut texts = Vec::new(alloc);
    for local in locals {
        if sort_of(local).is_some() {
            texts.push(local.text.share()?)?;
        }
    }
    Ok(texts)
}

/// Adds the identifier with this number, if it is a free name and the names so far have lower numbers.
fn add_free(names: &mut IndexSet<Name>, num: u64, local: &Local) -> Result<(), Memory>
    requires { AllBelow num names.old.keys }
    ensures names { OnOk result (names.new.keys
        ≡ names.old.keys ++ name_unless local.now.bound (kind_of local.now.kind) num []) }
    ensures below { OnOk result (AllBelow (num + 1) names.new.keys) }
{
    if let Some(sort) = sort_of(local) {
        add_name(names, Name { sort, num })?;
    }
    Ok(())
}

/// The free names, in order.
pub fn free_names(alloc: Global, locals: &[Local]) -> Result<IndexSet<Name>, Memory>
    ensures { IfOk result (λ names. names.keys ≡ local_names zero (locals_of locals.now)) }
{
    let mut names = IndexSet::new(alloc);
    for (i, local) in locals.iter().enumerate() {
        add_free(&mut names, i as u64, local)?;
    }
    Ok(names)
}
