//! Goals that were selected.

ghost use Rattle.std.specs.Prelude.{◌≡◌, ℕ, ◌+◌, ◌<◌, ◌^◌, [], ◌∷◌, if◌then◌else◌, IfOk, List as list, length, map};
ghost use Rattle.ap_defs.specs.Renaming.{local_names, local_vars, name_unless};
ghost use Rattle.ap_defs.specs.Terms.{susp};
ghost use Rattle.ap_defs.specs.Types.{kind_of, locals_of};
ghost use Rattle.ap_defs.specs.declared.terms.Name.{Name as name};
ghost use Rattle.ap_bundle.specs.Nodes.{atom};
ghost use Rattle.ap_derive.specs.Nodes.{names_with, selected_node};

use ap_defs::goals::{Kind, Local};
use ap_defs::lists::List;
use ap_defs::memory::Memory;
use ap_defs::terms::{Name, Var};
use ap_machine::renaming::vars_of_locals;
use std::alloc::Global;

/// A goal that was selected: its node in the derivation, in which variables stand for themselves,
/// without what is below it.
#[derive(Drop)]
pub enum SelectedGoal {
    /// The clause's number from 1, and its free names and variables as they were numbered.
    Atom(u32, List<Name>, List<Var>),
    Equal,
    Fresh,
    True,
    Both,
    Left,
    Right,
    Exists(Var),
    New(Name),
}

/// The sort of an identifier that is a name and isn't marked as bound.
fn free_sort(local: &Local) -> Option<u32>
    ensures { (n : ℕ) (as' : list name) →
        name_unless local.now.bound (kind_of local.now.kind) n as' ≡ names_with result n as' }
{
    match local.kind {
        Kind::Name(sort) => { if local.bound { None } else { Some(sort) } }
        Kind::Var(_) => None,
    }
}

/// The names among identifiers that are not marked as bound, the first number being `base`.
fn names_of_locals(alloc: Global, base: u64, locals: &[Local]) -> Result<Vec<Name>, Memory>
    requires { base + length locals.now < 2 ^ 64 }
    ensures { IfOk result (λ v. v.items ≡ local_names base (locals_of locals.now)) }
{
    let mut all = Vec::new(alloc);
    'choosing: for i in 0..locals.len() {
        if let Some(sort) = free_sort(&locals[i]) {
            all.push(Name {
                sort,
                num: base + i as u64,
            })?;
        }
    }
    Ok(all)
}

/// The node of an atom that was solved by the clause of this number, whose identifiers are numbered
/// from `base` on.
pub fn selected_atom(
    alloc: Global,
    number: u32,
    base: u64,
    locals: &[Local],
) -> Result<SelectedGoal, Memory>
    requires { base + length locals.now < 2 ^ 64 }
    ensures { IfOk result (λ n. selected_node n ≡ atom number
        (local_names base (locals_of locals.now))
        (map (susp []) (local_vars base (locals_of locals.now)))) }
{
    let names = names_of_locals(alloc, base, locals)?;
    let vars = vars_of_locals(alloc, base, locals)?;
    Ok(SelectedGoal::Atom(number, List::of(names), List::of(vars)))
}
