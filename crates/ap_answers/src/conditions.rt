//! The conditions that are shown, in the order in which they are printed.

ghost use Rattle.std.specs.Prelude.{◌≡◌, false, IfOk, OnOk, MatchOption, filter};
ghost use Rattle.ap_defs.specs.Lines.{sort_conds, printed_before};
ghost use Rattle.ap_answers.specs.Conditions.{occurs_in, Occurs, placed_cmp};
ghost use Rattle.ap_answers.specs.VarSets.{vars_of_set};
ghost use Rattle.std.specs.BTreeMap.{insert_entry};

use crate::var_sets::VarSet;
use ap_defs::memory::Memory;
use ap_defs::terms::{Cond, Name};
use indexmap::IndexSet;
use std::alloc::Global;
use std::collections::BTreeMap;

/// Conditions, each under the place of its variable, that of its name, and a number that tells equal
/// ones apart.
type Placed = BTreeMap<(usize, usize, usize), Cond>;

/// Keeps a condition at its two places under a number that is above those so far.
fn keep(placed: &mut Placed, key: (usize, usize, usize), cond: Cond) -> Result<(), Memory>
    ensures { OnOk result (placed.new.entries
        ≡ insert_entry placed_cmp placed.old.entries key cond) }
{
    placed.insert(key, cond)?;
    Ok(())
}

/// The places of a condition's variable and of its name, if both occur.
#[tactic(auto, using(crate::proofs::VarSetLemmas::place_some, crate::proofs::VarSetLemmas::place_none), unfolding(ap_defs::specs::Permutations::name_eq))]
fn places(names: &IndexSet<Name>, vars: &VarSet, cond: &Cond) -> Option<(usize, usize)>
    ensures { MatchOption result
        (occurs_in names.now.keys (vars_of_set vars.now) cond.now ≡ false)
        (λ at. Occurs names.now.keys (vars_of_set vars.now) cond.now at.0 at.1) }
{
    let var = vars.place(cond.var)?;
    let name = names.get_index_of(&cond.name)?;
    Some((var, name))
}

/// The conditions on these variables and names, by the place of the variable, and then of the name.
pub fn shown_conditions(
    alloc: Global,
    names: &IndexSet<Name>,
    vars: &VarSet,
    conds: &[Cond],
) -> Result<Vec<Cond>, Memory>
    ensures { IfOk result (λ shown. shown.items
        ≡ sort_conds (printed_before names.now.keys (vars_of_set vars.now)) (filter
        (occurs_in names.now.keys (vars_of_set vars.now)) conds.now)) }
{
    let mut placed = BTreeMap::new(alloc);
    let mut left = conds.len();
    while left > 0 {
        left -= 1;
        let cond = conds[left];
        if let Some((var, name)) = places(names, vars, &cond) {
            keep(&mut placed, (var, name, conds.len() - left), cond)?;
        }
    }
    let shown = placed.values().copied().collect(alloc)?;
    Ok(shown)
}
