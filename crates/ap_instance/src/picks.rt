//! The terms that are picked for the variables of an answer.

ghost use Rattle.std.specs.Prelude.{◌≡◌, if◌then◌else◌, IfOk, OnOk, length, map};
ghost use Rattle.ap_defs.specs.Answers.{typed_var_of};
ghost use Rattle.ap_defs.specs.Freshness.{var_eq};
ghost use Rattle.ap_defs.specs.Terms.{NominalTerm, term_of, unit};
ghost use Rattle.ap_defs.specs.Types.{constructor_of};
ghost use Rattle.ap_defs.specs.declared.terms.Var.{Var};
ghost use Rattle.ap_ground.specs.TypedGroundings.{HaveInhabitants};
ghost use Rattle.ap_instance.specs.Tables.{IsTableOf, term_beside};
ghost use Rattle.ap_picks.specs.Pickers.{IsPicker};
ghost use Rattle.ap_property.specs.Stated.{picks_from};

use ap_defs::copies::copy_term;
use ap_defs::memory::Memory;
use ap_defs::terms::{Term, Ty, Var};
use ap_picks::Picker;
use indexmap::IndexSet;
use std::alloc::Global;

/// Variables, each with a term at the same place.
#[derive(Drop)]
pub struct Picks {
    pub vars: IndexSet<Var>,
    pub terms: Vec<Term>,
}

impl Picks {
    /// A copy of the variable's term, and unit for others.
    pub fn of(&self, alloc: Global, x: Var) -> Result<Term, Memory>
        ensures { IfOk result (λ t. term_of t
            ≡ term_beside self.now.vars.keys self.now.terms.items (λ y. unit) x) }
    {
        let Some(place) = self.vars.get_index_of(&x) else {
            return Ok(Term::Unit);
        };
        let Some(term) = self.terms.get(place) else {
            return Ok(Term::Unit);
        };
        copy_term(alloc, term)
    }

    /// A variable gets a term, unless it has one.
    #[tactic(auto, using(crate::proofs::TableLemmas::added_last, crate::proofs::TableLemmas::added_none))]
    pub fn add(&mut self, x: Var, term: Term) -> Result<(), Memory>
        requires { length self.old.vars.keys ≡ length self.old.terms.items }
        ensures as_many { OnOk result (length self.new.vars.keys ≡ length self.new.terms.items) }
        ensures added { OnOk result ((other : Var → NominalTerm) (y : Var) →
            term_beside self.new.vars.keys self.new.terms.items other y
            ≡ term_beside self.old.vars.keys self.old.terms.items
            (λ z. if var_eq x z then term_of term else other z) y) }
    {
        let (_place, is_new) = self.vars.insert_full(x)?;
        if is_new {
            self.terms.push(term)?;
        }
        Ok(())
    }
}

/// Picks a term for each of the typed variables, in order. The first new name has the number `first`, if `sorts`
/// is empty.
pub fn picks_of(
    alloc: Global,
    picker: &Picker<'_>,
    first: u64,
    vars: &[(Var, Ty)],
    sorts: &mut Vec<u32>,
) -> Result<Picks, Memory>
    requires picker { IsPicker picker.now }
    requires inhabited { HaveInhabitants (map constructor_of picker.now.constructors.now)
        (map typed_var_of vars.now) }
    ensures terms { IfOk result (λ p. IsTableOf p (picks_from (map constructor_of
        picker.now.constructors.now) first (map typed_var_of vars.now) sorts.old.items).0) }
    ensures sorts { OnOk result (sorts.new.items
        ≡ (picks_from (map constructor_of picker.now.constructors.now) first
        (map typed_var_of vars.now) sorts.old.items).1) }
{
    let mut picks = Picks {
        vars: IndexSet::new(alloc),
        terms: Vec::new(alloc),
    };
    let mut rest = vars;
    'picking: while let Some(((x, ty), others)) = rest.split_first() {
        let term = picker.pick(alloc, first, ty, sorts)?;
        picks.add(*x, term)?;
        rest = others;
    }
    Ok(picks)
}
