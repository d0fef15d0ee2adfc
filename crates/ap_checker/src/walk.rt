//! A walk over a derivation, in preorder.

ghost use Rattle.std.specs.Prelude.{◌≡◌, [], ◌∷◌, ◌++◌, length, OnOk};
ghost use Rattle.ap_judge.specs.Tables.{IsStandingIn};
ghost use Rattle.ap_checker.specs.Tables.{IsWalkIn};
ghost use Rattle.ap_checker.specs.Walks.{pending_at};
ghost use Rattle.ap_shared.specs.declared.arena.SharedTerms.{SharedTerms as table};

use ap_defs::goals::{Goal, Local};
use ap_defs::memory::Memory;
use ap_defs::terms::Term;
use ap_judge::scope::Standing;
use ap_shared::arena::SharedTerms;
use ap_shared::derivations::SharedDerivation;

/// A derivation over a table, the goal that it is to prove, and the identifiers of the goal's item.
#[derive(Clone, Copy)]
pub(crate) struct Obligation<'a> {
    pub terms: &'a SharedTerms,
    pub derivation: &'a SharedDerivation,
    pub goal: &'a Goal<Term>,
    pub locals: &'a [Local],
}

/// A node that is yet to be looked at, and how much of what stands for identifiers stands there.
#[derive(Clone, Copy)]
pub(crate) struct Pending<'a> {
    pub obligation: Obligation<'a>,
    pub mark: usize,
}

/// What stands for identifiers, the innermost last, and the nodes that are left, the next one last.
#[derive(Drop)]
pub(crate) struct Walk<'a> {
    pub standing: Vec<Standing<'a>>,
    pub pending: Vec<Pending<'a>>,
}

impl<'a> Obligation<'a> {
    /// A node below this one, for a goal in this one's goal.
    pub(crate) fn below(
        self,
        derivation: &'a SharedDerivation,
        goal: &'a Goal<Term>,
    ) -> Obligation<'a>
        ensures { result ≡ record {
          terms = self.entry.terms;
          derivation = derivation.entry;
          goal = goal.entry;
          locals = self.entry.locals;
        } }
    {
        Obligation {
            terms: self.terms,
            derivation,
            goal,
            locals: self.locals,
        }
    }
}

impl<'a> Walk<'a> {
    /// Something stands innermost.
    #[tactic(auto, using(crate::proofs::TableLemmas::walk_brought))]
    pub(crate) fn bring(&mut self, what: Standing<'a>) -> Result<(), Memory>
        ensures standing { OnOk result (self.new.standing.items
            ≡ self.old.standing.items ++ what.entry ∷ []) }
        ensures pending { self.new.pending.items ≡ self.old.pending.items }
        ensures of { OnOk result ((ts : table) →
            IsStandingIn ts what.entry → IsWalkIn ts self.old → IsWalkIn ts self.new) }
    {
        self.standing.push(what)?;
        Ok(())
    }

    /// The node comes next, where all stands that stands now.
    #[tactic(auto, using(crate::proofs::TableLemmas::walk_put))]
    pub(crate) fn put(&mut self, obligation: Obligation<'a>) -> Result<(), Memory>
        ensures standing { self.new.standing.items ≡ self.old.standing.items }
        ensures pending { OnOk result (self.new.pending.items
            ≡ self.old.pending.items ++ pending_at obligation.entry (length self.old.standing.items)
            ∷ []) }
        ensures of { OnOk result ((ts : table) → obligation.entry.terms.now ≡ ts →
            IsWalkIn ts self.old → IsWalkIn ts self.new) }
    {
        let mark = self.standing.len();
        self.pending.push(Pending { obligation, mark })?;
        Ok(())
    }
}
