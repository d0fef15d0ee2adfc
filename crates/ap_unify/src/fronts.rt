//! What stands in front of the equations that are left, and what comes after a step.

ghost use Rattle.std.specs.Prelude.{◌≡◌, ◌++◌, ℕ, List};
ghost use Rattle.ap_defs.specs.Substitution.{Binding};
ghost use Rattle.ap_defs.specs.Unification.{next};
ghost use Rattle.ap_rules.specs.Runs.{stage_under};
ghost use Rattle.ap_rules.specs.Work.{equations_left, problems_met};
ghost use Rattle.ap_rules.specs.declared.pairs.Work.{Work};
ghost use Rattle.ap_unify.specs.Parts.{AreWaitingMarksTrue, AreWayMarksTrue, IsWaitingBelow, IsWayBelow, PairReading, progress_to, waiting_equations};

use crate::parts::Ahead;
use ap_equations::plain::PlainPair;

/// An equation of two parts ahead of those that are left, and maybe one between that waits.
#[derive(Clone, Copy)]
pub struct Front<'a> {
    pub ahead: Ahead<'a>,
    pub waiting: Option<PlainPair<'a>>,
}

/// What comes after a step: false where there is no solution, true where the equations that are left come
/// next; or what is in front of them.
#[derive(Clone, Copy)]
pub enum Way {
    End(bool),
    On,
}

/// The way on once nothing is left of the equation in front: the one that waits, or those that are left.
#[inline(always)]
pub fn after_done(front: &mut Front<'_>) -> Way
    ensures way { (q : PairReading) → (s : List Binding) → (w : Work) →
        progress_to q result s front.new w ≡ next (stage_under s
        (waiting_equations q front.old.waiting ++ equations_left w) (problems_met w)) }
    ensures below { (q : PairReading) → (n : ℕ) → IsWaitingBelow q n front.old.waiting →
        IsWayBelow q n result front.new }
    ensures marks { (s : List Binding) → AreWaitingMarksTrue s front.old.waiting →
        AreWayMarksTrue s result front.new }
{
    match front.waiting {
        None => Way::End(true),
        Some(pair) => {
            front.ahead.next = pair;
            front.waiting = None;
            Way::On
        }
    }
}
