//! Among how many a search chooses.

ghost use Rattle.std.specs.Prelude.{◌≡◌, ℕ, false, true, None, Some, MatchOption};
ghost use Rattle.ap_defs.specs.Goals.{Clauses, program_in};
ghost use Rattle.ap_machine.specs.Below.{AreClausesBelow};
ghost use Rattle.ap_turns.specs.Marks.{choice_of, choice_of_goal};
ghost use Rattle.ap_machine.specs.Machines.{position_of};
ghost use Rattle.ap_machine.specs.Views.{waiting_of};

use ap_defs::goals::Goal;
use ap_index::predicate::Predicate;
use ap_machine::frames::Frame;
use ap_machine::machine::Machine;
use ap_turns::clauses::clauses_at;

/// Among how many the goal of a frame chooses, if it chooses.
fn choice_of_frame<'a>(clauses: &'a [Predicate<'a>], frame: &Frame<'a>) -> Option<u32>
    requires { AreClausesBelow (program_in clauses.now) }
    ensures { MatchOption result (choice_of_goal (program_in clauses.now) frame.now.depth
        (waiting_of frame.now).goal ≡ None) (λ w. choice_of_goal (program_in clauses.now)
        frame.now.depth (waiting_of frame.now).goal ≡ Some w) }
{
    match frame.goal {
        Goal::Atom(pred, _) => {
            if frame.depth == 0 {
                None
            } else {
                Some(clauses_at(clauses, *pred).len() as u32)
            }
        }
        Goal::Either(_, _) => Some(2),
        Goal::True => None,
        Goal::Equal(_, _) => None,
        Goal::Fresh(_, _) => None,
        Goal::Both(_, _) => None,
        Goal::Exists(_, _) => None,
        Goal::New(_, _) => None,
    }
}

/// Whether the goal of a frame chooses.
pub fn is_choosing(frame: &Frame<'_>) -> bool
    ensures choosing { result ≡ true → (program : Clauses) → (w : ℕ)
        × (choice_of_goal program frame.now.depth (waiting_of frame.now).goal ≡ Some w) }
    ensures settled { result ≡ false → (program : Clauses) →
        choice_of_goal program frame.now.depth (waiting_of frame.now).goal ≡ None }
{
    match frame.goal {
        Goal::Atom(_, _) => frame.depth > 0,
        Goal::Either(_, _) => true,
        Goal::True => false,
        Goal::Equal(_, _) => false,
        Goal::Fresh(_, _) => false,
        Goal::Both(_, _) => false,
        Goal::Exists(_, _) => false,
        Goal::New(_, _) => false,
    }
}

/// Among how many the first goal that waits chooses, if it chooses.
pub fn choice_at<'a>(clauses: &'a [Predicate<'a>], machine: &Machine<'a>) -> Option<u32>
    requires { AreClausesBelow (program_in clauses.now) }
    ensures { MatchOption result (choice_of (program_in clauses.now)
        (position_of machine.now).waiting ≡ None) (λ w. choice_of (program_in clauses.now)
        (position_of machine.now).waiting ≡ Some w) }
{
    match machine.goals.peek() {
        None => None,
        Some(frame) => choice_of_frame(clauses, &frame),
    }
}
