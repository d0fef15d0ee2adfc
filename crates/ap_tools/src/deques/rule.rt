//! The rule of a deque, and the names of its steps.

ghost use Rattle.std.specs.Prelude.{◌≡◌, [], ◌+◌, ◌++◌, ◌-◌};
ghost use Rattle.ap_tools.specs.Rule.{hand, Balanced, Permits, PermitsEmpty, PermitsFew, Pushed, Popped, Robbed};

use crate::deques::hand::Hand;
use crate::deques::placed::{Placed, Shape};
use crossbeam_deque::protocol::{Join, Lesson, Outcome, Protocol, Split};

/// The rule: what was pushed is what was popped, stolen and is there, each as often.
pub struct Fair;

impl<W: Shape> Protocol<Placed<W>, Hand> for Fair {
    ghost holds = { Balanced };

    ghost first = { hand 1024 [] [] [] };

    ghost guest = { hand 0 [] [] [] };
}

/// One part leaves the owner for a pass.
pub struct Cut;

impl Split<Hand> for Cut {
    ghost left = { λ v. hand (v.parts - 1) v.pushed v.popped v.stolen };

    ghost right = { λ v. hand 1 [] [] [] };
}

/// A pass comes back to the owner, with its parts and what it has stolen.
pub struct Unite;

impl Join<Hand> for Unite {
    ghost both = { λ v w. hand (v.parts + w.parts) v.pushed v.popped (v.stolen ++ w.stolen) };

    ghost spent = { hand 0 [] [] [] };
}

/// The owner pushes a path.
pub struct Puts;

impl<W: Shape> Outcome<Placed<W>, Hand> for Puts {
    ghost then = { Pushed };
}

/// The owner pops a path, or finds none.
pub struct Pops;

impl<W: Shape> Outcome<Placed<W>, Hand> for Pops {
    ghost then = { Popped };

    ghost empty = { PermitsEmpty };
}

/// The owner looks at what is there.
pub struct Looks;

impl<W: Shape> Lesson<Placed<W>, Hand> for Looks {
    ghost fact = { Permits };
}

/// A thief takes a path, or finds at most one.
pub struct Robs;

impl<W: Shape> Outcome<Placed<W>, Hand> for Robs {
    ghost then = { Robbed };

    ghost empty = { λ v. PermitsFew v.stolen };
}
