//! Terms whose way down to what is last is turned round: each part on it has what is above it in place of what is below.
//!
//! Who makes a term from the outside in needs no memory beside it so: what it takes is that of the term, and where a
//! tree is let go meanwhile, each part takes what was let go just before.

ghost use Rattle.std.specs.Prelude.{◌≡◌, ◌<◌, true, false, IfOk};
ghost use Rattle.ap_defs.specs.RawTerms.{raw_of, app, pair};
ghost use Rattle.ap_spines.specs.Turned.{turned_back, part_count};

use crate::raw_pair;
use ap_defs::memory::Memory;
use ap_defs::terms::{Raw, Under};
use std::alloc::Global;
use std::mem;

/// What is above the tail of a list cell, by what is above the cell and by its head.
pub fn above_tail(alloc: Global, above: Raw, head: Raw) -> Result<Raw, Memory>
    ensures { IfOk result (λ a. raw_of a ≡ pair (raw_of head) (app 1 (raw_of above))) }
{
    let cell = Raw::App(1, Box::new(alloc, above)?);
    raw_pair(alloc, head, cell)
}

/// Goes back up from the last part of a term, and answers whether there was something above it.
pub fn go_up(above: &mut Raw, t: &mut Raw) -> bool
    ensures up { result ≡ true → turned_back (raw_of above.new) (raw_of t.new)
        ≡ turned_back (raw_of above.old) (raw_of t.old) }
    ensures smaller { result ≡ true →
        part_count (raw_of above.new) < part_count (raw_of above.old) }
    ensures top { result ≡ false →
        raw_of t.new ≡ turned_back (raw_of above.old) (raw_of t.old) }
{
    match &mut *above {
        Raw::Unit | Raw::Name(_) | Raw::Var(_) => return false,
        Raw::Pair(_, last) => mem::swap(&mut **last, t),
        Raw::App(_, last) => mem::swap(&mut **last, t),
        Raw::Under(under) => match &mut **under {
            Under::Abs(_, last) => mem::swap(last, t),
            Under::Swapped(_, last) => mem::swap(last, t),
        },
    }
    mem::swap(t, above);
    true
}

/// The term with this last part, by what is above it. It takes no memory.
pub fn turn_back(top: Raw, last: Raw) -> Raw
    ensures { raw_of result ≡ turned_back (raw_of top) (raw_of last) }
{
    let mut above = top;
    let mut made = last;
    'up: while go_up(&mut above, &mut made) {}
    made
}
