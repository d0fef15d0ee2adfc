//! Tables with a slot for each number.

ghost use Rattle.std.specs.Prelude.{◌≡◌, ℕ, ◌+◌, ◌≤◌, ◌<◌, ◌++◌, Some, IfSome, MatchOption, None, if◌then◌else◌, ◌==◌, length, map, vec_len, vec_capacity};
ghost use Rattle.ap_defs.specs.Resolution.{kinds_of};
ghost use Rattle.ap_defs.specs.Types.{locals_of};
ghost use Rattle.ap_perm.specs.Closures.{lent_term};
ghost use Rattle.ap_store.specs.Founds.{IsWhatIsFound, is_ground_found};
ghost use Rattle.ap_store.specs.Marks.{is_ground_value, ground_in};
ghost use Rattle.ap_store.specs.Slots.{AreKeptBelow, IsKeptBelow, value_term, bound_in, slot_kind};

use crate::slots::{Found, Slot, Value, found_value, lent_value};
use ap_defs::goals::Local;
use ap_perm::closures::Lent;

/// Adds a slot for each identifier, none of which is bound, where there is room.
pub fn add_slots<'a>(table: &mut Vec<Slot<'a>>, locals: &'a [Local])
    requires { vec_len table.old + length locals.now ≤ vec_capacity table.old }
    ensures kinds { map slot_kind table.new.items
        ≡ map slot_kind table.old.items ++ kinds_of (locals_of locals.now) }
    ensures bound { (i : ℕ) → bound_in table.new.items i ≡ bound_in table.old.items i }
    ensures marks { (i : ℕ) → ground_in table.new.items i ≡ ground_in table.old.items i }
    ensures length { length table.new.items ≡ length table.old.items + length locals.now }
    ensures below { (n : ℕ) → AreKeptBelow n table.old.items → AreKeptBelow n table.new.items }
{
    'adding: for local in locals {
        table.push_reserved(Slot {
            local,
            value: Value::Unbound,
        });
    }
}

/// Puts a binding in the place of what a number is bound to.
pub fn put_value<'a>(table: &mut Vec<Slot<'a>>, place: usize, value: Value<'a>)
    requires { place < length table.old.items }
    ensures kinds { map slot_kind table.new.items ≡ map slot_kind table.old.items }
    ensures bound { (i : ℕ) → bound_in table.new.items i
        ≡ (if i == place then value_term value.entry else bound_in table.old.items i) }
    ensures marks { (i : ℕ) → ground_in table.new.items i
        ≡ (if i == place then is_ground_value value.entry else ground_in table.old.items i) }
    ensures length { length table.new.items ≡ length table.old.items }
    ensures below { (n : ℕ) → IsKeptBelow n value.entry → AreKeptBelow n table.old.items →
        AreKeptBelow n table.new.items }
{
    table[place].value = value;
}

/// What a number is bound to, where this is below `end`. It takes no memory.
pub fn bound_at<'s, 'a>(table: &'s [Slot<'a>], num: u64, end: u64) -> Option<Lent<'s, 'a>>
    requires { AreKeptBelow end table.now }
    ensures { MatchOption result (bound_in table.now num ≡ None) (λ c. bound_in table.now num
        ≡ Some (lent_term c)) }
{
    if num < table.len() as u64 {
        lent_value(&table[num as usize].value, end)
    } else {
        None
    }
}

/// What a look at a number finds, where what it is bound to is below `end`. It takes no memory.
pub fn found_at<'a>(table: &[Slot<'a>], num: u64, end: u64) -> Found<'a>
    requires { AreKeptBelow end table.now }
    ensures found { IsWhatIsFound (bound_in table.now num) result }
    ensures mark { is_ground_found result ≡ ground_in table.now num }
{
    if num < table.len() as u64 {
        found_value(&table[num as usize].value, end)
    } else {
        Found::Nothing
    }
}
