//! Variables that a look has gone through.

ghost use Rattle.std.specs.Prelude.{◌≡◌, ◌⊎◌, ℕ, true, OnOk};
ghost use Rattle.ap_store.specs.Passed.{is_mark_at};

use ap_defs::memory::Memory;
use ap_defs::terms::Var;
use std::alloc::Global;

/// A look that goes through no more variables marks none.
const FEW: usize = 64;

/// So many places of marks are made in the time in which a variable is gone through.
const PLACES: usize = 32;

/// Marks of variables that a look has gone through, once these are many, and how many they are.
#[derive(Drop)]
pub struct Passed {
    pub marks: Vec<bool>,
    pub count: usize,
}

impl Passed {
    ghost use Rattle.std.specs.Prelude.{◌≡◌, []};

    /// Nothing was gone through. It takes no memory.
    pub fn new(alloc: Global) -> Passed
        ensures { result.marks.items ≡ [] }
    {
        Passed {
            marks: Vec::new(alloc),
            count: 0,
        }
    }
}

/// Whether a variable is marked.
pub fn is_passed(passed: &Passed, x: Var) -> bool
    ensures { result ≡ is_mark_at passed.now.marks.items x.num }
{
    if x.num < passed.marks.len() as u64 {
        passed.marks[x.num as usize]
    } else {
        false
    }
}

/// Makes places for marks of the numbers below an end, once so many variables were gone through that this takes no
/// longer. Nothing is marked in new ones.
fn make_places(alloc: Global, passed: &mut Passed, end: usize) -> Result<(), Memory>
    ensures { OnOk result ((i : ℕ) → is_mark_at passed.new.marks.items i ≡ true →
        is_mark_at passed.old.marks.items i ≡ true) }
{
    if passed.marks.len() > 0 || passed.count < FEW || passed.count < end / PLACES {
        return Ok(());
    }
    passed.marks = vec![in alloc; false; end]?;
    Ok(())
}

/// Marks a number that has a place.
fn put_mark(marks: &mut Vec<bool>, num: u64)
    ensures { (i : ℕ) → is_mark_at marks.new.items i ≡ true →
        (is_mark_at marks.old.items i ≡ true) ⊎ (i ≡ num) }
{
    if num < marks.len() as u64 {
        marks[num as usize] = true;
    }
}

/// A variable is gone through, whose number is below an end.
pub fn pass(alloc: Global, passed: &mut Passed, end: u64, x: Var) -> Result<(), Memory>
    ensures { OnOk result ((i : ℕ) → is_mark_at passed.new.marks.items i ≡ true →
        (is_mark_at passed.old.marks.items i ≡ true) ⊎ (i ≡ x.num)) }
{
    passed.count = passed.count.saturating_add(1);
    make_places(alloc, passed, end as usize)?;
    put_mark(&mut passed.marks, x.num);
    Ok(())
}
