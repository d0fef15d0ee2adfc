//! What is kept of each number.

ghost use Rattle.std.specs.Prelude.{◌≡◌, ℕ, List as list, true, Some, None, IfOk, IfSome, MatchOption};
ghost use Rattle.ap_defs.specs.Renaming.{IsBelow, rename_term};
ghost use Rattle.ap_defs.specs.Terms.{act_term, term_of};
ghost use Rattle.ap_defs.specs.declared.terms.Swap.{Swap};
ghost use Rattle.ap_perm.specs.Closures.{closure_term, lent_term};
ghost use Rattle.ap_store.specs.Founds.{IsWhatIsFound, bare_term, is_ground_found};
ghost use Rattle.ap_store.specs.Marks.{is_ground_value};
ghost use Rattle.ap_store.specs.Slots.{IsKeptBelow, value_term};

use crate::bare::Bare;
use ap_defs::goals::Local;
use ap_defs::memory::Memory;
use ap_defs::terms::Term;
use ap_perm::closures::{Closure, Lent};
use std::alloc::Global;

/// What a number is bound to, if it is bound: mostly a term on which no swappings wait, whose
/// identifiers are numbered from a small number on, and else any closure. A ground one, which is marked so, was
/// seen to stand for a term without variables.
#[derive(Drop)]
pub enum Value<'a> {
    Unbound,
    Plain(u32, &'a Term),
    Ground(u32, &'a Term),
    Moved(Box<Closure<'a>>),
}

/// The identifier of the program that has the number, and what this is bound to.
#[derive(Drop)]
pub struct Slot<'a> {
    pub local: &'a Local,
    pub value: Value<'a>,
}

/// A binding to a term on which no swappings wait, marked where it is ground.
pub fn plain_value<'a>(base: u32, term: &'a Term, is_ground: bool) -> Value<'a>
    ensures term { value_term result ≡ Some (rename_term base (term_of term.now)) }
    ensures below { (n : ℕ) → IsBelow n (rename_term base (term_of term.now)) →
        IsKeptBelow n result }
    ensures mark { is_ground_value result ≡ is_ground }
{
    if is_ground {
        Value::Ground(base, term)
    } else {
        Value::Plain(base, term)
    }
}

/// A binding to a closure, which may stand for a term without variables.
pub fn value_of<'a>(alloc: Global, c: Closure<'a>, is_ground: bool) -> Result<Value<'a>, Memory>
    ensures term { IfOk result (λ b. value_term b ≡ Some (closure_term c.entry)) }
    ensures below { IfOk result (λ b. IsKeptBelow c.entry.end b) }
    ensures mark { IfOk result (λ b. is_ground_value b ≡ true → is_ground ≡ true) }
{
    if c.swaps.is_empty() && c.base <= u32::MAX as u64 {
        return Ok(plain_value(c.base as u32, c.term, is_ground));
    }
    let moved = Box::new(alloc, c)?;
    Ok(Value::Moved(moved))
}

/// What a look at a variable finds: nothing to which it is bound, a term on which no swappings wait, one that is
/// marked besides, or one on which some may wait.
#[derive(Clone, Copy)]
pub enum Found<'a> {
    Nothing,
    Plain(Bare<'a>),
    Ground(Bare<'a>),
    Moved(Bare<'a>),
}

/// The term of a closure, without its swappings.
fn bare_of<'a>(c: &Closure<'a>) -> Bare<'a>
    ensures { (p : list Swap) × (closure_term c.now ≡ act_term p (bare_term result)) }
{
    Bare {
        base: c.base,
        end: c.end,
        term: c.term,
    }
}

/// What a look at a binding finds; where no swappings wait on it, its numbers are below `end`. It takes no
/// memory.
pub fn found_value<'a>(b: &Value<'a>, end: u64) -> Found<'a>
    requires { IsKeptBelow end b.now }
    ensures found { IsWhatIsFound (value_term b.now) result }
    ensures mark { is_ground_found result ≡ is_ground_value b.now }
{
    match b {
        Value::Unbound => Found::Nothing,
        Value::Plain(base, term) => Found::Plain(Bare {
            base: *base as u64,
            end,
            term,
        }),
        Value::Ground(base, term) => Found::Ground(Bare {
            base: *base as u64,
            end,
            term,
        }),
        Value::Moved(closure) => Found::Moved(bare_of(closure)),
    }
}

/// The closure of a binding; where no swappings wait on it, its numbers are below `end`. It takes no
/// memory.
pub fn lent_value<'s, 'a>(b: &'s Value<'a>, end: u64) -> Option<Lent<'s, 'a>>
    requires { IsKeptBelow end b.now }
    ensures { MatchOption result (value_term b.now ≡ None) (λ c. value_term b.now
        ≡ Some (lent_term c)) }
{
    match b {
        Value::Unbound => None,
        Value::Plain(base, term) => Some(Lent {
            swaps: &[],
            base: *base as u64,
            end,
            term,
        }),
        Value::Ground(base, term) => Some(Lent {
            swaps: &[],
            base: *base as u64,
            end,
            term,
        }),
        Value::Moved(closure) => Some(closure.lent()),
    }
}
