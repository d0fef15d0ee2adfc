//! The swappings that wait on parts of terms, the same for all parts of a side.

ghost use Rattle.std.specs.Prelude.{◌≡◌, ◌<◌, ◌+◌, ◌-◌, ◌^◌, ◌++◌, false, IfOk, OnOk, length, min};
ghost use Rattle.ap_defs.specs.Canonical.{canonical};
ghost use Rattle.ap_defs.specs.Permutations.{act_name, inverse};
ghost use Rattle.ap_defs.specs.Renaming.{rename_name};
ghost use Rattle.ap_defs.specs.Terms.{act_term};
ghost use Rattle.ap_equations.specs.Plain.{plain_term};
ghost use Rattle.ap_perm.specs.Closures.{closure_term};
ghost use Rattle.ap_unify.specs.Moved.{waiting};

use ap_defs::memory::Memory;
use ap_defs::terms::{Name, Swap};
use ap_equations::plain::Plain;
use ap_perm::closures::Closure;
use ap_perm::joining::numbered;
use ap_perm::swappings::{canonical_list, image, preimage};
use std::alloc::Global;

/// The swappings that wait on the parts of a side: those that a closure had, the first outermost, and those that were
/// added since, the first innermost. The latter act after the former, so one that is to act after all others is put
/// behind them.
#[derive(Drop)]
pub struct Side {
    pub swaps: Vec<Swap>,
    pub added: Vec<Swap>,
}

/// The swappings that wait on the parts of the left side, and on those of the right side.
#[derive(Drop)]
pub struct Sides {
    pub left: Side,
    pub right: Side,
}

/// A closure, taken apart: the swappings that wait, and the part on which they do. It takes no memory.
pub fn apart<'a>(alloc: Global, c: Closure<'a>) -> (Side, Plain<'a>)
    ensures term { act_term (waiting result.0) (plain_term result.1) ≡ closure_term c.entry }
    ensures mark { result.1.is_ground ≡ false }
{
    let Closure {
        swaps,
        base,
        end,
        term,
    } = c;
    let side = Side {
        swaps,
        added: Vec::new(alloc),
    };
    let part = Plain {
        base,
        end,
        term,
        is_ground: false,
    };
    (side, part)
}

/// A name of a part on which swappings wait: numbered as the part is, and moved. It takes no memory.
#[tactic(auto, using(crate::proofs::SideLemmas::image_moved))]
pub fn name_within(side: &Side, p: Plain<'_>, a: Name) -> Name
    requires { p.base + a.num < p.end }
    ensures { result ≡ act_name (waiting side.now) (rename_name p.entry.base a) }
{
    // `end` fits in a u64, so the sum below it does.
    let _end = p.end;
    let moved = image(&side.swaps, numbered(p.base, a));
    preimage(&side.added, moved)
}

/// The name of which the swappings that wait on a side make `a`. It takes no memory.
#[tactic(auto, using(crate::proofs::SideLemmas::origin_moved))]
pub fn origin(side: &Side, a: Name) -> Name
    ensures { result ≡ act_name (inverse (waiting side.now)) a }
{
    let moved = image(&side.added, a);
    preimage(&side.swaps, moved)
}

/// Puts the swappings of a list behind others, the last one first.
#[tactic(auto, using(crate::proofs::SideLemmas::put_last))]
fn put_inverse(swaps: &mut Vec<Swap>, p: &[Swap]) -> Result<(), Memory>
    ensures { OnOk result (swaps.new.items ≡ swaps.old.items ++ inverse p.now) }
{
    for i in (0..p.len()).rev() {
        swaps.push(p[i])?;
    }
    Ok(())
}

/// Puts the swappings that wait on a side behind others.
fn put_waiting_swaps(swaps: &mut Vec<Swap>, side: &Side) -> Result<(), Memory>
    ensures { OnOk result (swaps.new.items ≡ swaps.old.items ++ waiting side.now) }
{
    put_inverse(swaps, &side.added)?;
    swaps.extend_from_slice(&side.swaps)?;
    Ok(())
}

/// Puts those behind others that undo the swappings that wait on a side.
fn put_undoing_swaps(swaps: &mut Vec<Swap>, side: &Side) -> Result<(), Memory>
    ensures { OnOk result (swaps.new.items ≡ swaps.old.items ++ inverse (waiting side.now)) }
{
    put_inverse(swaps, &side.swaps)?;
    swaps.extend_from_slice(&side.added)?;
    Ok(())
}

/// How many swappings wait on a side.
fn count(side: &Side) -> usize
    ensures { result ≡ min (length side.now.swaps.items + length side.now.added.items)
        (2 ^ 64 - 1) }
{
    side.swaps.len().saturating_add(side.added.len())
}

/// The closure of a part on which swappings wait. Memory is asked for once.
pub fn moved_closure<'a>(alloc: Global, side: &Side, p: Plain<'a>) -> Result<Closure<'a>, Memory>
    ensures { IfOk result (λ c. closure_term c
        ≡ act_term (waiting side.now) (plain_term p.entry)) }
{
    let mut swaps = Vec::with_capacity(alloc, count(side))?;
    put_waiting_swaps(&mut swaps, side)?;
    Ok(Closure {
        swaps,
        base: p.base,
        end: p.end,
        term: p.term,
    })
}

/// The closure of a part on which the swappings of a side wait, moved back by those that wait on the other side. On a
/// name none wait then, unless its number falls. Memory is asked for once.
pub fn moved_back<'a>(
    alloc: Global,
    back: &Side,
    side: &Side,
    p: Plain<'a>,
) -> Result<Closure<'a>, Memory>
    ensures { IfOk result (λ c. closure_term c ≡ act_term (inverse (waiting back.now))
        (act_term (waiting side.now) (plain_term p.entry))) }
{
    let room = count(back).saturating_add(count(side));
    let mut swaps = Vec::with_capacity(alloc, room)?;
    put_undoing_swaps(&mut swaps, back)?;
    put_waiting_swaps(&mut swaps, side)?;
    let moved = Closure {
        swaps,
        base: p.base,
        end: p.end,
        term: p.term,
    };
    Ok(moved.settled())
}

/// What the swappings on the right side do that those on the left side don't: it takes what is on the right to what is on
/// the left once these are undone. As a canonical list.
pub fn between(alloc: Global, sides: &Sides) -> Result<Vec<Swap>, Memory>
    ensures { IfOk result (λ swaps. swaps.items
        ≡ canonical (inverse (waiting sides.now.left) ++ waiting sides.now.right)) }
{
    let room = count(&sides.left).saturating_add(count(&sides.right));
    let mut swaps = Vec::with_capacity(alloc, room)?;
    put_undoing_swaps(&mut swaps, &sides.left)?;
    put_waiting_swaps(&mut swaps, &sides.right)?;
    canonical_list(alloc, &swaps)
}
