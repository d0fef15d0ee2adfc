//! Clauses that an atom enters.

ghost use Rattle.std.specs.Prelude.{◌≡◌, ◌<◌, ◌^◌, [], false, None, IfOk, IfSome, MatchOption, OnOk, length, map};
ghost use Rattle.ap_defs.specs.Goals.{clause_of, clauses_of, program_in};
ghost use Rattle.ap_defs.specs.Renaming.{AreBelow, rename_term as renamed};
ghost use Rattle.ap_defs.specs.Terms.{term_of};
ghost use Rattle.ap_machine.specs.Below.{AreClausesBelow};
ghost use Rattle.ap_search.specs.FitStates.{AreFitClauses, IsFitClause};
ghost use Rattle.ap_machine.specs.Machines.{next_of, position_if, position_of, track_of};
ghost use Rattle.ap_machine.specs.Positions.{enters_clause};
ghost use Rattle.ap_machine.specs.Tracks.{GoesFrom};
ghost use Rattle.ap_turns.specs.Heads.{HasHead};

use ap_defs::goals::Clause;
use ap_defs::memory::Memory;
use ap_defs::terms::Term;
use ap_index::predicate::{Predicate, predicate_at};
use ap_machine::machine::Machine;
use ap_unify::terms::Terms;
use ap_unify::unify::unify;
use std::alloc::Global;

/// The clauses of a predicate with their keys, if there is such a predicate.
pub fn candidates_at<'a>(clauses: &'a [Predicate<'a>], pred: u32) -> Option<&'a Predicate<'a>>
    requires { AreClausesBelow (program_in clauses.now) }
    ensures clauses { MatchOption result ([] ≡ clauses_of (program_in clauses.now) pred)
        (λ p. map clause_of p.now ≡ clauses_of (program_in clauses.now) pred) }
    ensures below { IfSome result (λ p. AreFitClauses (map clause_of p.now)) }
    ensures few { IfSome result (λ p. length p.now < 2 ^ 32) }
{
    predicate_at(clauses, pred)
}

/// The clauses of a predicate.
pub fn clauses_at<'a>(clauses: &'a [Predicate<'a>], pred: u32) -> &'a [Clause<Term>]
    requires { AreClausesBelow (program_in clauses.now) }
    ensures clauses { map clause_of result.now ≡ clauses_of (program_in clauses.now) pred }
    ensures below { AreFitClauses (map clause_of result.now) }
    ensures few { length result.now < 2 ^ 32 }
{
    match candidates_at(clauses, pred) {
        Some(predicate) => predicate.clauses(),
        None => &[],
    }
}

/// Unifies the head of a clause, whose identifiers get the next numbers, with the arguments of an
/// atom. It answers the first of these numbers, or none where there is no solution; then the machine
/// is as before.
fn unify_head<'a>(
    alloc: Global,
    machine: &mut Machine<'a>,
    args: &'a [Term],
    base: u64,
    clause: &'a Clause<Term>,
) -> Result<Option<u64>, Memory>
    requires args { AreBelow (next_of machine.old) (map (renamed base) (map term_of args.now)) }
    requires clause { IsFitClause (clause_of clause.now) }
    ensures state { IfOk result (λ o. HasHead (map (renamed base) (map term_of args.now))
        (clause_of clause.now) machine.old o machine.new) }
    ensures goes { OnOk result (GoesFrom (track_of machine.old) (track_of machine.new)) }
    ensures none { IfOk result (λ o. o ≡ None →
        (track_of machine.new ≡ track_of machine.old)
        × (position_of machine.new ≡ position_of machine.old)) }
{
    let mark = machine.store.mark();
    let start = machine.store.make(clause.locals.items())?;
    let end = machine.store.next();
    let head = clause.args.items();
    let count = args.len().min(head.len());
    // The arguments have none of the new numbers, so that these need not be looked for in them.
    let left = Terms {
        base,
        end: start,
        terms: &args[..count],
    };
    let right = Terms {
        base: start,
        end,
        terms: &head[..count],
    };
    if unify(alloc, &mut machine.store, &mut machine.work, left, right)? {
        Ok(Some(start))
    } else {
        machine.store.undo_to(mark);
        Ok(None)
    }
}

/// Enters a clause: its head is unified with the arguments of an atom, and its body waits. It answers
/// whether that has a solution; where not, the machine is as before.
#[inline(always)]
pub fn enter_clause<'a>(
    alloc: Global,
    machine: &mut Machine<'a>,
    args: &'a [Term],
    base: u64,
    depth: u32,
    choice: u32,
    clause: &'a Clause<Term>,
) -> Result<bool, Memory>
    requires args { AreBelow (next_of machine.old) (map (renamed base) (map term_of args.now)) }
    requires clause { IsFitClause (clause_of clause.now) }
    ensures entered { IfOk result (λ b. position_if b (position_of machine.new)
        ≡ enters_clause depth (map (renamed base) (map term_of args.now)) (position_of machine.old)
        choice (clause_of clause.now)) }
    ensures goes { OnOk result (GoesFrom (track_of machine.old) (track_of machine.new)) }
    ensures none { IfOk result (λ b. b ≡ false →
        (track_of machine.new ≡ track_of machine.old)
        × (position_of machine.new ≡ position_of machine.old)) }
{
    match unify_head(alloc, machine, args, base, clause)? {
        None => Ok(false),
        Some(start) => {
            machine.push_choice(choice)?;
            machine.push_locals(start, &clause.locals)?;
            machine.push_goal(&clause.body, start, depth)?;
            Ok(true)
        }
    }
}
