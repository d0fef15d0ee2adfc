//! A step of a session, from a line that is typed to what is answered.
ghost use Rattle.std.specs.Prelude.{◌≡◌, ◌<◌, ◌≤◌, ◌++◌, [], ℕ, List as list, None, Some, false, IfOk, OnErr, OnOk, length};
ghost use Rattle.ap_inputs.specs.declared.lines.LineKind.TheVariants as kinds;
ghost use Rattle.ap_inputs.specs.Lines as lines;
ghost use Rattle.ap_shell.specs.Steps.{IsQueryStep, IsReplyOf, LoadsBy, WritesUnless, adding_after, line_is_obeyed, drops, asked_in, typed_query, up_to, used_by, waiting_after, waiting_behind};

use crate::adding::{add_line, keep_line, told_of};
use crate::asking::ask;
use crate::obeying::obey_line;
use crate::replies::{Reply, Step};
use crate::session::Session;
use crate::telling::nothing;
use ap_defs::memory::Memory;
use ap_inputs::lines::{LineKind, kind_of, query_end};
use ap_io::Gate;
use std::alloc::Global;
use std::mem;
use std::sync::Wait;
use std::thread::Threads;

/// Takes a query that ends in a line, behind the lines before it.
fn take_query(alloc: Global, session: &mut Session, end: &[u8]) -> Result<(), Memory>
    ensures last { OnOk result (session.new.last.items ≡ session.old.waiting.items ++ end.now) }
    ensures waits { OnOk result (session.new.waiting.items ≡ []) }
    ensures loaded { session.new.loaded ≡ session.old.loaded }
    ensures settings { session.new.settings ≡ session.old.settings }
    ensures adding { session.new.is_adding ≡ session.old.is_adding }
{
    session.waiting.extend_from_slice(end)?;
    session.last = mem::replace(&mut session.waiting, Vec::new(alloc));
    Ok(())
}

/// A step with a line of a query.
fn query_line<R: Threads + Wait + Sync, G: Gate>(
    rt: &R,
    alloc: Global,
    gate: &G,
    session: &mut Session,
    line: &[u8],
) -> Result<Step, Memory>
    ensures asked { IfOk result (λ s. IsReplyOf session.new s.reply) }
    ensures typed { (q : list ℕ) → asked_in session.old.waiting.items kinds.Text line.now ≡ Some q →
        IfOk result (λ s. IsQueryStep session.old session.new q s.reply) }
    ensures quiet { IfOk result (λ s. WritesUnless false
        (asked_in session.old.waiting.items kinds.Text line.now) s.reply) }
    ensures used { IfOk result (λ s. s.used ≡ up_to (lines.query_end line.now) line.now) }
    ensures within { IfOk result (λ s. (s.used ≤ length line.now)
        × (0 < length line.now → 0 < s.used)) }
    ensures dropped { IfOk result (λ s. s.dropped ≡ false) }
    ensures waits { OnOk result (session.new.waiting.items
        ≡ waiting_behind (lines.query_end line.now) session.old.waiting.items line.now) }
    ensures loaded { session.new.loaded ≡ session.old.loaded }
    ensures adding { session.new.is_adding ≡ session.old.is_adding }
    ensures last { asked_in session.old.waiting.items kinds.Text line.now ≡ None →
        session.new.last ≡ session.old.last }
{
    match query_end(line) {
        Some(end) => {
            take_query(alloc, session, &line[..end])?;
            let reply = ask(rt, alloc, gate, session)?;
            Ok(Step {
                used: end,
                dropped: false,
                reply,
            })
        }
        None => {
            let told = keep_line(alloc, session, line)?;
            Ok(told_of(line, told))
        }
    }
}

/// Takes a line that is typed, without the end of the line: up to the end of a query, or all of it.
///
/// A query ends with its first full stop that is in no comment, so it may be of several lines, and a line may
/// have several queries. A line whose first mark is `:` is a command, and ends what was begun of a query. Where
/// clauses are added, all lines up to one that holds a full stop alone are clauses.
///
/// `Err` is want of memory.
pub fn step<R: Threads + Wait + Sync, G: Gate>(
    rt: &R,
    alloc: Global,
    gate: &G,
    session: &mut Session,
    line: &[u8],
) -> Result<Step, Memory>
    // What is answered for a query is the report of the loaded text with that query alone.
    ensures asked { IfOk result (λ s. IsReplyOf session.new s.reply) }
    // Each query that ends in the line is answered, and leaves what is loaded and how queries are asked.
    ensures typed { (q : list ℕ) → typed_query session.old line.now ≡ Some q →
        IfOk result (λ s. IsQueryStep session.old session.new q s.reply) }
    // Any other line that is no command writes nothing.
    ensures quiet { IfOk result (λ s. WritesUnless (line_is_obeyed session.old line.now)
        (typed_query session.old line.now) s.reply) }
    // A line is taken up to the end of its query, or else all of it.
    ensures used { IfOk result (λ s. s.used ≡ used_by session.old line.now) }
    ensures within { IfOk result (λ s. (s.used ≤ length line.now)
        × (0 < length line.now → 0 < s.used)) }
    // Lines wait for the end of their query, or of the clauses that are added; a command drops them.
    ensures waits { OnOk result (session.new.waiting.items ≡ waiting_after session.old line.now) }
    ensures dropped { IfOk result (λ s. s.dropped ≡ drops session.old line.now) }
    // Clauses are added up to a full stop alone; the last query is the one that ended last.
    ensures adding { line_is_obeyed session.old line.now ≡ false →
        OnOk result (session.new.is_adding ≡ adding_after session.old line.now) }
    ensures last { typed_query session.old line.now ≡ None → session.new.last ≡ session.old.last }
    // The end of clauses that are added loads them, where they have no fault. Nothing else changes what is loaded.
    ensures loaded { OnOk result (LoadsBy session.old session.new line.now) }
    ensures kept { OnErr result (session.new.loaded ≡ session.old.loaded) }
{
    if session.is_adding {
        return add_line(alloc, session, line);
    }
    match kind_of(line) {
        LineKind::Empty => Ok(told_of(line, nothing(alloc))),
        LineKind::Command => obey_line(rt, alloc, gate, session, line),
        LineKind::Text => query_line(rt, alloc, gate, session, line),
    }
}
