//! Clauses that are added at the prompt.
ghost use Rattle.std.specs.Prelude.{◌≡◌, ◌<◌, ◌≤◌, ◌++◌, [], false, IfOk, OnErr, OnOk, length};
ghost use Rattle.ap_inputs.specs.Lines as lines;
ghost use Rattle.ap_shell.specs.Steps.{AddsClauses, IsReplyOf, LoadsWhere, WritesNothing, adding_after, waiting_added, with_line};

use crate::loading::load;
use crate::replies::{Reply, Step};
use crate::session::Session;
use crate::telling::{Told, nothing, tell_too_large};
use ap_defs::limits::SIZE_LIMIT;
use ap_defs::memory::Memory;
use ap_inputs::lines::is_stop;
use std::alloc::Global;
use std::mem;

/// The loaded text with what is added behind it.
fn joined(alloc: Global, loaded: &[u8], added: &[u8]) -> Result<Vec<u8>, Memory>
    ensures { IfOk result (λ v. v.items ≡ loaded.now ++ added.now) }
{
    let mut text = loaded.to_vec(alloc)?;
    text.extend_from_slice(added)?;
    Ok(text)
}

/// Ends the adding of clauses: where they have no fault they are loaded behind what is loaded.
fn end_adding(alloc: Global, session: &mut Session) -> Result<Told, Memory>
    ensures added { OnOk result
        (AddsClauses session.old.waiting.items session.old.loaded.items session.new.loaded.items) }
    ensures quiet { IfOk result (λ t. t.written.items ≡ []) }
    ensures waits { OnOk result (session.new.waiting.items ≡ []) }
    ensures ended { OnOk result (session.new.is_adding ≡ false) }
    ensures last { session.new.last ≡ session.old.last }
    ensures kept { OnErr result (session.new.loaded ≡ session.old.loaded) }
{
    session.is_adding = false;
    let added = mem::replace(&mut session.waiting, Vec::new(alloc));
    let text = joined(alloc, &session.loaded, &added)?;
    let loading = load(alloc, session, &text)?;
    Ok(Told {
        written: Vec::new(alloc),
        said: loading.said,
    })
}

/// Keeps a line behind those that wait. Where they become too large, none is kept.
pub(crate) fn keep_line(alloc: Global, session: &mut Session, line: &[u8]) -> Result<Told, Memory>
    ensures quiet { IfOk result (λ t. t.written.items ≡ []) }
    ensures waits { OnOk result
        (session.new.waiting.items ≡ with_line session.old.waiting.items line.now) }
    ensures others { session.new ≡ record session.old { waiting = session.new.waiting } }
{
    let room = SIZE_LIMIT.saturating_sub(session.waiting.len());
    if line.len() >= room {
        session.waiting = Vec::new(alloc);
        return tell_too_large(alloc);
    }
    session.waiting.extend_from_slice(line)?;
    session.waiting.push(b'\n')?;
    Ok(nothing(alloc))
}

/// A step that takes a whole line, and tells this.
pub(crate) fn told_of(line: &[u8], told: Told) -> Step
    ensures { result ≡ record { used = length line.now; dropped = false; reply = Reply.Told told } }
{
    Step {
        used: line.len(),
        dropped: false,
        reply: Reply::Told(told),
    }
}

/// A step with a line of clauses that are added, or with the line that ends them.
pub(crate) fn add_line(alloc: Global, session: &mut Session, line: &[u8]) -> Result<Step, Memory>
    ensures asked { IfOk result (λ s. IsReplyOf session.new s.reply) }
    ensures quiet { IfOk result (λ s. WritesNothing s.reply) }
    ensures used { IfOk result (λ s. s.used ≡ length line.now) }
    ensures dropped { IfOk result (λ s. s.dropped ≡ false) }
    ensures adding { OnOk result (session.new.is_adding ≡ adding_after session.old line.now) }
    ensures last { session.new.last ≡ session.old.last }
    ensures waits { OnOk result
        (session.new.waiting.items ≡ waiting_added session.old.waiting.items line.now) }
    ensures loaded { OnOk result (LoadsWhere (lines.is_stop_line line.now)
        session.old.waiting.items session.old.loaded.items session.new.loaded.items) }
    ensures kept { OnErr result (session.new.loaded ≡ session.old.loaded) }
{
    if is_stop(line) {
        let told = end_adding(alloc, session)?;
        Ok(told_of(line, told))
    } else {
        let told = keep_line(alloc, session, line)?;
        Ok(told_of(line, told))
    }
}
