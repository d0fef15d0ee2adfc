//! The last query, asked, and the commands about it.
ghost use Rattle.std.specs.Prelude.{IfOk};
ghost use Rattle.ap_shell.specs.Steps.{IsAsked, IsReplyOf};

use crate::answers::{answer_of, counts_of, derivations_of, exam_of};
use crate::replies::Reply;
use crate::session::Session;
use ap_defs::memory::Memory;
use ap_io::Gate;
use std::alloc::Global;
use std::sync::Wait;
use std::thread::Threads;

/// The answer to the session's last query.
pub(crate) fn ask<R: Threads + Wait + Sync, G: Gate>(
    rt: &R,
    alloc: Global,
    gate: &G,
    session: &Session,
) -> Result<Reply, Memory>
    ensures { IfOk result (λ r. IsAsked r × IsReplyOf session.now r) }
{
    let settings = &session.settings;
    let answer = answer_of(rt, alloc, gate, settings, &session.loaded, &session.last)?;
    Ok(Reply::Asked(answer))
}

/// The answers of the session's last query with their derivations.
pub(crate) fn prove<R: Threads + Wait + Sync, G: Gate>(
    rt: &R,
    alloc: Global,
    gate: &G,
    session: &Session,
) -> Result<Reply, Memory>
    ensures { IfOk result (λ r. IsReplyOf session.now r) }
{
    let settings = &session.settings;
    let answer = derivations_of(rt, alloc, gate, settings, &session.loaded, &session.last)?;
    Ok(Reply::Proved(answer))
}

/// How often each clause is used in the derivations of the last query's answers.
pub(crate) fn count<R: Threads + Wait + Sync, G: Gate>(
    rt: &R,
    alloc: Global,
    gate: &G,
    session: &Session,
) -> Result<Reply, Memory>
    ensures { IfOk result (λ r. IsReplyOf session.now r) }
{
    let settings = &session.settings;
    let answer = counts_of(rt, alloc, gate, settings, &session.loaded, &session.last)?;
    Ok(Reply::Counted(answer))
}

/// What is found of the session's last query as a property.
pub(crate) fn examine<R: Threads + Wait + Sync, G: Gate>(
    rt: &R,
    alloc: Global,
    gate: &G,
    session: &Session,
) -> Result<Reply, Memory>
    ensures { IfOk result (λ r. IsReplyOf session.now r) }
{
    let settings = &session.settings;
    let answer = exam_of(rt, alloc, gate, settings, &session.loaded, &session.last)?;
    Ok(Reply::Examined(answer))
}
