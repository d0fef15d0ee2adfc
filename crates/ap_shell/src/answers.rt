//! What is answered for a query, and for a command about it.
ghost use Rattle.std.specs.Prelude.{IfOk};
ghost use Rattle.ap_shell.specs.Answers.{IsAnswer, IsCounted, IsExamined, IsProved};

use crate::reports::{count_report, exam_report, prove_report, run_report};
use crate::saying::{beside_report, beside_status};
use crate::session::Settings;
use ap_defs::memory::Memory;
use ap_inputs::questions::text_with;
use ap_io::Gate;
use ap_report::Report;
use std::alloc::Global;
use std::sync::Wait;
use std::thread::Threads;

/// What is answered for a query, or for a command about it.
#[derive(Drop)]
pub struct Answer {
    /// its report
    pub report: Report,
    /// what is said beside it: of a fault, and how to ask for more
    pub said: String,
}

/// What is answered for a query, asked of a loaded text.
pub(crate) fn answer_of<R: Threads + Wait + Sync, G: Gate>(
    rt: &R,
    alloc: Global,
    gate: &G,
    settings: &Settings,
    loaded: &[u8],
    query: &[u8],
) -> Result<Answer, Memory>
    ensures { IfOk result (λ a. IsAnswer settings.now loaded.now query.now a.report) }
{
    let text = text_with(alloc, loaded, query)?;
    let report = run_report(rt, alloc, gate, settings, &text)?;
    let said = beside_report(alloc, settings, &text, &report)?;
    Ok(Answer { report, said })
}

/// The answers of a query with their derivations.
pub(crate) fn derivations_of<R: Threads + Wait + Sync, G: Gate>(
    rt: &R,
    alloc: Global,
    gate: &G,
    settings: &Settings,
    loaded: &[u8],
    query: &[u8],
) -> Result<Answer, Memory>
    ensures { IfOk result (λ a. IsProved settings.now loaded.now query.now a.report) }
{
    let text = text_with(alloc, loaded, query)?;
    let report = prove_report(rt, alloc, gate, settings, &text)?;
    let said = beside_status(alloc, &text, report.status)?;
    Ok(Answer { report, said })
}

/// How often each clause is used in the derivations of a query's answers.
pub(crate) fn counts_of<R: Threads + Wait + Sync, G: Gate>(
    rt: &R,
    alloc: Global,
    gate: &G,
    settings: &Settings,
    loaded: &[u8],
    query: &[u8],
) -> Result<Answer, Memory>
    ensures { IfOk result (λ a. IsCounted settings.now loaded.now query.now a.report) }
{
    let text = text_with(alloc, loaded, query)?;
    let report = count_report(rt, alloc, gate, settings, &text)?;
    let said = beside_status(alloc, &text, report.status)?;
    Ok(Answer { report, said })
}

/// What is found of a query as a property.
pub(crate) fn exam_of<R: Threads + Wait + Sync, G: Gate>(
    rt: &R,
    alloc: Global,
    gate: &G,
    settings: &Settings,
    loaded: &[u8],
    query: &[u8],
) -> Result<Answer, Memory>
    ensures { IfOk result (λ a. IsExamined settings.now loaded.now query.now a.report) }
{
    let text = text_with(alloc, loaded, query)?;
    let report = exam_report(rt, alloc, gate, settings, &text)?;
    let said = beside_status(alloc, &text, report.status)?;
    Ok(Answer { report, said })
}
