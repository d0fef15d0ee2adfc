//! Commands, carried out.
ghost use Rattle.std.specs.Prelude.{◌≡◌, ◌==◌, [], not, IfOk, length};
ghost use Rattle.ap_shell.specs.Steps.{IsReplyOf, KeepsTexts};

use crate::asking::{ask, count, examine, prove};
use crate::replies::{Reply, Step};
use crate::session::Session;
use crate::telling::{Told, nothing, tell_help, tell_items, tell_message, tell_usage};
use ap_defs::limits::{Depth, GREATEST_DEPTH};
use ap_defs::memory::Memory;
use ap_inputs::orders::{MOST_ANSWERS, Order, order_of};
use ap_io::Gate;
use std::alloc::Global;
use std::sync::Wait;
use std::thread::Threads;

const NOT_UTF8: &str = "error: the command is not UTF-8\n";

const UNKNOWN: &str = "error: there is no such command; `:help` tells those that there are\n";

const NOTHING_ASKED: &str = "error: no query has been asked\n";

const ADDING: &str = "add clauses, and end them with a line `.`\n";

/// Twice a depth, where there is so great a one.
fn twice(depth: Depth) -> Depth {
    let number = depth.get();
    let twice = if number == 0 { 1 } else { number * 2 };
    match Depth::of(twice.min(GREATEST_DEPTH)) {
        Some(deeper) => deeper,
        None => depth,
    }
}

/// Asks the last query to twice the depth.
fn deeper<R: Threads + Wait + Sync, G: Gate>(
    rt: &R,
    alloc: Global,
    gate: &G,
    session: &mut Session,
) -> Result<Reply, Memory>
    ensures reply { IfOk result (λ r. IsReplyOf session.new r) }
    ensures keeps { KeepsTexts session.old session.new }
{
    session.settings.depth = twice(session.settings.depth);
    ask(rt, alloc, gate, session)
}

/// Asks the last query for ten times as many answers.
fn more<R: Threads + Wait + Sync, G: Gate>(
    rt: &R,
    alloc: Global,
    gate: &G,
    session: &mut Session,
) -> Result<Reply, Memory>
    ensures reply { IfOk result (λ r. IsReplyOf session.new r) }
    ensures keeps { KeepsTexts session.old session.new }
{
    session.settings.answers = session
        .settings
        .answers
        .saturating_mul(10)
        .min(MOST_ANSWERS);
    ask(rt, alloc, gate, session)
}

/// The words of a line.
fn words_of(alloc: Global, line: &str) -> Result<Vec<String>, Memory> {
    let mut words = Vec::new(alloc);
    for word in line.split_ascii_whitespace() {
        words.push(word.to_string(alloc)?)?;
    }
    Ok(words)
}

/// Sets what an order sets.
fn set(session: &mut Session, order: &Order<'_>)
    ensures { KeepsTexts session.old session.new }
{
    match order {
        Order::Answers(answers) => session.settings.answers = *answers,
        Order::Depth(depth) => session.settings.depth = *depth,
        Order::Workers(workers) => session.settings.workers = *workers,
        Order::Messages(channel) => session.channel = *channel,
        Order::Time(is_timed) => session.is_timed = *is_timed,
        Order::Add => session.is_adding = true,
        _ => {}
    }
}

/// What is told for an order that asks no query.
fn tell(alloc: Global, session: &Session, order: &Order<'_>) -> Result<Told, Memory> {
    match order {
        Order::Add => tell_message(alloc, ADDING),
        Order::Help => tell_help(alloc),
        Order::List(word) => tell_items(alloc, &session.loaded, word),
        Order::Misused(command) => tell_usage(alloc, *command),
        Order::Unknown => tell_message(alloc, UNKNOWN),
        _ => Ok(nothing(alloc)),
    }
}

/// Loads the files of these names.
fn load_named(alloc: Global, session: &mut Session, names: &str) -> Result<Reply, Memory>
    ensures reply { IfOk result (λ r. IsReplyOf session.new r) }
    ensures keeps { KeepsTexts session.old session.new }
{
    session.files = words_of(alloc, names)?;
    Ok(Reply::Load)
}

/// What is answered to an order that asks no query.
fn obey_quietly(alloc: Global, session: &mut Session, order: &Order<'_>) -> Result<Reply, Memory>
    ensures reply { IfOk result (λ r. IsReplyOf session.new r) }
    ensures keeps { KeepsTexts session.old session.new }
{
    set(session, order);
    let told = tell(alloc, session, order)?;
    Ok(Reply::Told(told))
}

/// Whether an order is about the last query.
fn is_about_last(order: &Order<'_>) -> bool {
    match order {
        Order::More | Order::Deeper | Order::Prove | Order::Count | Order::Examine => true,
        _ => false,
    }
}

/// What is answered to an order.
fn obey<R: Threads + Wait + Sync, G: Gate>(
    rt: &R,
    alloc: Global,
    gate: &G,
    session: &mut Session,
    order: &Order<'_>,
) -> Result<Reply, Memory>
    ensures reply { IfOk result (λ r. IsReplyOf session.new r) }
    ensures keeps { KeepsTexts session.old session.new }
{
    if is_about_last(order) && session.last.is_empty() {
        let told = tell_message(alloc, NOTHING_ASKED)?;
        return Ok(Reply::Told(told));
    }
    match order {
        Order::More => more(rt, alloc, gate, session),
        Order::Deeper => deeper(rt, alloc, gate, session),
        Order::Prove => prove(rt, alloc, gate, session),
        Order::Count => count(rt, alloc, gate, session),
        Order::Examine => examine(rt, alloc, gate, session),
        Order::Load(names) => load_named(alloc, session, names),
        Order::Reload => Ok(Reply::Load),
        Order::Quit => Ok(Reply::Quit),
        _ => obey_quietly(alloc, session, order),
    }
}

/// What is answered to a command line.
fn obey_text<R: Threads + Wait + Sync, G: Gate>(
    rt: &R,
    alloc: Global,
    gate: &G,
    session: &mut Session,
    line: &[u8],
) -> Result<Reply, Memory>
    ensures reply { IfOk result (λ r. IsReplyOf session.new r) }
    ensures keeps { KeepsTexts session.old session.new }
{
    match str::from_utf8(line) {
        Ok(text) => obey(rt, alloc, gate, session, &order_of(text)),
        Err(_) => {
            let told = tell_message(alloc, NOT_UTF8)?;
            Ok(Reply::Told(told))
        }
    }
}

/// A step with a command line. The lines before it that end no query are dropped.
pub(crate) fn obey_line<R: Threads + Wait + Sync, G: Gate>(
    rt: &R,
    alloc: Global,
    gate: &G,
    session: &mut Session,
    line: &[u8],
) -> Result<Step, Memory>
    ensures asked { IfOk result (λ s. IsReplyOf session.new s.reply) }
    ensures used { IfOk result (λ s. s.used ≡ length line.now) }
    ensures dropped { IfOk result
        (λ s. s.dropped ≡ not (length session.old.waiting.items == 0)) }
    ensures waits { session.new.waiting.items ≡ [] }
    ensures last { session.new.last ≡ session.old.last }
    ensures loaded { session.new.loaded ≡ session.old.loaded }
{
    let dropped = !session.waiting.is_empty();
    session.waiting.clear();
    let reply = obey_text(rt, alloc, gate, session, line)?;
    Ok(Step {
        used: line.len(),
        dropped,
        reply,
    })
}
