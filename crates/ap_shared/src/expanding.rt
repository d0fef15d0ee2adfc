// The term of a line of a table, made in full without recursion.
ghost use Rattle.std.specs.Prelude.{◌≡◌, ◌<◌, ◌++◌, ◌∷◌, reverse, IfOk, OnOk};
ghost use Rattle.std.specs.Bool.{then_some};
ghost use Rattle.std.specs.Option.{option_map};
ghost use Rattle.ap_defs.specs.Terms.{term_of};
ghost use Rattle.ap_bundle.specs.Forms.{first};
ghost use Rattle.ap_shared.specs.Expanding.{begun, layer_closed, made_by, ready, stacked, weigh_tasks};
ghost use Rattle.ap_shared.specs.Shared.{shared_at};
ghost use Rattle.ap_shared.specs.SharedViews.{shared_terms};
ghost use Rattle.ap_shared.specs.declared.expanding.Task.TheVariants as tasks_of;

use crate::arena::SharedTerms;
use crate::lines::Entry;
use ap_defs::lists::Swaps;
use ap_defs::memory::Memory;
use ap_defs::terms::{Name, Term};
use std::alloc::Global;

/// What stands round one term or two.
#[derive(Clone, Copy)]
enum Layer {
    Pair,
    App(u32),
    Abs(Name),
}

/// A step of the making of a term: the term of a line, or a layer round the last that were made.
#[derive(Clone, Copy)]
enum Task {
    Line(usize),
    Close(Layer),
}

/// The first term, taken off.
fn first_term(made: &mut Vec<Term>) -> Option<Term>
    ensures { option_map (λ t. (term_of t, stacked term_of made.new.items)) result
        ≡ first (stacked term_of made.old.items) }
{
    made.pop()
}

/// Puts what is to be done for the term of an entry before what is left.
fn push_tasks(entry: &Entry, tasks: &mut Vec<Task>) -> Result<(), Memory>
    ensures { OnOk result (reverse tasks.new.items ≡ begun entry.now ++ reverse tasks.old.items) }
{
    match entry {
        Entry::Unit | Entry::Name(_) | Entry::Susp(_, _) => {}
        Entry::Pair(left, right) => {
            tasks.push(Task::Close(Layer::Pair))?;
            tasks.push(Task::Line(*left))?;
            tasks.push(Task::Line(*right))?;
        }
        Entry::App(constructor, part) => {
            tasks.push(Task::Close(Layer::App(*constructor)))?;
            tasks.push(Task::Line(*part))?;
        }
        Entry::Abs(sort, num, part) => {
            let name = Name {
                sort: *sort,
                num: *num,
            };
            tasks.push(Task::Close(Layer::Abs(name)))?;
            tasks.push(Task::Line(*part))?;
        }
    }
    Ok(())
}

/// Makes the term of an entry that has no parts.
fn push_ready(alloc: Global, entry: &Entry, made: &mut Vec<Term>) -> Result<(), Memory>
    ensures { OnOk result (stacked term_of made.new.items
        ≡ ready entry.now ++ stacked term_of made.old.items) }
{
    match entry {
        Entry::Unit => made.push(Term::Unit)?,
        Entry::Name(name) => made.push(Term::Name(*name))?,
        Entry::Susp(swaps, var) => {
            let swaps = Swaps::of(alloc, swaps.items().to_vec(alloc)?)?;
            made.push(Term::Susp(swaps, *var))?;
        }
        Entry::Pair(_, _) | Entry::App(_, _) | Entry::Abs(_, _, _) => {}
    }
    Ok(())
}

/// A pair of the last two terms, the left one last. What is made later stands behind what was made earlier in
/// memory, and a term is looked at from its head, its left part before its right one: so the right one is made first.
fn close_pair(alloc: Global, made: &mut Vec<Term>) -> Result<bool, Memory>
    ensures { IfOk result (λ found. then_some found (stacked term_of made.new.items)
        ≡ layer_closed Layer.Pair (stacked term_of made.old.items)) }
{
    let Some(left) = first_term(made) else {
        return Ok(false);
    };
    let Some(right) = first_term(made) else {
        return Ok(false);
    };
    let right = Box::new(alloc, right)?;
    let left = Box::new(alloc, left)?;
    made.push(Term::Pair(left, right))?;
    Ok(true)
}

fn close_app(alloc: Global, constructor: u32, made: &mut Vec<Term>) -> Result<bool, Memory>
    ensures { IfOk result (λ found. then_some found (stacked term_of made.new.items)
        ≡ layer_closed (Layer.App constructor) (stacked term_of made.old.items)) }
{
    let Some(part) = first_term(made) else {
        return Ok(false);
    };
    let part = Box::new(alloc, part)?;
    made.push(Term::App(constructor, part))?;
    Ok(true)
}

fn close_abs(alloc: Global, name: Name, made: &mut Vec<Term>) -> Result<bool, Memory>
    ensures { IfOk result (λ found. then_some found (stacked term_of made.new.items)
        ≡ layer_closed (Layer.Abs name) (stacked term_of made.old.items)) }
{
    let Some(part) = first_term(made) else {
        return Ok(false);
    };
    let part = Box::new(alloc, part)?;
    made.push(Term::Abs(name.sort, name.num, part))?;
    Ok(true)
}

/// A layer round the last terms that were made, where there are as many as it takes.
fn close(alloc: Global, layer: Layer, made: &mut Vec<Term>) -> Result<bool, Memory>
    ensures { IfOk result (λ found. then_some found (stacked term_of made.new.items)
        ≡ layer_closed layer (stacked term_of made.old.items)) }
{
    match layer {
        Layer::Pair => close_pair(alloc, made),
        Layer::App(constructor) => close_app(alloc, constructor, made),
        Layer::Abs(name) => close_abs(alloc, name, made),
    }
}

/// What is to be done for an entry: its term is made, or its parts come first.
fn begin_entry(
    alloc: Global,
    entry: &Entry,
    tasks: &mut Vec<Task>,
    made: &mut Vec<Term>,
) -> Result<(), Memory>
    ensures tasks { OnOk result
        (reverse tasks.new.items ≡ begun entry.now ++ reverse tasks.old.items) }
    ensures made { OnOk result (stacked term_of made.new.items
        ≡ ready entry.now ++ stacked term_of made.old.items) }
{
    push_tasks(entry, tasks)?;
    push_ready(alloc, entry, made)
}

/// What is to be done for the term of a line.
fn begin(
    alloc: Global,
    terms: &SharedTerms,
    line: usize,
    tasks: &mut Vec<Task>,
    made: &mut Vec<Term>,
) -> Result<(), Memory>
    ensures made { OnOk result
        (made_by (shared_terms terms.now) (reverse tasks.new.items) (stacked term_of made.new.items)
        ≡ made_by (shared_terms terms.now) (tasks_of.Line line ∷ reverse tasks.old.items)
        (stacked term_of made.old.items)) }
    ensures lighter { OnOk result (weigh_tasks (shared_terms terms.now) (reverse tasks.new.items)
        < weigh_tasks (shared_terms terms.now) (tasks_of.Line line ∷ reverse tasks.old.items)) }
{
    match terms.entry(line) {
        Some(entry) => begin_entry(alloc, entry, tasks, made),
        None => {
            made.push(Term::Unit)?;
            Ok(())
        }
    }
}

/// The term of a line in full.
pub fn expanded(alloc: Global, terms: &SharedTerms, line: usize) -> Result<Term, Memory>
    ensures { IfOk result (λ t. term_of t ≡ shared_at (shared_terms terms.now) line) }
{
    let mut made = Vec::new(alloc);
    let mut tasks = Vec::new(alloc);
    tasks.push(Task::Line(line))?;
    while let Some(task) = tasks.pop() {
        match task {
            Task::Line(next) => begin(alloc, terms, next, &mut tasks, &mut made)?,
            Task::Close(layer) => {
                if !close(alloc, layer, &mut made)? {
                    unreachable!();
                }
            }
        }
    }
    let Some(term) = made.pop() else {
        unreachable!();
    };
    Ok(term)
}
