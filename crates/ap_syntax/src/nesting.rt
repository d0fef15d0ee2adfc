// How deep an item is nested.
ghost use Rattle.std.specs.Prelude.{◌≡◌, ◌≤◌, ◌<◌, IfOk, length, take, reverse};
ghost use Rattle.ap_trees.specs.Symbols.{sym, syms};
ghost use Rattle.ap_syntax.specs.Nesting as spec;

use ap_trees::Symbol;
use std::alloc::{AllocError, Global};

/// The most levels that an item may have.
const MOST_LEVELS: usize = 256;

/// What is open: a bracket, or the body of `\\`.
#[derive(Clone, Copy)]
pub enum Level {
    Round,
    Square,
    Under,
}

/// Whether a bracket is open.
fn is_bracket(level: Level) -> bool
    ensures { result ≡ spec.is_bracket level }
{
    !matches!(level, Level::Under)
}

/// How many levels there are up to the last open bracket.
fn bracket_place(levels: &[Level]) -> usize
    ensures value { reverse (take result levels.now) ≡ spec.to_bracket (reverse levels.now) }
    ensures bound { result ≤ length levels.now }
{
    let mut place = levels.len();
    while place > 0 {
        if is_bracket(levels[place - 1]) {
            return place;
        }
        place -= 1;
    }
    0
}

/// How many levels are left after a bracket of a kind is closed.
fn after_closing(levels: &[Level], bracket: Level) -> usize
    ensures value { reverse (take result levels.now)
        ≡ spec.closed bracket (spec.to_bracket (reverse levels.now)) (reverse levels.now) }
    ensures bound { result ≤ length levels.now }
{
    let place = bracket_place(levels);
    if place == 0 {
        return levels.len();
    }
    match (bracket, levels[place - 1]) {
        (Level::Round, Level::Round) | (Level::Square, Level::Square) => place - 1,
        _ => levels.len(),
    }
}

/// What a symbol does to the levels.
#[derive(Clone, Copy)]
enum Step {
    Opens(Level),
    Closes(Level),
    Parts,
    Stays,
}

/// What a symbol does to the levels.
fn step_of(symbol: Symbol<'_>) -> Step
    ensures { result ≡ spec.nesting_step (sym symbol.entry) }
{
    match symbol {
        Symbol::Open => Step::Opens(Level::Round),
        Symbol::OpenList => Step::Opens(Level::Square),
        Symbol::Lambda => Step::Opens(Level::Under),
        Symbol::Close => Step::Closes(Level::Round),
        Symbol::CloseList => Step::Closes(Level::Square),
        Symbol::Comma
        | Symbol::Semicolon
        | Symbol::Bar
        | Symbol::Equal
        | Symbol::Fresh
        | Symbol::If
        | Symbol::Arrow => Step::Parts,
        _ => Step::Stays,
    }
}

/// The levels after a step.
fn take_step(levels: &mut Vec<Level>, step: Step) -> Result<(), AllocError>
    ensures { IfOk result (λ _. reverse levels.new.items
        ≡ spec.next_levels (reverse levels.old.items) step) }
{
    match step {
        Step::Opens(level) => levels.push(level)?,
        Step::Closes(bracket) => {
            let left = after_closing(levels, bracket);
            levels.truncate(left);
        }
        Step::Parts => {
            let left = bracket_place(levels);
            levels.truncate(left);
        }
        Step::Stays => {}
    }
    Ok(())
}

/// Whether an item is nested too deeply.
pub fn is_too_deep(alloc: Global, symbols: &[Symbol<'_>]) -> Result<bool, AllocError>
    ensures { IfOk result (λ deep. deep ≡ spec.is_too_deep (syms symbols.now)) }
{
    let mut levels = Vec::new(alloc);
    for symbol in symbols {
        take_step(&mut levels, step_of(*symbol))?;
        if levels.len() > MOST_LEVELS {
            return Ok(true);
        }
    }
    Ok(false)
}
