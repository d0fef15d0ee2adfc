//! Whether swappings and ground terms take an answer to what is proved: looked at by themselves, term by term.

use ap_coverer::Covered;
use ap_defs::goals::{Kind, Local};
use ap_defs::memory::Memory;
use ap_defs::outcomes::Answer;
use ap_defs::terms::{Cond, Ground, Name, Swap, Term, Ty, Var};
use ap_perm::swappings::image;
use ap_values::ground::{alpha_eq, fresh_ground};
use std::alloc::Global;

/// An abstraction of a name.
fn abstracted(alloc: Global, a: Name, body: Result<Ground, Memory>) -> Result<Ground, Memory> {
    match body {
        Ok(body) => Ok(Ground::Abs(a, Box::new(alloc, body)?)),
        Err(Memory) => Err(Memory),
    }
}

/// A constructor with its argument.
fn constructed(
    alloc: Global,
    constructor: u32,
    argument: Result<Ground, Memory>,
) -> Result<Ground, Memory> {
    match argument {
        Ok(argument) => Ok(Ground::App(constructor, Box::new(alloc, argument)?)),
        Err(Memory) => Err(Memory),
    }
}

/// A pair of terms.
fn paired(
    alloc: Global,
    left: Result<Ground, Memory>,
    right: Result<Ground, Memory>,
) -> Result<Ground, Memory> {
    match (left, right) {
        (Ok(left), Ok(right)) => {
            let left = Box::new(alloc, left)?;
            Ok(Ground::Pair(left, Box::new(alloc, right)?))
        }
        _ => Err(Memory),
    }
}

/// A term without variables on which swappings act. A variable would be unit. This recurses by the height of the term,
/// which no answer of these cases that is a ground proof makes great.
fn moved(alloc: Global, swaps: &[Swap], term: &Term) -> Result<Ground, Memory> {
    match term {
        Term::Unit | Term::Susp(_, _) => Ok(Ground::Unit),
        Term::Name(a) => Ok(Ground::Name(image(swaps, *a))),
        Term::Pair(left, right) => {
            let left = moved(alloc, swaps, left);
            paired(alloc, left, moved(alloc, swaps, right))
        }
        Term::App(f, argument) => constructed(alloc, *f, moved(alloc, swaps, argument)),
        Term::Abs(sort, num, body) => {
            let (sort, num) = (*sort, *num);
            let a = image(swaps, Name { sort, num });
            abstracted(alloc, a, moved(alloc, swaps, body))
        }
    }
}

/// Swappings, the names of each replaced by what others make of them.
fn replaced(alloc: Global, swaps: &[Swap], waiting: &[Swap]) -> Result<Vec<Swap>, Memory> {
    let mut all = Vec::new(alloc);
    for s in waiting {
        let sort = s.sort;
        let left = image(swaps, Name { sort, num: s.left }).num;
        let right = image(swaps, Name { sort, num: s.right }).num;
        all.push(Swap { sort, left, right })?;
    }
    Ok(all)
}

/// What swappings make of a variable's term, and unit where it has none.
fn given_to(
    alloc: Global,
    grounding: &[(Var, Term)],
    swaps: &[Swap],
    x: Var,
) -> Result<Ground, Memory> {
    for (y, term) in grounding {
        if *y == x {
            return moved(alloc, swaps, term);
        }
    }
    Ok(Ground::Unit)
}

/// A term of an answer with its names replaced and ground terms for its variables.
fn applied(
    alloc: Global,
    swaps: &[Swap],
    grounding: &[(Var, Term)],
    term: &Term,
) -> Result<Ground, Memory> {
    match term {
        Term::Unit => Ok(Ground::Unit),
        Term::Name(a) => Ok(Ground::Name(image(swaps, *a))),
        Term::Susp(waiting, x) => {
            let under = replaced(alloc, swaps, waiting.items())?;
            given_to(alloc, grounding, under.as_slice(), *x)
        }
        Term::Pair(left, right) => {
            let left = applied(alloc, swaps, grounding, left);
            paired(alloc, left, applied(alloc, swaps, grounding, right))
        }
        Term::App(f, argument) => {
            constructed(alloc, *f, applied(alloc, swaps, grounding, argument))
        }
        Term::Abs(sort, num, body) => {
            let (sort, num) = (*sort, *num);
            let a = image(swaps, Name { sort, num });
            abstracted(alloc, a, applied(alloc, swaps, grounding, body))
        }
    }
}

/// Whether a term, with the names replaced and ground terms for the variables, is another up to the names of binders.
fn is_equal(
    alloc: Global,
    swaps: &[Swap],
    grounding: &[(Var, Term)],
    term: &Term,
    proved: &Term,
) -> Result<bool, Memory> {
    let made = applied(alloc, swaps, grounding, term)?;
    let wanted = moved(alloc, &[], proved)?;
    alpha_eq(alloc, &made, &wanted)
}

/// Whether each term is the one beside it, so replaced.
fn are_equal(
    alloc: Global,
    swaps: &[Swap],
    grounding: &[(Var, Term)],
    terms: &[Term],
    proved: &[Term],
) -> Result<bool, Memory> {
    for (term, beside) in terms.iter().zip(proved.iter()) {
        if !is_equal(alloc, swaps, grounding, term, beside)? {
            return Ok(false);
        }
    }
    Ok(terms.len() == proved.len())
}

/// Whether each condition holds, its name replaced.
fn are_met(
    alloc: Global,
    swaps: &[Swap],
    grounding: &[(Var, Term)],
    conds: &[Cond],
) -> Result<bool, Memory> {
    for cond in conds {
        let value = given_to(alloc, grounding, &[], cond.var)?;
        if !fresh_ground(&image(swaps, cond.name), &value) {
            return Ok(false);
        }
    }
    Ok(true)
}

/// Whether the names of a query stay. Those that `new` brings are none of these.
fn leave_names(swaps: &[Swap], locals: &[Local]) -> bool {
    let mut num = 0;
    for local in locals {
        if let Kind::Name(sort) = local.kind {
            let name = Name { sort, num };
            if !local.bound && image(swaps, name) != name {
                return false;
            }
        }
        num = num.saturating_add(1);
    }
    true
}

/// Whether ground terms are given for an answer's variables, one by one.
fn are_given(grounding: &[(Var, Term)], vars: &[(Var, Ty)]) -> bool {
    for (given, var) in grounding.iter().zip(vars.iter()) {
        if given.0 != var.0 {
            return false;
        }
    }
    grounding.len() == vars.len()
}

/// Whether swappings and ground terms take an answer to what is proved.
fn take_to(
    alloc: Global,
    swaps: &[Swap],
    grounding: &[(Var, Term)],
    answer: &Answer,
    proved: &[Term],
) -> Result<bool, Memory> {
    if !are_equal(alloc, swaps, grounding, answer.binds.items(), proved)? {
        return Ok(false);
    }
    are_met(alloc, swaps, grounding, answer.conds.items())
}

/// Whether what is given covers what is proved by an answer to a query with these identifiers.
pub fn covers(
    alloc: Global,
    locals: &[Local],
    answer: &Answer,
    covered: &Covered,
    proved: &[Term],
) -> Result<bool, Memory> {
    match covered {
        Covered::Stuck { path: _ } => Ok(false),
        Covered::Answer {
            path: _,
            swaps,
            grounding,
        } => {
            let swaps = swaps.items();
            let grounding = grounding.items();
            if !are_given(grounding, answer.vars.items()) || !leave_names(swaps, locals) {
                return Ok(false);
            }
            take_to(alloc, swaps, grounding, answer, proved)
        }
    }
}
