//! The call `cover` on proofs of bundles, and whether what it gives covers them.

ghost use Rattle.ap_backchain.specs.Branches.{IsBranchOf};
ghost use Rattle.ap_backchain.specs.Problems.{HasQuery};

use crate::applied::covers;
use crate::covering::put_path;
use crate::problems::{problem_of, program_of};
use crate::spelling::Spelling;
use ap_backchain::branch::Branch;
use ap_backchain::problem::{Problem, query_of_problem};
use ap_bundle_read::read_bundle;
use ap_checker::verify::verify;
use ap_cover::ground::is_ground;
use ap_cover::within::within;
use ap_coverer::{Covered, cover};
use ap_defs::memory::Memory;
use ap_defs::outcomes::{Proved, Verdict};
use ap_defs::paths::{Node, Path};
use ap_defs::terms::Swap;
use ap_index::index::Index;
use ap_program::restricted::Restricted;
use ap_replay::replay::at;
use ap_shared::sharing::shared;
use std::alloc::Global;
use std::io::ErrorKind;

/// What covers a proof, if it is one that the call takes.
fn covered_by(alloc: Global, p: &Problem<'_>, proved: &Proved) -> Result<Option<Covered>, Memory>
    requires { HasQuery p.now }
{
    let found = shared(alloc, proved)?;
    let verdict = verify(
        alloc,
        p.program.restricted(),
        p.query,
        found.terms.as_ref(),
        &found.answer,
        &found.derivation,
    )?;
    match verdict {
        Verdict::No { node: _, rule: _ } => return Ok(None),
        Verdict::Yes => {}
    }
    if !is_ground(proved) || !within(&proved.derivation, p.depth) {
        return Ok(None);
    }
    Ok(Some(cover(alloc, p, proved)?))
}

/// Whether a branch stands at an answer by which what is given covers what is proved.
fn branch_covers<'a>(
    alloc: Global,
    p: &Problem<'a>,
    branch: &Branch<'a>,
    covered: &Covered,
    proved: &Proved,
) -> Result<bool, Memory>
    requires query { HasQuery p.now }
    requires of { IsBranchOf p.now branch.now }
{
    match branch.node() {
        Node::Answer => {
            let answer = branch.answer(alloc, p)?;
            let locals = query_of_problem(p).locals.items();
            covers(alloc, locals, &answer, covered, proved.answer.binds.items())
        }
        _ => Ok(false),
    }
}

/// Whether the search has an answer at a path by which what is given covers what is proved.
fn answer_covers(
    alloc: Global,
    p: &Problem<'_>,
    path: &Path,
    covered: &Covered,
    proved: &Proved,
) -> Result<bool, Memory>
    requires { HasQuery p.now }
{
    match at(alloc, p, path) {
        Ok(branch) => branch_covers(alloc, p, &branch, covered, proved),
        Err(_) => Ok(false),
    }
}

/// Whether the search is stuck at a path.
fn is_stuck(alloc: Global, p: &Problem<'_>, path: &Path) -> Result<bool, Memory>
    requires { HasQuery p.now }
{
    match at(alloc, p, path) {
        Ok(branch) => Ok(matches!(branch.node(), Node::Stuck)),
        Err(_) => Ok(false),
    }
}

/// What comes of a call: whether it gives an answer, and whether what it gives holds.
#[derive(Clone, Copy)]
struct Call {
    is_answer: bool,
    holds: bool,
}

/// Adds swappings, each by its sort and its two numbers.
fn put_swaps(out: &mut Spelling, swaps: &[Swap]) {
    for swap in swaps {
        out.put(" ");
        out.put_number(swap.sort as u64, ":");
        out.put_number(swap.left, "-");
        out.put_number(swap.right, "");
    }
    if swaps.is_empty() {
        out.put(" -");
    }
}

/// What comes of a call that was answered. Adds what it gives.
fn answered(
    alloc: Global,
    out: &mut Spelling,
    p: &Problem<'_>,
    covered: &Covered,
    proved: &Proved,
) -> Result<Call, Memory>
    requires { HasQuery p.now }
{
    match covered {
        Covered::Answer {
            path,
            swaps,
            grounding,
        } => {
            out.put("answer at ");
            put_path(out, path.choices());
            out.put(", swappings");
            put_swaps(out, swaps.items());
            out.put(", ");
            out.put_number(grounding.items().len() as u64, " terms");
            let holds = answer_covers(alloc, p, path, covered, proved)?;
            Ok(Call {
                is_answer: true,
                holds,
            })
        }
        Covered::Stuck { path } => {
            out.put("stuck at ");
            put_path(out, path.choices());
            let holds = is_stuck(alloc, p, path)?;
            Ok(Call {
                is_answer: false,
                holds,
            })
        }
    }
}

/// What comes of the call on a proof of a problem's query. Adds what it gives.
fn call_on(
    alloc: Global,
    out: &mut Spelling,
    p: &Problem<'_>,
    proved: &Proved,
) -> Result<Call, Memory>
    requires { HasQuery p.now }
{
    match covered_by(alloc, p, proved)? {
        Some(covered) => answered(alloc, out, p, &covered, proved),
        None => {
            out.put("not taken");
            Ok(Call {
                is_answer: false,
                holds: true,
            })
        }
    }
}

/// Whether the call gives for each proof of queries of a program with its index an answer that covers it. Adds a line for
/// each.
fn calls_in(
    out: &mut Spelling,
    depth: u32,
    index: &Index<'_>,
    proved: &[Proved],
) -> Result<bool, Memory> {
    let mut all = true;
    for one in proved {
        let Some(problem) = problem_of(index, one.query, depth) else {
            return Err(Memory);
        };
        let call = call_on(out.alloc(), out, &problem, one)?;
        all = all && call.is_answer && call.holds;
        out.put(if call.holds {
            "\n"
        } else {
            ", which does not hold\n"
        });
    }
    Ok(all)
}

/// The same for queries of a program.
fn calls_of(
    out: &mut Spelling,
    depth: u32,
    program: &Restricted,
    proved: &[Proved],
) -> Result<bool, Memory> {
    let index = Index::of(out.alloc(), program)?;
    calls_in(out, depth, &index, proved)
}

/// The same for the proofs of a bundle. Nothing is given for one whose text has a fault.
fn calls_on(out: &mut Spelling, depth: u32, bytes: &[u8]) -> Result<bool, Memory> {
    let bundle = read_bundle(out.alloc(), bytes).or(Err(Memory))?;
    match program_of(out.alloc(), bundle.text.items())? {
        Some(program) => calls_of(out, depth, &program, bundle.proved.items()),
        None => {
            out.lose_by(ErrorKind::InvalidInput);
            Ok(false)
        }
    }
}

/// Whether the call gives for each proof of a bundle an answer that covers it.
pub fn are_answered(alloc: Global, depth: u32, bytes: &[u8]) -> bool {
    let mut lines = Spelling::new(alloc);
    calls_on(&mut lines, depth, bytes).unwrap_or(false)
}

/// Tells what the call gives for each proof of a bundle, which stands behind a line with a depth.
pub fn call_all(out: &mut Spelling, depth: &str, bundle: &str) {
    let depth = out.number(depth);
    if calls_on(out, depth, bundle.as_bytes()).is_err() {
        out.lose();
    }
}
