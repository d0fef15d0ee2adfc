//! The derivations of the answers of texts: each is made again from its path, and all of a text are written as a bundle,
//! which is read again and checked. `prove` writes the same bundle, `check` the number of its derivations in each of its
//! versions, `convert` each version for each, and `cover` for each ground proof the answer that it is of.
ghost use Rattle.std.specs.Prelude.{◌≡◌, length};
ghost use Rattle.ap_defs.specs.Goals.{program_of};
ghost use Rattle.ap_backchain.specs.Branches.{IsBranchOf};
ghost use Rattle.ap_backchain.specs.Problems.{HasQuery};

use crate::bundles::{both_versions, verdict_on};
use crate::covering::cover_bundle;
use crate::problems::program_of;
use crate::proving::{Written, are_proved};
use crate::spelling::Spelling;
use ap_backchain::branch::Branch;
use ap_backchain::problem::{Problem, outputs};
use ap_bundle_read::read_bundle;
use ap_defs::lists::List;
use ap_defs::memory::Memory;
use ap_defs::outcomes::Verdict;
use ap_defs::paths::{Node, Out, Path};
use ap_derive::assembling::Derived;
use ap_derive::derivations::derive;
use ap_index::index::Index;
use ap_paths::Limit;
use ap_program::restricted::Restricted;
use ap_replay::replay::at;
use ap_shared::arena::SharedTerms;
use ap_shared::derivations::{SharedBundle, SharedProved};
use ap_shared::sharing::share_answer;
use std::alloc::Global;
use std::rc::Rc;
use std::sync::Wait;
use std::thread::Threads;

/// The answer at which a branch stands, with its derivation, or none at another branch.
pub fn proved_at<'a>(
    alloc: Global,
    problem: &Problem<'a>,
    branch: &Branch<'a>,
) -> Result<Option<SharedProved>, Memory>
    requires query { HasQuery problem.now }
    requires of { IsBranchOf problem.now branch.now }
{
    match branch.node() {
        Node::Answer => {
            let answer = branch.answer(alloc, problem)?;
            let mut terms = SharedTerms::new(alloc);
            let answer = share_answer(alloc, &mut terms, &answer)?;
            let Derived { terms, derivation } = derive(alloc, problem, branch, terms)?;
            Ok(Some(SharedProved {
                query: problem.query,
                terms: Rc::new(alloc, terms)?,
                answer,
                derivation,
            }))
        }
        _ => Ok(None),
    }
}

/// Adds the answer at which a branch stands, with its derivation, if there is one.
fn add_proved<'a>(
    alloc: Global,
    problem: &Problem<'a>,
    branch: &Branch<'a>,
    all: &mut Vec<SharedProved>,
) -> Result<(), Memory>
    requires query { HasQuery problem.now }
    requires of { IsBranchOf problem.now branch.now }
{
    if let Some(proved) = proved_at(alloc, problem, branch)? {
        all.push(proved)?;
    }
    Ok(())
}

/// Adds the answer at a path, with its derivation, if there is one.
fn prove_at(
    alloc: Global,
    problem: &Problem<'_>,
    path: &Path,
    all: &mut Vec<SharedProved>,
) -> Result<(), Memory>
    requires { HasQuery problem.now }
{
    match at(alloc, problem, path) {
        Ok(branch) => add_proved(alloc, problem, &branch, all),
        Err(_) => Err(Memory),
    }
}

/// Adds the answers of a query with their derivations.
fn prove_query(
    alloc: Global,
    problem: &Problem<'_>,
    all: &mut Vec<SharedProved>,
) -> Result<(), Memory>
    requires { HasQuery problem.now }
{
    for out in &outputs(alloc, problem, Limit::All)? {
        if let Out::Found(path, _) = out {
            prove_at(alloc, problem, path, all)?;
        }
    }
    Ok(())
}

/// How many queries a program has.
fn query_count(program: &Index<'_>) -> u32
    ensures { result ≡ length (program_of program.now).queries }
{
    program.program().queries.items().len() as u32
}

/// The answers of the queries of a program with its index, with their derivations.
fn prove_queries(
    alloc: Global,
    program: &Index<'_>,
    depth: u32,
) -> Result<Vec<SharedProved>, Memory> {
    let count = query_count(program);
    let mut all = Vec::new(alloc);
    for place in 0..count {
        let problem = Problem {
            program: &*program,
            query: place + 1,
            depth,
        };
        prove_query(alloc, &problem, &mut all)?;
    }
    Ok(all)
}

/// The answers of the queries of a program, with their derivations.
fn prove_program(
    alloc: Global,
    program: &Restricted,
    depth: u32,
) -> Result<Vec<SharedProved>, Memory> {
    let index = Index::of(alloc, program)?;
    prove_queries(alloc, &index, depth)
}

/// How many answers there are, how many derivations of them check, and how many of these are ground proofs.
#[derive(Clone, Copy)]
pub struct Tally {
    answers: usize,
    checked: usize,
    grounds: usize,
}

/// There are none.
pub const NONE: Tally = Tally {
    answers: 0,
    checked: 0,
    grounds: 0,
};

impl Tally {
    /// Both together.
    pub fn plus(self, other: Tally) -> Tally {
        Tally {
            answers: self.answers.saturating_add(other.answers),
            checked: self.checked.saturating_add(other.checked),
            grounds: self.grounds.saturating_add(other.grounds),
        }
    }
}

/// How many derivations check in the bundle that the bytes are.
fn checked_in(alloc: Global, bytes: &[u8], program: &Restricted) -> Result<usize, Memory> {
    let bundle = read_bundle(alloc, bytes).or(Err(Memory))?;
    let mut count: usize = 0;
    for proved in bundle.proved.items() {
        if matches!(verdict_on(alloc, program, proved)?, Verdict::Yes) {
            count = count.saturating_add(1);
        }
    }
    Ok(count)
}

/// The bundle of a text and of answers with their derivations, in both versions.
fn bundle_bytes(alloc: Global, text: &str, proved: Vec<SharedProved>) -> Result<Written, Memory> {
    let bundle = SharedBundle {
        text: List::of(text.as_bytes().to_vec(alloc)?),
        proved: List::of(proved),
    };
    both_versions(alloc, &bundle)
}

/// A bundle of all answers of a text's program, how many these are, and how many of their derivations check.
#[derive(Drop)]
struct Checked {
    written: Written,
    answers: usize,
    checked: usize,
}

/// The answers of a text, and a line where `prove`, `check`, `convert` or `cover` write anything else.
fn tally_written<R: Threads + Wait + Sync>(
    rt: &R,
    out: &mut Spelling,
    depth: &str,
    text: &[u8],
    found: &Checked,
) -> Tally {
    if !are_proved(rt, out, text, depth, &found.written, found.answers) {
        out.put("% prove, check or convert writes otherwise\n");
    }
    Tally {
        answers: found.answers,
        checked: found.checked,
        grounds: cover_bundle(rt, out, depth, &found.written.shared),
    }
}

/// The bundle of the answers of a text's program.
fn checked_text(
    alloc: Global,
    text: &str,
    program: &Restricted,
    depth: u32,
) -> Result<Checked, Memory> {
    let proved = prove_program(alloc, program, depth)?;
    let answers = proved.len();
    let written = bundle_bytes(alloc, text, proved)?;
    let checked = checked_in(alloc, &written.shared, program)?;
    Ok(Checked {
        written,
        answers,
        checked,
    })
}

/// The answers of a text's program, and lines where a command writes otherwise for them.
fn tally_in<R: Threads + Wait + Sync>(
    rt: &R,
    out: &mut Spelling,
    depth: &str,
    text: &str,
    program: &Restricted,
) -> Tally {
    let number = out.number(depth);
    match checked_text(out.alloc(), text, program, number) {
        Ok(found) => tally_written(rt, out, depth, text.as_bytes(), &found),
        Err(Memory) => {
            out.lose();
            NONE
        }
    }
}

/// The answers of a text, and lines where a command writes otherwise for them. A text with a fault has none.
pub fn tally_of<R: Threads + Wait + Sync>(
    rt: &R,
    out: &mut Spelling,
    depth: &str,
    text: &str,
) -> Tally {
    match program_of(out.alloc(), text.as_bytes()) {
        Ok(Some(program)) => tally_in(rt, out, depth, text, &program),
        Ok(None) => NONE,
        Err(Memory) => {
            out.lose();
            NONE
        }
    }
}

/// Tells what texts come to together.
pub fn tell(out: &mut Spelling, name: &str, tally: Tally) {
    out.put_all(&[name, ": "]);
    out.put_number(tally.answers as u64, " answers, ");
    out.put_number(tally.checked as u64, " derivations check, ");
    out.put_number(tally.grounds as u64, " ground proofs\n");
}
