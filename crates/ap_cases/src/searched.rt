//! What the search of a text's query comes to: its outputs with their paths, and the branches at some paths.
//!
//! The file `outputs` has a depth and a text in each part, and `branches` a text; these are searched to depth 1.
ghost use Rattle.ap_backchain.specs.Branches.{IsBranchOf};
ghost use Rattle.ap_backchain.specs.Problems.{HasQuery};

use crate::spelling::Spelling;
use ap_answers::printing::lines;
use ap_backchain::branch::Branch;
use ap_backchain::problem::{Problem, outputs};
use ap_defs::memory::Memory;
use ap_defs::paths::{Node, Out, Path};
use ap_paths::Limit;
use ap_replay::error::ReplayError;
use ap_replay::replay::at;
use ap_values::shown::canonical;
use std::alloc::Global;

const PATHS: [&[u32]; 5] = [&[], &[1], &[2], &[3], &[1, 1]];

fn digit(choice: u32) -> &'static str {
    match choice {
        1 => "1",
        2 => "2",
        3 => "3",
        _ => "4",
    }
}

fn letter(out: &Out) -> (&'static str, &Path) {
    match out {
        Out::Found(path, _) => ("F", path),
        Out::Cut(path) => ("C", path),
        Out::Stuck(path) => ("S", path),
    }
}

/// Adds a letter for an output, and the choices of its path.
fn put_output(word: &mut Spelling, out: &Out) {
    let (letter, path) = letter(out);
    word.put(letter);
    for k in path.choices() {
        word.put(digit(*k));
    }
}

/// Tells the outputs of a problem.
pub fn put_outputs(out: &mut Spelling, problem: &Problem<'_>) -> Result<(), Memory>
    requires { HasQuery problem.now }
{
    for one in &outputs(out.alloc(), problem, Limit::All)? {
        put_output(out, one);
    }
    Ok(())
}

/// What an answer binds and shows.
fn answer_word<'a>(
    alloc: Global,
    problem: &Problem<'a>,
    branch: &Branch<'a>,
) -> Result<&'static str, Memory>
    requires query { HasQuery problem.now }
    requires of { IsBranchOf problem.now branch.now }
{
    match branch.node() {
        Node::Answer => {
            let answer = branch.answer(alloc, problem)?;
            let shown = canonical(alloc, problem.program.restricted(), problem.query, &answer)?;
            let shows_all = shown.binds.items().len() == answer.binds.items().len();
            Ok(if shows_all {
                "answer"
            } else {
                "answer that hides some"
            })
        }
        _ => Ok("no answer"),
    }
}

/// What a branch stands at.
fn branch_word<'a>(
    alloc: Global,
    problem: &Problem<'a>,
    branch: &Branch<'a>,
) -> Result<&'static str, Memory>
    requires query { HasQuery problem.now }
    requires of { IsBranchOf problem.now branch.now }
{
    match branch.node() {
        Node::Choice(_, _) => Ok("choice"),
        Node::Cut => Ok("cut"),
        _ => answer_word(alloc, problem, branch),
    }
}

/// What the branch of a path stands at.
fn word_at<'a>(
    alloc: Global,
    problem: &Problem<'a>,
    choices: &[u32],
) -> Result<&'static str, Memory>
    requires { HasQuery problem.now }
{
    let path = Path::of(choices.to_vec(alloc)?);
    match at(alloc, problem, &path) {
        Ok(branch) => branch_word(alloc, problem, &branch),
        Err(ReplayError::NotABranch) => Ok("none"),
        Err(ReplayError::Memory) => Err(Memory),
    }
}

/// Tells the lines of a problem's query.
fn put_lines(out: &mut Spelling, problem: &Problem<'_>) -> Result<(), Memory>
    requires { HasQuery problem.now }
{
    let outs = outputs(out.alloc(), problem, Limit::All)?;
    let bytes = lines(
        out.alloc(),
        problem.program.restricted(),
        problem.query,
        &outs,
    )?;
    out.put_bytes(&bytes);
    Ok(())
}

/// Tells what the branches of the paths stand at, and the lines of the problem's query.
pub fn put_branches(out: &mut Spelling, problem: &Problem<'_>) -> Result<(), Memory>
    requires { HasQuery problem.now }
{
    for choices in &PATHS {
        let word = word_at(out.alloc(), problem, choices)?;
        out.put_all(&[word, ". "]);
    }
    out.put("\n");
    put_lines(out, problem)
}
