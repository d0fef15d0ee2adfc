//! What visits of paths answer, below which few choices are made, many, and no end of them.
//!
//! The file `visits` has parts. The first line of a part has a depth, how many choices the visit makes at most, or the
//! word `any`, and the choices of a path; the text behind it has the query that is searched.
ghost use Rattle.ap_backchain.specs.Problems.{HasQuery};

use crate::questions::{Question, Search, put_answer};
use crate::spelling::Spelling;
use ap_backchain::problem::Problem;
use ap_backchain::run::Paths;
use ap_defs::memory::Memory;
use ap_defs::paths::Path;
use ap_paths::{Tree, Visit};
use ap_replay::problem_tree::ProblemTree;
use ap_replay::replay::at;
use std::alloc::{AllocError, Global};

/// The path whose choices stand in a line behind two other words.
fn path_in(out: &mut Spelling, line: &str) -> Result<Path, AllocError> {
    let mut choices = Vec::new(out.alloc());
    for word in line.split(' ').skip(2) {
        choices.push(out.number(word))?;
    }
    Ok(Path::of(choices))
}

/// How many choices a line asks a visit to make at most.
fn most_of(out: &mut Spelling, line: &str) -> Option<u64> {
    let word = line.split(' ').nth(1).unwrap_or("");
    if word == "any" {
        return None;
    }
    Some(out.number(word) as u64)
}

/// What a visit of a path answers that makes so many choices at most.
fn visit_at(
    alloc: Global,
    problem: &Problem<'_>,
    most: Option<u64>,
    path: &Path,
) -> Result<Visit, Memory>
    requires { HasQuery problem.now }
{
    match at(alloc, problem, path) {
        Ok(_branch) => ProblemTree::of(*problem, Paths::Kept).visit(alloc, path, most),
        Err(_refused) => Err(Memory),
    }
}

/// Tells what a visit of a path answers.
pub fn put_visit(
    out: &mut Spelling,
    problem: &Problem<'_>,
    most: Option<u64>,
    path: &Path,
) -> Result<(), Memory>
    requires { HasQuery problem.now }
{
    match visit_at(out.alloc(), problem, most, path)? {
        Visit::Outs(runs) => out.put_number(runs.items().len() as u64, " runs of outputs\n"),
        Visit::Kids(ways) => {
            out.put("the ways ");
            out.put_numbers(ways.items());
            out.put("\n");
        }
    }
    Ok(())
}

/// Tells what a line asks for, and what the visit answers.
pub fn visit_text(out: &mut Spelling, line: &str, text: &str) {
    out.put_all(&[line, ": "]);
    let depth = out.number(line.split(' ').next().unwrap_or(""));
    let most = most_of(out, line);
    match path_in(out, line) {
        Ok(path) => {
            let visit = Search::Visit(most, &path);
            put_answer(out, Question::Search(depth, visit), text);
        }
        Err(_) => out.lose(),
    }
}
