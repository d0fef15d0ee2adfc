//! What is asked of texts, one by one: which clauses of a predicate atoms with some keys may enter, or something of the
//! search of the first query.
ghost use Rattle.ap_backchain.specs.Problems.{HasQuery};

use crate::keys::put_kids;
use crate::problems::{problem_of, program_of};
use crate::searched::{put_branches, put_outputs};
use crate::spelling::Spelling;
use crate::visits::put_visit;
use ap_backchain::problem::Problem;
use ap_defs::memory::Memory;
use ap_defs::paths::Path;
use ap_index::index::Index;
use ap_program::restricted::Restricted;
use std::io::ErrorKind;

/// What is asked of a search.
#[derive(Clone, Copy)]
pub enum Search<'q> {
    /// Its outputs.
    Outputs,
    /// The branches at some paths, and its lines.
    Branches,
    /// What a visit of a path answers that makes so many choices at most.
    Visit(Option<u64>, &'q Path),
}

/// What is asked of a text.
#[derive(Clone, Copy)]
pub enum Question<'q> {
    /// The clauses of a predicate for each of some keys.
    Kids(&'q str, &'q str),
    /// Of the search of its first query to a depth.
    Search(u32, Search<'q>),
}

/// Answers what is asked of the search of a problem.
fn put_searched(out: &mut Spelling, search: Search<'_>, problem: &Problem<'_>) -> Result<(), Memory>
    requires { HasQuery problem.now }
{
    match search {
        Search::Outputs => put_outputs(out, problem),
        Search::Branches => put_branches(out, problem),
        Search::Visit(most, path) => put_visit(out, problem, most, path),
    }
}

/// Answers what is asked of a program with its index. Where it has no query, what is asked of its search is lost.
fn put_by(out: &mut Spelling, question: Question<'_>, index: &Index<'_>) -> Result<(), Memory> {
    match question {
        Question::Kids(pred, keys) => put_kids(out, index, pred, keys),
        Question::Search(depth, search) => match problem_of(index, 1, depth) {
            Some(problem) => put_searched(out, search, &problem),
            None => {
                out.lose_by(ErrorKind::InvalidInput);
                Ok(())
            }
        },
    }
}

/// Answers what is asked of a program.
fn put_in(out: &mut Spelling, question: Question<'_>, program: &Restricted) -> Result<(), Memory> {
    let index = Index::of(out.alloc(), program)?;
    put_by(out, question, &index)
}

/// Answers what is asked of a text. A text with a fault has no answer, which is lost.
pub fn put_answer(out: &mut Spelling, question: Question<'_>, text: &str) {
    let answered = match program_of(out.alloc(), text.as_bytes()) {
        Ok(Some(program)) => put_in(out, question, &program),
        Ok(None) => {
            out.lose_by(ErrorKind::InvalidInput);
            Ok(())
        }
        Err(Memory) => Err(Memory),
    };
    if answered.is_err() {
        out.lose();
    }
}
