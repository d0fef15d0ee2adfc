//! What two workers do to the tree of a query with two answers, of which one is wanted.

ghost use Rattle.std.specs.Prelude.{IfSome};
ghost use Rattle.ap_backchain.specs.Problems.{HasQuery};

use ap_backchain::problem::Problem;
use ap_backchain::run::Paths;
use ap_defs::limits::SIZE_LIMIT;
use ap_defs::lists::List;
use ap_defs::memory::Memory;
use ap_index::index::Index;
use ap_play::{Core, play};
use ap_program::restricted::Restricted;
use ap_replay::problem_tree::ProblemTree;
use ap_text::program_of_text;
use ap_tools::Event;
use std::alloc::Global;

/// The query has an answer at [1] and one at [2].
const TEXT: &str = "id : name_type. ?- X = a ; X = b.";

/// The program of a text.
pub fn program_of(alloc: Global, text: &str) -> Result<Restricted, Memory> {
    if text.len() > SIZE_LIMIT {
        return Err(Memory);
    }
    program_of_text(alloc, text.as_bytes()).or(Err(Memory))
}

/// The query of a program that has one, to a depth.
pub fn only_query<'a>(program: &'a Index<'_>, depth: u32) -> Option<Problem<'a>>
    ensures { IfSome result (λ p. HasQuery p) }
{
    if program.program().queries.items().len() == 1 {
        Some(Problem {
            program: &*program,
            query: 1,
            depth,
        })
    } else {
        None
    }
}

/// The core after these events, of a program with its index.
fn played_by(alloc: Global, index: &Index<'_>, events: &[Event]) -> Result<Option<Core>, Memory> {
    match only_query(index, 5) {
        Some(problem) => {
            let tree = ProblemTree::of(problem, Paths::Kept);
            play(alloc, &tree, 2, events)
        }
        None => Err(Memory),
    }
}

/// The core after these events, of a program.
fn played_in(
    alloc: Global,
    program: &Restricted,
    events: &[Event],
) -> Result<Option<Core>, Memory> {
    let index = Index::of(alloc, program)?;
    played_by(alloc, &index, events)
}

/// The core after these events.
fn played(alloc: Global, events: &[Event]) -> Result<Option<Core>, Memory> {
    let program = program_of(alloc, TEXT)?;
    played_in(alloc, &program, events)
}

/// The first worker splits the empty path, shares [2], ends [1] and takes [2] back, which is left out.
fn left_out(alloc: Global) -> Result<Option<Core>, Memory> {
    let kids = List::of(Vec::from_array(alloc, [1, 2])?);
    let events = vec![in alloc;
        Event::Split(0, kids),
        Event::Push(0),
        Event::Done(0),
        Event::Pop(0),
        Event::Skip(0, 1),
    ]?;
    played(alloc, events.as_slice())
}

/// The second worker takes [2], and leaves it out before [1] has ended.
fn left_out_early(alloc: Global) -> Result<Option<Core>, Memory> {
    let kids = List::of(Vec::from_array(alloc, [1, 2])?);
    let events = vec![in alloc;
        Event::Split(0, kids),
        Event::Push(0),
        Event::Steal(1, 0),
        Event::Skip(1, 1),
    ]?;
    played(alloc, events.as_slice())
}

/// Whether nothing is pending, and [2] alone was left out.
fn leaves_out_the_second(core: &Core) -> bool {
    match core.skipped.items() {
        [path] => {
            core.pending.items().is_empty()
                && core.done.items().len() == 1
                && path.choices() == [2].as_slice()
        }
        _ => false,
    }
}

#[test]
fn a_path_behind_an_answer_is_left_out(rt: HostRuntime) {
    let left = left_out(rt.alloc());
    assert!(rt; matches!(&left, Ok(Some(core)) if leaves_out_the_second(core)));
}

#[test]
fn a_path_is_not_left_out_before_the_answer_has_ended(rt: HostRuntime) {
    assert!(rt; matches!(left_out_early(rt.alloc()), Ok(None)));
}
