//! Warnings about a text that has a program.
ghost use Rattle.std.specs.Prelude.{◌≡◌, ◌≤◌, length};
ghost use Rattle.ap_defs.specs.Limits.{size_limit};

use crate::marks::{Mark, Scanner, text_at};
use crate::parts::Part;
use crate::places::put_arguments;
use crate::singles::single_variables;
use crate::uses::{Call, Uses};
use ap_defs::memory::Memory;
use ap_located::messages::{Message, Piece, add_message};
use ap_located::spots::Span;
use std::alloc::Global;

/// The warnings that are written, at most.
const MOST: usize = 20;

/// What gathers the warnings of a text.
#[derive(Drop)]
struct Warner<'t> {
    text: &'t str,
    // for each predicate that is called, whether it has no clauses, and wasn't told yet
    untold: Vec<bool>,
    // where the arguments of a head begin
    begins: Vec<usize>,
    count: usize,
    out: String,
}

/// The bytes of the token at a place.
fn span_at(marks: &[Mark], place: usize) -> Span {
    match marks.get(place) {
        Some(mark) => Span {
            start: mark.start(),
            end: mark.end(),
        },
        None => Span { start: 0, end: 1 },
    }
}

fn single_message(alloc: Global, text: &str, marks: &[Mark], place: usize) -> Message {
    let word = text_at(text, marks, place);
    let mut message = Message::new(alloc, span_at(marks, place));
    message.say(
        "the variable `@` stands once in its clause",
        &[Piece::Word(word)],
    );
    message.note(
        "where any term will do it is spelled `_` or `_@`; else is it misspelt?",
        &[Piece::Word(word)],
    );
    message
}

fn empty_message(alloc: Global, text: &str, marks: &[Mark], place: usize) -> Message {
    let mut message = Message::new(alloc, span_at(marks, place));
    message.say(
        "no clause has the predicate `@`",
        &[Piece::Word(text_at(text, marks, place))],
    );
    message.note_text("this goal never holds");
    message
}

/// Of the argument at a place of a clause's head, with so many before it.
fn unmet_message(alloc: Global, text: &str, marks: &[Mark], rank: usize, place: usize) -> Message {
    let word = text_at(text, marks, 0);
    let mut message = Message::new(alloc, span_at(marks, place));
    message.say(
        "no goal of this text can use this clause of `@`",
        &[Piece::Word(word)],
    );
    message.note(
        "each goal `@(..)` has another constructor as argument @",
        &[
            Piece::Word(word),
            Piece::Number(rank.saturating_add(1) as u64),
        ],
    );
    message
}

impl<'t> Warner<'t> {
    /// Of a text of which nothing was looked at.
    fn of(alloc: Global, text: &'t str, uses: &Uses<'_>) -> Result<Warner<'t>, Memory> {
        Ok(Warner {
            text,
            untold: uses.without_clauses(alloc)?,
            begins: Vec::new(alloc),
            count: 0,
            out: String::new(alloc),
        })
    }

    /// What was written.
    fn into_text(self) -> String {
        let Warner { out, .. } = self;
        out
    }

    /// Adds a warning; behind the last that is written it is only counted.
    fn warn(&mut self, alloc: Global, message: &Message) -> Result<(), Memory> {
        if self.count < MOST {
            add_message(
                alloc,
                &mut self.out,
                self.text.as_bytes(),
                "warning",
                message,
            )?;
        }
        self.count = self.count.saturating_add(1);
        Ok(())
    }

    fn warn_single(&mut self, alloc: Global, marks: &[Mark], place: usize) -> Result<(), Memory> {
        let message = single_message(alloc, self.text, marks, place);
        self.warn(alloc, &message)
    }

    fn warn_empty(&mut self, alloc: Global, marks: &[Mark], call: Call) -> Result<(), Memory> {
        let Some(untold) = self.untold.get_mut(call.predicate) else {
            return Ok(());
        };
        if !*untold {
            return Ok(());
        }
        *untold = false;
        let message = empty_message(alloc, self.text, marks, call.token);
        self.warn(alloc, &message)
    }

    /// Looks at the variables of a clause.
    fn look_at_variables(&mut self, alloc: Global, marks: &[Mark]) -> Result<(), Memory> {
        let singles = single_variables(alloc, self.text, marks)?;
        for place in &singles {
            self.warn_single(alloc, marks, *place)?;
        }
        Ok(())
    }

    /// Looks at the argument of a rank of a head, whose predicate is called.
    fn look_at_argument(
        &mut self,
        alloc: Global,
        uses: &Uses<'_>,
        marks: &[Mark],
        predicate: usize,
        rank: usize,
    ) -> Result<(), Memory> {
        let Some(place) = self.begins.get(rank).copied() else {
            return Ok(());
        };
        if uses.may_meet(marks, predicate, rank, place) {
            return Ok(());
        }
        let message = unmet_message(alloc, self.text, marks, rank, place);
        self.warn(alloc, &message)
    }

    /// Looks at the head of a clause.
    fn look_at_head(
        &mut self,
        alloc: Global,
        uses: &Uses<'_>,
        marks: &[Mark],
    ) -> Result<(), Memory> {
        let Some(predicate) = uses.called_place(text_at(self.text, marks, 0)) else {
            return Ok(());
        };
        put_arguments(marks, 0, &mut self.begins)?;
        for rank in 0..self.begins.len() {
            self.look_at_argument(alloc, uses, marks, predicate, rank)?;
        }
        Ok(())
    }

    /// Whether one of these calls has a predicate without clauses that wasn't told yet.
    fn has_untold(&self, calls: &[Call]) -> bool {
        for call in calls {
            if let Some(untold) = self.untold.get(call.predicate) {
                if *untold {
                    return true;
                }
            }
        }
        false
    }

    /// Looks at a clause or a query of these tokens, with its calls.
    fn look_at_part(
        &mut self,
        alloc: Global,
        uses: &Uses<'_>,
        marks: &[Mark],
        is_clause: bool,
        calls: &[Call],
    ) -> Result<(), Memory> {
        if is_clause {
            self.look_at_variables(alloc, marks)?;
            self.look_at_head(alloc, uses, marks)?;
        }
        for call in calls {
            self.warn_empty(alloc, marks, *call)?;
        }
        Ok(())
    }

    /// Looks at all clauses and queries, in order. The tokens are found again of those alone that have a warning.
    fn look_at_parts(&mut self, alloc: Global, uses: &Uses<'_>) -> Result<(), Memory> {
        let mut scanner = Scanner::of(alloc, self.text);
        let mut first = 0;
        let mut arguments = 0;
        for part in &uses.parts {
            let calls = uses.calls.get(first..part.calls()).unwrap_or(&[]);
            if uses.is_doubtful(part, arguments) || self.has_untold(calls) {
                scanner.find(part.start())?;
                self.look_at_part(alloc, uses, scanner.marks(), part.head.is_some(), calls)?;
            }
            first = part.calls();
            if let Some(head) = part.head {
                arguments = head.arguments();
            }
        }
        self.end()
    }

    /// Tells how many warnings are not written.
    fn end(&mut self) -> Result<(), Memory> {
        if self.count > MOST {
            let more = self.count.saturating_sub(MOST);
            write!(&mut self.out, "warnings that are not shown: {more}\n")?;
        }
        Ok(())
    }
}

/// The warnings about a text, whose uses are noted in what is lent.
fn warnings_by<'t>(alloc: Global, text: &'t str, uses: &mut Uses<'t>) -> Result<String, Memory> {
    uses.note_all(alloc)?;
    let mut warner = Warner::of(alloc, text, &*uses)?;
    let looked = warner.look_at_parts(alloc, &*uses);
    let said = warner.into_text();
    match looked {
        Ok(()) => Ok(said),
        Err(Memory) => Err(Memory),
    }
}

/// The warnings about a text.
fn warnings_of(alloc: Global, text: &str) -> Result<String, Memory> {
    let mut uses = Uses::new(alloc, text);
    warnings_by(alloc, text, &mut uses)
}

/// The warnings about a text that has a program, as they are written: of variables that stand once in a clause, of
/// predicates without clauses that a goal calls, and of clauses that no goal can use, since each that calls the
/// predicate has another constructor at the place of an argument. `Err` is want of memory.
pub fn warnings(alloc: Global, text: &[u8]) -> Result<String, Memory>
    requires { length text.now ≤ size_limit }
{
    match std::str::from_utf8(text) {
        Ok(text) => warnings_of(alloc, text),
        Err(_) => Ok(String::new(alloc)),
    }
}
