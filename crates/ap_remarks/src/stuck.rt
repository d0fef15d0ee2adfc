//! What helps where branches were cut or stuck.
ghost use Rattle.std.specs.Prelude.{◌≡◌, ◌≤◌, length};
ghost use Rattle.ap_defs.specs.Limits.{size_limit};

use crate::tally::Tally;
use ap_defs::memory::Memory;
use ap_lexer::{LexError, Token, lex};
use ap_located::items::{declared_word, ranges_of, span_between, text_at, tokens_in};
use ap_located::messages::{Message, Piece, add_message};
use ap_located::nodes::{Form, Node, node_at};
use ap_located::reader::read_item;
use std::alloc::Global;

/// The goals that are shown, at most.
const MOST: usize = 3;

/// Freshness goals with a variable on their left, as they are shown.
#[derive(Drop)]
struct Goals<'t> {
    text: &'t [u8],
    count: usize,
    out: String,
}

/// The part of the goal at a place with this rank.
fn right_part(nodes: &[Node], place: usize) -> Node {
    for node in nodes {
        if node.parent == place && node.rank == 1 {
            return *node;
        }
    }
    node_at(nodes, place)
}

/// Notes how the goal at a place with a variable on its left is turned.
fn note_way_out<'a>(message: &mut Message, tokens: &[Token<'a>], variable: &'a str, right: Node) {
    let of = Piece::Word(variable);
    if matches!(right.form, Form::Word) {
        message.note(
            "put the name on the left, `@ # @`, or the goal behind those that make `@` a name",
            &[Piece::Word(text_at(tokens, right.first)), of, of],
        );
    } else {
        message.note("put the goal behind those that make `@` a name", &[of]);
    }
}

fn stuck_message(alloc: Global, tokens: &[Token<'_>], nodes: &[Node], place: usize) -> Message {
    let goal = node_at(nodes, place);
    let mut message = Message::new(alloc, span_between(tokens, goal.first, goal.last));
    message.say_text("a branch is stuck where the left side of this goal is still a variable");
    let variable = text_at(tokens, goal.first);
    note_way_out(&mut message, tokens, variable, right_part(nodes, place));
    message
}

impl<'t> Goals<'t> {
    fn show(
        &mut self,
        alloc: Global,
        tokens: &[Token<'_>],
        nodes: &[Node],
        place: usize,
    ) -> Result<(), Memory> {
        self.count = self.count.saturating_add(1);
        let message = stuck_message(alloc, tokens, nodes, place);
        add_message(alloc, &mut self.out, self.text, "note", &message)
    }

    fn add_item(&mut self, alloc: Global, tokens: &[Token<'_>]) -> Result<(), Memory> {
        if declared_word(tokens).is_some() {
            return Ok(());
        }
        let reading = read_item(alloc, tokens)?;
        let nodes = reading.nodes.all();
        for (place, node) in nodes.iter().enumerate() {
            let left = node_at(nodes, place.saturating_add(1));
            let is_fresh = matches!(node.form, Form::Fresh);
            let open = is_fresh && matches!(left.form, Form::Variable);
            if open && self.count < MOST {
                self.show(alloc, tokens, nodes, place)?;
            }
        }
        Ok(())
    }
}

/// The first goals of a text that may be stuck.
fn stuck_goals(alloc: Global, text: &[u8], tokens: &[Token<'_>]) -> Result<String, Memory> {
    let ranges = ranges_of(alloc, tokens)?;
    let mut goals = Goals {
        text,
        count: 0,
        out: String::new(alloc),
    };
    for range in &ranges {
        if goals.count < MOST {
            goals.add_item(alloc, tokens_in(tokens, *range))?;
        }
    }
    let Goals { out, .. } = goals;
    Ok(out)
}

fn stuck_remarks(alloc: Global, text: &[u8]) -> Result<String, Memory>
    requires { length text.now ≤ size_limit }
{
    match lex(alloc, text) {
        Ok(tokens) => stuck_goals(alloc, text, &tokens),
        Err(LexError::Fault(_)) => Ok(String::new(alloc)),
        Err(LexError::Memory) => Err(Memory),
    }
}

fn add_cut(out: &mut String, cut: u64) -> Result<(), Memory> {
    write!(
        out,
        "note: branches that were cut at the depth: {cut}; a run with a greater number behind `--depth` follows them further\n"
    )?;
    Ok(())
}

/// What is written where branches of a text's queries were cut or stuck: how to go deeper, and the first freshness
/// goals whose left side is a variable, since a branch is stuck at one of these. `Err` is want of memory.
pub fn branch_remarks(alloc: Global, text: &[u8], tally: Tally) -> Result<String, Memory>
    requires { length text.now ≤ size_limit }
{
    let mut out = if tally.stuck() > 0 {
        stuck_remarks(alloc, text)?
    } else {
        String::new(alloc)
    };
    if tally.cut() > 0 {
        add_cut(&mut out, tally.cut())?;
    }
    Ok(out)
}
