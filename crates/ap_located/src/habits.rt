//! Slips of those who come from other languages.
ghost use Rattle.std.specs.Prelude.{◌≡◌};

use crate::habit_table::{Also, HABITS};
use crate::items::text_at;
use crate::nodes::{Form, Node, node_at};
use crate::slips::{Slip, Wanted};
use crate::symbols::{Symbol, symbol_at};
use ap_lexer::Token;

/// A token at which an item can't go on, with what stands round it.
#[derive(Clone, Copy)]
struct Around<'a> {
    token: Symbol,
    before: Symbol,
    text: &'a str,
    // whether the item is a declaration
    declares: bool,
    wanted: Wanted,
    open: Form,
    // the word that opens the open node
    opener: &'a str,
}

fn around_of<'a>(tokens: &[Token<'a>], nodes: &[Node], slip: Slip) -> Around<'a> {
    let open = node_at(nodes, slip.open);
    let before = match slip.token.checked_sub(1) {
        Some(place) => symbol_at(tokens, place),
        None => Symbol::No,
    };
    Around {
        token: symbol_at(tokens, slip.token),
        before,
        text: text_at(tokens, slip.token),
        declares: matches!(symbol_at(tokens, 0), Symbol::Predicate)
            || matches!(symbol_at(tokens, 1), Symbol::Colon),
        wanted: slip.wanted,
        open: open.form,
        opener: text_at(tokens, open.first),
    }
}

/// Whether what is found is one of these, or there are none.
fn fits<T: PartialEq>(all: &[T], found: &T) -> bool {
    all.is_empty() || all.contains(found)
}

/// Whether what else must be so is so.
fn holds(also: Also, at: Around<'_>) -> bool {
    match also {
        Also::Nothing => true,
        Also::GoesOn => at.wanted != Wanted::Close,
        Also::Declares => at.declares,
        Also::Is => at.text == "is",
        Also::InNot => at.opener == "not",
    }
}

/// What those who wrote this may not know.
pub fn habit(tokens: &[Token<'_>], nodes: &[Node], slip: Slip) -> Option<&'static str> {
    let at = around_of(tokens, nodes, slip);
    for (wanted, token, before, open, also, note) in &HABITS {
        let stands = fits(*wanted, &at.wanted) && fits(*token, &at.token);
        let round = fits(*before, &at.before) && fits(*open, &at.open);
        if stands && round && holds(*also, at) {
            return Some(*note);
        }
    }
    None
}
