//! Texts that are nested so deeply, or that have so many parts, that they are told of.

use crate::reading::{items_of, tokens_of};
use crate::spelling::Spelling;
use ap_syntax::SynError;

/// A text: what it begins with, an opening so often, what is in the middle, a closing as often, and its end.
#[derive(Clone, Copy)]
struct Nest<'a> {
    count: u32,
    before: &'a str,
    opening: &'a str,
    middle: &'a str,
    closing: &'a str,
    behind: &'a str,
}

/// What a line tells of: the count and the five parts have a `~` between each two.
fn nest_of<'a>(out: &mut Spelling, line: &'a str) -> Nest<'a> {
    let mut words = line.split('~');
    Nest {
        count: out.number(words.next().unwrap_or("")),
        before: words.next().unwrap_or(""),
        opening: words.next().unwrap_or(""),
        middle: words.next().unwrap_or(""),
        closing: words.next().unwrap_or(""),
        behind: words.next().unwrap_or(""),
    }
}

/// Adds a text so often, and then another.
fn put_often(out: &mut Spelling, count: u32, text: &str, end: &str) {
    for _ in 0..count {
        out.put(text);
    }
    out.put(end);
}

/// The text that a line tells of.
pub fn nested_text(out: &mut Spelling, line: &str) -> String {
    let nest = nest_of(out, line);
    let mut text = Spelling::new(out.alloc());
    text.put(nest.before);
    put_often(&mut text, nest.count, nest.opening, nest.middle);
    put_often(&mut text, nest.count, nest.closing, nest.behind);
    out.taken(text)
}

/// Tells that the text is read that a line tells of.
pub fn put_nest(out: &mut Spelling, line: &str) -> Result<(), SynError> {
    let text = nested_text(out, line);
    let tokens = tokens_of(out.alloc(), text.as_bytes())?;
    let _items = items_of(out.alloc(), &tokens)?;
    out.put("read");
    Ok(())
}
