//! Types as they are written.
ghost use Rattle.std.specs.Prelude.{◌≡◌};

use crate::declared::Words;
use crate::types::{Shape, Types};
use ap_located::messages::{Message, Piece};
use std::alloc::{AllocError, Global};

/// A part of a type that is still to be written.
#[derive(Clone, Copy)]
enum Rest {
    Type(usize),
    /// The right part of a tuple, and its closing bracket.
    Right(usize),
    Sign(&'static str),
}

/// The parts of a type that are written, at most.
const PARTS: usize = 60;

/// The part that is written next, if any, and what is left behind it.
fn write_next(
    message: &mut Message,
    work: &mut Vec<Rest>,
    words: &Words<'_>,
    types: &Types,
    next: Rest,
) -> Result<(), AllocError> {
    match next {
        Rest::Sign(sign) => {
            message.say_text(sign);
            Ok(())
        }
        Rest::Type(part) => {
            let shape = types.shape(part);
            write_begin(message, words, shape);
            add_parts(work, shape)
        }
        Rest::Right(part) => add_right(work, types.shape(part), part),
    }
}

/// The right part of a tuple.
fn add_right(work: &mut Vec<Rest>, shape: Shape, part: usize) -> Result<(), AllocError> {
    if let Shape::Pair(_, _) = shape {
        add_parts(work, shape)
    } else {
        work.extend_from_slice(&[Rest::Sign(")"), Rest::Type(part)])
    }
}

/// How a type begins.
fn write_begin(message: &mut Message, words: &Words<'_>, shape: Shape) {
    let piece = match shape {
        Shape::Open | Shape::OpenName | Shape::Link(_) => Piece::Text("_"),
        Shape::Unit => Piece::Text("()"),
        Shape::Name(word) | Shape::Data(word) => Piece::Word(words.types.word_at(word)),
        Shape::Pair(_, _) => Piece::Text("("),
        Shape::List(_) => Piece::Text("["),
        Shape::Abs(_, _) => Piece::Text(""),
    };
    message.say("@", &[piece]);
}

/// How a type goes on.
fn add_parts(work: &mut Vec<Rest>, shape: Shape) -> Result<(), AllocError> {
    match shape {
        Shape::Pair(left, right) => {
            work.extend_from_slice(&[Rest::Right(right), Rest::Sign(", "), Rest::Type(left)])
        }
        Shape::List(element) => work.extend_from_slice(&[Rest::Sign("]"), Rest::Type(element)]),
        Shape::Abs(name, body) => {
            work.extend_from_slice(&[Rest::Type(body), Rest::Sign("\\"), Rest::Type(name)])
        }
        _ => Ok(()),
    }
}

fn write_type(
    message: &mut Message,
    alloc: Global,
    words: &Words<'_>,
    types: &Types,
    number: usize,
) -> Result<(), AllocError> {
    let mut work = Vec::new(alloc);
    work.extend_from_slice(&[Rest::Type(number)])?;
    for _ in 0..PARTS {
        let Some(next) = work.pop() else {
            return Ok(());
        };
        write_next(message, &mut work, words, types, next)?;
    }
    message.say_text("..");
    Ok(())
}

/// Says a type as it is written, with `_` for what is not known, cut where it is long.
pub fn say_type(
    message: &mut Message,
    alloc: Global,
    words: &Words<'_>,
    types: &Types,
    number: usize,
) {
    if write_type(message, alloc, words, types, number).is_err() {
        message.lose();
    }
}

/// Says a type in words.
pub fn say_kind(
    message: &mut Message,
    alloc: Global,
    words: &Words<'_>,
    types: &Types,
    number: usize,
) {
    match types.shape(number) {
        Shape::OpenName => message.say_text("a name type"),
        Shape::Open => message.say_text("any type"),
        _ => {
            message.say_text("the type `");
            say_type(message, alloc, words, types, number);
            message.say_text("`");
        }
    }
}
