//! What is shown of a text.

use crate::nested::put_nest;
use crate::reading::{items_of, tokens_of};
use crate::spelling::Spelling;
use crate::trees::{put_form, put_tree, put_type};
use crate::typed::put_typed;
use crate::written::put_part;
use ap_defs::faults::SyntaxFault;
use ap_lexer::{Token, TokenKind};
use ap_syntax::SynError;
use ap_trees::{ReadError, Tree, TypeTree};
use ap_whole::{symbols_of, whole_term, whole_type};

/// What a text is read as, and what is shown of that.
#[derive(Clone, Copy)]
pub enum Reading {
    /// Its tokens.
    Tokens,
    /// Its items.
    Items,
    /// The term that it spells.
    Term,
    /// The type that it spells.
    Type,
    /// What is written of a part of its item.
    Part,
    /// Whether the text that it tells of is read.
    Nest,
    /// Its program with the kinds of its identifiers.
    Typed,
}

/// A token as its kind, its line, its span and its text.
fn put_token(out: &mut Spelling, token: &Token<'_>) {
    out.put(match token.kind {
        TokenKind::Var => "V",
        TokenKind::Ident => "I",
        TokenKind::Reserved => "R",
        TokenKind::Sign => "S",
    });
    out.put_number(token.line, ":");
    out.put_number(token.start, "-");
    out.put_number(token.end, " ");
    out.put(token.text);
    out.put(" ");
}

fn put_tokens(out: &mut Spelling, text: &str) -> Result<(), SynError> {
    let tokens = tokens_of(out.alloc(), text.as_bytes())?;
    for token in &tokens {
        put_token(out, token);
    }
    Ok(())
}

/// The items of a text, each as its line and what it says.
pub fn put_items(out: &mut Spelling, text: &str) -> Result<(), SynError> {
    let tokens = tokens_of(out.alloc(), text.as_bytes())?;
    let items = items_of(out.alloc(), &tokens)?;
    for item in &items {
        out.put_number(item.line, " ");
        put_form(out, &item.form);
        out.put(";");
    }
    Ok(())
}

fn put_read_tree(out: &mut Spelling, read: Result<Tree<'_>, ReadError>) {
    match read {
        Ok(tree) => put_tree(out, &tree),
        Err(ReadError::Grammar) => out.put("none"),
        Err(ReadError::Memory) => out.lose(),
    }
}

fn put_read_type(out: &mut Spelling, read: Result<TypeTree<'_>, ReadError>) {
    match read {
        Ok(tree) => put_type(out, &tree),
        Err(ReadError::Grammar) => out.put("none"),
        Err(ReadError::Memory) => out.lose(),
    }
}

fn put_term(out: &mut Spelling, text: &str) -> Result<(), SynError> {
    let tokens = tokens_of(out.alloc(), text.as_bytes())?;
    let symbols = symbols_of(out.alloc(), &tokens)?;
    put_read_tree(out, whole_term(out.alloc(), &symbols));
    Ok(())
}

fn put_whole_type(out: &mut Spelling, text: &str) -> Result<(), SynError> {
    let tokens = tokens_of(out.alloc(), text.as_bytes())?;
    let symbols = symbols_of(out.alloc(), &tokens)?;
    put_read_type(out, whole_type(out.alloc(), &symbols));
    Ok(())
}

/// A fault as its item, its line and its kind.
fn put_fault(out: &mut Spelling, fault: SyntaxFault) {
    out.put("fault ");
    out.put_number(fault.place.item as u64, " ");
    out.put_number(fault.place.line, " ");
    out.put_number(fault.kind.number() as u64, "");
}

/// What is shown of a text, or its fault.
pub fn put_shown(out: &mut Spelling, reading: Reading, text: &str) {
    let read = match reading {
        Reading::Tokens => put_tokens(out, text),
        Reading::Items => put_items(out, text),
        Reading::Term => put_term(out, text),
        Reading::Type => put_whole_type(out, text),
        Reading::Part => put_part(out, text),
        Reading::Nest => put_nest(out, text),
        Reading::Typed => put_typed(out, text),
    };
    match read {
        Ok(()) => {}
        Err(SynError::Fault(fault)) => put_fault(out, fault),
        Err(SynError::Memory) => out.lose(),
    }
}
