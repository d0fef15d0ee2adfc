// The tokens of a text, one after another.
ghost use Rattle.std.specs.Prelude.{◌≡◌, ◌≤◌, ◌+◌, IfOk, length, count_by};
ghost use Rattle.ap_defs.specs.Limits.{size_limit};
ghost use Rattle.ap_lexer.specs.Laws.{AreTokensOf};
ghost use Rattle.ap_lexer.specs.Cursors.{HasStopped};
ghost use Rattle.ap_lexer.specs.Tokens.{GivesLexemes, lexed, lexemes, lexemes_of, is_dot};

use crate::cursor::Cursor;
use crate::token::{LexError, Token};
use std::alloc::{AllocError, Global};

/// The tokens of a text, and the place at which nothing begins.
#[derive(Drop)]
struct Scanned<'a> {
    tokens: Vec<Token<'a>>,
    end: Cursor<'a>,
}

/// The tokens of a text.
fn scan(alloc: Global, text: &[u8]) -> Result<Scanned<'_>, AllocError>
    requires { length text.now ≤ size_limit }
    ensures whole { IfOk result (λ s. s.end.whole.now ≡ text.now) }
    ensures tokens { IfOk result (λ s. lexemes s.tokens.items ≡ lexemes_of s.end.text.now) }
    ensures stop { IfOk result (λ s. HasStopped s.end) }
    ensures few { IfOk result (λ s. length s.tokens.items ≤ length text.now) }
    ensures longest { IfOk result (λ s. AreTokensOf s.end.text.now (lexemes s.tokens.items)) }
{
    let mut tokens = Vec::new(alloc);
    let mut cursor = Cursor::of(text);
    while let Some(token) = cursor.token() {
        tokens.push(token)?;
    }
    Ok(Scanned {
        tokens,
        end: cursor,
    })
}

/// How many `.` there are.
fn count_dots(tokens: &[Token<'_>]) -> usize
    ensures value { result ≡ count_by is_dot (lexemes tokens.now) }
    ensures bound { result ≤ length tokens.now }
{
    tokens.iter().filter(|token| token.ends_item()).count()
}

/// The tokens of a text, in order, by the longest token at each place.
///
/// Between tokens stand spaces, tabs, CRs and LFs, and comments from `%` to the next LF or the end
/// of the text. A text that has anything else is faulty at the first byte at which nothing begins,
/// also where the bytes of a comment aren't UTF-8.
pub fn lex(alloc: Global, text: &[u8]) -> Result<Vec<Token<'_>>, LexError>
    requires { length text.now ≤ size_limit }
    ensures read { GivesLexemes (λ v. lexemes v.items) result (lexed text.now) }
    ensures longest { IfOk result (λ v. AreTokensOf text.now (lexemes v.items)) }
{
    let Scanned { tokens, end } = scan(alloc, text)?;
    match end.fault(1 + count_dots(&tokens) as u32) {
        None => Ok(tokens),
        Some(fault) => Err(LexError::Fault(fault)),
    }
}
