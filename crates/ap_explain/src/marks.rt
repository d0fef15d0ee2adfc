//! Whether a message marks a place of the fault that it is about.
ghost use Rattle.std.specs.Prelude.{◌≡◌, ◌≤◌, ◌==◌, IsTrue, IfSome, length, take, count_by};
ghost use Rattle.ap_lexer.specs.Tokens.{lexemes, line_at, is_dot, item_after};
ghost use Rattle.ap_explain.specs.Marks.{StandsIn};

use ap_lexer::Token;
use ap_located::messages::Message;

fn count_lines(text: &[u8]) -> usize
    ensures value { result ≡ count_by (λ b. b == 10) text.now }
    ensures bound { result ≤ length text.now }
{
    text.iter().filter(|byte| **byte == b'\n').count()
}

/// The line of a byte of a text, from 1.
fn line_of(text: &[u8], byte: usize) -> usize
    requires { byte ≤ length text.now }
    ensures { result ≡ line_at text.now byte }
{
    1 + count_lines(&text[..byte])
}

/// The message, if it marks a byte of the line.
pub fn in_line(text: &[u8], line: u64, message: Message) -> Option<Message>
    ensures { IfSome result (λ m. line_at text.now m.span.start ≡ line) }
{
    let byte = message.span.start;
    if byte <= text.len() && line_of(text, byte) as u64 == line {
        Some(message)
    } else {
        None
    }
}

fn count_dots(tokens: &[Token<'_>]) -> usize
    ensures value { result ≡ count_by is_dot (lexemes tokens.now) }
    ensures bound { result ≤ length tokens.now }
{
    tokens.iter().filter(|token| token.text == ".").count()
}

/// The item of the token with a number, from 1.
#[tactic(auto, using(crate::proofs::MarkLemmas::dots_before))]
fn item_of_token(tokens: &[Token<'_>], number: usize) -> usize
    requires { number ≤ length tokens.now }
    ensures { result ≡ item_after (take number (lexemes tokens.now)) }
{
    1 + count_dots(&tokens[..number])
}

/// The last token that begins at a byte or before it.
fn token_before(tokens: &[Token<'_>], byte: u64) -> usize {
    let begun = tokens.iter().filter(|token| token.start <= byte).count();
    begun.saturating_sub(1)
}

/// Whether the byte stands at the token with a number, and that in the item.
fn stands_at(tokens: &[Token<'_>], number: usize, item: u32, byte: u64) -> bool
    ensures { IsTrue result → StandsIn (lexemes tokens.now) item byte }
{
    match tokens.get(number) {
        Some(token) => {
            token.start <= byte
                && byte <= token.end
                && item_of_token(tokens, number) == item as usize
        }
        None => false,
    }
}

/// The message, if it marks a byte of the item.
pub fn in_item(tokens: &[Token<'_>], item: u32, message: Message) -> Option<Message>
    ensures { IfSome result (λ m. StandsIn (lexemes tokens.now) item m.span.start) }
{
    let byte = message.span.start as u64;
    if stands_at(tokens, token_before(tokens, byte), item, byte) {
        Some(message)
    } else {
        None
    }
}
