// What is left of a text behind some of its tokens.
ghost use Rattle.std.specs.Prelude.{◌≡◌, ◌≤◌, ◌==◌, take, drop, length, count_by};
ghost use Rattle.std.specs.Str.Lossy.{utf8_valid_len};
ghost use Rattle.ap_lexer.specs.Tokens.{line_at, scan_from};

use crate::pieces::{Piece, longest_piece_at, text_front};
use crate::token::Token;
use ap_defs::faults::{Place, SyntaxFault, SyntaxKind};

/// A place of a text, between two of its tokens or before the first.
#[derive(Drop)]
pub struct Cursor<'a> {
    /// All bytes of the text.
    pub whole: &'a [u8],
    /// The longest front that is UTF-8, of which the tokens are.
    pub text: &'a str,
    /// What of it comes after the place.
    pub rest: &'a str,
    /// The bytes before the place.
    pub place: usize,
    /// 1 and the number of LFs before the place.
    pub line: u64,
    ghost front: { text.now ≡ take (utf8_valid_len whole.now) whole.now },
    ghost inside: { place ≤ length text.now },
    ghost left: { rest.now ≡ drop place text.now },
    ghost counted: { line ≡ line_at text.now place },
    ghost ends: { (scan_from place 0 rest.now).stop ≡ (scan_from 0 0 text.now).stop },
}

/// How many LFs there are.
fn count_lines(text: &str) -> usize
    ensures value { result ≡ count_by (λ b. b == 10) text.now }
    ensures bound { result ≤ length text.now }
{
    text.as_bytes()
        .iter()
        .filter(|byte| **byte == b'\n')
        .count()
}

impl<'a> Cursor<'a> {
    ghost use Rattle.std.specs.Prelude.{◌<◌, ◌+◌, ◌++◌, ◌∷◌, [], Some, None, map, MatchOption, IfSome};
    ghost use Rattle.std.specs.Str.{IsCharBoundary};
    ghost use Rattle.ap_lexer.specs.Pieces as pieces;
    ghost use Rattle.ap_lexer.specs.Laws.{IsTokenOf};
    ghost use Rattle.ap_lexer.specs.Tokens.{lexed, lexeme, lexeme_at, lexemes_from, lexemes_of, item_after, span_of};
    ghost use Rattle.ap_lexer.specs.Cursors.{HasStopped, lexemes_left, or_fault};

    /// The start of a text.
    pub fn of(whole: &'a [u8]) -> Cursor<'a>
        ensures whole { result.whole.now ≡ whole.now }
        ensures left { lexemes_left result ≡ lexemes_of result.text.now }
        ensures place { result.place ≡ 0 }
    {
        let text = text_front(whole);
        Cursor {
            whole,
            text,
            rest: text,
            place: 0,
            line: 1,
        }
    }

    /// The cursor goes past a piece, whose text is given.
    fn pass(&mut self, piece: Piece) -> &'a str
        requires first { pieces.piece_at self.old.rest.now ≡ Some piece }
        requires cut { (0 < piece.len) × IsCharBoundary self.old.rest.now piece.len }
        ensures front { result.now ≡ take piece.len self.old.rest.now }
        ensures whole { self.new.whole ≡ self.old.whole }
        ensures text { self.new.text ≡ self.old.text }
        ensures place { self.new.place ≡ self.old.place + piece.len }
        ensures left { lexemes_left self.old
            ≡ map (lexeme_at self.old.text.now) (span_of self.old.place piece)
            ++ lexemes_left self.new }
    {
        let (front, back) = self.rest.split_at(piece.len);
        self.rest = back;
        self.place += piece.len;
        self.line += count_lines(front) as u64;
        front
    }

    /// The next token, behind which the cursor then stands. With `None` it stands where nothing begins.
    pub fn token(&mut self) -> Option<Token<'a>>
        ensures whole { self.new.whole ≡ self.old.whole }
        ensures text { self.new.text ≡ self.old.text }
        ensures next { MatchOption result
            ((lexemes_left self.old ≡ []) × (lexemes_left self.new ≡ []) × HasStopped self.new)
            (λ t. lexemes_left self.old ≡ lexeme t ∷ lexemes_left self.new) }
        ensures longest { IfSome result (λ t. IsTokenOf self.old.text.now (lexeme t)) }
        ensures place { IfSome result (λ t. (self.old.place ≤ t.start) × (t.start < t.end)
            × (t.end ≡ self.new.place)) }
    {
        while let Some(piece) = longest_piece_at(self.rest) {
            let start = self.place;
            let line = self.line;
            let text = self.pass(piece);
            if let Some(kind) = piece.kind {
                return Some(Token {
                    kind,
                    text,
                    start: start as u64,
                    end: self.place as u64,
                    line,
                });
            }
        }
        None
    }

    /// The fault of a text of which nothing more is left, if it has bytes after that. The item is that in
    /// which the fault stands.
    #[tactic(auto, unfolding(crate::specs::Tokens::lexed))]
    pub fn fault(&self, item: u32) -> Option<SyntaxFault>
        ensures text { result ≡ None → self.now.text.now ≡ self.now.whole.now }
        ensures read { HasStopped self.now → item ≡ item_after (lexemes_of self.now.text.now) →
            lexed self.now.whole.now ≡ or_fault (lexemes_of self.now.text.now) result }
    {
        if self.place == self.whole.len() {
            return None;
        }
        Some(SyntaxFault {
            place: Place {
                item,
                line: self.line,
            },
            kind: if self.place == self.text.len() {
                SyntaxKind::NotUtf8
            } else {
                SyntaxKind::Character
            },
        })
    }
}
