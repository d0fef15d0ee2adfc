// Tokens, which borrow the text, and why a text has none.
ghost use Rattle.std.specs.Prelude.{◌≡◌};

use ap_defs::faults::SyntaxFault;
use std::alloc::{AllocError, AllocFailed};

/// The kinds of tokens.
#[derive(Clone, Copy, PartialEq, Eq)]
pub enum TokenKind {
    /// `A` to `Z` or `_`, and then characters that have XID_Continue.
    Var,
    /// Another character that has XID_Start, and then characters that have XID_Continue.
    Ident,
    /// What is spelled like an identifier and is `name_type`, `type`, `pred`, `new`, `exists` or
    /// `swap`.
    Reserved,
    /// One of `.` `,` `;` `:` `:-` `?-` `->` `(` `)` `[` `]` `|` `\` `#` `=`.
    Sign,
}

/// A token: its kind, its text, and where it stands.
#[derive(Clone, Copy)]
pub struct Token<'a> {
    pub kind: TokenKind,
    pub text: &'a str,
    /// The bytes before the token.
    pub start: u64,
    /// The bytes up to the token's end.
    pub end: u64,
    /// 1 and the number of LFs before the token.
    pub line: u64,
}

impl Token<'_> {
    ghost use Rattle.ap_lexer.specs.Tokens.{is_dot, lexeme};

    /// Whether it is the `.` that ends an item.
    pub fn ends_item(&self) -> bool
        ensures { result ≡ is_dot (lexeme self.now) }
    {
        matches!(self.text.as_bytes(), [b'.'])
    }
}

/// Why a text gives no tokens.
#[derive(Clone, Copy)]
pub enum LexError {
    /// The first place of the text at which nothing begins. Its item is 1 and the number of `.` tokens before
    /// it, its line 1 and the number of LFs before it, and its kind `NotUtf8` or `Character`.
    Fault(SyntaxFault),
    /// The allocator refused a growth.
    Memory,
}

impl From<AllocError> for LexError {
    ghost use Rattle.ap_lexer.specs.declared.token.LexError.TheVariants.{Memory};

    ghost from_gives = { λ _ e. e ≡ Memory };

    fn from(_: AllocError) -> Self {
        LexError::Memory
    }
}

impl<T: Drop> From<AllocFailed<T>> for LexError {
    ghost use Rattle.ap_lexer.specs.declared.token.LexError.TheVariants.{Memory};

    ghost from_gives = { λ _ e. e ≡ Memory };

    fn from(_: AllocFailed<T>) -> Self {
        LexError::Memory
    }
}
