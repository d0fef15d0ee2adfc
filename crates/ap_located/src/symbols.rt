//! The symbols of the grammar that the tokens of a text are, by the bytes that spell them.

use ap_lexer::{Token, TokenKind};

/// What a token is in the grammar.
#[derive(Clone, Copy, PartialEq, Eq)]
pub(crate) enum Symbol {
    /// An identifier.
    Word,
    Variable,
    /// `pred`
    Predicate,
    /// `type`
    Type,
    /// `name_type`
    NameType,
    /// `new`
    New,
    /// `exists`
    Exists,
    /// `swap`
    Swap,
    /// `.`
    Dot,
    /// `,`
    Comma,
    /// `;`
    Semicolon,
    /// `:`
    Colon,
    /// `:-`
    If,
    /// `?-`
    Ask,
    /// `->`
    Arrow,
    /// `(`
    Open,
    /// `)`
    Close,
    /// `[`
    OpenList,
    /// `]`
    CloseList,
    /// `|`
    Bar,
    /// `\`
    Lambda,
    /// `#`
    Fresh,
    /// `=`
    Equal,
    /// There is no token, or another one.
    No,
}

/// The symbol that a sign is.
fn sign(spelled: &[u8]) -> Symbol {
    match spelled {
        [b'.'] => Symbol::Dot,
        [b','] => Symbol::Comma,
        [b';'] => Symbol::Semicolon,
        [b':'] => Symbol::Colon,
        [b':', b'-'] => Symbol::If,
        [b'?', b'-'] => Symbol::Ask,
        [b'-', b'>'] => Symbol::Arrow,
        [b'('] => Symbol::Open,
        [b')'] => Symbol::Close,
        [b'['] => Symbol::OpenList,
        [b']'] => Symbol::CloseList,
        [b'|'] => Symbol::Bar,
        [b'\\'] => Symbol::Lambda,
        [b'#'] => Symbol::Fresh,
        [b'='] => Symbol::Equal,
        _ => Symbol::No,
    }
}

/// The symbol that a reserved word is.
fn reserved(word: &[u8]) -> Symbol {
    match word {
        [b'n', b'e', b'w'] => Symbol::New,
        [b'p', b'r', b'e', b'd'] => Symbol::Predicate,
        [b's', b'w', b'a', b'p'] => Symbol::Swap,
        [b't', b'y', b'p', b'e'] => Symbol::Type,
        [b'e', b'x', b'i', b's', b't', b's'] => Symbol::Exists,
        [b'n', b'a', b'm', b'e', b'_', b't', b'y', b'p', b'e'] => Symbol::NameType,
        _ => Symbol::No,
    }
}

/// The symbol that a token is.
pub(crate) fn symbol_of(token: &Token<'_>) -> Symbol {
    match token.kind {
        TokenKind::Ident => Symbol::Word,
        TokenKind::Var => Symbol::Variable,
        TokenKind::Reserved => reserved(token.text.as_bytes()),
        TokenKind::Sign => sign(token.text.as_bytes()),
    }
}

/// The symbol at a place.
pub(crate) fn symbol_at(tokens: &[Token<'_>], place: usize) -> Symbol {
    match tokens.get(place) {
        Some(token) => symbol_of(token),
        None => Symbol::No,
    }
}
