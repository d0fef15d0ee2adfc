// What the grammar sees of a token.
ghost use Rattle.std.specs.Prelude.{◌≡◌};
ghost use Rattle.ap_lexer.specs.Tokens.{lexeme};
ghost use Rattle.ap_trees.specs.Symbols.{sym, sym_of, reserved_sym, mark_sym};

use ap_lexer::{Token, TokenKind};

/// A token without its place; a reserved word or a mark without its text.
#[derive(Clone, Copy)]
pub enum Symbol<'a> {
    Var(&'a str),
    Ident(&'a str),
    /// `name_type`
    NameType,
    /// `type`
    DataType,
    /// `pred`
    Pred,
    /// `new`
    New,
    /// `exists`
    Exists,
    /// `swap`
    Swap,
    /// `.`
    Dot,
    /// `,`
    Comma,
    /// `;`
    Semicolon,
    /// `:`
    Colon,
    /// `:-`
    If,
    /// `?-`
    Ask,
    /// `->`
    Arrow,
    /// `(`
    Open,
    /// `)`
    Close,
    /// `[`
    OpenList,
    /// `]`
    CloseList,
    /// `|`
    Bar,
    /// `\`
    Lambda,
    /// `#`
    Fresh,
    /// `=`
    Equal,
    /// What no lexer gives.
    Other,
}

/// The symbol of a reserved word.
fn reserved_symbol<'a>(word: &str) -> Symbol<'a>
    ensures { sym result ≡ reserved_sym word.now }
{
    match word {
        "name_type" => Symbol::NameType,
        "type" => Symbol::DataType,
        "pred" => Symbol::Pred,
        "new" => Symbol::New,
        "exists" => Symbol::Exists,
        "swap" => Symbol::Swap,
        _ => Symbol::Other,
    }
}

/// The symbol of a mark.
fn mark_symbol<'a>(mark: &str) -> Symbol<'a>
    ensures { sym result ≡ mark_sym mark.now }
{
    match mark.as_bytes() {
        [b'.'] => Symbol::Dot,
        [b','] => Symbol::Comma,
        [b';'] => Symbol::Semicolon,
        [b':'] => Symbol::Colon,
        [b':', b'-'] => Symbol::If,
        [b'?', b'-'] => Symbol::Ask,
        [b'-', b'>'] => Symbol::Arrow,
        [b'('] => Symbol::Open,
        [b')'] => Symbol::Close,
        [b'['] => Symbol::OpenList,
        [b']'] => Symbol::CloseList,
        [b'|'] => Symbol::Bar,
        [b'\\'] => Symbol::Lambda,
        [b'#'] => Symbol::Fresh,
        [b'='] => Symbol::Equal,
        _ => Symbol::Other,
    }
}

/// The symbol of a token.
pub fn symbol_of<'a>(token: &Token<'a>) -> Symbol<'a>
    ensures { sym result ≡ sym_of (lexeme token.now) }
{
    match token.kind {
        TokenKind::Var => Symbol::Var(token.text),
        TokenKind::Ident => Symbol::Ident(token.text),
        TokenKind::Reserved => reserved_symbol(token.text),
        TokenKind::Sign => mark_symbol(token.text),
    }
}
