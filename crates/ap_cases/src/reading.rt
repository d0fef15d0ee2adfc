//! The tokens and items of a text, or why there are none.

use ap_defs::limits::SIZE_LIMIT;
use ap_lexer::{LexError, Token, lex};
use ap_syntax::SynError;
use ap_trees::Item;
use ap_whole::parse;
use std::alloc::Global;

/// The tokens of a text.
pub fn tokens_of(alloc: Global, text: &[u8]) -> Result<Vec<Token<'_>>, SynError> {
    if text.len() > SIZE_LIMIT {
        return Err(SynError::Memory);
    }
    match lex(alloc, text) {
        Ok(tokens) => Ok(tokens),
        Err(LexError::Fault(fault)) => Err(SynError::Fault(fault)),
        Err(LexError::Memory) => Err(SynError::Memory),
    }
}

/// The items of tokens.
pub fn items_of<'a>(alloc: Global, tokens: &[Token<'a>]) -> Result<Vec<Item<'a>>, SynError> {
    if tokens.len() > SIZE_LIMIT {
        return Err(SynError::Memory);
    }
    parse(alloc, tokens)
}
