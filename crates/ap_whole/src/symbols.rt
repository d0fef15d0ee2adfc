// The symbols of tokens.
ghost use Rattle.std.specs.Prelude.{◌≡◌, IfOk};
ghost use Rattle.ap_lexer.specs.Tokens.{lexemes};
ghost use Rattle.ap_trees.specs.Symbols.{syms, syms_of};

use ap_lexer::Token;
use ap_trees::{Symbol, symbol_of};
use std::alloc::{AllocError, Global};

/// The symbols of tokens, one for each.
pub fn symbols_of<'a>(alloc: Global, tokens: &[Token<'a>]) -> Result<Vec<Symbol<'a>>, AllocError>
    ensures { IfOk result (λ v. syms v.items ≡ syms_of (lexemes tokens.now)) }
{
    let mut symbols = Vec::with_capacity(alloc, tokens.len())?;
    for token in tokens {
        symbols.push(symbol_of(token))?;
    }
    Ok(symbols)
}
