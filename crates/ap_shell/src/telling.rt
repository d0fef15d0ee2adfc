//! What commands tell.
ghost use Rattle.std.specs.Prelude.{◌≡◌, [], IfOk};

use crate::saying::{TOO_LARGE, message};
use ap_defs::limits::SIZE_LIMIT;
use ap_defs::memory::Memory;
use ap_inputs::items::items_about;
use ap_inputs::orders::{Command, HELP};
use ap_lexer::{LexError, lex};
use std::alloc::Global;

/// What a command tells.
#[derive(Drop)]
pub struct Told {
    /// what it writes
    pub written: Vec<u8>,
    /// what is said beside it
    pub said: String,
}

/// Nothing at all. It takes no memory.
pub(crate) fn nothing(alloc: Global) -> Told
    ensures { result.written.items ≡ [] }
{
    Told {
        written: Vec::new(alloc),
        said: String::new(alloc),
    }
}

/// A message.
pub(crate) fn tell_message(alloc: Global, said: &str) -> Result<Told, Memory>
    ensures { IfOk result (λ t. t.written.items ≡ []) }
{
    let said = message(alloc, said)?;
    Ok(Told {
        written: Vec::new(alloc),
        said,
    })
}

/// What is written.
fn wrote(alloc: Global, written: Vec<u8>) -> Told {
    Told {
        written,
        said: String::new(alloc),
    }
}

/// That a text is too large.
pub(crate) fn tell_too_large(alloc: Global) -> Result<Told, Memory>
    ensures { IfOk result (λ t. t.written.items ≡ []) }
{
    tell_message(alloc, TOO_LARGE)
}

/// The commands.
pub(crate) fn tell_help(alloc: Global) -> Result<Told, Memory> {
    Ok(wrote(alloc, HELP.as_bytes().to_vec(alloc)?))
}

/// How a command is typed.
pub(crate) fn tell_usage(alloc: Global, command: Command) -> Result<Told, Memory> {
    let usage = command.usage();
    let mut told = nothing(alloc);
    write!(&mut told.said, "error: the command is typed `{usage}`\n")?;
    Ok(told)
}

/// The items about a word.
fn items_of(alloc: Global, loaded: &[u8], word: &str) -> Result<Vec<u8>, Memory> {
    if loaded.len() > SIZE_LIMIT {
        return Ok(Vec::new(alloc));
    }
    match lex(alloc, loaded) {
        Ok(tokens) => items_about(alloc, loaded, &tokens, word),
        Err(LexError::Fault(_)) => Ok(Vec::new(alloc)),
        Err(LexError::Memory) => Err(Memory),
    }
}

/// What the loaded text declares of a word, and its clauses.
pub(crate) fn tell_items(alloc: Global, loaded: &[u8], word: &str) -> Result<Told, Memory> {
    let items = items_of(alloc, loaded, word)?;
    if items.is_empty() {
        return tell_message(alloc, "note: the loaded text has no item about that word\n");
    }
    Ok(wrote(alloc, items))
}
