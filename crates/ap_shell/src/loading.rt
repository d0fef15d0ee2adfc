//! Texts that are loaded.
ghost use Rattle.std.specs.Prelude.{◌≡◌, ◌≢◌, ◌≤◌, IfOk, OnErr, OnOk, length};
ghost use Rattle.ap_defs.specs.Limits.{size_limit};
ghost use Rattle.ap_inputs.specs.Items as items;
ghost use Rattle.ap_lexer.specs.Tokens.{lexemes};
ghost use Rattle.ap_shell.specs.Loads.{IsKeptOf, IsLoadedBy, IsOutcome};

use crate::saying::{TOO_LARGE, explained, message};
use crate::session::Session;
use ap_defs::limits::SIZE_LIMIT;
use ap_defs::memory::Memory;
use ap_inputs::items::{count_queries, kept_text};
use ap_lexer::{LexError, Token, lex};
use ap_remarks::warnings;
use ap_text::{TextError, program_of_text};
use std::alloc::Global;

/// How loading a text ended.
#[derive(Clone, Copy)]
pub enum Outcome {
    /// The text stands in place of what was loaded.
    Loaded,
    /// The text has a fault, and nothing has changed.
    Faulty,
    /// The text is larger than may be read, and nothing has changed.
    TooLarge,
}

/// How loading a text ended, and what is said of it.
#[derive(Drop)]
pub struct Loading {
    pub outcome: Outcome,
    pub said: String,
}

/// What is said of a text that is loaded.
fn said_of(alloc: Global, text: &[u8], tokens: &[Token<'_>]) -> Result<String, Memory> {
    let mut said = if text.len() <= SIZE_LIMIT {
        warnings(alloc, text)?
    } else {
        String::new(alloc)
    };
    let items = tokens.iter().filter(|token| token.text == ".").count();
    let queries = count_queries(tokens);
    write!(
        &mut said,
        "loaded: {items} items, {queries} of them queries, which are left out\n"
    )?;
    Ok(said)
}

/// Takes a text without a fault, of these tokens.
fn take(
    alloc: Global,
    session: &mut Session,
    text: &[u8],
    tokens: &[Token<'_>],
) -> Result<String, Memory>
    ensures loaded { OnOk result
        (session.new.loaded.items ≡ items.kept_text text.now (lexemes tokens.now)) }
    ensures others { session.new ≡ record session.old { loaded = session.new.loaded } }
    ensures kept { OnErr result (session.new ≡ session.old) }
{
    let said = said_of(alloc, text, tokens)?;
    let kept = kept_text(alloc, text, tokens)?;
    session.loaded = kept;
    Ok(said)
}

/// Takes a text that has a program.
fn take_text(alloc: Global, session: &mut Session, text: &[u8]) -> Result<String, Memory>
    requires fits { length text.now ≤ size_limit }
    requires program { IsOutcome text.now Outcome.Loaded }
    ensures loaded { OnOk result (IsKeptOf text.now session.new.loaded.items) }
    ensures others { session.new ≡ record session.old { loaded = session.new.loaded } }
    ensures kept { OnErr result (session.new ≡ session.old) }
{
    match lex(alloc, text) {
        Ok(tokens) => take(alloc, session, text, &tokens),
        Err(LexError::Fault(_)) => Ok(String::new(alloc)),
        Err(LexError::Memory) => Err(Memory),
    }
}

/// Puts a text in place of what is loaded, without its queries, where it has no fault and may be read.
///
/// `Err` is want of memory.
pub fn load(alloc: Global, session: &mut Session, text: &[u8]) -> Result<Loading, Memory>
    // Each outcome comes for its cause.
    ensures outcome { IfOk result (λ l. IsOutcome text.now l.outcome) }
    // What is loaded then is what is kept of the text. Where the text isn't loaded, nothing has changed.
    ensures loaded { IfOk result
        (λ l. IsLoadedBy l.outcome text.now session.old.loaded.items session.new.loaded.items) }
    ensures others { session.new ≡ record session.old { loaded = session.new.loaded } }
    ensures refused { IfOk result (λ l. l.outcome ≢ Outcome.Loaded → session.new ≡ session.old) }
    ensures kept { OnErr result (session.new ≡ session.old) }
{
    if text.len() > SIZE_LIMIT {
        let said = message(alloc, TOO_LARGE)?;
        return Ok(Loading {
            outcome: Outcome::TooLarge,
            said,
        });
    }
    match program_of_text(alloc, text) {
        Ok(_program) => {
            let said = take_text(alloc, session, text)?;
            Ok(Loading {
                outcome: Outcome::Loaded,
                said,
            })
        }
        Err(TextError::Fault(_)) => {
            let said = explained(alloc, text)?;
            Ok(Loading {
                outcome: Outcome::Faulty,
                said,
            })
        }
        Err(TextError::Memory) => Err(Memory),
    }
}
