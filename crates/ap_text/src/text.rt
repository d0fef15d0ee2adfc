// From a text to its program.
ghost use Rattle.std.specs.Prelude.{◌≡◌, ◌≤◌, [], IfOk, IfErr, OnOk, length};
ghost use Rattle.ap_defs.specs.RawTerms.{raw_of};
ghost use Rattle.ap_defs.specs.Goals.{program_of, program_over};
ghost use Rattle.ap_defs.specs.Limits.{size_limit};
ghost use Rattle.ap_program.specs.NameRestriction.{item_count};
ghost use Rattle.ap_program.specs.Typed.{IsTypedRawProgram};
ghost use Rattle.ap_typecheck.specs.Typings.{IsTypingOf};
ghost use Rattle.ap_text.specs.Outlooks.{HasTypedText, IsOutlookOf};
ghost use Rattle.ap_text.specs.Texts.{IsProgramOfText, IsRefusedText, IsTypedText};

use crate::error::TextError;
use crate::items::read_items;
use crate::outlook::Outlook;
use ap_defs::faults::Fault;
use ap_defs::goals::Program;
use ap_defs::terms::Raw;
use ap_lexer::Cursor;
use ap_program::restricted::Restricted;
use ap_restrict::restrict::restrict;
use ap_typecheck::Typing;
use std::alloc::Global;

/// What is known of all items of a text, which go into a typing that has none yet, or the fault of its tokens.
fn outlook_of<'a>(
    alloc: Global,
    typing: &mut Typing<'a>,
    text: &'a [u8],
) -> Result<Outlook, TextError>
    requires few { length text.now ≤ size_limit }
    requires new { IsTypingOf [] typing.old }
    ensures outlook { IfOk result (IsOutlookOf text.now typing.new) }
    ensures fault { IfErr result (λ e. IsRefusedText e text.now) }
{
    let mut cursor = Cursor::of(text);
    let items = read_items(alloc, typing, &mut cursor)?;
    match cursor.fault(items.next) {
        Some(fault) => Err(TextError::Fault(Fault::Syntax(fault))),
        None => Ok(items.outlook),
    }
}

/// Types the items of a text into a typing that has none yet, or gives the first fault of its tokens, its items'
/// grammar or their types.
fn type_items<'a>(alloc: Global, typing: &mut Typing<'a>, text: &'a [u8]) -> Result<(), TextError>
    requires few { length text.now ≤ size_limit }
    requires new { IsTypingOf [] typing.old }
    ensures typed { OnOk result (HasTypedText text.now typing.new) }
    ensures fault { IfErr result (λ e. IsRefusedText e text.now) }
{
    let outlook = outlook_of(alloc, typing, text)?;
    match outlook {
        Outlook::Typed => Ok(()),
        Outlook::Mistyped(fault) => Err(TextError::Fault(Fault::Types(fault))),
        Outlook::Ungrammatical(fault) => Err(TextError::Fault(Fault::Syntax(fault))),
    }
}

/// The typed program of a text, or the first fault of its tokens, its items' grammar or their types.
fn typed_program(alloc: Global, text: &[u8]) -> Result<Program<Raw>, TextError>
    requires { length text.now ≤ size_limit }
    ensures program { IfOk result (λ p. IsTypedText text.now (program_over raw_of p)) }
    ensures typed { IfOk result (λ p. IsTypedRawProgram (program_over raw_of p)) }
    ensures bounded { IfOk result (λ p. item_count (program_over raw_of p) ≤ size_limit) }
    ensures fault { IfErr result (λ e. IsRefusedText e text.now) }
{
    let mut typing = Typing::new(alloc);
    match type_items(alloc, &mut typing, text) {
        Ok(()) => Ok(typing.finish(alloc)?),
        Err(error) => Err(error),
    }
}

/// The program of a text, with its swappings carried out. Each command on a text begins with it.
///
/// `Fault` comes exactly where the text has a fault, and it is the first one: of its tokens, else of an
/// item's grammar, else of an item's types, else of an item's names. `Memory` is want of memory.
///
/// The text is read item by item: beside what the items before it make stands at most one item, as its
/// symbols, then as its tree.
pub fn program_of_text(alloc: Global, text: &[u8]) -> Result<Restricted, TextError>
    requires { length text.now ≤ size_limit }
    ensures program { IfOk result (λ r. IsProgramOfText text.now (program_of r)) }
    ensures fault { IfErr result (λ e. IsRefusedText e text.now) }
{
    let program = typed_program(alloc, text)?;
    let restricted = restrict(alloc, program)?;
    Ok(restricted)
}
