//! The words of a text's predicates.

ghost use Rattle.std.specs.Prelude.{◌≡◌, ◌≤◌, ◌∷◌, ◌++◌, [], Ok, List as list, length, IfOk, OnOk};
ghost use Rattle.ap_lexer.specs.Tokens.{lexemes};
ghost use Rattle.ap_syntax.specs.Reading.{Reads};
ghost use Rattle.ap_defs.specs.Limits.{size_limit};
ghost use Rattle.ap_text.specs.Texts.{HasItems};
ghost use Rattle.ap_trees.specs.Items.{ItemOf};
ghost use Rattle.ap_trees.specs.Trees.{item_of, items_of_text};
ghost use Rattle.ap_documents.specs.Predicates.{predicate_words};

use ap_defs::lists::Text;
use ap_defs::memory::Memory;
use ap_lexer::{LexError, Token, lex};
use ap_syntax::SynError;
use ap_trees::{Form, Item};
use ap_whole::parse;
use std::alloc::Global;

/// Keeps the word of an item, where it declares a predicate.
fn keep_word(alloc: Global, words: &mut Vec<Text>, item: &Item<'_>) -> Result<(), Memory>
    ensures { OnOk result (words.new.items
        ≡ words.old.items ++ predicate_words (item_of item.now ∷ [])) }
{
    if let Form::Predicate(word, _) = &item.form {
        words.push(Text::of(String::from_str(alloc, word)?))?;
    }
    Ok(())
}

/// The words of the predicates that items declare, in order.
fn words_of_items(alloc: Global, items: &[Item<'_>]) -> Result<Vec<Text>, Memory>
    ensures { IfOk result (λ words. words.items ≡ predicate_words (items_of_text items.now)) }
{
    let mut words = Vec::new(alloc);
    for item in items {
        keep_word(alloc, &mut words, item)?;
    }
    Ok(words)
}

/// The words of the predicates that the items of tokens declare; none, where an item is faulty.
fn words_of_tokens(alloc: Global, tokens: &[Token<'_>]) -> Result<Vec<Text>, Memory>
    requires { length tokens.now ≤ size_limit }
    ensures { IfOk result (λ words. (items : list ItemOf) →
        Reads 1 (lexemes tokens.now) (Ok items) → words.items ≡ predicate_words items) }
{
    match parse(alloc, tokens) {
        Ok(items) => words_of_items(alloc, items.as_slice()),
        Err(SynError::Fault(_)) => Ok(Vec::new(alloc)),
        Err(SynError::Memory) => Err(Memory),
    }
}

/// The words of the predicates that a text declares, in order; none, where the text has a fault.
#[tactic(auto, using(crate::proofs::TokenCounts::few_tokens))]
pub(crate) fn predicate_words(alloc: Global, text: &[u8]) -> Result<Vec<Text>, Memory>
    requires { length text.now ≤ size_limit }
    ensures { IfOk result (λ words. (items : list ItemOf) → HasItems text.now items →
        words.items ≡ predicate_words items) }
{
    match lex(alloc, text) {
        Ok(tokens) => words_of_tokens(alloc, tokens.as_slice()),
        Err(LexError::Fault(_)) => Ok(Vec::new(alloc)),
        Err(LexError::Memory) => Err(Memory),
    }
}
