//! Typing of a text, item by item.

use crate::error::{TypeError, text_error};
use crate::items::check_item;
use crate::spellings::Spellings;
use crate::state::State;
use ap_defs::faults::Place;
use ap_defs::goals::Program;
use ap_defs::memory::Memory;
use ap_defs::terms::Raw;
use ap_scopes::text_words::add_form;
use ap_scopes::words::Words;
use ap_trees::Item;
use std::alloc::Global;

/// What the items of a text so far make, the words of the text, and texts of words that identifiers share.
pub struct Typing<'a> {
    state: State<'a>,
    words: Words<'a>,
    spellings: Spellings,
    /// How many items there were.
    items: u32,
}

// Written out, so that it is not written out at each exit of what owns a typing.
impl Drop for Typing<'_> {
    fn drop(self) {
        let Typing {
            state: _state,
            words: _words,
            spellings: _spellings,
            items: _,
        } = self;
    }
}

impl<'a> Typing<'a> {
    ghost use Rattle.std.specs.Prelude.{◌≡◌, ◌≤◌, ◌++◌, ◌∷◌, [], List, IfOk, IfErr, OnOk, length};
    ghost use Rattle.ap_defs.specs.RawTerms.{raw_of};
    ghost use Rattle.ap_defs.specs.Goals.{program_over};
    ghost use Rattle.ap_defs.specs.Limits.{size_limit};
    ghost use Rattle.ap_trees.specs.Items.{ItemOf};
    ghost use Rattle.ap_trees.specs.Trees.{item_of};
    ghost use Rattle.ap_typecheck.specs.Checking.{IsProgramOf};
    ghost use Rattle.ap_typecheck.specs.Views.{IsRefusedByTypes};
    ghost use Rattle.ap_typecheck.specs.Typings.{IsTypingOf};

    /// There were no items yet.
    pub fn new(alloc: Global) -> Typing<'a>
        ensures { IsTypingOf [] result }
    {
        Typing {
            state: State::new(alloc),
            words: Words::new(alloc),
            spellings: Spellings::new(alloc),
            items: 0,
        }
    }

    /// The next item is typed, and let go where its terms are made. Behind an error no more items can be.
    pub fn add(&mut self, alloc: Global, item: Item<'a>) -> Result<(), TypeError>
        requires { (is : List ItemOf) × (length is ≤ size_limit) × IsTypingOf is self.old }
        ensures made { OnOk result ((is : List ItemOf) → IsTypingOf is self.old →
            IsTypingOf (is ++ item_of item.entry ∷ []) self.new) }
        ensures fault { IfErr result (λ e. (is more : List ItemOf) → IsTypingOf is self.old →
            IsRefusedByTypes e (is ++ item_of item.entry ∷ more)) }
    {
        let Item { line, form } = item;
        let place = Place {
            item: self.items + 1,
            line,
        };
        match add_form(&mut self.words, &form) {
            Ok(()) => {}
            Err(Memory) => return Err(TypeError::Memory),
        }
        match check_item(alloc, &mut self.state, &mut self.spellings, place, form) {
            Ok(()) => {}
            Err(refusal) => return Err(text_error(refusal, place)),
        }
        self.items += 1;
        Ok(())
    }

    /// The typed program of the items.
    pub fn finish(self, alloc: Global) -> Result<Program<Raw>, Memory>
        ensures { IfOk result (λ p. (is : List ItemOf) → IsTypingOf is self.entry →
            IsProgramOf is (program_over raw_of p)) }
    {
        let Typing {
            state,
            words,
            spellings: _spellings,
            items: _,
        } = self;
        let texts = words.texts(alloc)?;
        state.into_program(alloc, texts)
    }
}
