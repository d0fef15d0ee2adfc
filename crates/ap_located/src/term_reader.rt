//! Reading terms and types.
ghost use Rattle.std.specs.Prelude.{◌≡◌};

use crate::nodes::Form;
use crate::reader::{Expect, Reader, Stop};
use crate::slips::Wanted;
use crate::symbols::{Symbol, symbol_at, symbol_of};
use ap_lexer::Token;

impl<'t, 'a> Reader<'t, 'a> {
    pub(crate) fn take_term(&mut self, place: usize, token: &Token<'a>) -> Result<(), Stop> {
        if matches!(self.nodes.open_form(), Form::Swap) && self.nodes.open_count() < 2 {
            return self.take_side(place, token);
        }
        match symbol_of(token) {
            Symbol::Word => self.take_word(place),
            Symbol::Variable if !self.in_type => self.take_variable(place),
            Symbol::Swap if !self.in_type => self.enter(Form::Swap, place, Expect::Open),
            Symbol::Open => self.enter(Form::Tuple, place, Expect::TermOrClose),
            Symbol::OpenList if self.in_type => self.enter(Form::List, place, Expect::Term),
            Symbol::OpenList => self.enter(Form::List, place, Expect::TermOrClose),
            _ => Err(self.stop(place, self.wanted_term())),
        }
    }

    /// One of the two identifiers of a swapping.
    fn take_side(&mut self, place: usize, token: &Token<'a>) -> Result<(), Stop> {
        let form = match symbol_of(token) {
            Symbol::Word => Form::Word,
            Symbol::Variable => Form::Variable,
            _ => return Err(self.stop(place, Wanted::Name)),
        };
        self.add(form, place, Expect::After)
    }

    /// Opens an abstraction, and takes what stands before its `\`.
    fn take_binder(&mut self, place: usize) -> Result<(), Stop> {
        self.nodes.enter(Form::Abs, place)?;
        self.add(Form::Binder, place, Expect::Lambda)
    }

    pub(crate) fn take_word(&mut self, place: usize) -> Result<(), Stop> {
        match symbol_at(self.tokens, place.saturating_add(1)) {
            Symbol::Lambda => self.take_binder(place),
            Symbol::Open if !self.in_type => self.enter(Form::Apply, place, Expect::Open),
            _ => self.add(Form::Word, place, Expect::After),
        }
    }

    fn take_variable(&mut self, place: usize) -> Result<(), Stop> {
        match symbol_at(self.tokens, place.saturating_add(1)) {
            Symbol::Lambda => self.take_binder(place),
            _ => self.add(Form::Variable, place, Expect::After),
        }
    }

    pub(crate) fn wanted_term(&self) -> Wanted {
        if self.in_type {
            Wanted::Type
        } else {
            Wanted::Term
        }
    }

    pub(crate) fn take_term_or_close(
        &mut self,
        place: usize,
        token: &Token<'a>,
    ) -> Result<(), Stop> {
        let close = match self.nodes.open_form() {
            Form::Tuple => Symbol::Close,
            _ => Symbol::CloseList,
        };
        if symbol_of(token) == close {
            self.nodes.leave(place);
            self.expect = Expect::After;
            return Ok(());
        }
        self.take_term(place, token)
    }

    pub(crate) fn take_close(
        &mut self,
        place: usize,
        token: &Token<'a>,
        symbol: Symbol,
    ) -> Result<(), Stop> {
        if symbol_of(token) != symbol {
            return Err(self.stop(place, Wanted::Close));
        }
        self.nodes.leave(place);
        self.expect = match self.nodes.open_form() {
            Form::Item if self.in_type => Expect::End,
            _ => Expect::After,
        };
        Ok(())
    }

    pub(crate) fn take_in_arguments(
        &mut self,
        place: usize,
        token: &Token<'a>,
    ) -> Result<(), Stop> {
        match symbol_of(token) {
            Symbol::Comma => {
                self.expect = Expect::Term;
                Ok(())
            }
            _ => self.take_close(place, token, Symbol::Close),
        }
    }

    pub(crate) fn take_in_swap(&mut self, place: usize, token: &Token<'a>) -> Result<(), Stop> {
        if self.nodes.open_count() < 3 {
            return self.pass(place, Symbol::Comma, Wanted::Swap, Expect::Term);
        }
        self.take_close(place, token, Symbol::Close)
    }

    pub(crate) fn take_in_list(&mut self, place: usize, token: &Token<'a>) -> Result<(), Stop> {
        match symbol_of(token) {
            Symbol::Comma if !self.in_type => {}
            Symbol::Bar if !self.in_type => self.nodes.change(Form::ListTail),
            _ => return self.take_close(place, token, Symbol::CloseList),
        }
        self.expect = Expect::Term;
        Ok(())
    }
}
