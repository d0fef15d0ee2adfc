//! Reading how an item begins and ends.
ghost use Rattle.std.specs.Prelude.{◌≡◌};

use crate::nodes::{Form, node_at};
use crate::reader::{Expect, Reader, Stop};
use crate::slips::Wanted;
use crate::symbols::{Symbol, symbol_at, symbol_of};
use ap_lexer::Token;

impl<'t, 'a> Reader<'t, 'a> {
    pub(crate) fn take_start(&mut self, place: usize, token: &Token<'a>) -> Result<(), Stop> {
        match symbol_of(token) {
            Symbol::Predicate => self.expect = Expect::PredicateWord,
            Symbol::Ask => self.expect = Expect::Goal,
            Symbol::Word => return self.take_first_word(place),
            _ => return Err(self.stop(place, Wanted::Item)),
        }
        Ok(())
    }

    /// Takes the word that a declaration or a clause begins with.
    fn take_first_word(&mut self, place: usize) -> Result<(), Stop> {
        if matches!(
            symbol_at(self.tokens, place.saturating_add(1)),
            Symbol::Colon
        ) {
            return self.add(Form::Word, place, Expect::Colon);
        }
        self.nodes.enter(Form::Head, place)?;
        self.take_word(place)
    }

    pub(crate) fn take_exists_name(&mut self, place: usize, token: &Token<'a>) -> Result<(), Stop> {
        match symbol_of(token) {
            Symbol::Variable if token.text != "_" => {
                self.add(Form::Binder, place, Expect::OpenGoals)
            }
            _ => Err(self.stop(place, Wanted::Variable)),
        }
    }

    pub(crate) fn take_predicate_word(
        &mut self,
        place: usize,
        token: &Token<'a>,
    ) -> Result<(), Stop> {
        match symbol_of(token) {
            Symbol::Word => {
                self.in_type = true;
                self.enter(Form::Predicate, place, Expect::PredicateOpen)
            }
            _ => Err(self.stop(place, Wanted::Word)),
        }
    }

    pub(crate) fn take_declared_type(
        &mut self,
        place: usize,
        token: &Token<'a>,
    ) -> Result<(), Stop> {
        if matches!(symbol_of(token), Symbol::Type | Symbol::NameType) {
            return self.add(Form::Word, place, Expect::End);
        }
        self.in_type = true;
        self.nodes.enter(Form::Domain, place)?;
        self.take_term(place, token)
    }

    /// What is wanted where the item ends at a place, if it may not end there.
    pub(crate) fn ends(&mut self, place: usize) -> Result<(), Stop> {
        let wanted = match self.expect {
            Expect::End | Expect::PredicateOpen => return Ok(()),
            Expect::After => return self.ends_behind(place),
            Expect::Start => Wanted::Item,
            Expect::Goal => Wanted::Goal,
            Expect::NewName => Wanted::Name,
            Expect::ExistsName => Wanted::Variable,
            Expect::PredicateWord => Wanted::Word,
            Expect::ResultWord => Wanted::ResultWord,
            Expect::DeclaredType => Wanted::Type,
            Expect::Term | Expect::TermOrClose => self.wanted_term(),
            Expect::Lambda | Expect::Colon | Expect::Open | Expect::OpenGoals => Wanted::Open,
        };
        Err(self.stop(place, wanted))
    }

    /// What is wanted where the item ends at a place behind a term or a goal, if it may not end there.
    fn ends_behind(&mut self, place: usize) -> Result<(), Stop> {
        self.leave_abstractions(place);
        self.leave_goal(place)?;
        let first = self.nodes.open_place().saturating_add(1);
        let wanted = match self.nodes.open_form() {
            Form::Item => return Ok(()),
            Form::Domain if matches!(node_at(self.nodes.all(), first).form, Form::Word) => {
                return Ok(());
            }
            Form::Domain => Wanted::Arrow,
            _ => Wanted::Close,
        };
        Err(self.stop(place, wanted))
    }
}
