//! Reading goals.
ghost use Rattle.std.specs.Prelude.{◌≡◌};

use crate::nodes::{Form, node_at};
use crate::reader::{Expect, Reader, Stop};
use crate::slips::Wanted;
use crate::symbols::{Symbol, symbol_of};
use ap_lexer::Token;

impl<'t, 'a> Reader<'t, 'a> {
    /// Takes the first token of a goal that is one term, an equation or a freshness goal.
    fn take_atom(&mut self, place: usize, token: &Token<'a>) -> Result<(), Stop> {
        self.nodes.enter(Form::Atom, place)?;
        self.take_term(place, token)
    }

    /// Takes the `(` that a goal begins with.
    fn take_group(&mut self, place: usize, token: &Token<'a>) -> Result<(), Stop> {
        if self.begins_term(place)? {
            self.take_atom(place, token)
        } else {
            self.enter(Form::Group, place, Expect::Goal)
        }
    }

    pub(crate) fn take_goal(&mut self, place: usize, token: &Token<'a>) -> Result<(), Stop> {
        match symbol_of(token) {
            Symbol::New => self.enter(Form::New, place, Expect::NewName),
            Symbol::Exists => self.enter(Form::Exists, place, Expect::ExistsName),
            Symbol::Open => self.take_group(place, token),
            Symbol::Word | Symbol::Variable | Symbol::Swap | Symbol::OpenList => {
                self.take_atom(place, token)
            }
            _ => Err(self.stop(place, Wanted::Goal)),
        }
    }

    /// Closes the abstractions that end before the token at a place.
    pub(crate) fn leave_abstractions(&mut self, place: usize) {
        for _ in 0..place {
            if !matches!(self.nodes.open_form(), Form::Abs) {
                return;
            }
            self.nodes.leave(place.saturating_sub(1));
        }
    }

    /// Closes a goal or a head that ends before the token at a place, if one is open.
    pub(crate) fn leave_goal(&mut self, place: usize) -> Result<(), Stop> {
        match self.nodes.open_form() {
            Form::Atom | Form::Head => {
                let open = self.nodes.open_place();
                let part = node_at(self.nodes.all(), open.saturating_add(1)).form;
                if !matches!(part, Form::Word | Form::Apply) {
                    return Err(self.stop(place, Wanted::Relation));
                }
                self.nodes.leave(place.saturating_sub(1));
            }
            Form::Equal | Form::Fresh => self.nodes.leave(place.saturating_sub(1)),
            _ => {}
        }
        Ok(())
    }

    /// Takes the token behind a term or a goal.
    pub(crate) fn take_after(&mut self, place: usize, token: &Token<'a>) -> Result<(), Stop> {
        self.leave_abstractions(place);
        match self.nodes.open_form() {
            Form::Apply | Form::Predicate | Form::Tuple => self.take_in_arguments(place, token),
            Form::Swap => self.take_in_swap(place, token),
            Form::List => self.take_in_list(place, token),
            Form::ListTail => self.take_close(place, token, Symbol::CloseList),
            Form::Atom => self.take_behind_atom(place, token),
            Form::Head => self.take_neck(place, token),
            Form::Domain => self.take_arrow(place, token),
            _ => self.take_after_goal(place, token),
        }
    }

    /// Takes the token behind a goal that may be the left side of an equation or of a freshness goal.
    fn take_behind_atom(&mut self, place: usize, token: &Token<'a>) -> Result<(), Stop> {
        let form = match symbol_of(token) {
            Symbol::Equal => Form::Equal,
            Symbol::Fresh => Form::Fresh,
            _ => return self.take_after_goal(place, token),
        };
        self.nodes.change(form);
        self.expect = Expect::Term;
        Ok(())
    }

    /// Takes the `:-` behind a head.
    fn take_neck(&mut self, place: usize, token: &Token<'a>) -> Result<(), Stop> {
        if !matches!(symbol_of(token), Symbol::If) {
            return Err(self.stop(place, Wanted::Body));
        }
        self.expect = Expect::Goal;
        self.leave_goal(place)
    }

    /// Takes the `->` behind the types of a constructor's arguments.
    fn take_arrow(&mut self, place: usize, token: &Token<'a>) -> Result<(), Stop> {
        if !matches!(symbol_of(token), Symbol::Arrow) {
            return Err(self.stop(place, Wanted::Arrow));
        }
        self.nodes.leave(place.saturating_sub(1));
        self.expect = Expect::ResultWord;
        Ok(())
    }

    pub(crate) fn take_after_goal(&mut self, place: usize, token: &Token<'a>) -> Result<(), Stop> {
        self.leave_goal(place)?;
        match symbol_of(token) {
            Symbol::Comma => {}
            Symbol::Semicolon => self.nodes.choose(),
            _ => return self.leave_goals(place, token),
        }
        self.expect = Expect::Goal;
        Ok(())
    }

    /// Takes the `)` behind the last of some goals.
    fn leave_goals(&mut self, place: usize, token: &Token<'a>) -> Result<(), Stop> {
        match self.nodes.open_form() {
            Form::Group | Form::Exists | Form::New => self.take_close(place, token, Symbol::Close),
            _ => Err(self.stop(place, Wanted::NextGoal)),
        }
    }
}
