//! Reading the tokens of an item, up to the first at which no item can go on.
ghost use Rattle.std.specs.Prelude.{◌≡◌};

use crate::nodes::{Form, Nodes};
use crate::slips::{Slip, Wanted};
use crate::symbols::{Symbol, symbol_at, symbol_of};
use ap_defs::memory::Memory;
use ap_lexer::Token;
use std::alloc::{AllocError, AllocFailed, Global};

/// What comes next.
#[derive(Clone, Copy)]
pub(crate) enum Expect {
    /// The item's first token.
    Start,
    Goal,
    Term,
    /// A term, or the end of what is open.
    TermOrClose,
    /// A term or a goal has ended.
    After,
    /// The `\` behind a binder, which was looked at already.
    Lambda,
    /// The `:` of a declaration, which was looked at already.
    Colon,
    /// The `(` of arguments.
    Open,
    /// The `(` behind a binder of goals.
    OpenGoals,
    NewName,
    ExistsName,
    PredicateWord,
    PredicateOpen,
    DeclaredType,
    ResultWord,
    End,
}

/// Why reading stops.
#[derive(Clone, Copy)]
pub(crate) enum Stop {
    Slip(Slip),
    Memory,
}

impl From<Memory> for Stop {
    fn from(_refusal: Memory) -> Stop {
        Stop::Memory
    }
}

impl From<AllocError> for Stop {
    fn from(_refusal: AllocError) -> Stop {
        Stop::Memory
    }
}

impl<T: Drop> From<AllocFailed<T>> for Stop {
    fn from(_refusal: AllocFailed<T>) -> Stop {
        Stop::Memory
    }
}

/// What was read of an item, and where it can't go on, if it can't.
#[derive(Drop)]
pub struct Reading {
    pub nodes: Nodes,
    pub slip: Option<Slip>,
}

/// A reader of an item's tokens.
#[derive(Drop)]
pub(crate) struct Reader<'t, 'a> {
    alloc: Global,
    pub(crate) tokens: &'t [Token<'a>],
    // for each bracket the place of the one that closes it; empty until the first is asked for
    closes: Vec<usize>,
    pub(crate) nodes: Nodes,
    pub(crate) expect: Expect,
    // whether types are read, and not terms
    pub(crate) in_type: bool,
}

fn set_at(places: &mut Vec<usize>, at: usize, place: usize) {
    if let Some(found) = places.get_mut(at) {
        *found = place;
    }
}

/// For each token that is a bracket, the place of the bracket that closes it, or 0.
fn closes_of(alloc: Global, tokens: &[Token<'_>]) -> Result<Vec<usize>, Memory> {
    let mut closes = Vec::with_capacity(alloc, tokens.len())?;
    let mut open: Vec<usize> = Vec::new(alloc);
    for (place, token) in tokens.iter().enumerate() {
        closes.push(0)?;
        match symbol_of(token) {
            Symbol::Open | Symbol::OpenList => open.push(place)?,
            Symbol::Close | Symbol::CloseList => {
                if let Some(at) = open.pop() {
                    set_at(&mut closes, at, place);
                }
            }
            _ => {}
        }
    }
    Ok(closes)
}

impl<'t, 'a> Reader<'t, 'a> {
    pub(crate) fn stop(&self, place: usize, wanted: Wanted) -> Stop {
        Stop::Slip(Slip {
            token: place,
            wanted,
            open: self.nodes.open_place(),
        })
    }

    /// Whether the `(` at a place begins a term of an equation or a freshness goal.
    pub(crate) fn begins_term(&mut self, place: usize) -> Result<bool, Stop> {
        if self.closes.is_empty() {
            self.closes = closes_of(self.alloc, self.tokens)?;
        }
        match self.closes.get(place) {
            Some(close) if *close != 0 => {
                let next = symbol_at(self.tokens, close.saturating_add(1));
                Ok(matches!(next, Symbol::Equal | Symbol::Fresh))
            }
            _ => Ok(false),
        }
    }

    /// Opens a node at a place. Tells what comes next.
    pub(crate) fn enter(&mut self, form: Form, place: usize, next: Expect) -> Result<(), Stop> {
        self.nodes.enter(form, place)?;
        self.expect = next;
        Ok(())
    }

    /// Adds a node of one token at a place. Tells what comes next.
    pub(crate) fn add(&mut self, form: Form, place: usize, next: Expect) -> Result<(), Stop> {
        self.nodes.add(form, place)?;
        self.expect = next;
        Ok(())
    }

    /// Goes by a token that must be this symbol. Tells what comes next.
    pub(crate) fn pass(
        &mut self,
        place: usize,
        symbol: Symbol,
        wanted: Wanted,
        next: Expect,
    ) -> Result<(), Stop> {
        if symbol_at(self.tokens, place) != symbol {
            return Err(self.stop(place, wanted));
        }
        self.expect = next;
        Ok(())
    }

    /// Adds a node of one token that must be a word. Tells what comes next.
    pub(crate) fn add_word(
        &mut self,
        place: usize,
        wanted: Wanted,
        form: Form,
        next: Expect,
    ) -> Result<(), Stop> {
        match symbol_at(self.tokens, place) {
            Symbol::Word => self.add(form, place, next),
            _ => Err(self.stop(place, wanted)),
        }
    }

    /// Takes the token at a place.
    fn take(&mut self, place: usize, token: &Token<'a>) -> Result<(), Stop> {
        match self.expect {
            Expect::Start => self.take_start(place, token),
            Expect::Goal => self.take_goal(place, token),
            Expect::Term => self.take_term(place, token),
            Expect::TermOrClose => self.take_term_or_close(place, token),
            Expect::After => self.take_after(place, token),
            Expect::Lambda => {
                self.expect = Expect::Term;
                Ok(())
            }
            Expect::Colon => {
                self.expect = Expect::DeclaredType;
                Ok(())
            }
            Expect::Open => self.pass(place, Symbol::Open, Wanted::Open, Expect::Term),
            Expect::OpenGoals => self.pass(place, Symbol::Open, Wanted::Open, Expect::Goal),
            Expect::NewName => {
                self.add_word(place, Wanted::Name, Form::Binder, Expect::OpenGoals)
            }
            Expect::ExistsName => self.take_exists_name(place, token),
            Expect::PredicateWord => self.take_predicate_word(place, token),
            Expect::PredicateOpen => {
                self.pass(place, Symbol::Open, Wanted::PredicateTypes, Expect::Term)
            }
            Expect::DeclaredType => self.take_declared_type(place, token),
            Expect::ResultWord => {
                self.add_word(place, Wanted::ResultWord, Form::Word, Expect::End)
            }
            Expect::End => Err(self.stop(place, Wanted::End)),
        }
    }

    fn read_all(&mut self) -> Result<(), Stop> {
        for (place, token) in self.tokens.iter().enumerate() {
            self.take(place, token)?;
        }
        self.ends(self.tokens.len())
    }
}

/// Reads an item's tokens, without its `.`.
pub fn read_item(alloc: Global, tokens: &[Token<'_>]) -> Result<Reading, Memory> {
    let mut reader = Reader {
        alloc,
        tokens,
        closes: Vec::new(alloc),
        nodes: Nodes::of_tokens(alloc, tokens.len())?,
        expect: Expect::Start,
        in_type: false,
    };
    let slip = match reader.read_all() {
        Ok(()) => None,
        Err(Stop::Slip(slip)) => Some(slip),
        Err(Stop::Memory) => return Err(Memory),
    };
    let Reader { nodes, .. } = reader;
    Ok(Reading { nodes, slip })
}
