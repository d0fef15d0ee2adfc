//! Where the goals of an item stand that call predicates, and where arguments begin.
//!
//! The items are those of a text that has a program, so brackets match, and a comma outside of the brackets of terms
//! has a goal behind it.
ghost use Rattle.std.specs.Prelude.{◌≡◌};

use crate::marks::{Kind, Mark, kind_at};
use ap_defs::memory::Memory;
use std::alloc::Global;

/// What comes next in an item.
#[derive(Clone, Copy)]
enum Expect {
    Goal,
    /// What `new` or `exists` binds.
    BoundName,
    /// The bracket behind it.
    Bracket,
    /// What a goal goes on with, or a head.
    Rest,
}

/// What finds the goals of one item after another.
#[derive(Drop)]
pub(crate) struct Finder {
    alloc: Global,
    expect: Expect,
    // how many brackets of terms are open
    depth: usize,
    // a word before an open bracket that is a call, unless the term is a side of an equation or of a freshness goal
    word: Option<usize>,
    // for each bracket of the item the place of the one that closes it; empty until the first is asked for
    closes: Vec<usize>,
    calls: Vec<usize>,
}

fn set_at(places: &mut Vec<usize>, at: usize, place: usize) {
    if let Some(found) = places.get_mut(at) {
        *found = place;
    }
}

/// For each token that is a bracket, the place of the bracket that closes it, or 0.
fn closes_of(alloc: Global, marks: &[Mark]) -> Result<Vec<usize>, Memory> {
    let mut closes = Vec::with_capacity(alloc, marks.len())?;
    let mut open: Vec<usize> = Vec::new(alloc);
    for (place, mark) in marks.iter().enumerate() {
        closes.push(0)?;
        match mark.kind {
            Kind::Open | Kind::OpenList => open.push(place)?,
            Kind::Close | Kind::CloseList => {
                if let Some(at) = open.pop() {
                    set_at(&mut closes, at, place);
                }
            }
            _ => {}
        }
    }
    Ok(closes)
}

impl Finder {
    /// Before the first item.
    pub(crate) fn new(alloc: Global) -> Finder {
        Finder {
            alloc,
            expect: Expect::Rest,
            depth: 0,
            word: None,
            closes: Vec::new(alloc),
            calls: Vec::new(alloc),
        }
    }

    /// The words of the goals that call predicates, in order.
    pub(crate) fn calls(&self) -> &[usize] {
        self.calls.as_slice()
    }

    /// Finds the goals of an item, in place of those of the item before.
    pub(crate) fn find(&mut self, marks: &[Mark]) -> Result<(), Memory> {
        self.expect = Expect::Rest;
        self.depth = 0;
        self.word = None;
        self.closes.clear();
        self.calls.clear();
        for (place, mark) in marks.iter().enumerate() {
            self.take(marks, place, *mark)?;
        }
        Ok(())
    }

    fn take(&mut self, marks: &[Mark], place: usize, mark: Mark) -> Result<(), Memory> {
        match self.expect {
            Expect::Goal => return self.take_goal(marks, place, mark),
            Expect::Rest => return self.take_rest(marks, place, mark),
            Expect::BoundName => self.expect = Expect::Bracket,
            Expect::Bracket => self.expect = Expect::Goal,
        }
        Ok(())
    }

    fn take_goal(&mut self, marks: &[Mark], place: usize, mark: Mark) -> Result<(), Memory> {
        match mark.kind {
            Kind::Word => return self.take_word(marks, place),
            Kind::Open => return self.take_open(marks, place),
            Kind::OpenList => self.enter_term(),
            Kind::Binder => self.expect = Expect::BoundName,
            _ => self.expect = Expect::Rest,
        }
        Ok(())
    }

    fn take_word(&mut self, marks: &[Mark], place: usize) -> Result<(), Memory> {
        self.expect = Expect::Rest;
        match kind_at(marks, place.saturating_add(1)) {
            Kind::Open => self.word = Some(place),
            Kind::Test | Kind::Lambda => {}
            _ => self.calls.push(place)?,
        }
        Ok(())
    }

    /// Whether the `(` at a place begins a term of an equation or a freshness goal.
    fn begins_term(&mut self, marks: &[Mark], place: usize) -> Result<bool, Memory> {
        if self.closes.is_empty() {
            self.closes = closes_of(self.alloc, marks)?;
        }
        match self.closes.get(place) {
            Some(close) => Ok(matches!(kind_at(marks, close.saturating_add(1)), Kind::Test)),
            None => Ok(false),
        }
    }

    /// Takes the `(` at a place, which begins a term or goals.
    fn take_open(&mut self, marks: &[Mark], place: usize) -> Result<(), Memory> {
        if self.begins_term(marks, place)? {
            self.enter_term();
        }
        Ok(())
    }

    /// A bracket of a term is open.
    fn enter_term(&mut self) {
        self.expect = Expect::Rest;
        self.depth = 1;
    }

    fn take_rest(&mut self, marks: &[Mark], place: usize, mark: Mark) -> Result<(), Memory> {
        match mark.kind {
            Kind::Open | Kind::OpenList => self.depth = self.depth.saturating_add(1),
            Kind::Close | Kind::CloseList => self.close(marks, place)?,
            Kind::Comma | Kind::Goal if self.depth == 0 => self.expect = Expect::Goal,
            _ => {}
        }
        Ok(())
    }

    fn close(&mut self, marks: &[Mark], place: usize) -> Result<(), Memory> {
        self.depth = self.depth.saturating_sub(1);
        if self.depth > 0 {
            return Ok(());
        }
        if let Some(word) = self.word {
            self.word = None;
            if !matches!(kind_at(marks, place.saturating_add(1)), Kind::Test) {
                self.calls.push(word)?;
            }
        }
        Ok(())
    }
}

/// Puts the places at which the arguments behind a word begin into a list, in place of what was there.
pub(crate) fn put_arguments(
    marks: &[Mark],
    word: usize,
    places: &mut Vec<usize>,
) -> Result<(), Memory> {
    places.clear();
    if !matches!(kind_at(marks, word.saturating_add(1)), Kind::Open) {
        return Ok(());
    }
    let first = word.saturating_add(2);
    places.push(first)?;
    let mut depth: usize = 0;
    for (at, mark) in marks.get(first..).unwrap_or(&[]).iter().enumerate() {
        match mark.kind {
            Kind::Open | Kind::OpenList => depth = depth.saturating_add(1),
            Kind::Close | Kind::CloseList if depth == 0 => return Ok(()),
            Kind::Close | Kind::CloseList => depth = depth.saturating_sub(1),
            Kind::Comma if depth == 0 => places.push(first.saturating_add(at).saturating_add(1))?,
            _ => {}
        }
    }
    Ok(())
}
