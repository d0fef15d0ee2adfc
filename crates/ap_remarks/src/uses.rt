//! Which predicates have clauses, and with what they are called.
ghost use Rattle.std.specs.Prelude.{◌≡◌};

use crate::marks::{Kind, Mark, Scanner, kind_at, text_at};
use crate::parts::{Head, Part, declares, is_clause};
use crate::places::{Finder, put_arguments};
use crate::singles::single_variables;
use ap_defs::memory::Memory;
use indexmap::IndexSet;
use std::alloc::Global;

/// An argument of a call: the place of its predicate among those that are called, its own place among the
/// arguments, and how its term begins.
type Argument = (usize, usize, usize);

/// How a term begins that may be equal to any.
const ANY: usize = 0;

/// How an empty list begins.
const EMPTY: usize = 1;

/// How another list begins.
const LIST: usize = 2;

/// How a term begins with the first of the constructors.
const WORD: usize = 3;

/// A goal that calls a predicate: the place of the predicate among those that are called, and of the goal's word
/// among the tokens of its item.
#[derive(Clone, Copy)]
pub(crate) struct Call {
    pub predicate: usize,
    pub token: usize,
}

/// The clauses and queries, the predicates that have clauses, those that are called, and their arguments.
#[derive(Drop)]
pub(crate) struct Uses<'t> {
    text: &'t str,
    pub parts: Vec<Part>,
    pub calls: Vec<Call>,
    heads: IndexSet<&'t str>,
    called: IndexSet<&'t str>,
    constructors: IndexSet<&'t str>,
    // in order, once all are known
    arguments: Vec<Argument>,
    // how the arguments of the heads begin, one clause behind the other
    head_begins: Vec<usize>,
    // the argument at each place that was noted last
    latest: Vec<Argument>,
    // where the arguments of a call begin
    begins: Vec<usize>,
}

/// How a term begins that is no word, and whether it is one.
#[derive(Clone, Copy)]
enum Begin {
    Word,
    Other(usize),
}

/// How the term at a place begins.
fn begin_at(marks: &[Mark], place: usize) -> Begin {
    let next = kind_at(marks, place.saturating_add(1));
    match kind_at(marks, place) {
        Kind::Word if !matches!(next, Kind::Lambda) => Begin::Word,
        Kind::OpenList if matches!(next, Kind::CloseList) => Begin::Other(EMPTY),
        Kind::OpenList => Begin::Other(LIST),
        _ => Begin::Other(ANY),
    }
}

impl<'t> Uses<'t> {
    /// Those of a text, of which nothing is noted yet.
    pub(crate) fn new(alloc: Global, text: &'t str) -> Uses<'t> {
        Uses {
            text,
            parts: Vec::new(alloc),
            calls: Vec::new(alloc),
            heads: IndexSet::new(alloc),
            called: IndexSet::new(alloc),
            constructors: IndexSet::new(alloc),
            arguments: Vec::new(alloc),
            head_begins: Vec::new(alloc),
            latest: Vec::new(alloc),
            begins: Vec::new(alloc),
        }
    }

    /// Notes all of the text.
    pub(crate) fn note_all(&mut self, alloc: Global) -> Result<(), Memory> {
        self.add_items(alloc)?;
        self.arguments.sort_unstable();
        Ok(())
    }

    /// Adds the items of the text, each up to its `.`.
    fn add_items(&mut self, alloc: Global) -> Result<(), Memory> {
        let text = self.text;
        let mut finder = Finder::new(alloc);
        let mut scanner = Scanner::of(alloc, text);
        let mut start = 0;
        let mut next = 0;
        for place in 0..text.len() {
            if place >= next {
                match scanner.take(place)? {
                    Some(behind) => next = behind,
                    None => {
                        self.add_item(alloc, &mut finder, scanner.marks(), start)?;
                        scanner.begin_item();
                        start = place.saturating_add(1);
                    }
                }
            }
        }
        Ok(())
    }

    /// Adds the item of these tokens, which begins at a place.
    fn add_item(
        &mut self,
        alloc: Global,
        finder: &mut Finder,
        marks: &[Mark],
        start: usize,
    ) -> Result<(), Memory> {
        if declares(marks) {
            return Ok(());
        }
        let head = self.add_head(alloc, marks)?;
        finder.find(marks)?;
        for word in finder.calls() {
            self.add_call(marks, *word)?;
        }
        self.parts.push(Part::of(start, self.calls.len(), head))?;
        Ok(())
    }

    /// Adds the head of the item of these tokens, where it is a clause.
    fn add_head(&mut self, alloc: Global, marks: &[Mark]) -> Result<Option<Head>, Memory> {
        if !is_clause(marks) {
            return Ok(None);
        }
        let (predicate, _new) = self.heads.insert_full(text_at(self.text, marks, 0))?;
        put_arguments(marks, 0, &mut self.begins)?;
        for rank in 0..self.begins.len() {
            let begin = self.begin_of(marks, rank)?;
            self.head_begins.push(begin)?;
        }
        let singles = single_variables(alloc, self.text, marks)?;
        let arguments = self.head_begins.len();
        Ok(Some(Head::of(predicate, arguments, !singles.is_empty())))
    }

    /// The place of a predicate among those that are called. It is seen at once where it is that of the call before, as in
    /// long conjunctions it often is.
    fn place_called(&mut self, word: &'t str) -> Result<usize, Memory> {
        if let Some(last) = self.calls.last() {
            if let Some(known) = self.called.as_slice().get(last.predicate) {
                if *known == word {
                    return Ok(last.predicate);
                }
            }
        }
        let (predicate, _new) = self.called.insert_full(word)?;
        Ok(predicate)
    }

    fn add_call(&mut self, marks: &[Mark], word: usize) -> Result<(), Memory> {
        let predicate = self.place_called(text_at(self.text, marks, word))?;
        self.calls.push(Call {
            predicate,
            token: word,
        })?;
        put_arguments(marks, word, &mut self.begins)?;
        for rank in 0..self.begins.len() {
            self.add_argument(marks, predicate, rank)?;
        }
        Ok(())
    }

    /// How the argument of a rank begins of the call or head that is looked at.
    fn begin_of(&mut self, marks: &[Mark], rank: usize) -> Result<usize, Memory> {
        let Some(place) = self.begins.get(rank).copied() else {
            return Ok(ANY);
        };
        match begin_at(marks, place) {
            Begin::Other(begin) => Ok(begin),
            Begin::Word => {
                let word = text_at(self.text, marks, place);
                let (constructor, _new) = self.constructors.insert_full(word)?;
                Ok(constructor.saturating_add(WORD))
            }
        }
    }

    fn add_argument(
        &mut self,
        marks: &[Mark],
        predicate: usize,
        rank: usize,
    ) -> Result<(), Memory> {
        let begin = self.begin_of(marks, rank)?;
        self.note((predicate, rank, begin))
    }

    /// Notes an argument, unless it is the one that was noted last at its place.
    fn note(&mut self, argument: Argument) -> Result<(), Memory> {
        match self.latest.get_mut(argument.1) {
            Some(latest) => {
                if *latest == argument {
                    return Ok(());
                }
                *latest = argument;
            }
            None => self.latest.push(argument)?,
        }
        self.arguments.push(argument)?;
        Ok(())
    }

    /// For each predicate that is called, whether no clause has it in its head.
    pub(crate) fn without_clauses(&self, alloc: Global) -> Result<Vec<bool>, Memory> {
        let mut without = Vec::with_capacity(alloc, self.called.len())?;
        for word in self.called.as_slice() {
            without.push(!self.heads.contains(*word))?;
        }
        Ok(without)
    }

    /// The place of a predicate among those that are called.
    pub(crate) fn called_place(&self, predicate: &str) -> Option<usize> {
        self.called.get_index_of(predicate)
    }

    fn has_argument(&self, argument: Argument) -> bool {
        self.arguments.as_slice().binary_search(&argument).is_ok()
    }

    /// Whether a call may have a term that begins so as its argument of a rank: one has a term that begins so there, or
    /// one that may be equal to any.
    fn may_meet_begin(&self, predicate: usize, rank: usize, begin: usize) -> bool {
        begin == ANY
            || self.has_argument((predicate, rank, ANY))
            || self.has_argument((predicate, rank, begin))
    }

    /// Whether a call may have the term at a place of a head as its argument of a rank.
    pub(crate) fn may_meet(
        &self,
        marks: &[Mark],
        predicate: usize,
        rank: usize,
        place: usize,
    ) -> bool {
        let begin = match begin_at(marks, place) {
            Begin::Other(begin) => begin,
            Begin::Word => match self
                .constructors
                .get_index_of(text_at(self.text, marks, place))
            {
                Some(constructor) => constructor.saturating_add(WORD),
                None => usize::MAX,
            },
        };
        self.may_meet_begin(predicate, rank, begin)
    }

    /// Whether no call of a head's predicate, though there are some, has arguments that begin as the head's do.
    fn is_unmet(&self, head: Head, first: usize) -> bool {
        let Some(word) = self.heads.as_slice().get(head.predicate()) else {
            return false;
        };
        let Some(predicate) = self.called_place(*word) else {
            return false;
        };
        let begins = self.head_begins.get(first..head.arguments()).unwrap_or(&[]);
        for (rank, begin) in begins.iter().enumerate() {
            if !self.may_meet_begin(predicate, rank, *begin) {
                return true;
            }
        }
        false
    }

    /// Whether there are warnings about the head or the variables of a part; the heads before it have so many arguments.
    pub(crate) fn is_doubtful(&self, part: &Part, first: usize) -> bool {
        match part.head {
            Some(head) => head.has_single || self.is_unmet(head, first),
            None => false,
        }
    }
}
