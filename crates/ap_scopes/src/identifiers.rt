//! The identifiers of a clause or query, numbered from 0 by first occurrence.
ghost use Rattle.std.specs.Prelude.{◌≡◌, ℕ, true, false, List as list, [], None, Some, if◌then◌else◌, IfOk, OnOk, map};
ghost use Rattle.ap_trees.specs.Terms.{OfWord, OfVar};
ghost use Rattle.ap_trees.specs.Trees.{name_of_binder};
ghost use Rattle.ap_scopes.specs.Declarations.{or_else};
ghost use Rattle.ap_scopes.specs.Identifiers as spec;
ghost use Rattle.ap_scopes.specs.Views.{IsNumbered, identifier_of, found_of, scope_of, number_at};

use crate::marks::is_word;
use crate::numbers::Numbers;
use ap_defs::memory::Memory;
use ap_trees::Binder;
use std::alloc::Global;

/// An identifier: its spelling, and whether `new` or `exists` brings it.
#[derive(Clone, Copy)]
pub struct Identifier<'a> {
    pub spelling: Binder<'a>,
    pub bound: bool,
}

/// What the goals around a place bring, with their numbers, the inner ones first.
#[derive(Clone, Copy)]
pub enum Brought<'s, 'a> {
    Nothing,
    Inner(Binder<'a>, u64, &'s Brought<'s, 'a>),
}

/// How many identifiers are looked through one by one. Where there are more, there are tables of them.
const FEW: usize = 16;

/// The identifiers found so far, each of which has the number of its place. Where there are tables, they have
/// the numbers of those that belong to the whole clause or query.
pub struct Identifiers<'a> {
    pub found: Vec<Identifier<'a>>,
    has_tables: bool,
    names: Numbers<'a>,
    variables: Numbers<'a>,
}

// Written out, so that it is not written out at each exit of what owns identifiers.
impl Drop for Identifiers<'_> {
    fn drop(self) {
        let Identifiers {
            found: _found,
            has_tables: _,
            names: _names,
            variables: _variables,
        } = self;
    }
}

/// Whether two occurrences are spelled alike.
fn is_same(left: Binder<'_>, right: Binder<'_>) -> bool
    ensures { result ≡ spec.same_spelling (name_of_binder left.entry) (name_of_binder right.entry) }
{
    match (left, right) {
        (Binder::Word(left), Binder::Word(right)) => is_word(left, right),
        (Binder::Var(left), Binder::Var(right)) => is_word(left, right),
        _ => false,
    }
}

/// Whether it is `_`.
fn is_blank(spelling: Binder<'_>) -> bool
    ensures { result ≡ spec.is_blank_name (name_of_binder spelling.entry) }
{
    match spelling {
        Binder::Word(_) => false,
        Binder::Var(word) => word == "_",
    }
}

/// Whether it is the identifier of a spelling that belongs to the whole.
fn is_free(spelling: Binder<'_>, identifier: Identifier<'_>) -> bool
    ensures { result
        ≡ spec.is_free_identifier (name_of_binder spelling.entry) (identifier_of identifier.entry) }
{
    !identifier.bound && is_same(spelling, identifier.spelling)
}

/// The place of the identifier of a spelling that belongs to the whole, looked for one by one.
fn free_place(found: &[Identifier<'_>], spelling: Binder<'_>) -> Option<u64>
    ensures { result
        ≡ spec.free_place (map identifier_of found.now) (name_of_binder spelling.entry) }
{
    'looking: for place in 0..found.len() {
        if is_free(spelling, found[place]) {
            return Some(place as u64);
        }
    }
    None
}

impl<'s, 'a> Brought<'s, 'a> {
    /// The number of the innermost that is spelled so.
    fn number(&self, spelling: Binder<'a>) -> Option<u64>
        ensures { result ≡ spec.brought_under (scope_of self.now) (name_of_binder spelling.entry) }
    {
        match self {
            Brought::Nothing => None,
            Brought::Inner(brought, number, outer) => {
                if is_same(spelling, *brought) {
                    Some(*number)
                } else {
                    outer.number(spelling)
                }
            }
        }
    }
}

impl<'a> Identifiers<'a> {
    /// None is found yet.
    pub fn new(alloc: Global) -> Identifiers<'a>
        ensures value { found_of result ≡ [] }
        ensures numbered { IsNumbered result }
    {
        Identifiers {
            found: Vec::new(alloc),
            has_tables: false,
            names: Numbers::new(alloc),
            variables: Numbers::new(alloc),
        }
    }

    /// The identifiers, in order of their numbers. It takes no memory.
    pub fn into_found(self) -> Vec<Identifier<'a>>
        ensures { map identifier_of result.items ≡ found_of self.entry }
    {
        let Identifiers {
            found,
            has_tables: _,
            names: _names,
            variables: _variables,
        } = self;
        found
    }

    /// A new identifier is found.
    fn push(&mut self, spelling: Binder<'a>, bound: bool) -> Result<u64, Memory>
        ensures value { IfOk result (λ n. (n, found_of self.new)
            ≡ spec.number_new (found_of self.old) (record
            { spelling = name_of_binder spelling.entry; bound = bound })) }
        ensures tables { OnOk result (self.new.has_tables ≡ self.old.has_tables) }
        ensures names { OnOk result (self.new.names ≡ self.old.names) }
        ensures variables { OnOk result (self.new.variables ≡ self.old.variables) }
    {
        let number = self.found.len() as u64;
        self.found.push(Identifier { spelling, bound })?;
        Ok(number)
    }

    /// `new` or `exists` brings a new identifier.
    pub fn bring(&mut self, spelling: Binder<'a>) -> Result<u64, Memory>
        requires { IsNumbered self.old }
        ensures value { IfOk result (λ n. (n, found_of self.new)
            ≡ spec.number_new (found_of self.old) (spec.bound_one
            (name_of_binder spelling.entry))) }
        ensures numbered { OnOk result (IsNumbered self.new) }
    {
        let number = self.push(spelling, true)?;
        Ok(number)
    }

    /// `_` stands somewhere.
    fn blank(&mut self, spelling: Binder<'a>) -> Result<u64, Memory>
        requires numbered { IsNumbered self.old }
        requires blank { spec.is_blank_name (name_of_binder spelling) ≡ true }
        ensures value { IfOk result (λ n. (n, found_of self.new)
            ≡ spec.number_new (found_of self.old) (spec.free_one (name_of_binder spelling.entry))) }
        ensures numbered { OnOk result (IsNumbered self.new) }
    {
        let number = self.push(spelling, false)?;
        Ok(number)
    }

    /// An identifier of a spelling is put into the tables, unless an earlier one of that spelling is there.
    fn note(&mut self, spelling: Binder<'a>, number: u64) -> Result<(), Memory>
        ensures found { OnOk result (self.new.found ≡ self.old.found) }
        ensures tables { OnOk result (self.new.has_tables ≡ self.old.has_tables) }
        ensures names { OnOk result ((w : list ℕ) → number_at self.new.names w
            ≡ or_else (number_at self.old.names w) (if spec.same_spelling (OfWord w) (name_of_binder spelling.entry)
            then Some number else None)) }
        ensures variables { OnOk result ((w : list ℕ) → number_at self.new.variables w
            ≡ or_else (number_at self.old.variables w) (if spec.same_spelling (OfVar w) (name_of_binder spelling.entry)
            then Some number else None)) }
    {
        match spelling {
            Binder::Word(word) => self.names.set_first(word, number),
            Binder::Var(word) => self.variables.set_first(word, number),
        }
    }

    /// The identifiers get tables.
    fn make_tables(&mut self) -> Result<(), Memory>
        requires numbered { IsNumbered self.old }
        requires few { self.old.has_tables ≡ false }
        ensures found { OnOk result (self.new.found ≡ self.old.found) }
        ensures numbered { OnOk result (IsNumbered self.new) }
    {
        'noting: for place in 0..self.found.len() {
            let identifier = self.found[place];
            if !identifier.bound {
                self.note(identifier.spelling, place as u64)?;
            }
        }
        self.has_tables = true;
        Ok(())
    }

    /// The number of an identifier that belongs to the whole clause or query, where there are no tables.
    fn free_of_few(&mut self, spelling: Binder<'a>) -> Result<u64, Memory>
        requires numbered { IsNumbered self.old }
        requires few { self.old.has_tables ≡ false }
        ensures value { IfOk result (λ n. (n, found_of self.new)
            ≡ spec.free_number (found_of self.old) (name_of_binder spelling.entry)) }
        ensures numbered { OnOk result (IsNumbered self.new) }
    {
        match free_place(self.found.as_slice(), spelling) {
            Some(number) => Ok(number),
            None => {
                let number = self.push(spelling, false)?;
                if self.found.len() > FEW {
                    self.make_tables()?;
                }
                Ok(number)
            }
        }
    }

    /// The number of a name that belongs to the whole clause or query, by its table.
    fn free_name(&mut self, word: &'a str) -> Result<u64, Memory>
        requires numbered { IsNumbered self.old }
        requires tables { self.old.has_tables ≡ true }
        ensures value { IfOk result (λ n. (n, found_of self.new)
            ≡ spec.free_number (found_of self.old) (OfWord word.entry.now)) }
        ensures numbered { OnOk result (IsNumbered self.new) }
    {
        match self.names.get(word) {
            Some(number) => Ok(number),
            None => {
                let number = self.push(Binder::Word(word), false)?;
                self.names.set(word, number)?;
                Ok(number)
            }
        }
    }

    /// The number of a variable that belongs to the whole clause or query, by its table.
    fn free_variable(&mut self, word: &'a str) -> Result<u64, Memory>
        requires numbered { IsNumbered self.old }
        requires tables { self.old.has_tables ≡ true }
        requires named { spec.is_blank_name (OfVar word.now) ≡ false }
        ensures value { IfOk result (λ n. (n, found_of self.new)
            ≡ spec.free_number (found_of self.old) (OfVar word.entry.now)) }
        ensures numbered { OnOk result (IsNumbered self.new) }
    {
        match self.variables.get(word) {
            Some(number) => Ok(number),
            None => {
                let number = self.push(Binder::Var(word), false)?;
                self.variables.set(word, number)?;
                Ok(number)
            }
        }
    }

    /// The number of the identifier that stands at an occurrence. `Err` is want of memory.
    pub fn number(&mut self, scope: &Brought<'_, 'a>, spelling: Binder<'a>) -> Result<u64, Memory>
        requires { IsNumbered self.old }
        ensures value { IfOk result (λ n. (n, found_of self.new)
            ≡ spec.numbered_in (scope_of scope.now) (name_of_binder spelling.entry)
            (found_of self.old)) }
        ensures numbered { OnOk result (IsNumbered self.new) }
    {
        if is_blank(spelling) {
            return self.blank(spelling);
        }
        if let Some(number) = scope.number(spelling) {
            return Ok(number);
        }
        if !self.has_tables {
            return self.free_of_few(spelling);
        }
        match spelling {
            Binder::Word(word) => self.free_name(word),
            Binder::Var(word) => self.free_variable(word),
        }
    }
}
