// The table of the terms that came so far.
//
// The words of a term's line have the numbers of its parts, so two terms with the same parts have the same
// words, and a look-up costs no more than a line. A line of a table of shared terms is entered once: its number
// is kept. What is still to be entered of a term stands on a stack.
ghost use Rattle.std.specs.Prelude.{◌≡◌, [], ◌∷◌, ◌++◌, List as list, map, reverse, IfOk, OnOk};
ghost use Rattle.std.specs.BTreeMap as tree;
ghost use Rattle.std.specs.Option.{option_map};
ghost use Rattle.std.specs.Ordering.{nat_cmp};
ghost use Rattle.ap_defs.specs.Terms.{NominalTerm, susp};
ghost use Rattle.ap_bundle.specs.Forms as forms;
ghost use Rattle.ap_bundle.specs.Tables.{HasParts, entry_words, grown, line_of, with_table_term};
ghost use Rattle.ap_shared.specs.Shared.{entry_term, shared_at};
ghost use Rattle.ap_shared.specs.SharedViews.{shared_terms};
ghost use Rattle.ap_bundle_write.specs.Tables.{IsBegun, IsEntering, IsWrittenTable, held_terms, parts_in, steps_in, steps_of, words_by};

use crate::forms::{push_name, push_susp};
use ap_bundle::words::{Letter, Word};
use ap_defs::memory::Memory;
use ap_defs::terms::{Name, Swap, Var};
use ap_shared::arena::SharedTerms;
use ap_shared::lines::Entry;
use ap_shared::places::Shared;
use indexmap::IndexSet;
use std::alloc::Global;
use std::collections::BTreeMap;

/// The terms that came so far, each once and behind its parts: the words of their lines, and where the terms
/// stand; and the numbers of the lines that were entered of the shared terms that are written now.
#[derive(Drop)]
pub(crate) struct Table<'a> {
    lines: IndexSet<Vec<Word>>,
    terms: Vec<Shared<'a>>,
    entered: BTreeMap<usize, usize>,
}

/// A step of a walk through the term of a line: to it, or behind its parts.
#[derive(Clone, Copy)]
enum Task {
    Enter(usize),
    Leave(usize),
}

/// The number that comes first, taken off.
fn first_number(numbers: &mut Vec<usize>) -> Option<usize>
    ensures { option_map (λ n. (n, reverse numbers.new.items)) result
        ≡ forms.first (reverse numbers.old.items) }
{
    numbers.pop()
}

/// The words of the unit term.
fn unit_words(alloc: Global) -> Result<Vec<Word>, Memory>
    ensures { IfOk result (λ w. w.items ≡ Word.Letter Letter.U ∷ []) }
{
    let mut words = Vec::new(alloc);
    words.push(Word::Letter(Letter::U))?;
    Ok(words)
}

/// The words of a name's term.
fn name_term_words(alloc: Global, name: Name) -> Result<Vec<Word>, Memory>
    ensures { IfOk result (λ w. w.items ≡ Word.Letter Letter.N ∷ forms.name_words name) }
{
    let mut words = Vec::new(alloc);
    words.push(Word::Letter(Letter::N))?;
    push_name(&mut words, name)?;
    Ok(words)
}

/// The words of a suspension.
fn susp_words(alloc: Global, swaps: &[Swap], var: Var) -> Result<Vec<Word>, Memory>
    ensures { IfOk result (λ w. w.items ≡ forms.term_words (susp swaps.now var)) }
{
    let mut words = Vec::new(alloc);
    words.push(Word::Letter(Letter::S))?;
    push_susp(&mut words, swaps, var.num)?;
    Ok(words)
}

/// The words of a pair, by the numbers of its parts.
fn pair_words(alloc: Global, left: usize, right: usize) -> Result<Vec<Word>, Memory>
    ensures { IfOk result (λ w. w.items
        ≡ Word.Letter Letter.P ∷ Word.Number left ∷ Word.Number right ∷ []) }
{
    let mut words = Vec::new(alloc);
    words.push(Word::Letter(Letter::P))?;
    words.push(Word::Number(left as u64))?;
    words.push(Word::Number(right as u64))?;
    Ok(words)
}

/// The words of an application, by the number of its part.
fn app_words(alloc: Global, constructor: u32, part: usize) -> Result<Vec<Word>, Memory>
    ensures { IfOk result (λ w. w.items
        ≡ Word.Letter Letter.A ∷ Word.Number constructor ∷ Word.Number part ∷ []) }
{
    let mut words = Vec::new(alloc);
    words.push(Word::Letter(Letter::A))?;
    words.push(Word::Number(u64::from(constructor)))?;
    words.push(Word::Number(part as u64))?;
    Ok(words)
}

/// The words of an abstraction, by the number of its part.
fn abs_words(alloc: Global, name: Name, part: usize) -> Result<Vec<Word>, Memory>
    ensures { IfOk result (λ w. w.items
        ≡ Word.Letter Letter.L ∷ (forms.name_words name ++ Word.Number part ∷ [])) }
{
    let mut words = Vec::new(alloc);
    words.push(Word::Letter(Letter::L))?;
    push_name(&mut words, name)?;
    words.push(Word::Number(part as u64))?;
    Ok(words)
}

/// The words of an entry's line, by the numbers of its parts, which are taken off.
fn entry_words_of(
    alloc: Global,
    entry: &Entry,
    numbers: &mut Vec<usize>,
) -> Result<Option<Vec<Word>>, Memory>
    ensures { IfOk result (λ r. (ts : list NominalTerm) →
        option_map (λ w. (w.items, reverse numbers.new.items)) r
        ≡ words_by (entry_term ts entry.now) (reverse numbers.old.items)) }
{
    match entry {
        Entry::Unit => Ok(Some(unit_words(alloc)?)),
        Entry::Name(name) => Ok(Some(name_term_words(alloc, *name)?)),
        Entry::Susp(swaps, var) => Ok(Some(susp_words(alloc, swaps.items(), *var)?)),
        Entry::Pair(_, _) => {
            let Some(right) = first_number(numbers) else {
                return Ok(None);
            };
            let Some(left) = first_number(numbers) else {
                return Ok(None);
            };
            Ok(Some(pair_words(alloc, left, right)?))
        }
        Entry::App(constructor, _) => {
            let Some(part) = first_number(numbers) else {
                return Ok(None);
            };
            Ok(Some(app_words(alloc, *constructor, part)?))
        }
        Entry::Abs(sort, num, _) => {
            let Some(part) = first_number(numbers) else {
                return Ok(None);
            };
            let name = Name {
                sort: *sort,
                num: *num,
            };
            Ok(Some(abs_words(alloc, name, part)?))
        }
    }
}

/// The words of the term of a line, by the numbers of its parts, which are taken off.
fn words_of(
    alloc: Global,
    terms: &SharedTerms,
    line: usize,
    numbers: &mut Vec<usize>,
) -> Result<Option<Vec<Word>>, Memory>
    ensures { IfOk result (λ r. option_map (λ w. (w.items, reverse numbers.new.items)) r
        ≡ words_by (shared_at (shared_terms terms.now) line) (reverse numbers.old.items)) }
{
    match terms.entry(line) {
        Some(entry) => {
            let words = entry_words_of(alloc, entry, numbers)?;
            Ok(words)
        }
        None => {
            let words = unit_words(alloc)?;
            Ok(Some(words))
        }
    }
}

/// Puts the steps to the parts of an entry before those that are left.
fn push_parts(tasks: &mut Vec<Task>, entry: &Entry) -> Result<(), Memory>
    ensures { OnOk result ((ts : list NominalTerm) → steps_of ts tasks.new.items
        ≡ parts_in (entry_term ts entry.now) ++ steps_of ts tasks.old.items) }
{
    match entry {
        Entry::Unit | Entry::Name(_) | Entry::Susp(_, _) => {}
        Entry::Pair(left, right) => {
            tasks.push(Task::Enter(*right))?;
            tasks.push(Task::Enter(*left))?;
        }
        Entry::App(_, part) | Entry::Abs(_, _, part) => tasks.push(Task::Enter(*part))?,
    }
    Ok(())
}

/// Puts the steps of the term of a line before those that are left.
fn push_steps(tasks: &mut Vec<Task>, terms: &SharedTerms, line: usize) -> Result<(), Memory>
    ensures { OnOk result (steps_of (shared_terms terms.now) tasks.new.items
        ≡ steps_in (shared_at (shared_terms terms.now) line)
        ++ steps_of (shared_terms terms.now) tasks.old.items) }
{
    tasks.push(Task::Leave(line))?;
    match terms.entry(line) {
        Some(entry) => {
            push_parts(tasks, entry)?;
            Ok(())
        }
        None => Ok(()),
    }
}

impl<'a> Table<'a> {
    /// No terms.
    pub(crate) fn new(alloc: Global) -> Table<'a>
        ensures table { IsWrittenTable result }
        ensures none { held_terms result ≡ [] }
    {
        Table {
            lines: IndexSet::new(alloc),
            terms: Vec::new(alloc),
            entered: BTreeMap::new(alloc),
        }
    }

    /// Other shared terms are written from now on: none of their lines was entered.
    pub(crate) fn start(&mut self, alloc: Global)
        requires { IsWrittenTable self.old }
        ensures entering { (ts : list NominalTerm) → IsEntering ts self.new }
        ensures held { held_terms self.new ≡ held_terms self.old }
    {
        self.entered = BTreeMap::new(alloc);
    }

    /// The number of a line that was entered.
    fn number_of(&self, line: usize) -> Option<usize>
        ensures { result ≡ tree.get nat_cmp self.now.entered line }
    {
        self.entered.get(&line).copied()
    }

    /// Takes the step to the term of a line: its number is put down where it is kept, and else the steps of the
    /// term come first.
    fn begin(
        &self,
        terms: &SharedTerms,
        line: usize,
        tasks: &mut Vec<Task>,
        numbers: &mut Vec<usize>,
    ) -> Result<(), Memory>
        requires { IsEntering (shared_terms terms.now) self.now }
        ensures { OnOk result (IsBegun (held_terms self.now)
            (shared_at (shared_terms terms.now) line)
            (reverse numbers.old.items) (reverse numbers.new.items)
            (steps_of (shared_terms terms.now) tasks.old.items)
            (steps_of (shared_terms terms.now) tasks.new.items)) }
    {
        match self.number_of(line) {
            Some(number) => {
                numbers.push(number)?;
                Ok(())
            }
            None => push_steps(tasks, terms, line),
        }
    }

    /// One term more, unless it is there, by the words of its line. It answers its number.
    fn add(
        &mut self,
        terms: &'a SharedTerms,
        line: usize,
        words: Vec<Word>,
    ) -> Result<usize, Memory>
        requires table { IsWrittenTable self.old }
        requires parts { HasParts (held_terms self.old) (shared_at (shared_terms terms.now) line) }
        requires words { words.items
            ≡ entry_words (held_terms self.old) (shared_at (shared_terms terms.now) line) }
        ensures table { OnOk result (IsWrittenTable self.new) }
        ensures held { OnOk result (held_terms self.new
            ≡ with_table_term (held_terms self.old) (shared_at (shared_terms terms.now) line)) }
        ensures entered { OnOk result (self.new.entered ≡ self.old.entered) }
        ensures number { IfOk result (λ n. n
            ≡ line_of (held_terms self.old) (shared_at (shared_terms terms.now) line)) }
    {
        let (number, is_new) = self.lines.insert_full(words)?;
        if is_new {
            self.terms.push(Shared { terms, line })?;
        }
        Ok(number)
    }

    /// One term more, unless it is there, by the words of its line. Its number is kept.
    fn add_line(
        &mut self,
        terms: &'a SharedTerms,
        line: usize,
        words: Vec<Word>,
    ) -> Result<usize, Memory>
        requires entering { IsEntering (shared_terms terms.now) self.old }
        requires parts { HasParts (held_terms self.old) (shared_at (shared_terms terms.now) line) }
        requires words { words.items
            ≡ entry_words (held_terms self.old) (shared_at (shared_terms terms.now) line) }
        ensures entering { OnOk result (IsEntering (shared_terms terms.now) self.new) }
        ensures held { OnOk result (held_terms self.new
            ≡ with_table_term (held_terms self.old) (shared_at (shared_terms terms.now) line)) }
        ensures number { IfOk result (λ n. n
            ≡ line_of (held_terms self.old) (shared_at (shared_terms terms.now) line)) }
    {
        let number = self.add(terms, line, words)?;
        self.entered.insert(line, number)?;
        Ok(number)
    }

    /// The term of a line with its parts more. It answers its number.
    pub(crate) fn enter(
        &mut self,
        alloc: Global,
        terms: &'a SharedTerms,
        line: usize,
    ) -> Result<usize, Memory>
        requires { IsEntering (shared_terms terms.now) self.old }
        ensures entering { OnOk result (IsEntering (shared_terms terms.now) self.new) }
        ensures held { OnOk result (held_terms self.new
            ≡ grown (held_terms self.old) (shared_at (shared_terms terms.now) line ∷ [])) }
        ensures number { IfOk result (λ n. n
            ≡ line_of (held_terms self.new) (shared_at (shared_terms terms.now) line)) }
    {
        let mut numbers = Vec::new(alloc);
        let mut tasks = Vec::new(alloc);
        tasks.push(Task::Enter(line))?;
        while let Some(task) = tasks.pop() {
            match task {
                Task::Enter(next) => self.begin(terms, next, &mut tasks, &mut numbers)?,
                Task::Leave(next) => {
                    let Some(words) = words_of(alloc, terms, next, &mut numbers)? else {
                        unreachable!();
                    };
                    let number = self.add_line(terms, next, words)?;
                    numbers.push(number)?;
                }
            }
        }
        let Some(number) = numbers.pop() else {
            unreachable!();
        };
        Ok(number)
    }

    /// The words of the lines.
    pub(crate) fn lines(&self) -> &[Vec<Word>]
        ensures { map (λ v. v.items) result.now ≡ map (λ v. v.items) self.now.lines.keys }
    {
        self.lines.as_slice()
    }
}
