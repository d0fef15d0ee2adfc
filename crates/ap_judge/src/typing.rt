//! Types of terms of a table.
//!
//! A line is looked at once for a type, however often it is cited: that its term has the type is known once
//! all that was to be looked at for it has passed. So what will be known waits on the stack below that.

ghost use Rattle.std.specs.Prelude.{◌≡◌, ◌++◌, [], ◌∷◌, true, List as list, map, IfOk, OnOk};
ghost use Rattle.ap_defs.specs.Answers.{typed_var_of};
ghost use Rattle.ap_defs.specs.Types.{NominalConstructor, constructor_of, type_of};
ghost use Rattle.ap_defs.specs.Typing.{VarTypes, one};
ghost use Rattle.ap_defs.specs.Terms.{NominalTerm};
ghost use Rattle.ap_checks.specs.TypeTests.{is_typed, type_beside as beside};
ghost use Rattle.ap_judge.specs.Typings.{AreEarned, AreTyped, AreTypesKnown, IsTaskTaken, to_be_known};
ghost use Rattle.ap_judge.specs.Wanted.{expected_size, is_expected};
ghost use Rattle.ap_judge.specs.declared.typing.Task.TheVariants as tasks_of;
ghost use Rattle.ap_shared.specs.Shared.{shared_at};
ghost use Rattle.ap_shared.specs.SharedViews.{shared_terms};

use crate::index::IndexedAnswer;
use crate::types::{Expected, Looked, Wanted, is_same, look};
use ap_defs::goals::Constructor;
use ap_defs::memory::Memory;
use ap_defs::terms::Ty;
use ap_shared::arena::SharedTerms;
use std::alloc::Global;
use std::collections::BTreeMap;

/// Lines of a table whose terms were found to have a type.
#[derive(Drop)]
pub struct Typed<'a> {
    pub known: BTreeMap<usize, &'a Ty>,
}

/// What is yet to be done: a look at a term, or to note that one has a type, since all passed that waited
/// above it.
#[derive(Clone, Copy)]
pub(crate) enum Task<'a> {
    Look(Expected<'a>),
    Known(usize, &'a Ty),
}

impl<'a> Typed<'a> {
    /// Nothing is known.
    #[tactic(auto, using(crate::proofs::TypingLemmas::nothing_typed))]
    pub fn new(alloc: Global) -> Typed<'a>
        ensures { (ts : list NominalTerm) (cs : list NominalConstructor) (vars : VarTypes) →
            AreTyped ts cs vars result }
    {
        Typed {
            known: BTreeMap::new(alloc),
        }
    }

    /// Whether the term of a line is known to have the type.
    fn has(&self, alloc: Global, line: usize, ty: &Ty) -> Result<bool, Memory>
        ensures { IfOk result (λ yes. yes ≡ true →
            (ts : list NominalTerm) (cs : list NominalConstructor) (vars : VarTypes) →
            AreTyped ts cs vars self.now →
            is_typed cs vars (shared_at ts line) (one (type_of ty.now)) ≡ true) }
    {
        match self.known.get(&line) {
            None => Ok(false),
            Some(known) => is_same(alloc, known, ty),
        }
    }

    /// The term of a line has the type.
    fn keep(&mut self, line: usize, ty: &'a Ty) -> Result<(), Memory>
        ensures { OnOk result (
            (ts : list NominalTerm) (cs : list NominalConstructor) (vars : VarTypes) →
            is_typed cs vars (shared_at ts line) (one (type_of ty.now)) ≡ true →
            AreTyped ts cs vars self.old → AreTyped ts cs vars self.new) }
    {
        self.known.insert(line, ty)?;
        Ok(())
    }

    /// Whether a term is known to be what it is to be.
    fn has_expected(&self, alloc: Global, at: Expected<'_>) -> Result<bool, Memory>
        ensures { IfOk result (λ yes. yes ≡ true →
            (ts : list NominalTerm) (cs : list NominalConstructor) (vars : VarTypes) →
            AreTyped ts cs vars self.now → is_expected ts cs vars at.entry ≡ true) }
    {
        match at.wanted {
            Wanted::One(ty) => self.has(alloc, at.line, ty),
            _ => Ok(false),
        }
    }
}

/// That a term has a type will be known, where it is to have one.
fn note<'a>(tasks: &mut Vec<Task<'a>>, at: Expected<'a>) -> Result<(), Memory>
    ensures { OnOk result (tasks.new.items ≡ tasks.old.items ++ to_be_known at.entry) }
{
    match at.wanted {
        Wanted::One(ty) => {
            tasks.push(Task::Known(at.line, ty))?;
            Ok(())
        }
        Wanted::Nothing | Wanted::More(_, _) | Wanted::Cell(_, _) => Ok(()),
    }
}

/// Looks at a term: its parts are to be looked at, and below them waits what will be known.
#[tactic(auto, using(crate::proofs::TypingLemmas::passed_leaves, crate::proofs::TypingLemmas::part_leaves, crate::proofs::TypingLemmas::parts_leave))]
fn take<'a>(
    alloc: Global,
    constructors: &'a [Constructor],
    answer: &IndexedAnswer<'_>,
    terms: &SharedTerms,
    tasks: &mut Vec<Task<'a>>,
    at: Expected<'a>,
) -> Result<bool, Memory>
    ensures { IfOk result (λ yes. IsTaskTaken (shared_terms terms.now)
        (map constructor_of constructors.now) (beside (map typed_var_of answer.now.vars))
        (tasks_of.Look at.entry) tasks.old.items tasks.new.items yes) }
{
    match look(alloc, constructors, answer, terms, at)? {
        Looked::Fails => Ok(false),
        Looked::Passes => Ok(true),
        Looked::Part(part) => {
            note(tasks, at)?;
            tasks.push(Task::Look(part))?;
            Ok(true)
        }
        Looked::Parts(left, right) => {
            note(tasks, at)?;
            tasks.push(Task::Look(right))?;
            tasks.push(Task::Look(left))?;
            Ok(true)
        }
    }
}

/// Does what is next: a term that is known to be what it is to be isn't looked at again.
#[tactic(auto, using(crate::proofs::TypingLemmas::passed_leaves, crate::proofs::TypingLemmas::known_leaves))]
fn advance<'a>(
    alloc: Global,
    constructors: &'a [Constructor],
    answer: &IndexedAnswer<'_>,
    terms: &SharedTerms,
    typed: &mut Typed<'a>,
    tasks: &mut Vec<Task<'a>>,
    next: Task<'a>,
) -> Result<bool, Memory>
    requires typed { AreTypesKnown terms.now constructors.now answer.now.vars typed.old }
    requires earned { AreEarned (shared_terms terms.now) (map constructor_of constructors.now)
        (beside (map typed_var_of answer.now.vars)) (tasks.old.items ++ next ∷ []) }
    ensures taken { IfOk result (λ yes. IsTaskTaken (shared_terms terms.now)
        (map constructor_of constructors.now) (beside (map typed_var_of answer.now.vars))
        next.entry tasks.old.items tasks.new.items yes) }
    ensures typed { OnOk result (AreTypesKnown terms.now constructors.now answer.now.vars
        typed.new) }
{
    match next {
        Task::Known(line, ty) => {
            typed.keep(line, ty)?;
            Ok(true)
        }
        Task::Look(at) => {
            if typed.has_expected(alloc, at)? {
                return Ok(true);
            }
            take(alloc, constructors, answer, terms, tasks, at)
        }
    }
}

/// Whether the term of a line has the type, where the answer's variables have the types beside them, and
/// another variable has no type. What is left to look at stands on a stack, so no term is too deep.
pub fn has_type<'a>(
    alloc: Global,
    constructors: &'a [Constructor],
    answer: &IndexedAnswer<'_>,
    terms: &SharedTerms,
    typed: &mut Typed<'a>,
    line: usize,
    ty: &'a Ty,
) -> Result<bool, Memory>
    requires { AreTypesKnown terms.now constructors.now answer.now.vars typed.old }
    ensures value { IfOk result (λ yes. yes ≡
        is_typed (map constructor_of constructors.now)
        (beside (map typed_var_of answer.now.vars)) (shared_at (shared_terms terms.now) line)
        (one (type_of ty.now))) }
    ensures typed { OnOk result (AreTypesKnown terms.now constructors.now answer.now.vars
        typed.new) }
{
    let mut tasks = Vec::new(alloc);
    tasks.push(Task::Look(Expected {
        line,
        wanted: Wanted::One(ty),
    }))?;
    while let Some(next) = tasks.pop() {
        if !advance(alloc, constructors, answer, terms, typed, &mut tasks, next)? {
            return Ok(false);
        }
    }
    Ok(true)
}
