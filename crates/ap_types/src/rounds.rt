//! Questions of types whose answers for data types are found in rounds.
//!
//! A walk over a declared type goes on along what is last in it, and calls itself on left parts of pairs alone.

ghost use Rattle.std.specs.Prelude.{◌≡◌, ℕ, List as list, [], ◌∷◌, ◌++◌, map, Bool, ◌&&◌, ◌==◌, IfOk, OnOk};
ghost use Rattle.ap_defs.specs.Types.{NominalConstructor, type_of, constructor_of};
ghost use Rattle.ap_types.specs.Rounds.{marked, IsLeastSet};
ghost use Rattle.ap_types.specs.Inhabited.{inhabited_if, all_inhabited};
ghost use Rattle.ap_types.specs.Loading.{lent};
ghost use Rattle.ap_types.specs.Needed.{own_inhabited, needed_parts};
ghost use Rattle.ap_types.specs.Barred.{own_barred, type_parts};
ghost use Rattle.ap_types.specs.Holding.{holds_if, some_holds};
ghost use Rattle.ap_types.specs.Questions.{test_of};
ghost use Rattle.ap_types.specs.Rules.{all_are_in, Adds, Say, IsLeastSoFar};

use crate::least::{Least, Rule, add_rules, is_marked, nothing};
use ap_defs::goals::Constructor;
use ap_defs::memory::Memory;
use ap_defs::terms::Ty;
use std::alloc::Global;

/// What is asked of a type: whether it is inhabited, or whether it may hold names of a sort.
#[derive(Clone, Copy)]
pub(crate) enum Question {
    Inhabited,
    Holds(u32),
}

/// Whether a type is no data type that is not marked.
fn own_inhabited(table: &[bool], t: &Ty) -> bool
    ensures { result ≡ own_inhabited (marked table.now) (type_of t.now) }
{
    match t {
        Ty::Base(base) => is_marked(table, *base),
        _ => true,
    }
}

/// Puts the parts of a type that must be inhabited on a stack.
fn push_needed<'a>(waiting: &mut Vec<&'a Ty>, t: &'a Ty) -> Result<(), Memory>
    ensures { OnOk result (lent type_of waiting.new.items
        ≡ lent type_of waiting.old.items ++ needed_parts (type_of t.now)) }
{
    match t {
        Ty::Unit | Ty::Names(_) | Ty::Base(_) | Ty::List(_) => {}
        Ty::Pair(left, right) => {
            waiting.push(left)?;
            waiting.push(right)?;
        }
        Ty::Abs(_, body) => waiting.push(body)?,
    }
    Ok(())
}

/// Whether a type is inhabited, by the data types that are marked as inhabited. The parts that are left
/// stand on a stack: the type of an identifier can be deep on either side.
pub(crate) fn is_inhabited_by(alloc: Global, table: &[bool], t: &Ty) -> Result<bool, Memory>
    ensures { IfOk result (λ b. b ≡ inhabited_if (marked table.now) (type_of t.now)) }
{
    let mut waiting = Vec::new(alloc);
    let mut part = t;
    'parts: loop {
        if !own_inhabited(table, part) {
            return Ok(false);
        }
        push_needed(&mut waiting, part)?;
        let Some(next) = waiting.pop() else {
            return Ok(true);
        };
        part = next;
    }
}

/// Whether a type holds no names of a sort by itself, whatever its parts hold.
fn own_barred(sort: u32, table: &[bool], t: &Ty) -> bool
    ensures { result ≡ own_barred sort (marked table.now) (type_of t.now) }
{
    match t {
        Ty::Names(other) => *other != sort,
        Ty::Base(base) => !is_marked(table, *base),
        _ => true,
    }
}

/// Puts the parts of a type on a stack.
fn push_type_parts<'a>(waiting: &mut Vec<&'a Ty>, t: &'a Ty) -> Result<(), Memory>
    ensures { OnOk result (lent type_of waiting.new.items
        ≡ lent type_of waiting.old.items ++ type_parts (type_of t.now)) }
{
    match t {
        Ty::Unit | Ty::Names(_) | Ty::Base(_) => {}
        Ty::Pair(left, right) => {
            waiting.push(left)?;
            waiting.push(right)?;
        }
        Ty::List(part) | Ty::Abs(_, part) => waiting.push(part)?,
    }
    Ok(())
}

/// How many parts of a type are looked at. A type that shares its parts can have more, written out, than memory.
const MOST_PARTS: u32 = 1 << 27;

/// Whether a type may hold names of a sort, by the data types that are marked as those that may. The parts that
/// are left stand on a stack: the type of an identifier can be deep on either side. A type that has too many
/// parts, written out, is refused as want of memory is.
pub(crate) fn holds_by(alloc: Global, sort: u32, table: &[bool], t: &Ty) -> Result<bool, Memory>
    ensures { IfOk result (λ b. b ≡ holds_if sort (marked table.now) (type_of t.now)) }
{
    let mut waiting = Vec::new(alloc);
    let mut part = t;
    'parts: for _ in 0..MOST_PARTS {
        if !own_barred(sort, table, part) {
            return Ok(true);
        }
        push_type_parts(&mut waiting, part)?;
        let Some(next) = waiting.pop() else {
            return Ok(false);
        };
        part = next;
    }
    Err(Memory)
}

/// The data types that must be in for a type to be inhabited.
fn add_needs(ty: &Ty, needs: &mut Vec<u32>) -> Result<(), Memory>
    ensures { OnOk result ((p : ℕ → Bool) →
        all_are_in p needs.new.items
        ≡ (all_are_in p needs.old.items && inhabited_if p (type_of ty.now))) }
{
    let mut rest = ty;
    loop {
        match rest {
            Ty::Unit | Ty::Names(_) | Ty::List(_) => return Ok(()),
            Ty::Base(base) => {
                needs.push(*base)?;
                return Ok(());
            }
            Ty::Pair(left, right) => {
                add_needs(left, needs)?;
                rest = right;
            }
            Ty::Abs(_, body) => rest = body,
        }
    }
}

/// The data types that must be in for each of a constructor's arguments to be inhabited.
fn needs_of(alloc: Global, args: &[Ty]) -> Result<Vec<u32>, Memory>
    ensures { IfOk result (λ needs. (p : ℕ → Bool) →
        all_are_in p needs.items ≡ all_inhabited p (map type_of args.now)) }
{
    let mut needs = Vec::new(alloc);
    for ty in args {
        add_needs(ty, &mut needs)?;
    }
    Ok(needs)
}

/// A rule that gives a data type.
fn add_rule(rules: &mut Vec<Rule>, gives: u32, needs: Vec<u32>) -> Result<(), Memory>
    ensures { OnOk result (Adds rules.old.items rules.new.items (λ p. all_are_in p needs.items)
        gives) }
{
    Ok(rules.push(Rule { gives, needs })?)
}

/// The rule by which a data type holds names of a sort, where a name type is that sort.
fn add_names(
    alloc: Global,
    sort: u32,
    gives: u32,
    other: u32,
    rules: &mut Vec<Rule>,
) -> Result<(), Memory>
    ensures { OnOk result (Adds rules.old.items rules.new.items (λ p. other == sort) gives) }
{
    if other != sort {
        return Ok(());
    }
    add_rule(rules, gives, Vec::new(alloc))
}

/// The rule by which a data type may hold names where another one may.
fn add_base(alloc: Global, gives: u32, base: u32, rules: &mut Vec<Rule>) -> Result<(), Memory>
    ensures { OnOk result (Adds rules.old.items rules.new.items (λ p. p base) gives) }
{
    add_rule(rules, gives, vec![in alloc; base]?)
}

/// The rules by which a data type may hold names of a sort where a type may.
fn add_holding(
    alloc: Global,
    sort: u32,
    gives: u32,
    ty: &Ty,
    rules: &mut Vec<Rule>,
) -> Result<(), Memory>
    ensures { OnOk result (Adds rules.old.items rules.new.items
        (λ p. holds_if sort p (type_of ty.now)) gives) }
{
    let mut rest = ty;
    loop {
        match rest {
            Ty::Unit => return Ok(()),
            Ty::Names(other) => return add_names(alloc, sort, gives, *other, rules),
            Ty::Base(base) => return add_base(alloc, gives, *base, rules),
            Ty::Pair(left, right) => {
                add_holding(alloc, sort, gives, left, rules)?;
                rest = right;
            }
            Ty::List(element) => rest = element,
            Ty::Abs(_, body) => rest = body,
        }
    }
}

/// The rules by which a data type may hold names of a sort where one of a constructor's arguments may.
fn holding_rules(alloc: Global, sort: u32, gives: u32, args: &[Ty]) -> Result<Vec<Rule>, Memory>
    ensures { IfOk result (λ rules. Adds [] rules.items (λ p. some_holds sort p
        (map type_of args.now)) gives) }
{
    let mut rules = Vec::new(alloc);
    for ty in args {
        add_holding(alloc, sort, gives, ty, &mut rules)?;
    }
    Ok(rules)
}

/// What a constructor says, as rules.
fn rules_of(
    alloc: Global,
    question: Question,
    constructor: &Constructor,
) -> Result<Vec<Rule>, Memory>
    ensures { IfOk result (λ rules. Say (test_of question) (constructor_of constructor.now)
        rules.items) }
{
    let gives = constructor.result;
    match question {
        Question::Inhabited => {
            let needs = needs_of(alloc, constructor.args.items())?;
            let mut rules = Vec::new(alloc);
            add_rule(&mut rules, gives, needs)?;
            Ok(rules)
        }
        Question::Holds(sort) => holding_rules(alloc, sort, gives, constructor.args.items()),
    }
}

/// The least set with one more constructor. It costs as much as the constructor is long, and the rules
/// of earlier ones that go on.
pub(crate) fn add_constructor(
    alloc: Global,
    question: Question,
    least: &mut Least,
    constructor: &Constructor,
) -> Result<(), Memory>
    ensures { OnOk result ((cs : list NominalConstructor) → IsLeastSoFar question cs least.old →
        IsLeastSoFar question (cs ++ constructor_of constructor.now ∷ []) least.new) }
{
    let rules = rules_of(alloc, question, constructor)?;
    add_rules(alloc, least, rules)
}

/// The least set by constructors. It costs as much as they are long together.
pub(crate) fn least_of(
    alloc: Global,
    question: Question,
    constructors: &[Constructor],
) -> Result<Least, Memory>
    ensures { IfOk result (λ l. IsLeastSoFar question (map constructor_of constructors.now) l) }
{
    let mut least = nothing(alloc);
    for constructor in constructors {
        add_constructor(alloc, question, &mut least, constructor)?;
    }
    Ok(least)
}

/// A table in which just those data types are marked that are in after some round.
pub(crate) fn least_table(
    alloc: Global,
    question: Question,
    constructors: &[Constructor],
) -> Result<Vec<bool>, Memory>
    ensures { IfOk result (λ v. IsLeastSet (test_of question) (map constructor_of constructors.now)
        (marked v.items)) }
{
    let least = least_of(alloc, question, constructors)?;
    Ok(least.table)
}
