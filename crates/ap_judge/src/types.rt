//! What the head of a term leaves to be looked at, where the term is to have a type.
//!
//! The type of an identifier can be as deep as the equations are long that it solves, on either side: the
//! parts of types that are left to compare stand on a stack, as do those of terms.

ghost use Rattle.std.specs.Prelude.{◌≡◌, ℕ, Bool, map, IfOk, List as list, MatchOption, Some, None};
ghost use Rattle.ap_defs.specs.Answers.{typed_var_of};
ghost use Rattle.ap_defs.specs.Printing.{constructor_in};
ghost use Rattle.ap_defs.specs.Terms.{unit};
ghost use Rattle.ap_defs.specs.Types.{NominalConstructor, base, constructor_of, type_of};
ghost use Rattle.ap_defs.specs.Typing.{VarTypes, arguments as wanted_arguments, one};
ghost use Rattle.ap_checks.specs.TypeTests.{is_type, is_typed, type_beside as beside, type_eq};
ghost use Rattle.ap_judge.specs.Stacks.{IsTested};
ghost use Rattle.ap_judge.specs.Wanted.{IsLooked, are_one, expected_size, inside_of, is_expected, pair_size, parts_of, want_of};
ghost use Rattle.ap_judge.specs.declared.types.Expected.{Expected};
ghost use Rattle.ap_shared.specs.SharedViews.{shared_terms};

use crate::index::IndexedAnswer;
use ap_defs::goals::Constructor;
use ap_defs::memory::Memory;
use ap_defs::terms::{Ty, Var};
use ap_shared::arena::SharedTerms;
use ap_shared::lines::Entry;
use std::alloc::Global;

/// What an application's argument is to be.
#[derive(Clone, Copy)]
pub(crate) enum Wanted<'a> {
    /// Nothing: the argument is unit.
    Nothing,
    /// A term of a type.
    One(&'a Ty),
    /// A term of a type, and then a tuple with a term of each of the others.
    More(&'a Ty, &'a [Ty]),
    /// A term of the first type, and then one of the second, which is a list.
    Cell(&'a Ty, &'a Ty),
}

/// The line of a term, and what it is to be.
#[derive(Clone, Copy)]
pub(crate) struct Expected<'a> {
    pub line: usize,
    pub wanted: Wanted<'a>,
}

/// What the look at the head of a term leaves to be looked at.
#[derive(Clone, Copy)]
pub(crate) enum Looked<'a> {
    /// The term isn't what it is to be.
    Fails,
    Passes,
    Part(Expected<'a>),
    Parts(Expected<'a>, Expected<'a>),
}

/// Two types that are yet to be compared.
#[derive(Clone, Copy)]
pub(crate) struct TypePair<'a> {
    pub left: &'a Ty,
    pub right: &'a Ty,
}

/// Compares the heads of two types: their parts wait to be compared.
fn compare<'a>(pending: &mut Vec<TypePair<'a>>, at: TypePair<'a>) -> Result<bool, Memory>
    ensures { IfOk result (λ yes. IsTested are_one pair_size at.entry
        pending.old.items pending.new.items yes) }
{
    match (at.left, at.right) {
        (Ty::Unit, Ty::Unit) => Ok(true),
        (Ty::Names(s), Ty::Names(r)) => Ok(*s == *r),
        (Ty::Base(d), Ty::Base(e)) => Ok(*d == *e),
        (Ty::Pair(a, b), Ty::Pair(c, d)) => {
            pending.push(TypePair { left: b, right: d })?;
            pending.push(TypePair { left: a, right: c })?;
            Ok(true)
        }
        (Ty::List(a), Ty::List(b)) => {
            pending.push(TypePair { left: a, right: b })?;
            Ok(true)
        }
        (Ty::Abs(s, a), Ty::Abs(r, b)) => {
            if *s != *r {
                return Ok(false);
            }
            pending.push(TypePair { left: a, right: b })?;
            Ok(true)
        }
        _ => Ok(false),
    }
}

/// Whether two types are one.
pub(crate) fn is_same(alloc: Global, a: &Ty, b: &Ty) -> Result<bool, Memory>
    ensures { IfOk result (λ yes. yes ≡ type_eq (type_of a.now) (type_of b.now)) }
{
    if let (Ty::Base(d), Ty::Base(e)) = (a, b) {
        return Ok(*d == *e);
    }
    let mut pending = Vec::new(alloc);
    pending.push(TypePair { left: a, right: b })?;
    while let Some(next) = pending.pop() {
        if !compare(&mut pending, next)? {
            return Ok(false);
        }
    }
    Ok(true)
}

/// Whether the type beside the variable is this one.
fn has_type_beside(
    alloc: Global,
    answer: &IndexedAnswer<'_>,
    x: Var,
    ty: &Ty,
) -> Result<bool, Memory>
    ensures { IfOk result (λ yes. yes
        ≡ is_type (beside (map typed_var_of answer.now.vars) x) (type_of ty.now)) }
{
    match answer.type_beside(x) {
        None => Ok(false),
        Some(found) => Ok(is_same(alloc, found, ty)?),
    }
}

/// What the arguments of a constructor are to be.
fn arguments(types: &[Ty]) -> Wanted<'_>
    ensures { want_of result ≡ wanted_arguments (map type_of types.now) }
{
    match types {
        [] => Wanted::Nothing,
        [only] => Wanted::One(only),
        [first, rest @ ..] => Wanted::More(first, rest),
    }
}

/// What the parts of a pair are to be.
fn parts(want: Wanted<'_>) -> Option<(Wanted<'_>, Wanted<'_>)>
    ensures { MatchOption result (parts_of (want_of want.entry) ≡ None) (λ p. parts_of
        (want_of want.entry) ≡ Some (want_of p.0, want_of p.1)) }
{
    match want {
        Wanted::One(Ty::Pair(left, right)) => Some((Wanted::One(left), Wanted::One(right))),
        Wanted::More(first, rest) => Some((Wanted::One(first), arguments(rest))),
        Wanted::Cell(element, list) => Some((Wanted::One(element), Wanted::One(list))),
        _ => None,
    }
}

/// The declared constructor with a number, of which 0 and 1 are none.
#[tactic(auto, using(crate::proofs::TypeLemmas::constructor_found, crate::proofs::TypeLemmas::constructor_low, crate::proofs::TypeLemmas::constructor_past))]
fn declared_at(constructors: &[Constructor], f: u32) -> Option<&Constructor>
    ensures { MatchOption result
        (constructor_in (map constructor_of constructors.now) f ≡ None) (λ c.
        constructor_in (map constructor_of constructors.now) f ≡ Some (constructor_of c.now)) }
{
    let place = f as usize;
    if place < 2 || place - 2 >= constructors.len() {
        return None;
    }
    Some(&constructors[place - 2])
}

/// What the argument of a declared constructor is to be, where the application has this data type.
fn declared_inside(constructors: &[Constructor], f: u32, declared: u32) -> Option<Wanted<'_>>
    ensures { MatchOption result (inside_of (map constructor_of constructors.now) f
        (one (base declared)) ≡ None) (λ w. inside_of (map constructor_of constructors.now) f
        (one (base declared)) ≡ Some (want_of w)) }
{
    let constructor = declared_at(constructors, f)?;
    if constructor.result != declared {
        return None;
    }
    Some(arguments(constructor.args.items()))
}

/// What the argument of an application is to be.
fn inside<'a>(constructors: &'a [Constructor], f: u32, want: Wanted<'a>) -> Option<Wanted<'a>>
    ensures { MatchOption result (inside_of (map constructor_of constructors.now) f
        (want_of want.entry) ≡ None) (λ w. inside_of (map constructor_of constructors.now) f
        (want_of want.entry) ≡ Some (want_of w)) }
{
    let Wanted::One(ty) = want else {
        return None;
    };
    match (f, ty) {
        (0, Ty::List(_)) => Some(Wanted::Nothing),
        (1, Ty::List(element)) => Some(Wanted::Cell(element, ty)),
        (_, Ty::Base(data)) => declared_inside(constructors, f, *data),
        _ => None,
    }
}

/// Whether unit is what is wanted.
fn is_unit(wanted: Wanted<'_>) -> bool
    ensures { (cs : list NominalConstructor) (vars : VarTypes) →
        result ≡ is_typed cs vars unit (want_of wanted.entry) }
{
    match wanted {
        Wanted::Nothing | Wanted::One(Ty::Unit) => true,
        _ => false,
    }
}

/// What a term without parts leaves.
fn leaf<'a>(passes: bool) -> Looked<'a>
    ensures { (test : Expected → Bool) (size : Expected → ℕ) (e : Expected) →
        passes ≡ test e → IsLooked test size e result }
{
    if passes {
        Looked::Passes
    } else {
        Looked::Fails
    }
}

/// Looks at the head of a term that is to be what is wanted.
pub(crate) fn look<'a>(
    alloc: Global,
    constructors: &'a [Constructor],
    answer: &IndexedAnswer<'_>,
    terms: &SharedTerms,
    at: Expected<'a>,
) -> Result<Looked<'a>, Memory>
    ensures { IfOk result (λ left.
        IsLooked (is_expected (shared_terms terms.now) (map constructor_of constructors.now)
        (beside (map typed_var_of answer.now.vars))) (expected_size (shared_terms terms.now))
        at.entry left) }
{
    let Expected { line, wanted } = at;
    let Some(entry) = terms.entry(line) else {
        return Ok(leaf(is_unit(wanted)));
    };
    match (entry, wanted) {
        (Entry::Unit, _) => Ok(leaf(is_unit(wanted))),
        (Entry::Name(a), Wanted::One(Ty::Names(sort))) => Ok(leaf(a.sort == *sort)),
        (Entry::Pair(left, right), _) => {
            let Some((first, second)) = parts(wanted) else {
                return Ok(Looked::Fails);
            };
            let left = Expected {
                line: *left,
                wanted: first,
            };
            let right = Expected {
                line: *right,
                wanted: second,
            };
            Ok(Looked::Parts(left, right))
        }
        (Entry::App(f, part), _) => {
            let Some(inner) = inside(constructors, *f, wanted) else {
                return Ok(Looked::Fails);
            };
            let part = Expected {
                line: *part,
                wanted: inner,
            };
            Ok(Looked::Part(part))
        }
        (Entry::Abs(own, _, part), Wanted::One(Ty::Abs(sort, ty))) => {
            if *own != *sort {
                return Ok(Looked::Fails);
            }
            let part = Expected {
                line: *part,
                wanted: Wanted::One(ty),
            };
            Ok(Looked::Part(part))
        }
        (Entry::Susp(_, x), Wanted::One(ty)) => {
            Ok(leaf(has_type_beside(alloc, answer, *x, ty)?))
        }
        _ => Ok(Looked::Fails),
    }
}
