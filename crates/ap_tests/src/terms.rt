use ap_defs::copies::{copy_kind, copy_term, copy_type};
use ap_defs::goals::Kind;
use ap_defs::lists::{Swaps, Text};
use ap_defs::memory::Memory;
use ap_defs::terms::{Ground, Name, Swap, Term, Ty, Var};
use ap_values::ground::{alpha_eq, fresh_ground};
use std::alloc::Global;
use std::sync::Arc;

const A: Name = Name { sort: 0, num: 0 };

const B: Name = Name { sort: 0, num: 1 };

const OTHER: Name = Name { sort: 1, num: 0 };

fn abstraction(alloc: Global, binder: Name, body: Name) -> Result<Ground, Memory> {
    Ok(Ground::Abs(binder, Box::new(alloc, Ground::Name(body))?))
}

/// Whether abstractions, each of a binder and its body, are equal up to renaming.
fn are_alike(alloc: Global, left: (Name, Name), right: (Name, Name)) -> Result<bool, Memory> {
    let left = abstraction(alloc, left.0, left.1)?;
    let right = abstraction(alloc, right.0, right.1)?;
    alpha_eq(alloc, &left, &right)
}

fn is_fresh(alloc: Global, a: Name, binder: Name, body: Name) -> Result<bool, Memory> {
    Ok(fresh_ground(&a, &abstraction(alloc, binder, body)?))
}

#[test]
fn abstractions_are_equal_up_to_their_binders(rt: HostRuntime) {
    let alloc = rt.alloc();
    assert!(rt; matches!(are_alike(alloc, (A, A), (B, B)), Ok(true)));
    assert!(rt; matches!(are_alike(alloc, (A, B), (B, A)), Ok(false)));
    assert!(rt; matches!(are_alike(alloc, (A, A), (OTHER, OTHER)), Ok(false)));
}

#[test]
fn binders_are_fresh(rt: HostRuntime) {
    let alloc = rt.alloc();
    assert!(rt; matches!(is_fresh(alloc, A, A, A), Ok(true)));
    assert!(rt; matches!(is_fresh(alloc, B, A, A), Ok(true)));
    assert!(rt; matches!(is_fresh(alloc, B, A, B), Ok(false)));
}

/// (a b) X and b
fn parts(alloc: Global) -> Result<(Term, Term), Memory> {
    let swap = Swap {
        sort: 0,
        left: 0,
        right: 1,
    };
    let swaps = Swaps::of(alloc, Vec::from_array(alloc, [swap])?)?;
    Ok((Term::Susp(swaps, Var { num: 3 }), Term::Name(B)))
}

fn pair(alloc: Global) -> Result<Term, Memory> {
    let (left, right) = parts(alloc)?;
    Ok(Term::Pair(Box::new(alloc, left)?, Box::new(alloc, right)?))
}

fn copied_term(alloc: Global) -> Result<Term, Memory> {
    let body = Box::new(alloc, pair(alloc)?)?;
    copy_term(alloc, &Term::Abs(A.sort, A.num, body))
}

fn are_parts(left: &Term, right: &Term) -> bool {
    match (left, right) {
        (Term::Susp(swaps, x), Term::Name(b)) => {
            *b == B && x.num == 3 && swaps.items().len() == 1
        }
        _ => false,
    }
}

fn is_pair(term: &Term) -> bool {
    match term {
        Term::Pair(left, right) => are_parts(left, right),
        _ => false,
    }
}

fn is_copied(term: &Term) -> bool {
    match term {
        Term::Abs(sort, num, body) => *sort == A.sort && *num == A.num && is_pair(body),
        _ => false,
    }
}

fn list(alloc: Global) -> Result<Ty, Memory> {
    let element = Ty::Abs(1, Arc::new(alloc, Ty::Names(2))?);
    Ok(Ty::List(Arc::new(alloc, element)?))
}

fn copied_kind(alloc: Global) -> Result<Kind, Memory> {
    copy_kind(&Kind::Var(copy_type(&list(alloc)?)?))
}

fn is_element(ty: &Ty) -> bool {
    match ty {
        Ty::Abs(1, body) => matches!(&**body, Ty::Names(2)),
        _ => false,
    }
}

fn is_list(kind: &Kind) -> bool {
    match kind {
        Kind::Var(Ty::List(element)) => is_element(element),
        _ => false,
    }
}

fn copied_text(alloc: Global) -> Result<Text, Memory> {
    Text::of(String::from_str(alloc, "swap")?).copy(alloc)
}

#[test]
fn copies_are_like_what_they_copy(rt: HostRuntime) {
    let alloc = rt.alloc();
    assert!(rt; matches!(&copied_term(alloc), Ok(term) if is_copied(term)));
    assert!(rt; matches!(&copied_kind(alloc), Ok(kind) if is_list(kind)));
    assert!(rt; matches!(&copied_text(alloc), Ok(text) if text.as_str() == "swap"));
}
