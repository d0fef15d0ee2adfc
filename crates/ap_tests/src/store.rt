ghost use Rattle.std.specs.Prelude.{◌≡◌, ◌<◌, IfOk, OnOk};
ghost use Rattle.ap_defs.specs.Renaming.{IsBelow, rename_term as renamed};
ghost use Rattle.ap_defs.specs.Terms.{term_of};
ghost use Rattle.ap_store.specs.Triples.{IsPrefixOf};
ghost use Rattle.ap_store.specs.Views.{versions};

use ap_defs::goals::{Kind, Local};
use ap_defs::lists::{SharedText, Swaps, Text};
use ap_defs::memory::Memory;
use ap_defs::terms::{Cond, Name, Swap, Term, Ty, Var};
use ap_rules::pairs::Work;
use ap_store::store::Store;
use ap_unify::terms::Terms;
use ap_unify::unify::unify;
use std::alloc::Global;
use std::slice;

fn local(alloc: Global, kind: Kind) -> Result<Local, Memory> {
    Ok(Local {
        kind,
        bound: false,
        text: SharedText::of(alloc, Text::of(String::new(alloc)))?,
    })
}

fn name_and_var(alloc: Global) -> Result<[Local; 2], Memory> {
    Ok([
        local(alloc, Kind::Name(0))?,
        local(alloc, Kind::Var(Ty::Names(0)))?,
    ])
}

fn numbered(alloc: Global) -> Result<bool, Memory> {
    let locals = name_and_var(alloc)?;
    let mut store = Store::new(alloc);
    let first = store.make(&locals)?;
    let start = store.mark();
    let next = store.make(&locals)?;
    store.undo_to(start);
    let again = store.make(&locals)?;
    Ok(first == 0 && next == 2 && again == 2 && store.next() == 4)
}

#[test]
fn numbers_are_given_again_after_going_back(rt: HostRuntime) {
    assert!(rt; matches!(numbered(rt.alloc()), Ok(true)));
}

const A: Name = Name { sort: 0, num: 0 };

const X: Var = Var { num: 1 };

const B: Name = Name { sort: 0, num: 2 };

const Y: Var = Var { num: 3 };

const C: Name = Name { sort: 0, num: 4 };

/// Unifies two terms in a store that has given six numbers.
fn equates<'a>(
    alloc: Global,
    store: &mut Store<'a>,
    t: &'a Term,
    u: &'a Term,
) -> Result<bool, Memory>
    requires left { IsBelow 6 (renamed 0 (term_of t.now)) }
    requires right { IsBelow 6 (renamed 0 (term_of u.now)) }
    ensures { IsPrefixOf (versions store.old) (versions store.new) }
{
    let end = store.next();
    if end != 6 {
        return Ok(false);
    }
    let left = Terms {
        base: 0,
        end,
        terms: slice::from_ref(t),
    };
    let right = Terms {
        base: 0,
        end,
        terms: slice::from_ref(u),
    };
    unify(alloc, store, &mut Work::new(alloc), left, right)
}

/// Whether the conditions are that A and B are fresh for X, in this order.
fn has_both(alloc: Global, store: &Store<'_>) -> Result<bool, Memory> {
    let both = [Cond { name: A, var: X }, Cond { name: B, var: X }];
    Ok(store.conds(alloc)?.as_slice() == both.as_slice())
}

fn has_none(alloc: Global, store: &Store<'_>) -> Result<bool, Memory> {
    Ok(store.conds(alloc)?.is_empty())
}

/// Equates two terms, after which there are no conditions, and goes back.
fn goes_back<'a>(
    alloc: Global,
    store: &mut Store<'a>,
    t: &'a Term,
    u: &'a Term,
) -> Result<bool, Memory>
    requires left { IsBelow 6 (renamed 0 (term_of t.now)) }
    requires right { IsBelow 6 (renamed 0 (term_of u.now)) }
    ensures { OnOk result (versions store.new ≡ versions store.old) }
{
    let start = store.mark();
    let equal = equates(alloc, store, t, u)?;
    let none = has_none(alloc, store)?;
    store.undo_to(start);
    Ok(equal && none)
}

/// Binds X to a name, by which the conditions on it go, and then Y, and goes back by two marks.
fn goes_back_twice<'a>(
    alloc: Global,
    store: &mut Store<'a>,
    x: &'a Term,
    y: &'a Term,
    c: &'a Term,
) -> Result<bool, Memory>
    requires x { IsBelow 6 (renamed 0 (term_of x.now)) }
    requires y { IsBelow 6 (renamed 0 (term_of y.now)) }
    requires c { IsBelow 6 (renamed 0 (term_of c.now)) }
{
    let start = store.mark();
    let bound = equates(alloc, store, x, c)?;
    let between = goes_back(alloc, store, y, c)? && has_none(alloc, store)?;
    store.undo_to(start);
    Ok(bound && between && has_both(alloc, store)?)
}

/// X with A and B exchanged is equal to X where these are fresh for X. Where X is bound to another name these
/// conditions go, and each time that this is undone both stand again.
fn stand_again<'a>(
    alloc: Global,
    locals: &'a [Local],
    swapped: &'a Term,
    x: &'a Term,
    y: &'a Term,
    c: &'a Term,
) -> Result<bool, Memory>
    requires swapped { IsBelow 6 (renamed 0 (term_of swapped.now)) }
    requires x { IsBelow 6 (renamed 0 (term_of x.now)) }
    requires y { IsBelow 6 (renamed 0 (term_of y.now)) }
    requires c { IsBelow 6 (renamed 0 (term_of c.now)) }
{
    let mut store = Store::new(alloc);
    store.make(locals)?;
    store.make(locals)?;
    store.make(locals)?;
    let put = equates(alloc, &mut store, swapped, x)? && has_both(alloc, &store)?;
    let once = goes_back(alloc, &mut store, x, c)? && has_both(alloc, &store)?;
    let twice = goes_back_twice(alloc, &mut store, x, y, c)?;
    Ok(put && once && twice)
}

fn variable(alloc: Global, x: Var) -> Result<Term, Memory>
    requires { x.num < 6 }
    ensures { IfOk result (λ t. IsBelow 6 (renamed 0 (term_of t))) }
{
    Ok(Term::Susp(Swaps::none(alloc)?, x))
}

/// X with A and B exchanged.
fn swapped(alloc: Global) -> Result<Term, Memory>
    ensures { IfOk result (λ t. IsBelow 6 (renamed 0 (term_of t))) }
{
    let swap = Swap {
        sort: A.sort,
        left: A.num,
        right: B.num,
    };
    let swaps = Vec::from_array(alloc, [swap])?;
    Ok(Term::Susp(Swaps::of(alloc, swaps)?, X))
}

fn conditions_stand(alloc: Global) -> Result<bool, Memory> {
    let locals = name_and_var(alloc)?;
    let swapped = swapped(alloc)?;
    let x = variable(alloc, X)?;
    let y = variable(alloc, Y)?;
    let c = Term::Name(C);
    stand_again(alloc, &locals, &swapped, &x, &y, &c)
}

#[test]
fn conditions_stand_again_after_going_back(rt: HostRuntime) {
    assert!(rt; matches!(conditions_stand(rt.alloc()), Ok(true)));
}
