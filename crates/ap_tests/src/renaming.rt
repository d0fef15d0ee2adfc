ghost use Rattle.std.specs.Prelude.{◌≡◌, [], ◌∷◌, IfOk, map, length};
ghost use Rattle.ap_defs.specs.Terms.{app, susp, term_of};

use ap_defs::goals::{Clause, Fresh, Goal, Kind, Local};
use ap_defs::lists::{List, SharedText, Swaps, Text};
use ap_defs::memory::Memory;
use ap_defs::terms::{Term, Ty, Var};
use ap_values::renaming::rename;
use std::alloc::Global;

fn variable(alloc: Global, num: u64) -> Result<Term, Memory>
    ensures { IfOk result (λ t. term_of t ≡ susp [] (record { num = num })) }
{
    Ok(Term::Susp(Swaps::none(alloc)?, Var { num }))
}

fn local(alloc: Global, ty: Ty) -> Result<Local, Memory> {
    Ok(Local {
        kind: Kind::Var(ty),
        bound: false,
        text: SharedText::of(alloc, Text::of(String::new(alloc)))?,
    })
}

fn locals(alloc: Global) -> Result<Vec<Local>, Memory>
    ensures { IfOk result (λ v. length v.items ≡ 2) }
{
    let locals = Vec::from_array(
        alloc,
        [local(alloc, Ty::Names(0))?, local(alloc, Ty::Names(0))?],
    )?;
    Ok(locals)
}

fn argument(alloc: Global) -> Result<Vec<Term>, Memory>
    ensures { IfOk result (λ v. map term_of v.items ≡ app 2 (susp [] (record { num = 1 })) ∷ []) }
{
    let variable = Box::new(alloc, variable(alloc, 1)?)?;
    let mut arguments = Vec::with_capacity(alloc, 1)?;
    arguments.push(Term::App(2, variable))?;
    Ok(arguments)
}

/// p(var(Y)) :- X # Y.
fn renamed(alloc: Global) -> Result<Fresh, Memory> {
    let args = List::of(argument(alloc)?);
    let locals = List::of(locals(alloc)?);
    let clause = Clause {
        item: 1,
        line: 1,
        pred: 0,
        args,
        body: Goal::Fresh(variable(alloc, 0)?, variable(alloc, 1)?),
        locals,
    };
    rename(alloc, &clause, 4)
}

fn is_variable(t: &Term, num: u64) -> bool {
    match t {
        Term::Susp(swaps, x) => swaps.items().is_empty() && x.num == num,
        _ => false,
    }
}

fn is_head(args: &[Term]) -> bool {
    match args {
        [Term::App(2, argument)] => is_variable(argument, 5),
        _ => false,
    }
}

fn is_body(body: &Goal<Term>) -> bool {
    match body {
        Goal::Fresh(left, right) => is_variable(left, 4) && is_variable(right, 5),
        _ => false,
    }
}

fn is_expected(fresh: &Fresh) -> bool {
    is_head(fresh.args.items()) && is_body(&fresh.body) && fresh.next == 6
}

#[test]
fn a_clause_gets_new_numbers(rt: HostRuntime) {
    let renamed = renamed(rt.alloc());
    assert!(rt; matches!(&renamed, Ok(fresh) if is_expected(fresh)));
}
