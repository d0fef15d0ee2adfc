//! Answers of states that were found.

ghost use Rattle.std.specs.Prelude.{◌≡◌, [], IfOk, map};
ghost use Rattle.std.specs.Option.{option_to_list};
ghost use Rattle.ap_defs.specs.Answers.{answer_of, kind_at, typed_var_of, typed_vars, with_type};
ghost use Rattle.ap_defs.specs.Terms.{term_of};
ghost use Rattle.ap_defs.specs.Types.{locals_of};
ghost use Rattle.ap_machine.specs.Asking.{answer_alone, answering_of};
ghost use Rattle.ap_machine.specs.Brought.{vars_of_brought};
ghost use Rattle.ap_machine.specs.Looks.{HasLooked};
ghost use Rattle.ap_machine.specs.Unbound.{answer_by_unbound, vars_besides};
ghost use Rattle.ap_machine.specs.Views.{state_in};
ghost use Rattle.ap_store.specs.Views.{kinds, versions};

use crate::asked::Asked;
use crate::brought::Brought;
use crate::chains::closed;
use crate::looks::Look;
use crate::unbound::unbound_of;
use crate::vars::{add_vars, add_vars_of_conds, add_vars_of_terms, make_ascending};
use ap_defs::copies::copy_type;
use ap_defs::goals::Kind;
use ap_defs::lists::List;
use ap_defs::memory::Memory;
use ap_defs::outcomes::Answer;
use ap_defs::terms::{Cond, Term, Ty, Var};
use ap_perm::closures::Closure;
use ap_store::store::Store;
use std::alloc::Global;

/// The set of the variables of bindings, of conditions and of further ones.
fn vars_among(
    alloc: Global,
    binds: &[Term],
    conds: &[Cond],
    others: &[Var],
) -> Result<Vec<Var>, Memory>
    ensures { IfOk result (λ v. v.items
        ≡ vars_besides (map term_of binds.now) conds.now others.now) }
{
    let mut vars = Vec::new(alloc);
    add_vars_of_terms(alloc, &mut vars, binds)?;
    add_vars_of_conds(&mut vars, conds)?;
    add_vars(&mut vars, others)?;
    make_ascending(&mut vars);
    Ok(vars)
}

/// A variable with its type, or none where its number is no variable's.
fn typed(alloc: Global, store: &Store<'_>, x: Var) -> Result<Option<(Var, Ty)>, Memory>
    ensures { IfOk result (λ o. map typed_var_of (option_to_list o)
        ≡ with_type x (kind_at (kinds store.now) x.num) []) }
{
    if x.num < store.next() {
        match store.kind(x.num) {
            Kind::Var(t) => {
                let t = copy_type(t)?;
                Ok(Some((x, t)))
            }
            Kind::Name(_) => Ok(None),
        }
    } else {
        Ok(None)
    }
}

/// Variables with their types.
fn typed_of(alloc: Global, store: &Store<'_>, vars: &[Var]) -> Result<Vec<(Var, Ty)>, Memory>
    ensures { IfOk result (λ v. map typed_var_of v.items ≡ typed_vars (kinds store.now) vars.now) }
{
    let mut all = Vec::with_capacity(alloc, vars.len())?;
    'typing: for x in vars {
        if let Some(one) = typed(alloc, store, *x)? {
            all.push(one)?;
        }
    }
    Ok(all)
}

/// The answer of a state that was found, with all that there is to be seen, where clauses and `exists` brought these
/// variables, of which this was seen.
fn answer_in(
    alloc: Global,
    asked: &Asked<'_>,
    store: &Store<'_>,
    look: &Look,
    brought: &[Brought<'_>],
) -> Result<Answer, Memory>
    requires { HasLooked (versions store.now) brought.now look.now }
    ensures { IfOk result (λ a. answer_of a
        ≡ answer_by_unbound (locals_of asked.now.locals.now) (state_in store.now)
        (vars_of_brought brought.now)) }
{
    let binds = closed(alloc, store, &asked.free)?;
    let others = unbound_of(alloc, store, look, brought)?;
    let conds = store.conds(alloc)?;
    let vars = vars_among(alloc, &binds, &conds, &others)?;
    let vars = typed_of(alloc, store, &vars)?;
    Ok(Answer {
        binds: List::of(binds),
        conds: List::of(conds),
        vars: List::of(vars),
    })
}

/// The bindings and the conditions of a state that was found.
fn answer_alone(alloc: Global, asked: &Asked<'_>, store: &Store<'_>) -> Result<Answer, Memory>
    ensures { IfOk result (λ a. answer_of a
        ≡ answer_alone (locals_of asked.now.locals.now) (state_in store.now) []) }
{
    let binds = closed(alloc, store, &asked.free)?;
    let conds = store.conds(alloc)?;
    Ok(Answer {
        binds: List::of(binds),
        conds: List::of(conds),
        vars: List::of(Vec::new(alloc)),
    })
}

/// The answer of a state that was found, where clauses and `exists` brought these variables, of which this was seen.
pub fn answer_to(
    alloc: Global,
    asked: &Asked<'_>,
    store: &Store<'_>,
    look: &Look,
    brought: &[Brought<'_>],
) -> Result<Answer, Memory>
    requires { HasLooked (versions store.now) brought.now look.now }
    ensures { IfOk result (λ a. answer_of a
        ≡ answering_of asked.now (state_in store.now) (vars_of_brought brought.now)) }
{
    if asked.is_alone {
        answer_alone(alloc, asked, store)
    } else {
        answer_in(alloc, asked, store, look, brought)
    }
}
