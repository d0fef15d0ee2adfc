//! Answers with their derivations, whose terms are entered in a table.

ghost use Rattle.std.specs.Prelude.{◌≡◌, ◌++◌, length, map, IfOk, OnOk};
ghost use Rattle.ap_defs.specs.Answers.{answer_of, typed_var_of};
ghost use Rattle.ap_defs.specs.Derivations.{derivation_of};
ghost use Rattle.ap_defs.specs.Terms.{term_of};
ghost use Rattle.ap_bundle.specs.Bundles.{bundle_of, proved_of};
ghost use Rattle.ap_bundle.specs.Nodes.{preorder};
ghost use Rattle.ap_shared.specs.FirstNodes.{children_back, first_node, map_node, node_terms, seen};
ghost use Rattle.ap_shared.specs.LineNodes.{node_by_lines};
ghost use Rattle.ap_shared.specs.Shared.{AreLinesBelow, IsGrown, shared_at};
ghost use Rattle.ap_shared.specs.SharedViews.{shared_answer, shared_bundle, shared_derivation, shared_proved, shared_terms};

use crate::arena::SharedTerms;
use crate::derivations::{SharedAnswer, SharedBundle, SharedDerivation, SharedProved, SharedUse};
use crate::entering::enter;
use crate::nodes::{SharedNode, whole_derivation};
use ap_defs::copies::copy_type;
use ap_defs::lists::List;
use ap_defs::memory::Memory;
use ap_defs::outcomes::{Answer, Bundle, ClauseUse, Derivation, Proved};
use ap_defs::terms::{Term, Ty, Var};
use std::alloc::Global;
use std::rc::Rc;

/// Terms with their parts more. It answers their lines.
fn enter_each(alloc: Global, table: &mut SharedTerms, terms: &[Term]) -> Result<Vec<usize>, Memory>
    ensures grown { OnOk result (IsGrown (shared_terms table.old) (shared_terms table.new)) }
    ensures below { IfOk result (λ ls. AreLinesBelow (length (shared_terms table.new)) ls.items) }
    ensures lines { IfOk result (λ ls. map (shared_at (shared_terms table.new)) ls.items
        ≡ map term_of terms.now) }
{
    let mut lines = Vec::new(alloc);
    for term in terms {
        let line = enter(alloc, table, term)?;
        lines.push(line)?;
    }
    Ok(lines)
}

fn copy_vars(alloc: Global, vars: &[(Var, Ty)]) -> Result<Vec<(Var, Ty)>, Memory>
    ensures { IfOk result (λ v. map typed_var_of v.items ≡ map typed_var_of vars.now) }
{
    let mut copied = Vec::new(alloc);
    for typed in vars {
        copied.push((typed.0, copy_type(&typed.1)?))?;
    }
    Ok(copied)
}

/// The answer, with its bindings entered.
pub fn share_answer(
    alloc: Global,
    table: &mut SharedTerms,
    answer: &Answer,
) -> Result<SharedAnswer, Memory>
    ensures grown { OnOk result (IsGrown (shared_terms table.old) (shared_terms table.new)) }
    ensures below { IfOk result (λ a. AreLinesBelow (length (shared_terms table.new)) a.binds) }
    ensures answer { IfOk result (λ a. shared_answer (shared_terms table.new) a
        ≡ answer_of answer.now) }
{
    let binds = List::of(enter_each(alloc, table, answer.binds.items())?);
    let conds = List::of(answer.conds.items().to_vec(alloc)?);
    let vars = List::of(copy_vars(alloc, answer.vars.items())?);
    Ok(SharedAnswer { binds, conds, vars })
}

/// How an atom used a clause, with its terms entered.
fn share_use(alloc: Global, table: &mut SharedTerms, used: &ClauseUse) -> Result<SharedUse, Memory>
    ensures grown { OnOk result (IsGrown (shared_terms table.old) (shared_terms table.new)) }
    ensures below { IfOk result (λ u. AreLinesBelow (length (shared_terms table.new)) u.terms) }
    ensures clause { IfOk result (λ u. u.clause ≡ used.now.clause) }
    ensures names { IfOk result (λ u. u.names ≡ used.now.names) }
    ensures terms { IfOk result (λ u. map (shared_at (shared_terms table.new)) u.terms
        ≡ map term_of used.now.terms) }
{
    let names = List::of(used.names.items().to_vec(alloc)?);
    let terms = List::of(enter_each(alloc, table, used.terms.items())?);
    Ok(SharedUse {
        clause: used.clause,
        names,
        terms,
    })
}

/// The first node of a derivation, with its terms entered.
fn share_first(
    alloc: Global,
    table: &mut SharedTerms,
    derivation: &Derivation,
) -> Result<SharedNode, Memory>
    ensures grown { OnOk result (IsGrown (shared_terms table.old) (shared_terms table.new)) }
    ensures below { IfOk result (λ n. AreLinesBelow (length (shared_terms table.new))
        (node_terms (node_by_lines n))) }
    ensures node { IfOk result (λ n. map_node (shared_at (shared_terms table.new)) (node_by_lines n)
        ≡ first_node (derivation_of derivation.now)) }
{
    match derivation {
        Derivation::Atom(used, _) => {
            let shared = share_use(alloc, table, used)?;
            let boxed = Box::new(alloc, shared)?;
            Ok(SharedNode::Atom(boxed))
        }
        Derivation::Eq => Ok(SharedNode::Eq),
        Derivation::Fresh => Ok(SharedNode::Fresh),
        Derivation::True => Ok(SharedNode::True),
        Derivation::Both(_, _) => Ok(SharedNode::And),
        Derivation::Left(_) => Ok(SharedNode::Left),
        Derivation::Right(_) => Ok(SharedNode::Right),
        Derivation::Exists(term, _) => {
            let line = enter(alloc, table, term)?;
            Ok(SharedNode::Exists(line))
        }
        Derivation::New(name, _) => {
            let boxed = Box::new(alloc, **name)?;
            Ok(SharedNode::New(boxed))
        }
    }
}

/// Puts the children of a derivation on a stack, the first of them last.
fn push_children<'a>(
    pending: &mut Vec<&'a Derivation>,
    derivation: &'a Derivation,
) -> Result<(), Memory>
    ensures { OnOk result (seen derivation_of pending.new.items
        ≡ seen derivation_of pending.old.items ++ children_back (derivation_of derivation.now)) }
{
    match derivation {
        Derivation::Eq | Derivation::Fresh | Derivation::True => {}
        Derivation::Both(left, right) => {
            pending.push(right)?;
            pending.push(left)?;
        }
        Derivation::Atom(_, child) => pending.push(child)?,
        Derivation::Left(child) => pending.push(child)?,
        Derivation::Right(child) => pending.push(child)?,
        Derivation::Exists(_, child) => pending.push(child)?,
        Derivation::New(_, child) => pending.push(child)?,
    }
    Ok(())
}

/// The nodes of a derivation in preorder, with their terms entered. Those that are still to come stand on a stack.
fn share_nodes(
    alloc: Global,
    table: &mut SharedTerms,
    derivation: &Derivation,
) -> Result<Vec<SharedNode>, Memory>
    ensures grown { OnOk result (IsGrown (shared_terms table.old) (shared_terms table.new)) }
    ensures nodes { IfOk result (λ ns. map (map_node (shared_at (shared_terms table.new)))
        (map node_by_lines ns.items) ≡ preorder (derivation_of derivation.now)) }
{
    let mut nodes = Vec::new(alloc);
    let mut pending = Vec::new(alloc);
    pending.push(derivation)?;
    while let Some(next) = pending.pop() {
        let node = share_first(alloc, table, next)?;
        nodes.push(node)?;
        push_children(&mut pending, next)?;
    }
    Ok(nodes)
}

/// The derivation, with its terms entered.
fn share_derivation(
    alloc: Global,
    table: &mut SharedTerms,
    derivation: &Derivation,
) -> Result<SharedDerivation, Memory>
    ensures grown { OnOk result (IsGrown (shared_terms table.old) (shared_terms table.new)) }
    ensures derivation { IfOk result (λ d. shared_derivation (shared_terms table.new) d
        ≡ derivation_of derivation.now) }
{
    let nodes = share_nodes(alloc, table, derivation)?;
    let shared = whole_derivation(alloc, nodes)?;
    Ok(shared)
}

/// The same answer with its derivation, over a table of its own.
pub fn shared(alloc: Global, proved: &Proved) -> Result<SharedProved, Memory>
    ensures { IfOk result (λ s. shared_proved s ≡ proved_of proved.now) }
{
    let mut table = SharedTerms::new(alloc);
    let answer = share_answer(alloc, &mut table, &proved.answer)?;
    let derivation = share_derivation(alloc, &mut table, &proved.derivation)?;
    Ok(SharedProved {
        query: proved.query,
        terms: Rc::new(alloc, table)?,
        answer,
        derivation,
    })
}

/// The same answers with their derivations, each over a table of its own.
fn share_each(alloc: Global, all: &[Proved]) -> Result<Vec<SharedProved>, Memory>
    ensures { IfOk result (λ v. map shared_proved v.items ≡ map proved_of all.now) }
{
    let mut each = Vec::new(alloc);
    for proved in all {
        each.push(shared(alloc, proved)?)?;
    }
    Ok(each)
}

/// The same bundle, with each answer over a table of its own.
pub fn share_bundle(alloc: Global, bundle: &Bundle) -> Result<SharedBundle, Memory>
    ensures { IfOk result (λ b. shared_bundle b ≡ bundle_of bundle.now) }
{
    let text = List::of(bundle.text.items().to_vec(alloc)?);
    let proved = List::of(share_each(alloc, bundle.proved.items())?);
    Ok(SharedBundle { text, proved })
}
