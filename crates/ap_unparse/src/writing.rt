//! The texts of terms, goals and types.

ghost use Rattle.std.specs.Prelude.{◌≡◌, ℕ, false, [], ◌∷◌, ◌++◌, List as list, codes, IfOk};
ghost use Rattle.ap_trees.specs.Trees.{term_of, goal_of_tree, type_of_tree};
ghost use Rattle.ap_unparse.specs.Written.{bytes_of, symbols_of};
ghost use Rattle.ap_trees.specs.TermGrammar.{IsTerm};
ghost use Rattle.ap_trees.specs.TypeGrammar.{IsType};
ghost use Rattle.ap_syntax.specs.GoalGrammar.{IsGoal};
ghost use Rattle.ap_unparse.specs.WrittenTerms.{written_term};
ghost use Rattle.ap_unparse.specs.WrittenGoals.{written_goal};
ghost use Rattle.ap_unparse.specs.WrittenTypes.{written_type};
ghost use Rattle.ap_unparse.specs.Worded.{IsWordedTerm, IsWordedGoal, IsWordedType};
ghost use Rattle.ap_unparse.specs.Writable.{ReadsAsSymbols};
ghost use Rattle.ap_trees.specs.Terms.{Unit as unit_term};
ghost use Rattle.ap_trees.specs.Goals.{Equation};
ghost use Rattle.ap_trees.specs.Items.{AQuery, APredicate};
ghost use Rattle.ap_syntax.specs.Nesting.{is_too_deep};
ghost use Rattle.ap_unparse.specs.Worded.{IsIdentifier};
ghost use Rattle.ap_unparse.specs.Again.{ReadsAs, SpellsType, predicate_before};

use crate::context::Context;
use crate::goals::write_goal;
use crate::side::Side;
use crate::terms::write_tree;
use crate::types::write_type;
use ap_defs::memory::Memory;
use ap_trees::{GoalTree, Tree, TypeTree};
use std::alloc::Global;

/// The text of a term.
#[tactic(auto, using(crate::proofs::TermReadings::term_is_read, crate::proofs::WordedLemmas::term_is_lexed, crate::proofs::ReadAgain::term_read_again))]
pub fn term_text(alloc: Global, t: &Tree<'_>) -> Result<Vec<u8>, Memory>
    ensures text { IfOk result (λ bytes. bytes.items ≡ bytes_of (written_term (term_of t.now))) }
    ensures tokens { IfOk result (λ bytes. IsWordedTerm (term_of t.now) →
        ReadsAsSymbols bytes.items (symbols_of (written_term (term_of t.now)))) }
    ensures grammar { IsTerm (symbols_of (written_term (term_of t.now))) (term_of t.now) [] }
    // With nesting at most 256 it is read again, on the left of an equation.
    ensures again { IfOk result (λ bytes. IsWordedTerm (term_of t.now) →
        is_too_deep (symbols_of (written_term (term_of t.now))) ≡ false →
        ReadsAs (codes "?- " ++ (bytes.items ++ codes " = ().")) (AQuery
        (Equation (term_of t.now) unit_term))) }
{
    let mut out = Vec::new(alloc);
    write_tree(alloc, &mut out, t, Context::Whole)?;
    Ok(out)
}

/// The text of a goal.
#[tactic(auto, using(crate::proofs::GoalReadings::goal_is_read, crate::proofs::WordedGoals::goal_is_lexed, crate::proofs::ReadAgain::goal_read_again))]
pub fn goal_text(alloc: Global, g: &GoalTree<'_>) -> Result<Vec<u8>, Memory>
    ensures text { IfOk result (λ bytes. bytes.items
        ≡ bytes_of (written_goal (goal_of_tree g.now))) }
    ensures tokens { IfOk result (λ bytes. IsWordedGoal (goal_of_tree g.now) →
        ReadsAsSymbols bytes.items (symbols_of (written_goal (goal_of_tree g.now)))) }
    ensures grammar { IsWordedGoal (goal_of_tree g.now) →
        IsGoal (symbols_of (written_goal (goal_of_tree g.now))) (goal_of_tree g.now) [] }
    // With nesting at most 256 it is read again, as a query.
    ensures again { IfOk result (λ bytes. IsWordedGoal (goal_of_tree g.now) →
        is_too_deep (symbols_of (written_goal (goal_of_tree g.now))) ≡ false →
        ReadsAs (codes "?- " ++ (bytes.items ++ codes ".")) (AQuery (goal_of_tree g.now))) }
{
    let mut out = Vec::new(alloc);
    write_goal(alloc, &mut out, g, Side::Alone)?;
    Ok(out)
}

/// The text of a type.
#[tactic(auto, using(crate::proofs::TypeReadings::type_is_read, crate::proofs::WordedLemmas::type_is_lexed, crate::proofs::ReadAgain::type_spelled, crate::proofs::ReadAgain::type_read_again))]
pub fn type_text(alloc: Global, t: &TypeTree<'_>) -> Result<Vec<u8>, Memory>
    ensures text { IfOk result (λ bytes. bytes.items
        ≡ bytes_of (written_type (type_of_tree t.now))) }
    ensures tokens { IfOk result (λ bytes. IsWordedType (type_of_tree t.now) →
        ReadsAsSymbols bytes.items (symbols_of (written_type (type_of_tree t.now)))) }
    ensures grammar { IsType (symbols_of (written_type (type_of_tree t.now))) (type_of_tree t.now)
        [] }
    // By itself it is read again, however deep its nesting.
    ensures whole { IfOk result (λ bytes. IsWordedType (type_of_tree t.now) →
        SpellsType bytes.items (type_of_tree t.now)) }
    // With nesting at most 256, that of the parentheses with it, it is read again as what a predicate is of.
    ensures again { IfOk result (λ bytes. (w : list ℕ) → IsIdentifier w →
        IsWordedType (type_of_tree t.now) →
        is_too_deep (symbols_of (predicate_before w (written_type (type_of_tree t.now)))) ≡ false →
        ReadsAs (codes "pred " ++ (w ++ (codes "(" ++ (bytes.items ++ codes ")."))))
        (APredicate w (type_of_tree t.now ∷ []))) }
{
    let mut out = Vec::new(alloc);
    write_type(alloc, &mut out, t, false)?;
    Ok(out)
}
