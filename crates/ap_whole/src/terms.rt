// Terms that are all of a text.
ghost use Rattle.std.specs.Prelude.{◌≡◌, [], IfOk, Some};
ghost use Rattle.ap_trees.specs.Outcomes.{GivesPart};
ghost use Rattle.ap_trees.specs.Symbols.{syms};
ghost use Rattle.ap_trees.specs.Terms as trees;
ghost use Rattle.ap_trees.specs.TermGrammar.{IsTerm};
ghost use Rattle.ap_trees.specs.TermReader as spec;
ghost use Rattle.ap_trees.specs.Trees.{term_of};

use ap_trees::{ReadError, Symbol, Tree, term};
use std::alloc::Global;

/// By the reader.
#[tactic(auto, unfolding(ap_trees::specs::TermReader::all_term))]
fn exact_term<'a>(alloc: Global, symbols: &[Symbol<'a>]) -> Result<Tree<'a>, ReadError>
    ensures { GivesPart term_of result (spec.all_term (syms symbols.now)) }
{
    let (tree, rest) = term(alloc, symbols.len(), symbols)?;
    if rest.is_empty() {
        Ok(tree)
    } else {
        Err(ReadError::Grammar)
    }
}

/// The term that all the symbols spell.
pub fn whole_term<'a>(alloc: Global, symbols: &[Symbol<'a>]) -> Result<Tree<'a>, ReadError>
    // What is read is in the grammar.
    ensures found { IfOk result (λ t. IsTerm (syms symbols.now) (term_of t) []) }
    // What is in the grammar is read.
    ensures only { (t : trees.Term) → IsTerm (syms symbols.now) t [] →
        GivesPart term_of result (Some t) }
    // It has no other reading.
    ensures one { IfOk result (λ t. (u : trees.Term) → IsTerm (syms symbols.now) u [] →
        u ≡ term_of t) }
{
    exact_term(alloc, symbols)
}
