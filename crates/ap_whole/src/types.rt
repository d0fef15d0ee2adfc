// Types that are all of a text.
ghost use Rattle.std.specs.Prelude.{◌≡◌, [], IfOk, Some};
ghost use Rattle.ap_trees.specs.Outcomes.{GivesPart};
ghost use Rattle.ap_trees.specs.Symbols.{syms};
ghost use Rattle.ap_trees.specs.Trees.{type_of_tree};
ghost use Rattle.ap_trees.specs.Types as trees;
ghost use Rattle.ap_trees.specs.TypeGrammar.{IsType};
ghost use Rattle.ap_trees.specs.TypeReader.{all_type};

use ap_trees::{ReadError, Symbol, TypeTree, type_tree};
use std::alloc::Global;

/// By the reader.
#[tactic(auto, unfolding(ap_trees::specs::TypeReader::all_type))]
fn exact_type<'a>(alloc: Global, symbols: &[Symbol<'a>]) -> Result<TypeTree<'a>, ReadError>
    ensures { GivesPart type_of_tree result (all_type (syms symbols.now)) }
{
    let (tree, rest) = type_tree(alloc, symbols.len(), symbols)?;
    if rest.is_empty() {
        Ok(tree)
    } else {
        Err(ReadError::Grammar)
    }
}

/// The type that all the symbols spell.
pub fn whole_type<'a>(alloc: Global, symbols: &[Symbol<'a>]) -> Result<TypeTree<'a>, ReadError>
    // What is read is in the grammar.
    ensures found { IfOk result (λ t. IsType (syms symbols.now) (type_of_tree t) []) }
    // What is in the grammar is read.
    ensures only { (t : trees.Ty) → IsType (syms symbols.now) t [] →
        GivesPart type_of_tree result (Some t) }
    // It has no other reading.
    ensures one { IfOk result (λ t. (u : trees.Ty) → IsType (syms symbols.now) u [] →
        u ≡ type_of_tree t) }
{
    exact_type(alloc, symbols)
}
