//! The faults that goals show before they are typed.
ghost use Rattle.std.specs.Prelude.{◌≡◌};
ghost use Rattle.std.specs.Option.{option_map};
ghost use Rattle.ap_trees.specs.Trees.{goal_of_tree, trees_of};
ghost use Rattle.ap_scopes.specs.Flaws as spec;
ghost use Rattle.ap_scopes.specs.Views.{declared_of, IsIndexed};

use crate::declarations::Declarations;
use crate::flaws::{binder_flaw, count_flaw, least, term_flaw, terms_flaw};
use ap_defs::faults::TypeKind;
use ap_trees::{Binder, GoalTree, Tree};

/// The least kind of an atom's faults.
pub fn atom_flaw(declared: &Declarations<'_>, word: &str, args: &[Tree<'_>]) -> Option<TypeKind>
    requires { IsIndexed declared.now }
    ensures { result ≡ spec.atom_flaw (declared_of declared.now) word.now (trees_of args.now) }
{
    let flaw = count_flaw(args.len(), declared.predicate_arity(word));
    least(flaw, terms_flaw(declared, args))
}

/// The least kind of a goal's faults.
///
/// It goes on along what is right of `,` and `;` and inside `exists` and `new`, and calls itself on what
/// is left of them alone.
#[tactic(auto, using(crate::proofs::LeastLemmas::least_assoc, crate::proofs::LeastLemmas::least_none))]
pub fn goal_flaw(declared: &Declarations<'_>, goal: &GoalTree<'_>) -> Option<TypeKind>
    requires { IsIndexed declared.now }
    ensures { result ≡ spec.goal_flaw (declared_of declared.now) (goal_of_tree goal.now) }
{
    let mut flaw = None;
    let mut rest = goal;
    loop {
        match rest {
            GoalTree::Atom(word, args) => {
                return least(flaw, atom_flaw(declared, word, args.items()));
            }
            GoalTree::Equal(left, right) => {
                let both = least(term_flaw(declared, left), term_flaw(declared, right));
                return least(flaw, both);
            }
            GoalTree::Fresh(left, right) => {
                let both = least(term_flaw(declared, left), term_flaw(declared, right));
                return least(flaw, both);
            }
            GoalTree::Both(left, right) => {
                flaw = least(flaw, goal_flaw(declared, left));
                rest = right;
            }
            GoalTree::Either(left, right) => {
                flaw = least(flaw, goal_flaw(declared, left));
                rest = right;
            }
            GoalTree::Exists(_, inner) => rest = inner,
            GoalTree::New(word, inner) => {
                flaw = least(flaw, binder_flaw(declared, Binder::Word(word)));
                rest = inner;
            }
        }
    }
}

/// The least kind of the faults of a clause.
pub fn clause_flaw(
    declared: &Declarations<'_>,
    word: &str,
    args: &[Tree<'_>],
    body: &Option<GoalTree<'_>>,
) -> Option<TypeKind>
    requires { IsIndexed declared.now }
    ensures { result
        ≡ spec.clause_flaw (declared_of declared.now) word.now (trees_of args.now)
        (option_map goal_of_tree body.now) }
{
    match body {
        None => atom_flaw(declared, word, args),
        Some(body) => least(atom_flaw(declared, word, args), goal_flaw(declared, body)),
    }
}
