//! The faults that terms show before they are typed.
ghost use Rattle.std.specs.Prelude.{◌≡◌, ◌==◌};
ghost use Rattle.ap_trees.specs.Trees.{term_of, terms_of, trees_of, name_of_binder};
ghost use Rattle.ap_scopes.specs.Flaws as spec;
ghost use Rattle.ap_scopes.specs.Views.{declared_of, IsIndexed};

use crate::declarations::Declarations;
use ap_defs::faults::TypeKind;
use ap_trees::{Application, Args, Binder, Tree};

/// The kind of the lesser number.
fn lesser(first: TypeKind, second: TypeKind) -> TypeKind
    ensures { result ≡ spec.lesser first second }
{
    if first.number() <= second.number() {
        first
    } else {
        second
    }
}

/// The least of two kinds.
pub fn least(first: Option<TypeKind>, second: Option<TypeKind>) -> Option<TypeKind>
    ensures { result ≡ spec.least_kind first second }
{
    match (first, second) {
        (Some(first), Some(second)) => Some(lesser(first, second)),
        (None, second) => second,
        (first, None) => first,
    }
}

/// The fault of a number of arguments.
fn arity_flaw(declared: usize, given: usize) -> Option<TypeKind>
    ensures { result ≡ spec.arity_flaw declared given }
{
    if declared == given {
        None
    } else {
        Some(TypeKind::Arity)
    }
}

/// The fault of an applied constructor, or of a predicate, where it is given how many arguments it has.
pub fn count_flaw(given: usize, declared: Option<usize>) -> Option<TypeKind>
    ensures { result ≡ spec.count_flaw given declared }
{
    match declared {
        None => Some(TypeKind::Undeclared),
        Some(declared) => arity_flaw(declared, given),
    }
}

/// The fault of a word alone, where it is given how many arguments it has as a constructor.
fn word_flaw(declared: Option<usize>) -> Option<TypeKind>
    ensures { result ≡ spec.word_flaw declared }
{
    match declared {
        None => None,
        Some(declared) => arity_flaw(declared, 0),
    }
}

/// The fault of a binder, of one of the first two places of a swapping, or of the word after `new`.
pub fn binder_flaw(declared: &Declarations<'_>, binder: Binder<'_>) -> Option<TypeKind>
    requires { IsIndexed declared.now }
    ensures { result ≡ spec.binder_flaw (declared_of declared.now) (name_of_binder binder.entry) }
{
    match binder {
        Binder::Var(_) => None,
        Binder::Word(word) => match declared.constructor_place(word) {
            Some(_) => Some(TypeKind::Clash),
            None => None,
        },
    }
}

/// The least kind of a term's faults.
///
/// It goes on along what is last in a term, and comes to itself on left parts and arguments alone.
#[cycle(term_flaws)]
#[tactic(auto, using(crate::proofs::LeastLemmas::least_assoc, crate::proofs::LeastLemmas::least_none))]
pub fn term_flaw(declared: &Declarations<'_>, tree: &Tree<'_>) -> Option<TypeKind>
    requires { IsIndexed declared.now }
    ensures { result ≡ spec.term_flaw (declared_of declared.now) (term_of tree.now) }
{
    let mut flaw = None;
    let mut rest = tree;
    loop {
        match rest {
            Tree::Unit | Tree::Nil | Tree::Var(_) => return flaw,
            Tree::Word(word) => return least(flaw, word_flaw(declared.constructor_arity(word))),
            Tree::Apply(applied) => {
                let Application::To(word, args) = &**applied;
                let head = application_flaw(declared.constructor_arity(word), args);
                return least(flaw, least(head, arguments_flaw(declared, args)));
            }
            Tree::Pair(left, right) => {
                flaw = least(flaw, term_flaw(declared, left));
                rest = right;
            }
            Tree::Cell(head, tail) => {
                flaw = least(flaw, term_flaw(declared, head));
                rest = tail;
            }
            Tree::Abs(binder, body) => {
                flaw = least(flaw, binder_flaw(declared, **binder));
                rest = body;
            }
            Tree::Swapped(sides, body) => {
                let left = binder_flaw(declared, sides.left);
                let right = binder_flaw(declared, sides.right);
                flaw = least(flaw, least(left, right));
                rest = body;
            }
        }
    }
}

/// The least kind of the faults of arguments.
#[cycle(term_flaws)]
#[tactic(auto, using(crate::proofs::LeastLemmas::least_assoc))]
fn arguments_flaw(declared: &Declarations<'_>, args: &Args<'_>) -> Option<TypeKind>
    requires { IsIndexed declared.now }
    ensures { result ≡ spec.arguments_flaw (declared_of declared.now) (terms_of args.now) }
{
    let mut flaw = None;
    let mut rest = args;
    loop {
        match rest {
            Args::Last(last) => return least(flaw, term_flaw(declared, last)),
            Args::More(first, more) => {
                flaw = least(flaw, term_flaw(declared, first));
                rest = more;
            }
        }
    }
}

/// Whether there are as many arguments as declared.
fn are_as_many(declared: usize, args: &Args<'_>) -> bool
    ensures { result ≡ (declared == spec.term_count (terms_of args.now)) }
{
    let mut left = declared;
    let mut rest = args;
    loop {
        match rest {
            Args::Last(_) => return left == 1,
            Args::More(_, more) => {
                if left == 0 {
                    return false;
                }
                left -= 1;
                rest = more;
            }
        }
    }
}

/// The fault of an applied constructor, where it is given how many arguments it has.
fn application_flaw(declared: Option<usize>, args: &Args<'_>) -> Option<TypeKind>
    ensures { result ≡ spec.count_flaw (spec.term_count (terms_of args.now)) declared }
{
    match declared {
        None => Some(TypeKind::Undeclared),
        Some(declared) => {
            if are_as_many(declared, args) {
                None
            } else {
                Some(TypeKind::Arity)
            }
        }
    }
}

/// The least kind of the faults of terms.
pub fn terms_flaw(declared: &Declarations<'_>, trees: &[Tree<'_>]) -> Option<TypeKind>
    requires { IsIndexed declared.now }
    ensures { result ≡ spec.terms_flaw (declared_of declared.now) (trees_of trees.now) }
{
    let mut flaw = None;
    for tree in trees {
        flaw = least(flaw, term_flaw(declared, tree));
    }
    flaw
}
