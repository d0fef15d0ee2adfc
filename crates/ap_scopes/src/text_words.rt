//! The words and variables of a text.
ghost use Rattle.std.specs.Prelude.{◌≡◌, ◌++◌, OnOk};
ghost use Rattle.ap_trees.specs.Trees as trees;
ghost use Rattle.ap_trees.specs.Trees.{term_of, terms_of, trees_of, goal_of_tree, types_of, form_of, name_of_binder};
ghost use Rattle.ap_scopes.specs.Words as spec;
ghost use Rattle.ap_scopes.specs.Words.{with_words};
ghost use Rattle.ap_scopes.specs.Views.{words_in};

use crate::words::Words;
use ap_defs::memory::Memory;
use ap_trees::{Application, Args, Binder, Form, GoalTree, Tree, TypeTree};

fn spelled<'a>(binder: Binder<'a>) -> &'a str
    ensures { result.now ≡ spec.spelled_name (name_of_binder binder.entry) }
{
    match binder {
        Binder::Word(word) => word,
        Binder::Var(word) => word,
    }
}

/// The words of a type.
#[tactic(auto, using(crate::proofs::Tables::with_words_append))]
fn add_type<'a>(words: &mut Words<'a>, tree: &TypeTree<'a>) -> Result<(), Memory>
    ensures { OnOk result (words_in words.new
        ≡ with_words (words_in words.old) (spec.words_of_type (trees.type_of_tree tree.now))) }
{
    let mut rest = tree;
    loop {
        match rest {
            TypeTree::Unit => return Ok(()),
            TypeTree::Word(word) => return words.add(word),
            TypeTree::Pair(left, right) => {
                add_type(words, left)?;
                rest = right;
            }
            TypeTree::List(element) => rest = element,
            TypeTree::Abs(word, body) => {
                words.add(word)?;
                rest = body;
            }
        }
    }
}

/// The words of types.
#[tactic(auto, using(crate::proofs::Tables::with_words_append, std::proofs::lemmas::Grind::common_steps))]
fn add_types<'a>(words: &mut Words<'a>, trees: &[TypeTree<'a>]) -> Result<(), Memory>
    ensures { OnOk result (words_in words.new
        ≡ with_words (words_in words.old) (spec.types_words (types_of trees.now))) }
{
    for tree in trees {
        add_type(words, tree)?;
    }
    Ok(())
}

/// The words of a term.
///
/// It goes on along what is last in a term, and comes to itself on left parts and arguments alone.
#[cycle(term_words)]
#[tactic(auto, using(crate::proofs::Tables::with_words_append))]
fn add_term<'a>(words: &mut Words<'a>, tree: &Tree<'a>) -> Result<(), Memory>
    ensures { OnOk result (words_in words.new
        ≡ with_words (words_in words.old) (spec.term_words (term_of tree.now))) }
{
    let mut rest = tree;
    loop {
        match rest {
            Tree::Unit | Tree::Nil => return Ok(()),
            Tree::Var(word) => return words.add(word),
            Tree::Word(word) => return words.add(word),
            Tree::Apply(applied) => {
                let Application::To(word, args) = &**applied;
                words.add(word)?;
                return add_arguments(words, args);
            }
            Tree::Pair(left, right) => {
                add_term(words, left)?;
                rest = right;
            }
            Tree::Cell(head, tail) => {
                add_term(words, head)?;
                rest = tail;
            }
            Tree::Abs(binder, body) => {
                words.add(spelled(**binder))?;
                rest = body;
            }
            Tree::Swapped(sides, body) => {
                words.add(spelled(sides.left))?;
                words.add(spelled(sides.right))?;
                rest = body;
            }
        }
    }
}

/// The words of arguments.
#[cycle(term_words)]
#[tactic(auto, using(crate::proofs::Tables::with_words_append))]
fn add_arguments<'a>(words: &mut Words<'a>, args: &Args<'a>) -> Result<(), Memory>
    ensures { OnOk result (words_in words.new
        ≡ with_words (words_in words.old) (spec.arguments_words (terms_of args.now))) }
{
    let mut rest = args;
    loop {
        match rest {
            Args::Last(last) => return add_term(words, last),
            Args::More(first, more) => {
                add_term(words, first)?;
                rest = more;
            }
        }
    }
}

/// The words of terms.
#[tactic(auto, using(crate::proofs::Tables::with_words_append, std::proofs::lemmas::Grind::common_steps))]
fn add_terms<'a>(words: &mut Words<'a>, trees: &[Tree<'a>]) -> Result<(), Memory>
    ensures { OnOk result (words_in words.new
        ≡ with_words (words_in words.old) (spec.terms_words (trees_of trees.now))) }
{
    for tree in trees {
        add_term(words, tree)?;
    }
    Ok(())
}

/// The words of two terms.
#[tactic(auto, using(crate::proofs::Tables::with_words_append))]
fn add_two<'a>(words: &mut Words<'a>, left: &Tree<'a>, right: &Tree<'a>) -> Result<(), Memory>
    ensures { OnOk result (words_in words.new
        ≡ with_words (words_in words.old) (spec.term_words (term_of left.now)
        ++ spec.term_words (term_of right.now))) }
{
    add_term(words, left)?;
    add_term(words, right)
}

/// The words of a goal.
///
/// It goes on along what is right of `,` and `;` and inside `exists` and `new`, and calls itself on what
/// is left of them alone.
#[tactic(auto, using(crate::proofs::Tables::with_words_append))]
fn add_goal<'a>(words: &mut Words<'a>, goal: &GoalTree<'a>) -> Result<(), Memory>
    ensures { OnOk result (words_in words.new
        ≡ with_words (words_in words.old) (spec.goal_words (goal_of_tree goal.now))) }
{
    let mut rest = goal;
    loop {
        match rest {
            GoalTree::Atom(word, args) => {
                words.add(word)?;
                return add_terms(words, args.items());
            }
            GoalTree::Equal(left, right) => return add_two(words, left, right),
            GoalTree::Fresh(left, right) => return add_two(words, left, right),
            GoalTree::Both(left, right) => {
                add_goal(words, left)?;
                rest = right;
            }
            GoalTree::Either(left, right) => {
                add_goal(words, left)?;
                rest = right;
            }
            GoalTree::Exists(word, inner) => {
                words.add(word)?;
                rest = inner;
            }
            GoalTree::New(word, inner) => {
                words.add(word)?;
                rest = inner;
            }
        }
    }
}

/// The words and variables of what an item says, in their order there, each put behind the words that there
/// are unless it is one of them. `Err` is want of memory.
#[tactic(auto, using(crate::proofs::Tables::with_words_append))]
pub fn add_form<'a>(words: &mut Words<'a>, form: &Form<'a>) -> Result<(), Memory>
    ensures { OnOk result (words_in words.new
        ≡ with_words (words_in words.old) (spec.saying_words (form_of form.now))) }
{
    match form {
        Form::NameType(word) => words.add(word),
        Form::DataType(word) => words.add(word),
        Form::Constructor(word, args, result) => {
            words.add(word)?;
            add_types(words, args.items())?;
            words.add(result)
        }
        Form::Predicate(word, args) => {
            words.add(word)?;
            add_types(words, args.items())
        }
        Form::Clause(word, args, body) => {
            words.add(word)?;
            add_terms(words, args.items())?;
            match body {
                None => Ok(()),
                Some(goal) => add_goal(words, goal),
            }
        }
        Form::Query(goal) => add_goal(words, goal),
    }
}
