// Trees of items, goals, types and terms, whose words borrow the text.
//
// A tree is as deep to the right as its text is long, so each is dropped in a loop.

ghost use Rattle.std.specs.Prelude.{◌≡◌};
ghost use Rattle.ap_trees.specs.Apart.{goal_together, tree_together};
ghost use Rattle.ap_trees.specs.Trees.{goal_of_tree, term_of};

use ap_defs::lists::List;

/// What stands left of `\` or as one of the two sides of a swapping.
#[derive(Clone, Copy)]
pub enum Binder<'a> {
    Word(&'a str),
    Var(&'a str),
}

/// The two sides of a swapping.
#[derive(Clone, Copy)]
pub struct Sides<'a> {
    pub left: Binder<'a>,
    pub right: Binder<'a>,
}

/// The arguments of an application, of which there is one at least.
#[cycle(tree)]
pub enum Args<'a> {
    Last(Tree<'a>),
    More(Tree<'a>, Box<Args<'a>>),
}

/// A word that is applied to arguments.
#[cycle(tree)]
#[derive(Drop)]
pub enum Application<'a> {
    To(&'a str, Args<'a>),
}

/// A term as it is written. A word alone is a name or a constructor. A text has many, so one is small: what takes
/// more than two words of memory stands in a box.
#[cycle(tree)]
pub enum Tree<'a> {
    Unit,
    Var(&'a str),
    Word(&'a str),
    Apply(Box<Application<'a>>),
    Pair(Box<Tree<'a>>, Box<Tree<'a>>),
    Nil,
    Cell(Box<Tree<'a>>, Box<Tree<'a>>),
    Abs(Box<Binder<'a>>, Box<Tree<'a>>),
    Swapped(Box<Sides<'a>>, Box<Tree<'a>>),
}

impl Drop for Args<'_> {
    #[cycle(drops)]
    fn drop(mut self) {
        loop {
            match self {
                Args::Last(_last) => return,
                Args::More(_first, rest) => self = Box::into_inner(rest),
            }
        }
    }
}

impl Drop for Tree<'_> {
    #[cycle(drops)]
    fn drop(mut self) {
        loop {
            match self {
                Tree::Unit | Tree::Var(_) | Tree::Word(_) | Tree::Nil => return,
                Tree::Apply(applied) => {
                    let Application::To(_word, _args) = Box::into_inner(applied);
                    return;
                }
                Tree::Pair(_left, right) => self = Box::into_inner(right),
                Tree::Cell(_head, tail) => self = Box::into_inner(tail),
                Tree::Abs(_name, body) => self = Box::into_inner(body),
                Tree::Swapped(_sides, body) => self = Box::into_inner(body),
            }
        }
    }
}

/// A type as it is written. A word is a name type or a data type.
pub enum TypeTree<'a> {
    Unit,
    Word(&'a str),
    Pair(Box<TypeTree<'a>>, Box<TypeTree<'a>>),
    List(Box<TypeTree<'a>>),
    Abs(&'a str, Box<TypeTree<'a>>),
}

impl Drop for TypeTree<'_> {
    fn drop(mut self) {
        loop {
            match self {
                TypeTree::Unit | TypeTree::Word(_) => return,
                TypeTree::Pair(_left, right) => self = Box::into_inner(right),
                TypeTree::List(element) => self = Box::into_inner(element),
                TypeTree::Abs(_word, body) => self = Box::into_inner(body),
            }
        }
    }
}

/// A goal as it is written.
pub enum GoalTree<'a> {
    Atom(&'a str, List<Tree<'a>>),
    Equal(Tree<'a>, Tree<'a>),
    Fresh(Tree<'a>, Tree<'a>),
    Both(Box<GoalTree<'a>>, Box<GoalTree<'a>>),
    Either(Box<GoalTree<'a>>, Box<GoalTree<'a>>),
    Exists(&'a str, Box<GoalTree<'a>>),
    New(&'a str, Box<GoalTree<'a>>),
}

impl Drop for GoalTree<'_> {
    fn drop(mut self) {
        loop {
            match self {
                GoalTree::Atom(_word, _args) => return,
                GoalTree::Equal(_left, _right) => return,
                GoalTree::Fresh(_left, _right) => return,
                GoalTree::Both(_left, right) => self = Box::into_inner(right),
                GoalTree::Either(_left, right) => self = Box::into_inner(right),
                GoalTree::Exists(_word, inner) => self = Box::into_inner(inner),
                GoalTree::New(_word, inner) => self = Box::into_inner(inner),
            }
        }
    }
}

/// What an item says.
#[derive(Drop)]
pub enum Form<'a> {
    /// A name type is declared.
    NameType(&'a str),
    /// A data type is declared.
    DataType(&'a str),
    /// A constructor is declared: its word, its arguments' types and its data type.
    Constructor(&'a str, List<TypeTree<'a>>, &'a str),
    /// A predicate is declared: its word and its arguments' types.
    Predicate(&'a str, List<TypeTree<'a>>),
    /// A clause: its predicate, the head's arguments and the body.
    Clause(&'a str, List<Tree<'a>>, Option<GoalTree<'a>>),
    /// A query.
    Query(GoalTree<'a>),
}

/// An item, and the line of its first token.
#[derive(Drop)]
pub struct Item<'a> {
    pub line: u64,
    pub form: Form<'a>,
}

/// A tree, taken apart: a list cell, a pair, or one that stays whole.
#[derive(Drop)]
pub enum TakenTree<'a> {
    Cell(Tree<'a>, Tree<'a>),
    Pair(Tree<'a>, Tree<'a>),
    Whole(Tree<'a>),
}

/// The tree of a goal, taken apart: two goals, an equation, or one that stays whole.
#[derive(Drop)]
pub enum TakenGoal<'a> {
    Both(GoalTree<'a>, GoalTree<'a>),
    Either(GoalTree<'a>, GoalTree<'a>),
    Equal(Tree<'a>, Tree<'a>),
    Whole(GoalTree<'a>),
}

impl<'a> Tree<'a> {
    /// The tree, taken apart.
    pub fn apart(self) -> TakenTree<'a>
        ensures { tree_together result ≡ term_of self.entry }
    {
        match self {
            Tree::Cell(head, tail) => TakenTree::Cell(Box::into_inner(head), Box::into_inner(tail)),
            Tree::Pair(left, right) => {
                TakenTree::Pair(Box::into_inner(left), Box::into_inner(right))
            }
            whole => TakenTree::Whole(whole),
        }
    }
}

impl<'a> GoalTree<'a> {
    /// The tree of a goal, taken apart.
    pub fn apart(self) -> TakenGoal<'a>
        ensures { goal_together result ≡ goal_of_tree self.entry }
    {
        match self {
            GoalTree::Both(left, right) => {
                TakenGoal::Both(Box::into_inner(left), Box::into_inner(right))
            }
            GoalTree::Either(left, right) => {
                TakenGoal::Either(Box::into_inner(left), Box::into_inner(right))
            }
            GoalTree::Equal(left, right) => TakenGoal::Equal(left, right),
            whole => TakenGoal::Whole(whole),
        }
    }
}
