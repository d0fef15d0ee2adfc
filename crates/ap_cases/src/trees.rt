//! Trees of terms, types, goals and items, spelled out as their constructors.

use crate::spelling::Spelling;
use ap_defs::lists::List;
use ap_trees::{Application, Args, Binder, Form, GoalTree, Sides, Tree, TypeTree};

fn put_binder(out: &mut Spelling, binder: &Binder<'_>) {
    match binder {
        Binder::Word(word) => put_worded(out, "Word", word),
        Binder::Var(word) => put_worded(out, "Var", word),
    }
}

/// The beginning of a constructor whose first part is a word.
fn begin(out: &mut Spelling, constructor: &str, word: &str) {
    out.put(constructor);
    out.put("(");
    out.put_quoted(word);
}

/// A constructor of one word.
fn put_worded(out: &mut Spelling, constructor: &str, word: &str) {
    begin(out, constructor, word);
    out.put(")");
}

fn put_sides(out: &mut Spelling, sides: &Sides<'_>) {
    out.put("Sides { left: ");
    put_binder(out, &sides.left);
    out.put(", right: ");
    put_binder(out, &sides.right);
    out.put(" }");
}

#[cycle(trees)]
fn put_args(out: &mut Spelling, args: &Args<'_>) {
    match args {
        Args::Last(last) => {
            out.put("Last(");
            put_tree(out, last);
        }
        Args::More(first, others) => {
            out.put("More(");
            put_tree(out, first);
            out.put(", ");
            put_args(out, others);
        }
    }
    out.put(")");
}

#[cycle(trees)]
fn put_within(out: &mut Spelling, binder: &Binder<'_>, body: &Tree<'_>) {
    out.put("Abs(");
    put_binder(out, binder);
    out.put(", ");
    put_tree(out, body);
    out.put(")");
}

#[cycle(trees)]
fn put_swapped(out: &mut Spelling, sides: &Sides<'_>, body: &Tree<'_>) {
    out.put("Swapped(");
    put_sides(out, sides);
    out.put(", ");
    put_tree(out, body);
    out.put(")");
}

#[cycle(trees)]
fn put_applied(out: &mut Spelling, word: &str, args: &Args<'_>) {
    begin(out, "Apply", word);
    out.put(", ");
    put_args(out, args);
    out.put(")");
}

/// A term.
#[cycle(trees)]
pub fn put_tree(out: &mut Spelling, tree: &Tree<'_>) {
    match tree {
        Tree::Unit => out.put("Unit"),
        Tree::Nil => out.put("Nil"),
        Tree::Var(word) => put_worded(out, "Var", word),
        Tree::Word(word) => put_worded(out, "Word", word),
        Tree::Apply(applied) => {
            let Application::To(word, args) = &**applied;
            put_applied(out, word, args)
        }
        Tree::Pair(left, right) => {
            out.put("Pair(");
            put_tree(out, left);
            out.put(", ");
            put_tree(out, right);
            out.put(")");
        }
        Tree::Cell(left, right) => {
            out.put("Cell(");
            put_tree(out, left);
            out.put(", ");
            put_tree(out, right);
            out.put(")");
        }
        Tree::Abs(binder, body) => put_within(out, binder, body),
        Tree::Swapped(sides, body) => put_swapped(out, sides, body),
    }
}

/// Two terms as the parts of a goal.
fn put_two(out: &mut Spelling, constructor: &str, left: &Tree<'_>, right: &Tree<'_>) {
    out.put(constructor);
    out.put("(");
    put_tree(out, left);
    out.put(", ");
    put_tree(out, right);
    out.put(")");
}

/// A type.
pub fn put_type(out: &mut Spelling, tree: &TypeTree<'_>) {
    match tree {
        TypeTree::Unit => out.put("Unit"),
        TypeTree::Word(word) => put_worded(out, "Word", word),
        TypeTree::Pair(left, right) => {
            out.put("Pair(");
            put_type(out, left);
            out.put(", ");
            put_type(out, right);
            out.put(")");
        }
        TypeTree::List(element) => {
            out.put("List(");
            put_type(out, element);
            out.put(")");
        }
        TypeTree::Abs(word, body) => {
            begin(out, "Abs", word);
            out.put(", ");
            put_type(out, body);
            out.put(")");
        }
    }
}

fn put_types(out: &mut Spelling, types: &List<TypeTree<'_>>) {
    out.put("List { items: [");
    for (i, tree) in types.items().iter().enumerate() {
        if i > 0 {
            out.put(", ");
        }
        put_type(out, tree);
    }
    out.put("] }");
}

fn put_trees(out: &mut Spelling, trees: &List<Tree<'_>>) {
    out.put("List { items: [");
    for (i, tree) in trees.items().iter().enumerate() {
        if i > 0 {
            out.put(", ");
        }
        put_tree(out, tree);
    }
    out.put("] }");
}

#[cycle(goals)]
fn put_bound(out: &mut Spelling, constructor: &str, word: &str, body: &GoalTree<'_>) {
    begin(out, constructor, word);
    out.put(", ");
    put_goal(out, body);
    out.put(")");
}

fn put_atom(out: &mut Spelling, word: &str, args: &List<Tree<'_>>) {
    begin(out, "Atom", word);
    out.put(", ");
    put_trees(out, args);
    out.put(")");
}

#[cycle(goals)]
fn put_goal(out: &mut Spelling, goal: &GoalTree<'_>) {
    match goal {
        GoalTree::Atom(word, args) => put_atom(out, word, args),
        GoalTree::Equal(left, right) => put_two(out, "Equal", left, right),
        GoalTree::Fresh(left, right) => put_two(out, "Fresh", left, right),
        GoalTree::Both(left, right) => {
            out.put("Both(");
            put_goal(out, left);
            out.put(", ");
            put_goal(out, right);
            out.put(")");
        }
        GoalTree::Either(left, right) => {
            out.put("Either(");
            put_goal(out, left);
            out.put(", ");
            put_goal(out, right);
            out.put(")");
        }
        GoalTree::Exists(word, body) => put_bound(out, "Exists", word, body),
        GoalTree::New(word, body) => put_bound(out, "New", word, body),
    }
}

fn put_body(out: &mut Spelling, body: &Option<GoalTree<'_>>) {
    match body {
        None => out.put("None"),
        Some(goal) => {
            out.put("Some(");
            put_goal(out, goal);
            out.put(")");
        }
    }
}

fn put_clause(out: &mut Spelling, word: &str, args: &List<Tree<'_>>, body: &Option<GoalTree<'_>>) {
    begin(out, "Clause", word);
    out.put(", ");
    put_trees(out, args);
    out.put(", ");
    put_body(out, body);
    out.put(")");
}

fn put_constructor(out: &mut Spelling, word: &str, types: &List<TypeTree<'_>>, data: &str) {
    begin(out, "Constructor", word);
    out.put(", ");
    put_types(out, types);
    out.put(", ");
    out.put_quoted(data);
    out.put(")");
}

fn put_predicate(out: &mut Spelling, word: &str, types: &List<TypeTree<'_>>) {
    begin(out, "Predicate", word);
    out.put(", ");
    put_types(out, types);
    out.put(")");
}

/// What an item says.
pub fn put_form(out: &mut Spelling, form: &Form<'_>) {
    match form {
        Form::NameType(word) => put_worded(out, "NameType", word),
        Form::DataType(word) => put_worded(out, "DataType", word),
        Form::Constructor(word, types, data) => put_constructor(out, word, types, data),
        Form::Predicate(word, types) => put_predicate(out, word, types),
        Form::Clause(word, args, body) => put_clause(out, word, args, body),
        Form::Query(goal) => {
            out.put("Query(");
            put_goal(out, goal);
            out.put(")");
        }
    }
}
