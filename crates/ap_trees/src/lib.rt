//! The trees that a reader makes of tokens, and the readers of types and terms.
//!
//! A tree holds addresses, so clauses speak of its view, which `specs/Trees.antt` defines: `type_of`,
//! `term_of`, `goal_of`, `item_of`. `specs/TypeGrammar.antt` and `specs/TermGrammar.antt` are the
//! grammars; they know nothing of the code.
#![tactic(auto)]

mod building;
mod cursor;
mod outcome;
mod sides;
mod symbols;
mod terms;
mod trees;
mod types;

pub use building::applied;
pub use cursor::{after_bar, after_close, after_close_list, after_comma, after_lambda, after_open};
pub use outcome::ReadError;
pub use symbols::{Symbol, symbol_of};
pub use terms::{term, term_list};
pub use trees::{
    Application, Args, Binder, Form, GoalTree, Item, Sides, TakenGoal, TakenTree, Tree, TypeTree,
};
pub use types::{type_list, type_tree};
