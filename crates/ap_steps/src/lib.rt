//! The steps of a derivation that a person looks at, and pages of them: plain text, LaTeX and HTML.
//!
//! A step is an atom that was solved by a clause: the atom with what stands for its identifiers put in, the
//! clause and its line, and the equations and freshness conditions of its body at its side. Under it stand
//! the steps of the atoms in its body. Above all of them stands the query, with its answer.
//!
//! The nodes of a body wait on a stack, and so do the atoms whose steps are yet to come: no walk calls itself.
//!
//! A page has the steps in preorder, each with how many it stands under. `steps` has them,
//! `escapes` what bytes become where a format has marks of its own, `plain`, `latex` and `html` the steps in
//! each format, and `pages` whole documents. A deep derivation is shown to some height as a tree, and beyond
//! that as a list that tells how deep each step stands, so nothing grows by the height of a derivation.
#![tactic(auto)]

mod bodies;
mod escapes;
mod givens;
mod html;
mod judgements;
mod latex;
mod names;
pub mod pages;
pub mod phrases;
mod plain;
pub mod proved;
mod repeats;
mod spellings;
pub mod steps;
mod walk;
pub mod writers;
