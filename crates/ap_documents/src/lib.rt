//! Documents of the derivations of a bundle, as plain text, as LaTeX or as HTML.
//!
//! `documents`: those of a bundle whose check found nothing to refuse. `predicates`: the words of its text's predicates.
#![tactic(auto)]

pub mod documents;
mod predicates;
