//! Judgements on the terms that a derivation cites: their types, and their freshness and equality under an
//! answer's conditions.
//!
//! It shares no code with the search that makes derivations, beside the plain types and how terms are put
//! together (`ap_defs`): its freshness and its equality under conditions are its own, on terms. A term is as
//! deep as whoever made it wants: what is left of a term or a type that is tested or copied stands on a
//! stack.
#![tactic(auto)]

mod binders;
pub mod cited;
pub mod closures;
pub mod equality;
pub mod freshness;
pub mod identifiers;
mod images;
pub mod index;
mod latest;
pub mod lookups;
mod outside;
pub mod scope;
mod suspensions;
pub mod swappings;
mod types;
pub mod typing;
