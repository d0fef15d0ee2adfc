//! Types: equations of types, which types may hold names of a sort, and which are inhabited.
#![tactic(auto)]

pub mod answers;
pub mod entries;
pub mod equations;
pub mod errors;
pub mod growing;
pub mod holding;
pub mod inhabitants;
pub mod inhabited_laws;
mod joining;
mod least;
mod loading;
pub mod nodes;
pub mod parts;
mod rounds;
pub mod solved;
mod walking;
