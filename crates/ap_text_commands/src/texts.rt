//! Texts that are made from a number, to have large valid inputs.
//!
//! Each is the calculus of substitution on lambda terms with queries that ask in which terms the
//! substitution of `var(b)` for `a` gives a term, which is drawn. `specs/Generated.antt` says which.

mod draws;
mod programs;
mod terms;

pub use programs::program_of;
