//! Work that is made from a number: a generated text is run, and of its report only the totals are
//! given.
//!
//! [`report_work`] is the report of the command. The text goes the way of any text, and no query's
//! report is kept longer than it takes to count its bytes.

mod program;
mod query;
mod work;

pub use work::report_work;
