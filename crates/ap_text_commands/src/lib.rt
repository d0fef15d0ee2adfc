//! The reports of commands that search all queries of a text.
//!
//! `proving`: the bundle of the text and of its answers with their derivations. `counting`: how often each
//! clause is used in these. `working`: the totals of the run of a text that is made from a number, as `texts` makes it.
#![tactic(auto)]

pub mod counting;
mod proving;
mod texts;
mod working;

pub use counting::count_text;
pub use proving::prove_text;
pub use texts::program_of;
pub use working::report_work;
