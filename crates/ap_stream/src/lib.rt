//! The report on a query, written while the query is searched by one worker.
//!
//! [`Search`] gives the outputs of a query one at a time, and [`ReportBuilder`] takes them so: no list of
//! outputs is kept, and a run of cut or stuck branches is a number, however long it is. It takes whole runs
//! too, as several workers give them.
#![tactic(auto)]

mod at_end;
mod builder;
mod report;
mod search;
mod shown;

pub use at_end::AtEnd;
pub use builder::ReportBuilder;
pub use report::{report_of_runs, stream_report};
pub use search::Search;
