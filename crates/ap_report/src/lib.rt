//! The report on a text: the bytes that are written for it, and the status.
//!
//! [`fault_report`] is that of a text's first fault, and [`report_text`] that of a run.
#![tactic(auto)]

mod faults;
pub mod laws;
mod queries;
mod report;
mod run;
mod status;

pub use ap_stream::AtEnd;
pub use faults::fault_report;
pub use report::Report;
pub use run::report_text;
pub use status::Status;
