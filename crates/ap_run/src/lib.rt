//! The run of a text: from the words of the command line and the bytes that come in to the bytes that
//! go out and the status.
//!
//! [`run`] is the call of the program that runs texts and does nothing else. [`report_run`] is the
//! report alone, which the top call of all commands makes too. What every command does with its input
//! and its report stands here: [`read_whole`], [`put`], and [`line`].
#![tactic(auto)]

mod call;
mod lines;
mod putting;
mod reading;
mod running;
mod writing;

pub use ap_report::{AtEnd, Status};
pub use call::run;
pub use lines::line;
pub use putting::put;
pub use reading::{ReadError, read_whole};
pub use running::report_run;
