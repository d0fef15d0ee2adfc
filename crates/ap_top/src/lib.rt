//! The top call: from the words of the command line and the bytes that come in to the bytes that go
//! out and the status.
//!
//! [`top`] reads the source whole, makes all bytes of the report, and then writes them. Its contract
//! says that the status and the bytes are those of the report of the words and of what was read. Each
//! command has a module of its own under `commands`.
#![tactic(auto)]

mod call;
mod commands;
pub mod laws;

pub use ap_report::Status;
pub use call::top;
