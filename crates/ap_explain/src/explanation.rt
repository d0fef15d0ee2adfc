//! What is said of a fault.

use ap_defs::faults::Fault;
use ap_located::messages::Message;

/// A text's first fault, and what is said of it, if its place was found.
#[derive(Drop)]
pub struct Explanation {
    pub fault: Fault,
    pub message: Option<Message>,
}
