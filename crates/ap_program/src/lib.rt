//! Programs: what it is for one to be typed by the kinds of its identifiers, and to keep the name
//! restriction.
#![tactic(auto)]

pub mod restricted;
