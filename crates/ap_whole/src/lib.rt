//! Whole texts: their symbols, their items, or the first faulty one, the typed program of these, or its first type
//! fault; and terms and types that are all of a text. The programs read a text item by item.
#![tactic(auto)]

mod checking;
mod reading;
mod symbols;
mod terms;
mod types;

pub use checking::check;
pub use reading::parse;
pub use symbols::symbols_of;
pub use terms::whole_term;
pub use types::whole_type;
