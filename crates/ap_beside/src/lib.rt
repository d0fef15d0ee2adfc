//! What the programs do beside a report: the words that they are given, the input that they remember,
//! the totals that they count, what they say on standard error, the memory that they keep, and the stack
//! that they have.
#![tactic(auto)]

mod counting;
mod memory;
mod remembering;
mod saying;
mod stack;
mod words;

pub use counting::Counting;
pub use memory::keep_memory;
pub use remembering::Remembering;
pub use saying::say;
pub use stack::is_stack_large;
pub use words::given_words;
