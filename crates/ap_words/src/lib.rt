//! The words of the command line: which are accepted, and what they ask for.
//!
//! [`read`] reads them by a table of commands and options. A further command is a variant of
//! [`Asked`] and of [`CommandName`], its row in the table, and what its settings ask for.
#![tactic(auto)]

mod program;
mod reading;
mod settings;
mod sizes;
mod table;

use ap_bundle::version::Version;
use ap_defs::limits::{Depth, Workers};
use ap_paths::Limit;
pub use reading::read;
pub use sizes::{MOST_QUERIES, Size};
pub use table::{CommandName, OptionName};

/// What the words ask for.
#[derive(Clone, Copy)]
pub enum Asked {
    /// Answer the queries of a text.
    Run {
        /// the depth to which the queries are searched
        depth: Depth,
        /// how many workers search each of them
        workers: Workers,
        /// how many answers of each of them are wanted
        limit: Limit,
    },
    /// Write the bundle of a text and of its answers with their derivations.
    Prove {
        /// the depth to which the queries are searched
        depth: Depth,
        /// how many workers search each of them
        workers: Workers,
        /// how many answers of each of them are wanted
        limit: Limit,
    },
    /// Check the derivations of a bundle.
    Check,
    /// Write a bundle in a version.
    Convert {
        /// the version
        to: Version,
    },
    /// Count how often each clause of a text is used in the derivations of its answers.
    Count {
        /// the depth to which the queries are searched
        depth: Depth,
        /// how many workers search each of them
        workers: Workers,
    },
    /// Tell which answer, or which stuck branch, covers each ground proof of a bundle.
    Cover {
        /// the depth to which the queries are searched
        depth: Depth,
        /// how many workers search each of them
        workers: Workers,
    },
    /// Search for counterexamples to the properties of a text.
    Examine {
        /// the depth to which hypotheses and conclusions are searched
        depth: Depth,
        /// how many workers search each of them
        workers: Workers,
    },
    /// Run the text that is made from a number, and write its totals.
    Work {
        /// the number
        seed: u64,
        /// how many queries the text has
        size: Size,
        /// how many workers search each of them
        workers: Workers,
    },
}
