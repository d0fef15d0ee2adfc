//! What a session holds.

ghost use Rattle.std.specs.Prelude.{◌≡◌, [], false};
ghost use Rattle.ap_inputs.specs.declared.orders.Channel.TheVariants.{Beside};

use ap_defs::limits::{Depth, Workers};
use ap_inputs::orders::Channel;
use std::alloc::Global;

/// How queries are asked.
#[derive(Clone, Copy)]
pub struct Settings {
    /// the depth to which they are searched
    pub depth: Depth,
    /// how many workers search each of them
    pub workers: Workers,
    /// how many answers of each of them are asked for
    pub answers: u64,
}

/// What a session holds.
#[derive(Drop)]
pub struct Session {
    /// the loaded text, without its queries; where there is any, it ends with the end of a line
    pub loaded: Vec<u8>,
    /// how queries are asked
    pub settings: Settings,
    /// the last query, up to and with its full stop; none before the first
    pub last: Vec<u8>,
    /// the first lines of a query, or of clauses that are added
    pub waiting: Vec<u8>,
    /// whether the lines that are typed are clauses that are added
    pub is_adding: bool,
    /// the names of the files that were to be loaded last
    pub files: Vec<String>,
    /// where messages go
    pub channel: Channel,
    /// whether it is told how long each query takes
    pub is_timed: bool,
}

/// The depth to which a new session searches.
const FIRST_DEPTH: u32 = 20;

/// How many answers of each query a new session asks for.
const FIRST_ANSWERS: u64 = 10;

/// The settings of a new session.
fn first_settings(depth: Depth) -> Settings
    ensures { (result.depth ≡ depth) × (result.workers ≡ 1) × (result.answers ≡ 10) }
{
    Settings {
        depth,
        workers: Workers::one(),
        answers: FIRST_ANSWERS,
    }
}

impl Session {
    /// A session without a text, in which queries are searched to depth 20 by one worker, for ten
    /// answers. It takes no memory.
    pub fn new(alloc: Global) -> Session
        ensures texts { (result.loaded.items ≡ []) × (result.last.items ≡ []) }
        ensures waits { (result.waiting.items ≡ []) × (result.is_adding ≡ false) }
        ensures settings { (result.settings.depth ≡ 20) × (result.settings.workers ≡ 1)
            × (result.settings.answers ≡ 10) }
        ensures messages { (result.files.items ≡ []) × (result.channel ≡ Beside)
            × (result.is_timed ≡ false) }
    {
        Session {
            loaded: Vec::new(alloc),
            settings: first_settings(Depth::of(FIRST_DEPTH).unwrap()),
            last: Vec::new(alloc),
            waiting: Vec::new(alloc),
            is_adding: false,
            files: Vec::new(alloc),
            channel: Channel::Beside,
            is_timed: false,
        }
    }
}
