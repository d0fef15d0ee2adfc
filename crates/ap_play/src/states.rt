//! What workers have between two events.

use ap_defs::lists::List;
use ap_defs::paths::Path;
use ap_paths::Run;

/// The state of all workers between two events.
#[derive(Drop)]
pub struct Core {
    pub pending: List<Path>,
    pub hands: List<List<Path>>,
    pub deques: List<List<Path>>,
    pub done: List<(Path, List<Run>)>,
    pub skipped: List<Path>,
}
