//! The outputs of a closed book.

ghost use Rattle.std.specs.Prelude.{◌≡◌, [], ◌∷◌, IfOk};
ghost use Rattle.ap_paths.specs.Entries.{entries_of};
ghost use Rattle.ap_paths.specs.Merging.{merged};
ghost use Rattle.ap_paths.specs.Runs.{outs_of_runs};
ghost use Rattle.ap_book.specs.Values.{ended_from, all_values, merged_values};

use ap_defs::lists::List;
use ap_defs::memory::Memory;
use ap_defs::paths::Path;
use ap_paths::{Closed, Endings, Entry, Run};
use std::alloc::Global;

/// The outputs of a closed book's ends, in path order. The runs themselves are moved.
///
/// It takes time in proportion to n log n, where n paths have ended. In a legal history of strictly
/// ascending kids no path ends twice; here ends of one path would come in the order of their entries.
pub fn merge(alloc: Global, closed: Closed) -> Result<Vec<Run>, Memory>
    ensures value { IfOk result (λ v. v.items ≡ merged_values closed.history) }
    ensures outputs { IfOk result (λ v. outs_of_runs v.items ≡ merged (entries_of closed.history)) }
{
    let Closed { history, logs } = closed;
    drop(logs);
    let endings = gather(alloc, history.into_vec())?;
    let ended = endings.into_vec(alloc)?;
    let all = join(alloc, ended)?;
    Ok(all)
}

fn gather(alloc: Global, history: Vec<Entry>) -> Result<Endings, Memory>
    ensures { IfOk result (λ m. m ≡ ended_from [] history.items) }
{
    let mut endings = Endings::new(alloc);
    for entry in history {
        enter(alloc, &mut endings, entry)?;
    }
    Ok(endings)
}

/// Puts what an entry ends into its place.
fn enter(alloc: Global, endings: &mut Endings, entry: Entry) -> Result<(), Memory>
    ensures { IfOk result (λ _. endings.new ≡ ended_from endings.old (entry ∷ [])) }
{
    match entry {
        Entry::Done {
            seat: _seat,
            path,
            outs,
        } => endings.put(alloc, &path, outs),
        Entry::Split {
            seat: _seat,
            path: _path,
            kids: _kids,
        } => Ok(()),
        Entry::Skip {
            seat: _seat,
            path: _path,
            found: _found,
        } => Ok(()),
        Entry::Stop { seat: _seat } => Ok(()),
    }
}

fn join(alloc: Global, ended: Vec<(Path, List<Run>)>) -> Result<Vec<Run>, Memory>
    ensures { IfOk result (λ v. v.items ≡ all_values ended.items) }
{
    let mut all = Vec::new(alloc);
    for (path, outs) in ended {
        drop(path);
        all.append(&mut outs.into_vec())?;
    }
    Ok(all)
}
