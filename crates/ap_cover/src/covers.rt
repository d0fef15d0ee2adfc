//! The output that covers a proof.

ghost use Rattle.std.specs.Prelude.{◌≡◌};
ghost use Rattle.std.specs.Option.{option_map};
ghost use Rattle.ap_defs.specs.Answers.{outs_of};
ghost use Rattle.ap_cover.specs.Covers as spec;
ghost use Rattle.ap_cover.specs.Said.{cover_said};

use ap_defs::paths::{Out, Path};

/// What covers a proof: the answer, or the stuck branch, at this place among those that a search finds, from 1,
/// and its path.
#[derive(Clone, Copy)]
pub enum Cover<'a> {
    Answer { place: usize, path: &'a Path },
    Stuck { place: usize, path: &'a Path },
}

/// Whether two paths are the same.
fn is_same_path(left: &Path, right: &Path) -> bool
    ensures { result ≡ spec.is_same_path left.now right.now }
{
    left.is_prefix(right) && right.is_prefix(left)
}

/// The output that covers a proof of this path: the first that is an answer at it, or is stuck at a beginning of
/// it. It takes no memory.
pub fn cover_of<'a>(path: &Path, outs: &'a [Out]) -> Option<Cover<'a>>
    ensures { option_map cover_said result ≡ spec.cover_of path.now (outs_of outs.now) }
{
    let mut answers = 0;
    let mut stuck = 0;
    'looking: for out in outs {
        match out {
            Out::Found(at, _) => {
                answers += 1;
                if is_same_path(at, path) {
                    return Some(Cover::Answer {
                        place: answers,
                        path: at,
                    });
                }
            }
            Out::Cut(_) => {}
            Out::Stuck(at) => {
                stuck += 1;
                if at.is_prefix(path) {
                    return Some(Cover::Stuck {
                        place: stuck,
                        path: at,
                    });
                }
            }
        }
    }
    None
}
