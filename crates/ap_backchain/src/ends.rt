//! Outputs with their paths or without.

ghost use Rattle.std.specs.Prelude.{◌≡◌};
ghost use Rattle.ap_defs.specs.Answers.{out_of};
ghost use Rattle.ap_backchain.specs.Ends.{kept_out, without_path};

use crate::run::Paths;
use ap_defs::paths::{Out, Path};
use std::alloc::Global;

/// An output without its path. It takes no memory.
fn out_without_path(alloc: Global, out: Out) -> Out
    ensures { out_of result ≡ without_path (out_of out) }
{
    let path = Path::root(alloc);
    match out {
        Out::Found(_, answer) => Out::Found(path, answer),
        Out::Cut(_) => Out::Cut(path),
        Out::Stuck(_) => Out::Stuck(path),
    }
}

/// An output with its path or without. It takes no memory.
pub fn out_with(alloc: Global, paths: Paths, out: Out) -> Out
    ensures { out_of result ≡ kept_out paths (out_of out) }
{
    match paths {
        Paths::Kept => out,
        Paths::Left => out_without_path(alloc, out),
    }
}
