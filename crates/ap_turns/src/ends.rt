//! How a search ends at a machine.

ghost use Rattle.std.specs.Prelude.{◌≡◌};
ghost use Rattle.ap_defs.specs.Answers.{out_of};
ghost use Rattle.ap_turns.specs.Ends.{end_out};

use ap_defs::outcomes::Answer;
use ap_defs::paths::{Out, Path};

/// An answer, a cut or a stuck branch, without the path to it.
#[derive(Drop)]
pub enum End {
    Found(Answer),
    Cut,
    Stuck,
}

/// The output of an end to which these choices led. It takes no memory.
pub fn out_at(path: Vec<u32>, end: End) -> Out
    ensures { out_of result ≡ end_out path.items end }
{
    match end {
        End::Found(answer) => Out::Found(Path::of(path), answer),
        End::Cut => Out::Cut(Path::of(path)),
        End::Stuck => Out::Stuck(Path::of(path)),
    }
}
