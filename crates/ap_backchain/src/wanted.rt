//! How many answers a search still looks for.

ghost use Rattle.std.specs.Prelude.{◌≡◌, false, true};
ghost use Rattle.ap_defs.specs.Answers.{outs_of};
ghost use Rattle.ap_paths.specs.Limits.{IsWanting};
ghost use Rattle.ap_backchain.specs.Wanted as wanted;

use ap_defs::paths::Out;
use ap_paths::{Limit, answers_in};

/// Whether an answer is still wanted.
pub(crate) fn is_wanting(limit: Limit) -> bool
    ensures yes { result ≡ true → IsWanting limit 0 }
    ensures no { result ≡ false → limit ≡ Limit.First 0 }
{
    match limit {
        Limit::All => true,
        Limit::First(count) => count > 0,
    }
}

/// What is still wanted after these outputs.
pub(crate) fn wanted_after(limit: Limit, outs: &[Out]) -> Limit
    ensures { result ≡ wanted.wanted_after limit (outs_of outs.now) }
{
    match limit {
        Limit::All => Limit::All,
        Limit::First(count) => Limit::First(count.saturating_sub(answers_in(outs))),
    }
}
