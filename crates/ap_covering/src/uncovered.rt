//! Proofs that are not to be covered.

ghost use Rattle.std.specs.Prelude.{◌≡◌, map};
ghost use Rattle.ap_bundle.specs.Bundles.{proved_of};
ghost use Rattle.ap_covering.specs.Uncovered as spec;

use ap_cover::ground::is_ground;
use ap_cover::within::within;
use ap_defs::limits::Depth;
use ap_defs::outcomes::Proved;

/// Why a proof is not to be covered: a variable or a condition stands in it, or it is higher than the depth.
#[derive(Clone, Copy)]
pub enum Reason {
    NotGround,
    TooHigh,
}

/// A proof that is not to be covered, by its number in the bundle, from 1.
#[derive(Clone, Copy)]
pub struct Uncovered {
    pub number: usize,
    pub reason: Reason,
}

/// Why a proof is not to be covered at a depth, if it isn't.
fn reason_for(depth: Depth, proved: &Proved) -> Option<Reason>
    ensures { result ≡ spec.reason_for depth (proved_of proved.now) }
{
    if !is_ground(proved) {
        return Some(Reason::NotGround);
    }
    if !within(&proved.derivation, depth.get()) {
        return Some(Reason::TooHigh);
    }
    None
}

/// The first proof that is not to be covered at a depth.
#[tactic(auto, using(crate::proofs::UncoveredLemmas::uncovered_here, crate::proofs::UncoveredLemmas::passed_here))]
pub fn first_uncovered(depth: Depth, proved: &[Proved]) -> Option<Uncovered>
    ensures { result ≡ spec.first_uncovered depth 1 (map proved_of proved.now) }
{
    for i in 0..proved.len() {
        if let Some(reason) = reason_for(depth, &proved[i]) {
            let number = i + 1;
            return Some(Uncovered { number, reason });
        }
    }
    None
}
