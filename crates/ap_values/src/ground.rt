//! Freshness and equality of ground terms, after Urban, Pitts and Gabbay.

ghost use Rattle.std.specs.Prelude.{◌≡◌, IfOk};
ghost use Rattle.ap_defs.specs.Permutations.{swap_name, act_name, name_eq, swap_of};
ghost use Rattle.ap_defs.specs.Terms.{ground_of, act_ground};
ghost use Rattle.ap_defs.specs.Alpha.{fresh, alpha};
ghost use Rattle.std.specs.Prelude.{[], ◌∷◌};

use ap_defs::memory::Memory;
use ap_defs::terms::{Ground, Name, Swap};
use std::alloc::{AllocError, Global};

/// Whether the name is fresh for the term, that is, isn't free in it. It takes no memory.
#[tactic(auto, unfolding(ap_defs::specs::Permutations::name_eq))]
pub fn fresh_ground(a: &Name, g: &Ground) -> bool
    ensures { result ≡ fresh a.now (ground_of g.now) }
{
    match g {
        Ground::Unit => true,
        Ground::Name(b) => a != b,
        Ground::Pair(t, u) => fresh_ground(a, t) && fresh_ground(a, u),
        Ground::App(_, t) => fresh_ground(a, t),
        Ground::Abs(b, t) => a == b || fresh_ground(a, t),
    }
}

/// What a swapping makes of a name.
#[tactic(auto, unfolding(ap_defs::specs::Permutations::swap_name, ap_defs::specs::Permutations::name_eq))]
fn swap_name_by(s: &Swap, a: &Name) -> Name
    ensures { result ≡ swap_name s.now a.now }
{
    if a.sort == s.sort && a.num == s.left {
        Name {
            sort: s.sort,
            num: s.right,
        }
    } else if a.sort == s.sort && a.num == s.right {
        Name {
            sort: s.sort,
            num: s.left,
        }
    } else {
        *a
    }
}

/// What a permutation makes of a name.
fn apply_perm(p: &[Swap], a: &Name) -> Name
    ensures { result ≡ act_name p.now a.now }
{
    match p {
        [] => *a,
        [s, rest @ ..] => swap_name_by(s, &apply_perm(rest, a)),
    }
}

/// A copy with a permutation carried out.
fn act_on_ground(alloc: Global, p: &[Swap], g: &Ground) -> Result<Ground, AllocError>
    ensures { IfOk result (λ h. ground_of h ≡ act_ground p.now (ground_of g.now)) }
{
    match g {
        Ground::Unit => Ok(Ground::Unit),
        Ground::Name(a) => Ok(Ground::Name(apply_perm(p, a))),
        Ground::Pair(t, u) => {
            let left = Box::new(alloc, act_on_ground(alloc, p, t)?)?;
            let right = Box::new(alloc, act_on_ground(alloc, p, u)?)?;
            Ok(Ground::Pair(left, right))
        }
        Ground::App(f, t) => {
            let inner = Box::new(alloc, act_on_ground(alloc, p, t)?)?;
            Ok(Ground::App(*f, inner))
        }
        Ground::Abs(a, t) => {
            let inner = Box::new(alloc, act_on_ground(alloc, p, t)?)?;
            Ok(Ground::Abs(apply_perm(p, a), inner))
        }
    }
}

/// Whether two terms are equal up to renaming of binders. A binder is renamed by a swapping, so this
/// answers `Memory` where there is none for the term that is swapped.
#[tactic(auto, unfolding(ap_defs::specs::Permutations::name_eq))]
pub fn alpha_eq(alloc: Global, g: &Ground, h: &Ground) -> Result<bool, Memory>
    ensures { IfOk result (λ yes. yes ≡ alpha (ground_of g.now) (ground_of h.now)) }
{
    match (g, h) {
        (Ground::Unit, Ground::Unit) => Ok(true),
        (Ground::Name(a), Ground::Name(b)) => Ok(a == b),
        (Ground::Pair(t, u), Ground::Pair(v, w)) => {
            Ok(alpha_eq(alloc, t, v)? && alpha_eq(alloc, u, w)?)
        }
        (Ground::App(f, t), Ground::App(k, u)) => Ok(*f == *k && alpha_eq(alloc, t, u)?),
        (Ground::Abs(a, t), Ground::Abs(b, u)) => {
            if a == b {
                return alpha_eq(alloc, t, u);
            }
            if a.sort != b.sort || !fresh_ground(a, u) {
                return Ok(false);
            }
            let swap = [Swap {
                sort: a.sort,
                left: a.num,
                right: b.num,
            }];
            let moved = act_on_ground(alloc, &swap, u)?;
            alpha_eq(alloc, t, &moved)
        }
        _ => Ok(false),
    }
}
