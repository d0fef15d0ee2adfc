//! Lists of swappings, of which the first is outermost: the last one acts first.

ghost use Rattle.std.specs.Prelude.{◌≡◌};
ghost use Rattle.ap_defs.specs.Permutations.{act_name, inverse, name_eq, swap_name};

use ap_defs::terms::{Name, Swap};

/// Whether two names are one.
#[tactic(auto, unfolding(ap_defs::specs::Permutations::name_eq))]
pub fn is_same(a: &Name, b: &Name) -> bool
    ensures { result ≡ name_eq a.now b.now }
{
    a == b
}

/// What a swapping makes of a name. It takes no memory.
#[tactic(auto, unfolding(ap_defs::specs::Permutations::swap_name))]
fn swapped(swap: &Swap, a: Name) -> Name
    ensures { result ≡ swap_name swap.now a }
{
    let sort = swap.sort;
    let left = Name {
        sort,
        num: swap.left,
    };
    let right = Name {
        sort,
        num: swap.right,
    };
    if is_same(&a, &left) {
        right
    } else if is_same(&a, &right) {
        left
    } else {
        a
    }
}

/// What a list of swappings makes of a name. It takes no memory.
#[tactic(auto, using(crate::proofs::SwappingLemmas::act_last))]
pub fn image(swaps: &[Swap], a: Name) -> Name
    ensures { result ≡ act_name swaps.now a }
{
    let mut moved = a;
    for i in (0..swaps.len()).rev() {
        moved = swapped(&swaps[i], moved);
    }
    moved
}

/// The name of which a list of swappings makes `a`. It takes no memory.
pub fn preimage(swaps: &[Swap], a: Name) -> Name
    ensures { result ≡ act_name (inverse swaps.now) a }
{
    let mut moved = a;
    for swap in swaps {
        moved = swapped(swap, moved);
    }
    moved
}
