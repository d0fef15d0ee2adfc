//! How high a derivation is.

ghost use Rattle.std.specs.Prelude.{◌≡◌, nat_le};
ghost use Rattle.ap_defs.specs.Derivations.{derivation_of, height};

use ap_defs::outcomes::Derivation;

/// Whether so many atoms stand above one another at most. It takes no memory.
///
/// It goes on along what is last in the derivation, and calls itself on left parts of conjunctions alone.
pub fn within(derivation: &Derivation, depth: u32) -> bool
    ensures { result ≡ nat_le (height (derivation_of derivation.now)) depth }
{
    let mut rest = derivation;
    let mut left = depth;
    loop {
        match rest {
            Derivation::Eq | Derivation::Fresh | Derivation::True => return true,
            Derivation::Atom(_, body) => {
                if left == 0 {
                    return false;
                }
                left -= 1;
                rest = body;
            }
            Derivation::Both(first, second) => {
                if !within(first, left) {
                    return false;
                }
                rest = second;
            }
            Derivation::Left(side) => rest = side,
            Derivation::Right(side) => rest = side,
            Derivation::Exists(_, body) => rest = body,
            Derivation::New(_, body) => rest = body,
        }
    }
}
