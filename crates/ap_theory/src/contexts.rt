//! Sets of conditions, as a parameter of laws.

ghost use Rattle.ap_theory.specs.Contexts.{Context};

use std::marker::Brand;

/// A set of conditions: of which name it says that it is fresh for which variable. A law with such
/// a parameter is proved for every set, finite or not.
pub trait Conditions {
    ghost holds: { Context };
}

/// No condition. A proof that calls a law at `Brand` may pick any other set.
impl Conditions for Brand {
    ghost holds = { λ a x. ⊥ };
}
