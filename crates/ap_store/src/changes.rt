//! Changes of a store, as its trail has them.

use ap_defs::terms::{Cond, Var};

/// An entry of the trail: so many numbers were given, a number was bound, or there is a change of
/// conditions, which is noted beside the trail.
#[derive(Clone, Copy)]
pub enum Entry {
    Made(u32),
    Bound(u32),
    Noted,
}

/// A change of conditions: one came, or those on a variable were taken out, with what was held of it.
#[derive(Drop)]
pub enum Noted {
    Added(Cond),
    Taken(Var, Vec<Cond>),
}
