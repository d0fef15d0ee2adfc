//! The limits of what may be asked for and of what is read.

ghost use Rattle.std.specs.Prelude.{◌≡◌, ◌<◌, ◌≤◌};
ghost use Rattle.ap_defs.specs.Limits.{greatest_depth, most_workers, within};

use std::marker::Model;

/// The greatest depth to which queries are searched.
pub const GREATEST_DEPTH: u32 = 1_000_000;

/// The most workers that search side by side.
pub const MOST_WORKERS: u32 = 64;

/// The most bytes that an input may have, and so the most tokens and items of a text.
pub const SIZE_LIMIT: usize = 16_777_216;

/// A depth to which queries are searched: a number from 0 to 1,000,000. Contracts see it as that
/// number.
#[derive(Clone, Copy)]
pub struct Depth {
    number: u32,
}

impl Model for Depth {
    ghost use Rattle.std.specs.Prelude.{ℕ, ◌≤◌};
    ghost use Rattle.ap_defs.specs.Limits.{greatest_depth};

    ghost Value = { ℕ };

    ghost view = { λ d. d.number };

    ghost invariant = { λ d. d.number ≤ greatest_depth };

    ghost inverse = { λ n. record { number = n } };
}

impl Depth {
    /// The depth of that number, where it is a depth.
    pub fn of(number: u32) -> Option<Depth>
        ensures { result ≡ within 0 greatest_depth number }
    {
        if number <= GREATEST_DEPTH {
            Some(Depth { number })
        } else {
            None
        }
    }

    /// The number.
    pub fn get(self) -> u32
        ensures number { result ≡ self }
        ensures bound { result ≤ greatest_depth }
    {
        self.number
    }
}

/// How many workers search side by side: a number from 1 to 64. Contracts see it as that number.
#[derive(Clone, Copy)]
pub struct Workers {
    number: u32,
}

impl Model for Workers {
    ghost use Rattle.std.specs.Prelude.{ℕ, ◌<◌, ◌≤◌};
    ghost use Rattle.ap_defs.specs.Limits.{most_workers};

    ghost Value = { ℕ };

    ghost view = { λ w. w.number };

    ghost invariant = { λ w. (0 < w.number) × (w.number ≤ most_workers) };

    ghost inverse = { λ n. record { number = n } };
}

impl Workers {
    /// That many workers, where they may be asked for.
    pub fn of(number: u32) -> Option<Workers>
        ensures { result ≡ within 1 most_workers number }
    {
        if 1 <= number && number <= MOST_WORKERS {
            Some(Workers { number })
        } else {
            None
        }
    }

    /// One worker, which searches alone.
    pub fn one() -> Workers
        ensures { result ≡ 1 }
    {
        Workers { number: 1 }
    }

    /// The number.
    pub fn get(self) -> u32
        ensures number { result ≡ self }
        ensures bounds { (0 < result) × (result ≤ most_workers) }
    {
        self.number
    }
}
