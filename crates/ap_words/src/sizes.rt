//! How many queries a text may be made with.

ghost use Rattle.std.specs.Prelude.{◌≡◌, ◌<◌, ◌≤◌};
ghost use Rattle.ap_defs.specs.Limits.{within};
ghost use Rattle.ap_words.specs.Sizes.{most_queries};

use std::marker::Model;

/// The most queries that a text is made with.
pub const MOST_QUERIES: u32 = 1_000;

/// How many queries a text is made with: a number from 1 to 1,000. Contracts see it as that number.
#[derive(Clone, Copy)]
pub struct Size {
    number: u32,
}

impl Model for Size {
    ghost use Rattle.std.specs.Prelude.{ℕ, ◌<◌, ◌≤◌};
    ghost use Rattle.ap_words.specs.Sizes.{most_queries};

    ghost Value = { ℕ };

    ghost view = { λ s. s.number };

    ghost invariant = { λ s. (0 < s.number) × (s.number ≤ most_queries) };

    ghost inverse = { λ n. record { number = n } };
}

impl Size {
    /// That many queries, where a text may be made with them.
    pub fn of(number: u32) -> Option<Size>
        ensures { result ≡ within 1 most_queries number }
    {
        if 1 <= number && number <= MOST_QUERIES {
            Some(Size { number })
        } else {
            None
        }
    }

    /// The number.
    pub fn get(self) -> u32
        ensures number { result ≡ self }
        ensures bounds { (0 < result) × (result ≤ most_queries) }
    {
        self.number
    }
}
