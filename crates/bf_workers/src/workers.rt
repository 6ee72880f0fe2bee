//! How many tries may run at once.
ghost use Rattle.std.specs.Prelude.{◌≡◌, ◌≤◌, IfNone, IfSome};

use std::marker::Model;

/// The most workers that there may be.
pub const MOST_WORKERS: u32 = 64;

/// A number of workers: 1 to 64.
#[derive(Clone, Copy, Debug)]
pub struct Workers {
    count: u32,
}

impl Model for Workers {
    ghost use Rattle.std.specs.Prelude.{ℕ, ◌≤◌};

    ghost Value = { ℕ };

    ghost view = { λ w. w.count };

    ghost inverse = { λ n. record { count = n } };

    ghost invariant = { λ w. (1 ≤ w.count) × (w.count ≤ 64) };
}

impl Workers {
    /// One worker, for where no number is given.
    pub fn one() -> Workers
        ensures { result ≡ 1 }
    {
        Workers { count: 1 }
    }

    /// So many workers, from 1 to 64; None for any other number.
    pub fn new(count: u32) -> Option<Workers>
        ensures some { IfSome result (λ w. w ≡ count) }
        ensures none { IfNone result (¬ ((1 ≤ count) × (count ≤ 64))) }
    {
        if 1 <= count && count <= MOST_WORKERS {
            Some(Workers { count })
        } else {
            None
        }
    }

    /// How many workers there are, from 1 to 64.
    pub fn count(self) -> u32
        ensures count { result ≡ self }
        ensures some { 1 ≤ result }
        ensures few { result ≤ 64 }
    {
        self.count
    }
}
