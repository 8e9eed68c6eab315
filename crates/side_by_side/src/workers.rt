// The number of workers, which is the number of pieces into which work is cut.
ghost use Rattle.std.specs.Prelude.{◌≡◌, ◌≤◌};
ghost use Rattle.side_by_side.specs.Workers.{most_workers};

use std::marker::Model;

/// The largest number of workers.
pub const MOST_WORKERS: u32 = 64;

/// A number of workers, from 1 to 64.
#[derive(Clone, Copy)]
pub struct Workers {
    number: u32,
}

impl Model for Workers {
    ghost use Rattle.std.specs.Prelude.{ℕ, ◌≤◌};
    ghost use Rattle.side_by_side.specs.Workers.{most_workers};

    ghost Value = { ℕ };

    ghost view = { λ workers. workers.number };

    ghost invariant = { λ workers. (1 ≤ workers.number) × (workers.number ≤ most_workers) };

    ghost inverse = { λ workers. record { number = workers } };
}

impl Workers {
    /// Returns a `Workers` with this number, which must be from 1 to 64.
    pub fn of(number: u32) -> Workers
        requires some { 1 ≤ number }
        requires few { number ≤ most_workers }
        ensures { result ≡ number }
    {
        Workers { number }
    }

    /// Returns the number of workers.
    pub fn number(self) -> u32
        ensures value { result ≡ self }
        ensures some { 1 ≤ result }
        ensures few { result ≤ most_workers }
    {
        self.number
    }
}
