//! A count that only rises.
ghost use Rattle.std.specs.Prelude.{◌≡◌, ◌+◌, ◌<◌, ◌^◌};

use std::marker::Model;

/// A count of work, which contracts see as a number. It begins at 0 in a [`Meter`](crate::Meter) and
/// rises by one at a time. It is not copied, so that no earlier count can be put back.
#[derive(Drop)]
pub struct Counter {
    count: u128,
}

impl Model for Counter {
    ghost use Rattle.std.specs.Prelude.{ℕ};

    ghost Value = { ℕ };

    ghost view = { λ c. c.count };
}

impl Counter {
    /// Nothing counted yet.
    pub(crate) fn zero() -> Counter
        ensures { result ≡ 0 }
    {
        Counter { count: 0 }
    }

    /// Counts one more.
    pub fn raise(&mut self)
        requires { self.old + 1 < 2 ^ 128 }
        ensures { self.new ≡ self.old + 1 }
    {
        self.count += 1;
    }

    /// The count.
    pub fn get(&self) -> u128
        ensures { result ≡ self.now }
    {
        self.count
    }
}
