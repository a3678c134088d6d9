//! Means.
ghost use Rattle.std.specs.Prelude.{◌≡◌, ◌≤ℤ◌, pos};

use std::marker::Model;

/// A mean: a sum over a count of at least 1, never reduced. Contracts see it as that pair.
#[derive(Clone, Copy, PartialEq, Eq, PartialOrd, Ord, Hash)]
pub struct Frac {
    sum: i128,
    count: i64,
}

impl Model for Frac {
    ghost use Rattle.std.specs.Prelude.{ℤ, ◌≤ℤ◌, pos};

    ghost Value = { ℤ × ℤ };

    ghost view = { λ f. (f.sum, f.count) };

    ghost invariant = { λ f. pos 1 ≤ℤ f.count };

    ghost inverse = { λ v. record { sum = v.0; count = v.1 } };
}

impl Frac {
    /// The mean of `count` numbers whose sum is `sum`.
    pub fn new(sum: i128, count: i64) -> Frac
        requires { pos 1 ≤ℤ count }
        ensures { result ≡ (sum, count) }
    {
        Frac { sum, count }
    }

    /// The sum of the numbers.
    pub fn sum(&self) -> i128
        ensures { result ≡ self.now.0 }
    {
        self.sum
    }

    /// How many numbers there are: at least 1.
    pub fn count(&self) -> i64
        ensures value { result ≡ self.now.1 }
        ensures counted { pos 1 ≤ℤ result }
    {
        self.count
    }
}
