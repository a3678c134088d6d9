//! Numbers of values and of rows.
ghost use Rattle.df_counts.specs.Totals.{no_totals, sum_of};
ghost use Rattle.df_counts.specs.TotalsLaws.{totals_laws};

use df_tree::Monoid;

/// How many values there are, and how many rows have them, both modulo 2^64.
#[derive(Clone, Copy)]
pub struct Totals {
    pub values: u64,
    pub rows: u64,
}

impl Monoid for Totals {
    ghost none = { no_totals };

    ghost plus = { sum_of };

    fn none() -> Totals {
        Totals { values: 0, rows: 0 }
    }

    fn plus(self, other: Totals) -> Totals {
        Totals {
            values: self.values.wrapping_add(other.values),
            rows: self.rows.wrapping_add(other.rows),
        }
    }

    ghost laws = { totals_laws };
}
