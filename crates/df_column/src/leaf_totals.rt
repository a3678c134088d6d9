//! Numbers of blocks and of rows.
ghost use Rattle.df_column.specs.LeafTotals.{both_totals, capped, no_totals};
ghost use Rattle.df_column.specs.LeafTotalLaws.{blocks_stay, rows_stay, totals_laws};
ghost use Rattle.std.specs.Prelude.{nat_lt};

use df_tree::{Monoid, Test};

/// How many blocks there are, and how many rows they have, or 2^64 - 1 where there are more.
#[derive(Clone, Copy)]
pub struct Totals {
    pub blocks: usize,
    pub rows: usize,
}

impl Monoid for Totals {
    ghost none = { no_totals };

    ghost plus = { both_totals };

    fn none() -> Totals {
        Totals { blocks: 0, rows: 0 }
    }

    fn plus(self, other: Totals) -> Totals {
        Totals {
            blocks: self.blocks.saturating_add(other.blocks),
            rows: self.rows.saturating_add(other.rows),
        }
    }

    ghost laws = { totals_laws };
}

/// Whether there are more than so many blocks.
#[derive(Clone, Copy)]
pub struct MoreBlocks(pub usize);

impl Test<Totals> for MoreBlocks {
    ghost passes = { λ t sum. nat_lt t.0 (capped sum.blocks) };

    fn passes(&self, sum: Totals) -> bool {
        sum.blocks > self.0
    }

    ghost stays = { blocks_stay };
}

/// Whether there are more than so many rows.
#[derive(Clone, Copy)]
pub struct MoreRows(pub usize);

impl Test<Totals> for MoreRows {
    ghost passes = { λ t sum. nat_lt t.0 (capped sum.rows) };

    fn passes(&self, sum: Totals) -> bool {
        sum.rows > self.0
    }

    ghost stays = { rows_stay };
}
