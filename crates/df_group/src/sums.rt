//! Running sums of the cells of a column.
ghost use Rattle.std.specs.Prelude.{◌≡◌, ℕ, pos, ◌+ℤ◌, ◌-ℤ◌, IfOk, IfSome, List};
ghost use Rattle.std.specs.FinMap as finite;
ghost use Rattle.df_value.specs.declared.cell.Cell.{Cell};
ghost use Rattle.df_ops.specs.Aggregates.{mean_at};
ghost use Rattle.df_group.specs.Totals.{Lead, alone, sums_after, sums_after_entry, sums_of};

use df_column::{Entry, Table};
use df_ops::{count_of, sum_of};
use df_value::{Cell, Frac, Row};
use std::alloc::{AllocError, Global};
use std::slice;

/// How many cells of some rows at an index are not null, and their sum.
#[derive(Clone, Copy, PartialEq, Eq)]
pub struct Sums {
    pub index: Option<usize>,
    pub count: i64,
    pub sum: i128,
}

impl Sums {
    /// The sums of these rows.
    pub fn of_rows(index: Option<usize>, rows: &[Row]) -> Sums
        ensures { result ≡ sums_of index rows.now }
    {
        Sums {
            index,
            count: count_of(index, rows) as i64,
            sum: sum_of(index, rows),
        }
    }

    /// The mean of the cells; null where there is none.
    pub fn mean(&self) -> Cell
        ensures { (n : ℕ) → self.now.count ≡ pos n → result ≡ mean_at self.now.sum n }
    {
        if self.count > 0 {
            Cell::Frac(Frac::new(self.sum, self.count))
        } else {
            Cell::Null
        }
    }

    /// The sums of a row alone, or of none.
    fn of_row(index: Option<usize>, row: &Option<Row>) -> Sums
        ensures { result ≡ sums_of index (alone row.now) }
    {
        match row {
            Some(row) => Sums::of_rows(index, slice::from_ref(row)),
            None => Sums::of_rows(index, &[]),
        }
    }

    /// The sums after this entry, unless a number grows past its type.
    fn after_entry(self, entry: &Entry) -> Option<Sums>
        ensures { IfSome result (λ s. s ≡ sums_after_entry self entry.now) }
    {
        let going = Sums::of_row(self.index, &entry.old);
        let coming = Sums::of_row(self.index, &entry.new);
        let count = moved_count(self.count, going.count, coming.count)?;
        let sum = moved_sum(self.sum, going.sum, coming.sum)?;
        Some(Sums {
            index: self.index,
            count,
            sum,
        })
    }

    /// The sums after these entries, unless a number grows past its type.
    fn after(self, entries: &[Entry]) -> Option<Sums>
        ensures { IfSome result (λ s. s ≡ sums_after self entries.now) }
    {
        let mut sums = self;
        for entry in entries {
            sums = sums.after_entry(entry)?;
        }
        Some(sums)
    }

    /// The sums after these entries lead to these rows. The rows are read only where a number grows past its type.
    pub fn moved(self, alloc: Global, entries: &[Entry], rows: &Table) -> Result<Sums, AllocError>
        ensures { IfOk result (λ s. (old : List (List Cell)) → self ≡ sums_of self.index old
            → Lead old entries.now (finite.values rows.now.rows)
            → s ≡ sums_of self.index (finite.values rows.now.rows)) }
    {
        match self.after(entries) {
            Some(sums) => Ok(sums),
            None => Ok(Sums::of_rows(self.index, &rows.rows(alloc)?)),
        }
    }
}

/// The count without what goes and with what comes, if it fits its type.
fn moved_count(count: i64, going: i64, coming: i64) -> Option<i64>
    ensures { IfSome result (λ n. n ≡ (count -ℤ going) +ℤ coming) }
{
    count.checked_sub(going)?.checked_add(coming)
}

/// The sum without what goes and with what comes, if it fits its type.
fn moved_sum(sum: i128, going: i128, coming: i128) -> Option<i128>
    ensures { IfSome result (λ n. n ≡ (sum -ℤ going) +ℤ coming) }
{
    sum.checked_sub(going)?.checked_add(coming)
}
