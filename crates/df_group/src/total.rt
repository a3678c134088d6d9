//! Running totals of a group for an aggregate.
ghost use Rattle.std.specs.Prelude.{◌≡◌, ℕ, ◌≤◌, ◌^◌, [], pos, IfOk, IfSome, List, Option, length};
ghost use Rattle.std.specs.FinMap as finite;
ghost use Rattle.df_value.specs.declared.cell.Cell.{Cell};
ghost use Rattle.df_ops.specs.Aggregates.{n_unique_of};
ghost use Rattle.df_group.specs.Totals.{HaveValuesOf, Lead, total_of, totals_over, values_of};

use crate::sums::Sums;
use crate::values::Values;
use df_column::{Entry, Table};
use df_counts::Counts;
use df_value::List;
use std::alloc::{AllocError, Global};

/// What some rows have at an index whose cells are summed, and at one whose values are counted.
pub struct Total {
    pub sums: Sums,
    pub values: Values,
}

// A body that owns one drops it by a call.
impl Drop for Total {
    fn drop(self) {
        let Total { sums: _, values } = self;
        drop(values);
    }
}

impl Total {
    /// The total of no rows.
    pub fn of_none(summed: Option<usize>, valued: Option<usize>) -> Total
        ensures { result ≡ total_of summed valued [] }
    {
        Total {
            sums: Sums::of_rows(summed, &[]),
            values: Values {
                index: valued,
                counts: Counts::new(),
            },
        }
    }

    /// The total after these entries lead to these rows, beside totals that are of these rows already.
    fn moved(
        &self,
        alloc: Global,
        entries: &[Entry],
        rows: &Table,
        beside: &[Total],
    ) -> Result<Total, AllocError>
        ensures { IfOk result (λ t. (old : List (List Cell)) →
            self.now ≡ total_of self.now.sums.index self.now.values.index old
            → Lead old entries.now (finite.values rows.now.rows)
            → HaveValuesOf beside.now (finite.values rows.now.rows)
            → t ≡ total_of self.now.sums.index self.now.values.index (finite.values rows.now.rows)) }
    {
        Ok(Total {
            sums: self.sums.moved(alloc, entries, rows)?,
            values: moved_values(alloc, &self.values, entries, rows, beside)?,
        })
    }

    /// How many distinct cells so many rows have, null being one.
    pub fn distinct_cells(&self, rows: usize) -> i64
        requires { rows ≤ 2 ^ 60 }
        ensures { (index : Option ℕ) (of : List (List Cell)) → rows ≡ length of
            → self.now ≡ total_of index index of → result ≡ pos (n_unique_of index of) }
    {
        // There are no more values than rows.
        let values = self.values.counts.values().min(rows as u64) as i64;
        if self.sums.count < rows as i64 {
            values + 1
        } else {
            values
        }
    }
}

/// The values at an index that one of these totals has, if one has them.
fn values_at(totals: &[Total], index: Option<usize>) -> Option<&Values>
    ensures { (rows : List (List Cell)) → HaveValuesOf totals.now rows
        → IfSome result (λ v. v.now ≡ values_of index rows) }
{
    for total in totals {
        if total.values.index == index {
            return Some(&total.values);
        }
    }
    None
}

/// The values after these entries lead to these rows. They are shared where a total beside them has them already.
fn moved_values(
    alloc: Global,
    values: &Values,
    entries: &[Entry],
    rows: &Table,
    beside: &[Total],
) -> Result<Values, AllocError>
    ensures { IfOk result (λ v. (old : List (List Cell)) → values.now ≡ values_of values.now.index old
        → Lead old entries.now (finite.values rows.now.rows)
        → HaveValuesOf beside.now (finite.values rows.now.rows)
        → v ≡ values_of values.now.index (finite.values rows.now.rows)) }
{
    match values_at(beside, values.index) {
        Some(moved) => moved.share(),
        None => values.moved(alloc, entries, rows),
    }
}

/// The totals after these entries lead to these rows. Totals of one column share the counts of its values.
pub fn moved_totals(
    alloc: Global,
    totals: &[Total],
    entries: &[Entry],
    rows: &Table,
) -> Result<List<Total>, AllocError>
    ensures { IfOk result (λ moved. (old : List (List Cell)) → totals.now ≡ totals_over totals.now old
        → Lead old entries.now (finite.values rows.now.rows)
        → moved ≡ totals_over totals.now (finite.values rows.now.rows)) }
{
    let mut moved = Vec::with_capacity(alloc, totals.len())?;
    for total in totals {
        let total = total.moved(alloc, entries, rows, &moved)?;
        moved.push(total)?;
    }
    Ok(List::from_vec(moved))
}
