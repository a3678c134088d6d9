//! Running counts of the values of a column.
ghost use Rattle.std.specs.Prelude.{◌≡◌, ◌+◌, ◌<◌, ◌^◌, IfOk, List, Some};
ghost use Rattle.std.specs.Option.{option_copied};
ghost use Rattle.std.specs.FinMap as finite;
ghost use Rattle.df_value.specs.Rows.{cell_at};
ghost use Rattle.df_value.specs.declared.cell.Cell.{Cell as AnyCell};
ghost use Rattle.df_counts.specs.Counts.{AreCounts, value_in};
ghost use Rattle.df_group.specs.Totals as totals_spec;
ghost use Rattle.df_group.specs.Totals.{Lead, count_in, value_of, values_of};

use df_column::{Entry, Table};
use df_counts::Counts;
use df_value::{Cell, Row};
use std::alloc::{AllocError, Global};

/// How many of some rows have each value at an index, null being no value.
pub struct Values {
    pub index: Option<usize>,
    pub counts: Counts,
}

// A body that owns one drops it by a call.
impl Drop for Values {
    fn drop(self) {
        let Values { index: _, counts } = self;
        drop(counts);
    }
}

impl Values {
    /// The values of these rows.
    pub fn of_rows(alloc: Global, index: Option<usize>, rows: &[Row]) -> Result<Values, AllocError>
        ensures value { IfOk result (λ v. v ≡ values_of index rows.now) }

        // Each value that a row has is counted with the number of its rows, and no other.
        ensures counts { IfOk result (λ v. AreCounts v.counts index rows.now) }
    {
        let counts = counts_of(alloc, index, rows)?;
        Ok(Values { index, counts })
    }

    /// The same values once more. It takes no memory.
    pub fn share(&self) -> Result<Values, AllocError>
        ensures { IfOk result (λ v. v ≡ self.now) }
    {
        Ok(Values {
            index: self.index,
            counts: self.counts.share()?,
        })
    }

    /// The values after these entries lead to these rows. The rows are read only where a count grows past its type.
    pub fn moved(
        &self,
        alloc: Global,
        entries: &[Entry],
        rows: &Table,
    ) -> Result<Values, AllocError>
        ensures { IfOk result (λ v. (old : List (List AnyCell)) → self.now ≡ values_of self.now.index old
            → Lead old entries.now (finite.values rows.now.rows)
            → v ≡ values_of self.now.index (finite.values rows.now.rows)) }
    {
        match counts_after(alloc, self.index, &self.counts, entries) {
            Ok(counts) => Ok(Values {
                index: self.index,
                counts,
            }),
            Err(CountFault::TooMany) => Values::of_rows(alloc, self.index, &rows.rows(alloc)?),
            Err(CountFault::Memory) => Err(AllocError),
        }
    }
}

/// The row's value at an index: its cell there, if it is not null.
fn value_at<'a>(index: Option<usize>, row: &'a Row) -> Option<&'a Cell>
    ensures { option_copied result ≡ value_in (cell_at index row.now) }
{
    match row.get(index?)? {
        Cell::Null => None,
        cell => Some(cell),
    }
}

/// The value at an index of the row, if there is one.
pub fn value_of<'a>(index: Option<usize>, row: &'a Option<Row>) -> Option<&'a Cell>
    ensures { option_copied result ≡ value_of index row.now }
{
    match row {
        Some(row) => value_at(index, row),
        None => None,
    }
}

/// Counts one row more of this value.
fn add_one(alloc: Global, counts: &mut Counts, value: &Cell) -> Result<(), AllocError>
    requires { count_in counts.old value.now + 1 < 2 ^ 64 }
    ensures { IfOk result (λ _. counts.new ≡ totals_spec.with_row counts.old (Some value.now)) }
{
    let position = counts.position(value);
    let count = position.count.unwrap_or(0) + 1;
    counts.set_at(alloc, position, value, count)?;
    Ok(())
}

/// Counts this row, unless it has no value.
fn add_row(
    alloc: Global,
    index: Option<usize>,
    counts: &mut Counts,
    row: &Row,
) -> Result<(), AllocError>
    requires { (v : AnyCell) → count_in counts.old v + 1 < 2 ^ 64 }
    ensures { IfOk result (λ _. counts.new ≡ totals_spec.with_row counts.old (value_in (cell_at index row.now))) }
{
    match value_at(index, row) {
        Some(value) => add_one(alloc, counts, value),
        None => Ok(()),
    }
}

/// The counts of these rows by their values at an index.
fn counts_of(alloc: Global, index: Option<usize>, rows: &[Row]) -> Result<Counts, AllocError>
    ensures { IfOk result (λ c. c ≡ totals_spec.counts_of index rows.now) }
{
    let mut counts = Counts::new();
    for row in rows {
        add_row(alloc, index, &mut counts, row)?;
    }
    counts.make_shared(alloc)?;
    Ok(counts)
}

/// Why counts do not follow a change.
enum CountFault {
    Memory,
    /// A count grows past its type.
    TooMany,
}

impl From<AllocError> for CountFault {
    fn from(_: AllocError) -> CountFault {
        CountFault::Memory
    }
}

/// Counts one row less of this value, if there is one.
fn take_value(alloc: Global, counts: &mut Counts, value: Option<&Cell>) -> Result<(), AllocError>
    ensures { IfOk result (λ _. counts.new ≡ totals_spec.without_row counts.old (option_copied value.entry)) }
{
    let Some(value) = value else {
        return Ok(());
    };
    let position = counts.position(value);
    let count = position.count.unwrap_or(0).saturating_sub(1);
    counts.set_at(alloc, position, value, count)?;
    Ok(())
}

/// Counts one row more of this value, if there is one.
fn add_value(alloc: Global, counts: &mut Counts, value: Option<&Cell>) -> Result<(), CountFault>
    ensures { IfOk result (λ _. counts.new ≡ totals_spec.with_row counts.old (option_copied value.entry)) }
{
    let Some(value) = value else {
        return Ok(());
    };
    let position = counts.position(value);
    let Some(count) = position.count.unwrap_or(0).checked_add(1) else {
        return Err(CountFault::TooMany);
    };
    counts.set_at(alloc, position, value, count)?;
    Ok(())
}

/// Counts the row of this entry that goes no more, and the one that comes.
fn follow_entry(
    alloc: Global,
    index: Option<usize>,
    counts: &mut Counts,
    entry: &Entry,
) -> Result<(), CountFault>
    ensures { IfOk result (λ _. counts.new ≡ totals_spec.counts_after_entry index counts.old entry.now) }
{
    take_value(alloc, counts, value_of(index, &entry.old))?;
    add_value(alloc, counts, value_of(index, &entry.new))
}

/// The counts after these entries.
fn counts_after(
    alloc: Global,
    index: Option<usize>,
    counts: &Counts,
    entries: &[Entry],
) -> Result<Counts, CountFault>
    ensures { IfOk result (λ c. c ≡ totals_spec.counts_after index counts.now entries.now) }
{
    let mut after = counts.share()?;
    for entry in entries {
        follow_entry(alloc, index, &mut after, entry)?;
    }
    after.make_shared(alloc)?;
    Ok(after)
}
