//! By how much a delta raises the number of rows that have each value of a column.
ghost use Rattle.std.specs.Prelude.{◌≡◌, ◌+◌, ◌%◌, ◌^◌, IfOk, OnOk, if◌then◌else◌};
ghost use Rattle.std.specs.Option.{option_copied};
ghost use Rattle.df_value.specs.Rows.{cell_at};
ghost use Rattle.df_value.specs.declared.cell.Cell.{Cell as AnyCell};
ghost use Rattle.df_counts.specs.Counts.{value_in};
ghost use Rattle.df_ranks.specs.Rises.{AreRises, has_value, is_value, rise_of};

use df_column::Entry;
use df_value::{Cell, Duplicate, Row};
use std::alloc::{AllocError, Global};
use std::collections::BTreeMap;

/// The row's value at an index: its cell there, if it is not null.
pub fn value_at<'a>(index: Option<usize>, row: &'a Row) -> Option<&'a Cell>
    ensures { option_copied result ≡ value_in (cell_at index row.now) }
{
    match row.get(index?)? {
        Cell::Null => None,
        cell => Some(cell),
    }
}

/// Raises the value by this, modulo 2^64, if there is one.
fn raise(
    alloc: Global,
    rises: &mut BTreeMap<Cell, u64>,
    value: Option<&Cell>,
    by: u64,
) -> Result<(), AllocError>
    ensures { OnOk result ((v : AnyCell) → rise_of rises.new v ≡
        (if is_value v (option_copied value.entry) then (rise_of rises.old v + by) % 2 ^ 64
        else rise_of rises.old v)) }
{
    let Some(value) = value else {
        return Ok(());
    };
    if let Some(rise) = rises.get_mut(value) {
        *rise = rise.wrapping_add(by);
        return Ok(());
    }
    let value = value.copy(alloc)?;
    rises.insert(value, by)?;
    Ok(())
}

/// Raises the row's value by this, modulo 2^64, if there is a row and it has one.
fn raise_at(
    alloc: Global,
    rises: &mut BTreeMap<Cell, u64>,
    index: Option<usize>,
    row: &Option<Row>,
    by: u64,
) -> Result<(), AllocError>
    ensures { OnOk result ((v : AnyCell) → rise_of rises.new v ≡
        (if has_value index v row.now then (rise_of rises.old v + by) % 2 ^ 64
        else rise_of rises.old v)) }
{
    match row {
        Some(row) => raise(alloc, rises, value_at(index, row), by),
        None => Ok(()),
    }
}

/// By how much these changes raise the number of rows of each value at an index, modulo 2^64.
pub fn rises_of(
    alloc: Global,
    index: Option<usize>,
    entries: &[Entry],
) -> Result<BTreeMap<Cell, u64>, AllocError>
    ensures { IfOk result (λ rises. AreRises rises index entries.now) }
{
    let mut rises = BTreeMap::new(alloc);
    for entry in entries {
        raise_at(alloc, &mut rises, index, &entry.old, u64::MAX)?;
        raise_at(alloc, &mut rises, index, &entry.new, 1)?;
    }
    Ok(rises)
}
