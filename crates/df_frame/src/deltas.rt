//! The deltas that changes make of a frame's table.
ghost use Rattle.std.specs.Prelude.{◌≡◌, ◌+◌, ◌≤◌, IfOk, OnOk, T, length, map};
ghost use Rattle.std.specs.FinMap as finite;
ghost use Rattle.std.specs.List.{enumerate_from, list_all};
ghost use Rattle.df_frame.specs.FrameTables as frame_tables;
ghost use Rattle.df_frame.specs.FrameTables.{HasNewRows, coming_row, set_rows};
ghost use Rattle.df_column.specs.Tables.{entry_change};
ghost use Rattle.df_delta.specs.ChangeOf.{change_of};
ghost use Rattle.df_delta.specs.Collected.{collected_list};
ghost use Rattle.df_delta.specs.Deltas.{has_row};
ghost use Rattle.df_delta.specs.Differences.{IsDiff};
ghost use Rattle.df_delta.specs.SameRows.{same_row, with_change};
ghost use Rattle.df_value.specs.Limits as limits;

use crate::numbered::{HasNumber, NewRow};
use df_column::{Entry, Table, Tag};
use df_delta::{Delta, push_change};
use df_value::Row;
use std::alloc::{AllocError, Global};
use std::collections::BTreeMap;

/// The tag of a row number.
pub fn row_tag(number: u32) -> Tag
    ensures { result ≡ frame_tables.row_tag number }
{
    Tag {
        first: number as u64 + 1,
        second: 0,
        third: 0,
    }
}

/// The delta by which the rows come behind the numbers from `first` on.
pub fn delta_of_rows(alloc: Global, first: u32, rows: Vec<Row>) -> Result<Delta, AllocError>
    requires { first + length rows.items ≤ limits.row_numbers }
    ensures { IfOk result (λ delta.
        delta ≡ finite.from_sorted (map coming_row (enumerate_from first rows.items))) }
{
    let entries = coming_entries(alloc, first, rows)?;
    Ok(Delta::from_entries(entries))
}

// An entry for each row, which comes.
fn coming_entries(alloc: Global, first: u32, rows: Vec<Row>) -> Result<Vec<Entry>, AllocError>
    requires { first + length rows.items ≤ limits.row_numbers }
    ensures changes { IfOk result (λ entries.
        map entry_change entries.items ≡ map coming_row (enumerate_from first rows.items)) }
    ensures rows { IfOk result (λ entries. T (list_all has_row entries.items)) }
{
    let mut entries = Vec::with_capacity(alloc, rows.len())?;
    let mut number = first as u64;
    for row in rows {
        push_change(&mut entries, row_tag(number as u32), None, Some(row))?;
        number += 1;
    }
    Ok(entries)
}

/// The lean delta by which each item's row, or nothing, comes to stand at its number in the table.
/// The first item of a number holds.
pub fn delta_at<N: HasNumber + NewRow>(
    alloc: Global,
    table: &Table,
    items: &[N],
) -> Result<Delta, AllocError>
    ensures { IfOk result (IsDiff table.now.rows (set_rows table.now.rows
        (map (λ item. (N.number_of item, N.row_of item)) items.now))) }
{
    let new_rows = new_rows_of(alloc, items)?;
    let entries = entries_at(alloc, table, new_rows)?;
    Ok(Delta::from_entries(entries))
}

// What comes to stand at the items' tags.
fn new_rows_of<N: HasNumber + NewRow>(
    alloc: Global,
    items: &[N],
) -> Result<BTreeMap<Tag, Option<Row>>, AllocError>
    ensures { IfOk result (λ new_rows. HasNewRows new_rows
        (map (λ item. (N.number_of item, N.row_of item)) items.now)) }
{
    let mut new_rows = BTreeMap::new(alloc);
    for i in (0..items.len()).rev() {
        let item = &items[i];
        let row = item.row(alloc)?;
        new_rows.insert(row_tag(item.number()), row)?;
    }
    Ok(new_rows)
}

// The changes at the tags at which the table has another row.
fn entries_at(
    alloc: Global,
    table: &Table,
    new_rows: BTreeMap<Tag, Option<Row>>,
) -> Result<Vec<Entry>, AllocError>
    ensures changes { IfOk result (λ entries. map entry_change entries.items
        ≡ collected_list (λ tag new. change_of same_row (finite.get table.now.rows tag) new)
        new_rows.entries) }
    ensures rows { IfOk result (λ entries. T (list_all has_row entries.items)) }
{
    let mut entries = Vec::with_capacity(alloc, new_rows.len())?;
    for (tag, new) in new_rows {
        push_row(alloc, &mut entries, table, tag, new)?;
    }
    Ok(entries)
}

// Adds the change from the table's row at the tag to the new one, unless the two are equal.
fn push_row(
    alloc: Global,
    entries: &mut Vec<Entry>,
    table: &Table,
    tag: Tag,
    new: Option<Row>,
) -> Result<(), AllocError>
    ensures added { OnOk result (map entry_change entries.new.items
        ≡ with_change (map entry_change entries.old.items) tag (finite.get table.now.rows tag) new) }
    ensures rows { T (list_all has_row entries.old.items)
        → OnOk result (T (list_all has_row entries.new.items)) }
{
    let old = table.get(alloc, tag)?;
    push_change(entries, tag, old, new)?;
    Ok(())
}
