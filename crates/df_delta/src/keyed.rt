//! The changes of a delta, by a key of their rows.
ghost use Rattle.std.specs.Prelude.{◌≡◌, ◌≤◌, ◌+◌, ◌*◌, IfOk, List, None, OnOk, Some, cond, map};
ghost use Rattle.std.specs.FinMap as finite;
ghost use Rattle.indexmap.specs.IndexMap.{get, index_map_len};
ghost use Rattle.df_value.specs.Rows.{row_eq};
ghost use Rattle.df_value.specs.declared.cell.Cell.{Cell};
ghost use Rattle.df_ops.specs.Groups as groups;
ghost use Rattle.df_column.specs.Tables.{entry_change};
ghost use Rattle.df_delta.specs.Keyed as keyed;
ghost use Rattle.df_delta.specs.Keyed.{kept_changes, row_of_key};
ghost use Rattle.df_delta.specs.RowKeys.{key_cells};
ghost use Rattle.df_delta.specs.SameRows.{with_change};

use crate::delta::Delta;
use crate::entries::push_change;
use crate::row_key::RowKey;
use df_column::{Entry, Tag};
use df_ops::key_of;
use df_value::{Duplicate, Row};
use indexmap::IndexMap;
use std::alloc::{AllocError, Global};

/// The changes of the rows of one key, by rising tags.
pub struct KeyChanges {
    pub entries: Vec<Entry>,
}

// A body that owns one drops it by a call.
impl Drop for KeyChanges {
    fn drop(self) {
        let KeyChanges { entries } = self;
        drop(entries);
    }
}

/// Adds a change of the rows of this key, unless both rows are equal. The key is made only where it is new.
fn add_change(
    alloc: Global,
    by_key: &mut IndexMap<Row, KeyChanges>,
    key: RowKey<'_>,
    tag: Tag,
    old: Option<Row>,
    new: Option<Row>,
) -> Result<(), AllocError>
    ensures changes { OnOk result ((k : List Cell) → kept_changes (get row_eq by_key.new k)
        ≡ cond (row_eq (key_cells key.entry) k)
        (with_change (kept_changes (get row_eq by_key.old k)) tag old new)
        (kept_changes (get row_eq by_key.old k))) }
    ensures few { OnOk result (index_map_len by_key.new ≤ index_map_len by_key.old + 1) }
{
    if let Some(changes) = by_key.get_mut(key) {
        return push_change(&mut changes.entries, tag, old, new);
    }
    let mut changes = KeyChanges {
        entries: Vec::new(alloc),
    };
    push_change(&mut changes.entries, tag, old, new)?;
    let key = key_of(alloc, key.indices, key.row)?;
    match by_key.insert(key, changes) {
        Ok(_) => Ok(()),
        Err(_) => Err(AllocError),
    }
}

/// Adds a row that goes.
fn add_old(
    alloc: Global,
    indices: &[Option<usize>],
    by_key: &mut IndexMap<Row, KeyChanges>,
    tag: Tag,
    old: &Row,
) -> Result<(), AllocError>
    ensures changes { OnOk result ((k : List Cell) → kept_changes (get row_eq by_key.new k)
        ≡ with_change (kept_changes (get row_eq by_key.old k)) tag
        (row_of_key (groups.key_of indices.now) k (Some old.now)) None) }
    ensures few { OnOk result (index_map_len by_key.new ≤ index_map_len by_key.old + 1) }
{
    let key = RowKey { indices, row: old };
    let row = old.copy(alloc)?;
    add_change(alloc, by_key, key, tag, Some(row), None)
}

/// Adds a row that comes.
fn add_new(
    alloc: Global,
    indices: &[Option<usize>],
    by_key: &mut IndexMap<Row, KeyChanges>,
    tag: Tag,
    new: &Row,
) -> Result<(), AllocError>
    ensures changes { OnOk result ((k : List Cell) → kept_changes (get row_eq by_key.new k)
        ≡ with_change (kept_changes (get row_eq by_key.old k)) tag None
        (row_of_key (groups.key_of indices.now) k (Some new.now))) }
    ensures few { OnOk result (index_map_len by_key.new ≤ index_map_len by_key.old + 1) }
{
    let key = RowKey { indices, row: new };
    let row = new.copy(alloc)?;
    add_change(alloc, by_key, key, tag, None, Some(row))
}

/// Adds a row in the place of another: one change where both have the same key, else one for each key.
fn add_both(
    alloc: Global,
    indices: &[Option<usize>],
    by_key: &mut IndexMap<Row, KeyChanges>,
    tag: Tag,
    old: &Row,
    new: &Row,
) -> Result<(), AllocError>
    ensures changes { OnOk result ((k : List Cell) → kept_changes (get row_eq by_key.new k)
        ≡ with_change (kept_changes (get row_eq by_key.old k)) tag
        (row_of_key (groups.key_of indices.now) k (Some old.now))
        (row_of_key (groups.key_of indices.now) k (Some new.now))) }
    ensures few { OnOk result (index_map_len by_key.new ≤ index_map_len by_key.old + 2) }
{
    let key = RowKey { indices, row: old };
    if key == (RowKey { indices, row: new }) {
        let old_row = old.copy(alloc)?;
        let new_row = new.copy(alloc)?;
        return add_change(alloc, by_key, key, tag, Some(old_row), Some(new_row));
    }
    add_old(alloc, indices, by_key, tag, old)?;
    add_new(alloc, indices, by_key, tag, new)
}

/// Adds one change.
fn add_entry(
    alloc: Global,
    indices: &[Option<usize>],
    by_key: &mut IndexMap<Row, KeyChanges>,
    entry: &Entry,
) -> Result<(), AllocError>
    ensures changes { OnOk result ((k : List Cell) → kept_changes (get row_eq by_key.new k)
        ≡ with_change (kept_changes (get row_eq by_key.old k)) entry.now.tag
        (row_of_key (groups.key_of indices.now) k entry.now.old)
        (row_of_key (groups.key_of indices.now) k entry.now.new)) }
    ensures few { OnOk result (index_map_len by_key.new ≤ index_map_len by_key.old + 2) }
{
    match (&entry.old, &entry.new) {
        (Some(old), Some(new)) => add_both(alloc, indices, by_key, entry.tag, old, new),
        (Some(old), None) => add_old(alloc, indices, by_key, entry.tag, old),
        (None, Some(new)) => add_new(alloc, indices, by_key, entry.tag, new),
        (None, None) => Ok(()),
    }
}

/// The changes of a delta by the cells of their rows at these indices. Where a row leaves a key for another, it goes
/// from the rows of the one and comes to those of the other.
pub fn keyed_changes(
    alloc: Global,
    indices: &[Option<usize>],
    delta: &Delta,
) -> Result<IndexMap<Row, KeyChanges>, AllocError>
    ensures changes { IfOk result (λ by_key. (k : List Cell) → kept_changes (get row_eq by_key k)
        ≡ finite.entries (keyed.keyed_changes (groups.key_of indices.now) k delta.now)) }
    ensures few { IfOk result (λ by_key. index_map_len by_key ≤ 2 * finite.len delta.now) }
{
    let mut by_key = IndexMap::new(alloc);
    for entry in delta.entries() {
        add_entry(alloc, indices, &mut by_key, entry)?;
    }
    Ok(by_key)
}
