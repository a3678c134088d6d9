//! Groups of plain rows by the cells of key columns.
ghost use Rattle.std.specs.Prelude.{◌≡◌, ◌≢◌, ◌++◌, ◌∷◌, [], All, AllPairs, Contains, IfOk, OnOk, length, map, sum};
ghost use Rattle.std.specs.List.{list_any};
ghost use Rattle.df_value.specs.CellEq.{cell_eq};
ghost use Rattle.df_value.specs.Rows.{cell_at, row_eq};
ghost use Rattle.df_ops.specs.Groups as groups;
ghost use Rattle.df_ops.specs.Groups.{KeysStandFirst};

use df_value::{Cell, CellRef, Duplicate, Row, push_made};
use std::alloc::{AllocError, Global};

/// The distinct keys of the rows, by first appearance: the cells at `indices`, null where an index
/// is none. Null is a key like any other.
pub fn keys_of(
    alloc: Global,
    indices: &[Option<usize>],
    rows: &[Row],
) -> Result<Vec<Row>, AllocError>
    ensures value { IfOk result (λ keys. keys.items ≡ groups.keys_of indices.now rows.now) }
    ensures none_twice { IfOk result (λ keys. AllPairs (λ a b. a ≢ b) keys.items) }
    ensures each_row { IfOk result
        (λ keys. All (λ r. Contains keys.items (groups.key_of indices.now r)) rows.now) }

    // Each is the key of a row, and they stand in the order of their first rows.
    ensures of_a_row { IfOk result
        (λ keys. All (Contains (map (groups.key_of indices.now) rows.now)) keys.items) }
    ensures first_appearance { IfOk result
        (λ keys. KeysStandFirst indices.now rows.now keys.items) }
{
    distinct_keys(alloc, indices, rows)
}

fn distinct_keys(
    alloc: Global,
    indices: &[Option<usize>],
    rows: &[Row],
) -> Result<Vec<Row>, AllocError>
    ensures { IfOk result (λ keys. keys.items ≡ groups.keys_of indices.now rows.now) }
{
    let mut keys = Vec::new(alloc);
    for row in rows {
        let key = key_of(alloc, indices, row)?;
        if !stands_in(&key, keys.as_slice()) {
            keys.push(key)?;
        }
    }
    Ok(keys)
}

fn stands_in(key: &Row, keys: &[Row]) -> bool
    ensures { result ≡ list_any (row_eq key.now) keys.now }
{
    keys.iter().any(|k| *key == *k)
}

/// The cells of a row at these indices.
pub fn key_of(alloc: Global, indices: &[Option<usize>], row: &Row) -> Result<Row, AllocError>
    ensures { IfOk result (λ k. k ≡ groups.key_of indices.now row.now) }
{
    let mut key = Vec::with_capacity(alloc, indices.len())?;
    for index in indices {
        push_made(&mut key, row.cell_at(*index).to_cell(alloc))?;
    }
    Row::new(alloc, key)
}

/// Copies of the rows that have this key, in their order.
pub fn group_of(
    alloc: Global,
    indices: &[Option<usize>],
    rows: &[Row],
    key: &Row,
) -> Result<Vec<Row>, AllocError>
    ensures { IfOk result (λ group. group.items ≡ groups.group_of indices.now rows.now key.now) }
{
    let mut group = Vec::new(alloc);
    for row in rows {
        keep_in_group(alloc, &mut group, indices, row, key)?;
    }
    Ok(group)
}

// Adds a copy of the row to the group, if it has the key.
fn keep_in_group(
    alloc: Global,
    group: &mut Vec<Row>,
    indices: &[Option<usize>],
    row: &Row,
    key: &Row,
) -> Result<(), AllocError>
    ensures { OnOk result
        (group.new.items ≡ group.old.items ++ groups.group_of indices.now (row.now ∷ []) key.now) }
{
    if is_in_group(indices, row, key) {
        group.push(row.copy(alloc)?)?;
    }
    Ok(())
}

/// Whether the cells of the row at these indices are the key. No cell is copied.
pub fn is_in_group(indices: &[Option<usize>], row: &Row, key: &Row) -> bool
    ensures { result ≡ row_eq (groups.key_of indices.now row.now) key.now }
{
    let cells = key.as_slice();
    if indices.len() != cells.len() {
        return false;
    }
    for i in 0..indices.len() {
        if !is_at(indices[i], row, &cells[i]) {
            return false;
        }
    }
    true
}

// Whether a row has this cell at an index.
fn is_at(index: Option<usize>, row: &Row, cell: &Cell) -> bool
    ensures { result ≡ cell_eq (cell_at index row.now) cell.now }
{
    row.cell_at(index) == CellRef::of(cell)
}

/// How many rows the group of each key has, in the order of the keys. Together they are all rows.
pub fn group_lengths(
    alloc: Global,
    indices: &[Option<usize>],
    rows: &[Row],
) -> Result<Vec<usize>, AllocError>
    ensures value { IfOk result (λ lengths. lengths.items ≡
        map (λ k. length (groups.group_of indices.now rows.now k))
        (groups.keys_of indices.now rows.now)) }
    ensures whole { IfOk result (λ lengths. sum lengths.items ≡ length rows.now) }
{
    lengths_of_groups(alloc, indices, rows)
}

fn lengths_of_groups(
    alloc: Global,
    indices: &[Option<usize>],
    rows: &[Row],
) -> Result<Vec<usize>, AllocError>
    ensures { IfOk result (λ lengths. lengths.items ≡
        map (λ k. length (groups.group_of indices.now rows.now k))
        (groups.keys_of indices.now rows.now)) }
{
    let keys = distinct_keys(alloc, indices, rows)?;
    let keys = keys.as_slice();
    let mut lengths = Vec::with_capacity(alloc, keys.len())?;
    for key in keys {
        push_made(&mut lengths, group_length(alloc, indices, rows, key))?;
    }
    Ok(lengths)
}

fn group_length(
    alloc: Global,
    indices: &[Option<usize>],
    rows: &[Row],
    key: &Row,
) -> Result<usize, AllocError>
    ensures { IfOk result (λ n. n ≡ length (groups.group_of indices.now rows.now key.now)) }
{
    Ok(group_of(alloc, indices, rows, key)?.len())
}
