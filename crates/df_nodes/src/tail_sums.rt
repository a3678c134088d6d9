//! Cumulative sums from a row on.
ghost use Rattle.std.specs.Prelude.{◌≡◌, ◌+◌, ◌^◌, ◌≤◌, ◌+ℤ◌, ◌≤ℤ◌, IfOk, IfSome, IsTrue, length, not, pos};
ghost use Rattle.df_value.specs.Rows.{cell_at};
ghost use Rattle.df_value.specs.declared.cell.Cell.TheVariants as cells;
ghost use Rattle.df_expr.specs.Value.{is_null as is_null_cell};
ghost use Rattle.df_ops.specs.Aggregates.{cells_of, number_of, sum_with};
ghost use Rattle.df_ops.specs.LoopStates.{cum_sum_after, cum_sum_cell};
ghost use Rattle.df_nodes.specs.Sums as sums_spec;

use df_column::{Entry, Tag};
use df_value::{Cell, Row};
use std::alloc::{AllocError, Global};

/// The most that a sum of cells can be: 2^60 rows of a number of 64 bits each.
const MOST: i128 = 10_633_823_966_279_326_983_230_456_482_242_756_608;

/// Rows of an input from one on, with the cumulative sum at each. The rows before have tags below the first.
pub struct TailSums {
    pub first: Tag,
    pub start: usize,
    pub before: i128,
    pub rows: Vec<Row>,
    pub sums: Vec<Cell>,
}

// A body that owns one drops it by a call.
impl Drop for TailSums {
    fn drop(self) {
        let TailSums {
            first: _,
            start: _,
            before: _,
            rows,
            sums,
        } = self;
        drop(rows);
        drop(sums);
    }
}

/// The tag of the first of these entries; the last tag of all where there is none.
pub fn first_tag(changes: &[Entry]) -> Tag
    ensures { result ≡ sums_spec.first_tag changes.now }
{
    match changes.first() {
        Some(entry) => entry.tag,
        None => Tag {
            first: u64::MAX,
            second: u64::MAX,
            third: u64::MAX,
        },
    }
}

/// Whether a sum is one that rows can have.
pub fn is_within(sum: i128) -> bool
    ensures { IsTrue result → ((pos 0 ≤ℤ (sum +ℤ pos (2 ^ 123))) × (sum ≤ℤ pos (2 ^ 123))) }
{
    -MOST <= sum && sum <= MOST
}

/// Whether a cell is null.
pub fn is_null(cell: &Cell) -> bool
    ensures { IsTrue result → cell.now ≡ cells.Null }
{
    match cell {
        Cell::Null => true,
        _ => false,
    }
}

/// The sum in a cell, if it is one.
pub fn sum_in(cell: &Cell) -> Option<i128>
    ensures { IfSome result (λ sum. cell.now ≡ cells.Wide sum) }
{
    match cell {
        Cell::Wide(sum) => Some(*sum),
        _ => None,
    }
}

/// The cumulative sums of the cells at an index, where those before them have this sum.
pub fn sums_behind(
    alloc: Global,
    index: Option<usize>,
    before: i128,
    rows: &[Row],
) -> Result<Vec<Cell>, AllocError>
    requires low { pos 0 ≤ℤ (before +ℤ pos (2 ^ 123)) }
    requires high { before ≤ℤ pos (2 ^ 123) }
    requires few { length rows.now ≤ 2 ^ 60 }
    ensures { IfOk result (λ cells. cells.items ≡ cum_sum_after before (cells_of index rows.now)) }
{
    let mut cells = Vec::with_capacity(alloc, rows.len())?;
    let mut sum = before;
    for row in rows {
        sum = next_sum(sum, number_at(index, row));
        cells.push(sum_at(index, row, sum))?;
    }
    Ok(cells)
}

/// The sum with a further number, if there is one.
fn next_sum(sum: i128, n: Option<i64>) -> i128
    requires low { pos 0 ≤ℤ (sum +ℤ pos (2 ^ 124)) }
    requires high { sum ≤ℤ pos (2 ^ 124) }
    ensures value { result ≡ sum_with sum n }
    ensures least { sum ≤ℤ (result +ℤ pos (2 ^ 63)) }
    ensures most { result ≤ℤ (sum +ℤ pos (2 ^ 63)) }
{
    match n {
        Some(n) => sum + n as i128,
        None => sum,
    }
}

/// What the cell of a row at an index adds to a sum.
fn number_at(index: Option<usize>, row: &Row) -> Option<i64>
    ensures { result ≡ number_of (cell_at index row.now) }
{
    match row.get(index?)? {
        Cell::Int(n) => Some(*n),
        Cell::Bool(truth) => Some(i64::from(*truth)),
        _ => None,
    }
}

/// The sum that ends at a row; null where its own cell is null.
fn sum_at(index: Option<usize>, row: &Row, sum: i128) -> Cell
    ensures { result ≡ cum_sum_cell (cell_at index row.now) sum }
{
    if has_value(index, row) {
        Cell::Wide(sum)
    } else {
        Cell::Null
    }
}

/// Whether the cell of a row at an index is not null.
fn has_value(index: Option<usize>, row: &Row) -> bool
    ensures { result ≡ not (is_null_cell (cell_at index row.now)) }
{
    let Some(index) = index else {
        return false;
    };
    match row.get(index) {
        Some(Cell::Null) => false,
        Some(_) => true,
        None => false,
    }
}
