//! Aggregates of the rows of a group.
ghost use Rattle.std.specs.Prelude.{◌≡◌, ◌≤◌, ◌+◌, ◌∷◌, ◌-◌, ◌^◌, [], pos, ◌+ℤ◌, ◌≤ℤ◌, IfOk, filter, length, option_map, slice_get, unwrap_or};
ghost use Rattle.df_value.specs.declared.cell.Cell.TheVariants as cell;
ghost use Rattle.df_value.specs.Rows.{cell_at};
ghost use Rattle.df_expr.specs.Value.{is_null};
ghost use Rattle.df_ops.specs.Aggregates as aggregates;
ghost use Rattle.df_ops.specs.Aggregates.{cells_of, non_null, mean_at, number_of, sum_with};
ghost use Rattle.df_ops.specs.AggregateDtypes.{input_column, output_dtype};
ghost use Rattle.df_ops.specs.Tables.{aggregate_cell};

use crate::agg::Agg;
use crate::groups::keys_of;
use crate::min_max::{MinMax, min_or_max_of, non_null_at};
use df_value::{Cell, CellRef, CellType, Duplicate, Frac, Row, Text, column_index};
use std::alloc::{AllocError, Global};

/// An aggregate of the rows of a group, which have these columns.
pub fn aggregate(
    alloc: Global,
    columns: &[(Text, CellType)],
    group: &[Row],
    agg: &Agg,
) -> Result<Cell, AllocError>
    ensures { IfOk result (λ c. c ≡ aggregate_cell columns.now group.now agg.now) }
{
    match agg {
        Agg::Len => Ok(Cell::Int(group.len() as i64)),
        Agg::Count(name) => Ok(Cell::Int(count_of(column_index(name, columns), group) as i64)),
        Agg::Sum(name) => Ok(Cell::Wide(sum_of(column_index(name, columns), group))),
        Agg::Min(name) => min_or_max(alloc, MinMax::Min, column_index(name, columns), group),
        Agg::Max(name) => min_or_max(alloc, MinMax::Max, column_index(name, columns), group),
        Agg::First(name) => cell_of(alloc, column_index(name, columns), group.first()),
        Agg::Last(name) => cell_of(alloc, column_index(name, columns), group.last()),
        Agg::NUnique(name) => n_unique_of(alloc, column_index(name, columns), group),
        Agg::Mean(name) => Ok(mean_of(column_index(name, columns), group)),
    }
}

/// The number of cells of the rows at an index that are not null.
pub fn count_of(index: Option<usize>, rows: &[Row]) -> usize
    ensures value { result ≡ aggregates.count_of (cells_of index rows.now) }
    ensures within { result ≤ length rows.now }

    // With the number of nulls it is the number of rows.
    ensures with_nulls { result + length (filter is_null (cells_of index rows.now))
        ≡ length rows.now }
    ensures counts { aggregates.IsCount aggregates.count_of }
{
    count_non_null(index, rows)
}

fn count_non_null(index: Option<usize>, rows: &[Row]) -> usize
    ensures value { result ≡ aggregates.count_of (cells_of index rows.now) }
    ensures within { result ≤ length rows.now }
{
    let mut count = 0;
    for row in rows {
        count += one_if_non_null(index, row);
    }
    count
}

fn one_if_non_null(index: Option<usize>, row: &Row) -> usize
    ensures value { result ≡ length (non_null (cell_at index row.now ∷ [])) }
    ensures within { result ≤ 1 }
{
    match non_null_at(index, row) {
        Some(_) => 1,
        None => 0,
    }
}

/// The sum of the Int cells of the rows at an index, or the number of trues among its Bool cells.
pub fn sum_of(index: Option<usize>, rows: &[Row]) -> i128
    ensures value { result ≡ aggregates.sum_of (cells_of index rows.now) }
    ensures sums { aggregates.IsSum aggregates.sum_of }
{
    let mut sum: i128 = 0;
    for row in rows {
        sum = next_sum(sum, number_at(index, row));
    }
    sum
}

/// The sum with a further number, if there is one.
pub fn next_sum(sum: i128, n: Option<i64>) -> i128
    requires low { pos 0 ≤ℤ (sum +ℤ pos (2 ^ 127 - 2 ^ 63)) }
    requires high { (sum +ℤ pos (2 ^ 63)) ≤ℤ pos (2 ^ 127) }
    ensures value { result ≡ sum_with sum n }
    ensures least { sum ≤ℤ (result +ℤ pos (2 ^ 63)) }
    ensures most { result ≤ℤ (sum +ℤ pos (2 ^ 63)) }
{
    match n {
        Some(n) => sum + n as i128,
        None => sum,
    }
}

/// What the cell of a row at an index adds to a sum.
pub fn number_at(index: Option<usize>, row: &Row) -> Option<i64>
    ensures { result ≡ number_of (cell_at index row.now) }
{
    match row.cell_at(index) {
        CellRef::Int(n) => Some(n),
        CellRef::Bool(truth) => Some(i64::from(truth)),
        _ => None,
    }
}

/// The mean of the Int cells of the rows at an index that are not null; null where there is none.
pub fn mean_of(index: Option<usize>, rows: &[Row]) -> Cell
    ensures { result ≡ aggregates.mean_of (cells_of index rows.now) }
{
    mean(sum_of(index, rows), count_of(index, rows))
}

fn mean(sum: i128, count: usize) -> Cell
    requires { count ≤ 2 ^ 63 - 1 }
    ensures { result ≡ mean_at sum count }
{
    match count {
        0 => Cell::Null,
        count => Cell::Frac(Frac::new(sum, count as i64)),
    }
}

/// A copy of the cell that no other lies beyond, null where all are null.
pub fn min_or_max(
    alloc: Global,
    min_max: MinMax,
    index: Option<usize>,
    rows: &[Row],
) -> Result<Cell, AllocError>
    ensures { IfOk result (λ c. c ≡ aggregates.min_or_max_of min_max (cells_of index rows.now)) }
{
    match min_or_max_of(min_max, index, rows) {
        Some(cell) => cell.copy(alloc),
        None => Ok(Cell::Null),
    }
}

// The cell of a row at an index, null where there is no row.
fn cell_of(alloc: Global, index: Option<usize>, row: Option<&Row>) -> Result<Cell, AllocError>
    ensures { IfOk result
        (λ c. c ≡ unwrap_or (option_map (λ r. cell_at index r.now) row.entry) cell.Null) }
{
    match row {
        Some(row) => row.cell_at(index).to_cell(alloc),
        None => Ok(Cell::Null),
    }
}

fn n_unique_of(alloc: Global, index: Option<usize>, rows: &[Row]) -> Result<Cell, AllocError>
    ensures { IfOk result (λ c. c ≡ cell.Int (pos (aggregates.n_unique_of index rows.now))) }
{
    let keys = keys_of(alloc, &[index], rows)?;
    Ok(Cell::Int(keys.len() as i64))
}
