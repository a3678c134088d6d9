//! Rolling windows and cumulative sums.
ghost use Rattle.std.specs.Prelude.{◌≡◌, ◌-◌, pos, IfOk, IsTrue, drop, length};
ghost use Rattle.df_value.specs.Rows.{cell_at, rows_fit};
ghost use Rattle.df_ops.specs.Aggregates.{cells_of};
ghost use Rattle.df_ops.specs.Tables as tables;
ghost use Rattle.df_ops.specs.LoopStates.{cum_sum_after, cum_sum_cell};
ghost use Rattle.df_ops.specs.TableColumns.{column_of, PutsColumn};
ghost use Rattle.df_ops.specs.Windows as windows;
ghost use Rattle.df_ops.specs.Windows.{rolling_cell, window_of, AreSumsUpTo, IsCumSum, EndsInSum};

use crate::aggregates::{count_of, min_or_max, next_sum, number_at, sum_of};
use crate::min_max::{MinMax, non_null_at};
use crate::one_column::with_column_table;
use crate::plain_table::PlainTable;
use df_value::{Cell, CellType, Row, Text, column_index};
use std::alloc::{AllocError, Global};

/// What a rolling window takes of its cells.
#[derive(Clone, Copy, PartialEq, Eq)]
pub enum RollKind {
    /// The sum of those that are not null, a Wide.
    Sum,
    /// The least that is not null.
    Min,
    /// The greatest that is not null.
    Max,
}

/// The table with the rolling values of a column put among its own, over w rows, of which m are to
/// be not null.
pub fn rolling_table(
    alloc: Global,
    table: &PlainTable,
    output: &Text,
    kind: RollKind,
    column: &Text,
    w: usize,
    m: usize,
) -> Result<PlainTable, AllocError>
    ensures value { IfOk result
        (λ t. t ≡ tables.rolling_table table.now output.now kind column.now w m) }

    // Over rows that fit, the other columns are as they were.
    ensures column { IsTrue (rows_fit table.now.columns table.now.rows)
        → IfOk result (PutsColumn table.now output.now
        (windows.rolling_cells kind w m (column_of column.now table.now))) }
{
    table_with_rolling(alloc, table, output, kind, column, w, m)
}

#[tactic(auto, unfolding(crate::specs::Tables::rolling_table))]
fn table_with_rolling(
    alloc: Global,
    table: &PlainTable,
    output: &Text,
    kind: RollKind,
    column: &Text,
    w: usize,
    m: usize,
) -> Result<PlainTable, AllocError>
    ensures { IfOk result (λ t. t ≡ tables.rolling_table table.now output.now kind column.now w m) }
{
    let index = column_index(column, table.columns.as_slice());
    let cells = rolling_cells(alloc, kind, w, m, index, table.rows.as_slice())?;
    with_column_table(alloc, table, output, rolling_dtype(kind), cells.as_slice())
}

// The rolling values of the cells at an index.
fn rolling_cells(
    alloc: Global,
    kind: RollKind,
    w: usize,
    m: usize,
    index: Option<usize>,
    rows: &[Row],
) -> Result<Vec<Cell>, AllocError>
    ensures { IfOk result
        (λ cells. cells.items ≡ windows.rolling_cells kind w m (cells_of index rows.now)) }
{
    let mut cells = Vec::with_capacity(alloc, rows.len())?;
    for i in 0..rows.len() {
        cells.push(rolling_last(alloc, kind, w, m, index, &rows[..i + 1])?)?;
    }
    Ok(cells)
}

/// The rolling value that ends at the last of these rows.
pub fn rolling_last(
    alloc: Global,
    kind: RollKind,
    w: usize,
    m: usize,
    index: Option<usize>,
    rows: &[Row],
) -> Result<Cell, AllocError>
    ensures value { IfOk result
        (λ c. c ≡ rolling_cell kind m (window_of w (cells_of index rows.now))) }

    // Over all rows a sum is the cumulative sum.
    ensures whole { IfOk result (λ c. IsCumSum kind w m (cells_of index rows.now) c) }
{
    rolling_of_window(alloc, kind, m, index, last_rows(rows, w))
}

fn rolling_of_window(
    alloc: Global,
    kind: RollKind,
    m: usize,
    index: Option<usize>,
    window: &[Row],
) -> Result<Cell, AllocError>
    ensures { IfOk result (λ c. c ≡ rolling_cell kind m (cells_of index window.now)) }
{
    if count_of(index, window) < m {
        return Ok(Cell::Null);
    }
    match kind {
        RollKind::Sum => Ok(Cell::Wide(sum_of(index, window))),
        RollKind::Min => min_or_max(alloc, MinMax::Min, index, window),
        RollKind::Max => min_or_max(alloc, MinMax::Max, index, window),
    }
}

// The last rows, so many or all.
fn last_rows(rows: &[Row], most: usize) -> &[Row]
    ensures { result.now ≡ drop (length rows.now - most) rows.now }
{
    &rows[rows.len().saturating_sub(most)..]
}

/// A whole number as a size; 0 for one below 0.
pub fn size_of(n: i64) -> usize
    ensures { result ≡ windows.size_of n }
{
    if n < 0 { 0 } else { n as usize }
}

/// The table with the cumulative sums of a column put among its own.
pub fn cum_sum_table(
    alloc: Global,
    table: &PlainTable,
    output: &Text,
    column: &Text,
) -> Result<PlainTable, AllocError>
    ensures value { IfOk result (λ t. t ≡ tables.cum_sum_table table.now output.now column.now) }

    // Over rows that fit, the other columns are as they were.
    ensures column { IsTrue (rows_fit table.now.columns table.now.rows)
        → IfOk result (PutsColumn table.now output.now
        (windows.cum_sum (column_of column.now table.now))) }
{
    table_with_cum_sum(alloc, table, output, column)
}

#[tactic(auto, unfolding(crate::specs::Tables::cum_sum_table))]
fn table_with_cum_sum(
    alloc: Global,
    table: &PlainTable,
    output: &Text,
    column: &Text,
) -> Result<PlainTable, AllocError>
    ensures { IfOk result (λ t. t ≡ tables.cum_sum_table table.now output.now column.now) }
{
    let index = column_index(column, table.columns.as_slice());
    let cells = cum_sum(alloc, index, table.rows.as_slice())?;
    with_column_table(alloc, table, output, CellType::Wide, cells.as_slice())
}

/// The cumulative sums of the cells at an index.
#[tactic(auto, using(crate::proofs::WindowFacts::running_is))]
pub fn cum_sum(alloc: Global, index: Option<usize>, rows: &[Row]) -> Result<Vec<Cell>, AllocError>
    ensures value { IfOk result (λ cells. cells.items ≡ windows.cum_sum (cells_of index rows.now)) }
    ensures each { IfOk result (λ cells. AreSumsUpTo (cells_of index rows.now) cells.items) }
    ensures last { IfOk result (λ cells. EndsInSum (cells_of index rows.now) cells.items) }
{
    cum_sum_cells(alloc, index, rows)
}

fn cum_sum_cells(alloc: Global, index: Option<usize>, rows: &[Row]) -> Result<Vec<Cell>, AllocError>
    ensures { IfOk result (λ cells. cells.items ≡ cum_sum_after (pos 0) (cells_of index rows.now)) }
{
    let mut cells = Vec::with_capacity(alloc, rows.len())?;
    let mut sum: i128 = 0;
    for row in rows {
        sum = next_sum(sum, number_at(index, row));
        cells.push(sum_at(index, row, sum))?;
    }
    Ok(cells)
}

// The sum that ends at a row, null where its own cell is null.
fn sum_at(index: Option<usize>, row: &Row, sum: i128) -> Cell
    ensures { result ≡ cum_sum_cell (cell_at index row.now) sum }
{
    match non_null_at(index, row) {
        Some(_) => Cell::Wide(sum),
        None => Cell::Null,
    }
}

/// The type of a rolling column.
pub fn rolling_dtype(kind: RollKind) -> CellType
    ensures { result ≡ windows.rolling_dtype kind }
{
    match kind {
        RollKind::Sum => CellType::Wide,
        RollKind::Min | RollKind::Max => CellType::Int,
    }
}
