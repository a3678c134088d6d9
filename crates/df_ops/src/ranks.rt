//! Ranks.
ghost use Rattle.std.specs.Prelude.{◌≡◌, ◌≤◌, ◌∷◌, [], IfOk, IsTrue, length};
ghost use Rattle.df_value.specs.Rows.{cell_at, rows_fit};
ghost use Rattle.df_value.specs.Schemas as schemas_spec;
ghost use Rattle.df_ops.specs.TableColumns.{PutsColumn};
ghost use Rattle.df_ops.specs.Tables as tables;
ghost use Rattle.df_ops.specs.Ranks as ranks_spec;
ghost use Rattle.df_ops.specs.Ranks.{min_rank_of, ranks_of, AtLeastDense, EachIsRanked, GreatestCounts, LeastIsOne, NextAddsEqual, RanksAgree, RanksRise, RanksWithin};

use crate::groups::keys_of;
use crate::min_max::non_null_at;
use crate::one_column::with_column_table;
use crate::plain_table::PlainTable;
use df_value::{Cell, CellType, Row, Text, column_index};
use std::alloc::{AllocError, Global};

/// How a rank counts cells that are equal.
#[derive(Clone, Copy, PartialEq, Eq)]
pub enum RankKind {
    /// Once, so that no rank is left out.
    Dense,
    /// Each, so that the next greater cell has the rank that it would have if they were not equal.
    Min,
}

/// The table with the ranks of a column put among its own.
pub fn rank_table(
    alloc: Global,
    table: &PlainTable,
    output: &Text,
    kind: RankKind,
    column: &Text,
) -> Result<PlainTable, AllocError>
    ensures value { IfOk result
        (λ t. t ≡ tables.rank_table table.now output.now kind column.now) }

    // Over rows that fit, the other columns are as they were.
    ensures column { IsTrue (rows_fit table.now.columns table.now.rows)
        → IfOk result (PutsColumn table.now output.now
        (ranks_of kind (schemas_spec.column_index column.now table.now.columns) table.now.rows)) }
{
    table_with_ranks(alloc, table, output, kind, column)
}

#[tactic(auto, unfolding(crate::specs::Tables::rank_table))]
fn table_with_ranks(
    alloc: Global,
    table: &PlainTable,
    output: &Text,
    kind: RankKind,
    column: &Text,
) -> Result<PlainTable, AllocError>
    ensures { IfOk result (λ t. t ≡ tables.rank_table table.now output.now kind column.now) }
{
    let index = column_index(column, table.columns.as_slice());
    let cells = ranks(alloc, kind, index, table.rows.as_slice())?;
    with_column_table(alloc, table, output, CellType::Int, cells.as_slice())
}

fn ranks(
    alloc: Global,
    kind: RankKind,
    index: Option<usize>,
    rows: &[Row],
) -> Result<Vec<Cell>, AllocError>
    ensures { IfOk result (λ cells. cells.items ≡ ranks_of kind index rows.now) }
{
    match kind {
        RankKind::Dense => dense_rank(alloc, index, rows),
        RankKind::Min => min_rank(alloc, index, rows),
    }
}

/// The dense ranks of the cells at an index.
pub fn dense_rank(
    alloc: Global,
    index: Option<usize>,
    rows: &[Row],
) -> Result<Vec<Cell>, AllocError>
    ensures value { IfOk result (λ cells. cells.items ≡ ranks_spec.dense_rank index rows.now) }
    ensures ranked { IfOk result (λ cells. EachIsRanked index rows.now cells.items) }
    ensures agree { IfOk result (λ cells. RanksAgree index rows.now cells.items) }
    ensures rise { IfOk result (λ cells. RanksRise index rows.now cells.items) }
    ensures within { IfOk result (λ cells. RanksWithin index rows.now cells.items) }
    ensures greatest { IfOk result (λ cells. GreatestCounts index rows.now cells.items) }
{
    all_ranked(alloc, index, rows)
}

fn all_ranked(alloc: Global, index: Option<usize>, rows: &[Row]) -> Result<Vec<Cell>, AllocError>
    ensures { IfOk result (λ cells. cells.items ≡ ranks_spec.dense_rank index rows.now) }
{
    let distinct = keys_of(alloc, &[index], rows)?;
    let distinct = distinct.as_slice();
    let mut ranks = Vec::with_capacity(alloc, rows.len())?;
    for row in rows {
        ranks.push(rank_among(Some(0), distinct, index, row))?;
    }
    Ok(ranks)
}

/// The least ranks of the cells at an index: 1 plus the number of smaller cells.
pub fn min_rank(alloc: Global, index: Option<usize>, rows: &[Row]) -> Result<Vec<Cell>, AllocError>
    ensures value { IfOk result (λ cells. cells.items ≡ ranks_spec.min_rank index rows.now) }
    ensures ranked { IfOk result (λ cells. EachIsRanked index rows.now cells.items) }
    ensures agree { IfOk result (λ cells. RanksAgree index rows.now cells.items) }
    ensures at_least { IfOk result (λ cells. AtLeastDense index rows.now cells.items) }
    ensures least { IfOk result (λ cells. LeastIsOne index rows.now cells.items) }
    ensures next { IfOk result (λ cells. NextAddsEqual index rows.now cells.items) }
{
    all_min_ranked(alloc, index, rows)
}

fn all_min_ranked(
    alloc: Global,
    index: Option<usize>,
    rows: &[Row],
) -> Result<Vec<Cell>, AllocError>
    ensures { IfOk result (λ cells. cells.items ≡ ranks_spec.min_rank index rows.now) }
{
    let mut ranks = Vec::with_capacity(alloc, rows.len())?;
    for row in rows {
        ranks.push(rank_among(index, rows, index, row))?;
    }
    Ok(ranks)
}

// The rank of a row's cell among the cells of others.
fn rank_among(among: Option<usize>, others: &[Row], index: Option<usize>, row: &Row) -> Cell
    ensures { result ≡ min_rank_of among others.now (cell_at index row.now) }
{
    match non_null_at(index, row) {
        Some(cell) => Cell::Int((count_below(among, others, cell) + 1) as i64),
        None => Cell::Null,
    }
}

// How many cells at an index are smaller and not null.
fn count_below(index: Option<usize>, rows: &[Row], cell: &Cell) -> usize
    ensures value { result ≡ ranks_spec.count_below index rows.now cell.now }
    ensures within { result ≤ length rows.now }
{
    let mut count = 0;
    for row in rows {
        count += one_if_below(index, row, cell);
    }
    count
}

fn one_if_below(index: Option<usize>, row: &Row, cell: &Cell) -> usize
    ensures value { result ≡ ranks_spec.count_below index (row.now ∷ []) cell.now }
    ensures within { result ≤ 1 }
{
    if is_below(index, row, cell) { 1 } else { 0 }
}

// Whether the cell at an index is not null and smaller.
fn is_below(index: Option<usize>, row: &Row, cell: &Cell) -> bool
    ensures { result ≡ ranks_spec.is_below cell.now (cell_at index row.now) }
{
    match non_null_at(index, row) {
        Some(own) => own.cmp(cell).is_lt(),
        None => false,
    }
}
