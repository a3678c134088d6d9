//! Blocks of at most 128 tagged rows.
ghost use Rattle.std.specs.Prelude.{◌≡◌, ◌<◌, ◌≤◌, ◌+◌, ◌-◌, T, IfOk, map, length, slice_index_or};
ghost use Rattle.df_value.specs.Rows.{row_eq};
ghost use Rattle.df_value.specs.declared.cell.Cell.{Cell};
ghost use Rattle.df_column.specs.BlockMinMax.{AreMinMax, AreKnown, IsMinOrMaxAt};
ghost use Rattle.df_column.specs.Blocks.{block_rows};
ghost use Rattle.df_column.specs.Changes.{IsHead};
ghost use Rattle.df_column.specs.Columns.{column_cells, dtype_of_column};
ghost use Rattle.df_column.specs.Picks.{AreWithin, picked_cells, spliced};
ghost use Rattle.df_column.specs.Rows as rows;
ghost use Rattle.df_column.specs.Rows.{AreRows, are_even, row_at};
ghost use Rattle.df_column.specs.Sizes.{most_rows};
ghost use Rattle.df_column.specs.declared.column.Column.{Column};

use crate::column::Column;
use crate::min_max::{MinMax, MinMaxPlaces, Splice, known_at, min_max_of};
use crate::picks::Pick;
use crate::row_tags::RowTags;
use crate::tag::Tag;
use df_value::{Cell, Row, both};
use std::alloc::{AllocError, Global};
use std::marker::Model;

/// The most rows of a block.
pub const MOST_ROWS: usize = 128;

/// Some rows: a tag for each, and a cell in each column. Of each column it is kept where the least and the greatest cell
/// stand.
pub struct Block {
    tags: RowTags,
    columns: Vec<Column>,
    min_max: Vec<MinMaxPlaces>,
}

// A body that owns one drops it by a call.
impl Drop for Block {
    fn drop(self) {
        let Block {
            tags,
            columns,
            min_max,
        } = self;
        drop(tags);
        drop(columns);
        drop(min_max);
    }
}

impl Model for Block {
    ghost use Rattle.df_column.specs.BlockMinMax.{IsKeptBlock};
    ghost use Rattle.df_column.specs.Blocks.{BlockParts};

    ghost Value = { BlockParts };

    ghost view = { λ b. record { tags = b.tags; columns = b.columns.items } };

    ghost invariant = { λ b. IsKeptBlock b.tags b.columns.items b.min_max.items };
}

/// The column at this index, with the picked rows in place of those from `low` up to `high`.
fn spliced_column(
    alloc: Global,
    tags: &RowTags,
    columns: &[Column],
    at: usize,
    low: usize,
    high: usize,
    picks: &[Pick<'_>],
) -> Result<Column, AllocError>
    requires at { at < length columns.now }
    requires even { T (are_even (length tags.now) (map column_cells columns.now)) }
    requires ordered { low ≤ high }
    requires in_range { high ≤ length tags.now }
    requires within { AreWithin (length tags.now) picks.now }
    requires rows { AreRows (map dtype_of_column columns.now) picks.now }
    requires few { low + length picks.now + (length tags.now - high) ≤ most_rows }
    ensures cells { IfOk result (λ c. (d : Column) → column_cells c ≡
        spliced low high (picked_cells (column_cells (slice_index_or columns.now at d)) at picks.now)
        (column_cells (slice_index_or columns.now at d))) }
    ensures dtype { IfOk result (λ c. (d : Column) → dtype_of_column c ≡
        dtype_of_column (slice_index_or columns.now at d)) }
{
    columns[at].spliced(alloc, low, high, at, picks)
}

/// The columns, with the picked rows in place of those from `low` up to `high`.
fn spliced_columns(
    alloc: Global,
    tags: &RowTags,
    columns: &[Column],
    low: usize,
    high: usize,
    picks: &[Pick<'_>],
) -> Result<Vec<Column>, AllocError>
    requires even { T (are_even (length tags.now) (map column_cells columns.now)) }
    requires ordered { low ≤ high }
    requires in_range { high ≤ length tags.now }
    requires within { AreWithin (length tags.now) picks.now }
    requires rows { AreRows (map dtype_of_column columns.now) picks.now }
    requires few { low + length picks.now + (length tags.now - high) ≤ most_rows }
    ensures cells { IfOk result (λ v. map column_cells v.items ≡
        rows.spliced_columns low high 0 (map column_cells columns.now) picks.now) }
    ensures dtypes { IfOk result (λ v. map dtype_of_column v.items ≡ map dtype_of_column columns.now) }
{
    let mut out = Vec::with_capacity(alloc, columns.len())?;
    for at in 0..columns.len() {
        let column = spliced_column(alloc, tags, columns, at, low, high, picks)?;
        out.push(column)?;
    }
    Ok(out)
}

/// Whether the columns have these cells at this index.
fn are_cells(tags: &RowTags, columns: &[Column], at: usize, cells: &[Cell]) -> bool
    requires at { at < length tags.now }
    requires even { T (are_even (length tags.now) (map column_cells columns.now)) }
    ensures { result ≡ row_eq (row_at (map column_cells columns.now) at) cells.now }
{
    if columns.len() != cells.len() {
        return false;
    }
    for column in 0..columns.len() {
        if !columns[column].is_cell(at, &cells[column]) {
            return false;
        }
    }
    true
}

impl Block {
    /// A block of the rows of these tags and columns up to one index, the picked rows, and the rows from another index on.
    /// Where the row of a least or greatest cell stays, only the picked rows are looked at for another.
    pub fn spliced(
        alloc: Global,
        tags: &RowTags,
        columns: &[Column],
        known: &[MinMaxPlaces],
        low: usize,
        high: usize,
        picks: &[Pick<'_>],
    ) -> Result<Block, AllocError>
        requires even { T (are_even (length tags.now) (map column_cells columns.now)) }
        requires known { AreKnown (map column_cells columns.now) known.now }
        requires ordered { low ≤ high }
        requires in_range { high ≤ length tags.now }
        requires within { AreWithin (length tags.now) picks.now }
        requires rows { AreRows (map dtype_of_column columns.now) picks.now }
        requires some { 0 < low + length picks.now + (length tags.now - high) }
        requires few { low + length picks.now + (length tags.now - high) ≤ most_rows }
        ensures rows { IfOk result (λ b. block_rows b ≡
            spliced low high (rows.picked_rows (map column_cells columns.now) picks.now)
            (rows.tagged_rows tags.now (map column_cells columns.now))) }
        ensures dtypes { IfOk result (λ b. map dtype_of_column b.columns ≡ map dtype_of_column columns.now) }
    {
        let made = spliced_columns(alloc, tags, columns, low, high, picks);
        let (tags, columns) = both(tags.spliced(alloc, low, high, picks), made)?;
        let count = picks.len();
        let min_max = min_max_of(alloc, &columns, known, Splice { low, high, count })?;
        Ok(Block {
            tags,
            columns,
            min_max,
        })
    }

    /// The tags of the rows.
    pub fn tags(&self) -> &RowTags
        ensures tags { result.now ≡ self.now.tags }
        ensures some { 0 < length self.now.tags }
        ensures few { length self.now.tags ≤ most_rows }
    {
        &self.tags
    }

    /// The columns.
    pub fn columns(&self) -> &[Column]
        ensures columns { result.now ≡ self.now.columns }
        ensures even { T (are_even (length self.now.tags) (map column_cells self.now.columns)) }
    {
        &self.columns
    }

    /// Where the ends of each column stand.
    pub fn min_max(&self) -> &[MinMaxPlaces]
        ensures { AreMinMax (map column_cells self.now.columns) result.now }
    {
        &self.min_max
    }

    /// Where one end of a column stands.
    pub fn min_or_max_at(&self, which: MinMax, column: usize) -> Option<usize>
        requires { column < length self.now.columns }
        ensures { (d : Column) → IsMinOrMaxAt which
            (column_cells (slice_index_or self.now.columns column d)) result }
    {
        let min_max = known_at(self.min_max(), column);
        match which {
            MinMax::Min => min_max.least,
            MinMax::Max => min_max.greatest,
        }
    }

    /// The tag of the first row.
    pub fn first(&self) -> Tag
        ensures { IsHead (block_rows self.now) result }
    {
        self.tags().get(0)
    }

    /// A copy of the row at this index.
    pub fn row(&self, alloc: Global, at: usize) -> Result<Row, AllocError>
        requires { at < length self.now.tags }
        ensures { IfOk result (λ r. r ≡ row_at (map column_cells self.now.columns) at) }
    {
        let columns = self.columns();
        let mut cells = Vec::with_capacity(alloc, columns.len())?;
        for column in columns {
            cells.push(column.cell(alloc, at)?)?;
        }
        Row::new(alloc, cells)
    }

    /// Whether the row at this index is this one. No cell is copied.
    pub fn is_row(&self, at: usize, row: &Row) -> bool
        requires { at < length self.now.tags }
        ensures { result ≡ row_eq (row_at (map column_cells self.now.columns) at) row.now }
    {
        are_cells(self.tags(), self.columns(), at, row.as_slice())
    }
}
