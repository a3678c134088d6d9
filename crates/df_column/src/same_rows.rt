//! Whether rows of one table are those of another. No row is made, and no cell is copied.
ghost use Rattle.std.specs.Prelude.{◌≡◌, ◌↔◌, ℕ, ◌+◌, ◌<◌, ◌≤◌, ◌^◌, IsTrue, List, length, map, slice_index_or, true};
ghost use Rattle.std.specs.FinMap as finite;
ghost use Rattle.df_value.specs.declared.cell.Cell.{Cell};
ghost use Rattle.df_column.specs.Blocks.{block_rows, rows_of_blocks};
ghost use Rattle.df_column.specs.Columns.{column_cells, dtype_of_column};
ghost use Rattle.df_column.specs.RowRuns.{AreNull, AreThose};
ghost use Rattle.df_column.specs.Texts.{text_now};
ghost use Rattle.df_column.specs.ValueCells.{text_cell};
ghost use Rattle.df_column.specs.declared.tag.Tag.{Tag};

use crate::block::Block;
use crate::block_list::BlockList;
use crate::column::Column;
use crate::masked::Masked;
use crate::row_tags::RowTags;
use crate::spots::locate;
use crate::table::Table;
use crate::texts::Texts;
use crate::values::CellValue;
use df_value::same;

/// Whether two values are the same, or both null.
fn is_same_value<T: CellValue>(a: Option<T>, b: Option<T>) -> bool
    ensures { IsTrue result ↔ (T.cell_of a ≡ T.cell_of b) }
{
    match (a, b) {
        (Some(a), Some(b)) => T::compare(a, b).is_eq(),
        (None, None) => true,
        _ => false,
    }
}

/// Whether two texts are the same, or both null.
fn is_same_text(a: Option<&str>, b: Option<&str>) -> bool
    ensures { IsTrue result ↔ (text_now a.entry ≡ text_now b.entry) }
{
    match (a, b) {
        (Some(a), Some(b)) => a == b,
        (None, None) => true,
        _ => false,
    }
}

impl<T: CellValue> Masked<T> {
    /// Whether so many cells from an index on are those of another list from an index on.
    fn has_cells_of(&self, at: usize, other: &Masked<T>, from: usize, count: usize) -> bool
        requires within { at + count ≤ length (map T.cell_of self.now) }
        requires within_other { from + count ≤ length (map T.cell_of other.now) }
        requires few { at + count < 2 ^ 64 }
        requires few_of_other { from + count < 2 ^ 64 }
        ensures { IsTrue result ↔
            AreThose (map T.cell_of self.now) at (map T.cell_of other.now) from count }
    {
        for k in 0..count {
            if !is_same_value(self.get(at + k), other.get(from + k)) {
                return false;
            }
        }
        true
    }
}

impl Texts {
    /// Whether so many cells from an index on are those of another list from an index on.
    fn has_cells_of(&self, at: usize, other: &Texts, from: usize, count: usize) -> bool
        requires within { at + count ≤ length (map text_cell self.now) }
        requires within_other { from + count ≤ length (map text_cell other.now) }
        requires few { at + count < 2 ^ 64 }
        requires few_of_other { from + count < 2 ^ 64 }
        ensures { IsTrue result ↔
            AreThose (map text_cell self.now) at (map text_cell other.now) from count }
    {
        for k in 0..count {
            if !is_same_text(self.get(at + k), other.get(from + k)) {
                return false;
            }
        }
        true
    }
}

impl Column {
    /// Whether so many cells from an index on are null.
    fn are_null(&self, at: usize, count: usize) -> bool
        requires within { at + count ≤ length (column_cells self.now) }
        requires few { at + count < 2 ^ 64 }
        ensures { IsTrue result ↔ AreNull (column_cells self.now) at count }
    {
        for k in 0..count {
            if !self.is_null(at + k) {
                return false;
            }
        }
        true
    }

    /// Whether so many cells from an index on are those of another column of this type from an index on.
    fn has_typed_cells_of(&self, at: usize, other: &Column, from: usize, count: usize) -> bool
        requires dtype { dtype_of_column self.now ≡ dtype_of_column other.now }
        requires within { at + count ≤ length (column_cells self.now) }
        requires within_other { from + count ≤ length (column_cells other.now) }
        requires few { at + count < 2 ^ 64 }
        requires few_of_other { from + count < 2 ^ 64 }
        ensures { IsTrue result ↔
            AreThose (column_cells self.now) at (column_cells other.now) from count }
    {
        match (self, other) {
            (Column::Int(a), Column::Int(b)) => a.has_cells_of(at, b, from, count),
            (Column::Wide(a), Column::Wide(b)) => a.has_cells_of(at, b, from, count),
            (Column::Text(a), Column::Text(b)) => a.has_cells_of(at, b, from, count),
            (Column::Bool(a), Column::Bool(b)) => a.has_cells_of(at, b, from, count),
            (Column::Frac(a), Column::Frac(b)) => a.has_cells_of(at, b, from, count),
            _ => false,
        }
    }

    /// Whether so many cells from an index on are those of another column from an index on. Cells of two types are the same
    /// only where both are null.
    fn has_cells_of(&self, at: usize, other: &Column, from: usize, count: usize) -> bool
        requires within { at + count ≤ length (column_cells self.now) }
        requires within_other { from + count ≤ length (column_cells other.now) }
        requires few { at + count < 2 ^ 64 }
        requires few_of_other { from + count < 2 ^ 64 }
        ensures { IsTrue result ↔
            AreThose (column_cells self.now) at (column_cells other.now) from count }
    {
        if same(&self.dtype(), &other.dtype()) {
            return self.has_typed_cells_of(at, other, from, count);
        }
        self.are_null(at, count) && other.are_null(from, count)
    }
}

impl RowTags {
    /// Whether so many tags from an index on are those of another list from an index on.
    fn has_tags_of(&self, at: usize, other: &RowTags, from: usize, count: usize) -> bool
        requires within { at + count ≤ length self.now }
        requires within_other { from + count ≤ length other.now }
        requires few { at + count < 2 ^ 64 }
        requires few_of_other { from + count < 2 ^ 64 }
        ensures { IsTrue result ↔ AreThose self.now at other.now from count }
    {
        for k in 0..count {
            if !same(&self.get(at + k), &other.get(from + k)) {
                return false;
            }
        }
        true
    }
}

impl Block {
    /// Whether so many rows from an index on are those of another block from an index on. It goes column by column.
    fn has_rows_of(&self, at: usize, other: &Block, from: usize, count: usize) -> bool
        requires some { 0 < count }
        requires within { at + count ≤ length self.now.tags }
        requires within_other { from + count ≤ length other.now.tags }
        ensures { IsTrue result ↔
            AreThose (block_rows self.now) at (block_rows other.now) from count }
    {
        let (columns, others) = (self.columns(), other.columns());
        if columns.len() != others.len()
            || !self.tags().has_tags_of(at, other.tags(), from, count)
        {
            return false;
        }
        for column in 0..columns.len() {
            if !columns[column].has_cells_of(at, &others[column], from, count) {
                return false;
            }
        }
        true
    }
}

/// The block in which the row at this index stands, and where it stands there.
fn block_at(blocks: &BlockList, at: usize) -> (&Block, usize)
    requires { at < length (rows_of_blocks blocks.now) }
    ensures within { result.1 < length result.0.now.tags }
    ensures along { (i : ℕ) (d : Tag × List Cell) → result.1 + i < length result.0.now.tags →
        slice_index_or (rows_of_blocks blocks.now) (at + i) d ≡
        slice_index_or (block_rows result.0.now) (result.1 + i) d }
{
    let spot = locate(blocks, at);
    (blocks.get(spot.block), spot.row)
}

/// Whether so many rows from an index on are those of other blocks from an index on.
fn are_rows_of(blocks: &BlockList, at: usize, others: &BlockList, from: usize, count: usize) -> bool
    requires within { at + count ≤ length (rows_of_blocks blocks.now) }
    requires within_other { from + count ≤ length (rows_of_blocks others.now) }
    requires few { at + count < 2 ^ 64 }
    requires few_of_other { from + count < 2 ^ 64 }
    ensures { IsTrue result ↔
        AreThose (rows_of_blocks blocks.now) at (rows_of_blocks others.now) from count }
{
    let mut done = 0;
    while done < count {
        let (block, row) = block_at(blocks, at + done);
        let (other, other_row) = block_at(others, from + done);
        let rest = (block.tags().len() - row).min(other.tags().len() - other_row);
        let many = rest.min(count - done);
        if !block.has_rows_of(row, other, other_row, many) {
            return false;
        }
        done += many;
    }
    true
}

impl Table {
    /// Whether there are so many rows from an index on.
    pub(crate) fn reaches(&self, at: usize, count: usize) -> bool
        ensures within { IsTrue result ↔ (at + count ≤ finite.len self.now.rows) }
        ensures few { result ≡ true → at + count ≤ 2 ^ 60 }
    {
        let len = self.len();
        at <= len && count <= len - at
    }

    /// Whether so many rows from an index on are those of another table from an index on, with their tags. No cell is
    /// copied, and blocks are looked for once for each part that lies in one block of both tables.
    pub fn has_rows_of(&self, at: usize, other: &Table, from: usize, count: usize) -> bool
        ensures within { result ≡ true → at + count ≤ finite.len self.now.rows }
        ensures within_other { result ≡ true → from + count ≤ finite.len other.now.rows }
        ensures rows { result ≡ true →
            AreThose (finite.entries self.now.rows) at (finite.entries other.now.rows) from count }
        ensures alike { at + count ≤ finite.len self.now.rows
            → from + count ≤ finite.len other.now.rows
            → AreThose (finite.entries self.now.rows) at (finite.entries other.now.rows) from count
            → result ≡ true }
    {
        if !self.reaches(at, count) || !other.reaches(from, count) {
            return false;
        }
        are_rows_of(self.blocks(), at, other.blocks(), from, count)
    }
}
