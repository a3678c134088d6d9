//! Comparisons of the cells of a column. They take no memory.
ghost use Rattle.std.specs.Prelude.{◌≡◌, ◌<◌, ◌&&◌, length, map, slice_index_or};
ghost use Rattle.df_value.specs.CellOrder.{cell_cmp};
ghost use Rattle.df_value.specs.declared.cell.Cell.{Cell};
ghost use Rattle.df_column.specs.Columns.{column_cells};
ghost use Rattle.df_column.specs.MinMaxCells as min_max;
ghost use Rattle.df_column.specs.MinMaxCells.{is_above};
ghost use Rattle.df_column.specs.Texts.{text_now};
ghost use Rattle.df_column.specs.ValueCells.{text_cell};

use crate::column::Column;
use crate::min_max_search::Ranked;
use crate::texts::Texts;
use df_value::Cell;
use std::cmp::Ordering;

/// How two texts compare as cells, where no text is null.
pub(crate) fn compare_texts(a: Option<&str>, b: Option<&str>) -> Ordering
    ensures { result ≡ cell_cmp (text_cell (text_now a.entry)) (text_cell (text_now b.entry)) }
{
    match (a, b) {
        (Some(a), Some(b)) => a.cmp(b),
        (Some(_), None) => Ordering::Greater,
        (None, Some(_)) => Ordering::Less,
        (None, None) => Ordering::Equal,
    }
}

/// How a text compares with a cell, where no text is null.
fn compare_text(text: Option<&str>, cell: &Cell) -> Ordering
    ensures { result ≡ cell_cmp (text_cell (text_now text.entry)) cell.now }
{
    match (text, cell) {
        (Some(text), Cell::Text(other)) => text.cmp(other.as_str()),
        (Some(_), Cell::Null) => Ordering::Greater,
        (Some(_), Cell::Int(_)) => Ordering::Greater,
        (Some(_), Cell::Wide(_)) => Ordering::Greater,
        (Some(_), Cell::Bool(_)) => Ordering::Less,
        (Some(_), Cell::Frac(_)) => Ordering::Less,
        (None, Cell::Null) => Ordering::Equal,
        (None, _) => Ordering::Less,
    }
}

impl Texts {
    /// How the cell at this index compares with another.
    fn compare_with(&self, at: usize, cell: &Cell) -> Ordering
        requires { at < length (map text_cell self.now) }
        ensures { (d : Cell) → result ≡ cell_cmp (slice_index_or (map text_cell self.now) at d) cell.now }
    {
        compare_text(self.get(at), cell)
    }
}

impl Column {
    /// Whether the cell at this index is null.
    pub(crate) fn is_null(&self, at: usize) -> bool
        requires { at < length (column_cells self.now) }
        ensures { (d : Cell) → result ≡ min_max.is_null (slice_index_or (column_cells self.now) at d) }
    {
        match self {
            Column::Int(values) => values.is_null(at),
            Column::Wide(values) => values.is_null(at),
            Column::Text(texts) => texts.is_null(at),
            Column::Bool(values) => values.is_null(at),
            Column::Frac(values) => values.is_null(at),
        }
    }

    /// How the cell at this index compares with another.
    pub(crate) fn compare_with(&self, at: usize, cell: &Cell) -> Ordering
        requires { at < length (column_cells self.now) }
        ensures { (d : Cell) → result ≡ cell_cmp (slice_index_or (column_cells self.now) at d) cell.now }
    {
        match self {
            Column::Int(values) => values.cell(at).cmp(cell),
            Column::Wide(values) => values.cell(at).cmp(cell),
            Column::Text(texts) => texts.compare_with(at, cell),
            Column::Bool(values) => values.cell(at).cmp(cell),
            Column::Frac(values) => values.cell(at).cmp(cell),
        }
    }

    /// Whether the cell at this index is not null and above a value.
    pub(crate) fn is_above(&self, at: usize, value: &Cell) -> bool
        requires { at < length (column_cells self.now) }
        ensures { (d : Cell) → result ≡ is_above value.now (slice_index_or (column_cells self.now) at d) }
    {
        !self.is_null(at) && self.compare_with(at, value).is_gt()
    }
}
