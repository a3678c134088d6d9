//! Columns of cells.
ghost use Rattle.std.specs.Prelude.{◌≡◌, ◌<◌, ◌≤◌, ◌+◌, ◌-◌, [], IfOk, length, slice_index_or};
ghost use Rattle.df_value.specs.CellEq.{cell_eq};
ghost use Rattle.df_value.specs.declared.cell.Cell.{Cell};
ghost use Rattle.df_column.specs.Columns.{column_cells, dtype_of_column};
ghost use Rattle.df_column.specs.Picks.{AreFit, AreWithin, picked_cells, spliced};
ghost use Rattle.df_column.specs.Sizes.{most_rows};

use crate::masked::Masked;
use crate::picks::Pick;
use crate::texts::Texts;
use df_value::{Cell, CellType, Frac};
use std::alloc::{AllocError, Global};

/// The cells of one column of a block, all null or of one type.
pub enum Column {
    Int(Masked<i64>),
    Wide(Masked<i128>),
    Text(Texts),
    Bool(Masked<bool>),
    Frac(Masked<Frac>),
}

// A body that owns one drops it by a call.
impl Drop for Column {
    fn drop(self) {
        match self {
            Column::Int(cells) => drop(cells),
            Column::Wide(cells) => drop(cells),
            Column::Text(cells) => drop(cells),
            Column::Bool(cells) => drop(cells),
            Column::Frac(cells) => drop(cells),
        }
    }
}

impl Column {
    /// What the cells are.
    pub fn dtype(&self) -> CellType
        ensures { result ≡ dtype_of_column self.now }
    {
        match self {
            Column::Int(_) => CellType::Int,
            Column::Wide(_) => CellType::Wide,
            Column::Text(_) => CellType::Text,
            Column::Bool(_) => CellType::Bool,
            Column::Frac(_) => CellType::Frac,
        }
    }

    /// A column of no cells.
    pub fn new(alloc: Global, dtype: CellType) -> Column
        ensures cells { column_cells result ≡ [] }
        ensures dtype { dtype_of_column result ≡ dtype }
    {
        match dtype {
            CellType::Int => Column::Int(Masked::new(alloc)),
            CellType::Wide => Column::Wide(Masked::new(alloc)),
            CellType::Text => Column::Text(Texts::new(alloc)),
            CellType::Bool => Column::Bool(Masked::new(alloc)),
            CellType::Frac => Column::Frac(Masked::new(alloc)),
        }
    }

    /// A copy of the cell at this index.
    pub fn cell(&self, alloc: Global, at: usize) -> Result<Cell, AllocError>
        requires { at < length (column_cells self.now) }
        ensures { IfOk result (λ c. (d : Cell) → c ≡ slice_index_or (column_cells self.now) at d) }
    {
        match self {
            Column::Int(values) => Ok(values.cell(at)),
            Column::Wide(values) => Ok(values.cell(at)),
            Column::Text(texts) => texts.cell(alloc, at),
            Column::Bool(values) => Ok(values.cell(at)),
            Column::Frac(values) => Ok(values.cell(at)),
        }
    }

    /// Whether the cell at this index is this one.
    pub fn is_cell(&self, at: usize, cell: &Cell) -> bool
        requires { at < length (column_cells self.now) }
        ensures { (d : Cell) → result ≡ cell_eq (slice_index_or (column_cells self.now) at d) cell.now }
    {
        match self {
            Column::Int(values) => values.cell(at) == *cell,
            Column::Wide(values) => values.cell(at) == *cell,
            Column::Text(texts) => texts.is_cell(at, cell),
            Column::Bool(values) => values.cell(at) == *cell,
            Column::Frac(values) => values.cell(at) == *cell,
        }
    }

    /// The cells up to one index, those of the picked rows, and the cells from another index on. A picked row is an old one,
    /// or a new one whose cell stands at the column's index.
    pub(crate) fn spliced(
        &self,
        alloc: Global,
        low: usize,
        high: usize,
        at: usize,
        picks: &[Pick<'_>],
    ) -> Result<Column, AllocError>
        requires ordered { low ≤ high }
        requires in_range { high ≤ length (column_cells self.now) }
        requires within { AreWithin (length (column_cells self.now)) picks.now }
        requires fits { AreFit (dtype_of_column self.now) at picks.now }
        requires few { low + length picks.now + (length (column_cells self.now) - high) ≤ most_rows }
        ensures cells { IfOk result (λ c. column_cells c ≡
            spliced low high (picked_cells (column_cells self.now) at picks.now) (column_cells self.now)) }
        ensures dtype { IfOk result (λ c. dtype_of_column c ≡ dtype_of_column self.now) }
    {
        match self {
            Column::Int(values) => Ok(Column::Int(values.spliced(alloc, low, high, at, picks)?)),
            Column::Wide(values) => Ok(Column::Wide(values.spliced(alloc, low, high, at, picks)?)),
            Column::Text(texts) => Ok(Column::Text(texts.spliced(alloc, low, high, at, picks)?)),
            Column::Bool(values) => Ok(Column::Bool(values.spliced(alloc, low, high, at, picks)?)),
            Column::Frac(values) => Ok(Column::Frac(values.spliced(alloc, low, high, at, picks)?)),
        }
    }
}
