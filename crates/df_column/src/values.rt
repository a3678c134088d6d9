//! Values of a fixed size, and their cells.
ghost use Rattle.std.specs.Prelude.{◌≡◌, IsTrue, None, Option, Some, false};
ghost use Rattle.df_value.specs.CellOrder.{cell_cmp};
ghost use Rattle.df_value.specs.Cells.{fits_dtype};
ghost use Rattle.df_value.specs.declared.cell.Cell.{Cell};
ghost use Rattle.df_value.specs.declared.cell.Cell.TheVariants as cell_as;
ghost use Rattle.df_value.specs.declared.cell.CellType.{CellType};
ghost use Rattle.df_value.specs.declared.cell.CellType.TheVariants as dtype_as;
ghost use Rattle.df_column.specs.MinMaxCells.{is_null};
ghost use Rattle.df_column.specs.ValueCells as value_cells;

use df_value::{Cell, Frac};
use std::cmp::Ordering;

/// A value of a fixed size that a cell can hold.
pub trait CellValue: Copy {
    // The type of the cells.
    ghost dtype: { CellType };

    // The cell of a value, or of a null.
    ghost cell_of: { Option Self → Cell };

    /// What stands in the place of a null.
    fn filler() -> Self;

    /// The value of the cell, none for a null.
    fn from_cell(cell: &Cell) -> Option<Self>
        ensures { IsTrue (fits_dtype dtype cell.now) → cell_of result ≡ cell.now };

    /// The cell of the value, or a null.
    fn to_cell(value: Option<Self>) -> Cell
        ensures { result ≡ cell_of value };

    /// How two values compare as cells.
    fn compare(a: Self, b: Self) -> Ordering
        ensures { result ≡ cell_cmp (cell_of (Some a)) (cell_of (Some b)) };

    // The cell of no value is null.
    ghost null: { cell_of None ≡ cell_as.Null };

    // The cell of a value is not null.
    ghost some: { (v : Self) → is_null (cell_of (Some v)) ≡ false };
}

impl CellValue for i64 {
    ghost use Rattle.std.proofs.Common.{refl};

    ghost dtype = { dtype_as.Int };

    ghost cell_of = { value_cells.int_cell };

    ghost null = { refl };

    ghost some = { λ v. refl };

    fn filler() -> i64 {
        0
    }

    fn from_cell(cell: &Cell) -> Option<i64>
        ensures { IsTrue (fits_dtype dtype_as.Int cell.now) → value_cells.int_cell result ≡
            cell.now }
    {
        match cell {
            Cell::Int(value) => Some(*value),
            _ => None,
        }
    }

    fn to_cell(value: Option<i64>) -> Cell
        ensures { result ≡ value_cells.int_cell value }
    {
        match value {
            Some(value) => Cell::Int(value),
            None => Cell::Null,
        }
    }

    fn compare(a: i64, b: i64) -> Ordering
        ensures { result ≡ cell_cmp (value_cells.int_cell (Some a)) (value_cells.int_cell (Some b)) }
    {
        a.cmp(&b)
    }
}

impl CellValue for i128 {
    ghost use Rattle.std.proofs.Common.{refl};

    ghost dtype = { dtype_as.Wide };

    ghost cell_of = { value_cells.wide_cell };

    ghost null = { refl };

    ghost some = { λ v. refl };

    fn filler() -> i128 {
        0
    }

    fn from_cell(cell: &Cell) -> Option<i128>
        ensures { IsTrue (fits_dtype dtype_as.Wide cell.now) → value_cells.wide_cell result ≡
            cell.now }
    {
        match cell {
            Cell::Wide(value) => Some(*value),
            _ => None,
        }
    }

    fn to_cell(value: Option<i128>) -> Cell
        ensures { result ≡ value_cells.wide_cell value }
    {
        match value {
            Some(value) => Cell::Wide(value),
            None => Cell::Null,
        }
    }

    fn compare(a: i128, b: i128) -> Ordering
        ensures { result ≡ cell_cmp (value_cells.wide_cell (Some a)) (value_cells.wide_cell (Some b)) }
    {
        a.cmp(&b)
    }
}

impl CellValue for bool {
    ghost use Rattle.std.proofs.Common.{refl};

    ghost dtype = { dtype_as.Bool };

    ghost cell_of = { value_cells.bool_cell };

    ghost null = { refl };

    ghost some = { λ v. refl };

    fn filler() -> bool {
        false
    }

    fn from_cell(cell: &Cell) -> Option<bool>
        ensures { IsTrue (fits_dtype dtype_as.Bool cell.now) → value_cells.bool_cell result ≡
            cell.now }
    {
        match cell {
            Cell::Bool(value) => Some(*value),
            _ => None,
        }
    }

    fn to_cell(value: Option<bool>) -> Cell
        ensures { result ≡ value_cells.bool_cell value }
    {
        match value {
            Some(value) => Cell::Bool(value),
            None => Cell::Null,
        }
    }

    fn compare(a: bool, b: bool) -> Ordering
        ensures { result ≡ cell_cmp (value_cells.bool_cell (Some a)) (value_cells.bool_cell (Some b)) }
    {
        a.cmp(&b)
    }
}

impl CellValue for Frac {
    ghost use Rattle.std.proofs.Common.{refl};

    ghost dtype = { dtype_as.Frac };

    ghost cell_of = { value_cells.frac_cell };

    ghost null = { refl };

    ghost some = { λ v. refl };

    fn filler() -> Frac {
        Frac::new(0, 1)
    }

    fn from_cell(cell: &Cell) -> Option<Frac>
        ensures { IsTrue (fits_dtype dtype_as.Frac cell.now) → value_cells.frac_cell result ≡
            cell.now }
    {
        match cell {
            Cell::Frac(value) => Some(*value),
            _ => None,
        }
    }

    fn to_cell(value: Option<Frac>) -> Cell
        ensures { result ≡ value_cells.frac_cell value }
    {
        match value {
            Some(value) => Cell::Frac(value),
            None => Cell::Null,
        }
    }

    fn compare(a: Frac, b: Frac) -> Ordering
        ensures { result ≡ cell_cmp (value_cells.frac_cell (Some a)) (value_cells.frac_cell (Some b)) }
    {
        a.cmp(&b)
    }
}
