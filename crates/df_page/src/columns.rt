//! How the columns of a table are shown.
ghost use Rattle.std.specs.Prelude.{◌≡◌, IfOk, length};
ghost use Rattle.df_value.specs.CellRefs.{cell_of_ref};
ghost use Rattle.df_page.specs.Bars as shown;

use df_value::{CellRef, CellType, Row, Text};
use std::alloc::{AllocError, Global};

/// What of a column its cells are shown by.
#[derive(Clone, Copy)]
pub struct Column {
    /// Whether its cells are numbers, which stand at the right.
    pub is_number: bool,
    /// The greatest absolute value of a whole number in it.
    pub greatest: u128,
    /// Whether a whole number in it is below 0.
    pub has_negative: bool,
}

/// How the columns of a table are shown.
pub fn columns_of(
    alloc: Global,
    schema: &[(Text, CellType)],
    rows: &[Row],
) -> Result<Vec<Column>, AllocError>
    ensures value { IfOk result (λ v. v.items ≡ shown.columns_of schema.now rows.now) }
{
    let mut columns = Vec::with_capacity(alloc, schema.len())?;
    for at in 0..schema.len() {
        columns.push(column_at(at, schema[at].1, rows))?;
    }
    Ok(columns)
}

fn column_at(at: usize, dtype: CellType, rows: &[Row]) -> Column
    ensures { result ≡ shown.column_at at dtype rows.now }
{
    Column {
        is_number: is_number(dtype),
        greatest: greatest_at(at, rows),
        has_negative: is_any_negative(at, rows),
    }
}

/// Whether the cells of a column of this type are numbers.
pub fn is_number(dtype: CellType) -> bool
    ensures { result ≡ shown.is_number dtype }
{
    match dtype {
        CellType::Int | CellType::Wide | CellType::Frac => true,
        CellType::Text | CellType::Bool => false,
    }
}

fn greatest_at(at: usize, rows: &[Row]) -> u128
    ensures { result ≡ shown.greatest_at at rows.now }
{
    let mut greatest = 0;
    for row in rows {
        greatest = size_of(row.cell_at(Some(at))).max(greatest);
    }
    greatest
}

fn size_of(cell: CellRef<'_>) -> u128
    ensures { result ≡ shown.size_of (cell_of_ref cell.entry) }
{
    match cell {
        CellRef::Int(n) => u128::from(n.unsigned_abs()),
        CellRef::Wide(n) => n.unsigned_abs(),
        CellRef::Null | CellRef::Text(_) | CellRef::Bool(_) | CellRef::Frac(_) => 0,
    }
}

fn is_any_negative(at: usize, rows: &[Row]) -> bool
    ensures { result ≡ shown.is_any_negative at rows.now }
{
    rows.iter().any(|row| is_below_zero(row.cell_at(Some(at))))
}

fn is_below_zero(cell: CellRef<'_>) -> bool
    ensures { result ≡ shown.is_below_zero (cell_of_ref cell.entry) }
{
    match cell {
        CellRef::Int(n) => n.is_negative(),
        CellRef::Wide(n) => n.is_negative(),
        CellRef::Null | CellRef::Text(_) | CellRef::Bool(_) | CellRef::Frac(_) => false,
    }
}
