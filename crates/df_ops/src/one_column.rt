//! Putting a column of further cells among those of a table.
ghost use Rattle.std.specs.Prelude.{ℕ, List, ◌≡◌, ◌∷◌, [], IfOk};
ghost use Rattle.df_value.specs.declared.cell.CellType.{CellType as AnyType};
ghost use Rattle.df_value.specs.Schemas.{Columns};
ghost use Rattle.df_ops.specs.NamedColumns as named_columns_spec;
ghost use Rattle.df_ops.specs.Places as places_spec;
ghost use Rattle.df_ops.specs.Tables as tables;
ghost use Rattle.df_ops.specs.RowWise as row_wise_spec;

use crate::named_columns::with_columns;
use crate::places::{Place, placed_row, places_of};
use crate::plain_table::{PlainTable, table_from};
use df_value::{Cell, CellType, Duplicate, List, Row, Text, push_made};
use std::alloc::{AllocError, Global};

/// The table with a column of these cells, in the place of the column of its name or at the end.
#[tactic(auto, unfolding(crate::specs::Tables::with_column_table))]
pub fn with_column_table(
    alloc: Global,
    table: &PlainTable,
    name: &Text,
    dtype: CellType,
    cells: &[Cell],
) -> Result<PlainTable, AllocError>
    ensures { IfOk result (λ t. t ≡ tables.with_column_table table.now name.now dtype cells.now) }
{
    let columns = table.columns.as_slice();
    let rows = with_column_rows(alloc, columns, name, dtype, table.rows.as_slice(), cells);
    table_from(columns_with(alloc, columns, name, dtype), rows)
}

/// The columns with one more put among them: in the place of the one of its name, else last.
pub fn columns_with(
    alloc: Global,
    columns: &[(Text, CellType)],
    name: &Text,
    dtype: CellType,
) -> Result<List<(Text, CellType)>, AllocError>
    ensures { IfOk result
        (λ cs. cs ≡ named_columns_spec.with_columns columns.now ((name.now, dtype) ∷ [])) }
{
    let added = [(name.copy(alloc)?, dtype)];
    with_columns(alloc, columns, &added)
}

fn with_column_rows(
    alloc: Global,
    columns: &[(Text, CellType)],
    name: &Text,
    dtype: CellType,
    rows: &[Row],
    cells: &[Cell],
) -> Result<List<Row>, AllocError>
    ensures { IfOk result
        (λ r. r ≡ row_wise_spec.with_column_rows columns.now name.now rows.now cells.now) }
{
    let places = places_with(alloc, columns, name, dtype)?;
    let mut out = Vec::with_capacity(alloc, rows.len())?;
    for (row, cell) in rows.iter().zip(cells) {
        push_made(
            &mut out,
            with_column_row(alloc, places.as_slice(), row, cell),
        )?;
    }
    Ok(List::from_vec(out))
}

/// The places of a row's cells with one more put among them, made once for all rows.
pub fn places_with(
    alloc: Global,
    columns: &[(Text, CellType)],
    name: &Text,
    dtype: CellType,
) -> Result<Vec<Place>, AllocError>
    ensures { IfOk result
        (λ p. p.items ≡ places_spec.places_of columns.now ((name.now, dtype) ∷ [])) }
{
    let added = [(name.copy(alloc)?, dtype)];
    places_of(alloc, columns, &added)
}

/// The row with one more cell put among its own.
pub fn with_column_row(
    alloc: Global,
    places: &[Place],
    row: &Row,
    cell: &Cell,
) -> Result<Row, AllocError>
    ensures { (columns : Columns) (name : List ℕ) (dtype : AnyType)
        → places.now ≡ places_spec.places_of columns ((name, dtype) ∷ [])
        → IfOk result (λ r. r ≡ row_wise_spec.with_column_row columns name row.now cell.now) }
{
    let added = [cell.copy(alloc)?];
    placed_row(alloc, places, row.as_slice(), &added)
}
