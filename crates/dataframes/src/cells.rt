//! Columns and rows in short.
ghost use Rattle.std.specs.Prelude.{◌≡◌, IfOk};
ghost use Rattle.dataframes.specs.Cells.{columns_lent, row_lent};

use df_value::{CellRef, CellType, List, Row, Text};
use std::alloc::{AllocError, Global};

/// The row of these cells. It copies their texts.
pub fn row_of(alloc: Global, cells: &[CellRef<'_>]) -> Result<Row, AllocError>
    ensures { IfOk result (λ row. row ≡ row_lent cells.now) }
{
    let mut owned = Vec::with_capacity(alloc, cells.len())?;
    for cell in cells {
        owned.push(cell.to_cell(alloc)?)?;
    }
    Row::new(alloc, owned)
}

/// Columns with copies of these names.
pub(crate) fn columns_of(
    alloc: Global,
    columns: &[(&str, CellType)],
) -> Result<List<(Text, CellType)>, AllocError>
    ensures { IfOk result (λ owned. owned ≡ columns_lent columns.now) }
{
    let mut owned = Vec::with_capacity(alloc, columns.len())?;
    for (name, dtype) in columns {
        owned.push((Text::from_str(alloc, name)?, *dtype))?;
    }
    Ok(List::from_vec(owned))
}
