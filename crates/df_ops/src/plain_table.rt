//! Plain tables.
ghost use Rattle.std.specs.Prelude.{◌≡◌, IfOk, Ok};

use df_value::{CellType, List, Row, Text, both};
use std::alloc::AllocError;

/// Rows under columns of these names and types.
#[derive(Drop)]
pub struct PlainTable {
    pub columns: List<(Text, CellType)>,
    pub rows: List<Row>,
}

/// The table of these columns and rows, where both were made.
pub fn table_from(
    columns: Result<List<(Text, CellType)>, AllocError>,
    rows: Result<List<Row>, AllocError>,
) -> Result<PlainTable, AllocError>
    ensures columns { IfOk result (λ t. columns ≡ Ok t.columns) }
    ensures rows { IfOk result (λ t. rows ≡ Ok t.rows) }
{
    let (columns, rows) = both(columns, rows)?;
    Ok(PlainTable { columns, rows })
}
