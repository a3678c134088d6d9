//! The fields of a CSV file as cells.
ghost use Rattle.std.specs.Prelude.{◌≡◌, IfOk};
ghost use Rattle.df_csv.specs.Fields.{bool_of_text, cell_of_text, int_of_text};

use df_value::{Cell, CellType, Text};
use std::alloc::{AllocError, Global};

/// The integer that a text writes.
fn int_of(text: &str) -> Option<i64>
    ensures { result ≡ int_of_text text.now }
{
    text.parse::<i64>().ok()
}

/// The Boolean that a text names.
fn bool_of(text: &str) -> Option<bool>
    ensures { result ≡ bool_of_text text.now }
{
    if text.eq_ignore_ascii_case("true") {
        return Some(true);
    }
    if text.eq_ignore_ascii_case("false") {
        return Some(false);
    }
    None
}

/// The cell of a field in a column of this type: null where it is empty, and `None` where it is no
/// value of the type.
pub fn cell_of(alloc: Global, dtype: CellType, field: &str) -> Result<Option<Cell>, AllocError>
    ensures { IfOk result (λ cell. cell ≡ cell_of_text dtype field.now) }
{
    if field.is_empty() {
        return Ok(Some(Cell::Null));
    }
    match dtype {
        CellType::Int => Ok(int_of(field).map(Cell::Int)),
        CellType::Bool => Ok(bool_of(field).map(Cell::Bool)),
        CellType::Text => Ok(Some(Cell::Text(Text::from_str(alloc, field)?))),
        CellType::Wide | CellType::Frac => Ok(None),
    }
}
