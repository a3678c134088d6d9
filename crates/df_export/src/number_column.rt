//! The name of the column of the rows' numbers.
ghost use Rattle.std.specs.Prelude.{◌≡◌, IfOk, string_bytes};
ghost use Rattle.std.specs.List.{list_any};
ghost use Rattle.std.specs.Str.{bytes_eq};
ghost use Rattle.df_export.specs.Numbered as numbered;

use df_value::{CellType, Text};
use std::alloc::{AllocError, Global};

/// A name for a column of row numbers beside these columns: `number`, with as many underscores as
/// it takes.
pub fn number_name(alloc: Global, columns: &[(Text, CellType)]) -> Result<String, AllocError>
    ensures { IfOk result (λ s. string_bytes s ≡ numbered.number_name columns.now) }
{
    let mut name = String::from_str(alloc, "number")?;
    for _ in 0..columns.len() {
        if !is_name_of(name.as_str(), columns) {
            return Ok(name);
        }
        name.push('_')?;
    }
    Ok(name)
}

// Whether a column has this name.
fn is_name_of(name: &str, columns: &[(Text, CellType)]) -> bool
    ensures { result ≡ list_any (λ c. bytes_eq c.0 name.now) columns.now }
{
    columns.iter().any(|c| c.0.as_str() == name)
}
