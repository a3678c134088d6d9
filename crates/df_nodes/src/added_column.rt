//! The schema of rows with one more column.
ghost use Rattle.std.specs.Prelude.{◌≡◌, ◌∷◌, [], IfOk};
ghost use Rattle.df_value.specs.Schemas.{IsSchema};
ghost use Rattle.df_ops.specs.NamedColumns.{with_columns};

use df_ops::columns_with;
use df_value::{CellType, Schema, Text};
use std::alloc::{AllocError, Global};

/// The schema with one more column: in the place of the one of its name, else last.
pub fn schema_with(
    alloc: Global,
    schema: &Schema,
    name: &Text,
    dtype: CellType,
) -> Result<Schema, AllocError>
    requires { IsSchema (with_columns schema.now ((name.now, dtype) ∷ [])) }
    ensures { IfOk result (λ s. s ≡ with_columns schema.now ((name.now, dtype) ∷ [])) }
{
    let columns = columns_with(alloc, schema.columns().as_slice(), name, dtype)?;
    match Schema::new(columns) {
        Ok(schema) => Ok(schema),
        Err(_) => unreachable!(),
    }
}
