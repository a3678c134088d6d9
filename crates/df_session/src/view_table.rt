//! The table of a view.
ghost use Rattle.std.specs.Prelude.{◌≡◌, IfOk};

use df_column::Table;
use df_value::{Duplicate, Schema, Text};
use std::alloc::{AllocError, Global};

/// The table of a view at one moment, under the view's name, and the schema of its plan.
pub struct ViewTable {
    pub name: Text,
    pub schema: Schema,
    pub table: Table,
}

// A body that owns one drops it by a call.
impl Drop for ViewTable {
    fn drop(self) {
        let ViewTable {
            name,
            schema,
            table,
        } = self;
        drop(name);
        drop(schema);
        drop(table);
    }
}

impl ViewTable {
    /// That of these, which shares the blocks of the table.
    pub fn new(
        alloc: Global,
        name: &str,
        schema: &Schema,
        table: &Table,
    ) -> Result<ViewTable, AllocError>
        ensures name { IfOk result (λ v. v.name ≡ name.now) }
        ensures schema { IfOk result (λ v. v.schema ≡ schema.now) }
        ensures table { IfOk result (λ v. v.table ≡ table.now) }
    {
        let name = Text::from_str(alloc, name)?;
        let schema = schema.copy(alloc)?;
        let table = table.share(alloc)?;
        Ok(ViewTable {
            name,
            schema,
            table,
        })
    }
}
