//! Changes of rows.
ghost use Rattle.std.specs.Prelude.{◌≡◌};
ghost use Rattle.df_column.specs.Tables.{new_row_fits, new_rows_fit};

use crate::tag::Tag;
use df_value::{Row, Schema};

/// A change of one row of a table: what stood at the tag, and what stands there afterwards.
pub struct Entry {
    pub tag: Tag,
    pub old: Option<Row>,
    pub new: Option<Row>,
}

// A body that owns one drops it by a call.
impl Drop for Entry {
    fn drop(self) {
        let Entry { tag: _, old, new } = self;
        drop(old);
        drop(new);
    }
}

/// Whether the new row of each entry fits the schema.
pub fn are_fitting(schema: &Schema, entries: &[Entry]) -> bool
    ensures { result ≡ new_rows_fit schema.now entries.now }
{
    entries.iter().all(|entry| is_fitting(schema, entry))
}

fn is_fitting(schema: &Schema, entry: &Entry) -> bool
    ensures { result ≡ new_row_fits schema.now entry.now.new }
{
    match &entry.new {
        Some(row) => schema.fits(row),
        None => true,
    }
}
