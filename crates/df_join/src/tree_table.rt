//! Tables whose rows stand in a sequence that finds them by tag.
ghost use Rattle.std.specs.Prelude.{◌≡◌, ◌==◌, IfOk, None, OnOk, Some};
ghost use Rattle.std.specs.FinMap as finite;
ghost use Rattle.df_column.specs.Changes.{set_at};

mod edits;
mod tagged_row;

use df_column::Tag;
use df_tree::Seq;
use df_value::{Duplicate, Row, Schema, Shared};
use edits::{put_row, take_row};
use std::alloc::{AllocError, Global};
use std::marker::Model;
use tagged_row::TaggedRow;

/// Rows by rising tags, of a schema that no row is checked against. Contracts see them as they see a
/// [`Table`](df_column::Table).
///
/// To put a row there or to take one away goes by the logarithm of the number of rows, and is done in place where no other
/// table has the row's neighbours. A table that was made shared is copied at once; one that was changed since then is copied
/// node by node, as far as it was changed.
pub struct TreeTable {
    schema: Shared<Schema>,
    rows: Seq<TaggedRow>,
}

// A body that owns one drops it by a call.
impl Drop for TreeTable {
    fn drop(self) {
        let TreeTable { schema, rows } = self;
        drop(schema);
        drop(rows);
    }
}

impl Model for TreeTable {
    ghost use Rattle.std.specs.Prelude.{T};
    ghost use Rattle.std.specs.FinMap as finite;
    ghost use Rattle.df_column.specs.Tables.{TableParts, table_code};
    ghost use Rattle.df_column.specs.Tags.{tag_cmp};
    ghost use Rattle.df_tree.specs.Leaves.{items_in};

    ghost Value = { TableParts };

    ghost coded = { table_code };

    ghost view = { λ t. record
        { schema = t.schema; rows = finite.from_sorted (items_in t.rows) } };

    ghost invariant = { λ t. T (finite.is_sorted tag_cmp (items_in t.rows)) };
}

impl TreeTable {
    /// No rows, of this schema.
    pub fn new(alloc: Global, schema: Schema) -> Result<TreeTable, AllocError>
        ensures schema { IfOk result (λ t. t.schema ≡ schema) }
        ensures rows { IfOk result (λ t. t.rows ≡ finite.empty) }
    {
        let mut rows = Seq::empty(alloc)?;
        rows.make_shared(alloc)?;
        Ok(TreeTable {
            schema: Shared::new(alloc, schema)?,
            rows,
        })
    }

    /// Whether there is no row.
    pub fn is_empty(&self) -> bool
        ensures { result ≡ (finite.len self.now.rows == 0) }
    {
        self.rows.len() == 0
    }

    /// The same table once more. It takes no memory where the table was made shared.
    pub fn share(&self, alloc: Global) -> Result<TreeTable, AllocError>
        ensures { IfOk result (λ t. t ≡ self.now) }
    {
        let schema = self.schema.copy(alloc)?;
        let rows = self.rows.copied(alloc)?;
        Ok(TreeTable { schema, rows })
    }

    /// Makes the table one that is copied at once.
    pub fn make_shared(&mut self, alloc: Global) -> Result<(), AllocError>
        ensures { self.new ≡ self.old }
    {
        self.rows.make_shared(alloc)
    }

    /// Puts this row at the tag. Where memory is refused the table stays.
    pub fn put(&mut self, alloc: Global, tag: Tag, row: Row) -> Result<(), AllocError>
        ensures { OnOk result (self.new ≡ record
            { schema = self.old.schema; rows = set_at self.old.rows tag (Some row) }) }
    {
        put_row(&mut self.rows, alloc, TaggedRow::new(tag, row))
    }

    /// Takes the row at the tag out, if there is one. Where memory is refused the table stays.
    pub fn take(&mut self, alloc: Global, tag: Tag) -> Result<(), AllocError>
        ensures { OnOk result (self.new ≡ record
            { schema = self.old.schema; rows = set_at self.old.rows tag None }) }
    {
        take_row(&mut self.rows, alloc, tag)
    }

    /// The tags with copies of their rows, by rising tag.
    pub fn tagged_rows(&self, alloc: Global) -> Result<Vec<(Tag, Row)>, AllocError>
        ensures { IfOk result (λ v. v.items ≡ finite.entries self.now.rows) }
    {
        let count = self.rows.len();
        let mut out = Vec::with_capacity(alloc, count)?;
        for index in 0..count {
            let row = self.rows.get(index);
            out.push((row.tag(), row.row().copy(alloc)?))?;
        }
        Ok(out)
    }
}
