//! The table of a view in a version, whose rows are read one by one.
ghost use Rattle.std.specs.Prelude.{◌≡◌, IfOk, IfSome, length, option_map, slice_get};
ghost use Rattle.df_state.specs.Pictures.{rows_in};

use crate::view_rows::ViewRow;
use df_column::Table;
use df_value::{Row, Schema};
use std::alloc::{AllocError, Global};

/// A view in one version, with its columns. No row is copied before it is asked for.
#[derive(Clone, Copy)]
pub struct ViewTable<'a> {
    pub schema: &'a Schema,
    pub table: &'a Table,
}

/// A row of a view, with the view's columns.
pub struct OwnedRow<'a> {
    pub schema: &'a Schema,
    pub row: Row,
}

// A body that owns one drops it by a call.
impl<'a> Drop for OwnedRow<'a> {
    fn drop(self) {
        let OwnedRow { schema: _, row } = self;
        drop(row);
    }
}

impl<'a> OwnedRow<'a> {
    /// The row, lent.
    pub fn lent(&self) -> ViewRow<'_>
        ensures { (result.schema.now ≡ self.now.schema.now) × (result.row.now ≡ self.now.row) }
    {
        ViewRow {
            schema: self.schema,
            row: &self.row,
        }
    }
}

impl<'a> ViewTable<'a> {
    /// How many rows there are.
    pub fn len(&self) -> usize
        ensures { result ≡ length (rows_in self.now.table.now) }
    {
        self.table.len()
    }

    /// A copy of the row at this place, from 0, if there is one. No other row is read.
    pub fn row(&self, alloc: Global, at: usize) -> Result<Option<OwnedRow<'a>>, AllocError>
        ensures row { IfOk result (λ made.
            option_map (λ r. r.row) made ≡ slice_get (rows_in self.now.table.now) at) }
        ensures columns { IfOk result (λ made.
            IfSome made (λ r. r.schema.now ≡ self.now.schema.now)) }
    {
        if at >= self.table.len() {
            return Ok(None);
        }
        let row = self.table.row(alloc, at)?;
        Ok(Some(OwnedRow {
            schema: self.schema,
            row,
        }))
    }
}
