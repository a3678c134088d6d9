//! The rows of a view, with its columns by name.
ghost use Rattle.std.specs.Prelude.{◌≡◌, IfErr, IfOk, Err, Ok, length, map};
ghost use Rattle.std.specs.Option.{option_copied};
ghost use Rattle.df_state.specs.Answers.{AnswersMemoryLast};
ghost use Rattle.df_state.specs.Pictures as pictures;
ghost use Rattle.dataframes.specs.ViewRows.{cell_named, int_of, text_of};

use df_catalogue::CatalogueFault;
use df_value::{Cell, List, Row, Schema, index_of_name};
use df_versions::Version;
use std::alloc::Global;

/// The rows of a view in one version, and its columns.
pub struct ViewRows<'p> {
    pub schema: &'p Schema,
    pub rows: List<Row>,
}

// A body that owns one drops it by a call.
impl<'p> Drop for ViewRows<'p> {
    fn drop(self) {
        let ViewRows { schema: _, rows } = self;
        drop(rows);
    }
}

/// A row of a view, lent with the view's columns.
#[derive(Clone, Copy)]
pub struct ViewRow<'a> {
    pub schema: &'a Schema,
    pub row: &'a Row,
}

impl<'p> ViewRows<'p> {
    /// The rows of the view of this name, whose columns are given, or that the version has no view of this name.
    pub fn read(
        alloc: Global,
        version: &Version,
        name: &str,
        schema: &'p Schema,
    ) -> Result<ViewRows<'p>, CatalogueFault>
        ensures rows { IfOk result (λ view.
            pictures.view_rows_in version.now.1 name.now ≡ Ok view.rows) }
        ensures schema { IfOk result (λ view. view.schema.now ≡ schema.now) }
        ensures refused { IfErr result (λ fault.
            AnswersMemoryLast (pictures.view_rows_in version.now.1 name.now) (Err fault)) }
    {
        match version.view_rows(alloc, name) {
            Ok(rows) => Ok(ViewRows { schema, rows }),
            Err(fault) => Err(fault),
        }
    }

    /// The first row with this text in the column of this name, if there is one.
    pub fn find(&self, column: &str, text: &str) -> Option<ViewRow<'_>> {
        for row in self.rows.as_slice() {
            let row = ViewRow {
                schema: self.schema,
                row,
            };
            if row.text(column) == Some(text) {
                return Some(row);
            }
        }
        None
    }

    /// How many rows there are.
    pub fn len(&self) -> usize
        ensures { result ≡ length self.now.rows }
    {
        self.rows.len()
    }

    /// The row at this place, from 0, if there is one.
    pub fn row(&self, at: usize) -> Option<ViewRow<'_>> {
        match self.rows.get(at) {
            Some(row) => Some(ViewRow {
                schema: self.schema,
                row,
            }),
            None => None,
        }
    }
}

impl<'a> ViewRow<'a> {
    /// The cell in the column of this name, if there is such a column.
    pub fn cell(&self, name: &str) -> Option<&'a Cell>
        ensures { option_copied result
            ≡ cell_named self.now.schema.now self.now.row.now name.now }
    {
        let at = index_of_name(self.schema.columns().as_slice(), name)?;
        self.row.get(at)
    }

    /// The whole number in the column of this name, where its cell is an Int or a Wide.
    pub fn int(&self, name: &str) -> Option<i128>
        ensures { result ≡ int_of (cell_named self.now.schema.now self.now.row.now name.now) }
    {
        match self.cell(name) {
            Some(Cell::Int(value)) => Some(i128::from(*value)),
            Some(Cell::Wide(value)) => Some(*value),
            _ => None,
        }
    }

    /// The text in the column of this name, where its cell is one.
    pub fn text(&self, name: &str) -> Option<&'a str>
        ensures { option_copied result
            ≡ text_of (cell_named self.now.schema.now self.now.row.now name.now) }
    {
        match self.cell(name) {
            Some(Cell::Text(text)) => Some(text.as_str()),
            _ => None,
        }
    }
}
