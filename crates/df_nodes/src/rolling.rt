//! A rolling column among the cells of rows.
ghost use Rattle.std.specs.Prelude.{◌≡◌, ◌≤◌, IfOk};
ghost use Rattle.df_column.specs.Tables.{TaggedRows};
ghost use Rattle.df_nodes.specs.Outputs.{rolled};

use df_ops::{Place, RollKind, placed_row, places_with, rolling_dtype};
use df_value::{Cell, List, Row, Schema, Text};
use std::alloc::{AllocError, Global};

/// What a rolling column takes of which cells, and where its own cell stands. Its window has at least one row.
pub struct Rolling {
    pub kind: RollKind,
    pub index: Option<usize>,
    pub w: usize,
    pub m: usize,
    pub places: List<Place>,
    ghost some: { 1 ≤ w },
}

// A body that owns one drops it by a call.
impl Drop for Rolling {
    fn drop(self) {
        let Rolling {
            kind: _,
            index: _,
            w: _,
            m: _,
            places,
        } = self;
        drop(places);
    }
}

impl Rolling {
    ghost use Rattle.df_nodes.specs.Rolling.{put_at, rolling_output};

    /// The rolling values of a column of this schema over w rows, of which m are to be not null.
    pub fn new(
        alloc: Global,
        schema: &Schema,
        output: &Text,
        kind: RollKind,
        column: &Text,
        w: usize,
        m: usize,
    ) -> Result<Rolling, AllocError>
        requires { 1 ≤ w }
        ensures output { IfOk result (λ r. (t : TaggedRows) →
            rolling_output r t ≡ rolled schema.now output.now kind column.now w m t) }
        ensures size { IfOk result (λ r. r.w ≡ w) }
    {
        let places = places_with(
            alloc,
            schema.columns().as_slice(),
            output,
            rolling_dtype(kind),
        )?;
        Ok(Rolling {
            kind,
            index: schema.position(column),
            w,
            m,
            places: List::from_vec(places),
        })
    }

    /// The row with the column's cell.
    pub fn row_with(&self, alloc: Global, row: &Row, cell: Cell) -> Result<Row, AllocError>
        ensures { IfOk result (λ r. r ≡ put_at self.now.places row.now cell) }
    {
        let added = [cell];
        let row = placed_row(alloc, self.places.as_slice(), row.as_slice(), &added)?;
        Ok(row)
    }
}
