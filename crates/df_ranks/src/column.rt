//! Which column is ranked, how, and where its ranks stand in a row.
ghost use Rattle.std.specs.Prelude.{◌≡◌, ◌+◌, ◌^◌, ◌<◌, ◌∷◌, [], IfOk, OnOk, pos};
ghost use Rattle.df_value.specs.Rows.{cell_at};
ghost use Rattle.df_value.specs.Schemas as schemas;
ghost use Rattle.df_value.specs.Schemas.{IsSchema};
ghost use Rattle.df_value.specs.declared.cell.Cell.TheVariants as cell;
ghost use Rattle.df_value.specs.declared.cell.CellType.TheVariants as dtype;
ghost use Rattle.df_ops.specs.NamedColumns.{with_columns as columns_with_new};
ghost use Rattle.df_ops.specs.Places as places_spec;
ghost use Rattle.df_ops.specs.RowWise as row_wise;
ghost use Rattle.df_ranks.specs.Counts.{counted_rank};
ghost use Rattle.df_ranks.specs.Known.{AreNumbers};

use crate::known::KnownRanks;
use crate::rises::value_at;
use df_counts::Counts;
use df_ops::{Place, RankKind, columns_with, places_with, with_column_row};
use df_value::{Cell, CellType, Duplicate, Row, Schema, Text, column_index};
use std::alloc::{AllocError, Global};

/// More than any number of rows.
const TOO_MANY: u64 = 4_611_686_018_427_387_904;

/// A column of rows of a schema, the kind of its ranks, and the name under which they are put among the cells.
pub struct RankColumn {
    schema: Schema,
    name: Text,
    kind: RankKind,
    index: Option<usize>,
    places: Vec<Place>,
    ghost placed: { places.items ≡ places_spec.places_of schema ((name, dtype.Int) ∷ []) },
}

// A body that owns one drops it by a call.
impl Drop for RankColumn {
    fn drop(self) {
        let RankColumn {
            schema,
            name,
            kind: _,
            index: _,
            places,
        } = self;
        drop(schema);
        drop(name);
        drop(places);
    }
}

impl RankColumn {
    /// The column in rows of this schema, whose ranks are of this kind and get this name.
    pub fn new(
        alloc: Global,
        schema: &Schema,
        name: &Text,
        column: &Text,
        kind: RankKind,
    ) -> Result<RankColumn, AllocError>
        ensures schema { IfOk result (λ c. c.schema ≡ schema.now) }
        ensures name { IfOk result (λ c. c.name ≡ name.now) }
        ensures kind { IfOk result (λ c. c.kind ≡ kind) }
        ensures index { IfOk result (λ c. c.index ≡ schemas.column_index column.now schema.now) }
    {
        let columns = schema.columns().as_slice();
        let places = places_with(alloc, columns, name, CellType::Int)?;
        Ok(RankColumn {
            schema: schema.copy(alloc)?,
            name: name.copy(alloc)?,
            kind,
            index: column_index(column, columns),
            places,
        })
    }

    /// The index of the column, if there is one.
    pub fn index(&self) -> Option<usize>
        ensures { result ≡ self.now.index }
    {
        self.index
    }

    /// How the ranks count equal values.
    pub fn kind(&self) -> RankKind
        ensures { result ≡ self.now.kind }
    {
        self.kind
    }

    /// The row with its rank by these counts, of which some numbers are known.
    pub fn ranked_row(
        &self,
        alloc: Global,
        counts: &Counts,
        known: &mut KnownRanks,
        row: &Row,
    ) -> Result<Row, AllocError>
        requires { AreNumbers self.now.kind counts.now known.old }
        ensures row { IfOk result (λ r. r ≡ row_wise.with_column_row self.now.schema self.now.name row.now
            (counted_rank self.now.kind counts.now (cell_at self.now.index row.now))) }
        ensures known { OnOk result (AreNumbers self.now.kind counts.now known.new) }
    {
        let rank = rank_at(alloc, self.kind, self.index, counts, known, row)?;
        let row = with_column_row(alloc, &self.places, row, &rank)?;
        Ok(row)
    }
}

/// The schema with a column of ranks of this name put among its columns.
pub fn schema_with_ranks(alloc: Global, schema: &Schema, name: &Text) -> Result<Schema, AllocError>
    requires { IsSchema (columns_with_new schema.now ((name.now, dtype.Int) ∷ [])) }
    ensures { IfOk result (λ s. s ≡ columns_with_new schema.now ((name.now, dtype.Int) ∷ [])) }
{
    let columns = columns_with(alloc, schema.columns().as_slice(), name, CellType::Int)?;
    match Schema::new(columns) {
        Ok(schema) => Ok(schema),
        Err(_) => unreachable!(),
    }
}

/// The rank by these counts of the row's cell at an index.
fn rank_at(
    alloc: Global,
    kind: RankKind,
    index: Option<usize>,
    counts: &Counts,
    known: &mut KnownRanks,
    row: &Row,
) -> Result<Cell, AllocError>
    requires { AreNumbers kind counts.now known.old }
    ensures rank { IfOk result (λ c. c ≡ counted_rank kind counts.now (cell_at index row.now)) }
    ensures known { OnOk result (AreNumbers kind counts.now known.new) }
{
    let Some(value) = value_at(index, row) else {
        return Ok(Cell::Null);
    };
    let number = known.number(alloc, kind, counts, value)?;
    Ok(rank_of_number(number % TOO_MANY))
}

/// The rank behind so much.
fn rank_of_number(number: u64) -> Cell
    requires { number + 1 < 2 ^ 63 }
    ensures { result ≡ cell.Int (pos (1 + number)) }
{
    Cell::Int((number + 1) as i64)
}
