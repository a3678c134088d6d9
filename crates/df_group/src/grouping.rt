//! How rows are grouped, and the row of a group.
ghost use Rattle.std.specs.Prelude.{◌≡◌, [], IfOk, IfSome, slice_get, unwrap_or};
ghost use Rattle.std.specs.Option.{option_copied};
ghost use Rattle.std.specs.FinMap as finite;
ghost use Rattle.df_value.specs.Rows.{cell_at};
ghost use Rattle.df_value.specs.declared.cell.Cell.TheVariants as cells;
ghost use Rattle.df_column.specs.Tables.{TaggedRows};
ghost use Rattle.df_delta.specs.Deltas.{RowsFit};
ghost use Rattle.df_ops.specs.Aggregates.{cells_of};
ghost use Rattle.df_ops.specs.NamedColumns as named_columns;
ghost use Rattle.df_ops.specs.Tables.{aggregate_cell};
ghost use Rattle.df_group.specs.GroupIndex as index_spec;
ghost use Rattle.df_group.specs.GroupIndex.{IsRowBefore, cell_at_if, totals_of};
ghost use Rattle.df_group.specs.Projections as projections;
ghost use Rattle.df_group.specs.Projections.{projected_rows};
ghost use Rattle.df_group.specs.Totals as totals_spec;
ghost use Rattle.df_group.specs.Totals.{IsCellBefore, total_for};

use crate::extremes::extreme_cell;
use crate::projection::Projection;
use crate::total::Total;
use df_column::{Entry, Table};
use df_ops::{Agg, MinMax, column_indices};
use df_value::{
    Cell, CellType, Duplicate, List, Row, Schema, Text, column_index, copies, push_made,
};
use std::alloc::{AllocError, Global};

/// How the rows of an input are grouped.
pub struct Grouping {
    /// The indices of the key columns.
    pub key_indices: List<Option<usize>>,
    /// What members have of the input's columns.
    pub members: Projection,
    /// The aggregates of a group, with their names.
    pub aggregates: List<(Text, Agg)>,
}

// A body that owns one drops it by a call.
impl Drop for Grouping {
    fn drop(self) {
        let Grouping {
            key_indices,
            members,
            aggregates,
        } = self;
        drop(key_indices);
        drop(members);
        drop(aggregates);
    }
}

impl Grouping {
    /// The grouping of rows of this schema by these columns.
    pub fn new(
        alloc: Global,
        schema: &Schema,
        keys: &[Text],
        aggregates: &[(Text, Agg)],
    ) -> Result<Grouping, AllocError>
        ensures keys { IfOk result (λ g. g.key_indices
            ≡ named_columns.column_indices schema.now keys.now) }
        ensures schema { IfOk result (λ g. g.members.schema
            ≡ projections.member_columns schema.now aggregates.now) }
        ensures indices { IfOk result (λ g. g.members.indices
            ≡ projections.member_indices schema.now aggregates.now) }
        ensures aggregates { IfOk result (λ g. g.aggregates ≡ aggregates.now) }
        ensures fit { IfOk result (λ g. (t : TaggedRows) → RowsFit schema.now t
            → RowsFit g.members.schema (projected_rows g.members.indices t)) }
    {
        let key_indices = column_indices(alloc, schema.columns().as_slice(), keys)?;
        let members = Projection::new(alloc, schema, aggregates)?;
        let aggregates = copies(alloc, aggregates)?;
        Ok(Grouping {
            key_indices,
            members,
            aggregates: List::from_vec(aggregates),
        })
    }

    /// The totals of no rows, one for each aggregate.
    pub fn no_totals(&self, alloc: Global) -> Result<List<Total>, AllocError>
        ensures { IfOk result (λ ts. ts ≡ totals_of self.now []) }
    {
        let columns = self.members.schema.columns().as_slice();
        let mut totals = Vec::with_capacity(alloc, self.aggregates.len())?;
        for named in self.aggregates.as_slice() {
            let agg = &named.1;
            totals.push(Total::of_none(summed_index(columns, agg), valued_index(columns, agg)))?;
        }
        Ok(List::from_vec(totals))
    }

    /// The row of a group of these members: the key, and after it the aggregates. For a first and a last cell that one
    /// member is read. A least and a greatest cell are found from the row before and the entries, which lead to the
    /// members; where there is no row before, or a member goes that may have that cell and none as good comes in its place,
    /// one cell of each leaf of members is read, and of each block behind them.
    pub fn finished_row(
        &self,
        alloc: Global,
        key: &Row,
        before: Option<&Row>,
        entries: &[Entry],
        members: &Table,
        totals: &[Total],
    ) -> Result<Row, AllocError>
        ensures { IfOk result (λ r. totals.now ≡ totals_of self.now (finite.values members.now.rows)
            → IfSome (option_copied before.entry)
            (λ row. IsRowBefore self.now key.now row entries.now (finite.values members.now.rows))
            → r ≡ index_spec.row_of_group self.now key.now (finite.values members.now.rows)) }
    {
        let columns = self.members.schema.columns().as_slice();
        let mut cells = copies(alloc, key.as_slice())?;
        for (named, total) in self.aggregates.as_slice().iter().zip(totals) {
            let known = cell_before(before, cells.as_slice().len());
            let cell = finished_cell(alloc, columns, known, entries, members, &named.1, total);
            push_made(&mut cells, cell)?;
        }
        Row::new(alloc, cells)
    }
}

/// The index whose cells an aggregate counts or sums; none for those that need neither.
fn summed_index(columns: &[(Text, CellType)], agg: &Agg) -> Option<usize>
    ensures { result ≡ totals_spec.summed_index columns.now agg.now }
{
    match agg {
        Agg::Count(name) => column_index(name, columns),
        Agg::Sum(name) => column_index(name, columns),
        Agg::Mean(name) => column_index(name, columns),
        Agg::NUnique(name) => column_index(name, columns),
        _ => None,
    }
}

/// The index whose values an aggregate counts; none for those that count none.
fn valued_index(columns: &[(Text, CellType)], agg: &Agg) -> Option<usize>
    ensures { result ≡ totals_spec.valued_index columns.now agg.now }
{
    match agg {
        Agg::NUnique(name) => column_index(name, columns),
        _ => None,
    }
}

/// The cell at this index of the row before, if there was one.
fn cell_before(before: Option<&Row>, at: usize) -> Option<&Cell>
    ensures { option_copied result ≡ cell_at_if (option_copied before.entry) at }
{
    match before {
        Some(row) => row.get(at),
        None => None,
    }
}

/// An aggregate of a group of these members. The one before is known, if there was one; the entries lead from there.
fn finished_cell(
    alloc: Global,
    columns: &[(Text, CellType)],
    known: Option<&Cell>,
    entries: &[Entry],
    members: &Table,
    agg: &Agg,
    total: &Total,
) -> Result<Cell, AllocError>
    ensures { IfOk result (λ c. total.now
        ≡ total_for columns.now agg.now (finite.values members.now.rows)
        → IfSome (option_copied known.entry)
        (λ k. IsCellBefore columns.now agg.now k entries.now (finite.values members.now.rows))
        → c ≡ aggregate_cell columns.now (finite.values members.now.rows) agg.now) }
{
    match agg {
        Agg::Len => Ok(Cell::Int(members.len() as i64)),
        Agg::Count(_) => Ok(Cell::Int(total.sums.count)),
        Agg::Sum(_) => Ok(Cell::Wide(total.sums.sum)),
        Agg::Mean(_) => Ok(total.sums.mean()),
        Agg::Min(name) => {
            let index = column_index(name, columns);
            extreme_cell(alloc, MinMax::Min, index, known, entries, members)
        }
        Agg::Max(name) => {
            let index = column_index(name, columns);
            extreme_cell(alloc, MinMax::Max, index, known, entries, members)
        }
        Agg::NUnique(_) => Ok(Cell::Int(total.distinct_cells(members.len()))),
        Agg::First(name) => member_cell(alloc, column_index(name, columns), members, 0),
        Agg::Last(name) => {
            let last = members.len().saturating_sub(1);
            member_cell(alloc, column_index(name, columns), members, last)
        }
    }
}

/// The cell at an index of the member at a place, null where there is none.
fn member_cell(
    alloc: Global,
    index: Option<usize>,
    members: &Table,
    place: usize,
) -> Result<Cell, AllocError>
    ensures { IfOk result (λ c. c
        ≡ unwrap_or (slice_get (cells_of index (finite.values members.now.rows)) place) cells.Null) }
{
    if place >= members.len() {
        return Ok(Cell::Null);
    }
    let row = members.row(alloc, place)?;
    cell_of(alloc, index, &row)
}

/// A copy of the cell at an index of the row, null where there is none.
fn cell_of(alloc: Global, index: Option<usize>, row: &Row) -> Result<Cell, AllocError>
    ensures { IfOk result (λ c. c ≡ cell_at index row.now) }
{
    let Some(index) = index else {
        return Ok(Cell::Null);
    };
    match row.get(index) {
        Some(cell) => cell.copy(alloc),
        None => Ok(Cell::Null),
    }
}
