//! Tables of tagged rows in shared blocks.
ghost use Rattle.std.specs.Prelude.{◌≡◌, ◌↔◌, ℕ, ◌+◌, ◌<◌, ◌≤◌, ◌++◌, ◌^◌, T, List, Some, None, IfErr, IfNone, IfOk, IfSome, IsTrue, true, drop, map, length, not, slice_index_or, take};
ghost use Rattle.std.specs.Arc.{arc_value};
ghost use Rattle.std.specs.FinMap as finite;
ghost use Rattle.std.specs.List.{list_all};
ghost use Rattle.df_value.specs.Rows.{row_eq, row_fits, rows_fit};
ghost use Rattle.df_value.specs.declared.cell.Cell.{Cell};
ghost use Rattle.df_value.specs.declared.cell.CellType.{CellType};
ghost use Rattle.df_column.specs.Blocks.{AreOfDtypes, rows_of_blocks};
ghost use Rattle.df_column.specs.Changes.{applied};
ghost use Rattle.df_column.specs.Columns.{column_cells, dtype_of_column};
ghost use Rattle.df_column.specs.Picks.{AreWithin};
ghost use Rattle.df_column.specs.Bounds.{IsLowerBound, IsUpperBound};
ghost use Rattle.df_column.specs.Places.{IsGap, IsPlace};
ghost use Rattle.df_column.specs.RowRuns.{StandFrom};
ghost use Rattle.df_column.specs.Rows.{AreRows, are_even, picked_rows};
ghost use Rattle.df_column.specs.Tables.{NewRowsFit, AreRising, after_entries, dtypes_of, entry_change, new_rows_fit};
ghost use Rattle.df_column.specs.Tags.{tag_cmp};
ghost use Rattle.df_column.specs.declared.tag.Tag.{Tag};

use crate::block::MOST_ROWS;
use crate::block_list::BlockList;
use crate::blocks::with_parts;
use crate::column::Column;
use crate::entry::{Entry, are_fitting};
use crate::picks::{Origin, Pick};
use crate::reads::{push_rows, push_tagged_rows};
use crate::row_tags::RowTags;
use crate::sharing::{edited_blocks, joined_blocks, shared_blocks};
use crate::spots;
use crate::tag::Tag;
use df_value::{Row, Schema, same};
use std::alloc::{AllocError, Global};
use std::marker::Model;
use std::sync::Arc;

/// Rows by rising tags, which fit a schema. They stand in blocks that several tables share.
pub struct Table {
    schema: Arc<Schema>,
    blocks: BlockList,
}

// A body that owns one drops it by a call.
impl Drop for Table {
    fn drop(self) {
        let Table { schema, blocks } = self;
        drop(schema);
        drop(blocks);
    }
}

impl Model for Table {
    ghost use Rattle.std.specs.Arc.{arc_value};
    ghost use Rattle.std.specs.FinMap as finite;
    ghost use Rattle.df_column.specs.Tables.{TableParts, table_code};
    ghost use Rattle.df_column.specs.Blocks.{rows_of_blocks};
    ghost use Rattle.df_column.specs.TableBlocks.{IsTable};

    ghost Value = { TableParts };

    ghost coded = { table_code };

    ghost view = { λ t. record
        { schema = arc_value t.schema; rows = finite.from_sorted (rows_of_blocks t.blocks) } };

    ghost invariant = { λ t. IsTable (arc_value t.schema) t.blocks };
}

/// A column of no cells for each column of the schema.
fn empty_columns(alloc: Global, schema: &Schema) -> Result<Vec<Column>, AllocError>
    ensures types { IfOk result (λ v. map dtype_of_column v.items ≡ dtypes_of schema.now) }
    ensures even { IfOk result (λ v. T (are_even 0 (map column_cells v.items))) }
{
    let columns = schema.columns().as_slice();
    let mut out = Vec::with_capacity(alloc, columns.len())?;
    for column in columns {
        out.push(Column::new(alloc, column.1))?;
    }
    Ok(out)
}

impl Table {
    /// The table of this schema without rows.
    pub fn new(alloc: Global, schema: Schema) -> Result<Table, AllocError>
        ensures schema { IfOk result (λ t. t.schema ≡ schema) }
        ensures rows { IfOk result (λ t. t.rows ≡ finite.empty) }
    {
        Ok(Table {
            schema: Arc::new(alloc, schema)?,
            blocks: BlockList::new(alloc),
        })
    }

    /// The schema, which all rows fit.
    pub fn schema(&self) -> &Schema
        ensures value { result.now ≡ self.now.schema }
        ensures sound { IsTrue (rows_fit self.now.schema (finite.values self.now.rows)) }
    {
        &self.schema
    }

    /// The schema, shared.
    fn shared_schema(&self) -> Result<Arc<Schema>, AllocError>
        ensures { IfOk result (λ s. arc_value s ≡ self.now.schema) }
    {
        let schema = Arc::try_clone(&self.schema)?;
        Ok(schema)
    }

    /// The blocks.
    pub(crate) fn blocks(&self) -> &BlockList
        ensures rows { rows_of_blocks result.now ≡ finite.entries self.now.rows }
        ensures value { finite.from_sorted (rows_of_blocks result.now) ≡ self.now.rows }
        ensures sorted { T (finite.is_sorted tag_cmp (rows_of_blocks result.now)) }
        ensures types { AreOfDtypes (dtypes_of self.now.schema) result.now }
    {
        &self.blocks
    }

    /// An equal table over the same blocks.
    pub fn share(&self, alloc: Global) -> Result<Table, AllocError>
        ensures { IfOk result (λ t. t ≡ self.now) }
    {
        let blocks = shared_blocks(alloc, &self.blocks)?;
        let schema = self.shared_schema()?;
        Ok(Table { schema, blocks })
    }

    /// The table after the changes of these entries: at each tag that they name stands the new row, or nothing. Where
    /// a new row does not fit the schema, nothing changes. Blocks without a change are shared with this table.
    pub fn edited(&self, alloc: Global, entries: &[Entry]) -> Result<Table, AllocError>
        requires rising { AreRising entries.now }
        ensures schema { IfOk result (λ t. t.schema ≡ self.now.schema) }
        ensures changed { NewRowsFit self.now.schema entries.now
            → IfOk result (λ t. t ≡ after_entries self.now entries.now) }
        ensures unlike { not (new_rows_fit self.now.schema entries.now) ≡ true
            → IfOk result (λ t. t ≡ self.now) }
    {
        if !are_fitting(self.schema(), entries) {
            return self.share(alloc);
        }
        self.changed(alloc, entries)
    }

    /// The table after the changes of entries that fit.
    fn changed(&self, alloc: Global, entries: &[Entry]) -> Result<Table, AllocError>
        requires rising { AreRising entries.now }
        requires fits { NewRowsFit self.now.schema entries.now }
        ensures { IfOk result (λ t. t ≡ after_entries self.now entries.now) }
    {
        let columns = empty_columns(alloc, self.schema())?;
        let blocks = edited_blocks(alloc, &self.blocks, &columns, entries)?;
        let schema = self.shared_schema()?;
        Ok(Table { schema, blocks })
    }

    /// The table after the changes of these entries, where another table has the rows that they make in an empty one. If
    /// it has this schema, and each block of this table ends before the first change or begins behind the last one, its
    /// blocks are shared and none is made.
    pub fn edited_with(
        &self,
        alloc: Global,
        entries: &[Entry],
        made: &Table,
    ) -> Result<Table, AllocError>
        requires rising { AreRising entries.now }
        requires made { made.now.rows ≡
            applied finite.empty (finite.from_sorted (map entry_change entries.now)) }
        ensures schema { IfOk result (λ t. t.schema ≡ self.now.schema) }
        ensures changed { NewRowsFit self.now.schema entries.now
            → IfOk result (λ t. t ≡ after_entries self.now entries.now) }
    {
        if same(self.schema(), made.schema()) {
            if let Some(table) = self.joined(alloc, entries, made)? {
                return Ok(table);
            }
        }
        self.edited(alloc, entries)
    }

    /// The table after the changes of these entries, with the blocks of another one that has the rows which they make in
    /// an empty table. None where a block of this table reaches into the changes.
    fn joined(
        &self,
        alloc: Global,
        entries: &[Entry],
        made: &Table,
    ) -> Result<Option<Table>, AllocError>
        requires rising { AreRising entries.now }
        requires schema { made.now.schema ≡ self.now.schema }
        requires made { made.now.rows ≡
            applied finite.empty (finite.from_sorted (map entry_change entries.now)) }
        ensures { IfOk result (λ o. IfSome o (λ t. t ≡ after_entries self.now entries.now)) }
    {
        let Some(blocks) = joined_blocks(alloc, &self.blocks, entries, &made.blocks)? else {
            return Ok(None);
        };
        let schema = self.shared_schema()?;
        Ok(Some(Table { schema, blocks }))
    }

    /// The table of these rows. Their tags rise, and each fits the schema.
    pub fn from_rows(
        alloc: Global,
        schema: Schema,
        rows: &[(Tag, Row)],
    ) -> Result<Table, AllocError>
        requires rising { T (finite.is_sorted tag_cmp rows.now) }
        requires fits { T (list_all (λ r. row_fits schema r.1) rows.now) }
        ensures schema { IfOk result (λ t. t.schema ≡ schema) }
        ensures rows { IfOk result (λ t. t.rows ≡ finite.from_sorted rows.now) }
    {
        let blocks = blocks_of(alloc, &schema, rows)?;
        let schema = Arc::new(alloc, schema)?;
        Ok(Table { schema, blocks })
    }

    /// The number of rows.
    pub fn len(&self) -> usize
        ensures value { result ≡ finite.len self.now.rows }
        ensures few { result ≤ 2 ^ 60 }
    {
        self.blocks.rows()
    }

    /// Whether there are no rows.
    pub fn is_empty(&self) -> bool
        ensures { IsTrue result ↔ (finite.len self.now.rows ≡ 0) }
    {
        self.len() == 0
    }

    /// The tag of the row at this index.
    pub fn tag(&self, at: usize) -> Tag
        requires { at < finite.len self.now.rows }
        ensures { (d : Tag × List Cell) → result ≡
            (slice_index_or (finite.entries self.now.rows) at d).0 }
    {
        spots::tag_at(&self.blocks, at)
    }

    /// A copy of the row at this index.
    pub fn row(&self, alloc: Global, at: usize) -> Result<Row, AllocError>
        requires { at < finite.len self.now.rows }
        ensures { IfOk result (λ r. (d : Tag × List Cell) → r ≡
            (slice_index_or (finite.entries self.now.rows) at d).1) }
    {
        let row = spots::row_at(alloc, &self.blocks, at)?;
        Ok(row)
    }

    /// Whether the row at this index is this one. No cell is copied.
    pub fn is_row(&self, at: usize, row: &Row) -> bool
        requires { at < finite.len self.now.rows }
        ensures { (d : Tag × List Cell) → result ≡
            row_eq (slice_index_or (finite.entries self.now.rows) at d).1 row.now }
    {
        spots::is_row_at(&self.blocks, at, row)
    }

    /// Whether these rows stand from this index on, at tags whose first numbers rise by one from this one. No cell is
    /// copied, and each block is looked for once.
    pub fn are_rows(&self, at: usize, first: u64, rows: &[Row]) -> bool
        requires { first + length rows.now < 2 ^ 64 }
        ensures within { result ≡ true → at + length rows.now ≤ finite.len self.now.rows }
        ensures rows { result ≡ true → StandFrom (finite.entries self.now.rows) at first rows.now }
        ensures alike { at + length rows.now ≤ finite.len self.now.rows
            → StandFrom (finite.entries self.now.rows) at first rows.now → result ≡ true }
    {
        let blocks = self.blocks();
        self.reaches(at, rows.len()) && spots::are_rows_at(blocks, at, first, rows)
    }

    /// The index of the row at this tag, if there is one. The number of steps goes by the logarithm of the number of
    /// rows.
    pub fn find(&self, tag: Tag) -> Option<usize>
        ensures found { IfSome result (IsPlace tag_cmp (finite.entries self.now.rows) tag) }
        ensures row { IfSome result (λ i. (d : Tag × List Cell) →
            finite.get self.now.rows tag ≡
            Some (slice_index_or (finite.entries self.now.rows) i d).1) }
        ensures absent { IfNone result (finite.get self.now.rows tag ≡ None) }
    {
        match spots::find(&self.blocks, tag) {
            Ok(at) => Some(at),
            Err(_) => None,
        }
    }

    /// A copy of the row at this tag, if there is one.
    pub fn get(&self, alloc: Global, tag: Tag) -> Result<Option<Row>, AllocError>
        ensures { IfOk result (λ r. r ≡ finite.get self.now.rows tag) }
    {
        match self.find(tag) {
            Some(at) => Ok(Some(self.row(alloc, at)?)),
            None => Ok(None),
        }
    }

    /// How many rows have a tag below this one: the index of the first other row.
    pub fn lower_bound(&self, tag: Tag) -> usize
        ensures { IsLowerBound tag (finite.entries self.now.rows) result }
    {
        match spots::find(&self.blocks, tag) {
            Ok(at) => at,
            Err(at) => at,
        }
    }

    /// How many rows have a tag not above this one: the index of the first other row.
    pub fn upper_bound(&self, tag: Tag) -> usize
        ensures { IsUpperBound tag (finite.entries self.now.rows) result }
    {
        match spots::find(&self.blocks, tag) {
            Ok(at) => at + 1,
            Err(at) => at,
        }
    }

    /// Copies of the rows from one index up to another.
    pub fn rows_between(
        &self,
        alloc: Global,
        low: usize,
        high: usize,
    ) -> Result<Vec<Row>, AllocError>
        requires ordered { low ≤ high }
        requires in_range { high ≤ finite.len self.now.rows }
        ensures { IfOk result (λ v. v.items ≡ drop low (take high (finite.values self.now.rows))) }
    {
        let mut out = Vec::with_capacity(alloc, high - low)?;
        for at in low..high {
            let row = self.row(alloc, at)?;
            out.push(row)?;
        }
        Ok(out)
    }

    /// Copies of the rows, by rising tag.
    pub fn rows(&self, alloc: Global) -> Result<Vec<Row>, AllocError>
        ensures { IfOk result (λ v. v.items ≡ finite.values self.now.rows) }
    {
        let blocks = self.blocks();
        let mut out = Vec::with_capacity(alloc, self.len())?;
        for at in 0..blocks.len() {
            push_rows(alloc, &mut out, blocks.get(at))?;
        }
        Ok(out)
    }

    /// The tags with copies of their rows, by rising tag.
    pub fn tagged_rows(&self, alloc: Global) -> Result<Vec<(Tag, Row)>, AllocError>
        ensures { IfOk result (λ v. v.items ≡ finite.entries self.now.rows) }
    {
        let blocks = self.blocks();
        let mut out = Vec::with_capacity(alloc, self.len())?;
        for at in 0..blocks.len() {
            push_tagged_rows(alloc, &mut out, blocks.get(at))?;
        }
        Ok(out)
    }
}

/// Blocks of these rows.
fn blocks_of(alloc: Global, schema: &Schema, rows: &[(Tag, Row)]) -> Result<BlockList, AllocError>
    requires { T (list_all (λ r. row_fits schema.now r.1) rows.now) }
    ensures rows { IfOk result (λ l. rows_of_blocks l ≡ rows.now) }
    ensures types { IfOk result (λ l. AreOfDtypes (dtypes_of schema.now) l) }
{
    let columns = empty_columns(alloc, schema)?;
    let picks = new_picks(alloc, rows)?;
    let out = BlockList::new(alloc);
    with_parts(
        alloc,
        out,
        &RowTags::new(alloc),
        &columns,
        &[],
        &picks,
        MOST_ROWS,
    )
}

/// The rows as new rows of a block.
fn new_picks<'a>(alloc: Global, rows: &'a [(Tag, Row)]) -> Result<Vec<Pick<'a>>, AllocError>
    ensures within { IfOk result (λ v. AreWithin 0 v.items) }
    ensures rows { IfOk result (λ v. (columns : List (List Cell)) → picked_rows columns v.items ≡
        rows.now) }
    ensures fits { IfOk result (λ v. (schema : List (List ℕ × CellType)) →
        T (list_all (λ r. row_fits schema r.1) rows.now) → AreRows (dtypes_of schema) v.items) }
{
    let mut picks = Vec::with_capacity(alloc, rows.len())?;
    for row in rows {
        picks.push(Pick {
            tag: row.0,
            origin: Origin::New(&row.1),
        })?;
    }
    Ok(picks)
}
