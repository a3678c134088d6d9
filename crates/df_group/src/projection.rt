//! The columns that a group-by keeps of the members of its groups, and what changes of rows are to these.
ghost use Rattle.std.specs.Prelude.{◌≡◌, ◌++◌, ◌∷◌, [], IfOk, List as Seq, None, OnOk, filter, map};
ghost use Rattle.std.specs.List.{list_any};
ghost use Rattle.std.specs.Option.{option_and_then, option_copied};
ghost use Rattle.df_value.specs.Schemas.{Columns};
ghost use Rattle.df_value.specs.declared.cell.Cell.{Cell};
ghost use Rattle.df_column.specs.Changes.{Change};
ghost use Rattle.df_column.specs.Tables.{AreRising, TaggedRows, entry_change};
ghost use Rattle.df_column.specs.declared.tag.Tag.{Tag};
ghost use Rattle.df_delta.specs.Deltas.{RowsFit};
ghost use Rattle.df_group.specs.Projections as projections;
ghost use Rattle.df_group.specs.Projections.{indices_among, projected_entries, projected_row, projected_rows};

use df_column::Entry;
use df_delta::{KeyChanges, push_change};
use df_ops::{Agg, key_of};
use df_value::{CellType, Duplicate, List, Row, Schema, Text, column_index};
use std::alloc::{AllocError, Global};

/// The columns of the members of groups, and their indices in the input. There are no indices where members have all
/// columns, so that no row is copied.
pub struct Projection {
    pub schema: Schema,
    pub indices: Option<List<Option<usize>>>,
}

// A body that owns one drops it by a call.
impl Drop for Projection {
    fn drop(self) {
        let Projection { schema, indices } = self;
        drop(schema);
        drop(indices);
    }
}

/// Whether this aggregate takes the column of this name.
fn takes_column(agg: &Agg, name: &Text) -> bool
    ensures { result ≡ projections.takes_column name.now agg.now }
{
    match agg.input_column() {
        Some(column) => *column == *name,
        None => false,
    }
}

/// Whether one of the aggregates takes the column of this name.
fn is_taken(aggregates: &[(Text, Agg)], name: &Text) -> bool
    ensures { result ≡ projections.is_taken aggregates.now name.now }
{
    aggregates.iter().any(|named| takes_column(&named.1, name))
}

fn is_text(column: &(Text, CellType)) -> bool
    ensures { result ≡ projections.is_text column.now.1 }
{
    matches!(column.1, CellType::Text)
}

/// The first column that has no texts, unless an aggregate takes a column.
fn spare_column<'a>(
    columns: &'a [(Text, CellType)],
    aggregates: &[(Text, Agg)],
) -> Option<&'a (Text, CellType)>
    ensures { option_copied result ≡ projections.spare_column columns.now aggregates.now }
{
    if columns.iter().any(|column| is_taken(aggregates, &column.0)) {
        return None;
    }
    columns.iter().find(|column| !is_text(column))
}

/// Whether the column, if there is one, has this name.
fn is_name_of(column: Option<&(Text, CellType)>, name: &Text) -> bool
    ensures { result ≡ projections.is_name_of (option_copied column.entry) name.now }
{
    match column {
        Some(column) => column.0 == *name,
        None => false,
    }
}

/// Adds the column, if an aggregate takes it, or it is the spare one.
fn push_needed(
    alloc: Global,
    needed: &mut Vec<(Text, CellType)>,
    spare: Option<&(Text, CellType)>,
    aggregates: &[(Text, Agg)],
    column: &(Text, CellType),
) -> Result<(), AllocError>
    ensures { OnOk result ((columns : Columns) → option_copied spare.entry ≡ projections.spare_column columns aggregates.now
        → needed.new.items ≡ needed.old.items
        ++ filter (λ c. projections.is_needed columns aggregates.now c.0) (column.now ∷ [])) }
{
    if is_taken(aggregates, &column.0) || is_name_of(spare, &column.0) {
        needed.push(column.copy(alloc)?)?;
    }
    Ok(())
}

/// The columns that the members need.
fn needed_columns(
    alloc: Global,
    columns: &[(Text, CellType)],
    aggregates: &[(Text, Agg)],
) -> Result<List<(Text, CellType)>, AllocError>
    ensures { IfOk result
        (λ needed. needed ≡ projections.needed_columns columns.now aggregates.now) }
{
    let spare = spare_column(columns, aggregates);
    let mut needed = Vec::new(alloc);
    for column in columns {
        push_needed(alloc, &mut needed, spare, aggregates, column)?;
    }
    Ok(List::from_vec(needed))
}

/// Where the first columns stand among the second.
fn indices_among_columns(
    alloc: Global,
    some: &[(Text, CellType)],
    all: &[(Text, CellType)],
) -> Result<List<Option<usize>>, AllocError>
    ensures { IfOk result (λ indices. indices ≡ indices_among some.now all.now) }
{
    let mut indices = Vec::with_capacity(alloc, some.len())?;
    for column in some {
        indices.push(column_index(&column.0, all))?;
    }
    Ok(List::from_vec(indices))
}

/// The projection to all columns.
fn all_columns(alloc: Global, schema: &Schema) -> Result<Projection, AllocError>
    ensures schema { IfOk result (λ p. p.schema ≡ schema.now) }
    ensures indices { IfOk result (λ p. p.indices ≡ None) }
    ensures fit { IfOk result (λ p. (t : TaggedRows) → RowsFit schema.now t
        → RowsFit p.schema (projected_rows p.indices t)) }
{
    Ok(Projection {
        schema: schema.copy(alloc)?,
        indices: None,
    })
}

impl Projection {
    /// The columns that members keep of an input of this schema: those that an aggregate takes; where none takes any, the
    /// first that is not of type `Text`, since a schema has at least one column. All columns where these are more than half,
    /// where one is of type `Text`, or where there are none: then changes are handed on, and no row is made.
    pub fn new(
        alloc: Global,
        schema: &Schema,
        aggregates: &[(Text, Agg)],
    ) -> Result<Projection, AllocError>
        ensures schema { IfOk result
            (λ p. p.schema ≡ projections.member_columns schema.now aggregates.now) }
        ensures indices { IfOk result
            (λ p. p.indices ≡ projections.member_indices schema.now aggregates.now) }
        ensures fit { IfOk result (λ p. (t : TaggedRows) → RowsFit schema.now t
            → RowsFit p.schema (projected_rows p.indices t)) }
    {
        let columns = schema.columns().as_slice();
        let needed = needed_columns(alloc, columns, aggregates)?;
        // Where more than half stay, a row is shared at less cost than a shorter one is made.
        if needed.len() > columns.len() / 2 || needed.as_slice().iter().any(is_text) {
            return all_columns(alloc, schema);
        }
        let indices = indices_among_columns(alloc, needed.as_slice(), columns)?;
        match Schema::new(needed) {
            Ok(schema) => Ok(Projection {
                schema,
                indices: Some(indices),
            }),
            // The names are distinct and few: only an empty list is refused.
            Err(_) => all_columns(alloc, schema),
        }
    }
}

/// The row of the cells at these indices, if there is a row.
fn projected_row_of(
    alloc: Global,
    indices: &[Option<usize>],
    row: &Option<Row>,
) -> Result<Option<Row>, AllocError>
    ensures { IfOk result (λ r. r ≡ option_and_then (projected_row indices.now) row.now) }
{
    match row {
        Some(row) => Ok(Some(key_of(alloc, indices, row)?)),
        None => Ok(None),
    }
}

/// Adds what one change does to the cells at these indices, unless it leaves them as they were.
fn push_projected(
    alloc: Global,
    indices: &[Option<usize>],
    entry: &Entry,
    entries: &mut Vec<Entry>,
) -> Result<(), AllocError>
    ensures { OnOk result ((later : Seq (Tag × Change (Seq Cell))) →
        map entry_change entries.new.items ++ projections.projected_changes indices.now later
        ≡ map entry_change entries.old.items
        ++ projections.projected_changes indices.now (entry_change entry.now ∷ later)) }
{
    let old = projected_row_of(alloc, indices, &entry.old)?;
    let new = projected_row_of(alloc, indices, &entry.new)?;
    push_change(entries, entry.tag, old, new)
}

/// What these changes are to the cells at these indices.
fn projected(
    alloc: Global,
    indices: &[Option<usize>],
    entries: &[Entry],
) -> Result<Vec<Entry>, AllocError>
    ensures { IfOk result (λ v. map entry_change v.items
        ≡ projections.projected_changes indices.now (map entry_change entries.now)) }
{
    let mut projected = Vec::with_capacity(alloc, entries.len())?;
    for entry in entries {
        push_projected(alloc, indices, entry, &mut projected)?;
    }
    Ok(projected)
}

/// What changes of the rows of a key are to its members: those of the cells at these indices, or the same changes where
/// members have all cells.
pub fn member_changes(
    alloc: Global,
    indices: &Option<List<Option<usize>>>,
    changes: KeyChanges,
) -> Result<KeyChanges, AllocError>
    ensures entries { IfOk result (λ r. r.entries.items
        ≡ projected_entries indices.now changes.entries.items) }
    ensures rising { AreRising changes.entries.items → IfOk result (λ r. AreRising r.entries.items) }
{
    match indices {
        Some(indices) => Ok(KeyChanges {
            entries: projected(alloc, indices.as_slice(), &changes.entries)?,
        }),
        None => Ok(changes),
    }
}
