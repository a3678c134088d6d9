//! The frames of a view document.
ghost use Rattle.std.specs.Prelude.{◌≡◌, ◌≢◌, [], MatchResult, Ok, Err, map, length, codes};
ghost use Rattle.toml.specs.View.{table_view, view};
ghost use Rattle.df_value.specs.Outcomes.{Answers};
ghost use Rattle.df_text.specs.Reading.{read_each};
ghost use Rattle.df_text.specs.declared.fault.ViewsFault.TheVariants.{Memory};
ghost use Rattle.df_text.specs.Tree as tree_spec;
ghost use Rattle.df_text.specs.Frames as frames_spec;
ghost use Rattle.df_text.specs.Frames.{source_of, entries_of_frame, schema_column_of, schema_of, frame_of, frames_of};

use crate::document::{FrameSource, FrameSpec, Location};
use crate::fault::ViewsFault;
use crate::tree::{array_in, find, has_only_keys, pair_in, table_value, text_in, value_at};
use df_value::{CellType, List, Schema, Text, has_name};
use std::alloc::Global;
use toml::{Table, Value};

/// What stands at the keys of a frame.
#[derive(Drop)]
struct FrameEntries<'a> {
    name: &'a str,
    columns: &'a [Value],
    source: FrameSource,
}

/// The frames of these tables, or the first fault.
pub fn read_frames(alloc: Global, tables: &[Value]) -> Result<List<FrameSpec>, ViewsFault>
    ensures { Answers ViewsFault.Memory (frames_of (map view tables.now)) result }
{
    let mut frames = Vec::new(alloc);
    for table in tables {
        let frame = read_frame(alloc, frames.as_slice(), table)?;
        frames.push(frame)?;
    }
    Ok(List::from_vec(frames))
}

/// A frame after those that stand before it.
fn read_frame(alloc: Global, before: &[FrameSpec], value: &Value) -> Result<FrameSpec, ViewsFault>
    ensures { Answers ViewsFault.Memory (frame_of before.now (view value.now)) result }
{
    let location = Location::Frame(before.len());
    let entries = frame_entries(alloc, location, table_value(location, value)?)?;
    let columns = read_columns(alloc, location, entries.columns)?;
    let schema = read_schema(before.len(), columns)?;
    if has_name(before, entries.name) {
        return Err(ViewsFault::Doubled(location));
    }
    let name = Text::from_str(alloc, entries.name)?;
    Ok(FrameSpec {
        name,
        schema,
        source: entries.source,
    })
}

/// What stands at the keys of a frame, if it has no others.
fn frame_entries(
    alloc: Global,
    location: Location,
    table: &Table,
) -> Result<FrameEntries<'_>, ViewsFault>
    ensures { MatchResult result
        (λ e. entries_of_frame location (table_view table.now)
        ≡ Ok (record { name = e.name.now; columns = map view e.columns.now; source = e.source }))
        (λ f. f ≢ Memory → entries_of_frame location (table_view table.now) ≡ Err f) }
{
    if !has_only_keys(table, &["name", "columns", "path", "text"]) {
        return Err(ViewsFault::Shape(location));
    }
    let name = text_in(location, value_at(location, table, "name")?)?;
    let columns = array_in(location, value_at(location, table, "columns")?)?;
    let source = read_source(alloc, location, table)?;
    Ok(FrameEntries {
        name,
        columns,
        source,
    })
}

/// Where the records of a frame come from: exactly one of the keys `path` and `text` says it.
fn read_source(alloc: Global, location: Location, table: &Table) -> Result<FrameSource, ViewsFault>
    ensures { Answers ViewsFault.Memory (source_of location (table_view table.now)) result }
{
    match (find(table, "path"), find(table, "text")) {
        (Some(path), None) => Ok(FrameSource::Path(copied_text(alloc, location, path)?)),
        (None, Some(text)) => Ok(FrameSource::Text(copied_text(alloc, location, text)?)),
        (Some(_), Some(_)) | (None, None) => Err(ViewsFault::Shape(location)),
    }
}

/// A copy of the text that a value is.
fn copied_text(alloc: Global, location: Location, value: &Value) -> Result<Text, ViewsFault>
    ensures { Answers ViewsFault.Memory (tree_spec.text_in location (view value.now)) result }
{
    Ok(Text::from_str(alloc, text_in(location, value)?)?)
}

/// The columns of a frame, from left to right.
fn read_columns(
    alloc: Global,
    location: Location,
    values: &[Value],
) -> Result<List<(Text, CellType)>, ViewsFault>
    ensures { Answers ViewsFault.Memory
        (read_each (schema_column_of location) (map view values.now)) result }
{
    let mut columns = Vec::new(alloc);
    for value in values {
        let column = read_column(alloc, location, value)?;
        columns.push(column)?;
    }
    Ok(List::from_vec(columns))
}

fn read_column(
    alloc: Global,
    location: Location,
    value: &Value,
) -> Result<(Text, CellType), ViewsFault>
    ensures { Answers ViewsFault.Memory (schema_column_of location (view value.now)) result }
{
    let pair = pair_in(location, array_in(location, value)?)?;
    let name = text_in(location, pair.0)?;
    let dtype = dtype_of_word(location, text_in(location, pair.1)?)?;
    Ok((Text::from_str(alloc, name)?, dtype))
}

/// The type that a word names.
pub fn dtype_of_word(location: Location, word: &str) -> Result<CellType, ViewsFault>
    ensures { result ≡ frames_spec.dtype_of_word location word.now }
{
    match word {
        "Int" => Ok(CellType::Int),
        "Text" => Ok(CellType::Text),
        "Bool" => Ok(CellType::Bool),
        _ => Err(ViewsFault::Word(location)),
    }
}

/// The schema of these columns.
fn read_schema(index: usize, columns: List<(Text, CellType)>) -> Result<Schema, ViewsFault>
    ensures { MatchResult result (λ s. schema_of index columns ≡ Ok s)
        (λ f. schema_of index columns ≡ Err f) }
{
    match Schema::new(columns) {
        Ok(schema) => Ok(schema),
        Err(fault) => Err(ViewsFault::Schema(index, fault)),
    }
}
