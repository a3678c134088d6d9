//! View documents.
ghost use Rattle.std.specs.Prelude.{◌≡◌, ◌++◌, [], MatchResult, Ok, Err, IfOk, map, length, string_bytes, codes, nat_lt};
ghost use Rattle.std.specs.List.{list_all};
ghost use Rattle.std.specs.Option.{option_copied};
ghost use Rattle.toml.specs.Data.{get_member};
ghost use Rattle.toml.specs.View.{table_view, view};
ghost use Rattle.df_value.specs.Outcomes.{Answers, then_next};
ghost use Rattle.df_plan.specs.declared.plan.Plan.TheVariants.{Scan};
ghost use Rattle.df_text.specs.Document as document_spec;
ghost use Rattle.df_text.specs.Document.{IsDocument, entries_of_view, new_view_name, next_view_of, steps_alone, view_of, view_specs_of, top_tables_of, document_of};
ghost use Rattle.df_text.specs.Sources.{frame_named};
ghost use Rattle.df_text.specs.Steps.{steps_at};
ghost use Rattle.df_text.specs.Tree.{GivesTable, tree_of};

use crate::document::{FrameSpec, Location, ViewSpec, Views};
use crate::fault::ViewsFault;
use crate::frames::read_frames;
use crate::from_tables::{array_or_none, few_steps, frame_of_name, source_in};
use crate::tree::{has_only_keys, parse, table_value, text_in, value_at};
use crate::view_steps::apply_table;
use df_plan::Plan;
use df_value::{List, MOST_FRAMES, MOST_VIEWS, Text, has_name};
use std::alloc::Global;
use toml::{Table, Value};

/// The tables of the frames, and those of the views.
#[derive(Clone, Copy)]
struct Tables<'a> {
    frames: &'a [Value],
    views: &'a [Value],
}

/// What stands at the keys of a view.
#[derive(Clone, Copy)]
struct ViewEntries<'a> {
    name: &'a str,
    source: &'a str,
}

/// The frames and views that a document names, in its order.
///
/// A document is TOML 1.1. Its top has at most the keys `frame` and `view`, each an array of
/// tables; a missing one is empty. A frame has the keys `name`, `columns`, an array of arrays of a
/// name and one of the words `Int`, `Text`, `Bool`, and exactly one of `path` (a file's, which is
/// not opened here) and `text` (the CSV itself). A view has the keys `name`, `from` (a frame's
/// name) and perhaps `steps`, an array of at most 64 steps, which are applied in order; without one
/// the view is the frame. Whether a frame has the columns that a plan names is not asked here.
///
/// The steps are `["filter", expression]`, `["select", [output, expression], ..]`,
/// `["with_columns", [output, expression], ..]`, `["group_by", [key, ..], [output, "len"], [output,
/// "sum", column], ..]`, `["rolling_sum", output, column, rows, least]` (also `rolling_min`,
/// `rolling_max`; a missing `least` is `rows`), `["cum_sum", output, column]`, `["rank", output,
/// "dense", column]` (also `min`) and `["join", kind, [key, ..], right]`, where the kind is `inner`
/// or `left`, and the right side a frame's name or a table with the keys `from` and perhaps `steps`,
/// as a view has them: its steps, too, may join. After the right side `"nulls_equal"` may stand. An
/// expression is an integer, a Boolean or a text, which stands for itself; `["col", name]`;
/// `["null", type]`; one of `~`, `is_null`, `is_not_null` before an expression; or one of `+`, `-`,
/// `*`, `==`, `!=`, `<`, `<=`, `>`, `>=`, `&`, `|`, `eq_missing`, `fill_null` before two.
///
/// Answered is the first fault in this order: `NotToml`; of the top `Shape`, `TooManyFrames` above
/// 8, `TooManyViews` above 32; frame by frame `Shape` of its keys (also of both or none of `path`
/// and `text`), column by column `Shape` before `Word`, then `Schema`, then `Doubled`; view by view
/// `Shape` of its keys (also of more than 64 steps), `Doubled`, `NoFrame`, then step by step. Of a
/// step and of an expression comes the word (`Shape`, then `Word`), then the number of items, then
/// the items from left to right, each with its inside. Of an aggregate comes its word, then the
/// number of its entries, its output and its column. The right side of a join is checked as a view
/// that has no name. `Memory` says that a growth was refused, and can stand in the place of any
/// other answer.
pub fn read_views(alloc: Global, bytes: &[u8]) -> Result<Views, ViewsFault>
    ensures answer { Answers ViewsFault.Memory (document_of bytes.now) result }
    ensures sound { IfOk result (λ v. IsDocument v) }
{
    let table = parse(alloc, bytes)?;
    let tables = top_tables(&table)?;
    let frames = read_frames(alloc, tables.frames)?;
    match read_view_tables(alloc, frames.as_slice(), tables.views) {
        Ok(views) => Ok(Views { frames, views }),
        Err(fault) => Err(fault),
    }
}

/// The tables of a document, if it has no key but `frame` and `view`.
fn top_tables(table: &Table) -> Result<Tables<'_>, ViewsFault>
    ensures { MatchResult result
        (λ t. top_tables_of (table_view table.now)
        ≡ Ok (record { frames = map view t.frames.now; views = map view t.views.now }))
        (λ f. top_tables_of (table_view table.now) ≡ Err f) }
{
    if !has_only_keys(table, &["frame", "view"]) {
        return Err(ViewsFault::Shape(Location::Top));
    }
    let frames = tables_at(table, "frame")?;
    let views = tables_at(table, "view")?;
    if frames.len() > MOST_FRAMES {
        return Err(ViewsFault::TooManyFrames);
    }
    if views.len() > MOST_VIEWS {
        return Err(ViewsFault::TooManyViews);
    }
    Ok(Tables { frames, views })
}

/// The array of tables at a key of the top; a missing one is empty.
fn tables_at<'a>(table: &'a Table, key: &str) -> Result<&'a [Value], ViewsFault>
    ensures { MatchResult result
        (λ vs. document_spec.tables_at key.now (table_view table.now) ≡ Ok (map view vs.now))
        (λ f. document_spec.tables_at key.now (table_view table.now) ≡ Err f) }
{
    let values = array_or_none(Location::Top, table, key)?;
    if are_tables(values) {
        Ok(values)
    } else {
        Err(ViewsFault::Shape(Location::Top))
    }
}

fn are_tables(values: &[Value]) -> bool
    ensures { result ≡ list_all document_spec.is_table (map view values.now) }
{
    all_are_tables(values)
}

fn all_are_tables(values: &[Value]) -> bool
    ensures { result ≡ list_all (λ v. document_spec.is_table (view v)) values.now }
{
    values.iter().all(|v| is_table(v))
}

fn is_table(value: &Value) -> bool
    ensures { result ≡ document_spec.is_table (view value.now) }
{
    matches!(value, Value::Table(_))
}

/// The views of these tables over these frames, or the first fault.
fn read_view_tables(
    alloc: Global,
    frames: &[FrameSpec],
    tables: &[Value],
) -> Result<List<ViewSpec>, ViewsFault>
    ensures { Answers ViewsFault.Memory (view_specs_of frames.now (map view tables.now)) result }
{
    let mut views = Vec::new(alloc);
    for table in tables {
        let spec = read_view(alloc, frames, views.as_slice(), table)?;
        views.push(spec)?;
    }
    Ok(List::from_vec(views))
}

/// A view after those that stand before it.
fn read_view(
    alloc: Global,
    frames: &[FrameSpec],
    before: &[ViewSpec],
    value: &Value,
) -> Result<ViewSpec, ViewsFault>
    ensures { Answers ViewsFault.Memory (view_of frames.now before.now (view value.now)) result }
{
    let location = Location::View(before.len());
    let table = table_value(location, value)?;
    let entries = view_entries(location, table)?;
    named_view(
        alloc,
        location,
        frames,
        before,
        entries.name,
        entries.source,
        table,
    )
}

/// The view of a name, over a source and with the steps of a table, after those that stand before it.
fn named_view(
    alloc: Global,
    location: Location,
    frames: &[FrameSpec],
    before: &[ViewSpec],
    name: &str,
    source: &str,
    table: &Table,
) -> Result<ViewSpec, ViewsFault>
    ensures { Answers ViewsFault.Memory (then_next (new_view_name location name.now before.now) (λ name.
        then_next (frame_named location source.now frames.now) (λ index.
        then_next (steps_at location frames.now (Scan index) (table_view table.now)) (λ p.
        Ok (record { name = name; plan = p }))))) result }
{
    if has_name(before, name) {
        return Err(ViewsFault::Doubled(location));
    }
    let index = frame_of_name(location, source, frames)?;
    let name = Text::from_str(alloc, name)?;
    match apply_table(alloc, location, frames, Plan::Scan(index), table) {
        Ok(plan) => Ok(ViewSpec { name, plan }),
        Err(fault) => Err(fault),
    }
}

/// What stands at the keys of a view, if it has no others.
fn view_entries(location: Location, table: &Table) -> Result<ViewEntries<'_>, ViewsFault>
    ensures { MatchResult result
        (λ e. entries_of_view location (table_view table.now)
        ≡ Ok (record { name = e.name.now; source = e.source.now }))
        (λ f. entries_of_view location (table_view table.now) ≡ Err f) }
{
    if !has_only_keys(table, &["name", "from", "steps"]) {
        return Err(ViewsFault::Shape(location));
    }
    let name = text_in(location, value_at(location, table, "name")?)?;
    let source = source_in(location, table)?;
    Ok(ViewEntries { name, source })
}

/// Reads one more view over a document's frames, behind the views that stand before it: its name, the name of the frame
/// that it begins with, and its steps, the array that a document has behind `steps = `.
///
/// Answered is the first fault in this order: `NotToml`; `TooManyViews`, where 32 stand before it; then as of a view in
/// [`read_views`].
pub fn read_next_view(
    alloc: Global,
    frames: &[FrameSpec],
    before: &[ViewSpec],
    name: &str,
    source: &str,
    steps: &[u8],
) -> Result<ViewSpec, ViewsFault>
    ensures { Answers ViewsFault.Memory
        (next_view_of frames.now before.now name.now source.now steps.now) result }
{
    let table = read_steps(alloc, steps)?;
    if before.len() >= MOST_VIEWS {
        return Err(ViewsFault::TooManyViews);
    }
    let at = Location::View(before.len());
    few_steps(at, &table)?;
    named_view(alloc, at, frames, before, name, source, &table)
}

/// The table of the steps that a text says.
fn read_steps(alloc: Global, text: &[u8]) -> Result<Table, ViewsFault>
    ensures { GivesTable (steps_alone text.now) result }
{
    let table = parse_steps(alloc, text)?;
    if has_only_keys(&table, &["steps"]) {
        Ok(table)
    } else {
        Err(ViewsFault::NotToml)
    }
}

fn parse_steps(alloc: Global, text: &[u8]) -> Result<Table, ViewsFault>
    ensures { GivesTable (tree_of (codes "steps = " ++ text.now)) result }
{
    let mut bytes = Vec::new(alloc);
    bytes.extend_from_slice(b"steps = ")?;
    bytes.extend_from_slice(text)?;
    parse(alloc, bytes.as_slice())
}
