//! Tables that begin with a frame: views, and the right sides of joins.
ghost use Rattle.std.specs.Prelude.{◌≡◌, [], MatchResult, Ok, Err, map, length, string_bytes, codes, nat_lt};
ghost use Rattle.toml.specs.Data.{get_member};
ghost use Rattle.toml.specs.View.{table_view, view};
ghost use Rattle.df_text.specs.Sources as sources;
ghost use Rattle.df_text.specs.Sources.{source_at, only_source_at, steps_of_table, frame_named};

use crate::document::{FrameSpec, Location};
use crate::fault::ViewsFault;
use crate::tree::{array_in, find, has_only_keys, text_in, value_at};
use df_value::index_of_name;
use toml::{Table, Value};

/// The most steps of a table.
const MOST_STEPS: usize = 64;

/// The name at `from`, if the steps are such an array as a table may have.
pub fn source_in(location: Location, table: &Table) -> Result<&str, ViewsFault>
    ensures { MatchResult result
        (λ s. source_at location (table_view table.now) ≡ Ok s.now)
        (λ f. source_at location (table_view table.now) ≡ Err f) }
{
    let source = text_in(location, value_at(location, table, "from")?)?;
    few_steps(location, table)?;
    Ok(source)
}

/// The steps of a table, if they are such an array as it may have.
pub fn few_steps(location: Location, table: &Table) -> Result<&[Value], ViewsFault>
    ensures { MatchResult result
        (λ vs. steps_of_table location (table_view table.now) ≡ Ok (map view vs.now))
        (λ f. steps_of_table location (table_view table.now) ≡ Err f) }
{
    let steps = array_or_none(location, table, "steps")?;
    if steps.len() > MOST_STEPS {
        return Err(ViewsFault::Shape(location));
    }
    Ok(steps)
}

/// The name at `from` of a table that has no key but `from` and `steps`.
pub fn only_source_in(location: Location, table: &Table) -> Result<&str, ViewsFault>
    ensures { MatchResult result
        (λ s. only_source_at location (table_view table.now) ≡ Ok s.now)
        (λ f. only_source_at location (table_view table.now) ≡ Err f) }
{
    if !has_only_keys(table, &["from", "steps"]) {
        return Err(ViewsFault::Shape(location));
    }
    source_in(location, table)
}

/// The items of the array at a key; a missing one is empty.
pub fn array_or_none<'a>(
    location: Location,
    table: &'a Table,
    key: &str,
) -> Result<&'a [Value], ViewsFault>
    ensures { MatchResult result
        (λ vs. sources.array_or_none location (get_member key.now (table_view table.now))
        ≡ Ok (map view vs.now))
        (λ f. sources.array_or_none location (get_member key.now (table_view table.now)) ≡ Err f) }
{
    match find(table, key) {
        Some(value) => array_in(location, value),
        None => Ok(&[]),
    }
}

/// The index of the frame of this name.
#[tactic(auto, unfolding(crate::specs::Sources::frame_named))]
pub fn frame_of_name(
    location: Location,
    name: &str,
    frames: &[FrameSpec],
) -> Result<usize, ViewsFault>
    ensures { result ≡ frame_named location name.now frames.now }
{
    match index_of_name(frames, name) {
        Some(index) => Ok(index),
        None => Err(ViewsFault::NoFrame(location)),
    }
}
