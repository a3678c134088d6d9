//! The steps of a view.
ghost use Rattle.std.specs.Prelude.{◌≡◌, MatchResult, Ok, Err, map, codes};
ghost use Rattle.toml.specs.View.{items_of, table_view, view};
ghost use Rattle.df_text.specs.declared.view_steps.StepWord.TheVariants.{Join};
ghost use Rattle.df_value.specs.Outcomes.{then_next, Answers};
ghost use Rattle.df_text.specs.Reading.{read_each};
ghost use Rattle.df_text.specs.Tree as tree_spec;
ghost use Rattle.df_text.specs.Steps as steps_spec;
ghost use Rattle.df_text.specs.Steps.{step_of_word, group_by_of, keys_in, kind_of_word, nulls_equal_of, nulls_equal_of_word, steps_after, step_of, applied_step, side_of, steps_at};

use crate::aggregates::read_aggregates;
use crate::document::{FrameSpec, Location};
use crate::fault::ViewsFault;
use crate::from_tables::{array_or_none, frame_of_name, only_source_in};
use crate::row_wise_steps::{filter, select, with_columns};
use crate::tree::{array_in, first_in, text_in};
use crate::window_steps::{cum_sum, rank, rolling};
use df_plan::{How, Plan, RollKind};
use df_value::{Boxed, List, Text};
use std::alloc::Global;
use toml::{Table, Value};

/// What the word of a step stands for.
#[derive(Clone, Copy)]
pub enum StepWord {
    Filter,
    Select,
    WithColumns,
    GroupBy,
    Join,
    Rolling(RollKind),
    CumSum,
    Rank,
}

/// The plan after the steps of a table, if it has any.
#[cycle(steps)]
pub fn apply_table(
    alloc: Global,
    location: Location,
    frames: &[FrameSpec],
    input: Plan,
    table: &Table,
) -> Result<Plan, ViewsFault>
    ensures { Answers ViewsFault.Memory
        (steps_at location frames.now input (table_view table.now)) result }
{
    match array_or_none(location, table, "steps") {
        Ok(steps) => apply_steps(alloc, location, frames, input, steps),
        Err(fault) => {
            drop(input);
            Err(fault)
        }
    }
}

/// The plan after these steps, which are applied in order.
#[cycle(steps)]
fn apply_steps(
    alloc: Global,
    location: Location,
    frames: &[FrameSpec],
    input: Plan,
    steps: &[Value],
) -> Result<Plan, ViewsFault>
    ensures { Answers ViewsFault.Memory
        (steps_after location 0 frames.now input (items_of (map view steps.now))) result }
{
    let mut plan = input;
    for at in 0..steps.len() {
        plan = apply_step(alloc, location.step(at), frames, plan, &steps[at])?;
    }
    Ok(plan)
}

/// The plan after a step.
#[cycle(steps)]
fn apply_step(
    alloc: Global,
    location: Location,
    frames: &[FrameSpec],
    input: Plan,
    step: &Value,
) -> Result<Plan, ViewsFault>
    ensures { Answers ViewsFault.Memory (step_of location frames.now input (view step.now)) result }
{
    match step_in(location, step) {
        Ok((word, items)) => apply(alloc, location, frames, word, input, items),
        Err(fault) => {
            drop(input);
            Err(fault)
        }
    }
}

/// The step that a value names, and the items after its word.
fn step_in(location: Location, step: &Value) -> Result<(StepWord, &[Value]), ViewsFault>
    ensures { MatchResult result
        (λ s. steps_spec.step_in location (view step.now) ≡ Ok (s.0, map view s.1.now))
        (λ f. steps_spec.step_in location (view step.now) ≡ Err f) }
{
    let (word, items) = first_in(location, array_in(location, step)?)?;
    let word = step_named(location, text_in(location, word)?)?;
    Ok((word, items))
}

/// The plan after a step of this word, with the items after the word.
#[cycle(steps)]
fn apply(
    alloc: Global,
    location: Location,
    frames: &[FrameSpec],
    word: StepWord,
    input: Plan,
    items: &[Value],
) -> Result<Plan, ViewsFault>
    ensures { Answers ViewsFault.Memory
        (applied_step location frames.now word input (items_of (map view items.now))) result }
{
    match word {
        StepWord::Filter => filter(alloc, location, input, items),
        StepWord::Select => select(alloc, location, input, items),
        StepWord::WithColumns => with_columns(alloc, location, input, items),
        StepWord::GroupBy => group_by(alloc, location, input, items),
        StepWord::Join => join(alloc, location, frames, input, items),
        StepWord::Rolling(kind) => rolling(alloc, location, kind, input, items),
        StepWord::CumSum => cum_sum(alloc, location, input, items),
        StepWord::Rank => rank(alloc, location, input, items),
    }
}

/// Joins: a kind, an array of key names, the right side, and perhaps the word that null keys match.
#[cycle(steps)]
fn join(
    alloc: Global,
    location: Location,
    frames: &[FrameSpec],
    input: Plan,
    items: &[Value],
) -> Result<Plan, ViewsFault>
    ensures { Answers ViewsFault.Memory
        (applied_step location frames.now Join input (items_of (map view items.now))) result }
{
    let input = Boxed::new(alloc, input)?;
    let (kind, keys, right, rest) = join_items(location, items)?;
    match kind_and_keys(alloc, location, kind, keys) {
        Ok((how, keys)) => match read_right(alloc, location.item(3), frames, right) {
            Ok(right) => joined(location, input, right, how, keys, rest),
            Err(fault) => Err(fault),
        },
        Err(fault) => Err(fault),
    }
}

/// The kind, the keys and the right side of a join, and the item after them, if there is one.
fn join_items(
    location: Location,
    items: &[Value],
) -> Result<(&Value, &Value, &Value, &[Value]), ViewsFault>
    ensures { MatchResult result
        (λ t. steps_spec.join_items location (map view items.now)
        ≡ Ok (view t.0.now, view t.1.now, view t.2.now, map view t.3.now))
        (λ f. steps_spec.join_items location (map view items.now) ≡ Err f) }
{
    match items {
        [kind, keys, right] => Ok((kind, keys, right, &[])),
        [kind, keys, right, rest @ ..] if rest.len() == 1 => Ok((kind, keys, right, rest)),
        _ => Err(ViewsFault::Shape(location)),
    }
}

/// The join of these parts, and of the word after them, if there is one.
fn joined(
    location: Location,
    left: Boxed<Plan>,
    right: Boxed<Plan>,
    how: How,
    keys: List<Text>,
    rest: &[Value],
) -> Result<Plan, ViewsFault>
    ensures { result ≡ then_next (nulls_equal_of location (map view rest.now))
        (λ equal. Ok (Plan.Join left right how keys equal)) }
{
    match nulls_equal_in(location, rest) {
        Ok(nulls_equal) => Ok(Plan::Join(left, right, how, keys, nulls_equal)),
        Err(fault) => {
            drop((left, right, keys));
            Err(fault)
        }
    }
}

/// Whether null keys match: where a word says so.
fn nulls_equal_in(location: Location, rest: &[Value]) -> Result<bool, ViewsFault>
    ensures { result ≡ nulls_equal_of location (map view rest.now) }
{
    match rest {
        [word, ..] => nulls_equal_word(location.item(4), word),
        [] => Ok(false),
    }
}

fn nulls_equal_word(location: Location, word: &Value) -> Result<bool, ViewsFault>
    ensures { result ≡ then_next (tree_spec.text_in location (view word.now)) (nulls_equal_of_word location) }
{
    nulls_equal_named(location, text_in(location, word)?)
}

fn nulls_equal_named(location: Location, word: &str) -> Result<bool, ViewsFault>
    ensures { result ≡ nulls_equal_of_word location word.now }
{
    match word {
        "nulls_equal" => Ok(true),
        _ => Err(ViewsFault::Word(location)),
    }
}

/// The right side of a join: a frame's name, or a table that begins with a frame.
#[cycle(steps)]
fn read_right(
    alloc: Global,
    location: Location,
    frames: &[FrameSpec],
    right: &Value,
) -> Result<Boxed<Plan>, ViewsFault>
    ensures { Answers ViewsFault.Memory (side_of location frames.now (view right.now)) result }
{
    let plan = match right {
        Value::String(name) => Plan::Scan(frame_of_name(location, name.as_str(), frames)?),
        Value::Table(table) => {
            let index = frame_of_name(location, only_source_in(location, table)?, frames)?;
            apply_table(alloc, location, frames, Plan::Scan(index), table)?
        }
        _ => return Err(ViewsFault::Shape(location)),
    };
    Ok(Boxed::new(alloc, plan)?)
}

/// The kind of a join, and its keys.
fn kind_and_keys(
    alloc: Global,
    location: Location,
    kind: &Value,
    keys: &Value,
) -> Result<(How, List<Text>), ViewsFault>
    ensures { Answers ViewsFault.Memory
        (steps_spec.kind_and_keys location (view kind.now) (view keys.now)) result }
{
    let how = kind_in(location.item(1), kind)?;
    let keys = read_keys(alloc, location.item(2), keys)?;
    Ok((how, keys))
}

/// The kind of join that a value names.
fn kind_in(location: Location, kind: &Value) -> Result<How, ViewsFault>
    ensures { result ≡ steps_spec.kind_in location (view kind.now) }
{
    kind_named(location, text_in(location, kind)?)
}

/// The kind of join that a word names.
fn kind_named(location: Location, word: &str) -> Result<How, ViewsFault>
    ensures { result ≡ kind_of_word location word.now }
{
    match word {
        "inner" => Ok(How::Inner),
        "left" => Ok(How::Left),
        _ => Err(ViewsFault::Word(location)),
    }
}

/// The step that a word names.
fn step_named(location: Location, word: &str) -> Result<StepWord, ViewsFault>
    ensures { result ≡ step_of_word location word.now }
{
    match word {
        "filter" => Ok(StepWord::Filter),
        "select" => Ok(StepWord::Select),
        "with_columns" => Ok(StepWord::WithColumns),
        "group_by" => Ok(StepWord::GroupBy),
        "join" => Ok(StepWord::Join),
        "rolling_sum" => Ok(StepWord::Rolling(RollKind::Sum)),
        "rolling_min" => Ok(StepWord::Rolling(RollKind::Min)),
        "rolling_max" => Ok(StepWord::Rolling(RollKind::Max)),
        "cum_sum" => Ok(StepWord::CumSum),
        "rank" => Ok(StepWord::Rank),
        _ => Err(ViewsFault::Word(location)),
    }
}

/// Groups: an array of key names, and then the aggregates.
fn group_by(
    alloc: Global,
    location: Location,
    input: Plan,
    items: &[Value],
) -> Result<Plan, ViewsFault>
    ensures { Answers ViewsFault.Memory (group_by_of location input (map view items.now)) result }
{
    let input = Boxed::new(alloc, input)?;
    let (keys, aggregates) = first_in(location, items)?;
    let keys = read_keys(alloc, location.item(1), keys)?;
    let aggregates = read_aggregates(alloc, location, aggregates)?;
    Ok(Plan::GroupBy(input, keys, aggregates))
}

/// An array of names.
fn read_keys(alloc: Global, location: Location, value: &Value) -> Result<List<Text>, ViewsFault>
    ensures { Answers ViewsFault.Memory (keys_in location (view value.now)) result }
{
    read_names(alloc, location, array_in(location, value)?)
}

/// A list of names.
fn read_names(alloc: Global, location: Location, values: &[Value]) -> Result<List<Text>, ViewsFault>
    ensures { Answers ViewsFault.Memory
        (read_each (tree_spec.text_in location) (map view values.now)) result }
{
    let mut names = Vec::new(alloc);
    for value in values {
        let name = Text::from_str(alloc, text_in(location, value)?)?;
        names.push(name)?;
    }
    Ok(List::from_vec(names))
}
