//! The steps that add a column over a column's rows.
ghost use Rattle.std.specs.Prelude.{◌≡◌, MatchResult, Ok, Err, map, codes, option_map};
ghost use Rattle.toml.specs.View.{view};
ghost use Rattle.df_value.specs.Outcomes.{Answers};
ghost use Rattle.df_text.specs.WindowSteps as window_steps;
ghost use Rattle.df_text.specs.WindowSteps.{window_parts, rolling_of, cum_sum_of, rank_of_word, rank_parts, rank_of};

use crate::document::Location;
use crate::fault::ViewsFault;
use crate::tree::{pair_in, text_in, triple_in};
use df_plan::{Plan, RankKind, RollKind};
use df_value::{Boxed, Text};
use std::alloc::Global;
use toml::Value;

/// A rolling window: output, column, rows and, if wanted, how many of them must not be null.
pub fn rolling(
    alloc: Global,
    location: Location,
    kind: RollKind,
    input: Plan,
    items: &[Value],
) -> Result<Plan, ViewsFault>
    ensures { Answers ViewsFault.Memory
        (rolling_of location kind input (map view items.now)) result }
{
    let input = Boxed::new(alloc, input)?;
    match read_window(alloc, location, items) {
        Ok(((output, column), (rows, least))) => {
            Ok(Plan::Rolling(input, output, kind, column, rows, least))
        }
        Err(fault) => {
            drop(input);
            Err(fault)
        }
    }
}

/// The names of a window's output and column, and its w and m.
fn read_window(
    alloc: Global,
    location: Location,
    items: &[Value],
) -> Result<((Text, Text), (i64, i64)), ViewsFault>
    ensures { Answers ViewsFault.Memory (window_parts location (map view items.now)) result }
{
    let (output, column, rows, least) = window_items(location, items)?;
    let names = names_in(alloc, location, output, column)?;
    match window_numbers(location, rows, least) {
        Ok(rows) => Ok((names, rows)),
        Err(fault) => {
            drop(names);
            Err(fault)
        }
    }
}

/// An output, a column, w and, if it stands there, m.
fn window_items(
    location: Location,
    items: &[Value],
) -> Result<(&Value, &Value, &Value, Option<&Value>), ViewsFault>
    ensures { MatchResult result
        (λ w. window_steps.window_items location (map view items.now)
        ≡ Ok (view w.0.now, view w.1.now, view w.2.now, option_map (λ v. view v.now) w.3))
        (λ f. window_steps.window_items location (map view items.now) ≡ Err f) }
{
    match items {
        [output, column, rows] => Ok((output, column, rows, None)),
        [output, column, rows, least] => Ok((output, column, rows, Some(least))),
        _ => Err(ViewsFault::Shape(location)),
    }
}

/// w and m of a window; without m, m is w.
fn window_numbers(
    location: Location,
    rows: &Value,
    least: Option<&Value>,
) -> Result<(i64, i64), ViewsFault>
    ensures { MatchResult result
        (λ r. window_steps.window_numbers location (view rows.now)
        (option_map (λ v. view v.now) least.entry) ≡ Ok r)
        (λ f. window_steps.window_numbers location (view rows.now)
        (option_map (λ v. view v.now) least.entry) ≡ Err f) }
{
    let rows = int_in(location.item(3), rows)?;
    match least {
        Some(least) => Ok((rows, int_in(location.item(4), least)?)),
        None => Ok((rows, rows)),
    }
}

/// A cumulative sum: output, column.
pub fn cum_sum(
    alloc: Global,
    location: Location,
    input: Plan,
    items: &[Value],
) -> Result<Plan, ViewsFault>
    ensures { Answers ViewsFault.Memory (cum_sum_of location input (map view items.now)) result }
{
    let input = Boxed::new(alloc, input)?;
    let (output, column) = pair_in(location, items)?;
    let (output, column) = names_in(alloc, location, output, column)?;
    Ok(Plan::CumSum(input, output, column))
}

/// A rank: output, kind, column.
pub fn rank(
    alloc: Global,
    location: Location,
    input: Plan,
    items: &[Value],
) -> Result<Plan, ViewsFault>
    ensures { Answers ViewsFault.Memory (rank_of location input (map view items.now)) result }
{
    let input = Boxed::new(alloc, input)?;
    match read_rank(alloc, location, items) {
        Ok((output, kind, column)) => Ok(Plan::Rank(input, output, kind, column)),
        Err(fault) => {
            drop(input);
            Err(fault)
        }
    }
}

/// A rank, apart from the plan that it is applied to.
fn read_rank(
    alloc: Global,
    location: Location,
    items: &[Value],
) -> Result<(Text, RankKind, Text), ViewsFault>
    ensures { Answers ViewsFault.Memory (rank_parts location (map view items.now)) result }
{
    let (output, kind, column) = triple_in(location, items)?;
    let output = text_in(location.item(1), output)?;
    let place = location.item(2);
    let kind = rank_named(place, text_in(place, kind)?)?;
    let column = text_in(location.item(3), column)?;
    let output = Text::from_str(alloc, output)?;
    match Text::from_str(alloc, column) {
        Ok(column) => Ok((output, kind, column)),
        Err(_) => {
            drop(output);
            Err(ViewsFault::Memory)
        }
    }
}

/// The kind of rank that a word names.
fn rank_named(location: Location, word: &str) -> Result<RankKind, ViewsFault>
    ensures { result ≡ rank_of_word location word.now }
{
    match word {
        "dense" => Ok(RankKind::Dense),
        "min" => Ok(RankKind::Min),
        _ => Err(ViewsFault::Word(location)),
    }
}

/// An output's name and a column's.
fn names_in(
    alloc: Global,
    location: Location,
    output: &Value,
    column: &Value,
) -> Result<(Text, Text), ViewsFault>
    ensures { Answers ViewsFault.Memory
        (window_steps.names_in location (view output.now) (view column.now)) result }
{
    let output = text_in(location.item(1), output)?;
    let column = text_in(location.item(2), column)?;
    let output = Text::from_str(alloc, output)?;
    Ok((output, Text::from_str(alloc, column)?))
}

/// The whole number that a value is.
fn int_in(location: Location, value: &Value) -> Result<i64, ViewsFault>
    ensures { result ≡ window_steps.int_in location (view value.now) }
{
    match value {
        Value::Integer(n) => Ok(*n),
        _ => Err(ViewsFault::Shape(location)),
    }
}
