//! The steps that make each row of one row.
ghost use Rattle.std.specs.Prelude.{◌≡◌, map};
ghost use Rattle.toml.specs.View.{view};
ghost use Rattle.df_value.specs.Outcomes.{Answers};
ghost use Rattle.df_text.specs.RowWiseSteps.{filter_of, item_of, items_in, select_of, with_columns_of};

use crate::document::Location;
use crate::expressions::read_expr;
use crate::fault::ViewsFault;
use crate::tree::{array_in, only_in, pair_in, text_in};
use df_expr::Expr;
use df_plan::Plan;
use df_value::{Boxed, List, Text};
use std::alloc::Global;
use toml::Value;

/// Keeps rows: one expression.
pub fn filter(
    alloc: Global,
    location: Location,
    input: Plan,
    items: &[Value],
) -> Result<Plan, ViewsFault>
    ensures { Answers ViewsFault.Memory (filter_of location input (map view items.now)) result }
{
    let input = Boxed::new(alloc, input)?;
    let predicate = only_in(location, items)?;
    match read_expr(alloc, location.item(1), predicate) {
        Ok(predicate) => Ok(Plan::Filter(input, predicate)),
        Err(fault) => Err(fault),
    }
}

/// Makes a table of outputs alone.
pub fn select(
    alloc: Global,
    location: Location,
    input: Plan,
    items: &[Value],
) -> Result<Plan, ViewsFault>
    ensures { Answers ViewsFault.Memory (select_of location input (map view items.now)) result }
{
    let input = Boxed::new(alloc, input)?;
    Ok(Plan::Select(input, read_items(alloc, location, items)?))
}

/// Puts outputs into the table.
pub fn with_columns(
    alloc: Global,
    location: Location,
    input: Plan,
    items: &[Value],
) -> Result<Plan, ViewsFault>
    ensures { Answers ViewsFault.Memory
        (with_columns_of location input (map view items.now)) result }
{
    let input = Boxed::new(alloc, input)?;
    Ok(Plan::WithColumns(input, read_items(alloc, location, items)?))
}

/// The outputs of a step, which stand behind its word, from left to right.
fn read_items(
    alloc: Global,
    location: Location,
    values: &[Value],
) -> Result<List<(Text, Expr)>, ViewsFault>
    ensures { Answers ViewsFault.Memory (items_in location (map view values.now)) result }
{
    let mut items = Vec::new(alloc);
    for value in values {
        let item = read_item(alloc, location.item(items.len() + 1), value)?;
        items.push(item)?;
    }
    Ok(List::from_vec(items))
}

/// An output's name and its expression.
fn read_item(alloc: Global, location: Location, value: &Value) -> Result<(Text, Expr), ViewsFault>
    ensures { Answers ViewsFault.Memory (item_of location (view value.now)) result }
{
    let (name, expr) = pair_in(location, array_in(location, value)?)?;
    let name = Text::from_str(alloc, text_in(location, name)?)?;
    match read_expr(alloc, location, expr) {
        Ok(expr) => Ok((name, expr)),
        Err(fault) => Err(fault),
    }
}
