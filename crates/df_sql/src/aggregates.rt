//! Aggregates of a group.
use crate::statement::{Piece, Statement};
use crate::steps::{Step, push_names, push_order};
use df_plan::Agg;
use df_value::{CellType, Text, column_dtype};
use std::alloc::AllocError;

/// Adds an aggregate of the rows of a group.
pub fn push_aggregate(
    out: &mut Statement,
    input: Step<'_>,
    aggregate: &Agg,
) -> Result<(), AllocError> {
    match aggregate {
        Agg::Len => out.push(&[Piece::Sql("count(*)")]),
        Agg::Count(column) => push_call(out, "count(", column, ")"),
        Agg::Sum(column) => push_sum(out, column, is_bool(input, column)),
        Agg::Min(column) if is_bool(input, column) => push_call(out, "bool_and(", column, ")"),
        Agg::Max(column) if is_bool(input, column) => push_call(out, "bool_or(", column, ")"),
        Agg::Min(column) => push_call(out, "min(", column, ")"),
        Agg::Max(column) => push_call(out, "max(", column, ")"),
        Agg::First(column) => push_first(out, input, column),
        Agg::Last(column) => push_last(out, input, column),
        Agg::NUnique(column) => push_n_unique(out, column),
        Agg::Mean(column) => push_mean(out, column),
    }
}

fn is_bool(input: Step<'_>, column: &Text) -> bool {
    column_dtype(column, input.columns) == Some(CellType::Bool)
}

// A column between words.
fn push_call(
    out: &mut Statement,
    before: &str,
    column: &Text,
    behind: &str,
) -> Result<(), AllocError> {
    out.push(&[
        Piece::Sql(before),
        Piece::Name(column.as_str()),
        Piece::Sql(behind),
    ])
}

// The sum of whole numbers, or the number of trues; 0 over none.
fn push_sum(out: &mut Statement, column: &Text, of_bool: bool) -> Result<(), AllocError> {
    if of_bool {
        push_call(out, "(count(*) FILTER (WHERE ", column, "))::numeric")
    } else {
        push_call(out, "coalesce(sum(", column, "), 0)")
    }
}

/// Adds the cell of a column in the group's first row, a null one too.
pub fn push_first(out: &mut Statement, input: Step<'_>, column: &Text) -> Result<(), AllocError> {
    push_call(out, "(array_agg(", column, " ")?;
    push_order(out, input.order)?;
    out.push(&[Piece::Sql("))[1]")])
}

fn push_last(out: &mut Statement, input: Step<'_>, column: &Text) -> Result<(), AllocError> {
    push_call(out, "(array_agg(", column, " ORDER BY ")?;
    push_names(out, input.order, " DESC")?;
    out.push(&[Piece::Sql("))[1]")])
}

// Null is one value.
fn push_n_unique(out: &mut Statement, column: &Text) -> Result<(), AllocError> {
    push_call(out, "count(DISTINCT ", column, ")")?;
    push_call(
        out,
        " + max(CASE WHEN ",
        column,
        " IS NULL THEN 1 ELSE 0 END)",
    )
}

// The sum is null over no cell, and so is the whole.
fn push_mean(out: &mut Statement, column: &Text) -> Result<(), AllocError> {
    push_call(out, "sum(", column, ") || '/' || ")?;
    push_call(out, "count(", column, ")")
}
