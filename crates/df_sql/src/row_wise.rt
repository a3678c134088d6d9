//! Filters, selects, and columns that are put among others.
use crate::expressions::push_expr;
use crate::statement::{Piece, Statement};
use crate::steps::{Step, push_as, push_columns, push_from, push_names};
use df_expr::Expr;
use df_value::{Text, has_name};
use std::alloc::AllocError;

/// Adds a filter: SQL keeps the rows whose predicate is true, too.
pub fn push_filter(
    out: &mut Statement,
    input: Step<'_>,
    predicate: &Expr,
) -> Result<(), AllocError> {
    push_names(out, input.order, "")?;
    push_columns(out, input.columns)?;
    push_from(out, input)?;
    out.push(&[Piece::Sql("\n  WHERE ")])?;
    push_expr(out, predicate)
}

pub fn push_select(
    out: &mut Statement,
    input: Step<'_>,
    items: &[(Text, Expr)],
) -> Result<(), AllocError> {
    push_names(out, input.order, "")?;
    for item in items {
        push_item(out, item)?;
    }
    push_from(out, input)
}

pub fn push_with_columns(
    out: &mut Statement,
    input: Step<'_>,
    items: &[(Text, Expr)],
) -> Result<(), AllocError> {
    push_names(out, input.order, "")?;
    for column in input.columns {
        push_replaced(out, &column.0, items)?;
    }
    for item in items {
        if !has_name(input.columns, item.0.as_str()) {
            push_item(out, item)?;
        }
    }
    push_from(out, input)
}

// A column, or the item of its name in its place.
fn push_replaced(
    out: &mut Statement,
    column: &Text,
    items: &[(Text, Expr)],
) -> Result<(), AllocError> {
    match items.iter().find(|item| item.0 == *column) {
        Some(item) => push_item(out, item),
        None => out.push(&[Piece::Sql(", "), Piece::Name(column.as_str())]),
    }
}

fn push_item(out: &mut Statement, item: &(Text, Expr)) -> Result<(), AllocError> {
    out.push(&[Piece::Sql(", ")])?;
    push_expr(out, &item.1)?;
    push_as(out, item.0.as_str())
}
