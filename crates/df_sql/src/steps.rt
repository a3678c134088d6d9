//! Steps, each a common table expression over the one before.
use crate::statement::{Piece, Statement};
use df_value::{CellType, Text};
use std::alloc::AllocError;

/// A step that another one reads: its number, the columns of row numbers that it carries, and its own columns.
#[derive(Clone, Copy)]
pub struct Step<'a> {
    pub number: u32,
    pub order: &'a [Text],
    pub columns: &'a [(Text, CellType)],
}

/// Adds the head of the step of this number, up to the columns that it selects.
pub fn push_head(out: &mut Statement, number: u32) -> Result<(), AllocError> {
    let before = if number == 1 { "WITH " } else { ", " };
    out.push(&[Piece::Sql(before)])?;
    push_step_name(out, number)?;
    out.push(&[Piece::Sql(" AS (\n  SELECT ")])
}

/// Adds the end of a step over one other.
pub fn push_from(out: &mut Statement, step: Step<'_>) -> Result<(), AllocError> {
    out.push(&[Piece::Sql("\n  FROM ")])?;
    push_step_name(out, step.number)
}

/// Adds the end of a step.
pub fn push_end(out: &mut Statement) -> Result<(), AllocError> {
    out.push(&[Piece::Sql("\n)")])
}

pub fn push_step_name(out: &mut Statement, number: u32) -> Result<(), AllocError> {
    out.push(&[Piece::Sql("step_"), Piece::Number(number as i64)])
}

/// Adds the names of columns, each but the first behind a comma, and each followed by these words.
pub fn push_names<'a>(
    out: &mut Statement,
    names: &'a [Text],
    behind: &'a str,
) -> Result<(), AllocError> {
    let mut between = "";
    for name in names {
        out.push(&[
            Piece::Sql(between),
            Piece::Name(name.as_str()),
            Piece::Sql(behind),
        ])?;
        between = ", ";
    }
    Ok(())
}

/// Adds the columns of a step as they are, each behind a comma.
pub fn push_columns(out: &mut Statement, columns: &[(Text, CellType)]) -> Result<(), AllocError> {
    for column in columns {
        out.push(&[Piece::Sql(", "), Piece::Name(column.0.as_str())])?;
    }
    Ok(())
}

/// Adds the name that a column gets.
pub fn push_as(out: &mut Statement, name: &str) -> Result<(), AllocError> {
    out.push(&[Piece::Sql(" AS "), Piece::Name(name)])
}

/// Adds the order of a step's rows.
pub fn push_order(out: &mut Statement, order: &[Text]) -> Result<(), AllocError> {
    out.push(&[Piece::Sql("ORDER BY ")])?;
    push_names(out, order, "")
}
