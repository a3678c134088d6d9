//! Joins: the rows in the order of the left side's, and of one left row in that of the right side's.
use crate::statement::{Piece, Statement};
use crate::steps::{Step, push_as, push_end, push_head, push_step_name};
use df_plan::How;
use df_value::{CellType, Text, has_name};
use std::alloc::AllocError;

/// How the sides of a join match.
#[derive(Clone, Copy)]
pub struct JoinOn<'a> {
    pub how: How,
    pub keys: &'a [Text],
    pub nulls_equal: bool,
}

/// Adds the step behind two others that joins them. It carries the columns of row numbers of both, under the names in `order`,
/// and has these columns: those of the left side, and behind them those of the right side that are no keys.
pub fn push_join(
    out: &mut Statement,
    left: Step<'_>,
    right: Step<'_>,
    order: &[Text],
    columns: &[(Text, CellType)],
    on: JoinOn<'_>,
) -> Result<(), AllocError> {
    push_head(out, right.number.saturating_add(1))?;
    push_left(out, left.order)?;
    let behind = order.iter().skip(left.order.len());
    for (name, new) in right.order.iter().zip(behind) {
        push_right(out, name, new)?;
    }
    for column in left.columns {
        out.push(&[Piece::Sql(", lefts."), Piece::Name(column.0.as_str())])?;
    }
    push_rest(out, right, columns, left.columns.len(), on.keys)?;
    push_sides(out, left, right, on.how)?;
    push_matches(out, on)?;
    push_end(out)
}

// The numbers of the left rows.
fn push_left(out: &mut Statement, order: &[Text]) -> Result<(), AllocError> {
    let mut between = "lefts.";
    for name in order {
        out.push(&[Piece::Sql(between), Piece::Name(name.as_str())])?;
        between = ", lefts.";
    }
    Ok(())
}

fn push_right(out: &mut Statement, name: &Text, new: &Text) -> Result<(), AllocError> {
    out.push(&[Piece::Sql(", rights."), Piece::Name(name.as_str())])?;
    push_as(out, new.as_str())
}

// The right columns that are no keys, under the names that they have in the result.
fn push_rest(
    out: &mut Statement,
    right: Step<'_>,
    columns: &[(Text, CellType)],
    lefts: usize,
    keys: &[Text],
) -> Result<(), AllocError> {
    let mut behind = columns.iter().skip(lefts);
    for column in right.columns {
        if !has_name(keys, column.0.as_str()) {
            if let Some(new) = behind.next() {
                push_right(out, &column.0, &new.0)?;
            }
        }
    }
    Ok(())
}

fn push_sides(
    out: &mut Statement,
    left: Step<'_>,
    right: Step<'_>,
    how: How,
) -> Result<(), AllocError> {
    out.push(&[Piece::Sql("\n  FROM ")])?;
    push_step_name(out, left.number)?;
    out.push(&[
        Piece::Sql(" AS lefts "),
        Piece::Sql(how_words(how)),
        Piece::Sql(" "),
    ])?;
    push_step_name(out, right.number)?;
    out.push(&[Piece::Sql(" AS rights\n  ON ")])
}

fn push_matches(out: &mut Statement, on: JoinOn<'_>) -> Result<(), AllocError> {
    let equals = if on.nulls_equal {
        " IS NOT DISTINCT FROM rights."
    } else {
        " = rights."
    };
    let mut before = "lefts.";
    for key in on.keys {
        out.push(&[
            Piece::Sql(before),
            Piece::Name(key.as_str()),
            Piece::Sql(equals),
            Piece::Name(key.as_str()),
        ])?;
        before = " AND lefts.";
    }
    Ok(())
}

fn how_words(how: How) -> &'static str {
    match how {
        How::Inner => "INNER JOIN",
        How::Left => "LEFT JOIN",
    }
}
