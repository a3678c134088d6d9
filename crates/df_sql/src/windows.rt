//! Rolling windows, cumulative sums and ranks.
use crate::statement::{Piece, Statement};
use crate::steps::{Step, push_as, push_from, push_names, push_order};
use df_plan::{RankKind, RollKind};
use df_value::{Text, has_name};
use std::alloc::AllocError;

/// What a window step puts among the columns.
#[derive(Clone, Copy)]
pub enum Window<'a> {
    /// Of a column, over so many rows, where so many are not null.
    Rolling(RollKind, &'a Text, i64, i64),
    /// Of a column.
    CumSum(&'a Text),
    /// Of a column. Its nulls are last in SQL's order, so that no rank counts them.
    Rank(RankKind, &'a Text),
}

/// Adds a step that puts a column of this name among those of its input.
pub fn push_window(
    out: &mut Statement,
    input: Step<'_>,
    output: &Text,
    window: Window<'_>,
) -> Result<(), AllocError> {
    push_names(out, input.order, "")?;
    for column in input.columns {
        if column.0 == *output {
            push_output(out, input, output, window)?;
        } else {
            out.push(&[Piece::Sql(", "), Piece::Name(column.0.as_str())])?;
        }
    }
    if !has_name(input.columns, output.as_str()) {
        push_output(out, input, output, window)?;
    }
    push_from(out, input)
}

fn push_output(
    out: &mut Statement,
    input: Step<'_>,
    output: &Text,
    window: Window<'_>,
) -> Result<(), AllocError> {
    out.push(&[Piece::Sql(", CASE WHEN ")])?;
    match window {
        Window::Rolling(kind, column, w, m) => push_rolling(out, input, kind, column, w, m)?,
        Window::CumSum(column) => push_cum_sum(out, input, column)?,
        Window::Rank(kind, column) => push_rank(out, kind, column)?,
    }
    out.push(&[Piece::Sql(" END")])?;
    push_as(out, output.as_str())
}

fn push_rolling(
    out: &mut Statement,
    input: Step<'_>,
    kind: RollKind,
    column: &Text,
    w: i64,
    m: i64,
) -> Result<(), AllocError> {
    push_over_rows(out, input, "count", column, w)?;
    out.push(&[Piece::Sql(" >= "), Piece::Number(m), Piece::Sql(" THEN ")])?;
    push_over_rows(out, input, rolling_word(kind), column, w)
}

// An aggregate of a column over a row and those before it, so many together.
fn push_over_rows(
    out: &mut Statement,
    input: Step<'_>,
    aggregate: &str,
    column: &Text,
    w: i64,
) -> Result<(), AllocError> {
    push_aggregate(out, aggregate, column)?;
    push_order(out, input.order)?;
    out.push(&[
        Piece::Sql(" ROWS BETWEEN "),
        Piece::Number(w.saturating_sub(1)),
        Piece::Sql(" PRECEDING AND CURRENT ROW)"),
    ])
}

fn push_aggregate<'a>(
    out: &mut Statement,
    aggregate: &'a str,
    column: &'a Text,
) -> Result<(), AllocError> {
    out.push(&[
        Piece::Sql(aggregate),
        Piece::Sql("("),
        Piece::Name(column.as_str()),
        Piece::Sql(") OVER ("),
    ])
}

fn push_cum_sum(out: &mut Statement, input: Step<'_>, column: &Text) -> Result<(), AllocError> {
    out.push(&[
        Piece::Name(column.as_str()),
        Piece::Sql(" IS NOT NULL THEN "),
    ])?;
    push_aggregate(out, "sum", column)?;
    push_order(out, input.order)?;
    out.push(&[Piece::Sql(" ROWS BETWEEN UNBOUNDED PRECEDING AND CURRENT ROW)")])
}

fn push_rank(out: &mut Statement, kind: RankKind, column: &Text) -> Result<(), AllocError> {
    out.push(&[
        Piece::Name(column.as_str()),
        Piece::Sql(" IS NOT NULL THEN "),
        Piece::Sql(rank_word(kind)),
        Piece::Sql("() OVER (ORDER BY "),
        Piece::Name(column.as_str()),
        Piece::Sql(")"),
    ])
}

fn rolling_word(kind: RollKind) -> &'static str {
    match kind {
        RollKind::Sum => "sum",
        RollKind::Min => "min",
        RollKind::Max => "max",
    }
}

fn rank_word(kind: RankKind) -> &'static str {
    match kind {
        RankKind::Dense => "dense_rank",
        RankKind::Min => "rank",
    }
}
