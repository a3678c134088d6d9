//! Steps as a view document writes them.
ghost use Rattle.std.specs.Prelude.{◌≡◌, ◌++◌, OnOk, codes};
ghost use Rattle.std.specs.Fmt.{signed_decimal};
ghost use Rattle.toml.specs.Data.{string};
ghost use Rattle.df_writing.specs.ExpressionData.{expr_data, operand_data, triple_data};
ghost use Rattle.df_writing.specs.StepData as step_data;
ghost use Rattle.df_writing.specs.StepData.{group_by_data, join_head, nulls_items, outputs_data, rank_data, rolling_data};
ghost use Rattle.df_writing.specs.Texts.{data_text, later_items};

use crate::aggregates::push_aggregates;
use crate::expressions::{push_last, push_outputs};
use crate::toml_text::{push_first, push_last_text, push_names, push_next, push_number};
use df_expr::Expr;
use df_plan::{Agg, How, RankKind, RollKind};
use df_value::Text;
use std::alloc::{AllocError, Global};

pub fn push_filter(alloc: Global, text: &mut Vec<u8>, predicate: &Expr) -> Result<(), AllocError>
    ensures { OnOk result (text.new.items ≡ text.old.items
        ++ data_text (operand_data (codes "filter") (expr_data predicate.now))) }
{
    push_first(text, "filter")?;
    push_last(alloc, text, predicate)
}

/// Adds a `select` or a `with_columns`.
pub fn push_outputs_of(
    alloc: Global,
    text: &mut Vec<u8>,
    word: &str,
    outputs: &[(Text, Expr)],
) -> Result<(), AllocError>
    ensures { OnOk result (text.new.items ≡ text.old.items
        ++ data_text (outputs_data word.now outputs.now)) }
{
    push_first(text, word)?;
    push_outputs(alloc, text, outputs)
}

pub fn push_group_by(
    text: &mut Vec<u8>,
    keys: &[Text],
    aggregates: &[(Text, Agg)],
) -> Result<(), AllocError>
    ensures { OnOk result (text.new.items ≡ text.old.items
        ++ data_text (group_by_data keys.now aggregates.now)) }
{
    push_first(text, "group_by")?;
    text.extend_from_slice(b", ")?;
    push_names(text, keys)?;
    push_aggregates(text, aggregates)
}

/// Adds a join up to its right side.
pub fn push_join_head(text: &mut Vec<u8>, how: How, keys: &[Text]) -> Result<(), AllocError>
    ensures { OnOk result (text.new.items ≡ text.old.items ++ join_head how keys.now) }
{
    push_first(text, "join")?;
    push_next(text, how_word(how))?;
    text.extend_from_slice(b", ")?;
    push_names(text, keys)?;
    text.extend_from_slice(b", ")
}

/// Adds the end of a join, behind its right side.
pub fn push_join_end(text: &mut Vec<u8>, nulls_equal: bool) -> Result<(), AllocError>
    ensures { OnOk result (text.new.items ≡ text.old.items ++ later_items (nulls_items nulls_equal)) }
{
    if nulls_equal {
        push_last_text(text, "nulls_equal")
    } else {
        text.extend_from_slice(b"]")
    }
}

fn how_word(how: How) -> &'static str
    ensures { result.now ≡ step_data.how_word how }
{
    match how {
        How::Inner => "inner",
        How::Left => "left",
    }
}

pub fn push_rolling(
    alloc: Global,
    text: &mut Vec<u8>,
    output: &Text,
    kind: RollKind,
    column: &Text,
    w: i64,
    m: i64,
) -> Result<(), AllocError>
    ensures { OnOk result (text.new.items ≡ text.old.items
        ++ data_text (rolling_data output.now kind column.now w m)) }
{
    push_first(text, rolling_word(kind))?;
    push_next(text, output.as_str())?;
    push_next(text, column.as_str())?;
    push_numbers(alloc, text, w, m)
}

// The last two items of an array, behind others.
fn push_numbers(alloc: Global, text: &mut Vec<u8>, w: i64, m: i64) -> Result<(), AllocError>
    ensures { OnOk result (text.new.items ≡ text.old.items
        ++ later_items (step_data.window_items w m)) }
{
    text.extend_from_slice(b", ")?;
    push_number(alloc, text, w)?;
    text.extend_from_slice(b", ")?;
    push_number(alloc, text, m)?;
    text.extend_from_slice(b"]")
}

fn rolling_word(kind: RollKind) -> &'static str
    ensures { result.now ≡ step_data.rolling_word kind }
{
    match kind {
        RollKind::Sum => "rolling_sum",
        RollKind::Min => "rolling_min",
        RollKind::Max => "rolling_max",
    }
}

pub fn push_cum_sum(text: &mut Vec<u8>, output: &Text, column: &Text) -> Result<(), AllocError>
    ensures { OnOk result (text.new.items ≡ text.old.items
        ++ data_text (triple_data (string (codes "cum_sum")) (string output.now) (string column.now))) }
{
    push_first(text, "cum_sum")?;
    push_next(text, output.as_str())?;
    push_last_text(text, column.as_str())
}

pub fn push_rank(
    text: &mut Vec<u8>,
    output: &Text,
    kind: RankKind,
    column: &Text,
) -> Result<(), AllocError>
    ensures { OnOk result (text.new.items ≡ text.old.items
        ++ data_text (rank_data output.now kind column.now)) }
{
    push_first(text, "rank")?;
    push_next(text, output.as_str())?;
    push_next(text, rank_word(kind))?;
    push_last_text(text, column.as_str())
}

fn rank_word(kind: RankKind) -> &'static str
    ensures { result.now ≡ step_data.rank_word kind }
{
    match kind {
        RankKind::Dense => "dense",
        RankKind::Min => "min",
    }
}
