//! Aggregates as a view document writes them.
ghost use Rattle.std.specs.Prelude.{◌≡◌, ◌++◌, OnOk, codes, map, option_map};
ghost use Rattle.toml.specs.View.{items_of};
ghost use Rattle.df_writing.specs.ExpressionData as expression_data;
ghost use Rattle.df_writing.specs.ExpressionData.{aggregate_data, named_aggregate};
ghost use Rattle.df_writing.specs.Texts.{data_text, later_items};

use crate::toml_text::{push_first, push_last_text, push_next};
use df_plan::Agg;
use df_value::Text;
use std::alloc::AllocError;

/// Adds aggregates, each under the name of its output, as the last items of an array, behind another.
pub fn push_aggregates(text: &mut Vec<u8>, aggregates: &[(Text, Agg)]) -> Result<(), AllocError>
    ensures { OnOk result (text.new.items ≡ text.old.items
        ++ later_items (items_of (map aggregate_data aggregates.now))) }
{
    for aggregate in aggregates {
        push_aggregate(text, &aggregate.0, &aggregate.1)?;
    }
    text.extend_from_slice(b"]")
}

fn push_aggregate(text: &mut Vec<u8>, output: &Text, agg: &Agg) -> Result<(), AllocError>
    ensures { OnOk result (text.new.items ≡ text.old.items
        ++ (codes ", " ++ data_text (aggregate_data (output.now, agg.now)))) }
{
    text.extend_from_slice(b", ")?;
    push_named(text, output, aggregate_word(agg), agg.input_column())
}

fn push_named(
    text: &mut Vec<u8>,
    output: &Text,
    word: &str,
    column: Option<&Text>,
) -> Result<(), AllocError>
    ensures { OnOk result (text.new.items ≡ text.old.items
        ++ data_text (named_aggregate output.now word.now (option_map (λ c. c.now) column.entry))) }
{
    push_first(text, output.as_str())?;
    match column {
        Some(column) => {
            push_next(text, word)?;
            push_last_text(text, column.as_str())
        }
        None => push_last_text(text, word),
    }
}

fn aggregate_word(agg: &Agg) -> &'static str
    ensures { result.now ≡ expression_data.aggregate_word agg.now }
{
    match agg {
        Agg::Len => "len",
        Agg::Count(_) => "count",
        Agg::Sum(_) => "sum",
        Agg::Min(_) => "min",
        Agg::Max(_) => "max",
        Agg::First(_) => "first",
        Agg::Last(_) => "last",
        Agg::NUnique(_) => "n_unique",
        Agg::Mean(_) => "mean",
    }
}
