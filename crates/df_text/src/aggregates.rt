//! The aggregates of a `group_by`.
ghost use Rattle.std.specs.Prelude.{◌≡◌, map, codes};
ghost use Rattle.toml.specs.View.{view};
ghost use Rattle.df_value.specs.Outcomes.{Answers};
ghost use Rattle.df_text.specs.AggregateItems as aggregate_items;
ghost use Rattle.df_text.specs.AggregateItems.{agg_of_word, output_and_aggregate_of, aggregate_item_of, aggregates_in};

use crate::document::Location;
use crate::fault::ViewsFault;
use crate::tree::{array_in, first_in, none_in, only_in, text_in};
use df_plan::Agg;
use df_value::{List, Text};
use std::alloc::Global;
use toml::Value;

/// What the word of an aggregate stands for.
#[derive(Clone, Copy)]
pub enum AggWord {
    Len,
    Column(ColumnWord),
}

/// What the word of an aggregate of a column stands for.
#[derive(Clone, Copy)]
pub enum ColumnWord {
    Count,
    Sum,
    Min,
    Max,
    First,
    Last,
    NUnique,
    Mean,
}

/// The aggregates of a grouping, which stand behind its word and its keys, from left to right.
pub fn read_aggregates(
    alloc: Global,
    location: Location,
    values: &[Value],
) -> Result<List<(Text, Agg)>, ViewsFault>
    ensures { Answers ViewsFault.Memory (aggregates_in location (map view values.now)) result }
{
    let mut aggregates = Vec::new(alloc);
    for value in values {
        let aggregate = read_aggregate(alloc, location.item(aggregates.len() + 2), value)?;
        aggregates.push(aggregate)?;
    }
    Ok(List::from_vec(aggregates))
}

/// An aggregate and the name of its output.
fn read_aggregate(
    alloc: Global,
    location: Location,
    value: &Value,
) -> Result<(Text, Agg), ViewsFault>
    ensures { Answers ViewsFault.Memory (aggregate_item_of location (view value.now)) result }
{
    let (output, rest) = first_in(location, array_in(location, value)?)?;
    let (word, rest) = first_in(location, rest)?;
    let word = agg_named(location, text_in(location, word)?)?;
    read_output(alloc, location, word, output, rest)
}

/// The aggregate that a word names.
fn agg_named(location: Location, word: &str) -> Result<AggWord, ViewsFault>
    ensures { result ≡ agg_of_word location word.now }
{
    match word {
        "len" => Ok(AggWord::Len),
        "count" => Ok(AggWord::Column(ColumnWord::Count)),
        "sum" => Ok(AggWord::Column(ColumnWord::Sum)),
        "min" => Ok(AggWord::Column(ColumnWord::Min)),
        "max" => Ok(AggWord::Column(ColumnWord::Max)),
        "first" => Ok(AggWord::Column(ColumnWord::First)),
        "last" => Ok(AggWord::Column(ColumnWord::Last)),
        "n_unique" => Ok(AggWord::Column(ColumnWord::NUnique)),
        "mean" => Ok(AggWord::Column(ColumnWord::Mean)),
        _ => Err(ViewsFault::Word(location)),
    }
}

/// An aggregate of this word, with the items after the word.
fn read_output(
    alloc: Global,
    location: Location,
    word: AggWord,
    output: &Value,
    rest: &[Value],
) -> Result<(Text, Agg), ViewsFault>
    ensures { Answers ViewsFault.Memory
        (output_and_aggregate_of location word (view output.now) (map view rest.now)) result }
{
    match word {
        AggWord::Len => {
            none_in(location, rest)?;
            let output = text_in(location, output)?;
            Ok((Text::from_str(alloc, output)?, Agg::Len))
        }
        AggWord::Column(word) => {
            let column = only_in(location, rest)?;
            let output = text_in(location, output)?;
            let column = text_in(location, column)?;
            let output = Text::from_str(alloc, output)?;
            Ok((output, column_agg(word, Text::from_str(alloc, column)?)))
        }
    }
}

fn column_agg(word: ColumnWord, column: Text) -> Agg
    ensures { result ≡ aggregate_items.column_agg word column }
{
    match word {
        ColumnWord::Count => Agg::Count(column),
        ColumnWord::Sum => Agg::Sum(column),
        ColumnWord::Min => Agg::Min(column),
        ColumnWord::Max => Agg::Max(column),
        ColumnWord::First => Agg::First(column),
        ColumnWord::Last => Agg::Last(column),
        ColumnWord::NUnique => Agg::NUnique(column),
        ColumnWord::Mean => Agg::Mean(column),
    }
}
