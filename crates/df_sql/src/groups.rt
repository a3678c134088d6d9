//! Groups: a row for each, in the order of their first rows.
use crate::aggregates::{push_aggregate, push_first};
use crate::statement::{Piece, Statement};
use crate::steps::{Step, push_as, push_from, push_names};
use df_plan::Agg;
use df_value::Text;
use std::alloc::AllocError;

pub fn push_group_by(
    out: &mut Statement,
    input: Step<'_>,
    keys: &[Text],
    aggregates: &[(Text, Agg)],
) -> Result<(), AllocError> {
    push_first_numbers(out, input)?;
    for key in keys {
        out.push(&[Piece::Sql(", "), Piece::Name(key.as_str())])?;
    }
    for aggregate in aggregates {
        out.push(&[Piece::Sql(", ")])?;
        push_aggregate(out, input, &aggregate.1)?;
        push_as(out, aggregate.0.as_str())?;
    }
    push_from(out, input)?;
    out.push(&[Piece::Sql("\n  GROUP BY ")])?;
    push_names(out, keys, "")
}

// The numbers of the group's first row, under their own names.
fn push_first_numbers(out: &mut Statement, input: Step<'_>) -> Result<(), AllocError> {
    match input.order {
        [only] => {
            out.push(&[
                Piece::Sql("min("),
                Piece::Name(only.as_str()),
                Piece::Sql(")"),
            ])?;
            push_as(out, only.as_str())
        }
        several => push_several(out, input, several),
    }
}

fn push_several(out: &mut Statement, input: Step<'_>, several: &[Text]) -> Result<(), AllocError> {
    let mut between = "";
    for name in several {
        out.push(&[Piece::Sql(between)])?;
        push_first(out, input, name)?;
        push_as(out, name.as_str())?;
        between = ", ";
    }
    Ok(())
}
