//! Frames as tables.
use crate::numbers::number_names;
use crate::statement::{Piece, Statement, has_byte};
use crate::types::type_words;
use df_plan::Plan;
use df_text::FrameSpec;
use df_value::{CellType, Text};
use std::alloc::{AllocError, Global};

const NO_LINE: &str =
    "-- Not exact: no line of psql names a table with a line break; this one is to be filled by COPY.\n";

/// Adds the table of the frame at an index, whose first column has the row's number.
pub fn push_table(
    alloc: Global,
    out: &mut Statement,
    frames: &[FrameSpec],
    at: usize,
) -> Result<(), AllocError> {
    let Some(frame) = frames.get(at) else {
        return Ok(());
    };
    out.push(&[Piece::Sql("CREATE TABLE IF NOT EXISTS ")])?;
    push_table_name(out, frame.name.as_str())?;
    let names = number_names(alloc, &Plan::Scan(at), frames)?;
    let pushed = push_number_column(out, names.as_slice());
    drop(names);
    pushed?;
    for column in frame.schema.columns().as_slice() {
        push_column(out, &column.0, column.1)?;
    }
    out.push(&[Piece::Sql("\n);\n")])
}

// The column of the row numbers, under the first of these names.
fn push_number_column(out: &mut Statement, names: &[Text]) -> Result<(), AllocError> {
    match names.first() {
        Some(name) => {
            out.push(&[
                Piece::Sql(" (\n  "),
                Piece::Name(name.as_str()),
                Piece::Sql(" bigint PRIMARY KEY"),
            ])
        }
        None => Ok(()),
    }
}

fn push_column(out: &mut Statement, name: &Text, dtype: CellType) -> Result<(), AllocError> {
    out.push(&[
        Piece::Sql(",\n  "),
        Piece::Name(name.as_str()),
        Piece::Sql(" "),
        Piece::Sql(type_words(dtype)),
    ])
}

pub fn push_table_name(out: &mut Statement, name: &str) -> Result<(), AllocError> {
    out.push(&[Piece::Sql("frames."), Piece::Name(name)])
}

/// Adds the line for `psql` that fills the table of a frame. A line break would end it.
pub fn push_copy(alloc: Global, out: &mut Statement, name: &str) -> Result<(), AllocError> {
    if has_byte(name, b'\n') || has_byte(name, b'\r') {
        return out.push(&[Piece::Sql(NO_LINE)]);
    }
    let file = format!(in alloc; "{name}.csv")?;
    out.push(&[Piece::Sql("\\copy ")])?;
    push_table_name(out, name)?;
    out.push(&[
        Piece::Sql(" FROM "),
        Piece::Literal(file.as_str()),
        Piece::Sql(" WITH (FORMAT csv, HEADER)\n"),
    ])
}
