//! Tables and parts of them, in each format.
ghost use Rattle.std.specs.Prelude.{◌≡◌, ◌++◌, IfOk, OnOk, drop, string_bytes, take};
ghost use Rattle.df_session.specs.Parts as parts;
ghost use Rattle.df_session.specs.Parts.{around_line, more_line, numbered_in, part_in, part_line, part_rows, part_text};

use crate::command::{Format, Part};
use crate::prompts::plural_end;
use crate::telling::print_rows;
use df_export::{csv_table, json_lines, numbered_csv_table, numbered_json_lines};
use df_page::view_section;
use df_text::print_table;
use df_value::{Row, Schema, Text};
use std::alloc::{AllocError, Global};

/// A part of the rows of a table in a format: printed, also how many rows lie around it, and in a page how many more there are.
pub fn write_part(
    alloc: Global,
    name: &Text,
    schema: &Schema,
    rows: &[Row],
    part: Part,
    format: Format,
) -> Result<Vec<u8>, AllocError>
    ensures { IfOk result (λ text.
        text.items ≡ part_in format name.now schema.now part rows.now) }
{
    match format {
        Format::Printed => print_part(alloc, name, schema, rows, part),
        Format::Csv => csv_table(alloc, schema, rows_in(part, rows)),
        Format::Json => json_lines(alloc, schema, rows_in(part, rows)),
        Format::Html => {
            view_section(alloc, name, schema, rows_in(part, rows), rows.len(), &[], 0)
        }
    }
}

/// The table of a frame in a format, with the numbers of its rows: printed below it, else in a
/// first column. The section of a page has no numbers.
pub fn write_rows(
    alloc: Global,
    name: &Text,
    schema: &Schema,
    rows: &[Row],
    numbers: &[u32],
    format: Format,
) -> Result<Vec<u8>, AllocError>
    ensures { IfOk result (λ text.
        text.items ≡ numbered_in format name.now schema.now rows.now numbers.now) }
{
    match format {
        Format::Printed => print_rows(alloc, name, schema, rows, numbers),
        Format::Csv => numbered_csv_table(alloc, schema, rows, numbers),
        Format::Json => numbered_json_lines(alloc, schema, rows, numbers),
        Format::Html => view_section(alloc, name, schema, rows, rows.len(), &[], 0),
    }
}

// A part of the rows of a table, printed, and below it how many rows lie around it.
fn print_part(
    alloc: Global,
    name: &Text,
    schema: &Schema,
    rows: &[Row],
    part: Part,
) -> Result<Vec<u8>, AllocError>
    ensures { IfOk result (λ text.
        text.items ≡ part_text name.now schema.now part rows.now) }
{
    let mut text = print_table(alloc, name, schema, rows_in(part, rows))?;
    push_line(alloc, &mut text, part, rows.len())?;
    Ok(text)
}

fn rows_in(part: Part, rows: &[Row]) -> &[Row]
    ensures { result.now ≡ part_rows part rows.now }
{
    match part {
        Part::Whole => rows,
        Part::First(count) => first_of(count, rows),
        Part::From(first, count) => first_of(count, behind(first, rows)),
    }
}

// At most so many, from the first on.
fn first_of(count: usize, rows: &[Row]) -> &[Row]
    ensures { result.now ≡ take count rows.now }
{
    if count < rows.len() {
        &rows[..count]
    } else {
        rows
    }
}

// Those behind so many.
fn behind(count: usize, rows: &[Row]) -> &[Row]
    ensures { result.now ≡ drop count rows.now }
{
    if count < rows.len() {
        &rows[count..]
    } else {
        &rows[rows.len()..]
    }
}

fn push_line(alloc: Global, text: &mut Vec<u8>, part: Part, total: usize) -> Result<(), AllocError>
    ensures { OnOk result (text.new.items ≡ text.old.items ++ part_line part total) }
{
    match part {
        Part::Whole => Ok(()),
        Part::First(count) => push_more(alloc, text, total.saturating_sub(count)),
        Part::From(first, count) => {
            let before = first.min(total);
            let after = total.saturating_sub(first).saturating_sub(count);
            let line = around(alloc, before, after)?;
            Ok(text.extend_from_slice(line.as_bytes())?)
        }
    }
}

fn push_more(alloc: Global, text: &mut Vec<u8>, more: usize) -> Result<(), AllocError>
    ensures { OnOk result (text.new.items ≡ text.old.items ++ more_line more) }
{
    if more > 0 {
        let line = more_rows(alloc, more)?;
        text.extend_from_slice(line.as_bytes())?;
    }
    Ok(())
}

fn more_rows(alloc: Global, more: usize) -> Result<String, AllocError>
    ensures { IfOk result (λ line. string_bytes line ≡ parts.more_rows more) }
{
    let end = plural_end(more);
    format!(in alloc; ".. {more} more row{end}\n")
}

fn around(alloc: Global, before: usize, after: usize) -> Result<String, AllocError>
    ensures { IfOk result (λ line. string_bytes line ≡ around_line before after) }
{
    let end = plural_end(before);
    format!(in alloc; ".. {before} row{end} before, {after} behind\n")
}
