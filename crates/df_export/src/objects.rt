//! Tables as lines of JSON.
ghost use Rattle.std.specs.Prelude.{◌≡◌, ◌++◌, ◌∷◌, [], All, IfOk, OnOk, codes, pos};
ghost use Rattle.std.specs.Fmt.{signed_decimal};
ghost use Rattle.json.specs.Json.{member};
ghost use Rattle.json.specs.Print.{IsNumber, print};
ghost use Rattle.json.specs.Token.{number};
ghost use Rattle.json.specs.Tree.{HasNumbers, MembersHaveNumbers, json_tokens, members_tokens};
ghost use Rattle.df_value.specs.declared.cell.Cell.TheVariants as cell;
ghost use Rattle.df_export.specs.JsonLines.{IsReadBack, json_line, json_of, members_of, object_line, value_of};
ghost use Rattle.df_export.specs.Numbered.{numbered_columns, numbered_rows};

use crate::number_column::number_name;
use df_value::{Cell, CellType, Frac, Row, Schema, Text};
use json::Writer;
use std::alloc::{AllocError, Global};

/// A table as lines of JSON (RFC 8259): for each row a line with one object, whose members are the
/// columns' names with the row's cells, in the order of the columns.
///
/// Null is `null`, a whole number has all its digits, a mean is an object with its `sum` and its
/// `count`. A row's cells beyond the columns are left out.
pub fn json_lines(alloc: Global, schema: &Schema, rows: &[Row]) -> Result<Vec<u8>, AllocError>
    ensures value { IfOk result (λ v. v.items ≡ json_of schema.now rows.now) }
    ensures reads { IfOk result (λ _. All (IsReadBack schema.now) rows.now) }
{
    let columns = schema.columns().as_slice();
    let mut out = Vec::new(alloc);
    for row in rows {
        out = push_line(out, columns, row.as_slice())?;
    }
    Ok(out)
}

/// The same of a table whose rows have numbers, which are first members.
///
/// They are named `number`, and where a column has this name, `number_`, with as many underscores
/// as it takes. A row without a number is left out.
pub fn numbered_json_lines(
    alloc: Global,
    schema: &Schema,
    rows: &[Row],
    numbers: &[u32],
) -> Result<Vec<u8>, AllocError>
    ensures value { IfOk result (λ v. v.items
        ≡ json_of (numbered_columns schema.now) (numbered_rows numbers.now rows.now)) }
{
    let columns = schema.columns().as_slice();
    let name = number_name(alloc, columns)?;
    let mut out = Vec::new(alloc);
    for (number, row) in numbers.iter().zip(rows) {
        out = push_numbered_line(out, name.as_str(), *number, columns, row.as_slice())?;
    }
    Ok(out)
}

// Appends the line of a row.
fn push_line(
    out: Vec<u8>,
    columns: &[(Text, CellType)],
    row: &[Cell],
) -> Result<Vec<u8>, AllocError>
    ensures value { IfOk result (λ v. v.items ≡ out.items ++ json_line columns.now row.now) }
    ensures reads { IfOk result (λ _. IsReadBack columns.now row.now) }
{
    let mut writer = Writer::new(out);
    writer.begin_object()?;
    push_members(&mut writer, columns, row)?;
    end_line(writer)
}

fn push_numbered_line(
    out: Vec<u8>,
    name: &str,
    number: u32,
    columns: &[(Text, CellType)],
    row: &[Cell],
) -> Result<Vec<u8>, AllocError>
    ensures value { IfOk result (λ v. v.items
        ≡ out.items ++ object_line (member name.now (value_of (cell.Int (pos number)))
        (members_of columns.now row.now))) }
{
    let mut writer = Writer::new(out);
    writer.begin_object()?;
    writer.key(name)?;
    writer.u64(number as u64)?;
    push_members(&mut writer, columns, row)?;
    end_line(writer)
}

// The text, and the end of its line.
fn end_line(writer: Writer) -> Result<Vec<u8>, AllocError>
    ensures { IfOk result (λ v. v.items
        ≡ writer.before ++ (print writer.tokens ++ codes "\n")) }
{
    let mut out = writer.into_inner();
    out.push(b'\n')?;
    Ok(out)
}

// Appends the names of columns with the cells of a row, and the end of the object.
fn push_members(
    writer: &mut Writer,
    columns: &[(Text, CellType)],
    row: &[Cell],
) -> Result<(), AllocError>
    ensures before { OnOk result (writer.new.before ≡ writer.old.before) }
    ensures value { OnOk result (writer.new.tokens
        ≡ writer.old.tokens ++ members_tokens (members_of columns.now row.now)) }
    ensures numbers { OnOk result (MembersHaveNumbers (members_of columns.now row.now)) }
{
    for (column, cell) in columns.iter().zip(row) {
        writer.key(column.0.as_str())?;
        push_value(writer, cell)?;
    }
    writer.end_object()
}

fn push_value(writer: &mut Writer, cell: &Cell) -> Result<(), AllocError>
    ensures before { OnOk result (writer.new.before ≡ writer.old.before) }
    ensures value { OnOk result (writer.new.tokens
        ≡ writer.old.tokens ++ json_tokens (value_of cell.now)) }
    ensures numbers { OnOk result (HasNumbers (value_of cell.now)) }
{
    match cell {
        Cell::Null => writer.null(),
        Cell::Int(n) => writer.i64(*n),
        Cell::Wide(n) => push_whole(writer, *n),
        Cell::Text(t) => writer.string(t.as_str()),
        Cell::Bool(b) => writer.boolean(*b),
        Cell::Frac(f) => push_mean(writer, f),
    }
}

fn push_whole(writer: &mut Writer, n: i128) -> Result<(), AllocError>
    ensures before { OnOk result (writer.new.before ≡ writer.old.before) }
    ensures value { OnOk result (writer.new.tokens
        ≡ writer.old.tokens ++ number (signed_decimal n) ∷ []) }
    ensures number { IsNumber (signed_decimal n) }
{
    let mut digits = itoa::Buffer::new();
    writer.number(digits.format(n))
}

fn push_mean(writer: &mut Writer, mean: &Frac) -> Result<(), AllocError>
    ensures before { OnOk result (writer.new.before ≡ writer.old.before) }
    ensures value { OnOk result (writer.new.tokens
        ≡ writer.old.tokens ++ json_tokens (value_of (cell.Frac mean.now))) }
    ensures numbers { OnOk result (HasNumbers (value_of (cell.Frac mean.now))) }
{
    writer.begin_object()?;
    writer.key("sum")?;
    push_whole(writer, mean.sum())?;
    writer.key("count")?;
    push_whole(writer, mean.count() as i128)?;
    writer.end_object()
}
