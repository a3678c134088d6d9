//! Tables as CSV.
ghost use Rattle.std.specs.Prelude.{◌≡◌, ◌++◌, ◌∷◌, IfOk, OnOk, pos};
ghost use Rattle.df_export.specs.CsvTables.{csv_line, csv_of, header_cells, rest_of_line, table_records};
ghost use Rattle.df_export.specs.CsvTables as tables;
ghost use Rattle.df_export.specs.Numbered.{numbered_columns, numbered_rows};
ghost use Rattle.df_export.specs.ReadBack.{TypesBack};
ghost use Rattle.csv.specs.Reading.{default_config, records};
ghost use Rattle.df_value.specs.declared.cell.Cell.TheVariants as cell;

use crate::fields::{push_fields, push_rest, push_text};
use crate::number_column::number_name;
use df_value::{Cell, CellType, Row, Schema, Text};
use std::alloc::{AllocError, Global};

/// A table as CSV (RFC 4180): a line of the columns' names and one line for each row, each ended by
/// a line feed, whose fields have commas between them.
///
/// Null is an empty field, and the empty text two double quotes. Whole numbers are in decimal, a
/// mean is its sum, `/` and its count. A field is in double quotes, and a quote in it doubled, where
/// it has a comma, a double quote, a line feed or a carriage return.
///
/// A row whose only cell is null is two double quotes too, since readers pass over an empty line.
/// So in a table of one column null is written as the empty text is.
pub fn csv_table(alloc: Global, schema: &Schema, rows: &[Row]) -> Result<Vec<u8>, AllocError>
    ensures value { IfOk result (λ v. v.items ≡ csv_of schema.now rows.now) }
    ensures reads { IfOk result
        (λ v. records default_config v.items ≡ table_records schema.now rows.now) }
    ensures types { IfOk result
        (λ v. TypesBack schema.now rows.now (records default_config v.items)) }
{
    let columns = schema.columns().as_slice();
    let mut out = Vec::new(alloc);
    push_header(&mut out, columns)?;
    for row in rows {
        push_line(alloc, &mut out, row.as_slice())?;
    }
    Ok(out)
}

/// The same of a table whose rows have numbers, which stand in a first column.
///
/// That column is named `number`, and where a column has this name, `number_`, with as many
/// underscores as it takes. A row without a number is left out.
pub fn numbered_csv_table(
    alloc: Global,
    schema: &Schema,
    rows: &[Row],
    numbers: &[u32],
) -> Result<Vec<u8>, AllocError>
    ensures value { IfOk result (λ v. v.items
        ≡ csv_of (numbered_columns schema.now) (numbered_rows numbers.now rows.now)) }
    ensures reads { IfOk result (λ v. records default_config v.items
        ≡ table_records (numbered_columns schema.now) (numbered_rows numbers.now rows.now)) }
{
    let columns = schema.columns().as_slice();
    let mut out = Vec::new(alloc);
    push_numbered_header(alloc, &mut out, columns)?;
    for (number, row) in numbers.iter().zip(rows) {
        push_numbered_line(alloc, &mut out, *number, row.as_slice())?;
    }
    Ok(out)
}

fn push_header(out: &mut Vec<u8>, columns: &[(Text, CellType)]) -> Result<(), AllocError>
    ensures { OnOk result (out.new.items ≡ out.old.items ++ csv_line (header_cells columns.now)) }
{
    match columns {
        [] => push_text(out, "")?,
        [first, rest @ ..] => {
            push_text(out, first.0.as_str())?;
            push_names(out, rest)?;
        }
    }
    Ok(out.push(b'\n')?)
}

fn push_numbered_header(
    alloc: Global,
    out: &mut Vec<u8>,
    columns: &[(Text, CellType)],
) -> Result<(), AllocError>
    ensures { OnOk result (out.new.items
        ≡ out.old.items ++ csv_line (header_cells (numbered_columns columns.now))) }
{
    let name = number_name(alloc, columns)?;
    push_text(out, name.as_str())?;
    push_names(out, columns)?;
    Ok(out.push(b'\n')?)
}

// Appends the names of columns, a comma before each.
fn push_names(out: &mut Vec<u8>, columns: &[(Text, CellType)]) -> Result<(), AllocError>
    ensures { OnOk result (out.new.items
        ≡ out.old.items ++ rest_of_line (header_cells columns.now)) }
{
    for column in columns {
        out.push(b',')?;
        push_text(out, column.0.as_str())?;
    }
    Ok(())
}

fn push_line(alloc: Global, out: &mut Vec<u8>, row: &[Cell]) -> Result<(), AllocError>
    ensures { OnOk result (out.new.items ≡ out.old.items ++ csv_line row.now) }
{
    if is_blank(row) {
        push_text(out, "")?;
    } else {
        push_fields(alloc, out, row)?;
    }
    Ok(out.push(b'\n')?)
}

// Whether the fields of a row have no byte.
fn is_blank(row: &[Cell]) -> bool
    ensures { result ≡ tables.is_blank row.now }
{
    match row {
        [] => true,
        [only] => matches!(only, Cell::Null),
        _ => false,
    }
}

fn push_numbered_line(
    alloc: Global,
    out: &mut Vec<u8>,
    number: u32,
    row: &[Cell],
) -> Result<(), AllocError>
    ensures { OnOk result (out.new.items
        ≡ out.old.items ++ csv_line (cell.Int (pos number) ∷ row.now)) }
{
    push_text(out, itoa::Buffer::new().format(number))?;
    push_rest(alloc, out, row)?;
    Ok(out.push(b'\n')?)
}
