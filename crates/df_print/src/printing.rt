//! Printed tables.
ghost use Rattle.std.specs.Prelude.{◌≡◌, ◌++◌, codes, flat_map, length, vec_len, IfOk, OnOk};
ghost use Rattle.df_print.specs.Printed.{AreUtf8, IsTableOf, column_widths, gap, header_texts, is_left, padded, printed, printed_line, row_texts, title};

use crate::cells::CellPrinter;
use crate::escapes::escape;
use crate::widths::{column_width, text_width};
use df_value::{CellType, Row, Schema, Text};
use std::alloc::{AllocError, Global};

/// A table as it is printed, in UTF-8: the title `name (R x C)` with the numbers of rows and
/// columns, a line of the columns' names and one line for each row, each line ended by a newline.
///
/// Two spaces stand between two columns. Each name and cell is filled with spaces up to its
/// column's width ([`column_width`]): at its right in a column of texts, else at its left. Null
/// prints as `null`, whole numbers in decimal, a mean as its sum, `/` and its count. A row's cells
/// beyond the schema's columns are passed over, and cells that are missing print as null.
pub fn print_table(
    alloc: Global,
    name: &Text,
    schema: &Schema,
    rows: &[Row],
) -> Result<Vec<u8>, AllocError>
    ensures value { IfOk result (λ v. v.items ≡ printed name.now schema.now rows.now) }
    ensures lines { IfOk result (λ v. IsTableOf schema.now rows.now v.items) }
{
    let columns = schema.columns().as_slice();
    let widths = print_widths(alloc, columns, rows)?;
    let mut out = print_head(alloc, name, columns, widths.as_slice(), rows.len())?;
    push_rows(alloc, &mut out, columns, widths.as_slice(), rows)?;
    Ok(out)
}

/// The title and the line of the names.
pub(crate) fn print_head(
    alloc: Global,
    name: &Text,
    columns: &[(Text, CellType)],
    widths: &[usize],
    rows: usize,
) -> Result<Vec<u8>, AllocError>
    requires { length widths.now ≡ length columns.now }
    ensures { IfOk result (λ v. v.items ≡ title name.now (length columns.now) rows
        ++ printed_line columns.now widths.now (header_texts columns.now)) }
{
    let mut out = print_title(alloc, name, columns.len(), rows)?;
    push_names(&mut CellPrinter::new(alloc), &mut out, columns, widths)?;
    Ok(out)
}

/// The lines of these rows.
pub(crate) fn print_rows(
    alloc: Global,
    columns: &[(Text, CellType)],
    widths: &[usize],
    rows: &[Row],
) -> Result<Vec<u8>, AllocError>
    requires { length widths.now ≡ length columns.now }
    ensures { IfOk result (λ v. v.items ≡
        flat_map (λ row. printed_line columns.now widths.now (row_texts (length columns.now) row)) rows.now) }
{
    let mut out = Vec::new(alloc);
    push_rows(alloc, &mut out, columns, widths, rows)?;
    Ok(out)
}

// Appends the lines of these rows.
fn push_rows(
    alloc: Global,
    out: &mut Vec<u8>,
    columns: &[(Text, CellType)],
    widths: &[usize],
    rows: &[Row],
) -> Result<(), AllocError>
    requires { length widths.now ≡ length columns.now }
    ensures { OnOk result (out.new.items ≡ out.old.items
        ++ flat_map (λ row. printed_line columns.now widths.now (row_texts (length columns.now) row)) rows.now) }
{
    let mut printer = CellPrinter::new(alloc);
    for row in rows {
        push_row(&mut printer, out, columns, widths, row)?;
    }
    Ok(())
}

fn print_title(
    alloc: Global,
    name: &Text,
    columns: usize,
    rows: usize,
) -> Result<Vec<u8>, AllocError>
    ensures { IfOk result (λ v. v.items ≡ title name.now columns rows) }
{
    let mut out = escape(alloc, name.as_str())?;
    let size = format!(in alloc; " ({rows} x {columns})\n")?;
    out.push_str(size.as_str())?;
    Ok(out.into_bytes())
}

fn print_widths(
    alloc: Global,
    columns: &[(Text, CellType)],
    rows: &[Row],
) -> Result<Vec<usize>, AllocError>
    ensures widths { IfOk result (λ v. v.items ≡ column_widths columns.now rows.now) }
    ensures len { IfOk result (λ v. length v.items ≡ length columns.now) }
    ensures utf8 { IfOk result (λ _. AreUtf8 columns.now rows.now) }
{
    let mut widths = Vec::with_capacity(alloc, columns.len())?;
    for i in 0..columns.len() {
        widths.push(column_width(alloc, i, &columns[i].0, rows)?)?;
    }
    Ok(widths)
}

// Appends a text, filled to a width.
fn push_padded(out: &mut Vec<u8>, left: bool, width: usize, text: &str) -> Result<(), AllocError>
    ensures { OnOk result (out.new.items ≡ out.old.items ++ padded left width text.now) }
{
    let fill = width.saturating_sub(text_width(text));
    if left {
        out.extend_from_slice(text.as_bytes())?;
    }
    for _ in 0..fill {
        out.push(b' ')?;
    }
    if !left {
        out.extend_from_slice(text.as_bytes())?;
    }
    Ok(())
}

// Appends the space before a cell.
fn push_gap(out: &mut Vec<u8>, first: bool) -> Result<(), AllocError>
    ensures { OnOk result (out.new.items ≡ out.old.items ++ gap first) }
{
    if !first {
        out.extend_from_slice(b"  ")?;
    }
    Ok(())
}

fn is_text(dtype: CellType) -> bool
    ensures { result ≡ is_left dtype }
{
    matches!(dtype, CellType::Text)
}

// Appends a text of a line: behind a gap if it is not the first, and filled to the width of its column.
fn push_text(
    out: &mut Vec<u8>,
    is_first: bool,
    column: &(Text, CellType),
    width: usize,
    text: &str,
) -> Result<(), AllocError>
    ensures { OnOk result (out.new.items
        ≡ out.old.items ++ (gap is_first ++ padded (is_left column.now.1) width text.now)) }
{
    push_gap(out, is_first)?;
    push_padded(out, is_text(column.1), width, text)
}

// Appends the line of the names.
fn push_names(
    printer: &mut CellPrinter,
    out: &mut Vec<u8>,
    columns: &[(Text, CellType)],
    widths: &[usize],
) -> Result<(), AllocError>
    requires { length widths.now ≡ length columns.now }
    ensures { OnOk result (out.new.items ≡ out.old.items
        ++ printed_line columns.now widths.now (header_texts columns.now)) }
{
    for i in 0..columns.len() {
        let name = printer.print_text(columns[i].0.as_str())?;
        push_text(out, i == 0, &columns[i], widths[i], name)?;
    }
    out.push(b'\n')?;
    Ok(())
}

// Appends the line of a row.
fn push_row(
    printer: &mut CellPrinter,
    out: &mut Vec<u8>,
    columns: &[(Text, CellType)],
    widths: &[usize],
    row: &Row,
) -> Result<(), AllocError>
    requires { length widths.now ≡ length columns.now }
    ensures { OnOk result (out.new.items ≡ out.old.items
        ++ printed_line columns.now widths.now (row_texts (length columns.now) row.now)) }
{
    for i in 0..columns.len() {
        let cell = printer.print_at(i, row)?;
        push_text(out, i == 0, &columns[i], widths[i], cell)?;
    }
    out.push(b'\n')?;
    Ok(())
}
