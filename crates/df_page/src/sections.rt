//! Views as sections of a page.
ghost use Rattle.std.specs.Prelude.{◌≡◌, ◌++◌, IfOk, OnOk, flat_map, slice_get, string_bytes};
ghost use Rattle.std.specs.List.{enumerate_from};
ghost use Rattle.std.specs.Option.{option_copied};
ghost use Rattle.df_page.specs.Markup.{markup};
ghost use Rattle.df_page.specs.Reading.{rows_read, shown_table};
ghost use Rattle.df_page.specs.Sections as sections;
ghost use Rattle.df_page.specs.Sections.{gone_tags, more_tags, name_tags, names_tags, opening_tags, placed_tags, rows_tags, section_of, size_tags};

use crate::cells::push_row;
use crate::columns::{Column, columns_of, is_number};
use crate::markup::push_tags;
use df_value::{CellType, Row, Schema, Text};
use std::alloc::{AllocError, Global};

/// A view as a section of a page, in UTF-8: its name, how many rows and columns it has, a table of
/// these rows, and how many more there are, where `total` is more.
///
/// Numbers stand at the right. Behind a whole number is a bar, as wide in proportion to the widest
/// one of its column as its absolute value is to the greatest one of these rows; where a number of
/// the column is negative, bars begin in the middle, and those of negative numbers go to the left.
/// A mean is its fraction, and its decimal of three places, rounded half to even. Null is the word
/// in a class of its own. A row's cells beyond the columns are passed over, and cells that are
/// missing are null.
///
/// `before` has what each of the rows was, or that there was none: a new row is marked, and one that had other cells, with these
/// as its title. A row at an index that it does not reach has no mark. `gone` is how many of the rows that were shown before
/// are gone, which a line says, if any are.
///
/// A browser shows each text as it is, but a zero byte as U+FFFD, since HTML has none.
pub fn view_section(
    alloc: Global,
    name: &Text,
    schema: &Schema,
    rows: &[Row],
    total: usize,
    before: &[Option<Row>],
    gone: usize,
) -> Result<Vec<u8>, AllocError>
    ensures value { IfOk result (λ v. v.items
        ≡ section_of name.now schema.now rows.now total before.now gone) }
    ensures reads { IfOk result (λ v. rows_read v.items ≡ shown_table schema.now rows.now) }
{
    let schema = schema.columns().as_slice();
    let columns = columns_of(alloc, schema, rows)?;
    let mut out = Vec::new(alloc);
    push_opening(alloc, &mut out, name.as_str(), total, schema.len())?;
    push_names(&mut out, schema)?;
    push_rows(alloc, &mut out, columns.as_slice(), before, rows)?;
    push_more(alloc, &mut out, rows.len(), total)?;
    push_gone(alloc, &mut out, gone)?;
    push_tags(&mut out, &[("/section", "\n")])?;
    Ok(out)
}

fn push_opening(
    alloc: Global,
    out: &mut Vec<u8>,
    name: &str,
    rows: usize,
    columns: usize,
) -> Result<(), AllocError>
    ensures { OnOk result (out.new.items
        ≡ out.old.items ++ markup (opening_tags name.now rows columns)) }
{
    push_tags(out, &[("section", "\n"), ("h2", name), ("/h2", "\n")])?;
    push_size(alloc, out, rows, columns)?;
    push_tags(
        out,
        &[
            ("div class=\"table\" tabindex=\"0\"", "\n"),
            ("table", "\n"),
            ("caption", name),
            ("/caption", "\n"),
        ],
    )
}

fn push_size(
    alloc: Global,
    out: &mut Vec<u8>,
    rows: usize,
    columns: usize,
) -> Result<(), AllocError>
    ensures { OnOk result (out.new.items ≡ out.old.items ++ markup (size_tags rows columns)) }
{
    let size = size_text(alloc, rows, columns)?;
    push_tags(out, &[("p", size.as_str()), ("/p", "\n")])
}

fn size_text(alloc: Global, rows: usize, columns: usize) -> Result<String, AllocError>
    ensures { IfOk result (λ s. string_bytes s ≡ sections.size_text rows columns) }
{
    let of_rows = plural(rows);
    let of_columns = plural(columns);
    format!(in alloc; "{rows} row{of_rows} x {columns} column{of_columns}")
}

// The ending of a word that so many things stand behind.
fn plural(count: usize) -> &'static str
    ensures { result.now ≡ sections.plural count }
{
    if count == 1 { "" } else { "s" }
}

fn push_names(out: &mut Vec<u8>, schema: &[(Text, CellType)]) -> Result<(), AllocError>
    ensures { OnOk result (out.new.items ≡ out.old.items ++ markup (names_tags schema.now)) }
{
    push_tags(out, &[("thead", "\n"), ("tr", "")])?;
    push_each_name(out, schema)?;
    push_tags(out, &[("/tr", "\n"), ("/thead", "\n")])
}

fn push_each_name(out: &mut Vec<u8>, schema: &[(Text, CellType)]) -> Result<(), AllocError>
    ensures { OnOk result (out.new.items
        ≡ out.old.items ++ markup (flat_map name_tags schema.now)) }
{
    for column in schema {
        push_name(out, column)?;
    }
    Ok(())
}

fn push_name(out: &mut Vec<u8>, column: &(Text, CellType)) -> Result<(), AllocError>
    ensures { OnOk result (out.new.items ≡ out.old.items ++ markup (name_tags column.now)) }
{
    let tag = name_tag(is_number(column.1));
    let name = column.0.as_str();
    push_tags(out, &[(tag, ""), ("bdi", name), ("/bdi", ""), ("/th", "")])
}

fn name_tag(is_number: bool) -> &'static str
    ensures { result.now ≡ sections.name_tag is_number }
{
    if is_number {
        "th scope=\"col\" class=\"number\""
    } else {
        "th scope=\"col\""
    }
}

fn push_rows(
    alloc: Global,
    out: &mut Vec<u8>,
    columns: &[Column],
    before: &[Option<Row>],
    rows: &[Row],
) -> Result<(), AllocError>
    ensures { OnOk result (out.new.items
        ≡ out.old.items ++ markup (rows_tags columns.now before.now rows.now)) }
{
    push_tags(out, &[("tbody", "\n")])?;
    push_each_row(alloc, out, columns, before, rows)?;
    push_tags(out, &[("/tbody", "\n"), ("/table", "\n"), ("/div", "\n")])
}

fn push_each_row(
    alloc: Global,
    out: &mut Vec<u8>,
    columns: &[Column],
    before: &[Option<Row>],
    rows: &[Row],
) -> Result<(), AllocError>
    ensures { OnOk result (out.new.items ≡ out.old.items
        ++ markup (flat_map (placed_tags columns.now before.now) (enumerate_from 0 rows.now))) }
{
    for at in 0..rows.len() {
        push_row(alloc, out, columns, row_before(before, at), &rows[at])?;
    }
    Ok(())
}

// What the row at an index was before, if that is known.
fn row_before(before: &[Option<Row>], at: usize) -> Option<&Option<Row>>
    ensures { option_copied result ≡ slice_get before.now at }
{
    before.get(at)
}

// Appends how many rows there are behind those that are given.
fn push_more(alloc: Global, out: &mut Vec<u8>, given: usize, total: usize) -> Result<(), AllocError>
    ensures { OnOk result (out.new.items ≡ out.old.items ++ markup (more_tags given total)) }
{
    if given < total {
        let more = more_text(alloc, total - given)?;
        push_tags(out, &[("p", more.as_str()), ("/p", "\n")])
    } else {
        push_tags(out, &[])
    }
}

// Appends how many of the rows that were shown before are gone.
fn push_gone(alloc: Global, out: &mut Vec<u8>, count: usize) -> Result<(), AllocError>
    ensures { OnOk result (out.new.items ≡ out.old.items ++ markup (gone_tags count)) }
{
    if count > 0 {
        let text = gone_text(alloc, count)?;
        push_tags(out, &[("p", text.as_str()), ("/p", "\n")])
    } else {
        push_tags(out, &[])
    }
}

fn gone_text(alloc: Global, count: usize) -> Result<String, AllocError>
    ensures { IfOk result (λ s. string_bytes s ≡ sections.gone_text count) }
{
    format!(in alloc; "{count} of the rows shown before went")
}

fn more_text(alloc: Global, count: usize) -> Result<String, AllocError>
    ensures { IfOk result (λ s. string_bytes s ≡ sections.more_text count) }
{
    let of_rows = plural(count);
    format!(in alloc; ".. {count} more row{of_rows}")
}
