//! Cells and rows of a table.
ghost use Rattle.std.specs.Prelude.{◌≡◌, ◌++◌, IfOk, OnOk, string_bytes};
ghost use Rattle.std.specs.Option.{option_copied};
ghost use Rattle.df_value.specs.CellRefs.{cell_of_ref};
ghost use Rattle.df_value.specs.declared.cell.Cell.TheVariants as cell;
ghost use Rattle.df_page.specs.Cells as cells;
ghost use Rattle.df_page.specs.Cells.{cell_tags, cells_tags, number_tags, row_tags};
ghost use Rattle.df_page.specs.Markup.{markup};
ghost use Rattle.std.specs.Prelude.{codes};

use crate::bars::bar_tag;
use crate::columns::Column;
use crate::marks::push_row_tag;
use crate::markup::push_tags;
use crate::means::mean_decimal;
use df_value::{CellRef, Frac, Row};
use std::alloc::{AllocError, Global};

/// Appends a row: its cells in these columns, in one line. It is marked by what it was before.
pub fn push_row(
    alloc: Global,
    out: &mut Vec<u8>,
    columns: &[Column],
    before: Option<&Option<Row>>,
    row: &Row,
) -> Result<(), AllocError>
    ensures { OnOk result (out.new.items ≡ out.old.items
        ++ markup (row_tags columns.now (option_copied before.entry) row.now)) }
{
    push_row_tag(alloc, out, before, row)?;
    push_cells(alloc, out, columns, row)?;
    push_tags(out, &[("/tr", "\n")])
}

fn push_cells(
    alloc: Global,
    out: &mut Vec<u8>,
    columns: &[Column],
    row: &Row,
) -> Result<(), AllocError>
    ensures { OnOk result (out.new.items ≡ out.old.items ++ markup (cells_tags columns.now row.now)) }
{
    for at in 0..columns.len() {
        push_cell(alloc, out, &columns[at], row.cell_at(Some(at)))?;
    }
    Ok(())
}

fn push_cell(
    alloc: Global,
    out: &mut Vec<u8>,
    column: &Column,
    cell: CellRef<'_>,
) -> Result<(), AllocError>
    ensures { OnOk result (out.new.items
        ≡ out.old.items ++ markup (cell_tags column.now (cell_of_ref cell.entry))) }
{
    match cell {
        CellRef::Null => push_null(out, column.is_number),
        CellRef::Int(n) => push_number(alloc, out, column, i128::from(n)),
        CellRef::Wide(n) => push_number(alloc, out, column, n),
        CellRef::Text(text) => push_text(out, text),
        CellRef::Bool(true) => push_tags(out, &[("td", "true"), ("/td", "")]),
        CellRef::Bool(false) => push_tags(out, &[("td", "false"), ("/td", "")]),
        CellRef::Frac(mean) => push_mean(alloc, out, mean),
    }
}

fn push_null(out: &mut Vec<u8>, is_number: bool) -> Result<(), AllocError>
    ensures { OnOk result (out.new.items ≡ out.old.items ++ markup (cells.null_tags is_number)) }
{
    let tag = plain_tag(is_number);
    push_tags(
        out,
        &[
            (tag, ""),
            ("span class=\"null\"", "null"),
            ("/span", ""),
            ("/td", ""),
        ],
    )
}

fn plain_tag(is_number: bool) -> &'static str
    ensures { result.now ≡ cells.plain_tag is_number }
{
    if is_number {
        "td class=\"number\""
    } else {
        "td"
    }
}

fn push_number(
    alloc: Global,
    out: &mut Vec<u8>,
    column: &Column,
    number: i128,
) -> Result<(), AllocError>
    ensures { OnOk result (out.new.items ≡ out.old.items ++ markup (number_tags column.now number)) }
{
    let tag = bar_tag(alloc, column, number)?;
    let mut digits = itoa::Buffer::new();
    push_tags(out, &[(tag.as_str(), digits.format(number)), ("/td", "")])
}

fn push_text(out: &mut Vec<u8>, text: &str) -> Result<(), AllocError>
    ensures { OnOk result (out.new.items ≡ out.old.items ++ markup (cells.text_tags text.now)) }
{
    push_tags(out, &[("td", ""), ("bdi", text), ("/bdi", ""), ("/td", "")])
}

fn push_mean(alloc: Global, out: &mut Vec<u8>, mean: &Frac) -> Result<(), AllocError>
    ensures { OnOk result (out.new.items ≡ out.old.items ++ markup (cells.mean_tags mean.now)) }
{
    let fraction = fraction(alloc, mean)?;
    let decimal = mean_decimal(alloc, mean)?;
    push_tags(
        out,
        &[
            ("td class=\"mean\"", fraction.as_str()),
            ("span class=\"decimal\"", decimal.as_str()),
            ("/span", ""),
            ("/td", ""),
        ],
    )
}

// A mean as a fraction, and a space.
fn fraction(alloc: Global, mean: &Frac) -> Result<String, AllocError>
    ensures { IfOk result (λ s. string_bytes s ≡ cells.fraction mean.now) }
{
    let sum = mean.sum();
    let count = mean.count();
    format!(in alloc; "{sum}/{count} ")
}
