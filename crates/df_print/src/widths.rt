//! How wide texts and columns are.
ghost use Rattle.std.specs.Prelude.{◌≡◌, true, All, Bool, IfOk, IsUtf8, max};
ghost use Rattle.std.specs.Int.{is_in_range};
ghost use Rattle.std.specs.List.{list_all};
ghost use Rattle.df_print.specs.Printed as printed;
ghost use Rattle.df_print.specs.Printed.{cell_or_null, cell_text, column_texts, padded, width_of};

use crate::cells::CellPrinter;
use crate::escapes::escape;
use df_value::{Row, Text};
use std::alloc::{AllocError, Global};
use unicode_width::UnicodeWidthStr;

/// How many columns of a terminal a text takes.
pub(crate) fn text_width(text: &str) -> usize
    ensures { result ≡ width_of text.now }
{
    if are_printable(text.as_bytes()) {
        text.len()
    } else {
        text.width()
    }
}

// Whether each byte is a printable character of ASCII, which takes one column.
fn are_printable(bytes: &[u8]) -> bool
    ensures { result ≡ true → list_all (is_in_range 0x20 0x7E) bytes.now ≡ true }
{
    for byte in bytes {
        if *byte < b' ' || *byte > b'~' {
            return false;
        }
    }
    true
}

// How many columns of a terminal the cell at an index takes, or this width, where it is greater.
fn widened(
    printer: &mut CellPrinter,
    width: usize,
    at: usize,
    row: &Row,
) -> Result<usize, AllocError>
    ensures greater { IfOk result
        (λ w. w ≡ max width (width_of (cell_text (cell_or_null at row.now)))) }
    ensures utf8 { IfOk result (λ _. IsUtf8 (cell_text (cell_or_null at row.now))) }
{
    let text = printer.print_at(at, row)?;
    Ok(width.max(text_width(text)))
}

/// How many columns of a terminal the column at an index takes: the greatest width of its texts,
/// which are its name and its cells as they are printed.
///
/// So every text of the column, filled with spaces up to this width, takes exactly this width, at
/// whichever side the spaces stand.
pub fn column_width(
    alloc: Global,
    at: usize,
    name: &Text,
    rows: &[Row],
) -> Result<usize, AllocError>
    ensures greatest { IfOk result (λ w. w ≡ printed.column_width at name.now rows.now) }
    ensures filled { IfOk result (λ w. All (λ t. (left : Bool) → width_of (padded left w t) ≡ w)
        (column_texts at name.now rows.now)) }
    ensures utf8 { IfOk result (λ _. All IsUtf8 (column_texts at name.now rows.now)) }
{
    let header = escape(alloc, name.as_str())?;
    let mut printer = CellPrinter::new(alloc);
    let mut width = header.as_str().width();
    for row in rows {
        width = widened(&mut printer, width, at, row)?;
    }
    Ok(width)
}
