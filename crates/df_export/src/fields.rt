//! Cells as fields of CSV.
//!
//! The writer of `csv` gives an empty text no byte, as it gives none for null, so that fields are
//! written here, by its rules.
ghost use Rattle.std.specs.Prelude.{◌≡◌, ◌++◌, ◌∷◌, [], IfOk, OnOk, codes, string_bytes};
ghost use Rattle.std.specs.Fmt.{signed_decimal};
ghost use Rattle.csv.specs.Writing as writing;
ghost use Rattle.csv.specs.Writing.{default_writer, escaped, needs_byte, quoted};
ghost use Rattle.df_export.specs.CsvTables as tables;
ghost use Rattle.df_export.specs.CsvTables.{csv_field, csv_fields, rest_of_line, text_field};

use df_value::{Cell, Frac};
use std::alloc::{AllocError, Global};

/// Appends the fields of cells, with a comma between each two.
pub fn push_fields(alloc: Global, out: &mut Vec<u8>, cells: &[Cell]) -> Result<(), AllocError>
    ensures { OnOk result (out.new.items ≡ out.old.items ++ csv_fields cells.now) }
{
    match cells {
        [] => Ok(()),
        [first, rest @ ..] => {
            push_cell(alloc, out, first)?;
            push_rest(alloc, out, rest)
        }
    }
}

/// Appends the fields of cells, a comma before each.
pub fn push_rest(alloc: Global, out: &mut Vec<u8>, cells: &[Cell]) -> Result<(), AllocError>
    ensures { OnOk result (out.new.items ≡ out.old.items ++ rest_of_line cells.now) }
{
    for cell in cells {
        out.push(b',')?;
        push_cell(alloc, out, cell)?;
    }
    Ok(())
}

// Appends the field of a cell.
fn push_cell(alloc: Global, out: &mut Vec<u8>, cell: &Cell) -> Result<(), AllocError>
    ensures { OnOk result (out.new.items ≡ out.old.items ++ csv_field cell.now) }
{
    let mut digits = itoa::Buffer::new();
    match cell {
        Cell::Null => Ok(()),
        Cell::Int(n) => push_text(out, digits.format(*n)),
        Cell::Wide(n) => push_text(out, digits.format(*n)),
        Cell::Text(t) => push_text(out, t.as_str()),
        Cell::Bool(true) => push_text(out, "true"),
        Cell::Bool(false) => push_text(out, "false"),
        Cell::Frac(f) => push_text(out, mean_text(alloc, f)?.as_str()),
    }
}

fn mean_text(alloc: Global, mean: &Frac) -> Result<String, AllocError>
    ensures { IfOk result (λ s. string_bytes s
        ≡ signed_decimal mean.now.0 ++ (codes "/" ++ signed_decimal mean.now.1)) }
{
    let sum = mean.sum();
    let count = mean.count();
    format!(in alloc; "{sum}/{count}")
}

/// Appends the field of a text, in quotes where it must be.
pub fn push_text(out: &mut Vec<u8>, text: &str) -> Result<(), AllocError>
    ensures { OnOk result (out.new.items ≡ out.old.items ++ text_field text.now) }
{
    let bytes = text.as_bytes();
    if is_quoted(bytes) {
        push_quoted(out, bytes)
    } else {
        Ok(out.extend_from_slice(bytes)?)
    }
}

// Whether a text is written in quotes.
fn is_quoted(text: &[u8]) -> bool
    ensures { result ≡ tables.is_quoted text.now }
{
    text.is_empty() || needs_quotes(text)
}

fn needs_quotes(text: &[u8]) -> bool
    ensures { result ≡ writing.needs_quotes default_writer text.now }
{
    text.iter().any(|b| calls_for_quotes(*b))
}

fn calls_for_quotes(byte: u8) -> bool
    ensures { result ≡ needs_byte default_writer byte }
{
    byte == b',' || byte == b'"' || byte == b'\r' || byte == b'\n'
}

fn push_quoted(out: &mut Vec<u8>, text: &[u8]) -> Result<(), AllocError>
    ensures { OnOk result (out.new.items ≡ out.old.items ++ quoted default_writer text.now) }
{
    out.push(b'"')?;
    for byte in text {
        push_escaped(out, *byte)?;
    }
    Ok(out.push(b'"')?)
}

// Appends a byte between quotes, a quote twice.
#[tactic(auto, unfolding(csv::specs::Writing::escaped))]
fn push_escaped(out: &mut Vec<u8>, byte: u8) -> Result<(), AllocError>
    ensures { OnOk result (out.new.items ≡ out.old.items ++ escaped default_writer (byte ∷ [])) }
{
    if byte == b'"' {
        out.push(b'"')?;
    }
    Ok(out.push(byte)?)
}
