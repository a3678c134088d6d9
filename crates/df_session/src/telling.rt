//! What is told of frames and views, whatever store has them.
ghost use Rattle.std.specs.Prelude.{◌≡◌, ◌++◌, IfOk, OnOk, string_bytes};
ghost use Rattle.std.specs.Option.{option_copied};
ghost use Rattle.df_print.specs.Printed.{printed};
ghost use Rattle.df_session.specs.Told.{books_line, check_text, names_text, numbers_line};

use df_text::{escape, print_table};
use df_value::{Row, Schema, Text};
use std::alloc::{AllocError, Global};

/// The table of a frame, as it is printed, and the numbers of its rows.
pub fn print_rows(
    alloc: Global,
    name: &Text,
    schema: &Schema,
    rows: &[Row],
    numbers: &[u32],
) -> Result<Vec<u8>, AllocError>
    ensures { IfOk result (λ text.
        text.items ≡ printed name.now schema.now rows.now ++ numbers_line numbers.now) }
{
    let mut text = print_table(alloc, name, schema, rows)?;
    push_numbers(alloc, &mut text, numbers)?;
    Ok(text)
}

fn push_numbers(alloc: Global, text: &mut Vec<u8>, numbers: &[u32]) -> Result<(), AllocError>
    ensures { OnOk result (text.new.items ≡ text.old.items ++ numbers_line numbers.now) }
{
    text.extend_from_slice(b"numbers")?;
    for number in numbers {
        let word = format!(in alloc; " {number}")?;
        text.extend_from_slice(word.as_bytes())?;
    }
    text.push(b'\n')?;
    Ok(())
}

/// How many rows a frame accepted, how many were deleted, and how many it has.
pub fn books_of(alloc: Global, accepted: u64, deleted: u64, live: u64) -> Result<String, AllocError>
    ensures { IfOk result (λ text. string_bytes text ≡ books_line accepted deleted live) }
{
    format!(in alloc; "accepted {accepted}, deleted {deleted}, live {live}\n")
}

/// Names, a line each.
pub fn names_lines(alloc: Global, names: &[Text]) -> Result<Vec<u8>, AllocError>
    ensures { IfOk result (λ text. text.items ≡ names_text names.now) }
{
    let mut text = Vec::new(alloc);
    for name in names {
        let line = escape(alloc, name.as_str())?;
        text.extend_from_slice(line.as_bytes())?;
        text.push(b'\n')?;
    }
    Ok(text)
}

/// What a check says that found this view first to differ.
pub fn verdict(alloc: Global, found: Option<&Text>) -> Result<Vec<u8>, AllocError>
    ensures { IfOk result (λ text. text.items ≡ check_text (option_copied found.entry)) }
{
    let mut text = Vec::new(alloc);
    match found {
        Some(name) => {
            let name = escape(alloc, name.as_str())?;
            text.extend_from_slice(b"differs ")?;
            text.extend_from_slice(name.as_bytes())?;
            text.push(b'\n')?;
        }
        None => text.extend_from_slice(b"same\n")?,
    }
    Ok(text)
}
