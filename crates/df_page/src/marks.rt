//! The marks of rows that changed.
ghost use Rattle.std.specs.Prelude.{◌≡◌, ◌++◌, ◌∷◌, [], IfOk, OnOk, Some, codes, flat_map, string_bytes};
ghost use Rattle.std.specs.Option.{option_copied};
ghost use Rattle.df_print.specs.Printed.{cell_text};
ghost use Rattle.df_page.specs.Cells as cells_spec;
ghost use Rattle.df_page.specs.Cells.{changed_tag, row_tag};
ghost use Rattle.df_page.specs.Markup.{markup};
ghost use Rattle.df_page.specs.Reading.{attributes_read, shown_mark};

use crate::escapes::push_escaped;
use crate::markup::push_tags;
use df_print::escape;
use df_value::{Cell, Row};
use std::alloc::{AllocError, Global};

/// Appends the tag of a row. With `before`, what it was before, it is marked: as new, where there was none, and as changed,
/// with its old cells, where it had others.
#[tactic(auto, using(crate::proofs::MarkFacts::mark_back))]
pub fn push_row_tag(
    alloc: Global,
    out: &mut Vec<u8>,
    before: Option<&Option<Row>>,
    row: &Row,
) -> Result<(), AllocError>
    ensures value { OnOk result (out.new.items ≡ out.old.items
        ++ markup ((row_tag (option_copied before.entry) row.now, []) ∷ [])) }
    ensures reads { attributes_read (row_tag (option_copied before.entry) row.now)
        ≡ shown_mark (option_copied before.entry) row.now }
{
    push_mark(alloc, out, before, row)
}

fn push_mark(
    alloc: Global,
    out: &mut Vec<u8>,
    before: Option<&Option<Row>>,
    row: &Row,
) -> Result<(), AllocError>
    ensures { OnOk result (out.new.items ≡ out.old.items
        ++ markup ((row_tag (option_copied before.entry) row.now, []) ∷ [])) }
{
    match before {
        None => push_tags(out, &[("tr", "")]),
        Some(before) => push_known(alloc, out, before, row),
    }
}

fn push_known(
    alloc: Global,
    out: &mut Vec<u8>,
    before: &Option<Row>,
    row: &Row,
) -> Result<(), AllocError>
    ensures { OnOk result (out.new.items ≡ out.old.items
        ++ markup ((row_tag (Some before.now) row.now, []) ∷ [])) }
{
    match before {
        None => push_tags(out, &[("tr class=\"new\"", "")]),
        Some(old) => push_old(alloc, out, old, row),
    }
}

fn push_old(alloc: Global, out: &mut Vec<u8>, old: &Row, row: &Row) -> Result<(), AllocError>
    ensures { OnOk result (out.new.items ≡ out.old.items
        ++ markup ((row_tag (Some (Some old.now)) row.now, []) ∷ [])) }
{
    if old == row {
        push_tags(out, &[("tr", "")])
    } else {
        push_changed(alloc, out, old)
    }
}

fn push_changed(alloc: Global, out: &mut Vec<u8>, old: &Row) -> Result<(), AllocError>
    ensures { OnOk result (out.new.items ≡ out.old.items
        ++ markup ((changed_tag old.now, []) ∷ [])) }
{
    let text = cells_text(alloc, old)?;
    out.extend_from_slice(b"<tr class=\"changed\" title=\"")?;
    push_escaped(out, text.as_slice())?;
    Ok(out.extend_from_slice(b"\">")?)
}

// The cells of a row in words.
fn cells_text(alloc: Global, row: &Row) -> Result<Vec<u8>, AllocError>
    ensures { IfOk result (λ text. text.items ≡ cells_spec.cells_text row.now) }
{
    let mut text = Vec::new(alloc);
    push_words(alloc, &mut text, row.as_slice())?;
    Ok(text)
}

fn push_words(alloc: Global, text: &mut Vec<u8>, cells: &[Cell]) -> Result<(), AllocError>
    ensures { OnOk result (text.new.items ≡ text.old.items ++ cells_spec.cells_text cells.now) }
{
    match cells.split_first() {
        Some((first, others)) => {
            push_word(alloc, text, first)?;
            push_others(alloc, text, others)
        }
        None => Ok(()),
    }
}

// Appends cells that stand behind another.
fn push_others(alloc: Global, text: &mut Vec<u8>, cells: &[Cell]) -> Result<(), AllocError>
    ensures { OnOk result (text.new.items ≡ text.old.items
        ++ flat_map (λ v. codes ", " ++ cell_text v) cells.now) }
{
    for cell in cells {
        push_other(alloc, text, cell)?;
    }
    Ok(())
}

fn push_other(alloc: Global, text: &mut Vec<u8>, cell: &Cell) -> Result<(), AllocError>
    ensures { OnOk result (text.new.items ≡ text.old.items ++ (codes ", " ++ cell_text cell.now)) }
{
    text.extend_from_slice(b", ")?;
    push_word(alloc, text, cell)
}

fn push_word(alloc: Global, text: &mut Vec<u8>, cell: &Cell) -> Result<(), AllocError>
    ensures { OnOk result (text.new.items ≡ text.old.items ++ cell_text cell.now) }
{
    let word = word_of(alloc, cell)?;
    Ok(text.extend_from_slice(word.as_bytes())?)
}

// A cell as a table is printed.
fn word_of(alloc: Global, cell: &Cell) -> Result<String, AllocError>
    ensures { IfOk result (λ s. string_bytes s ≡ cell_text cell.now) }
{
    match cell {
        Cell::Null => String::from_str(alloc, "null"),
        Cell::Int(n) => n.to_string(alloc),
        Cell::Wide(n) => n.to_string(alloc),
        Cell::Text(text) => escape(alloc, text.as_str()),
        Cell::Bool(true) => String::from_str(alloc, "true"),
        Cell::Bool(false) => String::from_str(alloc, "false"),
        Cell::Frac(mean) => {
            let sum = mean.sum();
            let count = mean.count();
            format!(in alloc; "{sum}/{count}")
        }
    }
}
