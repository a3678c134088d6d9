//! What a change of rows does to a view, in lines of CSV.
ghost use Rattle.std.specs.Prelude.{◌≡◌, ◌+◌, ◌-◌, ◌≤◌, ◌++◌, IfOk, OnOk, codes, flat_map, map, string_bytes};
ghost use Rattle.std.specs.FinMap as finite;
ghost use Rattle.df_column.specs.Tables.{entry_change};
ghost use Rattle.df_session.specs.ViewChanges as view_changes;
ghost use Rattle.df_session.specs.ViewChanges.{change_lines, change_text, going_lines, line_of, row_line};

use crate::writing::count_ends;
use df_column::{Entry, Table, Tag};
use df_delta::Delta;
use df_export::push_rest;
use df_text::escape;
use df_value::Row;
use itoa::Buffer;
use std::alloc::{AllocError, Global};

/// What the change of this number did to the view of a name, by its table afterwards: a line `change NAME NUMBER LINES`, and
/// behind it so many lines of CSV.
///
/// They are first those of the rows that go, each behind `-` and its place in the table before, and then those of the rows
/// that come, behind `+` and their place in this one. Places begin at 0 and rise; a changed row is both. The cells stand as
/// [`csv_table`](df_export::csv_table) writes them, but that null is an empty field in a table of one column, too.
pub fn tell_change(
    alloc: Global,
    name: &str,
    number: u64,
    table: &Table,
    delta: &Delta,
) -> Result<Vec<u8>, AllocError>
    ensures { IfOk result (λ text. text.items
        ≡ change_text name.now number (change_lines table.now.rows delta.now)) }
{
    let lines = lines_of(alloc, table, delta)?;
    let head = change_head(alloc, name, number, count_ends(lines.as_slice()))?;
    let mut text = head.into_bytes();
    text.extend_from_slice(lines.as_slice())?;
    Ok(text)
}

/// What is told in place of a change that cannot be told, up to its number.
pub fn missed_begin(alloc: Global, name: &str) -> Result<String, AllocError>
    ensures { IfOk result (λ text. string_bytes text ≡ view_changes.missed_begin name.now) }
{
    let name = escape(alloc, name)?;
    let name = name.as_str();
    format!(in alloc; "missed {name} ")
}

fn change_head(alloc: Global, name: &str, number: u64, lines: usize) -> Result<String, AllocError>
    ensures { IfOk result (λ head. string_bytes head
        ≡ view_changes.change_head name.now number lines) }
{
    let name = escape(alloc, name)?;
    let name = name.as_str();
    format!(in alloc; "change {name} {number} {lines}\n")
}

fn lines_of(alloc: Global, table: &Table, delta: &Delta) -> Result<Vec<u8>, AllocError>
    ensures { IfOk result (λ lines. lines.items ≡ change_lines table.now.rows delta.now) }
{
    let mut lines = Vec::new(alloc);
    push_going(alloc, &mut lines, table, delta.entries())?;
    push_coming(alloc, &mut lines, table, delta.entries())?;
    Ok(lines)
}

// Appends the lines of the rows that go.
fn push_going(
    alloc: Global,
    out: &mut Vec<u8>,
    table: &Table,
    entries: &[Entry],
) -> Result<(), AllocError>
    ensures { OnOk result (out.new.items ≡ out.old.items
        ++ going_lines (finite.entries table.now.rows) 0 0 (map entry_change entries.now)) }
{
    let mut gone = 0;
    let mut come = 0;
    for entry in entries {
        push_gone(alloc, out, table, entry, gone, come)?;
        gone += one_if(&entry.old);
        come += one_if(&entry.new);
    }
    Ok(())
}

// Appends the line of a row that goes, if one does, where so many have gone at lesser tags and so many have come there.
fn push_gone(
    alloc: Global,
    out: &mut Vec<u8>,
    table: &Table,
    entry: &Entry,
    gone: usize,
    come: usize,
) -> Result<(), AllocError>
    ensures { OnOk result (out.new.items ≡ out.old.items ++ line_of (codes "-,")
        ((view_changes.place_of entry.now.tag (finite.entries table.now.rows) + gone) - come)
        entry.now.old) }
{
    // In u128 the sum of two sizes is not too large.
    let place = (place_of(table, entry.tag) as u128 + gone as u128).saturating_sub(come as u128);
    match &entry.old {
        Some(row) => push_row(alloc, out, b"-,", place, row),
        None => Ok(()),
    }
}

// Appends the lines of the rows that come.
fn push_coming(
    alloc: Global,
    out: &mut Vec<u8>,
    table: &Table,
    entries: &[Entry],
) -> Result<(), AllocError>
    ensures { OnOk result (out.new.items ≡ out.old.items ++ flat_map
        (λ e. line_of (codes "+,") (view_changes.place_of e.tag (finite.entries table.now.rows)) e.new)
        entries.now) }
{
    for entry in entries {
        push_come(alloc, out, table, entry)?;
    }
    Ok(())
}

// Appends the line of a row that comes, if one does.
fn push_come(
    alloc: Global,
    out: &mut Vec<u8>,
    table: &Table,
    entry: &Entry,
) -> Result<(), AllocError>
    ensures { OnOk result (out.new.items ≡ out.old.items ++ line_of (codes "+,")
        (view_changes.place_of entry.now.tag (finite.entries table.now.rows)) entry.now.new) }
{
    let place = place_of(table, entry.tag) as u128;
    match &entry.new {
        Some(row) => push_row(alloc, out, b"+,", place, row),
        None => Ok(()),
    }
}

fn push_row(
    alloc: Global,
    out: &mut Vec<u8>,
    sign: &[u8],
    place: u128,
    row: &Row,
) -> Result<(), AllocError>
    ensures { OnOk result (out.new.items ≡ out.old.items ++ row_line sign.now place row.now) }
{
    let mut digits = Buffer::new();
    out.extend_from_slice(sign)?;
    out.extend_from_slice(digits.format(place).as_bytes())?;
    push_rest(alloc, out, row.as_slice())?;
    Ok(out.push(b'\n')?)
}

// How many rows have a tag below this one.
fn place_of(table: &Table, tag: Tag) -> usize
    ensures { result ≡ view_changes.place_of tag (finite.entries table.now.rows) }
{
    table.lower_bound(tag)
}

fn one_if(row: &Option<Row>) -> usize
    ensures value { result ≡ view_changes.one_if row.now }
    ensures few { result ≤ 1 }
{
    match row {
        Some(_) => 1,
        None => 0,
    }
}
