//! The entries of a delta.
ghost use Rattle.std.specs.Prelude.{◌≡◌, IfOk, OnOk, T, map};
ghost use Rattle.std.specs.FinMap as finite;
ghost use Rattle.std.specs.List.{list_all};
ghost use Rattle.std.specs.Ordering.{is_lt};
ghost use Rattle.df_column.specs.Tables.{entry_change};
ghost use Rattle.df_column.specs.Tags.{tag_cmp};
ghost use Rattle.df_delta.specs.Deltas.{coming, has_row, is_delta};
ghost use Rattle.df_delta.specs.SameRows.{same_row, with_change};

use df_column::{Entry, Table, Tag};
use df_value::Row;
use std::alloc::{AllocError, Global};

/// Whether the entries are those of a delta.
pub fn are_changes(entries: &[Entry]) -> bool
    ensures { result ≡ is_delta entries.now }
{
    are_rising(entries) && have_rows(entries)
}

fn have_rows(entries: &[Entry]) -> bool
    ensures { result ≡ list_all has_row entries.now }
{
    entries.iter().all(|entry| has_some_row(entry))
}

fn are_rising(entries: &[Entry]) -> bool
    ensures { result ≡ finite.is_sorted tag_cmp (map entry_change entries.now) }
{
    for at in 1..entries.len() {
        if !is_before(&entries[at - 1], &entries[at]) {
            return false;
        }
    }
    true
}

fn is_before(a: &Entry, b: &Entry) -> bool
    ensures { result ≡ is_lt (tag_cmp a.now.tag b.now.tag) }
{
    a.tag < b.tag
}

fn has_some_row(entry: &Entry) -> bool
    ensures { result ≡ has_row entry.now }
{
    entry.old.is_some() || entry.new.is_some()
}

/// An entry for each row of the table, which comes.
pub fn whole_entries(alloc: Global, table: &Table) -> Result<Vec<Entry>, AllocError>
    ensures { IfOk result (λ made. map entry_change made.items
        ≡ map coming (finite.entries table.now.rows)) }
{
    let rows = table.tagged_rows(alloc)?;
    let mut entries = Vec::with_capacity(alloc, rows.len())?;
    for (tag, row) in rows {
        entries.push(Entry {
            tag,
            old: None,
            new: Some(row),
        })?;
    }
    Ok(entries)
}

fn are_same(a: &Option<Row>, b: &Option<Row>) -> bool
    ensures { result ≡ same_row a.now b.now }
{
    match (a, b) {
        (Some(a), Some(b)) => a == b,
        (None, None) => true,
        _ => false,
    }
}

/// Adds the change from `old` to `new` at the tag, unless the two are equal.
pub fn push_change(
    entries: &mut Vec<Entry>,
    tag: Tag,
    old: Option<Row>,
    new: Option<Row>,
) -> Result<(), AllocError>
    ensures added { OnOk result (map entry_change entries.new.items
        ≡ with_change (map entry_change entries.old.items) tag old new) }
    ensures rows { T (list_all has_row entries.old.items)
        → OnOk result (T (list_all has_row entries.new.items)) }
{
    if are_same(&old, &new) {
        return Ok(());
    }
    entries.push(Entry { tag, old, new })?;
    Ok(())
}
