//! Edits of a sequence of rows that stand by rising tags.
ghost use Rattle.std.specs.Prelude.{◌≡◌, MatchResult, None, Some, T};
ghost use Rattle.std.specs.FinMap as finite;
ghost use Rattle.df_column.specs.Changes.{edit};
ghost use Rattle.df_column.specs.Tags.{tag_cmp};
ghost use Rattle.df_tree.specs.Leaves.{items_in};
ghost use Rattle.df_join.specs.Places.{IsPlace, stands_at as stands_at_place};

use crate::tree_table::tagged_row::{IsFrom, TaggedRow};
use df_column::Tag;
use df_tree::Seq;
use std::alloc::{AllocError, Global};

/// The index of the first row at this tag or behind it, or how many rows there are.
fn place_of(rows: &Seq<TaggedRow>, tag: Tag) -> usize
    ensures { IsPlace tag (items_in rows.now) result }
{
    match rows.find(&IsFrom { tag }) {
        Some(index) => index,
        None => rows.len(),
    }
}

/// Whether a row stands at the index, and has this tag.
fn stands_at(rows: &Seq<TaggedRow>, index: usize, tag: Tag) -> bool
    ensures { result ≡ stands_at_place tag (items_in rows.now) index }
{
    if index >= rows.len() {
        return false;
    }
    tag.cmp(&rows.get(index).tag()).is_eq()
}

/// Puts the row at its tag. Where memory is refused the rows stay.
pub fn put_row(rows: &mut Seq<TaggedRow>, alloc: Global, row: TaggedRow) -> Result<(), AllocError>
    ensures { MatchResult result
        (λ _. T (finite.is_sorted tag_cmp (items_in rows.old))
        → items_in rows.new ≡ edit tag_cmp (items_in rows.old) row.0 (Some row.1))
        (λ _. items_in rows.new ≡ items_in rows.old) }
{
    let index = place_of(rows, row.tag());
    if stands_at(rows, index, row.tag()) {
        return rows.set(alloc, index, row);
    }
    rows.insert(alloc, index, row)
}

/// Takes the row at the tag out, if there is one. Where memory is refused the rows stay.
pub fn take_row(rows: &mut Seq<TaggedRow>, alloc: Global, tag: Tag) -> Result<(), AllocError>
    ensures { MatchResult result
        (λ _. T (finite.is_sorted tag_cmp (items_in rows.old))
        → items_in rows.new ≡ edit tag_cmp (items_in rows.old) tag None)
        (λ _. items_in rows.new ≡ items_in rows.old) }
{
    let index = place_of(rows, tag);
    if !stands_at(rows, index, tag) {
        return Ok(());
    }
    let taken = rows.remove(alloc, index)?;
    drop(taken);
    Ok(())
}
