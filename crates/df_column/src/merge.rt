//! The rows of a block after changes, as picks.
ghost use Rattle.std.specs.Prelude.{◌≡◌, ℕ, ◌<◌, ◌≤◌, ◌-◌, ◌++◌, ◌∷◌, List, T, IfOk, OnOk, map, length, slice_index_or, take, drop};
ghost use Rattle.std.specs.List.{prefix_len};
ghost use Rattle.std.specs.Ordering.{is_lt};
ghost use Rattle.std.specs.FinMap.Entries.{below_all};
ghost use Rattle.df_value.specs.declared.cell.Cell.{Cell};
ghost use Rattle.df_value.specs.declared.cell.CellType.{CellType};
ghost use Rattle.df_column.specs.Changes.{Change, after_changes, one_at, rest_after};
ghost use Rattle.df_column.specs.Picks.{AreWithin, spliced};
ghost use Rattle.df_column.specs.Rows.{AreNewRows, AreRisingTags, AreRows, is_row_if_any, picked_rows, tagged_rows};
ghost use Rattle.df_column.specs.Tables.{AreRising, entry_change};
ghost use Rattle.df_column.specs.Tags.{tag_cmp};
ghost use Rattle.df_column.specs.declared.entry.Entry.{Entry};
ghost use Rattle.df_column.specs.declared.tag.Tag.{Tag};

use crate::entry::Entry;
use crate::picks::{Origin, Pick};
use crate::row_tags::RowTags;
use crate::tag::Tag;
use df_value::{Row, same};
use std::alloc::{AllocError, Global};

/// The index behind this one where the tag stands here, else this index.
fn index_after(tags: &RowTags, at: usize, tag: Tag) -> usize
    requires { at ≤ length tags.now }
    ensures rest { (columns : List (List Cell)) →
        rest_after tag_cmp tag (drop at (tagged_rows tags.now columns)) ≡
        drop result (tagged_rows tags.now columns) }
    ensures ordered { at ≤ result }
    ensures within { result ≤ length tags.now }
{
    if at == tags.len() {
        return at;
    }
    if same(&tags.get(at), &tag) {
        at + 1
    } else {
        at
    }
}

/// Adds the old rows from this index up to that one.
fn push_old(
    out: &mut Vec<Pick<'_>>,
    tags: &RowTags,
    from: usize,
    to: usize,
) -> Result<(), AllocError>
    requires ordered { from ≤ to }
    requires within { to ≤ length tags.now }
    requires sound { AreWithin (length tags.now) out.old.items }
    ensures within { OnOk result (AreWithin (length tags.now) out.new.items) }
    ensures rows { OnOk result ((columns : List (List Cell)) → picked_rows columns out.new.items ≡
        picked_rows columns out.old.items
        ++ take (to - from) (drop from (tagged_rows tags.now columns))) }
    ensures fits { OnOk result ((dtypes : List CellType) →
        AreRows dtypes out.old.items → AreRows dtypes out.new.items) }
{
    for at in from..to {
        let pick = Pick {
            tag: tags.get(at),
            origin: Origin::Old(at),
        };
        out.push(pick)?;
    }
    Ok(())
}

/// Adds the entry's new row, if there is one.
fn push_new<'a>(out: &mut Vec<Pick<'a>>, entry: &'a Entry) -> Result<(), AllocError>
    ensures within { OnOk result ((n : ℕ) → AreWithin n out.old.items → AreWithin n out.new.items) }
    ensures rows { OnOk result ((columns : List (List Cell)) → picked_rows columns out.new.items ≡
        picked_rows columns out.old.items ++ one_at entry.now.tag entry.now.new) }
    ensures fits { OnOk result ((dtypes : List CellType) → T (is_row_if_any dtypes entry.now.new) →
        AreRows dtypes out.old.items → AreRows dtypes out.new.items) }
{
    match &entry.new {
        Some(row) => {
            let pick = Pick {
                tag: entry.tag,
                origin: Origin::New(row),
            };
            out.push(pick)?;
            Ok(())
        }
        None => Ok(()),
    }
}

/// Adds the rows from this index on that stand before the entry's tag, and the new row there. Gives the index behind.
fn merge_entry<'a>(
    out: &mut Vec<Pick<'a>>,
    tags: &RowTags,
    at: usize,
    entry: &'a Entry,
) -> Result<usize, AllocError>
    requires rising { AreRisingTags tags.now }
    requires at { at ≤ length tags.now }
    requires sound { AreWithin (length tags.now) out.old.items }
    ensures ordered { IfOk result (λ next. at ≤ next) }
    ensures at { IfOk result (λ next. next ≤ length tags.now) }
    ensures within { OnOk result (AreWithin (length tags.now) out.new.items) }
    ensures rows { IfOk result (λ next.
        (columns : List (List Cell)) (later : List (Tag × Change (List Cell))) →
        T (below_all tag_cmp entry.now.tag later) →
        picked_rows columns out.new.items
        ++ after_changes tag_cmp (drop next (tagged_rows tags.now columns)) later ≡
        picked_rows columns out.old.items ++
        after_changes tag_cmp (drop at (tagged_rows tags.now columns))
        (entry_change entry.now ∷ later)) }
    ensures fits { OnOk result ((dtypes : List CellType) → T (is_row_if_any dtypes entry.now.new) →
        AreRows dtypes out.old.items → AreRows dtypes out.new.items) }
{
    let next = at + tags.count_below(at, entry.tag);
    push_old(out, tags, at, next)?;
    push_new(out, entry)?;
    Ok(index_after(tags, next, entry.tag))
}

/// The rows at these tags after the changes.
pub fn merge<'a>(
    alloc: Global,
    tags: &RowTags,
    entries: &'a [Entry],
) -> Result<Vec<Pick<'a>>, AllocError>
    requires tags { AreRisingTags tags.now }
    requires entries { AreRising entries.now }
    ensures within { IfOk result (λ picks. AreWithin (length tags.now) picks.items) }
    ensures rows { IfOk result (λ picks. (columns : List (List Cell)) →
        picked_rows columns picks.items ≡
        after_changes tag_cmp (tagged_rows tags.now columns) (map entry_change entries.now)) }
    ensures fits { IfOk result (λ picks. (dtypes : List CellType) →
        AreNewRows dtypes entries.now → AreRows dtypes picks.items) }
{
    let most = tags.len().saturating_add(entries.len());
    let mut picks = Vec::with_capacity(alloc, most)?;
    let mut at = 0;
    for entry in entries {
        at = merge_entry(&mut picks, tags, at, entry)?;
    }
    push_old(&mut picks, tags, at, tags.len())?;
    Ok(picks)
}

/// Rows of a block from one index up to another, in whose place the picked rows stand.
#[derive(Drop)]
pub struct Merged<'a> {
    pub low: usize,
    pub high: usize,
    pub picks: Vec<Pick<'a>>,
}

/// How many of the tags stand before the first entry's; 0 where there is no entry.
fn rows_before(tags: &RowTags, entries: &[Entry]) -> usize
    requires tags { AreRisingTags tags.now }
    requires entries { AreRising entries.now }
    ensures count { (e : Entry) → 0 < length entries.now → result ≡
        prefix_len (λ t. is_lt (tag_cmp t (slice_index_or entries.now 0 e).tag)) tags.now }
    ensures none { length entries.now ≡ 0 → result ≡ 0 }
    ensures within { result ≤ length tags.now }
    ensures rows { (columns : List (List Cell)) →
        take result (tagged_rows tags.now columns) ++
        after_changes tag_cmp (drop result (tagged_rows tags.now columns)) (map entry_change entries.now) ≡
        after_changes tag_cmp (tagged_rows tags.now columns) (map entry_change entries.now) }
{
    match entries.first() {
        Some(entry) => tags.count_below(0, entry.tag),
        None => 0,
    }
}

/// The change that the entries make in a block of these tags, from the first row that they reach to the last.
pub fn merge_changed<'a>(
    alloc: Global,
    tags: &RowTags,
    entries: &'a [Entry],
) -> Result<Merged<'a>, AllocError>
    requires tags { AreRisingTags tags.now }
    requires entries { AreRising entries.now }
    ensures ordered { IfOk result (λ m. m.low ≤ m.high) }
    ensures in_range { IfOk result (λ m. m.high ≤ length tags.now) }
    ensures within { IfOk result (λ m. AreWithin (length tags.now) m.picks.items) }
    ensures rows { IfOk result (λ m. (columns : List (List Cell)) →
        spliced m.low m.high (picked_rows columns m.picks.items) (tagged_rows tags.now columns) ≡
        after_changes tag_cmp (tagged_rows tags.now columns) (map entry_change entries.now)) }
    ensures fits { IfOk result (λ m. (dtypes : List CellType) →
        AreNewRows dtypes entries.now → AreRows dtypes m.picks.items) }
{
    let low = rows_before(tags, entries);
    let mut picks = Vec::with_capacity(alloc, entries.len())?;
    let mut high = low;
    for entry in entries {
        high = merge_entry(&mut picks, tags, high, entry)?;
    }
    Ok(Merged { low, high, picks })
}
