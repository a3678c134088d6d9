//! The blocks of a table that shares some of them with another.
ghost use Rattle.std.specs.Prelude.{◌≡◌, ◌≤◌, [], List, T, IfOk, IfSome, drop, map, length, take};
ghost use Rattle.std.specs.FinMap as finite;
ghost use Rattle.df_value.specs.declared.cell.CellType.{CellType};
ghost use Rattle.df_column.specs.Blocks.{AreOfDtypes, rows_of_blocks};
ghost use Rattle.df_column.specs.Changes.{after_changes, apart};
ghost use Rattle.df_column.specs.Columns.{column_cells, dtype_of_column};
ghost use Rattle.df_column.specs.Rows.{AreNewRows, are_even};
ghost use Rattle.df_column.specs.Tables.{AreRising, entry_change};
ghost use Rattle.df_column.specs.Tags.{tag_cmp};

use crate::block_list::BlockList;
use crate::blocks::with_changes;
use crate::column::Column;
use crate::edited::Edited;
use crate::entry::Entry;
use crate::spots;
use std::alloc::{AllocError, Global};

/// The same blocks, shared.
pub fn shared_blocks(alloc: Global, blocks: &BlockList) -> Result<BlockList, AllocError>
    ensures { IfOk result (λ l. l ≡ blocks.now) }
{
    BlockList::new(alloc).joined(alloc, blocks, 0, blocks.len())
}

/// How many of the first blocks end before the first change: all where there is none. Else the last block is not one of
/// them, so that new rows can fill it up.
pub fn untouched(blocks: &BlockList, entries: &[Entry]) -> usize
    requires rows { T (finite.is_sorted tag_cmp (rows_of_blocks blocks.now)) }
    requires entries { AreRising entries.now }
    ensures within { result ≤ length blocks.now }
    ensures apart { T (apart tag_cmp (rows_of_blocks (take result blocks.now))
        (map entry_change entries.now)) }
{
    match entries.first() {
        Some(first) => spots::whole_blocks_below(blocks, first.tag).min(
            blocks.len().saturating_sub(1),
        ),
        None => blocks.len(),
    }
}

/// How many of the first blocks stand before those that begin behind the last change. The block at an index is one of
/// them, if there is a change.
pub fn reached(blocks: &BlockList, at: usize, entries: &[Entry]) -> usize
    requires rows { T (finite.is_sorted tag_cmp (rows_of_blocks blocks.now)) }
    requires at { at ≤ length blocks.now }
    requires entries { AreRising entries.now }
    ensures ordered { at ≤ result }
    ensures within { result ≤ length blocks.now }
    ensures apart { T (apart tag_cmp (map entry_change entries.now)
        (rows_of_blocks (drop result blocks.now))) }
{
    match entries.last() {
        Some(last) => spots::blocks_up_to(blocks, last.tag)
            .max(at.saturating_add(1))
            .min(blocks.len()),
        None => at,
    }
}

/// The blocks after the changes. Those before the first change and behind the last one are not read, all between are.
fn with_range_changed(
    alloc: Global,
    blocks: &BlockList,
    columns: &[Column],
    entries: &[Entry],
) -> Result<BlockList, AllocError>
    requires rows { T (finite.is_sorted tag_cmp (rows_of_blocks blocks.now)) }
    requires types { AreOfDtypes (map dtype_of_column columns.now) blocks.now }
    requires empty { T (are_even 0 (map column_cells columns.now)) }
    requires entries { AreRising entries.now }
    requires fits { AreNewRows (map dtype_of_column columns.now) entries.now }
    ensures rows { IfOk result (λ l. rows_of_blocks l ≡
        after_changes tag_cmp (rows_of_blocks blocks.now) (map entry_change entries.now)) }
    ensures types { IfOk result (AreOfDtypes (map dtype_of_column columns.now)) }
{
    let front = untouched(blocks, entries);
    let back = reached(blocks, front, entries);
    let before = BlockList::new(alloc).joined(alloc, blocks, 0, front)?;
    let changed = with_changes(alloc, before, blocks, front..back, true, columns, entries)?;
    changed.joined(alloc, blocks, back, blocks.len())
}

/// How many of the first blocks end before the first change, where all others begin behind the last one.
fn gap(blocks: &BlockList, entries: &[Entry]) -> Option<usize>
    requires rows { T (finite.is_sorted tag_cmp (rows_of_blocks blocks.now)) }
    requires entries { AreRising entries.now }
    ensures within { IfSome result (λ at. at ≤ length blocks.now) }
    ensures before { IfSome result (λ at. T (apart tag_cmp (rows_of_blocks (take at blocks.now))
        (map entry_change entries.now))) }
    ensures behind { IfSome result (λ at. T (apart tag_cmp (map entry_change entries.now)
        (rows_of_blocks (drop at blocks.now)))) }
{
    let Some(first) = entries.first() else {
        return Some(blocks.len());
    };
    let last = entries.last()?;
    let at = spots::whole_blocks_below(blocks, first.tag).min(blocks.len());
    if spots::blocks_up_to(blocks, last.tag) > at {
        return None;
    }
    Some(at)
}

/// The blocks after the changes, all shared: the old ones, and between them those of another list, which has the rows that
/// the changes make of none. None where an old block reaches into the changes.
pub fn joined_blocks(
    alloc: Global,
    blocks: &BlockList,
    entries: &[Entry],
    made: &BlockList,
) -> Result<Option<BlockList>, AllocError>
    requires rows { T (finite.is_sorted tag_cmp (rows_of_blocks blocks.now)) }
    requires entries { AreRising entries.now }
    requires made { rows_of_blocks made.now ≡ after_changes tag_cmp [] (map entry_change entries.now) }
    ensures rows { IfOk result (λ o. IfSome o (λ l. rows_of_blocks l ≡
        after_changes tag_cmp (rows_of_blocks blocks.now) (map entry_change entries.now))) }
    ensures types { (dtypes : List CellType) → AreOfDtypes dtypes blocks.now → AreOfDtypes dtypes made.now →
        IfOk result (λ o. IfSome o (AreOfDtypes dtypes)) }
{
    let Some(at) = gap(blocks, entries) else {
        return Ok(None);
    };
    let before = BlockList::new(alloc).joined(alloc, blocks, 0, at)?;
    let joined = before.joined(alloc, made, 0, made.len())?;
    let list = joined.joined(alloc, blocks, at, blocks.len())?;
    Ok(Some(list))
}

/// The list after the changes of further entries.
fn with_others(
    alloc: Global,
    list: BlockList,
    columns: &[Column],
    entries: &[Entry],
) -> Result<BlockList, AllocError>
    requires rows { T (finite.is_sorted tag_cmp (rows_of_blocks list)) }
    requires types { AreOfDtypes (map dtype_of_column columns.now) list }
    requires empty { T (are_even 0 (map column_cells columns.now)) }
    requires entries { AreRising entries.now }
    requires fits { AreNewRows (map dtype_of_column columns.now) entries.now }
    ensures rows { IfOk result (λ l. rows_of_blocks l ≡
        after_changes tag_cmp (rows_of_blocks list) (map entry_change entries.now)) }
    ensures types { IfOk result (AreOfDtypes (map dtype_of_column columns.now)) }
{
    if entries.is_empty() {
        return Ok(list);
    }
    with_range_changed(alloc, &list, columns, entries)
}

/// The blocks after the changes. Leaves without a change are shared, and not read. Where there are no blocks, the new rows
/// go into blocks of these columns, which have no cells.
pub fn edited_blocks(
    alloc: Global,
    blocks: &BlockList,
    columns: &[Column],
    entries: &[Entry],
) -> Result<BlockList, AllocError>
    requires rows { T (finite.is_sorted tag_cmp (rows_of_blocks blocks.now)) }
    requires types { AreOfDtypes (map dtype_of_column columns.now) blocks.now }
    requires empty { T (are_even 0 (map column_cells columns.now)) }
    requires entries { AreRising entries.now }
    requires fits { AreNewRows (map dtype_of_column columns.now) entries.now }
    ensures rows { IfOk result (λ l. rows_of_blocks l ≡
        after_changes tag_cmp (rows_of_blocks blocks.now) (map entry_change entries.now)) }
    ensures types { IfOk result (AreOfDtypes (map dtype_of_column columns.now)) }
{
    match blocks.with_changed_leaves(alloc, columns, entries)? {
        None => with_range_changed(alloc, blocks, columns, entries),
        Some(Edited { list, from, to }) => {
            let list = with_others(alloc, list, columns, &entries[to..])?;
            with_others(alloc, list, columns, &entries[..from])
        }
    }
}
