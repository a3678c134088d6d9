//! Lists of blocks, and their changes.
ghost use Rattle.std.specs.Prelude.{◌≡◌, ◌<◌, ◌≤◌, ◌+◌, ◌-◌, ◌++◌, [], T, IfOk, drop, map, length, slice_index_or, take};
ghost use Rattle.std.specs.Arc.{arc_value};
ghost use Rattle.std.specs.FinMap as finite;
ghost use Rattle.std.specs.List.{prefix_len};
ghost use Rattle.std.specs.Ordering.{is_lt};
ghost use Rattle.df_column.specs.BlockMinMax.{AreKnown};
ghost use Rattle.df_column.specs.BlockRows.{AddsFirst, AddsRows};
ghost use Rattle.df_column.specs.Blocks.{AreOfDtypes, block_rows, rows_of_blocks};
ghost use Rattle.df_column.specs.Changes.{IsNext, after_changes};
ghost use Rattle.df_column.specs.Columns.{column_cells, dtype_of_column};
ghost use Rattle.df_column.specs.Picks.{AreWithin, spliced};
ghost use Rattle.df_column.specs.Rows as rows;
ghost use Rattle.df_column.specs.Rows.{AreNewRows, AreRows, are_even};
ghost use Rattle.df_column.specs.Sizes.{most_rows};
ghost use Rattle.df_column.specs.Tables as tables;
ghost use Rattle.df_column.specs.Tables.{AreRising, entry_change};
ghost use Rattle.df_column.specs.Tags.{tag_cmp};
ghost use Rattle.df_column.specs.declared.entry.Entry.{Entry};
ghost use Rattle.df_column.specs.declared.tag.Tag.{Tag};

use crate::block::{Block, MOST_ROWS};
use crate::block_list::BlockList;
use crate::column::Column;
use crate::entry::Entry;
use crate::merge::{Merged, merge, merge_changed};
use crate::min_max::MinMaxPlaces;
use crate::picks::Pick;
use crate::row_tags::RowTags;
use crate::tag::Tag;
use std::alloc::{AllocError, Global};
use std::ops::Range;
use std::sync::Arc;

/// The list with the block itself behind it.
fn with_shared(alloc: Global, out: BlockList, block: &Arc<Block>) -> Result<BlockList, AllocError>
    ensures { IfOk result (AddsRows (map dtype_of_column (arc_value block.now).columns)
        (block_rows (arc_value block.now)) out) }
{
    let block = Arc::try_clone(block)?;
    out.pushed(alloc, block)
}

/// The list with one block behind it: of the rows of these tags and columns, with the picked rows in place of those from
/// `low` up to `high`, as [`Block::spliced`] makes it.
pub fn with_spliced(
    alloc: Global,
    out: BlockList,
    tags: &RowTags,
    columns: &[Column],
    known: &[MinMaxPlaces],
    low: usize,
    high: usize,
    picks: &[Pick<'_>],
) -> Result<BlockList, AllocError>
    requires even { T (are_even (length tags.now) (map column_cells columns.now)) }
    requires known { AreKnown (map column_cells columns.now) known.now }
    requires ordered { low ≤ high }
    requires in_range { high ≤ length tags.now }
    requires within { AreWithin (length tags.now) picks.now }
    requires rows { AreRows (map dtype_of_column columns.now) picks.now }
    requires some { 0 < low + length picks.now + (length tags.now - high) }
    requires few { low + length picks.now + (length tags.now - high) ≤ most_rows }
    ensures { IfOk result (AddsRows (map dtype_of_column columns.now)
        (spliced low high (rows.picked_rows (map column_cells columns.now) picks.now)
        (rows.tagged_rows tags.now (map column_cells columns.now))) out) }
{
    let block = Block::spliced(alloc, tags, columns, known, low, high, picks)?;
    let block = Arc::new(alloc, block)?;
    out.pushed(alloc, block)
}

/// The list with the picked rows behind it, in blocks of this size.
pub fn with_parts(
    alloc: Global,
    out: BlockList,
    tags: &RowTags,
    columns: &[Column],
    known: &[MinMaxPlaces],
    picks: &[Pick<'_>],
    size: usize,
) -> Result<BlockList, AllocError>
    requires even { T (are_even (length tags.now) (map column_cells columns.now)) }
    requires known { AreKnown (map column_cells columns.now) known.now }
    requires within { AreWithin (length tags.now) picks.now }
    requires rows { AreRows (map dtype_of_column columns.now) picks.now }
    requires some { 0 < size }
    requires few { size ≤ most_rows }
    ensures { IfOk result (AddsRows (map dtype_of_column columns.now)
        (rows.picked_rows (map column_cells columns.now) picks.now) out) }
{
    let mut made = out;
    let mut from = 0;
    while from < picks.len() {
        let to = from + size.min(picks.len() - from);
        let part = &picks[from..to];
        made = with_spliced(alloc, made, tags, columns, known, 0, tags.len(), part)?;
        from = to;
    }
    Ok(made)
}

/// The most rows of each block that this many rows are cut into, evenly.
fn part_size(rows: usize) -> usize
    ensures some { 0 < result }
    ensures few { result ≤ most_rows }
{
    let parts = rows.div_ceil(MOST_ROWS);
    if parts == 0 {
        return 1;
    }
    rows.div_ceil(parts).clamp(1, MOST_ROWS)
}

/// Whether the first entry stands behind all of these tags.
fn is_behind(tags: &RowTags, entries: &[Entry]) -> bool
    requires tags { 0 < length tags.now }
    requires entries { 0 < length entries.now }
    ensures { (t : Tag) (e : Entry) → result ≡
        is_lt (tag_cmp (slice_index_or tags.now (length tags.now - 1) t)
        (slice_index_or entries.now 0 e).tag) }
{
    let first = &entries[0];
    tags.get(tags.len() - 1) < first.tag
}

/// The list with the block's rows and the picked rows behind it in one block: the block itself where there are none.
fn with_grown(
    alloc: Global,
    out: BlockList,
    block: &Arc<Block>,
    picks: &[Pick<'_>],
) -> Result<BlockList, AllocError>
    requires within { AreWithin 0 picks.now }
    requires rows { AreRows (map dtype_of_column (arc_value block.now).columns) picks.now }
    requires few { length (arc_value block.now).tags + length picks.now ≤ most_rows }
    ensures { IfOk result (AddsRows (map dtype_of_column (arc_value block.now).columns)
        (block_rows (arc_value block.now)
        ++ rows.picked_rows (map column_cells (arc_value block.now).columns) picks.now)
        out) }
{
    if picks.is_empty() {
        return with_shared(alloc, out, block);
    }
    let tags = block.tags();
    let columns = block.columns();
    let known = block.min_max();
    let rows = tags.len();
    with_spliced(alloc, out, tags, columns, known, rows, rows, picks)
}

/// A last block that has so many rows is closed: further rows go into a new one, since each row that comes into a block
/// makes it anew.
const CLOSED_ROWS: usize = 64;

/// At most how many rows may be put behind those of a last block.
fn room_in(block: &Block) -> usize
    ensures { length block.now.tags + result ≤ most_rows }
{
    let rows = block.tags().len();
    if rows >= CLOSED_ROWS {
        return 0;
    }
    MOST_ROWS - rows
}

/// The list with the block's rows and then the picked rows behind it, of which at most so many go into the block.
fn with_filled(
    alloc: Global,
    out: BlockList,
    block: &Arc<Block>,
    room: usize,
    picks: &[Pick<'_>],
) -> Result<BlockList, AllocError>
    requires room { length (arc_value block.now).tags + room ≤ most_rows }
    requires within { AreWithin 0 picks.now }
    requires rows { AreRows (map dtype_of_column (arc_value block.now).columns) picks.now }
    ensures { IfOk result (AddsRows (map dtype_of_column (arc_value block.now).columns)
        (block_rows (arc_value block.now)
        ++ rows.picked_rows (map column_cells (arc_value block.now).columns) picks.now)
        out) }
{
    let (first, rest) = picks.split_at(room.min(picks.len()));
    let grown = with_grown(alloc, out, block, first)?;
    let tags = block.tags();
    let columns = block.columns();
    let known = block.min_max();
    with_parts(alloc, grown, tags, columns, known, rest, MOST_ROWS)
}

/// The list with the rows of a last block and then the new rows of these entries behind it.
fn with_behind(
    alloc: Global,
    out: BlockList,
    block: &Arc<Block>,
    entries: &[Entry],
) -> Result<BlockList, AllocError>
    requires entries { AreRising entries.now }
    requires fits { AreNewRows (map dtype_of_column (arc_value block.now).columns) entries.now }
    ensures { IfOk result (AddsRows (map dtype_of_column (arc_value block.now).columns)
        (block_rows (arc_value block.now)
        ++ after_changes tag_cmp [] (map entry_change entries.now)) out) }
{
    let picks = merge(alloc, &RowTags::new(alloc), entries)?;
    with_filled(alloc, out, block, room_in(block), &picks)
}

/// The list with the block's rows after these changes behind it, in one block if all fit. Else they are cut evenly.
fn with_merged(
    alloc: Global,
    out: BlockList,
    block: &Arc<Block>,
    entries: &[Entry],
) -> Result<BlockList, AllocError>
    requires rows { T (finite.is_sorted tag_cmp (block_rows (arc_value block.now))) }
    requires entries { AreRising entries.now }
    requires fits { AreNewRows (map dtype_of_column (arc_value block.now).columns) entries.now }
    ensures { IfOk result (AddsRows (map dtype_of_column (arc_value block.now).columns)
        (after_changes tag_cmp (block_rows (arc_value block.now)) (map entry_change entries.now))
        out) }
{
    let tags = block.tags();
    let columns = block.columns();
    let known = block.min_max();
    let Merged { low, high, picks } = merge_changed(alloc, tags, entries)?;
    let rows = (low + (tags.len() - high)).saturating_add(picks.len());
    if 0 < rows && rows <= MOST_ROWS {
        let made = with_spliced(alloc, out, tags, columns, known, low, high, &picks)?;
        return Ok(made);
    }
    let picks = merge(alloc, tags, entries)?;
    let size = part_size(picks.len());
    let made = with_parts(alloc, out, tags, columns, known, &picks, size)?;
    Ok(made)
}

/// The list with the block's rows after these changes behind it: the block itself where there is none. New rows behind
/// all of a last block go into it until it is closed, and then into new ones.
fn with_changed(
    alloc: Global,
    out: BlockList,
    block: &Arc<Block>,
    entries: &[Entry],
    is_last: bool,
) -> Result<BlockList, AllocError>
    requires rows { T (finite.is_sorted tag_cmp (block_rows (arc_value block.now))) }
    requires entries { AreRising entries.now }
    requires fits { AreNewRows (map dtype_of_column (arc_value block.now).columns) entries.now }
    ensures { IfOk result (AddsRows (map dtype_of_column (arc_value block.now).columns)
        (after_changes tag_cmp (block_rows (arc_value block.now)) (map entry_change entries.now))
        out) }
{
    if entries.is_empty() {
        return with_shared(alloc, out, block);
    }
    if is_last && is_behind(block.tags(), entries) {
        let made = with_behind(alloc, out, block, entries)?;
        return Ok(made);
    }
    with_merged(alloc, out, block, entries)
}

/// How many of the entries stand before the tag.
pub fn entries_before(entries: &[Entry], tag: Tag) -> usize
    ensures count { result ≡ prefix_len (λ e. is_lt (tag_cmp e.tag tag)) entries.now }
    ensures within { result ≤ length entries.now }
{
    entries.iter().take_while(|e| e.tag < tag).count()
}

/// How many of the entries stand before the tag, or all.
fn count_before(entries: &[Entry], next: Option<Tag>) -> usize
    ensures count { result ≡ tables.count_before next entries.now }
    ensures within { result ≤ length entries.now }
{
    match next {
        Some(tag) => entries_before(entries, tag),
        None => entries.len(),
    }
}

/// The first tag of the blocks in a range.
fn first_tag(blocks: &BlockList, range: Range<usize>) -> Option<Tag>
    requires { range.end ≤ length blocks.now }
    ensures { IsNext (rows_of_blocks (drop range.start (take range.end blocks.now))) result }
{
    if range.start < range.end {
        Some(blocks.get(range.start).first())
    } else {
        None
    }
}

/// The list with a block behind it after its changes, and the changes of the later ones in a range. Where there are no
/// changes, nothing is read. Only where the list grows, rows behind the last one go into new blocks.
fn with_first<'a>(
    alloc: Global,
    out: BlockList,
    block: &Arc<Block>,
    blocks: &BlockList,
    later: Range<usize>,
    grows: bool,
    entries: &'a [Entry],
) -> Result<(BlockList, &'a [Entry]), AllocError>
    requires in_range { later.end ≤ length blocks.now }
    requires rows { T (finite.is_sorted tag_cmp (block_rows (arc_value block.now)
        ++ rows_of_blocks (drop later.start (take later.end blocks.now)))) }
    requires entries { AreRising entries.now }
    requires fits { AreNewRows (map dtype_of_column (arc_value block.now).columns) entries.now }
    ensures rising { IfOk result (λ v. AreRising v.1.now) }
    ensures fits { IfOk result (λ v.
        AreNewRows (map dtype_of_column (arc_value block.now).columns) v.1.now) }
    ensures adds { IfOk result (λ v. AddsFirst (map dtype_of_column (arc_value block.now).columns)
        (block_rows (arc_value block.now)) (rows_of_blocks (drop later.start (take later.end blocks.now)))
        entries.now v.1.now out v.0) }
{
    if entries.is_empty() {
        let out = with_shared(alloc, out, block)?;
        return Ok((out, entries));
    }
    let is_last = grows && later.start == blocks.len();
    let (mine, others) = entries.split_at(count_before(entries, first_tag(blocks, later)));
    let made = with_changed(alloc, out, block, mine, is_last)?;
    Ok((made, others))
}

/// The list with the blocks in a range behind it after the changes. Where there are none, the new rows go into blocks of
/// these columns, which have no cells. Only where the list of the blocks grows, rows behind its last one go into new
/// blocks once that is closed.
pub fn with_changes(
    alloc: Global,
    out: BlockList,
    blocks: &BlockList,
    range: Range<usize>,
    grows: bool,
    columns: &[Column],
    entries: &[Entry],
) -> Result<BlockList, AllocError>
    requires ordered { range.start ≤ range.end }
    requires in_range { range.end ≤ length blocks.now }
    requires rows { T (finite.is_sorted tag_cmp
        (rows_of_blocks (drop range.start (take range.end blocks.now)))) }
    requires types { AreOfDtypes (map dtype_of_column columns.now) blocks.now }
    requires empty { T (are_even 0 (map column_cells columns.now)) }
    requires entries { AreRising entries.now }
    requires fits { AreNewRows (map dtype_of_column columns.now) entries.now }
    ensures { IfOk result (AddsRows (map dtype_of_column columns.now)
        (after_changes tag_cmp (rows_of_blocks (drop range.start (take range.end blocks.now)))
        (map entry_change entries.now)) out) }
{
    let mut made = out;
    let mut rest = entries;
    let mut at = range.start;
    while at < range.end {
        let later = at + 1..range.end;
        let (list, others) = with_first(alloc, made, blocks.get(at), blocks, later, grows, rest)?;
        made = list;
        rest = others;
        at += 1;
    }
    let tags = RowTags::new(alloc);
    let picks = merge(alloc, &tags, rest)?;
    with_parts(alloc, made, &tags, columns, &[], &picks, MOST_ROWS)
}
