//! Rows of a list of blocks, or of one run, by their index and by their tags.
ghost use Rattle.std.specs.Prelude.{◌≡◌, ◌↔◌, ℕ, ◌+◌, ◌<◌, ◌≤◌, ◌^◌, T, List, IfErr, IfOk, IsTrue, drop, length, slice_index_or, take};
ghost use Rattle.std.specs.FinMap as finite;
ghost use Rattle.std.specs.FinMap.Entries.{below_all};
ghost use Rattle.df_value.specs.Rows.{row_eq};
ghost use Rattle.df_value.specs.declared.cell.Cell.{Cell};
ghost use Rattle.df_column.specs.Blocks.{block_rows, rows_of_blocks};
ghost use Rattle.df_column.specs.Bounds.{IsLowerBound, IsUpperBound};
ghost use Rattle.df_column.specs.Changes.{all_under};
ghost use Rattle.df_column.specs.Places.{IsGap, IsPlace};
ghost use Rattle.df_column.specs.RowRuns.{StandFrom};
ghost use Rattle.df_column.specs.TableBlocks.{IsSpot};
ghost use Rattle.df_column.specs.Tags.{tag_cmp};
ghost use Rattle.df_column.specs.declared.tag.Tag.{Tag};

use crate::block::Block;
use crate::block_list::BlockList;
use crate::run::{Run, Spot};
use crate::tag::Tag;
use df_value::{Row, same};
use std::alloc::{AllocError, Global};

/// Where the row at this index of all rows stands.
pub fn locate(blocks: &BlockList, at: usize) -> Spot
    requires { at < length (rows_of_blocks blocks.now) }
    ensures { IsSpot blocks.now at result.block result.row }
{
    blocks.spot(at)
}

/// The tag of the row at this index.
pub fn tag_at(blocks: &BlockList, at: usize) -> Tag
    requires { at < length (rows_of_blocks blocks.now) }
    ensures { (d : Tag × List Cell) → result ≡ (slice_index_or (rows_of_blocks blocks.now) at d).0 }
{
    let spot = locate(blocks, at);
    blocks.get(spot.block).tags().get(spot.row)
}

/// A copy of the row at this index.
pub fn row_at(alloc: Global, blocks: &BlockList, at: usize) -> Result<Row, AllocError>
    requires { at < length (rows_of_blocks blocks.now) }
    ensures { IfOk result (λ r. (d : Tag × List Cell) → r ≡
        (slice_index_or (rows_of_blocks blocks.now) at d).1) }
{
    let spot = locate(blocks, at);
    blocks.get(spot.block).row(alloc, spot.row)
}

/// Whether the row at this index is this one.
pub fn is_row_at(blocks: &BlockList, at: usize, row: &Row) -> bool
    requires { at < length (rows_of_blocks blocks.now) }
    ensures { (d : Tag × List Cell) → result ≡
        row_eq (slice_index_or (rows_of_blocks blocks.now) at d).1 row.now }
{
    let spot = locate(blocks, at);
    blocks.get(spot.block).is_row(spot.row, row)
}

/// Whether these rows stand in a block from an index on, at tags whose first numbers rise by one from this one.
fn are_rows_in(block: &Block, low: usize, first: u64, rows: &[Row]) -> bool
    requires within { low + length rows.now ≤ length block.now.tags }
    requires numbers { first + length rows.now < 2 ^ 64 }
    ensures { IsTrue result ↔ StandFrom (block_rows block.now) low first rows.now }
{
    let tags = block.tags();
    for at in 0..rows.len() {
        if tags.get(low + at).first != first + at as u64 || !block.is_row(low + at, &rows[at]) {
            return false;
        }
    }
    true
}

/// Whether these rows stand from an index on, at tags whose first numbers rise by one from this one.
pub fn are_rows_at(blocks: &BlockList, at: usize, first: u64, rows: &[Row]) -> bool
    requires within { at + length rows.now ≤ length (rows_of_blocks blocks.now) }
    requires few { at + length rows.now < 2 ^ 64 }
    requires numbers { first + length rows.now < 2 ^ 64 }
    ensures { IsTrue result ↔ StandFrom (rows_of_blocks blocks.now) at first rows.now }
{
    let mut done = 0;
    while done < rows.len() {
        let spot = locate(blocks, at + done);
        let block = blocks.get(spot.block);
        let many = (rows.len() - done).min(block.tags().len() - spot.row);
        let part = &rows[done..done + many];
        if !are_rows_in(block, spot.row, first + done as u64, part) {
            return false;
        }
        done += many;
    }
    true
}

/// The index of the row at this tag in a block, or where it would stand.
fn find_in_block(block: &Block, tag: Tag) -> Result<usize, usize>
    requires { T (finite.is_sorted tag_cmp (block_rows block.now)) }
    ensures found { IfOk result (IsPlace tag_cmp (block_rows block.now) tag) }
    ensures absent { IfErr result (IsGap tag_cmp (block_rows block.now) tag) }
{
    let tags = block.tags();
    let row = tags.count_below(0, tag);
    if row < tags.len() && same(&tags.get(row), &tag) {
        Ok(row)
    } else {
        Err(row)
    }
}

/// The index of the row at this tag in a run, or where it would stand.
fn find_in_run(run: &Run, tag: Tag) -> Result<usize, usize>
    requires { T (finite.is_sorted tag_cmp (rows_of_blocks run.now)) }
    ensures found { IfOk result (IsPlace tag_cmp (rows_of_blocks run.now) tag) }
    ensures absent { IfErr result (IsGap tag_cmp (rows_of_blocks run.now) tag) }
{
    let Some(block) = run.block_of_tag(tag) else {
        return Err(0);
    };
    let start = run.start(block);
    match find_in_block(run.get(block), tag) {
        Ok(row) => Ok(start + row),
        Err(row) => Err(start + row),
    }
}

/// The index of the row at this tag, or where it would stand.
pub fn find(blocks: &BlockList, tag: Tag) -> Result<usize, usize>
    requires sorted { T (finite.is_sorted tag_cmp (rows_of_blocks blocks.now)) }
    ensures found { IfOk result (IsPlace tag_cmp (rows_of_blocks blocks.now) tag) }
    ensures absent { IfErr result (IsGap tag_cmp (rows_of_blocks blocks.now) tag) }
    ensures few { IfOk result (λ at. at < 2 ^ 60) }
{
    let Some((run, before)) = blocks.run_of_tag(tag) else {
        return Err(0);
    };
    match find_in_run(run, tag) {
        Ok(at) => Ok(before + at),
        Err(at) => Err(before + at),
    }
}

/// How many rows have a tag below this one.
fn rows_below(blocks: &BlockList, tag: Tag) -> usize
    requires { T (finite.is_sorted tag_cmp (rows_of_blocks blocks.now)) }
    ensures { IsLowerBound tag (rows_of_blocks blocks.now) result }
{
    match find(blocks, tag) {
        Ok(at) => at,
        Err(at) => at,
    }
}

/// How many of the first blocks have only rows with tags below this one.
pub fn whole_blocks_below(blocks: &BlockList, tag: Tag) -> usize
    requires { T (finite.is_sorted tag_cmp (rows_of_blocks blocks.now)) }
    ensures { (n : ℕ) → n ≤ result →
        T (all_under tag_cmp tag (rows_of_blocks (take n blocks.now))) }
{
    blocks.spot(rows_below(blocks, tag)).block
}

/// How many rows have a tag not above this one.
fn rows_up_to(blocks: &BlockList, tag: Tag) -> usize
    requires { T (finite.is_sorted tag_cmp (rows_of_blocks blocks.now)) }
    ensures { IsUpperBound tag (rows_of_blocks blocks.now) result }
{
    match find(blocks, tag) {
        Ok(at) => at + 1,
        Err(at) => at,
    }
}

/// How many of the first blocks there are up to the last one that has a row with a tag not above this one.
pub fn blocks_up_to(blocks: &BlockList, tag: Tag) -> usize
    requires { T (finite.is_sorted tag_cmp (rows_of_blocks blocks.now)) }
    ensures { (n : ℕ) → result ≤ n →
        T (below_all tag_cmp tag (rows_of_blocks (drop n blocks.now))) }
{
    match rows_up_to(blocks, tag) {
        0 => 0,
        rows => blocks.spot(rows - 1).block + 1,
    }
}
