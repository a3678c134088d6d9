//! Runs of blocks.
ghost use Rattle.std.specs.Prelude.{◌≡◌, ◌<◌, ◌≤◌, ◌+◌, ◌-◌, ◌++◌, ◌∷◌, ◌^◌, [], IfNone, IfOk, IfSome, Some, T, drop, length, map, slice_index_or, take};
ghost use Rattle.std.specs.Arc.{arc_value};
ghost use Rattle.std.specs.FinMap as finite;
ghost use Rattle.std.specs.FinMap.Entries.{below_all};
ghost use Rattle.std.specs.List.Sorted.{IsNonDecreasing};
ghost use Rattle.df_column.specs.BlockLists.{HaveRows, min_or_max_cell, last_of};
ghost use Rattle.df_column.specs.Blocks.{BlockParts, block_rows, ends_of, rows_of_blocks};
ghost use Rattle.df_column.specs.Changes.{IsNext};
ghost use Rattle.df_column.specs.MinMaxCells as min_max;
ghost use Rattle.df_column.specs.MinMaxCells.{cells_at, min_or_max_of};
ghost use Rattle.df_column.specs.Picks.{spliced};
ghost use Rattle.df_column.specs.Pools.{start_at};
ghost use Rattle.df_column.specs.TableBlocks.{IsBlockOfTag, IsEndCount};
ghost use Rattle.df_column.specs.Tags.{tag_cmp};

use crate::block::Block;
use crate::min_max::{MinMax, is_beyond};
use crate::min_max_of_blocks::min_or_max_in_block;
use crate::pool::start_of_part;
use crate::tag::Tag;
use df_value::Cell;
use std::alloc::{AllocError, Global};
use std::marker::Model;
use std::sync::Arc;

/// Blocks in order, with how many rows stand up to the end of each. Contracts see the blocks.
pub struct Run {
    blocks: Vec<Arc<Block>>,
    ends: Vec<usize>,
}

// A body that owns one drops it by a call.
impl Drop for Run {
    fn drop(self) {
        let Run { blocks, ends } = self;
        drop(blocks);
        drop(ends);
    }
}

impl Model for Run {
    ghost use Rattle.std.specs.Prelude.{List, map};
    ghost use Rattle.std.specs.Arc.{arc_value};
    ghost use Rattle.df_column.specs.Blocks.{BlockParts};
    ghost use Rattle.df_column.specs.BlockLists.{IsRun};

    ghost Value = { List BlockParts };

    ghost view = { λ r. map arc_value r.blocks.items };

    ghost invariant = { λ r. IsRun (map arc_value r.blocks.items) r.ends.items };
}

/// The index of a block, and that of a row in it.
#[derive(Clone, Copy)]
pub struct Spot {
    pub block: usize,
    pub row: usize,
}

/// How many of the ends are at most this number.
pub fn ends_up_to(ends: &[usize], at: usize) -> usize
    requires { IsNonDecreasing ends.now }
    ensures { IsEndCount ends.now at result }
{
    ends.partition_point(|end| *end <= at)
}

/// The last of these ends; 0 where there is none.
pub fn last_end(ends: &[usize]) -> usize
    ensures { result ≡ last_of ends.now }
{
    match ends.last() {
        Some(end) => *end,
        None => 0,
    }
}

/// The most rows of a list; more is refused as memory. They may be more than memory has, as a block may stand in a list
/// many times.
const MOST_ROWS_OF_LIST: usize = 1 << 60;

/// So many rows behind an end.
pub fn end_behind(end: usize, rows: usize) -> Result<usize, AllocError>
    requires { end ≤ 2 ^ 60 }
    ensures value { IfOk result (λ e. e ≡ end + rows) }
    ensures few { IfOk result (λ e. e ≤ 2 ^ 60) }
{
    if rows > MOST_ROWS_OF_LIST - end {
        return Err(AllocError);
    }
    Ok(end + rows)
}

/// Whether the cell lies beyond all those of a block in the column at an index. Of the block one cell is read.
fn is_beyond_block(which: MinMax, cell: &Cell, block: &Block, index: usize) -> bool
    ensures { result ≡ min_max.is_beyond_best which
        (min_or_max_of which (cells_at (Some index) (map (λ r. r.1) (block_rows block.now)))) cell.now }
{
    let columns = block.columns();
    if index >= columns.len() {
        return true;
    }
    match block.min_or_max_at(which, index) {
        Some(at) => is_beyond(which, columns[index].compare_with(at, cell).reverse()),
        None => true,
    }
}

impl Run {
    /// No blocks. It takes no memory.
    pub fn new(alloc: Global) -> Run
        ensures { result ≡ [] }
    {
        Run {
            blocks: Vec::new(alloc),
            ends: Vec::new(alloc),
        }
    }

    /// The number of blocks.
    pub fn len(&self) -> usize
        ensures value { result ≡ length self.now }
        ensures some { HaveRows self.now }
    {
        let blocks: &[Arc<Block>] = &self.blocks;
        blocks.len()
    }

    /// The number of rows.
    pub fn rows(&self) -> usize
        ensures value { result ≡ length (rows_of_blocks self.now) }
        ensures some { HaveRows self.now }
    {
        last_end(&self.ends)
    }

    /// The block at this index.
    pub fn get(&self, at: usize) -> &Arc<Block>
        requires { at < length self.now }
        ensures { (d : BlockParts) → arc_value result.now ≡ slice_index_or self.now at d }
    {
        &self.blocks[at]
    }

    /// The tag of the first row, none where there are no rows.
    pub fn first_tag(&self) -> Option<Tag>
        ensures { IsNext (rows_of_blocks self.now) result }
    {
        match self.blocks.first() {
            Some(block) => Some(block.first()),
            None => None,
        }
    }

    /// The tag of the last row, none where there are no rows.
    pub fn last_tag(&self) -> Option<Tag> {
        let tags = self.blocks.last()?.tags();
        Some(tags.get(tags.len() - 1))
    }

    /// How many columns the first block has; 0 where there is none.
    pub fn columns(&self) -> usize {
        match self.blocks.first() {
            Some(block) => block.columns().len(),
            None => 0,
        }
    }

    /// The run with this block behind it.
    pub fn pushed(self, block: Arc<Block>) -> Result<Run, AllocError>
        requires { length (rows_of_blocks self) + length (arc_value block).tags ≤ 2 ^ 60 }
        ensures { IfOk result (λ r. r ≡ self ++ arc_value block ∷ []) }
    {
        let Run {
            mut blocks,
            mut ends,
        } = self;
        let end = last_end(&ends) + block.tags().len();
        ends.push(end)?;
        blocks.push(block)?;
        Ok(Run { blocks, ends })
    }

    /// The same run, with room for so many blocks more.
    fn with_room(self, more: usize) -> Result<Run, AllocError>
        ensures { IfOk result (λ r. r ≡ self) }
    {
        let Run {
            mut blocks,
            mut ends,
        } = self;
        blocks.reserve(more)?;
        ends.reserve(more)?;
        Ok(Run { blocks, ends })
    }

    /// The run with the blocks of another one behind it, from one index up to another, shared. It has room for one more.
    pub fn joined(self, other: &Run, low: usize, high: usize) -> Result<Run, AllocError>
        requires ordered { low ≤ high }
        requires in_range { high ≤ length other.now }
        requires few { length (rows_of_blocks self) ≤ 2 ^ 60 }
        ensures blocks { IfOk result (λ r. r ≡ self ++ drop low (take high other.now)) }
        ensures few { IfOk result (λ r. length (rows_of_blocks r) ≤ 2 ^ 60) }
    {
        let mut out = self.with_room((high - low).saturating_add(1))?;
        for at in low..high {
            let block = Arc::try_clone(other.get(at))?;
            end_behind(out.rows(), block.tags().len())?;
            out = out.pushed(block)?;
        }
        Ok(out)
    }

    /// The blocks from one index up to another, shared.
    pub fn part(&self, alloc: Global, low: usize, high: usize) -> Result<Run, AllocError>
        requires ordered { low ≤ high }
        requires in_range { high ≤ length self.now }
        ensures { IfOk result (λ r. r ≡ drop low (take high self.now)) }
    {
        Run::new(alloc).joined(self, low, high)
    }

    /// The blocks up to one index, those of another run, and the blocks from another index on, shared.
    pub fn spliced(
        &self,
        alloc: Global,
        low: usize,
        high: usize,
        other: &Run,
    ) -> Result<Run, AllocError>
        requires ordered { low ≤ high }
        requires in_range { high ≤ length self.now }
        ensures { IfOk result (λ r. r ≡ spliced low high other.now self.now) }
    {
        let many = other.len();
        let room = low.saturating_add(many).saturating_add(self.len() - high);
        let none = Run::new(alloc).with_room(room.saturating_add(1))?;
        let front = none.joined(self, 0, low)?;
        let both = front.joined(other, 0, many)?;
        both.joined(self, high, self.len())
    }

    /// Where the row at this index of all rows stands. Behind the last row, the index behind the last block.
    pub fn spot(&self, at: usize) -> Spot
        ensures block { IsEndCount (ends_of 0 self.now) at result.block }
        ensures row { result.row ≡ at - start_at 0 (ends_of 0 self.now) result.block }
        ensures some { HaveRows self.now }
    {
        let block = ends_up_to(&self.ends, at);
        let row = at - start_of_part(&self.ends, block);
        Spot { block, row }
    }

    /// How many rows stand before the block at this index.
    pub fn start(&self, block: usize) -> usize
        requires { block < length self.now }
        ensures value { result ≡ start_at 0 (ends_of 0 self.now) block }
        ensures few { (d : BlockParts) →
            result + length (slice_index_or self.now block d).tags < 2 ^ 64 }
    {
        self.ends[block] - self.get(block).tags().len()
    }

    /// The index of the only block in which a row with this tag can stand, none where all rows have greater tags.
    pub fn block_of_tag(&self, tag: Tag) -> Option<usize>
        requires { T (finite.is_sorted tag_cmp (rows_of_blocks self.now)) }
        ensures some { IfSome result (IsBlockOfTag self.now tag) }
        ensures none { IfNone result (T (below_all tag_cmp tag (rows_of_blocks self.now))) }
    {
        let blocks: &[Arc<Block>] = &self.blocks;
        let begun = blocks.partition_point(|block| block.first() <= tag);
        begun.checked_sub(1)
    }

    /// The best cell; where the blocks have one beyond it in the column at an index, a copy of that.
    pub fn min_or_max(
        &self,
        alloc: Global,
        which: MinMax,
        best: Option<Cell>,
        index: usize,
    ) -> Result<Option<Cell>, AllocError>
        ensures { IfOk result (λ v. v ≡ min_max.min_or_max_with which best
            (min_or_max_cell which self.now index)) }
    {
        self.min_or_max_between(alloc, which, best, 0, self.len(), index)
    }

    /// The same of the blocks from one index up to another.
    pub fn min_or_max_between(
        &self,
        alloc: Global,
        which: MinMax,
        best: Option<Cell>,
        low: usize,
        high: usize,
        index: usize,
    ) -> Result<Option<Cell>, AllocError>
        requires ordered { low ≤ high }
        requires in_range { high ≤ length self.now }
        ensures { IfOk result (λ v. v ≡ min_max.min_or_max_with which best
            (min_or_max_cell which (drop low (take high self.now)) index)) }
    {
        let mut best = best;
        for at in low..high {
            best = min_or_max_in_block(alloc, which, best, self.get(at), index)?;
        }
        Ok(best)
    }

    /// Whether the cell lies beyond all those of the blocks from one index up to another in the column at an index.
    pub fn is_beyond_part(
        &self,
        which: MinMax,
        cell: &Cell,
        low: usize,
        high: usize,
        index: usize,
    ) -> bool
        requires ordered { low ≤ high }
        requires in_range { high ≤ length self.now }
        ensures { result ≡ min_max.is_beyond_best which
            (min_or_max_cell which (drop low (take high self.now)) index) cell.now }
    {
        for at in low..high {
            if !is_beyond_block(which, cell, self.get(at), index) {
                return false;
            }
        }
        true
    }
}
