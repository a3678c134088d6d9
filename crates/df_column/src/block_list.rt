//! Lists of blocks, which share what they have in common.
ghost use Rattle.std.specs.Prelude.{◌≡◌, ◌<◌, ◌≤◌, ◌+◌, ◌-◌, ◌++◌, ◌∷◌, ◌^◌, [], IfNone, IfOk, IfSome, T, drop, length, map, slice_index_or, take};
ghost use Rattle.std.specs.Arc.{arc_value};
ghost use Rattle.std.specs.FinMap as finite;
ghost use Rattle.std.specs.FinMap.Entries.{below_all};
ghost use Rattle.df_column.specs.BlockLists.{IsRunAt, min_or_max_cell, rows_in};
ghost use Rattle.df_column.specs.Blocks.{AreOfDtypes, BlockParts, ends_of, rows_of_blocks};
ghost use Rattle.df_column.specs.Changes.{apart};
ghost use Rattle.df_column.specs.Columns.{column_cells, dtype_of_column};
ghost use Rattle.df_column.specs.Pools.{start_at};
ghost use Rattle.df_column.specs.Rows.{AreNewRows, are_even};
ghost use Rattle.df_column.specs.TableBlocks.{IsEndCount, IsRunOfTag};
ghost use Rattle.df_column.specs.Tables.{AreRising, entry_change};
ghost use Rattle.df_column.specs.Tags.{tag_cmp};
ghost use Rattle.df_column.specs.TreeChanges.{AreChangedBetween};

use crate::block::Block;
use crate::blocks::entries_before;
use crate::column::Column;
use crate::edited::Edited;
use crate::entry::Entry;
use crate::leaf::Leaf;
use crate::leaves::{Leaves, Stretch};
use crate::min_max::MinMax;
use crate::run::{Run, Spot, end_behind};
use crate::tag::{Tag, begins_behind};
use df_value::Cell;
use std::alloc::{AllocError, Global};
use std::marker::Model;
use std::sync::Arc;

/// The most blocks of a leaf.
pub const LEAF: usize = 8;
/// So many blocks behind the leaves are too many: the first of them become a leaf.
const TOO_MANY_BEHIND: usize = 10;

/// Blocks in order: leaves of up to 8 blocks, which several lists share, and up to 9 blocks behind them. So a list that
/// differs from another in one place shares all but one leaf with it. Contracts see the blocks.
pub struct BlockList {
    leaves: Leaves,
    tail: Run,
}

// A body that owns one drops it by a call.
impl Drop for BlockList {
    fn drop(self) {
        let BlockList { leaves, tail } = self;
        drop(leaves);
        drop(tail);
    }
}

impl Model for BlockList {
    ghost use Rattle.std.specs.Prelude.{List, ◌++◌, ◌≤◌, ◌^◌};
    ghost use Rattle.df_column.specs.Blocks.{BlockParts};
    ghost use Rattle.df_column.specs.BlockLists.{rows_in};

    ghost Value = { List BlockParts };

    ghost view = { λ l. l.leaves ++ l.tail };

    ghost invariant = { λ l. rows_in (l.leaves ++ l.tail) ≤ 2 ^ 60 };
}

impl BlockList {
    /// No blocks. It takes no memory.
    pub fn new(alloc: Global) -> BlockList
        ensures { result ≡ [] }
    {
        BlockList {
            leaves: Leaves::new(),
            tail: Run::new(alloc),
        }
    }

    /// The blocks of a run, shared.
    pub fn of_run(alloc: Global, run: &Run) -> Result<BlockList, AllocError>
        ensures { IfOk result (λ l. l ≡ run.now) }
    {
        BlockList::new(alloc).with_part(run, 0, run.len())
    }

    /// All blocks as leaves.
    pub fn into_leaves(self, alloc: Global) -> Result<Leaves, AllocError>
        ensures { IfOk result (λ l. l ≡ self) }
    {
        let BlockList { leaves, tail } = self;
        with_run(alloc, leaves, tail)
    }

    /// The leaves, and the blocks behind them.
    pub fn parts(&self) -> (&Leaves, &Run)
        ensures { result.0.now ++ result.1.now ≡ self.now }
    {
        (&self.leaves, &self.tail)
    }

    /// The number of blocks.
    pub fn len(&self) -> usize
        ensures { result ≡ length self.now }
    {
        self.leaves.blocks() + self.tail.len()
    }

    /// The number of rows.
    pub fn rows(&self) -> usize
        ensures value { result ≡ length (rows_of_blocks self.now) }
        ensures few { result ≤ 2 ^ 60 }
    {
        self.leaves.rows() + self.tail.rows()
    }

    /// The run that the block at this index stands in, and the index of the block there.
    fn run_at(&self, at: usize) -> (&Run, usize)
        requires { at < length self.now }
        ensures { IsRunAt self.now at result.0.now result.1 }
    {
        let first = self.leaves.blocks();
        if at < first {
            self.leaves.run_at(at)
        } else {
            (&self.tail, at - first)
        }
    }

    /// The block at this index.
    pub fn get(&self, at: usize) -> &Arc<Block>
        requires { at < length self.now }
        ensures { (d : BlockParts) → arc_value result.now ≡ slice_index_or self.now at d }
    {
        let (run, place) = self.run_at(at);
        run.get(place)
    }

    /// Where the row at this index of all rows stands. Behind the last row, the index behind the last block.
    pub fn spot(&self, at: usize) -> Spot
        ensures block { IsEndCount (ends_of 0 self.now) at result.block }
        ensures few { result.block ≤ 2 ^ 60 }
        ensures row { result.row ≡ at - start_at 0 (ends_of 0 self.now) result.block }
    {
        let first = self.leaves.rows();
        if at < first {
            return self.leaves.spot(at);
        }
        let spot = self.tail.spot(at - first);
        let block = self.leaves.blocks() + spot.block;
        Spot {
            block,
            row: spot.row,
        }
    }

    /// The only run in which a row with this tag can stand, and how many rows stand before it; none where all rows have
    /// greater tags.
    pub fn run_of_tag(&self, tag: Tag) -> Option<(&Run, usize)>
        requires { T (finite.is_sorted tag_cmp (rows_of_blocks self.now)) }
        ensures run { IfSome result (λ r. IsRunOfTag self.now tag r.0.now r.1) }
        ensures none { IfNone result (T (below_all tag_cmp tag (rows_of_blocks self.now))) }
        ensures few { IfSome result (λ r. r.1 + length (rows_of_blocks r.0.now) ≤ 2 ^ 60) }
    {
        let first = self.tail.first_tag();
        if first.is_none() || begins_behind(first, tag) {
            return self.leaves.run_of_tag(tag);
        }
        Some((&self.tail, self.leaves.rows()))
    }

    /// The cell of the column at this index that no other lies beyond, if one is not null. Of each leaf and of each block
    /// behind them one cell is read.
    pub fn min_or_max(
        &self,
        alloc: Global,
        which: MinMax,
        index: usize,
    ) -> Result<Option<Cell>, AllocError>
        ensures { IfOk result (λ v. v ≡ min_or_max_cell which self.now index) }
    {
        let best = self.leaves.min_or_max(alloc, which, None, index)?;
        self.tail.min_or_max(alloc, which, best, index)
    }

    /// The list with this block behind it.
    pub fn pushed(self, alloc: Global, block: Arc<Block>) -> Result<BlockList, AllocError>
        ensures { IfOk result (λ l. l ≡ self ++ arc_value block ∷ []) }
    {
        let BlockList { leaves, tail } = self;
        end_behind(leaves.rows() + tail.rows(), block.tags().len())?;
        let tail = tail.pushed(block)?;
        if tail.len() < TOO_MANY_BEHIND {
            return Ok(BlockList { leaves, tail });
        }
        with_first_leaf(alloc, leaves, tail)
    }

    /// The list with the blocks of another one behind it, from one index up to another. Whole leaves are shared.
    pub fn joined(
        self,
        alloc: Global,
        other: &BlockList,
        low: usize,
        high: usize,
    ) -> Result<BlockList, AllocError>
        requires ordered { low ≤ high }
        requires in_range { high ≤ length other.now }
        ensures { IfOk result (λ l. l ≡ self ++ drop low (take high other.now)) }
    {
        let Stretch { leaves, from, to } = other.leaves.between(alloc, low, high)?;
        if from == to {
            return self.with_blocks(alloc, other, low, high);
        }
        let out = self.with_blocks(alloc, other, low, from)?;
        let out = out.with_leaves(alloc, &leaves)?;
        let out = out.with_blocks(alloc, other, to, high)?;
        Ok(out)
    }

    /// The same, block by block.
    fn with_blocks(
        self,
        alloc: Global,
        other: &BlockList,
        low: usize,
        high: usize,
    ) -> Result<BlockList, AllocError>
        requires ordered { low ≤ high }
        requires in_range { high ≤ length other.now }
        ensures { IfOk result (λ l. l ≡ self ++ drop low (take high other.now)) }
    {
        let mut out = self;
        let mut at = low;
        while at < high {
            let (list, next) = out.with_next(alloc, other, at, high)?;
            out = list;
            at = next;
        }
        Ok(out)
    }

    /// The list with the next blocks of another one behind it, which stand in one run there, and the index behind these.
    fn with_next(
        self,
        alloc: Global,
        other: &BlockList,
        at: usize,
        high: usize,
    ) -> Result<(BlockList, usize), AllocError>
        requires at { at < high }
        requires in_range { high ≤ length other.now }
        ensures blocks { IfOk result (λ v. v.0 ≡ self ++ drop at (take v.1 other.now)) }
        ensures more { IfOk result (λ v. at < v.1) }
        ensures within { IfOk result (λ v. v.1 ≤ high) }
    {
        let (run, low) = other.run_at(at);
        let end = low + (high - at).min(run.len() - low);
        let (list, added) = self.with_next_blocks(alloc, run, low, end)?;
        Ok((list, at + added))
    }

    /// The list with blocks of a run behind it, and how many: those from one index up to another where there is room for
    /// them behind the leaves, else the first of them.
    fn with_next_blocks(
        self,
        alloc: Global,
        run: &Run,
        low: usize,
        high: usize,
    ) -> Result<(BlockList, usize), AllocError>
        requires some { low < high }
        requires in_range { high ≤ length run.now }
        ensures list { IfOk result (λ v. v.0 ≡ self ++ drop low (take (low + v.1) run.now)) }
        ensures some { IfOk result (λ v. 0 < v.1) }
        ensures within { IfOk result (λ v. low + v.1 ≤ high) }
    {
        if self.tail.len().saturating_add(high - low) < TOO_MANY_BEHIND {
            let list = self.with_part(run, low, high)?;
            return Ok((list, high - low));
        }
        let block = Arc::try_clone(run.get(low))?;
        let list = self.pushed(alloc, block)?;
        Ok((list, 1))
    }

    /// The list with the blocks of a run behind it, from one index up to another, behind the leaves.
    fn with_part(self, run: &Run, low: usize, high: usize) -> Result<BlockList, AllocError>
        requires ordered { low ≤ high }
        requires in_range { high ≤ length run.now }
        ensures { IfOk result (λ l. l ≡ self ++ drop low (take high run.now)) }
    {
        let BlockList { leaves, tail } = self;
        let tail = tail.joined(run, low, high)?;
        end_behind(leaves.rows(), tail.rows())?;
        Ok(BlockList { leaves, tail })
    }

    /// The list after the changes of the entries that go into leaves, but for those before the first row of all; none where
    /// no entry goes into leaves. Leaves without a change are shared.
    pub fn with_changed_leaves(
        &self,
        alloc: Global,
        columns: &[Column],
        entries: &[Entry],
    ) -> Result<Option<Edited>, AllocError>
        requires rows { T (finite.is_sorted tag_cmp (rows_of_blocks self.now)) }
        requires types { AreOfDtypes (map dtype_of_column columns.now) self.now }
        requires empty { T (are_even 0 (map column_cells columns.now)) }
        requires entries { AreRising entries.now }
        requires fits { AreNewRows (map dtype_of_column columns.now) entries.now }
        ensures { IfOk result (λ o. IfSome o (λ e. AreChangedBetween (map dtype_of_column columns.now) self.now
            entries.now e.list e.from e.to)) }
    {
        let to = entries_of_leaves(entries, &self.leaves, &self.tail);
        if to == 0 {
            return Ok(None);
        }
        let (leaves, from) = self.leaves.changed(alloc, columns, &entries[..to])?;
        end_behind(leaves.rows(), self.tail.rows())?;
        let tail = self.tail.part(alloc, 0, self.tail.len())?;
        let list = BlockList { leaves, tail };
        Ok(Some(Edited { list, from, to }))
    }

    /// The list with these leaves behind it.
    fn with_leaves(self, alloc: Global, shared: &Leaves) -> Result<BlockList, AllocError>
        ensures { IfOk result (λ l. l ≡ self ++ shared.now) }
    {
        let BlockList { leaves, tail } = self;
        let closed = with_run(alloc, leaves, tail)?;
        let leaves = closed.joined(alloc, shared)?;
        Ok(BlockList {
            leaves,
            tail: Run::new(alloc),
        })
    }
}

/// How many of the entries go into leaves: those before the first row of the blocks behind them; where there is no such
/// row, those up to the last row of the leaves.
fn entries_of_leaves(entries: &[Entry], leaves: &Leaves, tail: &Run) -> usize
    requires { T (finite.is_sorted tag_cmp (rows_of_blocks tail.now)) }
    ensures within { result ≤ length entries.now }
    ensures apart { T (apart tag_cmp (map entry_change (take result entries.now)) (rows_of_blocks tail.now)) }
{
    match tail.first_tag() {
        Some(first) => entries_before(entries, first),
        None => entries_up_to(entries, leaves.tree().last_tag()),
    }
}

/// How many of the entries stand up to the tag; 0 where there is none.
fn entries_up_to(entries: &[Entry], last: Option<Tag>) -> usize
    ensures { result ≤ length entries.now }
{
    match last {
        Some(last) => entries.iter().take_while(|e| e.tag <= last).count(),
        None => 0,
    }
}

/// The list of these leaves and a run behind them, of which the first blocks become a leaf.
fn with_first_leaf(alloc: Global, leaves: Leaves, run: Run) -> Result<BlockList, AllocError>
    requires few { rows_in (leaves ++ run) ≤ 2 ^ 60 }
    requires some { 0 < length run }
    ensures { IfOk result (λ l. l ≡ leaves ++ run) }
{
    let many = LEAF.min(run.len());
    let leaves = with_leaf(alloc, leaves, run.part(alloc, 0, many)?)?;
    let tail = run.part(alloc, many, run.len())?;
    Ok(BlockList { leaves, tail })
}

/// The leaves with the blocks of a run behind them, in one leaf or in two.
fn with_run(alloc: Global, leaves: Leaves, run: Run) -> Result<Leaves, AllocError>
    requires { rows_in (leaves ++ run) ≤ 2 ^ 60 }
    ensures { IfOk result (λ l. l ≡ leaves ++ run) }
{
    let len = run.len();
    if len == 0 {
        return Ok(leaves);
    }
    if len <= LEAF {
        return with_leaf(alloc, leaves, run);
    }
    let middle = len / 2;
    let first = with_leaf(alloc, leaves, run.part(alloc, 0, middle)?)?;
    with_leaf(alloc, first, run.part(alloc, middle, len)?)
}

/// The leaves with the blocks of a run behind them in one leaf.
fn with_leaf(alloc: Global, leaves: Leaves, run: Run) -> Result<Leaves, AllocError>
    requires few { rows_in leaves + rows_in run ≤ 2 ^ 60 }
    requires some { 0 < length run }
    ensures { IfOk result (λ l. l ≡ leaves ++ run) }
{
    leaves.pushed(alloc, Leaf::new(alloc, run)?)
}
