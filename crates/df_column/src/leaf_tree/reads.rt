//! Reads of a tree of leaves.
ghost use Rattle.std.specs.Prelude.{◌≡◌, ◌<◌, ◌≤◌, ◌++◌, ◌^◌, IfNone, IfOk, IfSome, OnOk, Some, T, length};
ghost use Rattle.std.specs.FinMap as finite;
ghost use Rattle.std.specs.FinMap.Entries.{below_all};
ghost use Rattle.df_column.specs.BlockLists.{HaveRows, IsRunAt, blocks_of_leaves, min_or_max_cell, rows_in};
ghost use Rattle.df_column.specs.Blocks.{rows_of_blocks};
ghost use Rattle.df_column.specs.MinMaxCells as min_max;
ghost use Rattle.df_column.specs.MinMaxCells.{tags_above};
ghost use Rattle.df_column.specs.LeafTotals.{IsRunOfRow};
ghost use Rattle.df_column.specs.TableBlocks.{IsRunOfTag};
ghost use Rattle.df_column.specs.Tags.{tag_cmp};

use crate::leaf_totals::{MoreBlocks, MoreRows, Totals};
use crate::leaf_tree::{LeafTree, found_before};
use crate::min_max::MinMax;
use crate::run::Run;
use crate::skipping::push_tags_in_leaf;
use crate::tag::Tag;
use df_value::Cell;
use std::alloc::{AllocError, Global};

impl LeafTree {
    /// The number of leaves.
    pub fn len(&self) -> usize
        ensures { result ≡ length (self.now) }
    {
        match &self.leaves {
            Some(leaves) => leaves.len(),
            None => 0,
        }
    }

    /// The run that the block at this index of all blocks stands in, and the index of the block there.
    pub fn run_at(&self, at: usize) -> (&Run, usize)
        requires few { rows_in (blocks_of_leaves self.now) ≤ 2 ^ 60 }
        requires at { at < length (blocks_of_leaves self.now) }
        ensures { IsRunAt (blocks_of_leaves self.now) at result.0.now result.1 }
    {
        let Some(leaves) = &self.leaves else {
            unreachable!();
        };
        let found = found_before(leaves, &MoreBlocks(at));
        (leaves.get(found.count).run(), at - found.sum.blocks)
    }

    /// The run that the row at this index of all rows stands in, and how many blocks and rows stand before the run.
    pub fn run_of_row(&self, row: usize) -> (&Run, Totals)
        requires few { rows_in (blocks_of_leaves self.now) ≤ 2 ^ 60 }
        requires row { row < rows_in (blocks_of_leaves self.now) }
        ensures run { IsRunOfRow (blocks_of_leaves self.now) row result.0.now result.1 }
        ensures some { HaveRows (blocks_of_leaves self.now) }
    {
        let Some(leaves) = &self.leaves else {
            unreachable!();
        };
        let found = found_before(leaves, &MoreRows(row));
        (leaves.get(found.count).run(), found.sum)
    }

    /// The tag of the last row, none where there are no rows.
    pub fn last_tag(&self) -> Option<Tag> {
        let count = self.len();
        if count == 0 {
            return None;
        }
        self.leaf(count - 1).run().last_tag()
    }

    /// The only run in which a row with this tag can stand, and how many rows stand before it; none where all rows have
    /// greater tags.
    pub fn run_of_tag(&self, tag: Tag) -> Option<(&Run, usize)>
        requires few { rows_in (blocks_of_leaves self.now) ≤ 2 ^ 60 }
        requires sorted { T (finite.is_sorted tag_cmp (rows_of_blocks (blocks_of_leaves self.now))) }
        ensures run { IfSome result (λ r. IsRunOfTag (blocks_of_leaves self.now) tag r.0.now r.1) }
        ensures none { IfNone result (T (below_all tag_cmp tag (rows_of_blocks (blocks_of_leaves self.now)))) }
    {
        let reached = self.leaves_up_to(tag);
        if reached.count == 0 {
            return None;
        }
        let run = self.leaf(reached.count - 1).run();
        Some((run, reached.sum.rows - run.rows()))
    }

    /// The best cell; where the leaves have one beyond it in the column at an index, a copy of that. Of each leaf one cell
    /// is read.
    pub fn min_or_max(
        &self,
        alloc: Global,
        which: MinMax,
        best: Option<Cell>,
        index: usize,
    ) -> Result<Option<Cell>, AllocError>
        ensures { IfOk result (λ v. v ≡ min_max.min_or_max_with which best
            (min_or_max_cell which (blocks_of_leaves self.now) index)) }
    {
        let Some(leaves) = &self.leaves else {
            return Ok(best);
        };
        let mut out = best;
        for at in 0..leaves.len() {
            out = leaves.get(at).leaf().min_or_max(alloc, which, out, index)?;
        }
        Ok(out)
    }

    /// Pushes the tags of the rows whose cell at an index is above the value. A leaf whose greatest cell there is not above
    /// it is passed over.
    pub fn push_tags_above(
        &self,
        tags: &mut Vec<Tag>,
        index: usize,
        value: &Cell,
    ) -> Result<(), AllocError>
        ensures { OnOk result (tags.new.items ≡ tags.old.items
            ++ tags_above (Some index) value.now (rows_of_blocks (blocks_of_leaves self.now))) }
    {
        let Some(leaves) = &self.leaves else {
            return Ok(());
        };
        for at in 0..leaves.len() {
            push_tags_in_leaf(tags, leaves.get(at).leaf(), index, value)?;
        }
        Ok(())
    }
}
