//! Leaves that several lists of blocks share.
ghost use Rattle.std.specs.Prelude.{◌≡◌, ◌<◌, ◌≤◌, ◌+◌, ◌-◌, ◌++◌, ◌^◌, [], IfNone, IfOk, IfSome, List, T, drop, length, map, take};
ghost use Rattle.std.specs.FinMap as finite;
ghost use Rattle.std.specs.FinMap.Entries.{below_all};
ghost use Rattle.df_column.specs.BlockLists.{HaveRows, IsRunAt, blocks_of_leaves, min_or_max_cell, rows_in};
ghost use Rattle.df_column.specs.Blocks.{AreOfDtypes, BlockParts, ends_of, rows_of_blocks};
ghost use Rattle.df_column.specs.Columns.{column_cells, dtype_of_column};
ghost use Rattle.df_column.specs.MinMaxCells as min_max;
ghost use Rattle.df_column.specs.Pools.{start_at};
ghost use Rattle.df_column.specs.Rows.{AreNewRows, are_even};
ghost use Rattle.df_column.specs.TableBlocks.{IsEndCount, IsRunOfTag};
ghost use Rattle.df_column.specs.Tables.{AreRising};
ghost use Rattle.df_column.specs.Tags.{tag_cmp};
ghost use Rattle.df_column.specs.TreeChanges.{AreChangedFrom};

use crate::column::Column;
use crate::entry::Entry;
use crate::leaf::Leaf;
use crate::leaf_tree::LeafTree;
use crate::min_max::MinMax;
use crate::run::{Run, Spot, end_behind};
use crate::tag::Tag;
use df_value::Cell;
use std::alloc::{AllocError, Global};
use std::marker::Model;

/// Leaves in order. Contracts see their blocks.
#[derive(Drop)]
pub struct Leaves {
    tree: LeafTree,
}

impl Model for Leaves {
    ghost use Rattle.std.specs.Prelude.{List, ◌≤◌, ◌^◌};
    ghost use Rattle.df_column.specs.Blocks.{BlockParts};
    ghost use Rattle.df_column.specs.BlockLists.{blocks_of_leaves, rows_in};

    ghost Value = { List BlockParts };

    ghost view = { λ l. blocks_of_leaves l.tree };

    ghost invariant = { λ l. rows_in (blocks_of_leaves l.tree) ≤ 2 ^ 60 };
}

/// Some leaves of a list, with the indexes of their first block and of the one behind the last.
#[derive(Drop)]
pub struct Stretch {
    pub leaves: Leaves,
    pub from: usize,
    pub to: usize,
}

impl Leaves {
    /// No leaves.
    pub fn new() -> Leaves
        ensures { result ≡ [] }
    {
        Leaves {
            tree: LeafTree::new(),
        }
    }

    /// The number of blocks.
    pub fn blocks(&self) -> usize
        ensures value { result ≡ length self.now }
        ensures few { result ≤ 2 ^ 60 }
        ensures some { HaveRows self.now }
    {
        self.tree.totals().blocks
    }

    /// The number of rows.
    pub fn rows(&self) -> usize
        ensures value { result ≡ rows_in self.now }
        ensures few { result ≤ 2 ^ 60 }
    {
        self.tree.totals().rows
    }

    /// The tree that they stand in.
    pub fn tree(&self) -> &LeafTree
        ensures { blocks_of_leaves result.now ≡ self.now }
    {
        &self.tree
    }

    /// The run that the block at this index stands in, and the index of the block there.
    pub fn run_at(&self, at: usize) -> (&Run, usize)
        requires { at < length self.now }
        ensures { IsRunAt self.now at result.0.now result.1 }
    {
        self.tree.run_at(at)
    }

    /// Where the row at this index of all rows stands.
    pub fn spot(&self, at: usize) -> Spot
        requires { at < rows_in self.now }
        ensures block { IsEndCount (ends_of 0 self.now) at result.block }
        ensures few { result.block ≤ 2 ^ 60 }
        ensures row { result.row ≡ at - start_at 0 (ends_of 0 self.now) result.block }
    {
        let (run, before) = self.tree.run_of_row(at);
        let spot = run.spot(at - before.rows);
        let block = before.blocks + spot.block;
        Spot {
            block,
            row: spot.row,
        }
    }

    /// The only run in which a row with this tag can stand, and how many rows stand before it; none where all rows have
    /// greater tags.
    pub fn run_of_tag(&self, tag: Tag) -> Option<(&Run, usize)>
        requires { T (finite.is_sorted tag_cmp (rows_of_blocks self.now)) }
        ensures run { IfSome result (λ r. IsRunOfTag self.now tag r.0.now r.1) }
        ensures none { IfNone result (T (below_all tag_cmp tag (rows_of_blocks self.now))) }
    {
        self.tree.run_of_tag(tag)
    }

    /// The best cell; where the leaves have one beyond it in the column at an index, a copy of that. Of each leaf one cell
    /// is read.
    pub fn min_or_max(
        &self,
        alloc: Global,
        which: MinMax,
        best: Option<Cell>,
        index: usize,
    ) -> Result<Option<Cell>, AllocError>
        ensures { IfOk result (λ v. v ≡ min_max.min_or_max_with which best
            (min_or_max_cell which self.now index)) }
    {
        self.tree.min_or_max(alloc, which, best, index)
    }

    /// The tree that they stand in.
    pub fn into_tree(self) -> LeafTree
        ensures { blocks_of_leaves result ≡ self }
    {
        self.tree
    }

    /// The leaves after the changes, but for those that stand before the first row, and how many these are. What has no
    /// change is shared.
    pub fn changed(
        &self,
        alloc: Global,
        columns: &[Column],
        entries: &[Entry],
    ) -> Result<(Leaves, usize), AllocError>
        requires rows { T (finite.is_sorted tag_cmp (rows_of_blocks self.now)) }
        requires types { AreOfDtypes (map dtype_of_column columns.now) self.now }
        requires empty { T (are_even 0 (map column_cells columns.now)) }
        requires entries { AreRising entries.now }
        requires fits { AreNewRows (map dtype_of_column columns.now) entries.now }
        ensures { IfOk result (λ v. AreChangedFrom (map dtype_of_column columns.now) self.now entries.now v.0 v.1) }
    {
        end_behind(self.rows(), entries.len())?;
        let (tree, from) = self.tree.changed(alloc, columns, entries)?;
        Ok((Leaves { tree }, from))
    }

    /// The leaves with this one behind them.
    pub fn pushed(&self, alloc: Global, leaf: Leaf) -> Result<Leaves, AllocError>
        requires { rows_in self.now + rows_in leaf ≤ 2 ^ 60 }
        ensures { IfOk result (λ l. l ≡ self.now ++ leaf) }
    {
        let last = LeafTree::of_leaf(alloc, leaf)?;
        let tree = self.tree.joined(alloc, &last)?;
        Ok(Leaves { tree })
    }

    /// The leaves with others behind them.
    pub fn joined(&self, alloc: Global, other: &Leaves) -> Result<Leaves, AllocError>
        ensures { IfOk result (λ l. l ≡ self.now ++ other.now) }
    {
        end_behind(self.rows(), other.rows())?;
        let tree = self.tree.joined(alloc, &other.tree)?;
        Ok(Leaves { tree })
    }

    /// Whole leaves with blocks from one index up to another, shared. There are none where no leaf stands between.
    pub fn between(&self, alloc: Global, low: usize, high: usize) -> Result<Stretch, AllocError>
        requires { low ≤ high }
        ensures blocks { IfOk result (λ s. (behind : List BlockParts) →
            s.leaves ≡ drop s.from (take s.to (self.now ++ behind))) }
        ensures low { IfOk result (λ s. low ≤ s.from) }
        ensures ordered { IfOk result (λ s. s.from ≤ s.to) }
        ensures high { IfOk result (λ s. s.to ≤ high) }
    {
        if low < self.blocks() {
            let (behind, from) = self.tree.behind(alloc, low)?;
            if from < high {
                let (tree, many) = behind.first(alloc, high - from)?;
                return Ok(Stretch {
                    leaves: Leaves { tree },
                    from,
                    to: from + many,
                });
            }
        }
        Ok(Stretch {
            leaves: Leaves::new(),
            from: low,
            to: low,
        })
    }
}
