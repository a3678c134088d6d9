//! Leaves of lists of blocks.
ghost use Rattle.std.specs.Prelude.{◌≡◌, ◌<◌, ◌≤◌, [], IfNone, IfOk, IfSome, List, Some, T, drop, length, not, take, true};
ghost use Rattle.std.specs.List.{list_all};
ghost use Rattle.df_value.specs.declared.cell.Cell.{Cell};
ghost use Rattle.df_column.specs.BlockLists.{AreMinMaxCells, IsSpliceOf, min_or_max_cell};
ghost use Rattle.df_column.specs.Blocks.{rows_of_blocks};
ghost use Rattle.df_column.specs.Changes.{IsHead};
ghost use Rattle.df_column.specs.MinMaxCells as min_max;
ghost use Rattle.df_column.specs.MinMaxCells.{min_or_max_of, is_above, tags_above};

use crate::min_max::MinMax;
use crate::min_max_of_blocks::min_or_max_with_cell;
use crate::run::Run;
use crate::tag::Tag;
use df_value::Cell;
use std::alloc::{AllocError, Global};
use std::marker::Model;

/// A run of blocks, with the tag of its first row, and copies of the least and the greatest cell of each column. Contracts
/// see the blocks.
pub struct Leaf {
    run: Run,
    first: Tag,
    least: Vec<Option<Cell>>,
    greatest: Vec<Option<Cell>>,
}

// A body that owns one drops it by a call.
impl Drop for Leaf {
    fn drop(self) {
        let Leaf {
            run,
            first: _,
            least,
            greatest,
        } = self;
        drop(run);
        drop(least);
        drop(greatest);
    }
}

impl Model for Leaf {
    ghost use Rattle.std.specs.Prelude.{List};
    ghost use Rattle.df_column.specs.Blocks.{BlockParts};
    ghost use Rattle.df_column.specs.BlockLists.{IsLeaf};

    ghost Value = { List BlockParts };

    ghost view = { λ l. l.run };

    ghost invariant = { λ l. IsLeaf l.run l.first l.least.items l.greatest.items };
}

/// For each column of the first block, the cell of the run that no other lies beyond, if one is not null.
fn min_or_max_cells(
    alloc: Global,
    which: MinMax,
    run: &Run,
) -> Result<Vec<Option<Cell>>, AllocError>
    ensures { IfOk result (λ v. AreMinMaxCells which run.now v.items) }
{
    let columns = run.columns();
    let mut cells = Vec::with_capacity(alloc, columns)?;
    for column in 0..columns {
        let cell = run.min_or_max(alloc, which, None, column)?;
        cells.push(cell)?;
    }
    Ok(cells)
}

/// The best cell; where the blocks have one beyond it in the column at an index, a copy of that. Kept are the cells of
/// the first columns.
fn min_or_max_kept(
    alloc: Global,
    which: MinMax,
    best: Option<Cell>,
    run: &Run,
    kept: &[Option<Cell>],
    index: usize,
) -> Result<Option<Cell>, AllocError>
    requires { AreMinMaxCells which run.now kept.now }
    ensures { IfOk result (λ v. v ≡ min_max.min_or_max_with which best (min_or_max_cell which run.now index)) }
{
    match kept.get(index) {
        Some(cell) => min_or_max_with_cell(alloc, which, best, cell),
        None => run.min_or_max(alloc, which, best, index),
    }
}

/// Whether no cell is above the value, where this is the greatest of them that is not null, if there is one.
fn is_none_above(greatest: &Option<Cell>, value: &Cell) -> bool
    ensures { (cells : List Cell) → greatest.now ≡ min_or_max_of MinMax.Max cells → T result →
        T (list_all (λ c. not (is_above value.now c)) cells) }
{
    match greatest {
        Some(greatest) => !greatest.cmp(value).is_gt(),
        None => true,
    }
}

/// Whether the cell, if there is one, lies beyond all those of the blocks from one index up to another in a column. So it is
/// where there is no cell.
fn is_kept_beyond(
    which: MinMax,
    cell: &Option<Cell>,
    run: &Run,
    low: usize,
    high: usize,
    column: usize,
) -> bool
    requires ordered { low ≤ high }
    requires in_range { high ≤ length run.now }
    ensures some { IfSome cell.now (λ c. result ≡ min_max.is_beyond_best which
        (min_or_max_cell which (drop low (take high run.now)) column) c) }
    ensures none { IfNone cell.now (result ≡ true) }
{
    match cell {
        Some(cell) => run.is_beyond_part(which, cell, low, high, column),
        None => true,
    }
}

impl Leaf {
    /// The leaf of this run. One cell of each block is read for an end of a column.
    pub fn new(alloc: Global, run: Run) -> Result<Leaf, AllocError>
        requires { 0 < length run }
        ensures { IfOk result (λ l. l ≡ run) }
    {
        let first = run.get(0).first();
        let least = min_or_max_cells(alloc, MinMax::Min, &run)?;
        let greatest = min_or_max_cells(alloc, MinMax::Max, &run)?;
        Ok(Leaf {
            run,
            first,
            least,
            greatest,
        })
    }

    /// The leaf of a run that has the blocks of this leaf, but for those from one index up to another. Blocks that stay are
    /// read only for a column whose least or greatest cell may have stood in one that goes.
    pub fn spliced(
        &self,
        alloc: Global,
        run: Run,
        low: usize,
        high: usize,
    ) -> Result<Leaf, AllocError>
        requires some { 0 < length run }
        requires splice { IsSpliceOf self.now low high run }
        ensures { IfOk result (λ l. l ≡ run) }
    {
        let first = self.first_of_splice(&run, low, high);
        let least = self.renewed_cells(alloc, MinMax::Min, &run, low, high)?;
        let greatest = self.renewed_cells(alloc, MinMax::Max, &run, low, high)?;
        Ok(Leaf {
            run,
            first,
            least,
            greatest,
        })
    }

    /// The tag of the first row of a run that has other blocks from one index up to another.
    fn first_of_splice(&self, run: &Run, low: usize, high: usize) -> Tag
        requires some { 0 < length run.now }
        requires splice { IsSpliceOf self.now low high run.now }
        ensures { IsHead (rows_of_blocks run.now) result }
    {
        // Which is `low`; so a run says that its blocks have rows.
        let staying = low.min(self.run.len());
        if staying > 0 {
            return self.first;
        }
        run.get(0).first()
    }

    /// For the columns of which one is kept, the least or greatest cell of a run that has other blocks from one index up to another.
    fn renewed_cells(
        &self,
        alloc: Global,
        which: MinMax,
        run: &Run,
        low: usize,
        high: usize,
    ) -> Result<Vec<Option<Cell>>, AllocError>
        requires { IsSpliceOf self.now low high run.now }
        ensures { IfOk result (λ v. AreMinMaxCells which run.now v.items) }
    {
        let kept = self.kept(which);
        let mut cells = Vec::with_capacity(alloc, kept.len())?;
        for column in 0..kept.len() {
            let cell = self.renewed(alloc, which, run, low, high, column)?;
            cells.push(cell)?;
        }
        Ok(cells)
    }

    /// The least or greatest cell of a column of a run that has other blocks from one index up to another. The blocks that stay are read
    /// only where the kept cell does not lie beyond all that go, and lies beyond all that come.
    fn renewed(
        &self,
        alloc: Global,
        which: MinMax,
        run: &Run,
        low: usize,
        high: usize,
        column: usize,
    ) -> Result<Option<Cell>, AllocError>
        requires { IsSpliceOf self.now low high run.now }
        ensures { IfOk result (λ v. v ≡ min_or_max_cell which run.now column) }
    {
        let Some(kept) = self.kept(which).get(column) else {
            return run.min_or_max(alloc, which, None, column);
        };
        let end = run.len() - (self.run.len() - high);
        let stays = is_kept_beyond(which, kept, &self.run, low, high, column);
        if !stays && is_kept_beyond(which, kept, run, low, end, column) {
            return run.min_or_max(alloc, which, None, column);
        }
        let best = min_or_max_with_cell(alloc, which, None, kept)?;
        run.min_or_max_between(alloc, which, best, low, end, column)
    }

    /// The least or the greatest cells that are kept.
    fn kept(&self, which: MinMax) -> &[Option<Cell>]
        ensures { AreMinMaxCells which self.now result.now }
    {
        match which {
            MinMax::Min => &self.least,
            MinMax::Max => &self.greatest,
        }
    }

    /// The blocks.
    pub fn run(&self) -> &Run
        ensures { result.now ≡ self.now }
    {
        &self.run
    }

    /// The tag of the first row. No block is read.
    pub fn first_tag(&self) -> Tag
        ensures { IsHead (rows_of_blocks self.now) result }
    {
        self.first
    }

    /// Whether it is known that no cell of the column at an index is above the value. No block is read.
    pub fn has_none_above(&self, index: usize, value: &Cell) -> bool
        ensures { T result → tags_above (Some index) value.now (rows_of_blocks self.now) ≡ [] }
    {
        match self.greatest.get(index) {
            Some(greatest) => is_none_above(greatest, value),
            None => false,
        }
    }

    /// The best cell; where the leaf has one beyond it in the column at an index, a copy of that. No block is read.
    pub fn min_or_max(
        &self,
        alloc: Global,
        which: MinMax,
        best: Option<Cell>,
        index: usize,
    ) -> Result<Option<Cell>, AllocError>
        ensures { IfOk result (λ v. v ≡ min_max.min_or_max_with which best
            (min_or_max_cell which self.now index)) }
    {
        min_or_max_kept(alloc, which, best, &self.run, self.kept(which), index)
    }
}
