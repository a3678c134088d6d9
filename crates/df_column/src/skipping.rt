//! Reads of a table that pass over blocks by what they keep of their columns.
ghost use Rattle.std.specs.Prelude.{◌≡◌, ◌<◌, ◌++◌, ◌∷◌, [], IfOk, OnOk, Some, T, cond, length, not, slice_index_or};
ghost use Rattle.std.specs.FinMap as finite;
ghost use Rattle.std.specs.List.{list_all};
ghost use Rattle.df_value.specs.declared.cell.Cell.TheVariants as cell_as;
ghost use Rattle.df_column.specs.BlockMinMax.{IsMinOrMaxAt};
ghost use Rattle.df_column.specs.Blocks.{block_rows, rows_of_blocks};
ghost use Rattle.df_column.specs.Columns.{column_cells};
ghost use Rattle.df_column.specs.MinMaxCells.{cells_at, min_or_max_of, greatest_of, is_above, least_of, tags_above};

use crate::block::Block;
use crate::column::Column;
use crate::leaf::Leaf;
use crate::min_max::MinMax;
use crate::run::Run;
use crate::table::Table;
use crate::tag::Tag;
use df_value::Cell;
use std::alloc::{AllocError, Global};

/// Whether the column, whose greatest cell stands at this index, has none above the value.
fn has_none_above(column: &Column, greatest: Option<usize>, value: &Cell) -> bool
    requires { IsMinOrMaxAt MinMax.Max (column_cells column.now) greatest }
    ensures { T result → T (list_all (λ c. not (is_above value.now c)) (column_cells column.now)) }
{
    match greatest {
        Some(at) => !column.compare_with(at, value).is_gt(),
        None => true,
    }
}

/// Adds the tag if the cell at this index is not null and above the value.
fn push_if_above(
    tags: &mut Vec<Tag>,
    tag: Tag,
    column: &Column,
    at: usize,
    value: &Cell,
) -> Result<(), AllocError>
    requires { at < length (column_cells column.now) }
    ensures { OnOk result (tags.new.items ≡ tags.old.items ++ cond
        (is_above value.now (slice_index_or (column_cells column.now) at cell_as.Null)) (tag ∷ []) []) }
{
    if column.is_above(at, value) {
        tags.push(tag)?;
    }
    Ok(())
}

/// Adds the tags of the block's rows whose cell in a column is not null and above the value.
fn push_tags_above(
    tags: &mut Vec<Tag>,
    block: &Block,
    index: usize,
    value: &Cell,
) -> Result<(), AllocError>
    requires { index < length block.now.columns }
    ensures { OnOk result (tags.new.items ≡ tags.old.items
        ++ tags_above (Some index) value.now (block_rows block.now)) }
{
    let row_tags = block.tags();
    let column = &block.columns()[index];
    for at in 0..row_tags.len() {
        push_if_above(tags, row_tags.get(at), column, at, value)?;
    }
    Ok(())
}

/// The same for the column at an index. Where its greatest cell is not above the value, no other is looked at.
fn push_tags_in_block(
    tags: &mut Vec<Tag>,
    block: &Block,
    index: usize,
    value: &Cell,
) -> Result<(), AllocError>
    ensures { OnOk result (tags.new.items ≡ tags.old.items
        ++ tags_above (Some index) value.now (block_rows block.now)) }
{
    let columns = block.columns();
    if index >= columns.len() {
        return Ok(());
    }
    let greatest = block.min_or_max_at(MinMax::Max, index);
    if has_none_above(&columns[index], greatest, value) {
        return Ok(());
    }
    push_tags_above(tags, block, index, value)
}

/// The same for the rows of a run of blocks.
fn push_tags_in_run(
    tags: &mut Vec<Tag>,
    run: &Run,
    index: usize,
    value: &Cell,
) -> Result<(), AllocError>
    ensures { OnOk result (tags.new.items ≡ tags.old.items
        ++ tags_above (Some index) value.now (rows_of_blocks run.now)) }
{
    for at in 0..run.len() {
        push_tags_in_block(tags, run.get(at), index, value)?;
    }
    Ok(())
}

/// The same for the rows of a leaf. Where the greatest cell of the column is not above the value, no block is looked at.
pub fn push_tags_in_leaf(
    tags: &mut Vec<Tag>,
    leaf: &Leaf,
    index: usize,
    value: &Cell,
) -> Result<(), AllocError>
    ensures { OnOk result (tags.new.items ≡ tags.old.items
        ++ tags_above (Some index) value.now (rows_of_blocks leaf.now)) }
{
    if leaf.has_none_above(index, value) {
        return Ok(());
    }
    push_tags_in_run(tags, leaf.run(), index, value)
}

impl Table {
    /// The least cell at an index that is not null, if there is one. One cell of each leaf is read, and of each block
    /// behind the leaves.
    pub fn least(&self, alloc: Global, index: Option<usize>) -> Result<Option<Cell>, AllocError>
        ensures { IfOk result (λ v. v ≡ least_of (cells_at index (finite.values self.now.rows))) }
    {
        self.min_or_max(alloc, MinMax::Min, index)
    }

    /// The greatest cell at an index that is not null, if there is one. One cell of each leaf is read, and of each block
    /// behind the leaves.
    pub fn greatest(&self, alloc: Global, index: Option<usize>) -> Result<Option<Cell>, AllocError>
        ensures { IfOk result (λ v. v ≡ greatest_of (cells_at index (finite.values self.now.rows))) }
    {
        self.min_or_max(alloc, MinMax::Max, index)
    }

    /// The cell at an index that no other lies beyond, if one is not null.
    fn min_or_max(
        &self,
        alloc: Global,
        which: MinMax,
        index: Option<usize>,
    ) -> Result<Option<Cell>, AllocError>
        ensures { IfOk result (λ v. v ≡ min_or_max_of which (cells_at index (finite.values self.now.rows))) }
    {
        let Some(index) = index else {
            return Ok(None);
        };
        self.blocks().min_or_max(alloc, which, index)
    }

    /// The tags of the rows whose cell at an index is not null and above the value, by rising tag. A leaf or a block whose
    /// greatest cell there is not above it is passed over, and no row is copied.
    pub fn tags_above(
        &self,
        alloc: Global,
        index: Option<usize>,
        value: &Cell,
    ) -> Result<Vec<Tag>, AllocError>
        ensures { IfOk result (λ v. v.items ≡ tags_above index value.now (finite.entries self.now.rows)) }
    {
        let mut tags = Vec::new(alloc);
        let Some(index) = index else {
            return Ok(tags);
        };
        let (leaves, tail) = self.blocks().parts();
        leaves.tree().push_tags_above(&mut tags, index, value)?;
        push_tags_in_run(&mut tags, tail, index, value)?;
        Ok(tags)
    }
}
