//! The cell of a column that no other of some blocks lies beyond. Of each block one cell is read.
ghost use Rattle.std.specs.Prelude.{◌≡◌, ◌<◌, IfOk, Some, length, map, slice_index_or};
ghost use Rattle.df_value.specs.declared.cell.Cell.TheVariants as cell_as;
ghost use Rattle.df_column.specs.Blocks.{block_rows};
ghost use Rattle.df_column.specs.Columns.{column_cells};
ghost use Rattle.df_column.specs.MinMaxCells as min_max;
ghost use Rattle.df_column.specs.MinMaxCells.{cells_at, min_or_max_of};

use crate::block::Block;
use crate::column::Column;
use crate::min_max::{MinMax, is_beyond};
use df_value::{Cell, Duplicate};
use std::alloc::{AllocError, Global};

/// Whether the cell at this index lies beyond the best one, if there is one.
fn is_beyond_best(which: MinMax, best: &Option<Cell>, column: &Column, at: usize) -> bool
    requires { at < length (column_cells column.now) }
    ensures { result ≡ min_max.is_beyond_best which best.now
        (slice_index_or (column_cells column.now) at cell_as.Null) }
{
    match best {
        Some(best) => is_beyond(which, column.compare_with(at, best)),
        None => true,
    }
}

/// The best cell; where the one at this index lies beyond it, a copy of that.
fn min_or_max(
    alloc: Global,
    which: MinMax,
    best: Option<Cell>,
    column: &Column,
    at: usize,
) -> Result<Option<Cell>, AllocError>
    requires { at < length (column_cells column.now) }
    ensures { IfOk result (λ v. v ≡ min_max.min_or_max_with which best
        (Some (slice_index_or (column_cells column.now) at cell_as.Null))) }
{
    if is_beyond_best(which, &best, column, at) {
        return Ok(Some(column.cell(alloc, at)?));
    }
    Ok(best)
}

/// The best cell; where a block has one beyond it in the column at an index, a copy of that.
pub fn min_or_max_in_block(
    alloc: Global,
    which: MinMax,
    best: Option<Cell>,
    block: &Block,
    index: usize,
) -> Result<Option<Cell>, AllocError>
    ensures { IfOk result (λ v. v ≡ min_max.min_or_max_with which best
        (min_or_max_of which (cells_at (Some index) (map (λ r. r.1) (block_rows block.now))))) }
{
    let columns = block.columns();
    if index >= columns.len() {
        return Ok(best);
    }
    match block.min_or_max_at(which, index) {
        Some(at) => min_or_max(alloc, which, best, &columns[index], at),
        None => Ok(best),
    }
}

/// Whether a cell lies beyond the best one, if there is one.
fn is_cell_beyond_best(which: MinMax, best: &Option<Cell>, cell: &Cell) -> bool
    ensures { result ≡ min_max.is_beyond_best which best.now cell.now }
{
    match best {
        Some(best) => is_beyond(which, cell.cmp(best)),
        None => true,
    }
}

/// The best cell; where the other one lies beyond it, a copy of that.
pub fn min_or_max_with_cell(
    alloc: Global,
    which: MinMax,
    best: Option<Cell>,
    other: &Option<Cell>,
) -> Result<Option<Cell>, AllocError>
    ensures { IfOk result (λ v. v ≡ min_max.min_or_max_with which best other.now) }
{
    match other {
        Some(cell) => {
            if is_cell_beyond_best(which, &best, cell) {
                return Ok(Some(cell.copy(alloc)?));
            }
            Ok(best)
        }
        None => Ok(best),
    }
}
