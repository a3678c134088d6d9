//! The least and the greatest cell of a column, and where they stand.
ghost use Rattle.std.specs.Prelude.{◌≡◌, ◌≤◌, ◌+◌, ◌-◌, List, IfOk, IfSome, length, map, slice_index_or};
ghost use Rattle.df_value.specs.CellOrder.{cell_cmp};
ghost use Rattle.df_value.specs.declared.cell.Cell.{Cell};
ghost use Rattle.df_column.specs.BlockMinMax.{AreMinMax, AreMinMaxOf, AreSplicedFrom, IsMinOrMaxAt, IsKnownBefore, IsSearch, IsSplicedFrom, no_min_max};
ghost use Rattle.df_column.specs.Columns.{column_cells};
ghost use Rattle.df_column.specs.MinMaxCells as min_max;

use crate::column::Column;
use crate::min_max_search::{Ranked, Search, search_min_or_max};
use std::alloc::{AllocError, Global};
use std::cmp::Ordering;

/// Which cell is meant: the least or the greatest.
#[derive(Clone, Copy)]
pub enum MinMax {
    Min,
    Max,
}

/// Where a least and a greatest cell of a column stand among those that are not null.
#[derive(Clone, Copy)]
pub struct MinMaxPlaces {
    pub least: Option<usize>,
    pub greatest: Option<usize>,
}

/// Rows of a block from one index up to another, which so many others replace.
#[derive(Clone, Copy)]
pub struct Splice {
    pub low: usize,
    pub high: usize,
    pub count: usize,
}

/// Whether one cell that compares so with another lies beyond it.
pub fn is_beyond(which: MinMax, ordering: Ordering) -> bool
    ensures { (a b : Cell) → ordering ≡ cell_cmp a b → result ≡ min_max.is_beyond which a b }
{
    match which {
        MinMax::Min => ordering.is_lt(),
        MinMax::Max => ordering.is_gt(),
    }
}

/// What to look at for the least or greatest of this many cells after a splice, where that of the old cells is known: the new
/// cells, or all if the known one was replaced.
fn search_after(known: Option<usize>, splice: Splice, len: usize) -> Search
    requires new { splice.low + splice.count ≤ len }
    requires old { IfSome known (λ i. splice.low + splice.count + (i - splice.high) ≤ len) }
    ensures { (e : MinMax) (cells : List Cell) → IsKnownBefore e splice cells known → len ≡ length cells →
        IsSearch e cells result }
{
    let low = splice.low;
    let high = splice.low + splice.count;
    match known {
        Some(at) => {
            if at < splice.low {
                return Search { known, low, high };
            }
            if at >= splice.high {
                let known = Some(high + (at - splice.high));
                return Search { known, low, high };
            }
            Search {
                known: None,
                low: 0,
                high: len,
            }
        }
        None => Search {
            known: None,
            low,
            high,
        },
    }
}

/// Where the least or the greatest cell stands after a splice.
fn min_or_max_in<C: Ranked>(
    which: MinMax,
    column: &C,
    known: Option<usize>,
    splice: Splice,
) -> Option<usize>
    requires { IsKnownBefore which splice (C.cells column.now) known }
    ensures { IsMinOrMaxAt which (C.cells column.now) result }
{
    search_min_or_max(which, column, search_after(known, splice, column.count()))
}

/// Where the least and the greatest cell stand after a splice.
fn min_max_in<C: Ranked>(column: &C, known: MinMaxPlaces, splice: Splice) -> MinMaxPlaces
    requires { IsSplicedFrom splice (C.cells column.now) known }
    ensures { AreMinMaxOf (C.cells column.now) result }
{
    MinMaxPlaces {
        least: min_or_max_in(MinMax::Min, column, known.least, splice),
        greatest: min_or_max_in(MinMax::Max, column, known.greatest, splice),
    }
}

/// Where the least and the greatest cell of a column stand after a splice.
fn min_max_from(column: &Column, known: MinMaxPlaces, splice: Splice) -> MinMaxPlaces
    requires { IsSplicedFrom splice (column_cells column.now) known }
    ensures { AreMinMaxOf (column_cells column.now) result }
{
    match column {
        Column::Int(values) => min_max_in(values, known, splice),
        Column::Wide(values) => min_max_in(values, known, splice),
        Column::Text(texts) => min_max_in(texts, known, splice),
        Column::Bool(values) => min_max_in(values, known, splice),
        Column::Frac(values) => min_max_in(values, known, splice),
    }
}

/// What is known at this index; past the end that of no cells.
pub fn known_at(known: &[MinMaxPlaces], at: usize) -> MinMaxPlaces
    ensures { result ≡ slice_index_or known.now at no_min_max }
{
    match known.get(at) {
        Some(known) => *known,
        None => MinMaxPlaces {
            least: None,
            greatest: None,
        },
    }
}

/// Where the least and the greatest cell of each column stand after a splice. Where the known one is still there, or all old cells are null,
/// only the new cells are looked at.
pub fn min_max_of(
    alloc: Global,
    columns: &[Column],
    known: &[MinMaxPlaces],
    splice: Splice,
) -> Result<Vec<MinMaxPlaces>, AllocError>
    requires { AreSplicedFrom splice (map column_cells columns.now) known.now }
    ensures { IfOk result (λ v. AreMinMax (map column_cells columns.now) v.items) }
{
    let mut out = Vec::with_capacity(alloc, columns.len())?;
    for at in 0..columns.len() {
        out.push(min_max_from(&columns[at], known_at(known, at), splice))?;
    }
    Ok(out)
}
