//! The least or the greatest cell of a column, looked for where the cells stand.
ghost use Rattle.std.specs.Prelude.{◌≡◌, ◌<◌, List, Some, cond, length, map, slice_index_or, IfSome};
ghost use Rattle.df_value.specs.CellOrder.{cell_cmp};
ghost use Rattle.df_value.specs.declared.cell.Cell.{Cell};
ghost use Rattle.df_value.specs.declared.cell.Cell.TheVariants as cell_as;
ghost use Rattle.df_column.specs.BlockMinMax.{IsMinOrMaxAt, IsSearch, cell_there};
ghost use Rattle.df_column.specs.MinMaxCells as min_max;

use crate::masked::Masked;
use crate::min_max::{MinMax, is_beyond};
use crate::values::CellValue;
use std::cmp::Ordering;

/// Cells that are compared where they stand.
pub(crate) trait Ranked {
    // The cells.
    ghost cells: { Self → List Cell };

    /// How many cells there are.
    fn count(&self) -> usize
        ensures { result ≡ length (cells self.now) };

    /// Whether the cell at this index is null.
    fn is_null(&self, at: usize) -> bool
        requires { at < length (cells self.now) }
        ensures { (d : Cell) → result ≡ min_max.is_null (slice_index_or (cells self.now) at d) };

    /// How two of the cells compare.
    fn compare(&self, a: usize, b: usize) -> Ordering
        requires first { a < length (cells self.now) }
        requires second { b < length (cells self.now) }
        ensures { (d : Cell) → result ≡ cell_cmp (slice_index_or (cells self.now) a d)
            (slice_index_or (cells self.now) b d) };
}

/// How two values compare as cells, where no value is null.
fn compare_values<T: CellValue>(a: Option<T>, b: Option<T>) -> Ordering
    ensures { result ≡ cell_cmp (T.cell_of a) (T.cell_of b) }
{
    match (a, b) {
        (Some(a), Some(b)) => T::compare(a, b),
        (Some(_), None) => Ordering::Greater,
        (None, Some(_)) => Ordering::Less,
        (None, None) => Ordering::Equal,
    }
}

impl<T: CellValue> Ranked for Masked<T> {
    ghost cells = { map T.cell_of };

    fn count(&self) -> usize
        ensures { result ≡ length (map T.cell_of self.now) }
    {
        self.len()
    }

    fn is_null(&self, at: usize) -> bool
        requires { at < length (map T.cell_of self.now) }
        ensures { (d : Cell) → result ≡ min_max.is_null (slice_index_or (map T.cell_of self.now) at d) }
    {
        self.get(at).is_none()
    }

    fn compare(&self, a: usize, b: usize) -> Ordering
        requires first { a < length (map T.cell_of self.now) }
        requires second { b < length (map T.cell_of self.now) }
        ensures { (d : Cell) → result ≡ cell_cmp (slice_index_or (map T.cell_of self.now) a d)
            (slice_index_or (map T.cell_of self.now) b d) }
    {
        compare_values(self.get(a), self.get(b))
    }
}

/// The cells that are looked at, from one index up to another, and where the best of all others stands.
#[derive(Clone, Copy)]
pub(crate) struct Search {
    pub known: Option<usize>,
    pub low: usize,
    pub high: usize,
}

/// Whether the cell at this index is not null and lies beyond the best one.
fn is_better<C: Ranked>(which: MinMax, column: &C, best: Option<usize>, at: usize) -> bool
    requires at { at < length (C.cells column.now) }
    requires best { IfSome best (λ i. i < length (C.cells column.now)) }
    ensures { result ≡ min_max.is_better which (cell_there (C.cells column.now) best)
        (slice_index_or (C.cells column.now) at cell_as.Null) }
{
    if column.is_null(at) {
        return false;
    }
    match best {
        Some(best) => is_beyond(which, column.compare(at, best)),
        None => true,
    }
}

/// The index of the better of the best cell so far and the one at this index.
fn better<C: Ranked>(which: MinMax, column: &C, best: Option<usize>, at: usize) -> Option<usize>
    requires at { at < length (C.cells column.now) }
    requires best { IfSome best (λ i. i < length (C.cells column.now)) }
    ensures { result ≡ cond (min_max.is_better which (cell_there (C.cells column.now) best)
        (slice_index_or (C.cells column.now) at cell_as.Null)) (Some at) best }
{
    if is_better(which, column, best, at) {
        return Some(at);
    }
    best
}

/// The index of the best of all cells.
pub(crate) fn search_min_or_max<C: Ranked>(
    which: MinMax,
    column: &C,
    search: Search,
) -> Option<usize>
    requires { IsSearch which (C.cells column.now) search }
    ensures { IsMinOrMaxAt which (C.cells column.now) result }
{
    let mut best = search.known;
    for at in search.low..search.high {
        best = better(which, column, best, at);
    }
    best
}
