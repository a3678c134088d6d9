//! The least and the greatest cell of a group.
ghost use Rattle.std.specs.Prelude.{◌≡◌, ◌≢◌, [], IfSome, IfNone, Some, None, cond, option_map};
ghost use Rattle.df_value.specs.CellOrder.{cell_cmp};
ghost use Rattle.df_value.specs.Rows.{cell_at};
ghost use Rattle.df_ops.specs.Aggregates as aggregates;
ghost use Rattle.df_ops.specs.Aggregates.{cells_of, min_or_max_in, non_null};
ghost use Rattle.df_ops.specs.LoopStates as loop_states;
ghost use Rattle.df_ops.specs.LoopStates.{min_or_max_after, non_null_of};

use df_value::{Cell, Row};
use std::cmp::Ordering;

/// An end of an order.
#[derive(Clone, Copy, PartialEq, Eq)]
pub enum MinMax {
    Min,
    Max,
}

/// Of the cells of the rows at an index that are not null, the one that no other lies beyond; none
/// where all are null. Cells of one type compare as numbers, by their bytes, or false before true.
pub fn min_or_max_of<'a>(min_max: MinMax, index: Option<usize>, rows: &'a [Row]) -> Option<&'a Cell>
    ensures { option_map (λ c. c.now) result
        ≡ min_or_max_in min_max (non_null (cells_of index rows.now)) }
{
    min_or_max_so_far(min_max, index, rows)
}

/// The least and the greatest cell of the rows at an index that are not null; none where all are
/// null.
pub fn min_and_max_of<'a>(index: Option<usize>, rows: &'a [Row]) -> Option<(&'a Cell, &'a Cell)>
    ensures least { IfSome result
        (λ p. min_or_max_in MinMax.Min (non_null (cells_of index rows.now)) ≡ Some p.0.now) }
    ensures greatest { IfSome result
        (λ p. min_or_max_in MinMax.Max (non_null (cells_of index rows.now)) ≡ Some p.1.now) }
    ensures in_order { IfSome result (λ p. cell_cmp p.0.now p.1.now ≢ Ordering.Greater) }
    ensures none { IfNone result (non_null (cells_of index rows.now) ≡ []) }
{
    match min_or_max_of(MinMax::Min, index, rows) {
        Some(least) => match min_or_max_of(MinMax::Max, index, rows) {
            Some(greatest) => Some((least, greatest)),
            None => None,
        },
        None => None,
    }
}

fn min_or_max_so_far<'a>(min_max: MinMax, index: Option<usize>, rows: &'a [Row]) -> Option<&'a Cell>
    ensures { option_map (λ c. c.now) result
        ≡ min_or_max_after min_max None (cells_of index rows.now) }
{
    let mut so_far = None;
    for row in rows {
        so_far = min_or_max_with(min_max, so_far, non_null_at(index, row));
    }
    so_far
}

/// The least or the greatest of some cells, or the next one where it lies beyond.
pub fn min_or_max_with<'a>(
    min_max: MinMax,
    so_far: Option<&'a Cell>,
    next: Option<&'a Cell>,
) -> Option<&'a Cell>
    ensures { option_map (λ c. c.now) result
        ≡ loop_states.min_or_max_with min_max (option_map (λ c. c.now) so_far.entry)
        (option_map (λ c. c.now) next.entry) }
{
    match (so_far, next) {
        (so_far, None) => so_far,
        (None, next) => next,
        (Some(so_far), Some(next)) => Some(further(min_max, so_far, next)),
    }
}

fn further<'a>(min_max: MinMax, so_far: &'a Cell, next: &'a Cell) -> &'a Cell
    ensures { result.now
        ≡ cond (aggregates.is_beyond min_max next.now so_far.now) next.now so_far.now }
{
    if is_beyond(min_max, next, so_far) {
        next
    } else {
        so_far
    }
}

/// Whether a cell lies below another, or above it.
pub fn is_beyond(min_max: MinMax, a: &Cell, b: &Cell) -> bool
    ensures { result ≡ aggregates.is_beyond min_max a.now b.now }
{
    match min_max {
        MinMax::Min => a.cmp(b).is_lt(),
        MinMax::Max => a.cmp(b).is_gt(),
    }
}

/// The cell at an index, if it is there and not null.
pub fn non_null_at<'a>(index: Option<usize>, row: &'a Row) -> Option<&'a Cell>
    ensures { option_map (λ c. c.now) result ≡ non_null_of (cell_at index row.now) }
{
    match row.get(index?)? {
        Cell::Null => None,
        cell => Some(cell),
    }
}
