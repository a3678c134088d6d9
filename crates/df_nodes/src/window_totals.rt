//! What a rolling column takes of some cells, and of two lists of cells as one.
ghost use Rattle.std.specs.Prelude.{◌≡◌, ◌∷◌, [], List, IfOk, cond};
ghost use Rattle.df_ops.specs.Aggregates as aggregates;
ghost use Rattle.df_ops.specs.Aggregates.{sum_of};
ghost use Rattle.df_ops.specs.LoopStates.{min_or_max_with};
ghost use Rattle.df_ops.specs.Windows.{rolling_cell};
ghost use Rattle.df_value.specs.declared.cell.Cell.{Cell as AnyCell};
ghost use Rattle.df_nodes.specs.Sliding as sliding;
ghost use Rattle.df_nodes.specs.Sliding.{IsSmall, IsWord, joined_totals, totals_of};

use df_ops::{MinMax, RollKind, is_beyond};
use df_value::{Cell, Duplicate};
use std::alloc::{AllocError, Global};

/// Of some cells the number of those that are not null, their sum, and the least or the greatest of them.
pub struct Totals {
    pub count: usize,
    pub sum: i128,
    pub extreme: Option<Cell>,
}

// A body that owns one drops it by a call.
impl Drop for Totals {
    fn drop(self) {
        let Totals {
            count: _,
            sum: _,
            extreme,
        } = self;
        drop(extreme);
    }
}

impl Totals {
    /// Those of no cell.
    pub fn none() -> Totals
        ensures { (kind : RollKind) → result ≡ totals_of kind [] }
    {
        Totals {
            count: 0,
            sum: 0,
            extreme: None,
        }
    }

    /// Those of one cell, whose number has 64 bits.
    pub fn of_cell(alloc: Global, cell: &Cell) -> Result<Totals, AllocError>
        ensures value { IfOk result (λ t. (kind : RollKind) → t ≡ totals_of kind (cell.now ∷ [])) }
        ensures word { IsWord cell.now }
    {
        let sum = number_in(cell);
        match cell {
            Cell::Null => Ok(Totals::none()),
            _ => Ok(Totals {
                count: 1,
                sum,
                extreme: Some(cell.copy(alloc)?),
            }),
        }
    }

    /// The rolling value of the cells, where so many of them are to be not null.
    pub fn value(self, kind: RollKind, least: usize) -> Cell
        ensures { (cells : List AnyCell) → self ≡ totals_of kind cells
            → result ≡ rolling_cell kind least cells }
    {
        let Totals {
            count,
            sum,
            extreme,
        } = self;
        if count < least {
            return Cell::Null;
        }
        match kind {
            RollKind::Sum => Cell::Wide(sum),
            RollKind::Min | RollKind::Max => extreme.unwrap_or(Cell::Null),
        }
    }
}

/// What a cell adds to a sum.
fn number_in(cell: &Cell) -> i128
    ensures value { result ≡ sum_of (cell.now ∷ []) }
    ensures word { IsWord cell.now }
{
    match cell {
        Cell::Int(n) => *n as i128,
        Cell::Bool(truth) => i128::from(*truth),
        _ => 0,
    }
}

/// The totals of some cells and of those behind them.
pub fn joined(
    alloc: Global,
    kind: RollKind,
    first: &Totals,
    second: &Totals,
) -> Result<Totals, AllocError>
    requires first { IsSmall first.now }
    requires second { IsSmall second.now }
    ensures { IfOk result (λ t. t ≡ joined_totals kind first.now second.now) }
{
    let extreme = further(alloc, end_of(kind), &first.extreme, &second.extreme)?;
    Ok(Totals {
        count: first.count + second.count,
        sum: first.sum + second.sum,
        extreme,
    })
}

/// The end of the order of cells that a rolling value is; of a sum it is not asked for.
fn end_of(kind: RollKind) -> MinMax
    ensures { result ≡ sliding.end_of kind }
{
    match kind {
        RollKind::Sum | RollKind::Min => MinMax::Min,
        RollKind::Max => MinMax::Max,
    }
}

/// A copy of the cell that the other does not lie beyond.
fn further(
    alloc: Global,
    end: MinMax,
    first: &Option<Cell>,
    second: &Option<Cell>,
) -> Result<Option<Cell>, AllocError>
    ensures { IfOk result (λ c. c ≡ min_or_max_with end first.now second.now) }
{
    match (first, second) {
        (None, None) => Ok(None),
        (Some(cell), None) | (None, Some(cell)) => Ok(Some(cell.copy(alloc)?)),
        (Some(first), Some(second)) => {
            let cell = further_of(end, first, second);
            Ok(Some(cell.copy(alloc)?))
        }
    }
}

/// The second of two cells where it lies beyond, else the first.
fn further_of<'a>(end: MinMax, first: &'a Cell, second: &'a Cell) -> &'a Cell
    ensures { result.now ≡ cond (aggregates.is_beyond end second.now first.now) second.now first.now }
{
    if is_beyond(end, second, first) {
        second
    } else {
        first
    }
}
