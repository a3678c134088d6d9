//! The least or the greatest cell of a group after a change, from the one before.
ghost use Rattle.std.specs.Prelude.{◌≡◌, IfOk, IfSome, List, option_map, unwrap_or};
ghost use Rattle.std.specs.Option.{option_copied};
ghost use Rattle.std.specs.FinMap as finite;
ghost use Rattle.df_value.specs.declared.cell.Cell.{Cell as AnyCell};
ghost use Rattle.df_value.specs.declared.cell.Cell.TheVariants as cell_as;
ghost use Rattle.df_counts.specs.Counts.{value_in};
ghost use Rattle.df_ops.specs.Aggregates.{cells_of, min_or_max_of};
ghost use Rattle.df_group.specs.Totals as totals_spec;
ghost use Rattle.df_group.specs.Totals.{IsExtremeBefore};

use crate::values::value_of;
use df_column::{Entry, Table};
use df_ops::{MinMax, is_beyond, min_or_max_with};
use df_value::{Cell, Duplicate};
use std::alloc::{AllocError, Global};

/// The cell, unless it is null.
fn non_null(cell: &Cell) -> Option<&Cell>
    ensures { option_copied result ≡ value_in cell.now }
{
    match cell {
        Cell::Null => None,
        cell => Some(cell),
    }
}

/// Whether the cell of a row that goes may be the best one.
fn may_be_best(min_max: MinMax, best: Option<&Cell>, gone: Option<&Cell>) -> bool
    ensures { result
        ≡ totals_spec.may_be_best min_max (option_copied best.entry) (option_copied gone.entry) }
{
    match (best, gone) {
        (_, None) => false,
        (None, Some(_)) => true,
        (Some(best), Some(gone)) => !is_beyond(min_max, best, gone),
    }
}

/// Whether the cell of a row that comes is as good as the best one, or better.
fn is_as_good(min_max: MinMax, best: Option<&Cell>, come: Option<&Cell>) -> bool
    ensures { result
        ≡ totals_spec.is_as_good min_max (option_copied best.entry) (option_copied come.entry) }
{
    match (best, come) {
        (_, None) => false,
        (None, Some(_)) => true,
        (Some(best), Some(come)) => !is_beyond(min_max, best, come),
    }
}

/// The best cell after these entries, from the one before. `None` where it is not known: the cell of a row that goes may
/// be the best one, and no cell as good comes in its place. `Some(None)` where all cells are null.
fn extreme_after<'a>(
    min_max: MinMax,
    index: Option<usize>,
    known: &'a Cell,
    entries: &'a [Entry],
) -> Option<Option<&'a Cell>>
    ensures { option_map (λ best. option_copied best) result
        ≡ totals_spec.extreme_after min_max index (value_in known.now) entries.now }
{
    let mut best = non_null(known);
    for entry in entries {
        let gone = value_of(index, &entry.old);
        let come = value_of(index, &entry.new);
        if may_be_best(min_max, best, gone) && !is_as_good(min_max, best, come) {
            return None;
        }
        best = min_or_max_with(min_max, best, come);
    }
    Some(best)
}

/// The same, if the cell before is known.
fn extreme_from<'a>(
    min_max: MinMax,
    index: Option<usize>,
    known: Option<&'a Cell>,
    entries: &'a [Entry],
) -> Option<Option<&'a Cell>>
    ensures { (rows : List (List AnyCell))
        → IfSome (option_copied known.entry) (λ k. IsExtremeBefore min_max index k entries.now rows)
        → IfSome result (λ best. unwrap_or (option_copied best) cell_as.Null
        ≡ min_or_max_of min_max (cells_of index rows)) }
{
    match known {
        Some(known) => extreme_after(min_max, index, known, entries),
        None => None,
    }
}

/// The least cell at an index of the members that is not null, null where there is none. Of each leaf of members one
/// cell is read, and of each block behind the leaves.
fn least_cell(alloc: Global, index: Option<usize>, members: &Table) -> Result<Cell, AllocError>
    ensures { IfOk result (λ c. c
        ≡ min_or_max_of MinMax.Min (cells_of index (finite.values members.now.rows))) }
{
    let least = members.least(alloc, index)?;
    Ok(least.unwrap_or(Cell::Null))
}

/// The same of the greatest cell.
fn greatest_cell(alloc: Global, index: Option<usize>, members: &Table) -> Result<Cell, AllocError>
    ensures { IfOk result (λ c. c
        ≡ min_or_max_of MinMax.Max (cells_of index (finite.values members.now.rows))) }
{
    let greatest = members.greatest(alloc, index)?;
    Ok(greatest.unwrap_or(Cell::Null))
}

/// The least or the greatest cell at an index of the members that is not null, null where there is none.
fn extreme_among(
    alloc: Global,
    min_max: MinMax,
    index: Option<usize>,
    members: &Table,
) -> Result<Cell, AllocError>
    ensures { IfOk result (λ c. c
        ≡ min_or_max_of min_max (cells_of index (finite.values members.now.rows))) }
{
    match min_max {
        MinMax::Min => least_cell(alloc, index, members),
        MinMax::Max => greatest_cell(alloc, index, members),
    }
}

/// A copy of the cell, null where there is none.
fn copy_or_null(alloc: Global, cell: Option<&Cell>) -> Result<Cell, AllocError>
    ensures { IfOk result (λ c. c ≡ unwrap_or (option_copied cell.entry) cell_as.Null) }
{
    match cell {
        Some(cell) => cell.copy(alloc),
        None => Ok(Cell::Null),
    }
}

/// The least or the greatest cell at an index of the members, null where all are null. The entries lead to the members: it
/// is found from the cell before, unless a row with that cell goes and none as good comes in its place.
pub fn extreme_cell(
    alloc: Global,
    min_max: MinMax,
    index: Option<usize>,
    known: Option<&Cell>,
    entries: &[Entry],
    members: &Table,
) -> Result<Cell, AllocError>
    ensures { IfOk result (λ c. IfSome (option_copied known.entry)
        (λ k. IsExtremeBefore min_max index k entries.now (finite.values members.now.rows))
        → c ≡ min_or_max_of min_max (cells_of index (finite.values members.now.rows))) }
{
    match extreme_from(min_max, index, known, entries) {
        Some(best) => copy_or_null(alloc, best),
        None => extreme_among(alloc, min_max, index, members),
    }
}
