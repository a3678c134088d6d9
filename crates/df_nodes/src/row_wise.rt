//! What operators of one row make of a delta.
ghost use Rattle.std.specs.Prelude.{◌≡◌, ◌+◌, ◌*◌, ◌<◌, ◌^◌, ◌++◌, ◌∷◌, IfOk, List, OnOk, T, map};
ghost use Rattle.std.specs.FinMap as finite;
ghost use Rattle.std.specs.List.{list_all};
ghost use Rattle.df_value.specs.declared.cell.Cell.{Cell};
ghost use Rattle.df_column.specs.Changes.{Change, applied};
ghost use Rattle.df_column.specs.Tables.{TaggedRows, entry_change};
ghost use Rattle.df_column.specs.declared.tag.Tag.{Tag};
ghost use Rattle.df_delta.specs.Deltas.{has_row};
ghost use Rattle.df_delta.specs.Differences.{Fits, IsDiff};
ghost use Rattle.df_delta.specs.Work.{IsBelow, IsWithin, evaluations, plus};
ghost use Rattle.df_nodes.specs.RowOperators.{evaluations_of, row_wise_made, row_wise_output};

use crate::row_operator::RowOperator;
use df_column::Entry;
use df_delta::{Delta, push_change};
use df_expr::Meter;
use std::alloc::{AllocError, Global};

/// Nothing is staged: the node keeps nothing of its input.
#[derive(Drop)]
pub struct NothingStaged {}

/// Adds what the operator makes of one change, unless it makes the same of both its rows.
fn push_row_wise_change(
    alloc: Global,
    operator: &RowOperator,
    entry: &Entry,
    entries: &mut Vec<Entry>,
    meter: &mut Meter,
) -> Result<(), AllocError>
    requires { meter.old.evals + 2 * evaluations_of operator.now < 2 ^ 128 }
    ensures added { OnOk result ((later : List (Tag × Change (List Cell))) →
        map entry_change entries.new.items ++ row_wise_made operator.now later
        ≡ map entry_change entries.old.items
        ++ row_wise_made operator.now (entry_change entry.now ∷ later)) }
    ensures rows { T (list_all has_row entries.old.items)
        → OnOk result (T (list_all has_row entries.new.items)) }
    ensures grows { IsWithin meter.old meter.new }
    ensures counted { IsWithin meter.new
        (plus meter.old (evaluations (2 * evaluations_of operator.now))) }
{
    let old = operator.apply_to(alloc, &entry.old, meter)?;
    let new = operator.apply_to(alloc, &entry.new, meter)?;
    push_change(entries, entry.tag, old, new)
}

/// The delta of the operator's output under this delta of its input.
pub fn row_wise_changes(
    alloc: Global,
    operator: &RowOperator,
    delta: &Delta,
    meter: &mut Meter,
) -> Result<Delta, AllocError>
    requires { IsBelow (plus meter.old (evaluations (2 ^ 65 * evaluations_of operator.now))) (2 ^ 128) }
    ensures diff { IfOk result (λ r. (t : TaggedRows) → Fits t delta.now
        → IsDiff (row_wise_output operator.now t)
        (row_wise_output operator.now (applied t delta.now)) r) }
    ensures grows { IsWithin meter.old meter.new }
    ensures within { IsWithin meter.new
        (plus meter.old (evaluations (2 ^ 65 * evaluations_of operator.now))) }
    ensures meter { IsWithin meter.new
        (plus meter.old (evaluations (2 * finite.len delta.now * evaluations_of operator.now))) }
{
    let mut entries = Vec::new(alloc);
    for entry in delta.entries() {
        push_row_wise_change(alloc, operator, entry, &mut entries, meter)?;
    }
    Ok(Delta::from_entries(entries))
}
