//! The live select and with_columns.
ghost use Rattle.std.specs.Prelude.{◌≡◌, ◌*◌, ◌^◌, IfOk, length, map};
ghost use Rattle.std.specs.FinMap as finite;
ghost use Rattle.df_column.specs.Tables.{TaggedRows};
ghost use Rattle.df_delta.specs.Diff.{diff};
ghost use Rattle.df_delta.specs.SameRows.{same_row};
ghost use Rattle.df_delta.specs.Work.{evaluations};
ghost use Rattle.df_ops.specs.RowWise as row_wise;
ghost use Rattle.df_nodes.specs.RowOperators.{evaluations_of, row_wise_output};
ghost use Rattle.df_nodes.specs.Outputs.{mapped};

use crate::row_operator::RowOperator;
use crate::row_wise::{NothingStaged, row_wise_changes};
use df_delta::{Delta, LiveNode};
use df_expr::{Expr, Meter};
use df_ops::{physical_items, places_of};
use df_value::{List, Schema, Text};
use std::alloc::{AllocError, Global};

/// Makes another row of each row, at its tag.
pub struct LiveMap {
    alloc: Global,
    operator: RowOperator,
}

// A body that owns one drops it by a call.
impl Drop for LiveMap {
    fn drop(self) {
        let LiveMap { alloc: _, operator } = self;
        drop(operator);
    }
}

impl LiveMap {
    /// The values of these items in rows of this schema.
    pub fn select(
        alloc: Global,
        schema: &Schema,
        items: &[(Text, Expr)],
    ) -> Result<LiveMap, AllocError>
        ensures output { IfOk result (λ m. (t : TaggedRows) →
            row_wise_output m.operator t ≡ mapped (row_wise.select_row schema.now items.now) t) }

        // The rows are those that the operator gives of the rows of the input.
        ensures rows { IfOk result (λ m. (t : TaggedRows) →
            finite.values (row_wise_output m.operator t)
            ≡ map (row_wise.select_row schema.now items.now) (finite.values t)) }
        ensures counts { IfOk result (λ m. evaluations_of m.operator ≡ length items.now) }
    {
        let items = physical_items(alloc, schema.columns().as_slice(), items)?;
        Ok(LiveMap {
            alloc,
            operator: RowOperator::Select(List::from_vec(items)),
        })
    }

    /// Rows of this schema with the values of these items put among their cells.
    pub fn with_columns(
        alloc: Global,
        schema: &Schema,
        items: &[(Text, Expr)],
    ) -> Result<LiveMap, AllocError>
        ensures output { IfOk result (λ m. (t : TaggedRows) →
            row_wise_output m.operator t
            ≡ mapped (row_wise.with_columns_row schema.now items.now) t) }

        // The rows are those that the operator gives of the rows of the input.
        ensures rows { IfOk result (λ m. (t : TaggedRows) →
            finite.values (row_wise_output m.operator t)
            ≡ map (row_wise.with_columns_row schema.now items.now) (finite.values t)) }
        ensures counts { IfOk result (λ m. evaluations_of m.operator ≡ length items.now) }
    {
        let columns = schema.columns().as_slice();
        let places = places_of(alloc, columns, items)?;
        let items = physical_items(alloc, columns, items)?;
        Ok(LiveMap {
            alloc,
            operator: RowOperator::WithColumns(List::from_vec(places), List::from_vec(items)),
        })
    }
}

impl LiveNode for LiveMap {
    type Staged = NothingStaged;

    ghost Takes = { λ _ _. Unit {0} };

    ghost IsOver = { λ _ _. Unit {0} };

    ghost output = { λ m t. row_wise_output m.operator t };

    ghost HasRoomFor = { λ _ _. Unit {0} };

    ghost LeadsTo = { λ _ _ _. Unit {0} };

    ghost budget = { λ m. evaluations (2 ^ 65 * evaluations_of m.operator) };

    ghost allowed = { λ m t u.
        evaluations (2 * finite.len (diff same_row t u) * evaluations_of m.operator) };

    fn prepare(
        &mut self,
        delta: &Delta,
        meter: &mut Meter,
    ) -> Result<(NothingStaged, Delta), AllocError> {
        let changes = row_wise_changes(self.alloc, &self.operator, delta, meter)?;
        Ok((NothingStaged {}, changes))
    }

    fn commit(&mut self, staged: NothingStaged) {
        let NothingStaged {} = staged;
    }
}
