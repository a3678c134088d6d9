//! The live filter.
ghost use Rattle.std.specs.Prelude.{◌≡◌, ◌*◌, ◌^◌, IfOk};
ghost use Rattle.std.specs.FinMap as finite;
ghost use Rattle.df_column.specs.Tables.{TaggedRows};
ghost use Rattle.df_delta.specs.Diff.{diff};
ghost use Rattle.df_delta.specs.SameRows.{same_row};
ghost use Rattle.df_delta.specs.Work.{evaluations};
ghost use Rattle.df_ops.specs.RowWise.{filter_rows};
ghost use Rattle.df_nodes.specs.RowOperators.{evaluations_of, row_wise_output};
ghost use Rattle.df_nodes.specs.Outputs.{filtered};

use crate::row_operator::RowOperator;
use crate::row_wise::{NothingStaged, row_wise_changes};
use df_delta::{Delta, LiveNode};
use df_expr::{Expr, Meter, PhysicalExpr};
use df_value::Schema;
use std::alloc::{AllocError, Global};

/// Keeps the rows whose predicate is true, at their tags.
pub struct LiveFilter {
    alloc: Global,
    operator: RowOperator,
}

// A body that owns one drops it by a call.
impl Drop for LiveFilter {
    fn drop(self) {
        let LiveFilter { alloc: _, operator } = self;
        drop(operator);
    }
}

impl LiveFilter {
    /// The filter of rows of this schema by this predicate.
    pub fn new(alloc: Global, schema: &Schema, predicate: &Expr) -> Result<LiveFilter, AllocError>
        ensures output { IfOk result (λ f. (t : TaggedRows) →
            row_wise_output f.operator t ≡ filtered schema.now predicate.now t) }

        // The rows are those that the operator gives of the rows of the input.
        ensures rows { IfOk result (λ f. (t : TaggedRows) →
            finite.values (row_wise_output f.operator t)
            ≡ filter_rows schema.now predicate.now (finite.values t)) }
        ensures counts { IfOk result (λ f. evaluations_of f.operator ≡ 1) }
    {
        let predicate = PhysicalExpr::new(alloc, predicate, schema.columns().as_slice())?;
        Ok(LiveFilter {
            alloc,
            operator: RowOperator::Filter(predicate),
        })
    }
}

impl LiveNode for LiveFilter {
    type Staged = NothingStaged;

    ghost Takes = { λ _ _. Unit {0} };

    ghost IsOver = { λ _ _. Unit {0} };

    ghost output = { λ f t. row_wise_output f.operator t };

    ghost HasRoomFor = { λ _ _. Unit {0} };

    ghost LeadsTo = { λ _ _ _. Unit {0} };

    ghost budget = { λ f. evaluations (2 ^ 65 * evaluations_of f.operator) };

    ghost allowed = { λ f t u.
        evaluations (2 * finite.len (diff same_row t u) * evaluations_of f.operator) };

    fn prepare(
        &mut self,
        delta: &Delta,
        meter: &mut Meter,
    ) -> Result<(NothingStaged, Delta), AllocError> {
        let changes = row_wise_changes(self.alloc, &self.operator, delta, meter)?;
        Ok((NothingStaged {}, changes))
    }

    fn commit(&mut self, staged: NothingStaged) {
        let NothingStaged {} = staged;
    }
}
