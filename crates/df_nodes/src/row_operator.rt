//! Operators that look at one row at a time.
ghost use Rattle.std.specs.Prelude.{◌≡◌, ◌+◌, ◌<◌, ◌^◌, IfOk};
ghost use Rattle.df_delta.specs.Work.{IsWithin, evaluations, plus};
ghost use Rattle.df_nodes.specs.RowOperators.{evaluations_of, result_of, result_of_row};

use df_expr::{Meter, PhysicalExpr};
use df_ops::{Place, keeps, select_row, with_columns_row};
use df_value::{Duplicate, List, Row};
use std::alloc::{AllocError, Global};

/// What is made of one row.
pub enum RowOperator {
    /// The row itself where this is true.
    Filter(PhysicalExpr),
    /// The row of these values.
    Select(List<PhysicalExpr>),
    /// The row with these values at their places among its cells.
    WithColumns(List<Place>, List<PhysicalExpr>),
}

// A body that owns one drops it by a call.
impl Drop for RowOperator {
    fn drop(self) {
        match self {
            RowOperator::Filter(predicate) => drop(predicate),
            RowOperator::Select(values) => drop(values),
            RowOperator::WithColumns(places, values) => {
                drop(places);
                drop(values);
            }
        }
    }
}

impl RowOperator {
    /// What is made of this row, if anything. Counts each evaluation, at most those of the operator.
    pub fn apply(
        &self,
        alloc: Global,
        row: &Row,
        meter: &mut Meter,
    ) -> Result<Option<Row>, AllocError>
        requires { meter.old.evals + evaluations_of self.now < 2 ^ 128 }
        ensures value { IfOk result (λ r. r ≡ result_of self.now row.now) }
        ensures grows { IsWithin meter.old meter.new }
        ensures counted { IsWithin meter.new
            (plus meter.old (evaluations (evaluations_of self.now))) }
    {
        match self {
            RowOperator::Filter(predicate) => kept(alloc, predicate, row, meter),
            RowOperator::Select(items) => {
                Ok(Some(select_row(alloc, items.as_slice(), row, meter)?))
            }
            RowOperator::WithColumns(places, items) => {
                let (places, items) = (places.as_slice(), items.as_slice());
                Ok(Some(with_columns_row(alloc, places, items, row, meter)?))
            }
        }
    }

    /// What is made of this row, if there is one.
    pub fn apply_to(
        &self,
        alloc: Global,
        row: &Option<Row>,
        meter: &mut Meter,
    ) -> Result<Option<Row>, AllocError>
        requires { meter.old.evals + evaluations_of self.now < 2 ^ 128 }
        ensures value { IfOk result (λ r. r ≡ result_of_row self.now row.now) }
        ensures grows { IsWithin meter.old meter.new }
        ensures counted { IsWithin meter.new
            (plus meter.old (evaluations (evaluations_of self.now))) }
    {
        match row {
            Some(row) => self.apply(alloc, row, meter),
            None => Ok(None),
        }
    }
}

fn kept(
    alloc: Global,
    predicate: &PhysicalExpr,
    row: &Row,
    meter: &mut Meter,
) -> Result<Option<Row>, AllocError>
    requires { meter.old.evals + 1 < 2 ^ 128 }
    ensures value { IfOk result (λ r. r ≡ result_of (RowOperator.Filter predicate.now) row.now) }
    ensures grows { IsWithin meter.old meter.new }
    ensures counted { IsWithin meter.new (plus meter.old (evaluations 1)) }
{
    if keeps(predicate, row, meter) {
        Ok(Some(row.copy(alloc)?))
    } else {
        Ok(None)
    }
}
