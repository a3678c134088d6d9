//! The plain evaluation of a plan, over whole tables.
ghost use Rattle.std.specs.Prelude.{◌≡◌, [], IfOk, IsTrue, slice_get};
ghost use Rattle.df_value.specs.Rows.{rows_fit};
ghost use Rattle.df_plan.specs.Meaning.{table_of, frame_table, frames_fit};
ghost use Rattle.df_ops.specs.Tables as tables;
ghost use Rattle.df_ops.specs.Windows as windows;

use crate::checked::CheckedPlan;
use crate::plan::Plan;
use df_ops::{
    PlainTable, RollKind, cum_sum_table, filter_table, group_by, join, rank_table, rolling_table,
    select_table, size_of, with_columns_table,
};
use df_value::{Duplicate, List, Row, Schema, Text, both, then_drop};
use std::alloc::{AllocError, Global};

/// The rows that a plan gives over frames: `frames[i]` are the rows of frame i, by rising number.
///
/// Each operator is taken from the whole of its input, so the time may grow with the square of the
/// number of rows.
pub fn evaluate(
    alloc: Global,
    plan: &CheckedPlan,
    frames: &[List<Row>],
) -> Result<List<Row>, AllocError>
    ensures value { IfOk result
        (λ rows. rows ≡ (table_of plan.now.plan plan.now.frames frames.now).rows) }

    // Where there is a table for each frame, and its rows fit, the rows of the result fit too.
    ensures fit { IsTrue (frames_fit plan.now.frames frames.now) →
        IfOk result (λ rows. IsTrue (rows_fit plan.now.schema rows)) }
    ensures columns { IsTrue (frames_fit plan.now.frames frames.now) →
        IfOk result
        (λ _. (table_of plan.now.plan plan.now.frames frames.now).columns ≡ plan.now.schema) }
{
    let table = table_of_plan(alloc, plan.plan(), plan.frames().as_slice(), frames)?;
    Ok(table.rows)
}

fn table_of_plan(
    alloc: Global,
    plan: &Plan,
    schemas: &[Schema],
    frames: &[List<Row>],
) -> Result<PlainTable, AllocError>
    ensures { IfOk result (λ t. t ≡ table_of plan.now schemas.now frames.now) }
{
    match plan {
        Plan::Scan(frame) => copy_frame(alloc, schemas, frames, *frame),
        Plan::Filter(input, predicate) => {
            let input = table_of_plan(alloc, input.get(), schemas, frames)?;
            then_drop(filter_table(alloc, &input, predicate), input)
        }
        Plan::Select(input, items) => {
            let input = table_of_plan(alloc, input.get(), schemas, frames)?;
            then_drop(select_table(alloc, &input, items.as_slice()), input)
        }
        Plan::WithColumns(input, items) => {
            let input = table_of_plan(alloc, input.get(), schemas, frames)?;
            then_drop(with_columns_table(alloc, &input, items.as_slice()), input)
        }
        Plan::GroupBy(input, keys, aggs) => {
            let input = table_of_plan(alloc, input.get(), schemas, frames)?;
            then_drop(
                group_by(alloc, &input, keys.as_slice(), aggs.as_slice()),
                input,
            )
        }
        Plan::Join(left, right, how, keys, nulls_equal) => {
            let left = table_of_plan(alloc, left.get(), schemas, frames);
            let (left, right) = both(left, table_of_plan(alloc, right.get(), schemas, frames))?;
            let table = join(alloc, &left, &right, *how, keys.as_slice(), *nulls_equal);
            then_drop(table, (left, right))
        }
        Plan::Rolling(input, output, kind, column, w, m) => {
            let input = table_of_plan(alloc, input.get(), schemas, frames)?;
            then_drop(rolled(alloc, &input, output, *kind, column, *w, *m), input)
        }
        Plan::CumSum(input, output, column) => {
            let input = table_of_plan(alloc, input.get(), schemas, frames)?;
            then_drop(cum_sum_table(alloc, &input, output, column), input)
        }
        Plan::Rank(input, output, kind, column) => {
            let input = table_of_plan(alloc, input.get(), schemas, frames)?;
            then_drop(rank_table(alloc, &input, output, *kind, column), input)
        }
    }
}

// The rolling values of a checked window, whose numbers are sizes.
fn rolled(
    alloc: Global,
    input: &PlainTable,
    output: &Text,
    kind: RollKind,
    column: &Text,
    w: i64,
    m: i64,
) -> Result<PlainTable, AllocError>
    ensures { IfOk result
        (λ t. t ≡ tables.rolling_table input.now output.now kind column.now (windows.size_of w)
        (windows.size_of m)) }
{
    rolling_table(alloc, input, output, kind, column, size_of(w), size_of(m))
}

// A copy of the frame, or no rows where there is none.
fn copy_frame(
    alloc: Global,
    schemas: &[Schema],
    frames: &[List<Row>],
    frame: usize,
) -> Result<PlainTable, AllocError>
    ensures { IfOk result
        (λ t. t ≡ frame_table (slice_get schemas.now frame) (slice_get frames.now frame)) }
{
    match (schemas.get(frame), frames.get(frame)) {
        (Some(schema), Some(rows)) => copy_rows(alloc, schema, rows),
        _ => Ok(empty_table(alloc)),
    }
}

fn copy_rows(alloc: Global, schema: &Schema, rows: &List<Row>) -> Result<PlainTable, AllocError>
    ensures { IfOk result (λ t. (t.columns ≡ schema.now) × (t.rows ≡ rows.now)) }
{
    let columns = schema.columns().copy(alloc)?;
    match rows.copy(alloc) {
        Ok(rows) => Ok(PlainTable { columns, rows }),
        Err(refused) => {
            drop(columns);
            Err(refused)
        }
    }
}

fn empty_table(alloc: Global) -> PlainTable
    ensures { (result.columns ≡ []) × (result.rows ≡ []) }
{
    PlainTable {
        columns: List::from_vec(Vec::new(alloc)),
        rows: List::from_vec(Vec::new(alloc)),
    }
}
