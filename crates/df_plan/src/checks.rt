//! The check of a plan.
ghost use Rattle.std.specs.Prelude.{◌≡◌, ◌+◌, ◌<◌, ◌≤◌, ◌↔◌, [], Err, IsTrue, MatchOption, MatchResult, None, slice_get};
ghost use Rattle.df_value.specs.Schemas.{doubled_column_after};
ghost use Rattle.df_plan.specs.Checks as checks;
ghost use Rattle.df_value.specs.Outcomes.{Answers};
ghost use Rattle.df_plan.specs.Checks.{plan_check, columns_of, plan_levels, plan_scans, to_schema_unless, filter_check, select_check, with_columns_check, added_columns_check, group_by_check, frame_check};
ghost use Rattle.df_plan.specs.JoinChecks.{join_check};
ghost use Rattle.df_plan.specs.ItemChecks as item_checks;

use crate::fault::PlanFault;
use crate::items::{Added, Aggregates, Columns, Keys, Outputs, check_each, expr_dtype_check};
use crate::join_checks::check_join;
use crate::plan::Plan;
use crate::window_checks::{check_cum_sum, check_rank, check_rolling};
use df_expr::{Expr, ExprFault};
use df_ops::{Agg, with_columns};
use df_value::{
    CellType, Duplicate, List, Schema, SchemaFault, Text, first_doubled_name, then_drop,
};
use std::alloc::Global;

/// The most levels of a plan: the nodes on its longest path.
pub const MOST_PLAN_LEVELS: u32 = 12;

/// The most scans of a plan.
pub const MOST_SCANS: u32 = 3;

/// The schema of a plan's result over frames of these schemas, or the first fault.
pub fn check(alloc: Global, plan: &Plan, frames: &[Schema]) -> Result<Schema, PlanFault>
    ensures { Answers PlanFault.Memory (plan_check plan.now frames.now) result }
{
    if !is_within(plan, MOST_PLAN_LEVELS) {
        return Err(PlanFault::TooDeep);
    }
    if scans_left(plan, MOST_SCANS).is_none() {
        return Err(PlanFault::TooManyScans);
    }
    schema_of(alloc, plan, frames)
}

// Whether a plan has at most so many levels.
fn is_within(plan: &Plan, most: u32) -> bool
    ensures { IsTrue result ↔ (plan_levels plan.now ≤ most) }
{
    if most == 0 {
        return false;
    }
    match plan {
        Plan::Scan(_) => true,
        Plan::Filter(input, _) | Plan::Select(input, _) | Plan::WithColumns(input, _) => {
            is_within(input.get(), most - 1)
        }
        Plan::GroupBy(input, _, _) | Plan::CumSum(input, _, _) => is_within(input.get(), most - 1),
        Plan::Rolling(input, _, _, _, _, _) | Plan::Rank(input, _, _, _) => {
            is_within(input.get(), most - 1)
        }
        Plan::Join(left, right, _, _, _) => {
            is_within(left.get(), most - 1) && is_within(right.get(), most - 1)
        }
    }
}

// What is left of so many scans after those of a plan; none where it has more.
fn scans_left(plan: &Plan, most: u32) -> Option<u32>
    ensures { MatchOption result (most < plan_scans plan.now)
        (λ left. plan_scans plan.now + left ≡ most) }
{
    match plan {
        Plan::Scan(_) => most.checked_sub(1),
        Plan::Filter(input, _) | Plan::Select(input, _) | Plan::WithColumns(input, _) => {
            scans_left(input.get(), most)
        }
        Plan::GroupBy(input, _, _) | Plan::CumSum(input, _, _) => scans_left(input.get(), most),
        Plan::Rolling(input, _, _, _, _, _) | Plan::Rank(input, _, _, _) => {
            scans_left(input.get(), most)
        }
        Plan::Join(left, right, _, _, _) => {
            let rest = scans_left(left.get(), most)?;
            scans_left(right.get(), rest)
        }
    }
}

/// The schema of the table that a plan, or a part of one, gives over frames of these schemas; or the
/// first fault. How many levels and scans there are is not asked: of a checked plan's part it is known.
pub fn schema_of(alloc: Global, plan: &Plan, frames: &[Schema]) -> Result<Schema, PlanFault>
    ensures { Answers PlanFault.Memory (columns_of plan.now frames.now) result }
{
    match plan {
        Plan::Scan(frame) => copy_schema(alloc, frames, *frame),
        Plan::Filter(input, predicate) => {
            let columns = schema_of(alloc, input.get(), frames)?;
            check_filter(alloc, columns, predicate)
        }
        Plan::Select(input, items) => {
            let columns = schema_of(alloc, input.get(), frames)?;
            then_drop(check_select(alloc, &columns, items.as_slice()), columns)
        }
        Plan::WithColumns(input, items) => {
            let columns = schema_of(alloc, input.get(), frames)?;
            then_drop(check_added(alloc, &columns, items.as_slice()), columns)
        }
        Plan::GroupBy(input, keys, aggs) => {
            let columns = schema_of(alloc, input.get(), frames)?;
            let checked = check_groups(alloc, &columns, keys.as_slice(), aggs.as_slice());
            then_drop(checked, columns)
        }
        Plan::Join(left, right, _, keys, _) => {
            let left = schema_of(alloc, left.get(), frames)?;
            let right = schema_of(alloc, right.get(), frames);
            check_inputs(alloc, left, right, keys.as_slice())
        }
        Plan::Rolling(input, output, kind, column, w, m) => {
            let columns = schema_of(alloc, input.get(), frames)?;
            let checked = check_rolling(alloc, &columns, output, *kind, column, *w, *m);
            then_drop(checked, columns)
        }
        Plan::CumSum(input, output, column) => {
            let columns = schema_of(alloc, input.get(), frames)?;
            then_drop(check_cum_sum(alloc, &columns, output, column), columns)
        }
        Plan::Rank(input, output, _, column) => {
            let columns = schema_of(alloc, input.get(), frames)?;
            then_drop(check_rank(alloc, &columns, output, column), columns)
        }
    }
}

// The check of a join after those of its inputs, of which the left is no fault.
fn check_inputs(
    alloc: Global,
    left: Schema,
    right: Result<Schema, PlanFault>,
    keys: &[Text],
) -> Result<Schema, PlanFault>
    ensures { MatchResult right
        (λ columns. Answers PlanFault.Memory (join_check left columns keys.now) result)
        (λ f. result ≡ Err f) }
{
    match right {
        Ok(right) => check_join(alloc, &left, &right, keys),
        Err(fault) => Err(fault),
    }
}

fn copy_schema(alloc: Global, frames: &[Schema], frame: usize) -> Result<Schema, PlanFault>
    ensures { Answers PlanFault.Memory (frame_check frame (slice_get frames.now frame)) result }
{
    match frames.get(frame) {
        Some(schema) => Ok(schema.copy(alloc)?),
        None => Err(PlanFault::NoFrame(frame)),
    }
}

fn check_filter(alloc: Global, input: Schema, predicate: &Expr) -> Result<Schema, PlanFault>
    ensures { Answers PlanFault.Memory
        (filter_check input (item_checks.expr_dtype_check predicate.now input)) result }
{
    match expr_dtype_check(alloc, &input, predicate) {
        Ok(CellType::Bool) => Ok(input),
        Ok(_) => Err(PlanFault::Expr(ExprFault::WrongType)),
        Err(fault) => Err(fault),
    }
}

fn check_select(alloc: Global, input: &Schema, items: &[(Text, Expr)]) -> Result<Schema, PlanFault>
    ensures { Answers PlanFault.Memory (select_check input.now items.now) result }
{
    if items.is_empty() {
        return Err(PlanFault::EmptyList);
    }
    let out = List::from_vec(Vec::new(alloc));
    match check_each::<(Text, Expr), Outputs>(alloc, input, out, items) {
        Ok(out) => to_schema(alloc, out),
        Err(fault) => Err(fault),
    }
}

fn check_added(alloc: Global, input: &Schema, items: &[(Text, Expr)]) -> Result<Schema, PlanFault>
    ensures { Answers PlanFault.Memory (with_columns_check input.now items.now) result }
{
    let out = List::from_vec(Vec::new(alloc));
    match check_each::<(Text, Expr), Added>(alloc, input, out, items) {
        Ok(added) => add_columns(alloc, input, &added),
        Err(fault) => Err(fault),
    }
}

fn check_groups(
    alloc: Global,
    input: &Schema,
    keys: &[Text],
    aggs: &[(Text, Agg)],
) -> Result<Schema, PlanFault>
    ensures { Answers PlanFault.Memory (group_by_check input.now keys.now aggs.now) result }
{
    if keys.is_empty() {
        return Err(PlanFault::EmptyList);
    }
    let out = List::from_vec(Vec::new(alloc));
    let out = check_each::<Text, Keys>(alloc, input, out, keys)?;
    let out = check_each::<(Text, Agg), Aggregates>(alloc, input, out, aggs)?;
    to_schema(alloc, out)
}

/// The schema of a table with columns put among its own.
pub fn add_columns(alloc: Global, input: &Schema, added: &Columns) -> Result<Schema, PlanFault>
    ensures { Answers PlanFault.Memory (added_columns_check input.now added.now) result }
{
    if let Some(name) = first_doubled_name(added.as_slice()) {
        return Err(PlanFault::DoubledName(name.copy(alloc)?));
    }
    let columns = with_columns(alloc, input.columns().as_slice(), added.as_slice())?;
    schema_unless_wide(columns)
}

/// The schema of these columns: no name may stand twice, and then they may not be too many.
pub fn to_schema(alloc: Global, columns: Columns) -> Result<Schema, PlanFault>
    ensures { Answers PlanFault.Memory (checks.to_schema columns) result }
{
    if let Some(name) = first_doubled_name(columns.as_slice()) {
        return Err(PlanFault::DoubledName(name.copy(alloc)?));
    }
    schema_unless_wide(columns)
}

fn schema_unless_wide(columns: Columns) -> Result<Schema, PlanFault>
    requires { doubled_column_after [] columns ≡ None }
    ensures { Answers PlanFault.Memory (to_schema_unless columns None) result }
{
    match Schema::new(columns) {
        Ok(schema) => Ok(schema),
        Err(SchemaFault::TooWide) => Err(PlanFault::TooWide),
        Err(_) => Err(PlanFault::EmptyList),
    }
}
