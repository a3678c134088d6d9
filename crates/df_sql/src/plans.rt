//! Plans: a step for each node, inputs before their node.
ghost use Rattle.std.specs.Prelude.{◌≡◌, IfOk, Ok};
ghost use Rattle.df_plan.specs.Checks.{columns_of};
ghost use Rattle.df_sql.specs.Parts.{HasColumns};

use crate::frames::push_table_name;
use crate::groups::push_group_by;
use crate::joins::{JoinOn, push_join};
use crate::numbers::{number_names, scans};
use crate::row_wise::{push_filter, push_select, push_with_columns};
use crate::statement::{Piece, Statement};
use crate::steps::{Step, push_as, push_columns, push_end, push_head};
use crate::windows::{Window, push_window};
use df_plan::{Plan, PlanFault, schema_of};
use df_text::FrameSpec;
use df_value::{Boxed, Schema, Text};
use std::alloc::{AllocError, Global};

/// What a plan is written over: the frames, their schemas, and names for the columns of row numbers, one for each scan.
#[derive(Clone, Copy)]
pub struct Over<'a> {
    pub frames: &'a [FrameSpec],
    pub schemas: &'a [Schema],
    pub order: &'a [Text],
}

impl<'a> Over<'a> {
    /// The columns of row numbers that the step of a plan carries.
    pub fn order_of(self, plan: &Plan) -> &'a [Text] {
        let count = scans(plan).min(self.order.len());
        &self.order[..count]
    }
}

// The schema of a plan that has one.
#[tactic(auto, unfolding(crate::specs::Parts::HasColumns))]
fn schema_of_part(alloc: Global, plan: &Plan, schemas: &[Schema]) -> Result<Schema, AllocError>
    requires { HasColumns plan.now schemas.now }
    ensures { IfOk result (λ s. columns_of plan.now schemas.now ≡ Ok s) }
{
    match schema_of(alloc, plan, schemas) {
        Ok(schema) => Ok(schema),
        Err(PlanFault::Memory) => Err(AllocError),
        Err(_) => unreachable!(),
    }
}

/// Adds the steps of a plan, of which the first has this number, and gives the number of the last.
#[cycle(steps)]
pub fn push_steps(
    alloc: Global,
    plan: &Plan,
    out: &mut Statement,
    over: Over<'_>,
    first: u32,
) -> Result<u32, AllocError>
    requires { HasColumns plan.now over.schemas.now }
{
    match plan {
        Plan::Scan(frame) => {
            push_scan(alloc, out, over, *frame, first)?;
            Ok(first)
        }
        Plan::Filter(input, _) | Plan::Select(input, _) | Plan::WithColumns(input, _) => {
            push_over(alloc, input, out, over, plan, first)
        }
        Plan::GroupBy(input, _, _) | Plan::CumSum(input, _, _) => {
            push_over(alloc, input, out, over, plan, first)
        }
        Plan::Rolling(input, _, _, _, _, _) | Plan::Rank(input, _, _, _) => {
            push_over(alloc, input, out, over, plan, first)
        }
        Plan::Join(left, right, how, keys, nulls_equal) => {
            let on = JoinOn {
                how: *how,
                keys: keys.as_slice(),
                nulls_equal: *nulls_equal,
            };
            let lefts = push_side(alloc, left, out, over, first)?;
            let rights = push_side(alloc, right, out, over, lefts.saturating_add(1))?;
            push_sides(
                alloc,
                out,
                over,
                plan,
                (lefts, left.get()),
                (rights, right.get()),
                on,
            )
        }
    }
}

// The steps of an input, and behind them that of the plan over it.
#[cycle(steps)]
fn push_over(
    alloc: Global,
    input: &Boxed<Plan>,
    out: &mut Statement,
    over: Over<'_>,
    plan: &Plan,
    first: u32,
) -> Result<u32, AllocError>
    requires columns { HasColumns input.now over.schemas.now }
{
    let input = input.get();
    let below = push_steps(alloc, input, out, over, first)?;
    let own = below.saturating_add(1);
    let schema = schema_of_part(alloc, input, over.schemas)?;
    let step = Step {
        number: below,
        order: over.order_of(input),
        columns: schema.columns().as_slice(),
    };
    let pushed = push_step(out, step, plan, own);
    drop(schema);
    pushed?;
    Ok(own)
}

// The steps of a side of a join.
#[cycle(steps)]
fn push_side(
    alloc: Global,
    side: &Boxed<Plan>,
    out: &mut Statement,
    over: Over<'_>,
    first: u32,
) -> Result<u32, AllocError>
    requires columns { HasColumns side.now over.schemas.now }
{
    push_steps(alloc, side.get(), out, over, first)
}

// The step of a plan of one input.
fn push_step(
    out: &mut Statement,
    input: Step<'_>,
    plan: &Plan,
    number: u32,
) -> Result<(), AllocError> {
    push_head(out, number)?;
    match plan {
        Plan::Filter(_, predicate) => push_filter(out, input, predicate)?,
        Plan::Select(_, items) => push_select(out, input, items.as_slice())?,
        Plan::WithColumns(_, items) => push_with_columns(out, input, items.as_slice())?,
        Plan::GroupBy(_, keys, aggregates) => {
            push_group_by(out, input, keys.as_slice(), aggregates.as_slice())?
        }
        Plan::Rolling(_, output, kind, column, w, m) => {
            push_window(out, input, output, Window::Rolling(*kind, column, *w, *m))?
        }
        Plan::CumSum(_, output, column) => {
            push_window(out, input, output, Window::CumSum(column))?
        }
        Plan::Rank(_, output, kind, column) => {
            push_window(out, input, output, Window::Rank(*kind, column))?
        }
        Plan::Scan(_) | Plan::Join(_, _, _, _, _) => {}
    }
    push_end(out)
}

// The rows of a frame, with the column of their numbers under its name in this view.
fn push_scan(
    alloc: Global,
    out: &mut Statement,
    over: Over<'_>,
    frame: usize,
    number: u32,
) -> Result<(), AllocError> {
    let (Some(spec), Some(order)) = (over.frames.get(frame), over.order.first()) else {
        return Ok(());
    };
    let names = number_names(alloc, &Plan::Scan(frame), over.frames)?;
    push_head(out, number)?;
    if let Some(name) = names.as_slice().first() {
        push_number(out, name, order)?;
    }
    drop(names);
    push_columns(out, spec.schema.columns().as_slice())?;
    out.push(&[Piece::Sql("\n  FROM ")])?;
    push_table_name(out, spec.name.as_str())?;
    push_end(out)
}

// The column of the numbers of a table, under its name in a view.
fn push_number(out: &mut Statement, name: &Text, order: &Text) -> Result<(), AllocError> {
    out.push(&[Piece::Name(name.as_str())])?;
    if name == order {
        return Ok(());
    }
    push_as(out, order.as_str())
}

// The step of a join, of its sides with the numbers of their steps.
fn push_sides(
    alloc: Global,
    out: &mut Statement,
    over: Over<'_>,
    plan: &Plan,
    left: (u32, &Plan),
    right: (u32, &Plan),
    on: JoinOn<'_>,
) -> Result<u32, AllocError>
    requires whole { HasColumns plan.now over.schemas.now }
    requires left { HasColumns left.1.now over.schemas.now }
    requires right { HasColumns right.1.now over.schemas.now }
{
    let columns = schema_of_part(alloc, plan, over.schemas)?;
    let left_schema = schema_of_part(alloc, left.1, over.schemas)?;
    let right_schema = schema_of_part(alloc, right.1, over.schemas)?;
    let lefts = Step {
        number: left.0,
        order: over.order_of(left.1),
        columns: left_schema.columns().as_slice(),
    };
    let rights = Step {
        number: right.0,
        order: over.order_of(right.1),
        columns: right_schema.columns().as_slice(),
    };
    let order = over.order_of(plan);
    let pushed = push_join(out, lefts, rights, order, columns.columns().as_slice(), on);
    drop(right_schema);
    drop(left_schema);
    drop(columns);
    pushed?;
    Ok(right.0.saturating_add(1))
}
