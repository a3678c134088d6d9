//! The tree of a plan that checks, over empty frames.
ghost use Rattle.std.specs.Prelude.{◌≡◌, IfOk, Ok};
ghost use Rattle.df_value.specs.Schemas.{IsSchema};
ghost use Rattle.df_plan.specs.Checks.{plan_check};
ghost use Rattle.df_plan.specs.declared.plan.Plan.TheVariants as plans;
ghost use Rattle.df_live.specs.Fresh.{Checks, IsFreshFor};

use crate::building::{Fresh, scan};
use crate::join_trees::join_tree;
use crate::row_wise_trees::{filter_tree, group_tree, select_tree, with_columns_tree};
use crate::window_trees::{rank_tree, rolling_tree, sum_tree};
use df_expr::Expr;
use df_ops::{Agg, How, RankKind, RollKind};
use df_plan::{Plan, PlanFault, schema_of};
use df_value::{Boxed, List, Schema, Text};
use std::alloc::{AllocError, Global};

/// The schema of a part of a plan that checks.
fn schema_of_part(alloc: Global, plan: &Plan, schemas: &[Schema]) -> Result<Schema, AllocError>
    requires { Checks plan.now schemas.now }
    ensures value { IfOk result (λ s. plan_check plan.now schemas.now ≡ Ok s) }
    ensures sound { IfOk result (λ s. IsSchema s) }
{
    match schema_of(alloc, plan, schemas) {
        Ok(schema) => {
            let _columns = schema.columns();
            Ok(schema)
        }
        Err(PlanFault::Memory) => Err(AllocError),
        Err(_) => unreachable!(),
    }
}

/// The tree of a plan that checks over frames of these schemas, over empty frames.
#[cycle(fresh)]
pub fn fresh_tree(alloc: Global, plan: &Plan, schemas: &[Schema]) -> Result<Fresh, AllocError>
    requires { Checks plan.now schemas.now }
    ensures { IfOk result (λ made. IsFreshFor made plan.now schemas.now) }
{
    let schema = schema_of_part(alloc, plan, schemas)?;
    match plan {
        Plan::Scan(frame) => Ok(scan(*frame, schema)),
        Plan::Filter(below, predicate) => {
            fresh_filter(alloc, below, plan, schemas, schema, predicate)
        }
        Plan::Select(below, items) => fresh_select(alloc, below, plan, schemas, schema, items),
        Plan::WithColumns(below, items) => {
            fresh_with_columns(alloc, below, plan, schemas, schema, items)
        }
        Plan::GroupBy(below, keys, aggs) => {
            fresh_group(alloc, below, plan, schemas, schema, keys, aggs)
        }
        Plan::Join(left, right, how, keys, nulls_equal) => {
            let (how, nulls_equal) = (*how, *nulls_equal);
            let first = fresh_left(alloc, left, right, plan, schemas, how, keys, nulls_equal)?;
            fresh_join(
                alloc,
                right,
                left,
                plan,
                schemas,
                first,
                schema,
                how,
                keys,
                nulls_equal,
            )
        }
        Plan::Rolling(below, output, kind, column, w, m) => {
            fresh_rolling(
                alloc, below, plan, schemas, schema, output, *kind, column, *w, *m,
            )
        }
        Plan::CumSum(below, output, column) => {
            fresh_sum(alloc, below, plan, schemas, schema, output, column)
        }
        Plan::Rank(below, output, kind, column) => {
            fresh_rank(alloc, below, plan, schemas, schema, output, *kind, column)
        }
    }
}

/// The tree of a plan that is a filter.
#[cycle(fresh)]
fn fresh_filter(
    alloc: Global,
    below: &Boxed<Plan>,
    plan: &Plan,
    schemas: &[Schema],
    schema: Schema,
    predicate: &Expr,
) -> Result<Fresh, AllocError>
    requires is { plan.now ≡ plans.Filter below.now predicate.now }
    requires plan { Checks plan.now schemas.now }
    requires schema { plan_check plan.now schemas.now ≡ Ok schema }
    ensures { IfOk result (λ made. IsFreshFor made plan.now schemas.now) }
{
    let below = below.get();
    let input = fresh_tree(alloc, below, schemas)?;
    filter_tree(alloc, schemas, plan, below, input, schema, predicate)
}

/// The tree of a plan that is a select.
#[cycle(fresh)]
fn fresh_select(
    alloc: Global,
    below: &Boxed<Plan>,
    plan: &Plan,
    schemas: &[Schema],
    schema: Schema,
    items: &List<(Text, Expr)>,
) -> Result<Fresh, AllocError>
    requires is { plan.now ≡ plans.Select below.now items.now }
    requires plan { Checks plan.now schemas.now }
    requires schema { plan_check plan.now schemas.now ≡ Ok schema }
    ensures { IfOk result (λ made. IsFreshFor made plan.now schemas.now) }
{
    let below = below.get();
    let input = fresh_tree(alloc, below, schemas)?;
    select_tree(alloc, schemas, plan, below, input, schema, items.as_slice())
}

/// The tree of a plan that is a with_columns.
#[cycle(fresh)]
fn fresh_with_columns(
    alloc: Global,
    below: &Boxed<Plan>,
    plan: &Plan,
    schemas: &[Schema],
    schema: Schema,
    items: &List<(Text, Expr)>,
) -> Result<Fresh, AllocError>
    requires is { plan.now ≡ plans.WithColumns below.now items.now }
    requires plan { Checks plan.now schemas.now }
    requires schema { plan_check plan.now schemas.now ≡ Ok schema }
    ensures { IfOk result (λ made. IsFreshFor made plan.now schemas.now) }
{
    let below = below.get();
    let input = fresh_tree(alloc, below, schemas)?;
    with_columns_tree(alloc, schemas, plan, below, input, schema, items.as_slice())
}

/// The tree of a plan that is a group-by.
#[cycle(fresh)]
fn fresh_group(
    alloc: Global,
    below: &Boxed<Plan>,
    plan: &Plan,
    schemas: &[Schema],
    schema: Schema,
    keys: &List<Text>,
    aggs: &List<(Text, Agg)>,
) -> Result<Fresh, AllocError>
    requires is { plan.now ≡ plans.GroupBy below.now keys.now aggs.now }
    requires plan { Checks plan.now schemas.now }
    requires schema { plan_check plan.now schemas.now ≡ Ok schema }
    ensures { IfOk result (λ made. IsFreshFor made plan.now schemas.now) }
{
    let below = below.get();
    let input = fresh_tree(alloc, below, schemas)?;
    group_tree(
        alloc,
        schemas,
        plan,
        below,
        input,
        schema,
        keys.as_slice(),
        aggs.as_slice(),
    )
}

/// The tree of a plan that is a rolling window.
#[cycle(fresh)]
fn fresh_rolling(
    alloc: Global,
    below: &Boxed<Plan>,
    plan: &Plan,
    schemas: &[Schema],
    schema: Schema,
    output: &Text,
    kind: RollKind,
    column: &Text,
    w: i64,
    m: i64,
) -> Result<Fresh, AllocError>
    requires is { plan.now ≡ plans.Rolling below.now output.now kind column.now w m }
    requires plan { Checks plan.now schemas.now }
    requires schema { plan_check plan.now schemas.now ≡ Ok schema }
    ensures { IfOk result (λ made. IsFreshFor made plan.now schemas.now) }
{
    let below = below.get();
    let input = fresh_tree(alloc, below, schemas)?;
    rolling_tree(
        alloc, schemas, plan, below, input, schema, output, kind, column, w, m,
    )
}

/// The tree of a plan that is a cumulative sum.
#[cycle(fresh)]
fn fresh_sum(
    alloc: Global,
    below: &Boxed<Plan>,
    plan: &Plan,
    schemas: &[Schema],
    schema: Schema,
    output: &Text,
    column: &Text,
) -> Result<Fresh, AllocError>
    requires is { plan.now ≡ plans.CumSum below.now output.now column.now }
    requires plan { Checks plan.now schemas.now }
    requires schema { plan_check plan.now schemas.now ≡ Ok schema }
    ensures { IfOk result (λ made. IsFreshFor made plan.now schemas.now) }
{
    let below = below.get();
    let input = fresh_tree(alloc, below, schemas)?;
    sum_tree(alloc, schemas, plan, below, input, schema, output, column)
}

/// The tree of a plan that is a rank.
#[cycle(fresh)]
fn fresh_rank(
    alloc: Global,
    below: &Boxed<Plan>,
    plan: &Plan,
    schemas: &[Schema],
    schema: Schema,
    output: &Text,
    kind: RankKind,
    column: &Text,
) -> Result<Fresh, AllocError>
    requires is { plan.now ≡ plans.Rank below.now output.now kind column.now }
    requires plan { Checks plan.now schemas.now }
    requires schema { plan_check plan.now schemas.now ≡ Ok schema }
    ensures { IfOk result (λ made. IsFreshFor made plan.now schemas.now) }
{
    let below = below.get();
    let input = fresh_tree(alloc, below, schemas)?;
    rank_tree(
        alloc, schemas, plan, below, input, schema, output, kind, column,
    )
}

/// The tree of the left input of a join.
#[cycle(fresh)]
fn fresh_left(
    alloc: Global,
    left: &Boxed<Plan>,
    right: &Boxed<Plan>,
    plan: &Plan,
    schemas: &[Schema],
    how: How,
    keys: &List<Text>,
    nulls_equal: bool,
) -> Result<Fresh, AllocError>
    requires is { plan.now ≡ plans.Join left.now right.now how keys.now nulls_equal }
    requires plan { Checks plan.now schemas.now }
    ensures { IfOk result (λ made. IsFreshFor made left.now schemas.now) }
{
    fresh_tree(alloc, left.get(), schemas)
}

/// The tree of a plan that is a join, over that of its left input.
#[cycle(fresh)]
fn fresh_join(
    alloc: Global,
    right: &Boxed<Plan>,
    left: &Boxed<Plan>,
    plan: &Plan,
    schemas: &[Schema],
    first: Fresh,
    schema: Schema,
    how: How,
    keys: &List<Text>,
    nulls_equal: bool,
) -> Result<Fresh, AllocError>
    requires is { plan.now ≡ plans.Join left.now right.now how keys.now nulls_equal }
    requires plan { Checks plan.now schemas.now }
    requires schema { plan_check plan.now schemas.now ≡ Ok schema }
    requires first { IsFreshFor first left.now schemas.now }
    ensures { IfOk result (λ made. IsFreshFor made plan.now schemas.now) }
{
    let (left, right) = (left.get(), right.get());
    match fresh_tree(alloc, right, schemas) {
        Ok(second) => join_tree(
            alloc,
            schemas,
            plan,
            left,
            right,
            first,
            second,
            schema,
            how,
            keys.as_slice(),
            nulls_equal,
        ),
        Err(refused) => {
            drop(first);
            drop(schema);
            Err(refused)
        }
    }
}
