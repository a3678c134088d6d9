//! The trees of plans that are a filter, select, with_columns or group-by of the plan below.
ghost use Rattle.std.specs.Prelude.{◌≡◌, IfOk, Ok};
ghost use Rattle.df_plan.specs.Checks.{plan_check};
ghost use Rattle.df_plan.specs.declared.plan.Plan.TheVariants as plans;
ghost use Rattle.df_live.specs.Fresh.{IsFreshFor};

use crate::building::{Fresh, over_one};
use crate::nodes::{filter, group, select, with_columns};
use df_expr::Expr;
use df_ops::Agg;
use df_plan::Plan;
use df_value::{Schema, Text};
use std::alloc::{AllocError, Global};

/// The tree of a plan that is a filter of the plan below.
pub fn filter_tree(
    alloc: Global,
    schemas: &[Schema],
    plan: &Plan,
    below: &Plan,
    input: Fresh,
    schema: Schema,
    predicate: &Expr,
) -> Result<Fresh, AllocError>
    requires is { plan.now ≡ plans.Filter below.now predicate.now }
    requires input { IsFreshFor input below.now schemas.now }
    requires checks { plan_check plan.now schemas.now ≡ Ok schema }
    ensures { IfOk result (λ made. IsFreshFor made plan.now schemas.now) }
{
    let node = filter(alloc, &input.schema, predicate);
    over_one(alloc, input, schema, node)
}

/// The tree of a plan that is a select from the plan below.
pub fn select_tree(
    alloc: Global,
    schemas: &[Schema],
    plan: &Plan,
    below: &Plan,
    input: Fresh,
    schema: Schema,
    items: &[(Text, Expr)],
) -> Result<Fresh, AllocError>
    requires is { plan.now ≡ plans.Select below.now items.now }
    requires input { IsFreshFor input below.now schemas.now }
    requires checks { plan_check plan.now schemas.now ≡ Ok schema }
    ensures { IfOk result (λ made. IsFreshFor made plan.now schemas.now) }
{
    let node = select(alloc, &input.schema, items);
    over_one(alloc, input, schema, node)
}

/// The tree of a plan that is a with_columns of the plan below.
pub fn with_columns_tree(
    alloc: Global,
    schemas: &[Schema],
    plan: &Plan,
    below: &Plan,
    input: Fresh,
    schema: Schema,
    items: &[(Text, Expr)],
) -> Result<Fresh, AllocError>
    requires is { plan.now ≡ plans.WithColumns below.now items.now }
    requires input { IsFreshFor input below.now schemas.now }
    requires checks { plan_check plan.now schemas.now ≡ Ok schema }
    ensures { IfOk result (λ made. IsFreshFor made plan.now schemas.now) }
{
    let node = with_columns(alloc, &input.schema, items);
    over_one(alloc, input, schema, node)
}

/// The tree of a plan that is a group-by of the plan below.
pub fn group_tree(
    alloc: Global,
    schemas: &[Schema],
    plan: &Plan,
    below: &Plan,
    input: Fresh,
    schema: Schema,
    keys: &[Text],
    aggregates: &[(Text, Agg)],
) -> Result<Fresh, AllocError>
    requires is { plan.now ≡ plans.GroupBy below.now keys.now aggregates.now }
    requires input { IsFreshFor input below.now schemas.now }
    requires checks { plan_check plan.now schemas.now ≡ Ok schema }
    ensures { IfOk result (λ made. IsFreshFor made plan.now schemas.now) }
{
    let node = group(alloc, &input.schema, keys, aggregates);
    over_one(alloc, input, schema, node)
}
