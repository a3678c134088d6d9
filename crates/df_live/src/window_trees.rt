//! The trees of plans that put a column of windows, sums or ranks among the columns of the plan below.
ghost use Rattle.std.specs.Prelude.{◌≡◌, IfOk, Ok};
ghost use Rattle.df_plan.specs.Checks.{plan_check};
ghost use Rattle.df_plan.specs.declared.plan.Plan.TheVariants as plans;
ghost use Rattle.df_live.specs.Fresh.{IsFreshFor};

use crate::building::{Fresh, over_one};
use crate::nodes;
use df_ops::{RankKind, RollKind, size_of};
use df_plan::Plan;
use df_value::{Schema, Text};
use std::alloc::{AllocError, Global};

/// The tree of a plan that is a rank over the plan below.
pub fn rank_tree(
    alloc: Global,
    schemas: &[Schema],
    plan: &Plan,
    below: &Plan,
    input: Fresh,
    schema: Schema,
    output: &Text,
    kind: RankKind,
    column: &Text,
) -> Result<Fresh, AllocError>
    requires is { plan.now ≡ plans.Rank below.now output.now kind column.now }
    requires input { IsFreshFor input below.now schemas.now }
    requires checks { plan_check plan.now schemas.now ≡ Ok schema }
    ensures { IfOk result (λ made. IsFreshFor made plan.now schemas.now) }
{
    let _columns = schema.columns();
    let node = nodes::rank(alloc, &input.schema, output, kind, column);
    over_one(alloc, input, schema, node)
}

/// The tree of a plan that is a cumulative sum over the plan below.
pub fn sum_tree(
    alloc: Global,
    schemas: &[Schema],
    plan: &Plan,
    below: &Plan,
    input: Fresh,
    schema: Schema,
    output: &Text,
    column: &Text,
) -> Result<Fresh, AllocError>
    requires is { plan.now ≡ plans.CumSum below.now output.now column.now }
    requires input { IsFreshFor input below.now schemas.now }
    requires checks { plan_check plan.now schemas.now ≡ Ok schema }
    ensures { IfOk result (λ made. IsFreshFor made plan.now schemas.now) }
{
    let _columns = schema.columns();
    let node = nodes::sum(alloc, &input.schema, output, column);
    over_one(alloc, input, schema, node)
}

/// The tree of a plan that is a rolling window over the plan below.
pub fn rolling_tree(
    alloc: Global,
    schemas: &[Schema],
    plan: &Plan,
    below: &Plan,
    input: Fresh,
    schema: Schema,
    output: &Text,
    kind: RollKind,
    column: &Text,
    w: i64,
    m: i64,
) -> Result<Fresh, AllocError>
    requires is { plan.now ≡ plans.Rolling below.now output.now kind column.now w m }
    requires input { IsFreshFor input below.now schemas.now }
    requires checks { plan_check plan.now schemas.now ≡ Ok schema }
    ensures { IfOk result (λ made. IsFreshFor made plan.now schemas.now) }
{
    let _columns = schema.columns();
    let (rows, least) = (size_of(w), size_of(m));
    let node = nodes::window(alloc, &input.schema, output, kind, column, rows, least);
    over_one(alloc, input, schema, node)
}
