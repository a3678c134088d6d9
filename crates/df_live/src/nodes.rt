//! The node of each kind of operator, over no rows.
ghost use Rattle.std.specs.Prelude.{◌≡◌, ◌*◌, ◌≤◌, ◌∷◌, [], IfOk, Some, length};
ghost use Rattle.df_value.specs.Schemas.{IsSchema, column_dtype, column_index};
ghost use Rattle.df_value.specs.declared.cell.CellType.TheVariants as dtype;
ghost use Rattle.df_delta.specs.Work.{evaluations, no_work};
ghost use Rattle.df_group.specs.GroupRows.{group_output};
ghost use Rattle.df_group.specs.Work.{finishes};
ghost use Rattle.df_nodes.specs.Outputs.{filtered, mapped, rolled, summed};
ghost use Rattle.df_nodes.specs.Rolling.{windows};
ghost use Rattle.df_ops.specs.NamedColumns as named;
ghost use Rattle.df_ops.specs.RowWise as row_wise;
ghost use Rattle.df_ops.specs.Windows.{rolling_dtype};
ghost use Rattle.df_ranks.specs.Ranked.{ranked};
ghost use Rattle.df_join.specs.RowNotes.{joined_by_key};
ghost use Rattle.df_join.specs.Sides.{AreScans, is_one};
ghost use Rattle.df_ops.specs.Joins.{join_indices_of};
ghost use Rattle.df_live.specs.Fresh.{IsJoinOf, IsNodeOf};

use crate::joined::JoinOperator;
use crate::operator::LiveOperator;
use df_expr::Expr;
use df_group::LiveGroup;
use df_join::LiveJoin;
use df_nodes::{LiveFilter, LiveMap, LiveSum, LiveWindow};
use df_ops::{Agg, How, RankKind, RollKind};
use df_ranks::LiveRank;
use df_value::{Schema, Text};
use std::alloc::{AllocError, Global};

/// The node of a filter of rows of this schema.
pub fn filter(alloc: Global, schema: &Schema, predicate: &Expr) -> Result<LiveOperator, AllocError>
    ensures { IfOk result (λ n. IsNodeOf n schema.now
        (filtered schema.now predicate.now) (λ d. evaluations (2 * d))) }
{
    let node = LiveFilter::new(alloc, schema, predicate)?;
    Ok(LiveOperator::Filter(node))
}

/// The node of a select from rows of this schema.
pub fn select(
    alloc: Global,
    schema: &Schema,
    items: &[(Text, Expr)],
) -> Result<LiveOperator, AllocError>
    requires { length items.now ≤ 32 }
    ensures { IfOk result (λ n. IsNodeOf n schema.now
        (mapped (row_wise.select_row schema.now items.now))
        (λ d. evaluations (2 * d * length items.now))) }
{
    let node = LiveMap::select(alloc, schema, items)?;
    Ok(LiveOperator::Map(node))
}

/// The node of a with_columns of rows of this schema.
pub fn with_columns(
    alloc: Global,
    schema: &Schema,
    items: &[(Text, Expr)],
) -> Result<LiveOperator, AllocError>
    requires { length items.now ≤ 32 }
    ensures { IfOk result (λ n. IsNodeOf n schema.now
        (mapped (row_wise.with_columns_row schema.now items.now))
        (λ d. evaluations (2 * d * length items.now))) }
{
    let node = LiveMap::with_columns(alloc, schema, items)?;
    Ok(LiveOperator::Map(node))
}

/// The node of a group-by of rows of this schema.
pub fn group(
    alloc: Global,
    schema: &Schema,
    keys: &[Text],
    aggregates: &[(Text, Agg)],
) -> Result<LiveOperator, AllocError>
    ensures { IfOk result (λ n. IsNodeOf n schema.now
        (group_output schema.now (named.column_indices schema.now keys.now) aggregates.now)
        (λ d. finishes (2 * d))) }
{
    let node = LiveGroup::new(alloc, schema, keys, aggregates)?;
    Ok(LiveOperator::Group(node))
}

/// The node of a rolling window over rows of this schema.
pub fn window(
    alloc: Global,
    schema: &Schema,
    output: &Text,
    kind: RollKind,
    column: &Text,
    w: usize,
    m: usize,
) -> Result<LiveOperator, AllocError>
    requires schema { IsSchema (named.with_columns schema.now
        ((output.now, rolling_dtype kind) ∷ [])) }
    requires typed { column_dtype column.now schema.now ≡ Some dtype.Int }
    requires some { 1 ≤ w }
    requires few { w ≤ 65536 }
    ensures { IfOk result (λ n. IsNodeOf n schema.now
        (rolled schema.now output.now kind column.now w m)
        (λ d. windows (d * w))) }
{
    let node = LiveWindow::new(alloc, schema, output, kind, column, w, m)?;
    Ok(LiveOperator::Window(node))
}

/// The node of a cumulative sum over rows of this schema.
pub fn sum(
    alloc: Global,
    schema: &Schema,
    output: &Text,
    column: &Text,
) -> Result<LiveOperator, AllocError>
    requires { IsSchema (named.with_columns schema.now ((output.now, dtype.Wide) ∷ [])) }
    ensures { IfOk result (λ n. IsNodeOf n schema.now
        (summed schema.now output.now column.now) (λ d. no_work)) }
{
    let node = LiveSum::new(alloc, schema, output, column)?;
    Ok(LiveOperator::Sum(node))
}

/// The node of a rank of rows of this schema.
pub fn rank(
    alloc: Global,
    schema: &Schema,
    output: &Text,
    kind: RankKind,
    column: &Text,
) -> Result<LiveOperator, AllocError>
    requires { IsSchema (named.with_columns schema.now ((output.now, dtype.Int) ∷ [])) }
    ensures { IfOk result (λ n. IsNodeOf n schema.now
        (ranked schema.now output.now kind (column_index column.now schema.now))
        (λ d. no_work)) }
{
    let node = LiveRank::new(alloc, schema, output, kind, column)?;
    Ok(LiveOperator::Rank(node))
}

/// The node of a join of rows of these schemas, over so many scans on each side.
pub fn join(
    alloc: Global,
    left: &Schema,
    right: &Schema,
    a: usize,
    b: usize,
    how: How,
    keys: &[Text],
    nulls_equal: bool,
) -> Result<JoinOperator, AllocError>
    requires { AreScans a b }
    ensures { IfOk result (λ n. IsJoinOf n left.now right.now a b
        (joined_by_key (is_one a) (record {
          how = how;
          indices = join_indices_of left.now right.now keys.now nulls_equal;
        }))) }
{
    let join = LiveJoin::new(alloc, left, right, a, b, how, keys, nulls_equal)?;
    Ok(JoinOperator { join })
}
