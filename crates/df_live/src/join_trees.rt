//! The trees of plans that are joins.
ghost use Rattle.std.specs.Prelude.{◌≡◌, IfOk, IsOk, List as Seq, Ok, OnOk};
ghost use Rattle.df_value.specs.Schemas.{Columns};
ghost use Rattle.df_column.specs.Tables.{TaggedRows};
ghost use Rattle.df_join.specs.Sides.{AreScans};
ghost use Rattle.df_plan.specs.Checks.{plan_check};
ghost use Rattle.df_plan.specs.declared.plan.Plan.{Plan as Tree};
ghost use Rattle.df_plan.specs.declared.plan.Plan.TheVariants as plans;
ghost use Rattle.df_live.specs.Fresh.{IsFreshFor, IsJoinOf, IsPlanOfTwo};
ghost use Rattle.df_live.specs.declared.tree.LiveTree.TheVariants as trees;

use crate::building::{Fresh, boxed};
use crate::joined::JoinOperator;
use crate::nodes;
use crate::tree::LiveTree;
use df_ops::How;
use df_plan::Plan;
use df_value::{Schema, Text, both};
use std::alloc::{AllocError, Global};

/// The tree of a plan that is this join over those of its inputs, where the join was made.
pub fn over_two(
    alloc: Global,
    left: Fresh,
    right: Fresh,
    schema: Schema,
    node: Result<JoinOperator, AllocError>,
) -> Result<Fresh, AllocError>
    requires { AreScans left.scans right.scans }
    ensures { IfOk result (λ made. (schemas : Seq Columns) (i j p : Tree)
        (joined : TaggedRows → TaggedRows → TaggedRows)
        → IsFreshFor left i schemas → IsFreshFor right j schemas
        → plan_check p schemas ≡ Ok schema → IsPlanOfTwo schemas i j p joined
        → IfOk node (λ n. IsJoinOf n left.schema right.schema left.scans right.scans joined)
        → IsFreshFor made p schemas) }
{
    let scans = left.scans + right.scans;
    let on_left = boxed_tree(alloc, left);
    let on_right = boxed_tree(alloc, right);
    join_tree_of(both(both(on_left, on_right), node), schema, scans)
}

// The tree of an input, in a box.
fn boxed_tree(alloc: Global, input: Fresh) -> Result<Box<LiveTree>, AllocError>
    ensures { IfOk result (λ b. b.value ≡ input.tree) }
{
    let Fresh {
        tree,
        schema: columns,
        ..
    } = input;
    drop(columns);
    boxed(alloc, tree)
}

// The tree of a join over those in the boxes, where all were made.
fn join_tree_of(
    parts: Result<((Box<LiveTree>, Box<LiveTree>), JoinOperator), AllocError>,
    schema: Schema,
    scans: usize,
) -> Result<Fresh, AllocError>
    ensures tree { IfOk result (λ made. IfOk parts (λ p. made
        ≡ record { tree = trees.Join p.0.0 p.0.1 p.1; schema = schema; scans = scans })) }
    ensures parts { OnOk result (IsOk parts) }
{
    match parts {
        Ok(((on_left, on_right), node)) => Ok(Fresh {
            tree: LiveTree::Join(on_left, on_right, node),
            schema,
            scans,
        }),
        Err(refused) => {
            drop(schema);
            Err(refused)
        }
    }
}

/// The tree of a plan that is a join of the plans below.
pub fn join_tree(
    alloc: Global,
    schemas: &[Schema],
    plan: &Plan,
    on_left: &Plan,
    on_right: &Plan,
    left: Fresh,
    right: Fresh,
    schema: Schema,
    how: How,
    keys: &[Text],
    nulls_equal: bool,
) -> Result<Fresh, AllocError>
    requires is { plan.now ≡ plans.Join on_left.now on_right.now how keys.now nulls_equal }
    requires left { IsFreshFor left on_left.now schemas.now }
    requires right { IsFreshFor right on_right.now schemas.now }
    requires checks { plan_check plan.now schemas.now ≡ Ok schema }
    ensures { IfOk result (λ made. IsFreshFor made plan.now schemas.now) }
{
    let (a, b) = (left.scans, right.scans);
    let node = nodes::join(
        alloc,
        &left.schema,
        &right.schema,
        a,
        b,
        how,
        keys,
        nulls_equal,
    );
    over_two(alloc, left, right, schema, node)
}
