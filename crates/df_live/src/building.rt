//! A node over the trees of its inputs, over empty frames.
ghost use Rattle.std.specs.Prelude.{◌≡◌, ℕ, IfOk, IsOk, List as Seq, Ok, OnOk};
ghost use Rattle.df_value.specs.Schemas.{Columns};
ghost use Rattle.df_expr.specs.declared.meter.Meter.{Meter};
ghost use Rattle.df_column.specs.Tables.{TaggedRows};
ghost use Rattle.df_plan.specs.Checks.{plan_check};
ghost use Rattle.df_plan.specs.declared.plan.Plan.{Plan};
ghost use Rattle.df_plan.specs.declared.plan.Plan.TheVariants as plans;
ghost use Rattle.df_live.specs.Fresh.{IsFreshFor, IsNodeOf, IsPlanOver};
ghost use Rattle.df_live.specs.declared.tree.LiveTree.TheVariants as trees;

use crate::operator::LiveOperator;
use crate::tree::LiveTree;
use df_value::{Schema, both};
use std::alloc::{AllocError, Global};

/// A tree over empty frames, with the schema of its output and the number of its scans.
#[derive(Drop)]
pub struct Fresh {
    pub tree: LiveTree,
    pub schema: Schema,
    pub scans: usize,
}

/// The tree of a plan that is a scan.
pub fn scan(frame: usize, schema: Schema) -> Fresh
    ensures { (schemas : Seq Columns) (p : Plan) → p ≡ plans.Scan frame
        → plan_check p schemas ≡ Ok schema → IsFreshFor result p schemas }
{
    Fresh {
        tree: LiveTree::Scan(frame),
        schema,
        scans: 1,
    }
}

/// The tree in a box.
pub fn boxed(alloc: Global, tree: LiveTree) -> Result<Box<LiveTree>, AllocError>
    ensures { IfOk result (λ b. b.value ≡ tree) }
{
    Ok(Box::new(alloc, tree)?)
}

/// The tree of a plan that is this node over that of its input, where the node was made.
pub fn over_one(
    alloc: Global,
    input: Fresh,
    schema: Schema,
    node: Result<LiveOperator, AllocError>,
) -> Result<Fresh, AllocError>
    ensures { IfOk result (λ made. (schemas : Seq Columns) (i p : Plan)
        (operator : TaggedRows → TaggedRows) (cost : ℕ → Meter)
        → IsFreshFor input i schemas → plan_check p schemas ≡ Ok schema
        → IsPlanOver schemas i p operator cost
        → IfOk node (λ n. IsNodeOf n input.schema operator cost)
        → IsFreshFor made p schemas) }
{
    let Fresh {
        tree,
        schema: columns,
        scans,
    } = input;
    drop(columns);
    let parts = both(boxed(alloc, tree), node);
    operator_tree(parts, schema, scans)
}

// The tree of a node over that in the box, where both were made. What is not used is dropped by calls, which cost the
// proof less than drops at the end of a block.
fn operator_tree(
    parts: Result<(Box<LiveTree>, LiveOperator), AllocError>,
    schema: Schema,
    scans: usize,
) -> Result<Fresh, AllocError>
    ensures tree { IfOk result (λ made. IfOk parts (λ p. made
        ≡ record { tree = trees.Operator p.0 p.1; schema = schema; scans = scans })) }
    ensures parts { OnOk result (IsOk parts) }
{
    match parts {
        Ok((below, node)) => Ok(Fresh {
            tree: LiveTree::Operator(below, node),
            schema,
            scans,
        }),
        Err(refused) => {
            drop(schema);
            Err(refused)
        }
    }
}
