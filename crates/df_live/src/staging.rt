//! What a prepare of a tree staged, put together from its parts.
ghost use Rattle.std.specs.Prelude.{◌≡◌, IfOk, IsOk, Ok, OnOk};
ghost use Rattle.df_live.specs.declared.tree.StagedTree.TheVariants as staged;

use crate::operator::StagedOperator;
use crate::tree::StagedTree;
use crate::tree_delta::TreeDelta;
use df_delta::Delta;
use df_join::StagedJoin;
use std::alloc::{AllocError, Global};

/// What the tree of an input staged, in a box, and the delta of its output, where they were made.
pub fn boxed<'a>(
    alloc: Global,
    made: Result<(StagedTree, TreeDelta<'a>), AllocError>,
) -> Result<(Box<StagedTree>, TreeDelta<'a>), AllocError>
    ensures { IfOk result (λ r. made.entry ≡ Ok (r.0.value, r.1)) }
{
    let (tree, changes) = made?;
    Ok((Box::new(alloc, tree)?, changes))
}

/// What a node over one input staged and its delta, where they were made, with what the input staged under a given delta.
pub fn over_one<'a>(
    below: Box<StagedTree>,
    given: &'a Delta,
    made: Result<(StagedOperator, Delta), AllocError>,
) -> Result<(StagedTree, TreeDelta<'a>), AllocError>
    ensures tree { IfOk result (λ r. IfOk made (λ m. r ≡ (staged.Operator below m.0, m.1))) }
    ensures made { OnOk result (IsOk made) }
{
    match made {
        Ok((node, changes)) => Ok((
            StagedTree::Operator(below, node),
            TreeDelta::made(given, changes),
        )),
        Err(refused) => {
            // A call costs the proof less than a drop at the end of a block.
            drop(below);
            Err(refused)
        }
    }
}

/// What a join staged and its delta, where they were made, with what its inputs staged under a given delta.
pub fn over_two<'a>(
    left: Box<StagedTree>,
    right: Box<StagedTree>,
    given: &'a Delta,
    made: Result<(StagedJoin, Delta), AllocError>,
) -> Result<(StagedTree, TreeDelta<'a>), AllocError>
    ensures tree { IfOk result (λ r. IfOk made (λ m. r ≡ (staged.Join left right m.0, m.1))) }
    ensures made { OnOk result (IsOk made) }
{
    match made {
        Ok((node, changes)) => Ok((
            StagedTree::Join(left, right, node),
            TreeDelta::made(given, changes),
        )),
        Err(refused) => {
            drop(left);
            drop(right);
            Err(refused)
        }
    }
}
