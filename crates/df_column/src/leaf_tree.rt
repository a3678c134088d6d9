//! Leaves in order, as a tree of wide nodes.
ghost use Rattle.std.specs.Prelude.{◌≡◌, ◌<◌, ◌≤◌, ◌++◌, ◌∷◌, ◌^◌, [], IfOk, Some, T, drop, false, length, slice_get, take};
ghost use Rattle.std.specs.FinMap.{is_sorted};
ghost use Rattle.df_column.specs.BlockLists.{blocks_of_leaves, rows_in};
ghost use Rattle.df_column.specs.Blocks.{rows_of_blocks};
ghost use Rattle.df_column.specs.LeafTotals.{no_totals, totals_of};
ghost use Rattle.df_column.specs.LeafTrees.{AreFull, IsBefore, leaves_in, reaches};
ghost use Rattle.df_column.specs.Tags.{tag_cmp};
ghost use Rattle.df_tree.specs.Leaves.{items_in};
ghost use Rattle.df_tree.specs.Partitions.{IsPlace};

use crate::leaf::Leaf;
use crate::leaf_totals::{MoreBlocks, Totals};
use crate::shared_leaf::SharedLeaf;
use crate::tag::Tag;
use df_tree::{Before, Predicate, Seq, Test};
use std::alloc::{AllocError, Global};
use std::marker::Model;

mod changes;
mod reads;

/// Leaves in order. Trees share the nodes that they have in common. Contracts see the blocks of each leaf.
pub struct LeafTree {
    leaves: Option<Seq<SharedLeaf>>,
}

// A body that owns one drops it by a call.
impl Drop for LeafTree {
    fn drop(self) {
        let LeafTree { leaves } = self;
        drop(leaves);
    }
}

impl Model for LeafTree {
    ghost use Rattle.std.specs.Prelude.{List};
    ghost use Rattle.df_column.specs.Blocks.{BlockParts};
    ghost use Rattle.df_column.specs.LeafTrees.{AreFull, leaves_in};

    ghost Value = { List (List BlockParts) };

    ghost view = { λ t. leaves_in t.leaves };

    ghost invariant = { λ t. AreFull (leaves_in t.leaves) };
}

/// How many leaves stand before the one with which the totals pass a test, or all, and what these add up to.
fn found_before<T: Test<Totals>>(leaves: &Seq<SharedLeaf>, test: &T) -> Before<Totals>
    requires { T.passes test.now no_totals ≡ false }
    ensures { IsBefore (T.passes test.now) (items_in leaves.now) result.count result.sum }
{
    match leaves.find_with_sum(test) {
        Some(found) => found,
        None => Before {
            count: leaves.len(),
            sum: leaves.measure(),
        },
    }
}

/// The leaves of two sequences, one behind the other.
fn joined_leaves(
    alloc: Global,
    front: &Option<Seq<SharedLeaf>>,
    behind: &Option<Seq<SharedLeaf>>,
) -> Result<Option<Seq<SharedLeaf>>, AllocError>
    ensures { IfOk result (λ o. leaves_in o ≡ leaves_in front.now ++ leaves_in behind.now) }
{
    match (front, behind) {
        (Some(front), Some(behind)) => Ok(Some(front.joined(alloc, behind)?)),
        (Some(only), None) | (None, Some(only)) => Ok(Some(only.copied(alloc)?)),
        (None, None) => Ok(None),
    }
}

/// Whether a leaf begins not behind a tag.
#[derive(Clone, Copy)]
struct Reaches(Tag);

impl Predicate<SharedLeaf> for Reaches {
    ghost holds = { λ p leaf. reaches p.0 leaf };

    fn holds(&self, leaf: &SharedLeaf) -> bool {
        leaf.first_tag() <= self.0
    }
}

impl LeafTree {
    /// No leaves.
    pub fn new() -> LeafTree
        ensures { result ≡ [] }
    {
        LeafTree { leaves: None }
    }

    /// A leaf alone.
    pub fn of_leaf(alloc: Global, leaf: Leaf) -> Result<LeafTree, AllocError>
        ensures { IfOk result (λ t. t ≡ leaf ∷ []) }
    {
        let leaf = SharedLeaf::new(alloc, leaf)?;
        let mut run = Vec::with_capacity(alloc, 1)?;
        run.push(leaf)?;
        let leaves = Some(Seq::from_items(alloc, run)?);
        Ok(LeafTree { leaves })
    }

    /// How many blocks there are, and how many rows they have, or 2^64 - 1 where there are more.
    pub fn totals(&self) -> Totals
        ensures totals { result ≡ totals_of (blocks_of_leaves self.now) }
        ensures full { AreFull (self.now) }
    {
        match &self.leaves {
            Some(leaves) => leaves.measure(),
            None => Totals { blocks: 0, rows: 0 },
        }
    }

    /// The same tree once more.
    fn share(&self, alloc: Global) -> Result<LeafTree, AllocError>
        ensures { IfOk result (λ t. t ≡ self.now) }
    {
        let leaves = match &self.leaves {
            Some(leaves) => Some(leaves.copied(alloc)?),
            None => None,
        };
        Ok(LeafTree { leaves })
    }

    /// The leaf at this index.
    fn leaf(&self, at: usize) -> &SharedLeaf
        requires { at < length (self.now) }
        ensures { slice_get (self.now) at ≡ Some result.now }
    {
        let Some(leaves) = &self.leaves else {
            unreachable!();
        };
        leaves.get(at)
    }

    /// How many leaves begin not behind the tag, and what they add up to.
    fn leaves_up_to(&self, tag: Tag) -> Before<Totals>
        requires { T (is_sorted tag_cmp (rows_of_blocks (blocks_of_leaves self.now))) }
        ensures place { IsPlace (reaches tag) (self.now) result.count }
        ensures sum { result.sum ≡ totals_of (blocks_of_leaves (take result.count (self.now))) }
        ensures full { AreFull (self.now) }
    {
        match &self.leaves {
            Some(leaves) => leaves.before(&Reaches(tag)),
            None => Before {
                count: 0,
                sum: Totals { blocks: 0, rows: 0 },
            },
        }
    }

    /// The tree with the leaves of another one behind it.
    pub fn joined(&self, alloc: Global, other: &LeafTree) -> Result<LeafTree, AllocError>
        ensures { IfOk result (λ t. t ≡ self.now ++ other.now) }
    {
        let leaves = joined_leaves(alloc, &self.leaves, &other.leaves)?;
        Ok(LeafTree { leaves })
    }

    /// As many of the first leaves as have at most so many blocks together, and how many blocks these have.
    pub fn first(&self, alloc: Global, most: usize) -> Result<(LeafTree, usize), AllocError>
        requires { rows_in (blocks_of_leaves self.now) ≤ 2 ^ 60 }
        ensures blocks { IfOk result (λ v. blocks_of_leaves v.0 ≡ take v.1 (blocks_of_leaves self.now)) }
        ensures within { IfOk result (λ v. v.1 ≤ length (blocks_of_leaves self.now)) }
        ensures most { IfOk result (λ v. v.1 ≤ most) }
    {
        let Some(leaves) = &self.leaves else {
            return Ok((LeafTree::new(), 0));
        };
        let found = found_before(leaves, &MoreBlocks(most));
        let leaves = Some(leaves.first(alloc, found.count)?);
        Ok((LeafTree { leaves }, found.sum.blocks))
    }

    /// The leaves that begin behind at least so many blocks, and how many blocks stand before them.
    pub fn behind(&self, alloc: Global, least: usize) -> Result<(LeafTree, usize), AllocError>
        requires few { rows_in (blocks_of_leaves self.now) ≤ 2 ^ 60 }
        requires in_range { least ≤ length (blocks_of_leaves self.now) }
        ensures blocks { IfOk result (λ v. blocks_of_leaves v.0 ≡ drop v.1 (blocks_of_leaves self.now)) }
        ensures within { IfOk result (λ v. v.1 ≤ length (blocks_of_leaves self.now)) }
        ensures least { IfOk result (λ v. least ≤ v.1) }
    {
        let Some(leaves) = &self.leaves else {
            return Ok((LeafTree::new(), 0));
        };
        if least == 0 {
            return Ok((self.share(alloc)?, 0));
        }
        let found = found_before(leaves, &MoreBlocks(least - 1));
        let end = found.sum.blocks + leaves.get(found.count).run().len();
        let leaves = Some(leaves.behind(alloc, found.count + 1)?);
        Ok((LeafTree { leaves }, end))
    }
}
