//! Sequences made of a node.
ghost use Rattle.std.specs.Prelude.{◌≡◌, ◌<◌, [], IfOk};
ghost use Rattle.df_tree.specs.Level.{IsLevel};
ghost use Rattle.df_tree.specs.Leaves.{alike, alike_node, items_in, leaves_of, rank_of};

use crate::item::Item;
use crate::seq::{Link, Node, Seq};
use crate::totals::{count_in, measure_in, rank_in};
use std::alloc::{AllocError, Global};
use std::sync::Arc;

/// A part that owns this node.
pub(crate) fn owned<I: Item>(alloc: Global, node: Node<I>) -> Result<Seq<I>, AllocError>
    requires level { IsLevel node }
    requires few { rank_of node < 64 }
    ensures { IfOk result (λ k. k ≡ (leaves_of node, rank_of node)) }
{
    let Some(count) = count_in(&node) else {
        return Err(AllocError);
    };
    let rank = rank_in(&node);
    let measure = measure_in(&node);
    let link = Link::Own(Box::new(alloc, node)?);
    Ok(Seq {
        link,
        count,
        rank,
        measure,
    })
}

/// A part that shares this node.
pub(crate) fn shared<I: Item>(alloc: Global, node: Node<I>) -> Result<Seq<I>, AllocError>
    requires level { IsLevel node }
    requires few { rank_of node < 64 }
    ensures { IfOk result (λ k. alike k ≡ alike_node node) }
{
    let Some(count) = count_in(&node) else {
        return Err(AllocError);
    };
    let rank = rank_in(&node);
    let measure = measure_in(&node);
    let link = Link::Shared(Arc::new(alloc, node)?);
    Ok(Seq {
        link,
        count,
        rank,
        measure,
    })
}

impl<I: Item> Seq<I> {
    /// A sequence of no items.
    pub fn empty(alloc: Global) -> Result<Seq<I>, AllocError>
        ensures { IfOk result (λ k. items_in k ≡ []) }
    {
        owned(alloc, Node::Items(Vec::new(alloc), 0))
    }
}
