//! Copies, which share what is shared.
ghost use Rattle.std.specs.Prelude.{◌≡◌, IfOk, map};
ghost use Rattle.df_tree.specs.Level.{IsLevel};
ghost use Rattle.df_tree.specs.Leaves.{alike, alike_node, items};

use crate::item::Item;
use crate::making::owned;
use crate::seq::{Link, Node, Seq};
use std::alloc::{AllocError, Global};
use std::sync::Arc;

/// The same items once more.
pub(crate) fn items_again<I: Item>(alloc: Global, items: &[I]) -> Result<Vec<I>, AllocError>
    ensures { IfOk result (λ v. v.items ≡ items.now) }
{
    let mut made = Vec::with_capacity(alloc, items.len())?;
    for item in items {
        made.push(item.share(alloc)?)?;
    }
    Ok(made)
}

/// The same parts once more.
#[cycle(copied)]
pub(crate) fn copied_parts<I: Item>(
    alloc: Global,
    parts: &[Seq<I>],
) -> Result<Vec<Seq<I>>, AllocError>
    ensures { IfOk result (λ v. map alike v.items ≡ map alike parts.now) }
{
    let mut made = Vec::with_capacity(alloc, parts.len())?;
    for part in parts {
        made.push(part.copied(alloc)?)?;
    }
    Ok(made)
}

/// The same node once more, where its parts may be copied.
#[cycle(copied)]
pub(crate) fn copied_node<I: Item>(alloc: Global, node: &Node<I>) -> Result<Node<I>, AllocError>
    requires { IsLevel node.now }
    ensures alike { IfOk result (λ n. alike_node n ≡ alike_node node.now) }
    ensures level { IfOk result (λ n. IsLevel n) }
{
    match node {
        Node::Items(items, _) => Ok(Node::Items(items_again(alloc, items)?, 0)),
        Node::Parts(parts) => Ok(Node::Parts(copied_parts(alloc, parts)?)),
    }
}

impl<I: Item> Seq<I> {
    /// The same items once more. Nodes behind owned links are copied.
    #[cycle(copied)]
    pub fn copied(&self, alloc: Global) -> Result<Seq<I>, AllocError>
        ensures { IfOk result (λ k. alike k ≡ alike self.now) }
    {
        match &self.link {
            Link::Own(node) => owned(alloc, copied_node(alloc, node)?),
            Link::Shared(node) => {
                let link = Link::Shared(Arc::try_clone(node)?);
                Ok(Seq {
                    link,
                    count: self.count,
                    rank: self.rank,
                    measure: self.measure,
                })
            }
        }
    }
}
