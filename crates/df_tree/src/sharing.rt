//! Sequences whose nodes are all shared, which a copy takes as they are.
ghost use Rattle.std.specs.Prelude.{◌≡◌, ℕ, MatchResult, OnOk, map};
ghost use Rattle.std.specs.Arc.{arc_value};
ghost use Rattle.df_tree.specs.Level.{IsLevel};
ghost use Rattle.df_tree.specs.Leaves.{alike, alike_node, room_at};

use crate::item::Item;
use crate::seq::{Link, Node, Seq};
use std::alloc::{AllocError, Global};
use std::mem::replace;
use std::sync::Arc;

/// Moves the node to where it can be shared; where memory is refused it stays.
fn moved_node<I: Item>(alloc: Global, node: &mut Node<I>) -> Result<Arc<Node<I>>, AllocError>
    ensures { MatchResult result (λ c. arc_value c ≡ node.old) (λ _. node.new ≡ node.old) }
{
    let taken = replace(node, Node::Items(Vec::new(alloc), 0));
    match Arc::new(alloc, taken) {
        Ok(shared) => Ok(shared),
        Err(failed) => {
            *node = failed.value;
            Err(AllocError)
        }
    }
}

/// Shares the nodes of these parts.
#[cycle(make_shared)]
fn share_parts<I: Item>(alloc: Global, parts: &mut Vec<Seq<I>>) -> Result<(), AllocError>
    ensures { map alike parts.new.items ≡ map alike parts.old.items }
{
    let count = parts.len();
    for at in 0..count {
        parts[at].make_shared(alloc)?;
    }
    Ok(())
}

/// Shares the nodes below this one.
#[cycle(make_shared)]
fn share_below<I: Item>(alloc: Global, node: &mut Node<I>) -> Result<(), AllocError>
    ensures alike { alike_node node.new ≡ alike_node node.old }
    ensures level { IsLevel node.old → IsLevel node.new }
{
    match node {
        Node::Items(_, _) => Ok(()),
        Node::Parts(parts) => share_parts(alloc, parts),
    }
}

impl<I: Item> Seq<I> {
    /// Shares each node that is owned, so that a copy takes all of them as they are. Room that was reserved is given back. What
    /// was shared is not walked.
    #[cycle(make_shared)]
    pub fn make_shared(&mut self, alloc: Global) -> Result<(), AllocError>
        ensures alike { alike self.new ≡ alike self.old }
        ensures shared { OnOk result ((index : ℕ) → room_at self.new.0 index ≡ 0) }
    {
        match &mut self.link {
            Link::Own(node) => {
                let node: &mut Node<I> = node;
                share_below(alloc, node)?;
                let shared = moved_node(alloc, node)?;
                self.link = Link::Shared(shared);
                Ok(())
            }
            Link::Shared(_) => Ok(()),
        }
    }
}
