//! Full nodes are halved.
ghost use Rattle.std.specs.Prelude.{◌≡◌, ◌<◌, ◌≤◌, ◌+◌, ◌∷◌, ◌-◌, min, vec_capacity, [], MatchResult, length, vec_len, IfErr, IfOk};
ghost use Rattle.std.specs.Arc.{arc_value};
ghost use Rattle.df_tree.specs.Level.{AreLevel, IsHalved, IsLevel, IsLevelLink, MayBeHalved};
ghost use Rattle.df_tree.specs.Leaves.{alike_node, items, rank_above, rank_of, rank_of_link, leaves_of, leaves_of_link, leaves_of_parts, IsOwned, Kept};

use crate::copying::copied_node;
use crate::item::Item;
use crate::seq::{Link, Node, Seq};
use crate::totals::{count_of, measure_in, measure_of_items, rank_in};
use std::alloc::{AllocError, Global};
use std::mem::replace;
use std::sync::Arc;

/// At most so many items or parts are in a node that is not to be halved.
pub(crate) const WIDTH: usize = 8;

/// Moves the half of these items that is behind to a new part, with as much room.
pub(crate) fn halved_items<I: Item>(
    alloc: Global,
    items: &mut Vec<I>,
    reserved: usize,
) -> Result<Seq<I>, AllocError>
    requires { 2 ≤ length items.old.items }
    ensures { MatchResult result (λ k. IsHalved ((items.old.items, min reserved (vec_capacity items.old - vec_len items.old) + 1) ∷ []) ((items.new.items, min reserved (vec_capacity items.new - vec_len items.new) + 1) ∷ []) 0 k) (λ _. items.new ≡ items.old) }
{
    let mid = items.len() / 2;
    let mut made = Vec::with_capacity(alloc, items.capacity() - mid)?;
    let mut node = Box::new(alloc, Node::Items(Vec::new(alloc), 0))?;
    let mut tail = items.split_off(mid)?;
    let count = tail.len();
    let measure = measure_of_items(&tail);
    match made.append(&mut tail) {
        Ok(()) => {}
        Err(_) => unreachable!(),
    }
    *node = Node::Items(made, reserved);
    Ok(Seq {
        link: Link::Own(node),
        count,
        rank: 0,
        measure,
    })
}

/// Moves the half of these parts that is behind to a new part.
pub(crate) fn halved_parts<I: Item>(
    alloc: Global,
    parts: &mut Vec<Seq<I>>,
) -> Result<Seq<I>, AllocError>
    requires many { 2 ≤ length parts.old.items }
    requires level { AreLevel parts.old.items }
    requires few { rank_above parts.old.items < 64 }
    ensures halved { MatchResult result (λ k. IsHalved (leaves_of_parts parts.old.items) (leaves_of_parts parts.new.items) (rank_above parts.old.items) k) (λ _. parts.new.items ≡ parts.old.items) }
    ensures rank { rank_above parts.new.items ≡ rank_above parts.old.items }
    ensures level { AreLevel parts.new.items }
{
    let mid = parts.len() / 2;
    let Some(count) = count_of(&parts[mid..]) else {
        return Err(AllocError);
    };
    let mut node = Box::new(alloc, Node::Items(Vec::new(alloc), 0))?;
    let tail = parts.split_off(mid)?;
    let half = Node::Parts(tail);
    let rank = rank_in(&half);
    let measure = measure_in(&half);
    *node = half;
    Ok(Seq {
        link: Link::Own(node),
        count,
        rank,
        measure,
    })
}

/// Moves the half of a node that is behind to a new part, where the node is full.
pub(crate) fn halved_node<I: Item>(
    alloc: Global,
    node: &mut Node<I>,
) -> Result<Option<Seq<I>>, AllocError>
    requires level { IsLevel node.old }
    requires few { rank_of node.old < 64 }
    ensures halved { MayBeHalved result (leaves_of node.old) (leaves_of node.new) (rank_of node.old) }
    ensures rank { rank_of node.new ≡ rank_of node.old }
    ensures level { IsLevel node.new }
{
    match node {
        Node::Items(items, reserved) => {
            if items.len() < WIDTH {
                return Ok(None);
            }
            let second = halved_items(alloc, items, *reserved)?;
            Ok(Some(second))
        }
        Node::Parts(parts) => {
            if parts.len() < WIDTH {
                return Ok(None);
            }
            let second = halved_parts(alloc, parts)?;
            Ok(Some(second))
        }
    }
}

/// Halves the part at an index, where it is full.
pub(crate) fn halve_at<I: Item>(
    alloc: Global,
    parts: &mut Vec<Seq<I>>,
    at: usize,
) -> Result<(), AllocError>
    requires { at < vec_len parts.old }
    ensures kept { Kept (leaves_of_parts parts.old.items) (leaves_of_parts parts.new.items) }
    ensures rank { rank_above parts.new.items ≡ rank_above parts.old.items }
    ensures level { AreLevel parts.old.items → AreLevel parts.new.items }
{
    if !parts[at].is_full() {
        return Ok(());
    }
    parts.reserve(1)?;
    match parts[at].halved(alloc)? {
        None => Ok(()),
        Some(second) => match parts.insert(at + 1, second) {
            Ok(()) => Ok(()),
            Err(_) => unreachable!(),
        },
    }
}

/// Moves the node to where its owner edits it; where memory is refused it stays.
fn boxed_node<I: Item>(alloc: Global, node: &mut Node<I>) -> Result<Box<Node<I>>, AllocError>
    ensures { MatchResult result (λ b. b.value ≡ node.old) (λ _. node.new ≡ node.old) }
{
    let taken = replace(node, Node::Items(Vec::new(alloc), 0));
    match Box::new(alloc, taken) {
        Ok(own) => Ok(own),
        Err(failed) => {
            *node = failed.value;
            Err(AllocError)
        }
    }
}

/// The node, taken out where no other sequence has it, and else copied.
fn own_node<I: Item>(alloc: Global, node: &mut Arc<Node<I>>) -> Result<Box<Node<I>>, AllocError>
    requires { IsLevel (arc_value node.old) }
    ensures alike { IfOk result (λ b. alike_node b.value ≡ alike_node (arc_value node.old)) }
    ensures level { IfOk result (λ b. IsLevel b.value) }
    ensures stays { IfErr result (λ _. arc_value node.new ≡ arc_value node.old) }
{
    match Arc::get_mut(node) {
        Some(inner) => boxed_node(alloc, inner),
        None => {
            let copy = copied_node(alloc, node)?;
            Ok(Box::new(alloc, copy)?)
        }
    }
}

/// Makes the node behind this link one that is owned.
pub(crate) fn own<I: Item>(alloc: Global, link: &mut Link<I>) -> Result<(), AllocError>
    requires { IsLevelLink link.old }
    ensures kept { Kept (leaves_of_link link.old) (leaves_of_link link.new) }
    ensures rank { rank_of_link link.new ≡ rank_of_link link.old }
    ensures level { IsLevelLink link.new }
    ensures owned { IfOk result (λ _. IsOwned link.new) }
{
    if let Link::Shared(node) = link {
        let own = own_node(alloc, node)?;
        *link = Link::Own(own);
    }
    Ok(())
}

impl<I: Item> Seq<I> {
    /// Whether there are as many items or parts in the node as a node is to have at most.
    pub(crate) fn is_full(&self) -> bool {
        match self.node() {
            Node::Items(items, _) => items.len() >= WIDTH,
            Node::Parts(parts) => parts.len() >= WIDTH,
        }
    }

    /// Moves the half that is behind to a new part, where the node is full. A node that was shared is copied.
    pub(crate) fn halved(&mut self, alloc: Global) -> Result<Option<Seq<I>>, AllocError>
        ensures halved { MayBeHalved result self.old.0 self.new.0 self.old.1 }
        ensures rank { self.new.1 ≡ self.old.1 }
    {
        own(alloc, &mut self.link)?;
        match &mut self.link {
            Link::Own(node) => {
                let node: &mut Node<I> = node;
                let Some(second) = halved_node(alloc, node)? else {
                    return Ok(None);
                };
                self.count -= second.count;
                self.measure = measure_in(node);
                Ok(Some(second))
            }
            Link::Shared(_) => unreachable!(),
        }
    }
}
