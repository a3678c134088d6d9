//! Edits in place, which take no memory and cannot be refused.
ghost use Rattle.std.specs.Prelude.{◌≡◌, ◌<◌, ◌≤◌, ◌+◌, ◌∷◌, ℕ, [], Some, length, slice_get, slice_set, vec_len};
ghost use Rattle.std.specs.List.{insert};
ghost use Rattle.df_tree.specs.Level.{AllButOne, AllParts, IsLevel, IsLowered, Stays};
ghost use Rattle.df_tree.specs.Leaves.{items, items_in, rank_of, room_at, leaves_of, leaves_of_parts, Edited, IsReady, Kept, Taken};

use crate::item::Item;
use crate::seq::{Link, Node, Seq};
use crate::spot::spot_at;
use crate::totals::{measure_in, rank_in};

/// Puts this item in place of the one at an index.
#[cycle(put)]
pub(crate) fn put_in_node<I: Item>(node: &mut Node<I>, index: usize, item: I)
    requires { 1 < room_at (leaves_of node.old) index }
    ensures edited { Edited (leaves_of node.old) (leaves_of node.new) index (λ xs i. slice_set xs i item) 1 }
    ensures rank { rank_of node.new ≡ rank_of node.old }
    ensures level { IsLevel node.old → IsLevel node.new }
{
    match node {
        Node::Items(items, reserved) => {
            items[index] = item;
            *reserved -= 1;
        }
        Node::Parts(parts) => {
            let spot = spot_at(parts, index);
            parts[spot.at].put(spot.rest, item);
        }
    }
}

/// Puts this item in, beside the one at an index.
#[cycle(put_in)]
pub(crate) fn insert_in_node<I: Item>(node: &mut Node<I>, index: usize, side: usize, item: I)
    requires room { 1 < room_at (leaves_of node.old) index }
    requires side { side ≤ 1 }
    requires fits { length (items (leaves_of node.old)) < usize.MAX }
    ensures edited { Edited (leaves_of node.old) (leaves_of node.new) index (λ xs i. insert xs (i + side) item) 1 }
    ensures rank { rank_of node.new ≡ rank_of node.old }
    ensures level { IsLevel node.old → IsLevel node.new }
{
    match node {
        Node::Items(items, reserved) => match items.insert(index + side, item) {
            Ok(()) => *reserved -= 1,
            Err(_) => unreachable!(),
        },
        Node::Parts(parts) => {
            let spot = spot_at(parts, index);
            parts[spot.at].put_in(spot.rest, side, item);
        }
    }
}

/// Takes the item at an index out.
#[cycle(take_at)]
pub(crate) fn take_from_node<I: Item>(node: &mut Node<I>, index: usize) -> I
    requires { 1 < room_at (leaves_of node.old) index }
    ensures taken { slice_get (items (leaves_of node.old)) index ≡ Some result }
    ensures gone { Taken (leaves_of node.old) (leaves_of node.new) index }
    ensures level { IsLevel node.old → IsLowered (rank_of node.old) node.new }
{
    match node {
        Node::Items(items, reserved) => {
            let item = items.remove(index);
            *reserved -= 1;
            item
        }
        Node::Parts(parts) => {
            let spot = spot_at(parts, index);
            let item = parts[spot.at].take_at(spot.rest);
            drop_empty(parts, spot.at);
            item
        }
    }
}

/// Puts the first item in an empty leaf.
pub(crate) fn put_first_in_node<I: Item>(node: &mut Node<I>, item: I)
    requires { IsReady (leaves_of node.old, rank_of node.old) }
    ensures items { items (leaves_of node.new) ≡ item ∷ [] }
    ensures rank { rank_of node.new ≡ 0 }
    ensures level { IsLevel node.new }
{
    match node {
        Node::Items(items, reserved) => match items.push(item) {
            Ok(()) => *reserved -= 1,
            Err(_) => unreachable!(),
        },
        Node::Parts(_) => unreachable!(),
    }
}

/// Drops the part at an index, where it has no items.
pub(crate) fn drop_empty<I: Item>(parts: &mut Vec<Seq<I>>, at: usize)
    requires { at < vec_len parts.old }
    ensures kept { Kept (leaves_of_parts parts.old.items) (leaves_of_parts parts.new.items) }
    ensures level { (r : ℕ) → AllButOne r at parts.old.items → AllParts r parts.new.items }
{
    if parts[at].len() == 0 {
        let _empty = parts.remove(at);
    }
}

impl<I: Item> Seq<I> {
    /// Puts this item in place of the one at an index. It takes no memory.
    #[cycle(put)]
    pub fn put(&mut self, index: usize, item: I)
        requires { 1 < room_at self.old.0 index }
        ensures edited { Edited self.old.0 self.new.0 index (λ xs i. slice_set xs i item) 1 }
        ensures rank { self.new.1 ≡ self.old.1 }
    {
        match &mut self.link {
            Link::Own(node) => {
                let node: &mut Node<I> = node;
                put_in_node(node, index, item);
                self.measure = measure_in(node);
            }
            Link::Shared(_) => unreachable!(),
        }
    }

    /// Puts this item in, before the one at an index (side 0) or behind it (side 1). It takes no memory.
    #[cycle(put_in)]
    pub fn put_in(&mut self, index: usize, side: usize, item: I)
        requires room { 1 < room_at self.old.0 index }
        requires side { side ≤ 1 }
        requires fits { length (items_in self.old) < usize.MAX }
        ensures edited { Edited self.old.0 self.new.0 index (λ xs i. insert xs (i + side) item) 1 }
        ensures rank { self.new.1 ≡ self.old.1 }
    {
        match &mut self.link {
            Link::Own(node) => {
                let node: &mut Node<I> = node;
                insert_in_node(node, index, side, item);
                self.count += 1;
                self.measure = measure_in(node);
            }
            Link::Shared(_) => unreachable!(),
        }
    }

    /// Takes the item at an index out. It takes no memory.
    #[cycle(take_at)]
    pub fn take_at(&mut self, index: usize) -> I
        requires { 1 < room_at self.old.0 index }
        ensures taken { slice_get (items_in self.old) index ≡ Some result }
        ensures gone { Taken self.old.0 self.new.0 index }
        ensures stays { Stays self.old.1 self.new.0 self.new.1 }
    {
        match &mut self.link {
            Link::Own(node) => {
                let node: &mut Node<I> = node;
                let item = take_from_node(node, index);
                self.count -= 1;
                self.rank = rank_in(node);
                self.measure = measure_in(node);
                item
            }
            Link::Shared(_) => unreachable!(),
        }
    }

    /// Puts the first item in. It takes no memory.
    pub fn put_first(&mut self, item: I)
        requires { IsReady self.old }
        ensures { items_in self.new ≡ item ∷ [] }
    {
        match &mut self.link {
            Link::Own(node) => {
                let node: &mut Node<I> = node;
                put_first_in_node(node, item);
                self.count = 1;
                self.measure = measure_in(node);
            }
            Link::Shared(_) => unreachable!(),
        }
    }
}
