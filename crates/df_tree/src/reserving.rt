//! Room that is reserved for edits in place.
ghost use Rattle.std.specs.Prelude.{◌≡◌, ◌<◌, ◌≤◌, ◌+◌, ◌^◌, ◌++◌, ◌∷◌, [], IfOk, length, vec_len, vec_capacity};
ghost use Rattle.df_tree.specs.Level.{IsLevel, IsPart};
ghost use Rattle.df_tree.specs.Leaves.{items, items_in, rank_of, leaves_of, IsReady, Kept, Reserved};

use crate::halving::{halve_at, own};
use crate::item::{Item, Monoid};
use crate::making::owned;
use crate::seq::{Link, Node, Seq};
use crate::spot::spot_at;
use std::alloc::{AllocError, Global};
use std::mem::replace;

/// Reserves room for one edit at the item at an index, from the parts of a node on.
#[cycle(reserve_below)]
pub(crate) fn reserve_in_node<I: Item>(
    node: &mut Node<I>,
    alloc: Global,
    index: usize,
) -> Result<(), AllocError>
    requires { index < length (items (leaves_of node.old)) }
    ensures kept { Kept (leaves_of node.old) (leaves_of node.new) }
    ensures rank { rank_of node.new ≡ rank_of node.old }
    ensures level { IsLevel node.old → IsLevel node.new }
    ensures reserved { IfOk result (λ _. Reserved (leaves_of node.old) (leaves_of node.new) index) }
{
    match node {
        Node::Items(items, reserved) => {
            let Some(wanted) = reserved.checked_add(1) else {
                return Err(AllocError);
            };
            items.reserve(wanted)?;
            *reserved = wanted;
            Ok(())
        }
        Node::Parts(parts) => {
            let full = spot_at(parts, index);
            halve_at(alloc, parts, full.at)?;
            let spot = spot_at(parts, index);
            parts[spot.at].reserve_below(alloc, spot.rest)
        }
    }
}

/// What a root over two parts needs.
struct Room<I: Item> {
    parts: Vec<Seq<I>>,
    root: Box<Node<I>>,
    empty: Seq<I>,
    ghost two: { vec_len parts + 2 ≤ vec_capacity parts },
    ghost none: { parts.items ≡ [] },
}

// By hand, so that a body which owns it drops it by a call, of which the proof is short.
impl<I: Item> Drop for Room<I> {
    fn drop(self) {
        let Room { parts, root, empty } = self;
        drop(parts);
        drop(root);
        drop(empty);
    }
}

impl<I: Item> Room<I> {
    fn new(alloc: Global) -> Result<Room<I>, AllocError> {
        let parts = Vec::with_capacity(alloc, 2)?;
        let root = Box::new(alloc, Node::Items(Vec::new(alloc), 0))?;
        let empty = owned(alloc, Node::Items(Vec::new(alloc), 0))?;
        Ok(Room { parts, root, empty })
    }

    /// Puts a root over a part and the second one, which was halved from it.
    fn put_over(self, seq: &mut Seq<I>, second: Seq<I>)
        requires first { 0 < length (items_in seq.old) }
        requires second { IsPart seq.old.1 second }
        requires low { seq.old.1 < 63 }
        requires fits { length (items (seq.old.0 ++ second.0)) < 2 ^ 64 }
        ensures kept { Kept (seq.old.0 ++ second.0) seq.new.0 }
        ensures rank { seq.new.1 ≡ seq.old.1 + 1 }
    {
        let Room {
            mut parts,
            mut root,
            empty,
        } = self;
        let count = seq.count + second.count;
        let rank = seq.rank + 1;
        let measure = seq.measure.plus(second.measure);
        let first = replace(seq, empty);
        put_two(&mut parts, first, second);
        *root = Node::Parts(parts);
        *seq = Seq {
            link: Link::Own(root),
            count,
            rank,
            measure,
        };
    }
}

/// Puts two parts in a vector that has room for them.
fn put_two<I: Item>(parts: &mut Vec<Seq<I>>, first: Seq<I>, second: Seq<I>)
    requires two { vec_len parts.old + 2 ≤ vec_capacity parts.old }
    requires none { parts.old.items ≡ [] }
    ensures { parts.new.items ≡ first ∷ second ∷ [] }
{
    match parts.push(first) {
        Ok(()) => {}
        Err(_) => unreachable!(),
    }
    match parts.push(second) {
        Ok(()) => {}
        Err(_) => unreachable!(),
    }
}

impl<I: Item> Seq<I> {
    /// Puts a root above, where the node is full.
    pub(crate) fn raise(&mut self, alloc: Global) -> Result<(), AllocError>
        ensures kept { Kept self.old.0 self.new.0 }
        ensures rank { self.new.1 ≤ self.old.1 + 1 }
    {
        if !self.is_full() || self.rank >= 63 {
            return Ok(());
        }
        let room = Room::new(alloc)?;
        match self.halved(alloc)? {
            None => drop(room),
            Some(second) => room.put_over(self, second),
        }
        Ok(())
    }

    /// Reserves room for one edit at the item at an index, below the root.
    #[cycle(reserve_below)]
    pub(crate) fn reserve_below(&mut self, alloc: Global, index: usize) -> Result<(), AllocError>
        requires { index < length (items_in self.old) }
        ensures kept { Kept self.old.0 self.new.0 }
        ensures rank { self.new.1 ≡ self.old.1 }
        ensures reserved { IfOk result (λ _. Reserved self.old.0 self.new.0 index) }
    {
        own(alloc, &mut self.link)?;
        match &mut self.link {
            Link::Own(node) => reserve_in_node(node, alloc, index),
            Link::Shared(_) => unreachable!(),
        }
    }

    /// Reserves room for one edit at the item at an index: the way there is owned, full nodes on it are halved,
    /// and there is memory for it in the leaf. Each plan that was ready still is.
    pub fn reserve_at(&mut self, alloc: Global, index: usize) -> Result<(), AllocError>
        requires { index < length (items_in self.old) }
        ensures kept { Kept self.old.0 self.new.0 }
        ensures rank { self.new.1 ≤ self.old.1 + 1 }
        ensures reserved { IfOk result (λ _. Reserved self.old.0 self.new.0 index) }
    {
        self.raise(alloc)?;
        self.reserve_below(alloc, index)
    }

    /// Reserves room for the first item, where there is none.
    pub fn reserve_first(&mut self, alloc: Global) -> Result<(), AllocError>
        requires { items_in self.old ≡ [] }
        ensures kept { items_in self.new ≡ [] }
        ensures reserved { IfOk result (λ _. IsReady self.new) }
    {
        let items = Vec::with_capacity(alloc, 1)?;
        *self = owned(alloc, Node::Items(items, 1))?;
        Ok(())
    }
}
