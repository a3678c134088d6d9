//! A sequence of items as a tree of wide nodes.
ghost use Rattle.std.specs.Prelude.{◌≡◌, ◌-◌, ◌<◌, ℕ, Some, length, slice_get};
ghost use Rattle.std.specs.Option.{option_copied};
ghost use Rattle.df_tree.specs.Laws.{total};
ghost use Rattle.df_tree.specs.Level.{IsLevel};
ghost use Rattle.df_tree.specs.Leaves.{alike, alike_node, items_in};

use crate::item::Item;
use crate::spot::spot_at;
use std::marker::Model;
use std::sync::Arc;

/// A sequence of items: the way to a node, and how many items are in it, how many levels are below it and the measure of the
/// items. The parts of a node are sequences too. Contracts see the leaves, each with its items and its room, and the rank:
/// the levels below, by which a recursion ends.
#[cycle(seq)]
pub struct Seq<I: Item> {
    pub(crate) link: Link<I>,
    pub(crate) count: usize,
    pub(crate) rank: usize,
    pub(crate) measure: I::Measure,
}

/// The way to a node, which is owned, or shared with other sequences.
#[cycle(seq)]
pub(crate) enum Link<I: Item> {
    Own(Box<Node<I>>),
    Shared(Arc<Node<I>>),
}

/// Items with how many edits were reserved, or parts that hold them.
#[cycle(seq)]
pub(crate) enum Node<I: Item> {
    Items(Vec<I>, usize),
    Parts(Vec<Seq<I>>),
}

impl<I: Item> Model for Seq<I> {
    ghost use Rattle.std.specs.Prelude.{ℕ, List};

    ghost Value = { List (List I × ℕ) × ℕ };

    ghost use Rattle.df_tree.specs.Level.{IsSummed};
    ghost use Rattle.df_tree.specs.Leaves.{rank_of_link, leaves_of_link};

    ghost view = { λ k. (leaves_of_link k.link, rank_of_link k.link) };

    ghost invariant = { λ k. IsSummed I.Measure.none I.Measure.plus I.measure k.count k.rank k.measure (leaves_of_link k.link, rank_of_link k.link) k.link };

    ghost size = { λ v. v.1 };

    ghost use Rattle.std.proofs.Common.{arith};
    ghost use Rattle.df_tree.specs.Ranks.{rank_falls};

    ghost size_decreases = { λ k h. Prim.grind (arith, rank_falls) };
}

// By hand, so that a body which owns a part drops it by a call, of which the proof is short.
impl<I: Item> Drop for Seq<I> {
    #[cycle(seq_drop)]
    fn drop(self) {
        let Seq {
            link,
            count: _,
            rank: _,
            measure: _,
        } = self;
        drop(link);
    }
}

impl<I: Item> Drop for Link<I> {
    #[cycle(seq_drop)]
    fn drop(self) {
        match self {
            Link::Own(node) => drop(node),
            Link::Shared(node) => drop(node),
        }
    }
}

impl<I: Item> Drop for Node<I> {
    #[cycle(seq_drop)]
    fn drop(self) {
        match self {
            Node::Items(items, _) => drop(items),
            Node::Parts(parts) => drop(parts),
        }
    }
}

impl<I: Item> Seq<I> {
    /// How many items there are.
    pub fn len(&self) -> usize
        ensures { result ≡ length (items_in self.now) }
    {
        self.count
    }

    /// How many levels are below the root.
    pub fn levels(&self) -> usize
        ensures rank { result ≡ self.now.1 }
        ensures few { result < 64 }
    {
        self.rank
    }

    /// The measure of all items.
    pub fn measure(&self) -> I::Measure
        ensures { result ≡ total I.Measure.none I.Measure.plus I.measure (items_in self.now) }
    {
        self.measure
    }

    /// The items, or the parts that hold them.
    pub(crate) fn node(&self) -> &Node<I>
        ensures alike { alike_node result.now ≡ alike self.now }
        ensures level { IsLevel result.now }
    {
        match &self.link {
            Link::Own(node) => node,
            Link::Shared(node) => node,
        }
    }

    /// The item at this index.
    pub fn get(&self, index: usize) -> &I
        requires { index < length (items_in self.now) }
        ensures { slice_get (items_in self.now) index ≡ Some result.now }
    {
        match self.node() {
            Node::Items(items, _) => &items[index],
            Node::Parts(parts) => {
                let spot = spot_at(parts, index);
                parts[spot.at].get(spot.rest)
            }
        }
    }

    /// The last item, if there is one.
    pub fn last(&self) -> Option<&I>
        ensures { option_copied result ≡ slice_get (items_in self.now) (length (items_in self.now) - 1) }
    {
        if self.count == 0 {
            return None;
        }
        Some(self.get(self.count - 1))
    }
}
