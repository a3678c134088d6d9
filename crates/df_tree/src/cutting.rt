//! The items before a place, and those behind it.
ghost use Rattle.std.specs.Prelude.{◌≡◌, ◌<◌, IfOk, drop, take};
ghost use Rattle.df_tree.specs.Leaves.{items_in, items_of_parts, rank_above};
ghost use Rattle.df_tree.specs.Level.{AreLevel};

use crate::copying::{copied_parts, items_again};
use crate::halving::WIDTH;
use crate::item::Item;
use crate::joining::gathered;
use crate::making::shared;
use crate::seq::{Node, Seq};
use crate::spot::spot_at;
use std::alloc::{AllocError, Global};

/// The items of these parts, which are copied, as one.
fn gathered_copies<I: Item>(alloc: Global, parts: &[Seq<I>]) -> Result<Seq<I>, AllocError>
    requires level { AreLevel parts.now }
    requires few { rank_above parts.now < 64 }
    ensures { IfOk result (λ k. items_in k ≡ items_of_parts parts.now) }
{
    let made = copied_parts(alloc, parts)?;
    gathered(alloc, made)
}

impl<I: Item> Seq<I> {
    /// A sequence of these items.
    pub fn from_items(alloc: Global, mut run: Vec<I>) -> Result<Seq<I>, AllocError>
        ensures { IfOk result (λ k. items_in k ≡ run.items) }
    {
        if run.len() <= WIDTH {
            return shared(alloc, Node::Items(run, 0));
        }
        let mid = run.len() / 2;
        let half = run.split_off(mid)?;
        let first = Seq::from_items(alloc, run)?;
        let second = Seq::from_items(alloc, half)?;
        first.joined(alloc, &second)
    }

    /// The first so many items. What is shared of them stays so.
    pub fn first(&self, alloc: Global, count: usize) -> Result<Seq<I>, AllocError>
        ensures { IfOk result (λ k. items_in k ≡ take count (items_in self.now)) }
    {
        if self.len() <= count {
            return self.copied(alloc);
        }
        let _ = self.levels();
        match self.node() {
            Node::Items(leaf, _) => {
                let made = items_again(alloc, &leaf[..count])?;
                shared(alloc, Node::Items(made, 0))
            }
            Node::Parts(parts) => {
                let spot = spot_at(parts, count);
                let front = gathered_copies(alloc, &parts[..spot.at])?;
                let last = parts[spot.at].first(alloc, spot.rest)?;
                front.joined(alloc, &last)
            }
        }
    }

    /// The items behind so many. What is shared of them stays so.
    pub fn behind(&self, alloc: Global, count: usize) -> Result<Seq<I>, AllocError>
        ensures { IfOk result (λ k. items_in k ≡ drop count (items_in self.now)) }
    {
        if self.len() <= count {
            return shared(alloc, Node::Items(Vec::new(alloc), 0));
        }
        let _ = self.levels();
        match self.node() {
            Node::Items(leaf, _) => {
                let made = items_again(alloc, &leaf[count..])?;
                shared(alloc, Node::Items(made, 0))
            }
            Node::Parts(parts) => {
                let spot = spot_at(parts, count);
                let first = parts[spot.at].behind(alloc, spot.rest)?;
                let back = gathered_copies(alloc, &parts[spot.at + 1..])?;
                first.joined(alloc, &back)
            }
        }
    }
}
