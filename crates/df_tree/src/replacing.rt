//! Items in the place of one, by the path to it.
ghost use Rattle.std.specs.Prelude.{◌≡◌, ◌<◌, ◌+◌, ◌++◌, IfOk, drop, length, take};
ghost use Rattle.df_tree.specs.Leaves.{items_in};
ghost use Rattle.df_tree.specs.Puts.{ArePut};

use crate::copying::{copied_parts, items_again};
use crate::item::Item;
use crate::joining::{gathered, push_items, push_parts};
use crate::seq::{Node, Seq};
use crate::spot::spot_at;
use std::alloc::{AllocError, Global};

/// Puts a leaf of these items behind the parts, with the given ones in the place of the one at an index.
fn push_replaced_items<I: Item>(
    alloc: Global,
    to: &mut Vec<Seq<I>>,
    leaf: &[I],
    index: usize,
    mut run: Vec<I>,
) -> Result<(), AllocError>
    requires within { index < length leaf.now }
    requires some { 0 < length run.items }
    ensures { IfOk result (λ _. ArePut 0 (take index leaf.now ++ (run.items ++ drop (index + 1) leaf.now)) to.old.items to.new.items) }
{
    let mut made = items_again(alloc, &leaf[..index])?;
    let mut rest = items_again(alloc, &leaf[index + 1..])?;
    made.append(&mut run)?;
    made.append(&mut rest)?;
    push_items(alloc, to, made)
}

/// Puts what holds these items behind the parts, with the given ones in the place of the one at an index.
fn push_replaced<I: Item>(
    alloc: Global,
    to: &mut Vec<Seq<I>>,
    seq: &Seq<I>,
    index: usize,
    run: Vec<I>,
) -> Result<(), AllocError>
    requires within { index < length (items_in seq.now) }
    requires some { 0 < length run.items }
    ensures { IfOk result (λ _. ArePut seq.now.1 (take index (items_in seq.now) ++ (run.items ++ drop (index + 1) (items_in seq.now))) to.old.items to.new.items) }
{
    let _ = seq.levels();
    match seq.node() {
        Node::Items(leaf, _) => push_replaced_items(alloc, to, leaf, index, run),
        Node::Parts(parts) => {
            let spot = spot_at(parts, index);
            let mut made = copied_parts(alloc, &parts[..spot.at])?;
            push_replaced(alloc, &mut made, &parts[spot.at], spot.rest, run)?;
            let mut rest = copied_parts(alloc, &parts[spot.at + 1..])?;
            made.append(&mut rest)?;
            push_parts(alloc, to, made)
        }
    }
}

impl<I: Item> Seq<I> {
    /// The sequence with these items, one at least, in the place of the one at an index. Only the nodes on the way there are new.
    pub fn replaced(&self, alloc: Global, index: usize, run: Vec<I>) -> Result<Seq<I>, AllocError>
        requires within { index < length (items_in self.now) }
        requires some { 0 < length run.items }
        ensures { IfOk result (λ k. items_in k ≡ take index (items_in self.now) ++ (run.items ++ drop (index + 1) (items_in self.now))) }
    {
        let mut made = Vec::with_capacity(alloc, 2)?;
        push_replaced(alloc, &mut made, self, index, run)?;
        gathered(alloc, made)
    }
}
