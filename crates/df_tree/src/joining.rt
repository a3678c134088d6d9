//! Sequences one behind another: the lower one joins what is at that edge of the higher one.
ghost use Rattle.std.specs.Prelude.{◌≡◌, ◌<◌, ◌++◌, IfOk, length, max};
ghost use Rattle.df_tree.specs.Leaves.{items_in, items_of_parts, rank_above};
ghost use Rattle.df_tree.specs.Level.{AreLevel};
ghost use Rattle.df_tree.specs.Puts.{ArePut};

use crate::copying::{copied_parts, items_again};
use crate::halving::WIDTH;
use crate::item::Item;
use crate::making::shared;
use crate::seq::{Node, Seq};
use crate::totals::rank_over;
use std::alloc::{AllocError, Global};

/// Puts a leaf of these items behind the parts, or two leaves where they are too many for one.
pub(crate) fn push_items<I: Item>(
    alloc: Global,
    to: &mut Vec<Seq<I>>,
    mut run: Vec<I>,
) -> Result<(), AllocError>
    requires { 0 < length run.items }
    ensures { IfOk result (λ _. ArePut 0 run.items to.old.items to.new.items) }
{
    if run.len() <= WIDTH {
        let leaf = shared(alloc, Node::Items(run, 0))?;
        to.push(leaf)?;
        return Ok(());
    }
    let mid = run.len() / 2;
    let half = run.split_off(mid)?;
    let first = shared(alloc, Node::Items(run, 0))?;
    let second = shared(alloc, Node::Items(half, 0))?;
    to.push(first)?;
    to.push(second)?;
    Ok(())
}

/// Puts a node over these parts behind the others, or two nodes where they are too many for one and a root may stand above.
pub(crate) fn push_parts<I: Item>(
    alloc: Global,
    to: &mut Vec<Seq<I>>,
    mut parts: Vec<Seq<I>>,
) -> Result<(), AllocError>
    requires level { AreLevel parts.items }
    requires some { 0 < length parts.items }
    requires few { rank_above parts.items < 64 }
    ensures { IfOk result (λ _. ArePut (rank_above parts.items) (items_of_parts parts.items) to.old.items to.new.items) }
{
    if parts.len() <= WIDTH || rank_over(&parts) >= 63 {
        let node = shared(alloc, Node::Parts(parts))?;
        to.push(node)?;
        return Ok(());
    }
    let mid = parts.len() / 2;
    let half = parts.split_off(mid)?;
    let first = shared(alloc, Node::Parts(parts))?;
    let second = shared(alloc, Node::Parts(half))?;
    to.push(first)?;
    to.push(second)?;
    Ok(())
}

/// These parts as one: an empty one where there is none, the part itself where there is one, else a node over them.
pub(crate) fn gathered<I: Item>(alloc: Global, mut parts: Vec<Seq<I>>) -> Result<Seq<I>, AllocError>
    requires level { AreLevel parts.items }
    requires few { 1 < length parts.items → rank_above parts.items < 64 }
    ensures { IfOk result (λ k. items_in k ≡ items_of_parts parts.items) }
{
    if parts.len() > 1 {
        return shared(alloc, Node::Parts(parts));
    }
    match parts.pop() {
        Some(only) => Ok(only),
        None => shared(alloc, Node::Items(Vec::new(alloc), 0)),
    }
}

/// Puts these items and those behind them as leaves behind the parts.
fn join_items<I: Item>(
    alloc: Global,
    to: &mut Vec<Seq<I>>,
    front: &[I],
    behind: &[I],
) -> Result<(), AllocError>
    requires { 0 < length front.now }
    ensures { IfOk result (λ _. ArePut 0 (front.now ++ behind.now) to.old.items to.new.items) }
{
    let mut made = items_again(alloc, front)?;
    let mut rest = items_again(alloc, behind)?;
    made.append(&mut rest)?;
    push_items(alloc, to, made)
}

/// Puts nodes over these parts and those behind them, of the same rank, behind the others.
fn join_parts<I: Item>(
    alloc: Global,
    to: &mut Vec<Seq<I>>,
    front: &[Seq<I>],
    behind: &[Seq<I>],
) -> Result<(), AllocError>
    requires level { AreLevel front.now }
    requires others { AreLevel behind.now }
    requires some { 0 < length front.now }
    requires same { rank_above front.now ≡ rank_above behind.now }
    requires few { rank_above front.now < 64 }
    ensures { IfOk result (λ _. ArePut (rank_above front.now) (items_of_parts front.now ++ items_of_parts behind.now) to.old.items to.new.items) }
{
    let mut made = copied_parts(alloc, front)?;
    let mut rest = copied_parts(alloc, behind)?;
    made.append(&mut rest)?;
    push_parts(alloc, to, made)
}

/// Puts what holds the items of two sequences of the same rank behind the parts.
fn join_level<I: Item>(
    alloc: Global,
    to: &mut Vec<Seq<I>>,
    front: &Seq<I>,
    behind: &Seq<I>,
) -> Result<(), AllocError>
    requires same { front.now.1 ≡ behind.now.1 }
    requires some { 0 < length (items_in front.now) }
    requires more { 0 < length (items_in behind.now) }
    ensures { IfOk result (λ _. ArePut front.now.1 (items_in front.now ++ items_in behind.now) to.old.items to.new.items) }
{
    let _ = front.levels();
    match front.node() {
        Node::Items(leaf, _) => match behind.node() {
            Node::Items(more, _) => join_items(alloc, to, leaf, more),
            Node::Parts(_) => unreachable!(),
        },
        Node::Parts(parts) => match behind.node() {
            Node::Items(_, _) => unreachable!(),
            Node::Parts(more) => join_parts(alloc, to, parts, more),
        },
    }
}

/// Puts what holds these items behind the parts, where the sequence behind is lower.
#[cycle(join)]
fn join_last<I: Item>(
    alloc: Global,
    to: &mut Vec<Seq<I>>,
    front: &Seq<I>,
    behind: &Seq<I>,
) -> Result<(), AllocError>
    requires lower { behind.now.1 < front.now.1 }
    requires some { 0 < length (items_in behind.now) }
    ensures { IfOk result (λ _. ArePut front.now.1 (items_in front.now ++ items_in behind.now) to.old.items to.new.items) }
{
    let _ = front.levels();
    let Node::Parts(parts) = front.node() else {
        unreachable!()
    };
    let at = parts.len() - 1;
    let mut made = copied_parts(alloc, &parts[..at])?;
    join(alloc, &mut made, &parts[at], behind)?;
    push_parts(alloc, to, made)
}

/// Puts what holds these items behind the parts, where the sequence in front is lower.
#[cycle(join)]
fn join_first<I: Item>(
    alloc: Global,
    to: &mut Vec<Seq<I>>,
    front: &Seq<I>,
    behind: &Seq<I>,
) -> Result<(), AllocError>
    requires lower { front.now.1 < behind.now.1 }
    requires some { 0 < length (items_in front.now) }
    ensures { IfOk result (λ _. ArePut behind.now.1 (items_in front.now ++ items_in behind.now) to.old.items to.new.items) }
{
    let _ = behind.levels();
    let Node::Parts(parts) = behind.node() else {
        unreachable!()
    };
    let mut made = Vec::new(alloc);
    join(alloc, &mut made, front, &parts[0])?;
    let mut rest = copied_parts(alloc, &parts[1..])?;
    made.append(&mut rest)?;
    push_parts(alloc, to, made)
}

/// Puts one part or two behind the others, with the items of both sequences.
#[cycle(join)]
fn join<I: Item>(
    alloc: Global,
    to: &mut Vec<Seq<I>>,
    front: &Seq<I>,
    behind: &Seq<I>,
) -> Result<(), AllocError>
    requires some { 0 < length (items_in front.now) }
    requires more { 0 < length (items_in behind.now) }
    ensures { IfOk result (λ _. ArePut (max front.now.1 behind.now.1) (items_in front.now ++ items_in behind.now) to.old.items to.new.items) }
{
    let front_rank = front.levels();
    let rank = behind.levels();
    if rank < front_rank {
        return join_last(alloc, to, front, behind);
    }
    if front_rank < rank {
        return join_first(alloc, to, front, behind);
    }
    join_level(alloc, to, front, behind)
}

impl<I: Item> Seq<I> {
    /// These items and, behind them, those of another sequence. Only the nodes at the seam are new.
    pub fn joined(&self, alloc: Global, behind: &Seq<I>) -> Result<Seq<I>, AllocError>
        ensures { IfOk result (λ k. items_in k ≡ items_in self.now ++ items_in behind.now) }
    {
        if self.len() == 0 {
            return behind.copied(alloc);
        }
        if behind.len() == 0 {
            return self.copied(alloc);
        }
        let mut made = Vec::with_capacity(alloc, 2)?;
        join(alloc, &mut made, self, behind)?;
        gathered(alloc, made)
    }
}
