//! What a node stores of what it holds: count, rank and measure.
ghost use Rattle.std.specs.Prelude.{◌≡◌, ◌<◌, ◌^◌, IfSome, length};
ghost use Rattle.df_tree.specs.Laws.{total};
ghost use Rattle.df_tree.specs.Leaves.{items, rank_above, rank_of, leaves_of, leaves_of_parts};

use crate::item::{Item, Monoid};
use crate::seq::{Node, Seq};

/// How many items these parts have together; none where a `usize` cannot say.
pub(crate) fn count_of<I: Item>(parts: &[Seq<I>]) -> Option<usize>
    ensures { IfSome result (λ n. n ≡ length (items (leaves_of_parts parts.now))) }
{
    let mut count: usize = 0;
    for part in parts {
        count = count.checked_add(part.count)?;
    }
    Some(count)
}

/// The rank of a node over these parts.
pub(crate) fn rank_over<I: Item>(parts: &[Seq<I>]) -> usize
    ensures { result ≡ rank_above parts.now }
{
    let mut rank: usize = 0;
    for part in parts {
        rank = rank.max(part.rank + 1);
    }
    rank
}

/// The measure of all these parts.
pub(crate) fn measure_of<I: Item>(parts: &[Seq<I>]) -> I::Measure
    ensures { result ≡ total I.Measure.none I.Measure.plus I.measure (items (leaves_of_parts parts.now)) }
{
    let mut sum = I::Measure::none();
    for part in parts {
        sum = sum.plus(part.measure);
    }
    sum
}

/// The measure of these items.
pub(crate) fn measure_of_items<I: Item>(run: &[I]) -> I::Measure
    ensures { result ≡ total I.Measure.none I.Measure.plus I.measure run.now }
{
    match run {
        [] => I::Measure::none(),
        [first, behind @ ..] => first.measure().plus(measure_of_items(behind)),
    }
}

/// The measure of what a node holds.
pub(crate) fn measure_in<I: Item>(node: &Node<I>) -> I::Measure
    ensures { result ≡ total I.Measure.none I.Measure.plus I.measure (items (leaves_of node.now)) }
{
    match node {
        Node::Items(items, _) => measure_of_items(items),
        Node::Parts(parts) => measure_of(parts),
    }
}

/// How many items are in a node; none where a `usize` cannot say.
pub(crate) fn count_in<I: Item>(node: &Node<I>) -> Option<usize>
    ensures count { IfSome result (λ n. n ≡ length (items (leaves_of node.now))) }
    ensures fits { IfSome result (λ n. n < 2 ^ 64) }
{
    match node {
        Node::Items(items, _) => Some(items.len()),
        Node::Parts(parts) => count_of(parts),
    }
}

/// How many levels are below a node.
pub(crate) fn rank_in<I: Item>(node: &Node<I>) -> usize
    ensures { result ≡ rank_of node.now }
{
    match node {
        Node::Items(_, _) => 0,
        Node::Parts(parts) => rank_over(parts),
    }
}
