//! Where the sum of the measures first passes a test.
ghost use Rattle.std.specs.Prelude.{◌≡◌, ◌<◌, ◌^◌, Bool, MatchOption, length, true, false};
ghost use Rattle.df_tree.specs.Finds.{IsFirst, IsFirstWithSum, IsFound, IsReached};
ghost use Rattle.df_tree.specs.Laws.{total};
ghost use Rattle.df_tree.specs.Leaves.{items, items_in, leaves_of_parts};

use crate::item::{Item, Monoid};
use crate::seq::{Node, Seq};

/// A test of the sum of the items up to a place. Once it passes, it passes with more items too.
pub trait Test<M: Monoid> {
    ghost passes: { Self → M → Bool };

    /// Whether this sum passes.
    fn passes(&self, sum: M) -> bool
        ensures { result ≡ passes self.now sum };

    ghost stays: { (t : Self) (x y : M) → passes t x ≡ true → passes t (M.plus x y) ≡ true };
}

/// How many items stand before a place, and what these add up to.
#[derive(Clone, Copy)]
pub struct Before<M: Monoid> {
    pub count: usize,
    pub sum: M,
}

/// Where a test passes: in which part, behind how many items, and what these add up to.
#[derive(Clone, Copy)]
pub(crate) struct Reach<M: Monoid> {
    pub(crate) at: usize,
    pub(crate) skipped: usize,
    pub(crate) sum: M,
}

/// The part with which the sum passes.
fn reach_in<I: Item, T: Test<I::Measure>>(
    parts: &[Seq<I>],
    test: &T,
    before: I::Measure,
) -> Reach<I::Measure>
    requires settled { I.Measure.plus before I.Measure.none ≡ before }
    requires not_yet { T.passes test.now before ≡ false }
    requires some { T.passes test.now (I.Measure.plus before (total I.Measure.none I.Measure.plus I.measure (items (leaves_of_parts parts.now)))) ≡ true }
    requires fits { length (items (leaves_of_parts parts.now)) < 2 ^ 64 }
    ensures { IsReached I.Measure.none I.Measure.plus I.measure (T.passes test.now) before parts.now result.at result.skipped result.sum }
{
    let mut skipped: usize = 0;
    let mut sum = before;
    for (at, part) in parts.iter().enumerate() {
        let next = sum.plus(part.measure);
        if test.passes(next) {
            return Reach { at, skipped, sum };
        }
        skipped += part.count;
        sum = next;
    }
    unreachable!()
}

/// The items before the one with which the sum passes.
fn find_item<I: Item, T: Test<I::Measure>>(
    run: &[I],
    test: &T,
    before: I::Measure,
) -> Before<I::Measure>
    requires settled { I.Measure.plus before I.Measure.none ≡ before }
    requires not_yet { T.passes test.now before ≡ false }
    requires some { T.passes test.now (I.Measure.plus before (total I.Measure.none I.Measure.plus I.measure run.now)) ≡ true }
    ensures { IsFound I.Measure.none I.Measure.plus I.measure (T.passes test.now) before run.now result.count result.sum }
{
    let mut sum = before;
    for (at, item) in run.iter().enumerate() {
        let next = sum.plus(item.measure());
        if test.passes(next) {
            return Before { count: at, sum };
        }
        sum = next;
    }
    unreachable!()
}

impl<I: Item> Seq<I> {
    /// The items before the one with which the sum passes, where the sum of what is before these items is `before`.
    fn find_from<T: Test<I::Measure>>(&self, test: &T, before: I::Measure) -> Before<I::Measure>
        requires settled { I.Measure.plus before I.Measure.none ≡ before }
        requires not_yet { T.passes test.now before ≡ false }
        requires some { T.passes test.now (I.Measure.plus before (total I.Measure.none I.Measure.plus I.measure (items_in self.now))) ≡ true }
        ensures { IsFound I.Measure.none I.Measure.plus I.measure (T.passes test.now) before (items_in self.now) result.count result.sum }
    {
        let _ = self.len();
        match self.node() {
            Node::Items(leaf, _) => find_item(leaf, test, before),
            Node::Parts(parts) => {
                let reach = reach_in(parts, test, before);
                let found = parts[reach.at].find_from(test, reach.sum);
                Before {
                    count: reach.skipped + found.count,
                    sum: found.sum,
                }
            }
        }
    }

    /// The index of the first item up to and with which the sum of the measures passes, if there is one.
    pub fn find<T: Test<I::Measure>>(&self, test: &T) -> Option<usize>
        requires { T.passes test.now I.Measure.none ≡ false }
        ensures { MatchOption result
            (T.passes test.now (total I.Measure.none I.Measure.plus I.measure (items_in self.now)) ≡ false)
            (λ at. IsFirst I.Measure.none I.Measure.plus I.measure (T.passes test.now) (items_in self.now) at) }
    {
        match self.find_with_sum(test) {
            Some(found) => Some(found.count),
            None => None,
        }
    }

    /// How many items stand before the first one up to and with which the sum of the measures passes, if there is one, and
    /// what they add up to.
    pub fn find_with_sum<T: Test<I::Measure>>(&self, test: &T) -> Option<Before<I::Measure>>
        requires { T.passes test.now I.Measure.none ≡ false }
        ensures { MatchOption result
            (T.passes test.now (total I.Measure.none I.Measure.plus I.measure (items_in self.now)) ≡ false)
            (λ found. IsFirstWithSum I.Measure.none I.Measure.plus I.measure (T.passes test.now) (items_in self.now) found.count found.sum) }
    {
        if !test.passes(self.measure) {
            return None;
        }
        Some(self.find_from(test, I::Measure::none()))
    }
}
