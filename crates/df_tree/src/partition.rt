//! Items that a predicate holds for, where it holds for those before a place and for none behind it.
ghost use Rattle.std.specs.Prelude.{◌≡◌, ◌++◌, ◌<◌, ◌^◌, Bool, List, false, length, true};
ghost use Rattle.std.specs.List.{filter, AllByRecursion};
ghost use Rattle.df_tree.specs.Laws.{total};
ghost use Rattle.df_tree.specs.Leaves.{items, items_in, leaves_of_parts};
ghost use Rattle.df_tree.specs.Partitions.{IsBoundary, IsPartitioned, IsPlace, IsPlaceWithSum};

use crate::finding::{Before, Reach};
use crate::item::{Item, Monoid};
use crate::seq::{Node, Seq};

/// A predicate over items.
pub trait Predicate<I> {
    ghost holds: { Self → I → Bool };

    /// Whether it holds for this item.
    fn holds(&self, item: &I) -> bool
        ensures { result ≡ holds self.now item.now };
}

/// Whether the predicate holds for all items. It is asked for the last one alone.
fn holds_for_all<I: Item, P: Predicate<I>>(seq: &Seq<I>, predicate: &P) -> bool
    requires { IsPartitioned (P.holds predicate.now) (items_in seq.now) }
    ensures all { result ≡ true → AllByRecursion (λ x. P.holds predicate.now x ≡ true) (items_in seq.now) }
    ensures none_behind { result ≡ false → (xs : List I) → IsPartitioned (P.holds predicate.now) (items_in seq.now ++ xs)
        → AllByRecursion (λ x. P.holds predicate.now x ≡ false) xs }
{
    match seq.last() {
        Some(last) => predicate.holds(last),
        None => true,
    }
}

/// The first of the parts whose last item the predicate does not hold for, or the end of the parts.
fn boundary_in<I: Item, P: Predicate<I>>(parts: &[Seq<I>], predicate: &P) -> Reach<I::Measure>
    requires partitioned { IsPartitioned (P.holds predicate.now) (items (leaves_of_parts parts.now)) }
    requires fits { length (items (leaves_of_parts parts.now)) < 2 ^ 64 }
    ensures { IsBoundary I.Measure.none I.Measure.plus I.measure (P.holds predicate.now) parts.now result.at result.skipped result.sum }
{
    let mut skipped: usize = 0;
    let mut sum = I::Measure::none();
    for (at, part) in parts.iter().enumerate() {
        if !holds_for_all(part, predicate) {
            return Reach { at, skipped, sum };
        }
        skipped += part.count;
        sum = sum.plus(part.measure);
    }
    Reach {
        at: parts.len(),
        skipped,
        sum,
    }
}

/// The items of a leaf that the predicate holds for.
fn before_in_leaf<I: Item, P: Predicate<I>>(run: &[I], predicate: &P) -> Before<I::Measure>
    requires { IsPartitioned (P.holds predicate.now) run.now }
    ensures { IsPlaceWithSum I.Measure.none I.Measure.plus I.measure (P.holds predicate.now) run.now result.count result.sum }
{
    let mut sum = I::Measure::none();
    for (at, item) in run.iter().enumerate() {
        if !predicate.holds(item) {
            return Before { count: at, sum };
        }
        sum = sum.plus(item.measure());
    }
    Before {
        count: run.len(),
        sum,
    }
}

impl<I: Item> Seq<I> {
    /// How many items the predicate holds for, where it holds for no item behind one for which it does not hold, and what
    /// they add up to.
    pub fn before<P: Predicate<I>>(&self, predicate: &P) -> Before<I::Measure>
        requires { IsPartitioned (P.holds predicate.now) (items_in self.now) }
        ensures { IsPlaceWithSum I.Measure.none I.Measure.plus I.measure (P.holds predicate.now) (items_in self.now) result.count result.sum }
    {
        let _ = self.len();
        match self.node() {
            Node::Items(leaf, _) => before_in_leaf(leaf, predicate),
            Node::Parts(parts) => {
                let reach = boundary_in(parts, predicate);
                if reach.at == parts.len() {
                    return Before {
                        count: reach.skipped,
                        sum: reach.sum,
                    };
                }
                let within = parts[reach.at].before(predicate);
                Before {
                    count: reach.skipped + within.count,
                    sum: reach.sum.plus(within.sum),
                }
            }
        }
    }

    /// How many items the predicate holds for, where it holds for no item behind one for which it does not hold.
    pub fn partition_point<P: Predicate<I>>(&self, predicate: &P) -> usize
        requires { IsPartitioned (P.holds predicate.now) (items_in self.now) }
        ensures { IsPlace (P.holds predicate.now) (items_in self.now) result }
    {
        self.before(predicate).count
    }

    /// The measure of the items that the predicate holds for, where it holds for no item behind one for which it does not hold.
    pub fn measure_before<P: Predicate<I>>(&self, predicate: &P) -> I::Measure
        requires { IsPartitioned (P.holds predicate.now) (items_in self.now) }
        ensures { result ≡ total I.Measure.none I.Measure.plus I.measure (filter (P.holds predicate.now) (items_in self.now)) }
    {
        self.before(predicate).sum
    }
}
