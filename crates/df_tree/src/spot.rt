//! Where an item stands in the parts of a node.
ghost use Rattle.std.specs.Prelude.{◌<◌, length};
ghost use Rattle.df_tree.specs.Leaves.{items, leaves_of_parts};
ghost use Rattle.df_tree.specs.Spots.{IsSpot};

use crate::item::Item;
use crate::seq::Seq;

/// Where an item stands: in which part, and behind how many items of it.
#[derive(Clone, Copy)]
pub(crate) struct Spot {
    pub(crate) at: usize,
    pub(crate) rest: usize,
}

/// Where the item at this index stands.
pub(crate) fn spot_at<I: Item>(parts: &[Seq<I>], index: usize) -> Spot
    requires { index < length (items (leaves_of_parts parts.now)) }
    ensures { IsSpot parts.now index result.at result.rest }
{
    let mut rest = index;
    for (at, part) in parts.iter().enumerate() {
        if rest < part.count {
            return Spot { at, rest };
        }
        rest -= part.count;
    }
    unreachable!()
}
