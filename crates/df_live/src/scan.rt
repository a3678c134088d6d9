//! What a scan makes of a frame's delta.
ghost use Rattle.std.specs.Prelude.{◌≡◌, ◌<◌, List, length};
ghost use Rattle.df_column.specs.Tables.{TaggedRows};
ghost use Rattle.df_delta.specs.Differences.{Fits, IsDiff, IsLean};
ghost use Rattle.df_live.specs.Frames.{changed, frame_at};

use crate::tree_delta::TreeDelta;
use df_delta::Delta;
use std::alloc::Global;

/// The delta of the scanned frame: the given one where it is that frame's, else none.
pub fn scanned<'a>(alloc: Global, scanned: usize, frame: usize, delta: &'a Delta) -> TreeDelta<'a>
    ensures { (frames : List TaggedRows) → IsLean delta.now
        → Fits (frame_at frames frame) delta.now → frame < length frames
        → IsDiff (frame_at frames scanned)
        (frame_at (changed frames frame delta.now) scanned) result }
{
    if scanned == frame {
        TreeDelta::lent(delta)
    } else {
        TreeDelta::made(delta, Delta::empty(alloc))
    }
}
