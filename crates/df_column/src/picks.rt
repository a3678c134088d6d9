//! The rows of a new block.
ghost use Rattle.std.specs.Prelude.{◌≡◌, ◌≤◌, ◌<◌, ◌+◌, false, length, slice_index_or, take};
ghost use Rattle.df_column.specs.Picks.{AreOld, is_old};

use crate::tag::Tag;
use df_value::Row;

/// Where a row of a new block comes from: the row at an index of the old block, or a new row.
#[derive(Clone, Copy)]
pub enum Origin<'a> {
    Old(usize),
    New(&'a Row),
}

/// A row of a new block.
#[derive(Clone, Copy)]
pub struct Pick<'a> {
    pub tag: Tag,
    pub origin: Origin<'a>,
}

/// Whether the pick is the old row this many rows behind the first one.
fn is_old_behind(pick: &Pick<'_>, first: usize, behind: usize) -> bool
    ensures { result ≡ is_old (first + behind) pick.now.origin }
{
    match pick.origin {
        Origin::Old(at) => at >= first && at - first == behind,
        Origin::New(_) => false,
    }
}

/// How many picks at the front are old rows that follow one another from this one on.
pub(crate) fn old_rows(picks: &[Pick<'_>], first: usize) -> usize
    ensures within { result ≤ length picks.now }
    ensures old { AreOld first (take result picks.now) }
    ensures all { (p : Pick) → result < length picks.now →
        is_old (first + result) (slice_index_or picks.now result p).origin ≡ false }
{
    for at in 0..picks.len() {
        if !is_old_behind(&picks[at], first, at) {
            return at;
        }
    }
    picks.len()
}
