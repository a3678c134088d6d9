//! What a catalogue keeps of a change between its staging and its commit.
ghost use Rattle.std.specs.Prelude.{◌≡◌, None, Some};
ghost use Rattle.df_catalogue.specs.Staging as staging;

use crate::views::View;
use df_expr::Meter;
use df_frame::Frame;
use df_live::StagedView;

/// One frame after a change of its rows, what each view prepared for it, what the views counted, and
/// how many rows a desk is to count.
#[derive(Drop)]
pub struct StagedFrame {
    pub frame: usize,
    pub changed: Frame,
    pub views: Vec<StagedView>,
    pub work: Meter,
    pub accepted: u64,
    pub deleted: u64,
}

/// A change that awaits its commit.
#[derive(Drop)]
pub enum Staging {
    /// The rows of a frame change.
    Rows(StagedFrame),
    /// This view comes last.
    NewView(View),
    /// The view of this index goes.
    OldView(usize),
}

/// Stages a change in the place of what was staged.
pub fn stage(staged: &mut Option<Staging>, change: Staging)
    ensures { staged.new ≡ Some change }
{
    drop(staged.replace(change));
}

/// Drops what was staged.
pub fn clear(staged: &mut Option<Staging>)
    ensures { staged.new ≡ None }
{
    drop(staged.take());
}

/// Takes the staged change of rows out. Another change is dropped.
pub fn take_rows(staged: &mut Option<Staging>) -> Option<StagedFrame>
    ensures rows { result ≡ staging.rows_staged staged.old }
    ensures nothing { staged.new ≡ None }
{
    let change = staged.take()?;
    rows_in(change)
}

// The change of rows, if it is one.
fn rows_in(change: Staging) -> Option<StagedFrame>
    ensures { result ≡ staging.rows_in change }
{
    match change {
        Staging::Rows(rows) => Some(rows),
        Staging::NewView(view) => {
            // A call costs the proof less than a drop at the end of a block.
            drop(view);
            None
        }
        Staging::OldView(_) => None,
    }
}
