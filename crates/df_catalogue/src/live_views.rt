//! The views follow a change of a frame: all of them prepare before any commits.
ghost use Rattle.std.specs.Prelude.{◌≡◌, ◌≤◌, ◌^◌, IfOk, OnOk, List, length};
ghost use Rattle.df_value.specs.Limits.{most_views};
ghost use Rattle.df_column.specs.Tables.{TaggedRows};
ghost use Rattle.df_delta.specs.Work.{IsBelow, IsWithin, no_work, plus};
ghost use Rattle.df_live.specs.Frames.{changed};
ghost use Rattle.df_live.specs.KeptDiffs.{IsKeptDiff};
ghost use Rattle.df_live.specs.Views.{HasRoomFor, IsChangeOf, IsLive, LeadsTo, most_work, value, work};
ghost use Rattle.df_catalogue.specs.KeptChanges.{AreKept};
ghost use Rattle.df_catalogue.specs.LiveViews.{AreChangesOf, AreLive, AreStaged, HaveRoom, changes_kept, changes_staged, headings, plans};
ghost use Rattle.df_catalogue.specs.Work.{work_of_all};

use crate::views::View;
use df_delta::Delta;
use df_expr::Meter;
use df_live::StagedView;
use std::alloc::{AllocError, Global};

// Prepares one view for the delta of a frame. The view stands as it stood, also where memory is refused.
fn prepare_view(
    view: &mut View,
    frame: usize,
    delta: &Delta,
    meter: &mut Meter,
    keeps: bool,
) -> Result<StagedView, AllocError>
    requires { IsBelow meter.old (2 ^ 127) }
    ensures name { view.new.name ≡ view.old.name }
    ensures plan { view.new.live.plan ≡ view.old.live.plan }
    ensures changes { view.new.live.changes ≡ view.old.live.changes }
    ensures live { (frames : List TaggedRows) → IsLive view.old.live frames → IsLive view.new.live frames }
    ensures staged { IfOk result (λ s. (frames : List TaggedRows) → IsLive view.old.live frames
        → IsChangeOf view.old.live.plan.frames frames frame delta.now
        → LeadsTo view.new.live s (changed frames frame delta.now)) }
    ensures room { IfOk result (λ s. HasRoomFor view.new.live s) }
    ensures bound { IsWithin meter.new (plus meter.old most_work) }
    ensures work { (frames : List TaggedRows) → IsLive view.old.live frames
        → IsChangeOf view.old.live.plan.frames frames frame delta.now
        → IsWithin meter.new (plus meter.old
        (work view.old.live.plan frames (changed frames frame delta.now))) }
    ensures kept { IfOk result (λ s. (frames : List TaggedRows) → IsLive view.old.live frames
        → IsChangeOf view.old.live.plan.frames frames frame delta.now
        → IsKeptDiff keeps (value view.old.live.plan frames)
        (value view.old.live.plan (changed frames frame delta.now)) s.changes) }
{
    view.live.prepare(frame, delta, meter, keeps)
}

// Puts what one view staged in place.
fn commit_view(view: &mut View, staged: StagedView)
    requires { HasRoomFor view.old.live staged }
    ensures name { view.new.name ≡ view.old.name }
    ensures plan { view.new.live.plan ≡ view.old.live.plan }
    ensures live { (frames : List TaggedRows) → LeadsTo view.old.live staged frames
        → IsLive view.new.live frames }
    ensures changes { view.new.live.changes ≡ staged.changes }
{
    view.live.commit(staged);
}

/// Prepares each view for the delta of a frame, and where `keeps` for keeping what it does to its table. The views stand as
/// they stood, also where memory is refused.
pub fn prepare_all(
    alloc: Global,
    views: &mut Vec<View>,
    frame: usize,
    delta: &Delta,
    meter: &mut Meter,
    keeps: bool,
) -> Result<Vec<StagedView>, AllocError>
    requires few { length views.old.items ≤ most_views }
    requires meter { meter.old ≡ no_work }
    ensures headings { headings views.new.items ≡ headings views.old.items }
    ensures live { (frames : List TaggedRows) → AreLive views.old.items frames
        → AreLive views.new.items frames }
    ensures count { IfOk result (λ s. length s.items ≡ length views.new.items) }
    ensures staged { IfOk result (λ s. (frames : List TaggedRows) → AreLive views.old.items frames
        → AreChangesOf views.old.items frames frame delta.now
        → AreStaged views.new.items s.items (changed frames frame delta.now)) }
    ensures room { IfOk result (λ s. HaveRoom views.new.items s.items) }
    ensures work { OnOk result ((frames : List TaggedRows) → AreLive views.old.items frames
        → AreChangesOf views.old.items frames frame delta.now
        → IsWithin meter.new
        (work_of_all (plans views.old.items) frames (changed frames frame delta.now))) }
    ensures changes { changes_kept views.new.items ≡ changes_kept views.old.items }
    ensures kept { IfOk result (λ s. (frames : List TaggedRows) → AreLive views.old.items frames
        → AreChangesOf views.old.items frames frame delta.now
        → AreKept keeps frames (changed frames frame delta.now) (plans views.old.items)
        (changes_staged s.items)) }
{
    prepare_each(alloc, views.as_mut_slice(), frame, delta, meter, keeps)
}

/// Puts in place what was staged for each view.
pub fn commit_all(views: &mut Vec<View>, staged: Vec<StagedView>)
    requires count { length staged.items ≡ length views.old.items }
    requires room { HaveRoom views.old.items staged.items }
    ensures headings { headings views.new.items ≡ headings views.old.items }
    ensures live { (frames : List TaggedRows) → AreStaged views.old.items staged.items frames
        → AreLive views.new.items frames }
    ensures changes { changes_kept views.new.items ≡ changes_staged staged.items }
{
    commit_each(views.as_mut_slice(), staged)
}

// Prepares each of the views.
fn prepare_each(
    alloc: Global,
    views: &mut [View],
    frame: usize,
    delta: &Delta,
    meter: &mut Meter,
    keeps: bool,
) -> Result<Vec<StagedView>, AllocError>
    requires few { length views.old ≤ most_views }
    requires meter { meter.old ≡ no_work }
    ensures headings { headings views.new ≡ headings views.old }
    ensures live { (frames : List TaggedRows) → AreLive views.old frames
        → AreLive views.new frames }
    ensures count { IfOk result (λ s. length s.items ≡ length views.new) }
    ensures staged { IfOk result (λ s. (frames : List TaggedRows) → AreLive views.old frames
        → AreChangesOf views.old frames frame delta.now
        → AreStaged views.new s.items (changed frames frame delta.now)) }
    ensures room { IfOk result (λ s. HaveRoom views.new s.items) }
    ensures work { OnOk result ((frames : List TaggedRows) → AreLive views.old frames
        → AreChangesOf views.old frames frame delta.now
        → IsWithin meter.new
        (work_of_all (plans views.old) frames (changed frames frame delta.now))) }
    ensures changes { changes_kept views.new ≡ changes_kept views.old }
    ensures kept { IfOk result (λ s. (frames : List TaggedRows) → AreLive views.old frames
        → AreChangesOf views.old frames frame delta.now
        → AreKept keeps frames (changed frames frame delta.now) (plans views.old)
        (changes_staged s.items)) }
{
    let mut staged = Vec::with_capacity(alloc, views.len())?;
    for at in 0..views.len() {
        let made = prepare_view(&mut views[at], frame, delta, meter, keeps)?;
        staged.push(made)?;
    }
    Ok(staged)
}

// Puts what was staged in place, from the last view to the first.
fn commit_each(views: &mut [View], staged: Vec<StagedView>)
    requires count { length staged.items ≡ length views.old }
    requires room { HaveRoom views.old staged.items }
    ensures headings { headings views.new ≡ headings views.old }
    ensures live { (frames : List TaggedRows) → AreStaged views.old staged.items frames
        → AreLive views.new frames }
    ensures changes { changes_kept views.new ≡ changes_staged staged.items }
{
    let mut staged = staged;
    while let Some(last) = staged.pop() {
        let at = staged.len();
        commit_view(&mut views[at], last);
    }
}
