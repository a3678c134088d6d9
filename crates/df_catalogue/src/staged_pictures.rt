//! The picture of a catalogue once what is staged is committed.
ghost use Rattle.std.specs.Prelude.{◌≡◌, ◌<◌, ◌++◌, ◌∷◌, [], ℕ, IfOk, List, length, map, remove};
ghost use Rattle.std.specs.List.{AllZip};
ghost use Rattle.df_column.specs.Tables.{TaggedRows};
ghost use Rattle.df_frame.specs.FrameParts.{schemas_of, states_of};
ghost use Rattle.df_frame.specs.Frames.{IsFrame};
ghost use Rattle.df_catalogue.specs.LiveViews.{AreStaged, planned_rows};
ghost use Rattle.df_catalogue.specs.Parts.{state_of};
ghost use Rattle.df_state.specs.Pictures.{named_rows_in, next_state, picture_of};
ghost use Rattle.df_catalogue.specs.Staging.{IsStagedFrame, IsStaging, staged_state, state_with_rows};

use crate::catalogue::Catalogue;
use crate::pictured::{pictured_view, pictured_views};
use crate::staging::{StagedFrame, Staging};
use crate::views::View;
use df_frame::Frame;
use df_live::StagedView;
use df_state::{Picture, PicturedView, shared_tables};
use df_value::Duplicate;
use std::alloc::{AllocError, Global};
use std::sync::ledger::Ledger;

impl<Acc: Ledger, Del: Ledger> Catalogue<Acc, Del> {
    /// A picture of the frames and views once what is staged is committed, or as they are now where
    /// nothing is staged. It shares the blocks of the staged tables.
    pub fn next_picture(&self, alloc: Global) -> Result<Picture, AllocError>
        ensures { IfOk result (λ p. p ≡ picture_of (next_state self.now)) }
    {
        match &self.staged {
            Some(change) => {
                picture_after(alloc, self.frames.as_slice(), self.views.as_slice(), change)
            }
            None => self.picture(alloc),
        }
    }
}

fn picture_after(
    alloc: Global,
    frames: &[Frame],
    views: &[View],
    change: &Staging,
) -> Result<Picture, AllocError>
    requires { (capacity : ℕ) × IsStaging frames.now views.now capacity change.now }
    ensures { IfOk result (λ p. p ≡ picture_of (staged_state frames.now views.now change.now)) }
{
    match change {
        Staging::Rows(rows) => picture_with_rows(alloc, frames, views, rows),
        Staging::NewView(view) => picture_with_view(alloc, frames, views, view),
        Staging::OldView(at) => picture_without_view(alloc, frames, views, *at),
    }
}

fn picture_with_rows(
    alloc: Global,
    frames: &[Frame],
    views: &[View],
    rows: &StagedFrame,
) -> Result<Picture, AllocError>
    requires { IsStagedFrame frames.now views.now rows.now }
    ensures { IfOk result (λ p. p ≡ picture_of (state_with_rows frames.now views.now rows.now)) }
{
    let mut tables = shared_tables(alloc, frames)?;
    tables[rows.frame] = rows.changed.share(alloc)?;
    let views = staged_views(alloc, views, rows.views.as_slice())?;
    Ok(Picture::of(tables, views))
}

fn picture_with_view(
    alloc: Global,
    frames: &[Frame],
    views: &[View],
    view: &View,
) -> Result<Picture, AllocError>
    requires { AllZip IsFrame (schemas_of frames.now) (states_of frames.now) }
    ensures { IfOk result (λ p. p ≡ picture_of
        (state_of (schemas_of frames.now) (states_of frames.now) (views.now ++ view.now ∷ []))) }
{
    let tables = shared_tables(alloc, frames)?;
    let mut pictured = pictured_views(alloc, views)?;
    pictured.push(pictured_view(alloc, view)?)?;
    Ok(Picture::of(tables, pictured))
}

fn picture_without_view(
    alloc: Global,
    frames: &[Frame],
    views: &[View],
    at: usize,
) -> Result<Picture, AllocError>
    requires sound { AllZip IsFrame (schemas_of frames.now) (states_of frames.now) }
    requires within { at < length views.now }
    ensures { IfOk result (λ p. p ≡ picture_of
        (state_of (schemas_of frames.now) (states_of frames.now) (remove views.now at))) }
{
    let tables = shared_tables(alloc, frames)?;
    let mut pictured = pictured_views(alloc, views)?;
    drop(pictured.remove(at));
    Ok(Picture::of(tables, pictured))
}

// The views' names, with the tables that were staged for them.
fn staged_views(
    alloc: Global,
    views: &[View],
    staged: &[StagedView],
) -> Result<Vec<PicturedView>, AllocError>
    requires { length staged.now ≡ length views.now }
    ensures { IfOk result (λ pictured. (frames : List TaggedRows) → AreStaged views.now staged.now frames
        → map named_rows_in pictured.items ≡ map (planned_rows frames) views.now) }
{
    let mut pictured = Vec::with_capacity(alloc, views.len())?;
    for at in 0..views.len() {
        pictured.push(staged_view(alloc, &views[at], &staged[at])?)?;
    }
    Ok(pictured)
}

fn staged_view(alloc: Global, view: &View, staged: &StagedView) -> Result<PicturedView, AllocError>
    ensures name { IfOk result (λ p. p.name ≡ view.now.name) }
    ensures table { IfOk result (λ p. p.table ≡ staged.now.table) }
{
    let name = view.name.copy(alloc)?;
    let table = staged.table();
    let table = table.share(alloc)?;
    Ok(PicturedView { name, table })
}
