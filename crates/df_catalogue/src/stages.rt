//! The staging of changes: all that may be refused, and all that takes memory. The state stays, and
//! so does the work.
ghost use Rattle.std.specs.Prelude.{◌≡◌, None, Ok, IfOk, IsSomeAnd, OnErr, OnOk};
ghost use Rattle.df_plan.specs.Checks.{plan_check};
ghost use Rattle.df_live.specs.Views.{IsLive};
ghost use Rattle.df_state.specs.declared.change.Change.TheVariants.{Append, Delete, Replace, Register, DropView};
ghost use Rattle.df_state.specs.Changes as changes;
ghost use Rattle.df_state.specs.FrameChanges as frame_changes;
ghost use Rattle.df_catalogue.specs.KeptChanges.{HasSameChanges};
ghost use Rattle.df_catalogue.specs.LiveViews.{tagged_frames};
ghost use Rattle.df_state.specs.Refusals.{refusal_of};
ghost use Rattle.df_catalogue.specs.StagedChanges.{IsStagedChange, IsStagedFor};
ghost use Rattle.df_state.specs.States.{IsLegal};
ghost use Rattle.df_state.specs.ViewChanges.{change_of_views};

use crate::catalogue::Catalogue;
use crate::live_views::prepare_all;
use crate::staged::{StagedRows, StagedViews};
use crate::staging::{StagedFrame, Staging, clear, stage};
use crate::views::{View, has_room};
use df_expr::Meter;
use df_frame::FrameChange;
use df_live::LiveView;
use df_plan::CheckedPlan;
use df_state::{CatalogueFault, Desk, ViewChange, shared_tables};
use df_value::{Chunk, Row, Text};
use std::alloc::{AllocError, Global};
use std::snapshot::Snapshot;
use std::sync::ledger::Ledger;

impl<Acc: Ledger, Del: Ledger> Catalogue<Acc, Del> {
    /// Makes [`append`](Catalogue::append) ready, in the place of what was staged before. It is
    /// refused as that call is, and then nothing is staged.
    pub fn stage_append(
        &mut self,
        alloc: Global,
        desk: &Desk<Acc, Del>,
        chunk: &Chunk,
    ) -> Result<StagedRows<Acc, Del>, CatalogueFault>
        ensures staged { IsStagedChange self.old (Append desk.now.frame chunk.now) result self.new }
        ensures token { IfOk result (λ token. token.catalogue.value ≡ self.new) }
    {
        self.stage_frame_change(alloc, desk, FrameChange::Append(chunk))
    }

    /// Makes [`delete`](Catalogue::delete) ready, in the place of what was staged before. It is
    /// refused as that call is, and then nothing is staged.
    pub fn stage_delete(
        &mut self,
        alloc: Global,
        desk: &Desk<Acc, Del>,
        numbers: &[u32],
    ) -> Result<StagedRows<Acc, Del>, CatalogueFault>
        ensures staged { IsStagedChange self.old (Delete desk.now.frame numbers.now) result self.new }
        ensures token { IfOk result (λ token. token.catalogue.value ≡ self.new) }
    {
        self.stage_frame_change(alloc, desk, FrameChange::Delete(numbers))
    }

    /// Makes [`replace`](Catalogue::replace) ready, in the place of what was staged before. It is
    /// refused as that call is, and then nothing is staged.
    pub fn stage_replace(
        &mut self,
        alloc: Global,
        desk: &Desk<Acc, Del>,
        rows: &[(u32, Row)],
    ) -> Result<StagedRows<Acc, Del>, CatalogueFault>
        ensures staged { IsStagedChange self.old (Replace desk.now.frame rows.now) result self.new }
        ensures token { IfOk result (λ token. token.catalogue.value ≡ self.new) }
    {
        self.stage_frame_change(alloc, desk, FrameChange::Replace(rows))
    }

    /// Makes [`register`](Catalogue::register) ready, in the place of what was staged before. It is
    /// refused as that call is, and then nothing is staged.
    pub fn stage_register(
        &mut self,
        alloc: Global,
        name: Text,
        plan: CheckedPlan,
    ) -> Result<StagedViews<Acc, Del>, CatalogueFault>
        ensures staged { IsStagedChange self.old (Register name plan) result self.new }
        ensures token { IfOk result (λ token. token.catalogue.value ≡ self.new) }
    {
        self.unstage();
        self.check_register(name.as_str(), &plan)?;
        let live = self.view_over(alloc, plan)?;
        Ok(self.stage_view(View { name, live })?)
    }

    /// Makes [`drop_view`](Catalogue::drop_view) ready, in the place of what was staged before. It
    /// is refused as that call is, and then nothing is staged. It takes no memory.
    pub fn stage_drop(&mut self, name: &str) -> Result<StagedViews<Acc, Del>, CatalogueFault>
        ensures staged { IsStagedChange self.old (DropView name.now) result self.new }
        ensures token { IfOk result (λ token. token.catalogue.value ≡ self.new) }
    {
        match self.view_index(name) {
            Some(at) => {
                stage(&mut self.staged, Staging::OldView(at));
                Ok(StagedViews {
                    catalogue: Snapshot::of(self),
                })
            }
            None => {
                clear(&mut self.staged);
                Err(CatalogueFault::NoView)
            }
        }
    }

    /// Makes a change of the views ready, in the place of what was staged before. It is refused as
    /// [`register`](Catalogue::register) or [`drop_view`](Catalogue::drop_view) is, and then nothing is
    /// staged.
    pub fn stage_view_change(
        &mut self,
        alloc: Global,
        change: ViewChange,
    ) -> Result<StagedViews<Acc, Del>, CatalogueFault>
        ensures staged { IsStagedChange self.old (change_of_views change.entry) result self.new }
        ensures token { IfOk result (λ token. token.catalogue.value ≡ self.new) }
    {
        match change {
            ViewChange::Register(name, plan) => self.stage_register(alloc, name, plan),
            ViewChange::Drop(name) => self.stage_drop(name),
        }
    }

    /// Makes a change of the rows of the desk's frame ready, in the place of what was staged before. It is
    /// refused as [`append`](Catalogue::append), [`delete`](Catalogue::delete) or
    /// [`replace`](Catalogue::replace) is, and then nothing is staged.
    pub fn stage_frame_change(
        &mut self,
        alloc: Global,
        desk: &Desk<Acc, Del>,
        change: FrameChange,
    ) -> Result<StagedRows<Acc, Del>, CatalogueFault>
        ensures staged { IsStagedChange self.old
            (frame_changes.change_of desk.now.frame change.entry)
            result self.new }
        ensures token { IfOk result (λ token. token.catalogue.value ≡ self.new) }
    {
        let frame = desk.frame();
        self.unstage();
        self.check_frame_change(alloc, frame, change)?;
        Ok(self.stage_rows(alloc, frame, change)?)
    }

    // Stages a change of a frame that is not refused.
    fn stage_rows(
        &mut self,
        alloc: Global,
        frame: usize,
        change: FrameChange,
    ) -> Result<StagedRows<Acc, Del>, AllocError>
        requires free { refusal_of self.old.state (frame_changes.change_of frame change) ≡ None }
        requires nothing { self.old.staged ≡ None }
        ensures state { self.new.state ≡ self.old.state }
        ensures work { self.new.work ≡ self.old.work }
        ensures kept { HasSameChanges self.old self.new }
        ensures legal { IsLegal self.new.state }
        ensures sound { OnOk result (changes.IsSound (frame_changes.change_of frame change.entry)) }
        ensures staged { OnOk result (IsSomeAnd self.new.staged
            (IsStagedFor self.old (frame_changes.change_of frame change.entry))) }
        ensures nothing { OnErr result (self.new.staged ≡ None) }
        ensures token { IfOk result (λ token. token.catalogue.value ≡ self.new) }
    {
        let accepted = change.accepted_rows();
        let deleted = change.deleted_rows();
        let (changed, delta) = self.frames[frame].changed(alloc, change)?;
        let mut work = Meter::new();
        let keeps = self.keeps;
        let views = prepare_all(alloc, &mut self.views, frame, delta.get(), &mut work, keeps)?;
        let rows = StagedFrame {
            frame,
            changed,
            views,
            work,
            accepted,
            deleted,
        };
        stage(&mut self.staged, Staging::Rows(rows));
        Ok(StagedRows {
            catalogue: Snapshot::of(self),
        })
    }

    // The view of a plan that was checked over these frames.
    fn view_over(&self, alloc: Global, plan: CheckedPlan) -> Result<LiveView, AllocError>
        requires { plan.frames ≡ self.now.state.schemas }
        ensures plan { IfOk result (λ live. live.plan ≡ plan) }
        ensures live { IfOk result (λ live. IsLive live (tagged_frames self.now.state.frames)) }
        ensures sound { plan_check plan.plan plan.frames ≡ Ok plan.schema }
        ensures legal { IsLegal self.now.state }
    {
        let tables = shared_tables(alloc, self.frames.as_slice())?;
        LiveView::new(alloc, plan, &tables)
    }

    // Stages a view that is not refused.
    fn stage_view(&mut self, view: View) -> Result<StagedViews<Acc, Del>, AllocError>
        requires free { refusal_of self.old.state (Register view.name view.live.plan) ≡ None }
        requires sound { plan_check view.live.plan.plan view.live.plan.frames ≡ Ok view.live.plan.schema }
        requires live { IsLive view.live (tagged_frames self.old.state.frames) }
        requires nothing { self.old.staged ≡ None }
        ensures state { self.new.state ≡ self.old.state }
        ensures work { self.new.work ≡ self.old.work }
        ensures kept { HasSameChanges self.old self.new }
        ensures legal { IsLegal self.new.state }
        ensures staged { OnOk result (IsSomeAnd self.new.staged
            (IsStagedFor self.old (Register view.name view.live.plan))) }
        ensures nothing { OnErr result (self.new.staged ≡ None) }
        ensures token { IfOk result (λ token. token.catalogue.value ≡ self.new) }
    {
        if !has_room(&mut self.views) {
            // A call costs the proof less than a drop at the end of a block.
            drop(view);
            return Err(AllocError);
        }
        stage(&mut self.staged, Staging::NewView(view));
        Ok(StagedViews {
            catalogue: Snapshot::of(self),
        })
    }

    // Drops what was staged.
    fn unstage(&mut self)
        ensures state { self.new.state ≡ self.old.state }
        ensures work { self.new.work ≡ self.old.work }
        ensures kept { HasSameChanges self.old self.new }
        ensures nothing { self.new.staged ≡ None }
        ensures legal { IsLegal self.new.state }
    {
        clear(&mut self.staged);
    }
}
