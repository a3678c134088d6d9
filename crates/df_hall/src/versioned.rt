//! A catalogue of which each change is published: what stands behind the lock of a hall.
ghost use Rattle.std.specs.Prelude.{◌≡◌, Some, IfOk, IfSome, OnErr, OnOk, length, option_map};
ghost use Rattle.df_state.specs.Desks.{AgreeWithBooks, desk_after};
ghost use Rattle.df_state.specs.FrameChanges.{change_of};
ghost use Rattle.df_state.specs.ViewChanges.{change_of_views};
ghost use Rattle.df_state.specs.declared.state.State.{State};
ghost use Rattle.df_hall.specs.Closing as closing;
ghost use Rattle.df_hall.specs.LastChanges.{AreOfLastStep, IsLastChange};
ghost use Rattle.df_versions.specs.Histories.{AreAllowed, IsHistoryOver, last_state};

use crate::closing::gather_audited;
use crate::entering::{check_ready, enter_rows, enter_views, report};
use df_catalogue::{Catalogue, Desk, FrameChange, ViewChange, ViewChanges};
use df_versions::{ChangeFault, Naming, Publisher, Told};
use std::alloc::{AllocError, Global};
use std::marker::Model;
use std::sync::Wait;
use std::sync::ledger::Ledger;

/// A catalogue, and what publishes its versions. Contracts see the history so far.
pub struct VersionedCatalogue<Acc: Ledger, Del: Ledger, J: Naming> {
    catalogue: Catalogue<Acc, Del>,
    publisher: Publisher<J>,
}

impl<Acc: Ledger, Del: Ledger, J: Naming> Model for VersionedCatalogue<Acc, Del, J> {
    ghost use Rattle.std.specs.Prelude.{◌≡◌, List, Some};
    ghost use Rattle.std.specs.Coded.{coded_list};
    ghost use Rattle.df_state.specs.declared.state.State.{State};
    ghost use Rattle.df_state.specs.contracts.state.State as state_type;
    ghost use Rattle.df_hall.specs.LastChanges.{AreOfLastStep};
    ghost use Rattle.df_versions.specs.Histories.{IsHistoryOver, last_state};

    ghost Value = { List State };

    ghost coded = { coded_list state_type.the_row.coded };

    ghost view = { λ v. v.publisher };

    // The history ends with the catalogue's state, and what the catalogue keeps of changes was done by its last step.
    ghost invariant = { λ v. (last_state v.publisher ≡ Some v.catalogue.state)
        × IsHistoryOver J.schemas v.publisher × AreOfLastStep v.publisher v.catalogue };
}

/// The calls that change the catalogue publish the version after the change, and answer the history up to it. Each takes
/// last what the caller was told before, if anything: at Ok it answers more states than that, at a refusal of the catalogue
/// no fewer, and where there are fewer states here [`ChangeFault::Ahead`].
impl<Acc: Ledger, Del: Ledger, J: Naming> VersionedCatalogue<Acc, Del, J> {
    ghost use Rattle.df_versions.specs.Answered.{AnswersChange, ChangesHistory, told_states};

    /// The catalogue, of whose state the last version was published.
    pub fn over(
        catalogue: Catalogue<Acc, Del>,
        publisher: Publisher<J>,
    ) -> VersionedCatalogue<Acc, Del, J>
        requires last { last_state publisher ≡ Some catalogue.state }
        requires over { IsHistoryOver J.schemas publisher }
        requires changes { AreOfLastStep publisher catalogue }
        ensures { result ≡ publisher }
    {
        VersionedCatalogue {
            catalogue,
            publisher,
        }
    }

    /// What [`VersionedCatalogue::over`] was given.
    pub fn into_parts(self) -> (Catalogue<Acc, Del>, Publisher<J>)
        ensures publisher { result.1 ≡ self }
        ensures state { last_state self ≡ Some result.0.state }
        ensures over { IsHistoryOver J.schemas self }
        ensures changes { AreOfLastStep self result.0 }
    {
        let VersionedCatalogue {
            catalogue,
            publisher,
        } = self;
        (catalogue, publisher)
    }

    /// How many states its history has.
    pub fn len(&self) -> u64
        ensures length { result ≡ length self.now }
        ensures over { IsHistoryOver J.schemas self.now }
        ensures allowed { AreAllowed J.allows self.now }
    {
        self.publisher.len()
    }

    /// How many groups the views finished at the last change of rows that was accepted, a measure of its work.
    pub fn finished_groups(&self) -> u128 {
        self.catalogue.work().finishes
    }

    /// From now on each view keeps what a change of rows does to its table, or keeps it no longer. What is kept now is
    /// forgotten.
    pub fn keep_changes(&mut self, keeps: bool)
        ensures same { self.new ≡ self.old }
    {
        self.catalogue.keep_changes(keeps);
    }

    /// What the last change of rows did to the view of this name, and its table after it. None where that is not kept, where
    /// anything changed since this was told, and where there is no such view.
    pub fn last_changes(
        &self,
        alloc: Global,
        name: &str,
        told: &Told<J>,
    ) -> Result<Option<ViewChanges>, AllocError>
        ensures { IfOk result (λ r. IfSome r (IsLastChange told.now name.now)) }
    {
        if !self.publisher.is_last(told) {
            return Ok(None);
        }
        self.catalogue.view_changes(alloc, name)
    }

    /// Waits until no reader is inside a step, and gives the catalogue back. Readers get no version from then on.
    pub fn end<R: Wait>(self, rt: &R) -> Catalogue<Acc, Del>
        ensures state { last_state self ≡ Some result.state }
        ensures over { IsHistoryOver J.schemas self }
    {
        let VersionedCatalogue {
            catalogue,
            publisher,
        } = self;
        publisher.end(rt);
        catalogue
    }

    /// Joins the desks to one for each frame, and audits them: over all frames they count no more than the books, and exactly
    /// these where they have every part. It takes no memory.
    pub fn gather(&mut self, desks: &mut Vec<Desk<Acc, Del>>)
        ensures same { self.new ≡ self.old }
        ensures joined { closing.AreJoined desks.old.items desks.new.items }
        ensures books { (s : State) → last_state self.old ≡ Some s → AgreeWithBooks desks.new.items s }
        ensures over { IsHistoryOver J.schemas self.old }
    {
        gather_audited(&mut self.catalogue, desks);
    }

    /// Changes the rows of the desk's frame, as [`Catalogue::append`], [`Catalogue::delete`] and
    /// [`Catalogue::replace`] do. The rows of a prepared chunk are added as those of a chunk.
    pub fn change_rows<R: Wait>(
        &mut self,
        rt: &R,
        alloc: Global,
        desk: &mut Desk<Acc, Del>,
        change: FrameChange,
        told: Option<&Told<J>>,
    ) -> Result<Told<J>, ChangeFault<J>>
        requires allowed { J.allows (change_of desk.old.frame change) }
        ensures answer { AnswersChange self.old (told_states (option_map (λ t. t.now) told.entry))
            (change_of desk.old.frame change.entry) result }
        ensures history { ChangesHistory self.old result self.new }
        ensures desk { OnOk result (desk.new ≡
            desk_after desk.old (change_of desk.old.frame change.entry)) }
        ensures same_desk { OnErr result (desk.new ≡ desk.old) }
        ensures over { IsHistoryOver J.schemas self.old }
    {
        check_ready(&self.publisher, told)?;
        match self.catalogue.stage_frame_change(alloc, desk, change) {
            Ok(staged) => enter_rows(
                &mut self.catalogue,
                &mut self.publisher,
                rt,
                alloc,
                desk,
                staged,
            ),
            Err(fault) => Err(report(&self.publisher, fault)),
        }
    }

    /// Changes the views, as [`Catalogue::register`] and [`Catalogue::drop_view`] do. The version without a
    /// view takes memory too.
    pub fn change_views<R: Wait>(
        &mut self,
        rt: &R,
        alloc: Global,
        change: ViewChange,
        told: Option<&Told<J>>,
    ) -> Result<Told<J>, ChangeFault<J>>
        requires allowed { J.allows (change_of_views change) }
        ensures answer { AnswersChange self.old (told_states (option_map (λ t. t.now) told.entry))
            (change_of_views change.entry) result }
        ensures history { ChangesHistory self.old result self.new }
        ensures over { IsHistoryOver J.schemas self.old }
    {
        check_ready(&self.publisher, told)?;
        match self.catalogue.stage_view_change(alloc, change) {
            Ok(staged) => enter_views(&mut self.catalogue, &mut self.publisher, rt, alloc, staged),
            Err(fault) => Err(report(&self.publisher, fault)),
        }
    }
}
