//! The hall: a lock round a catalogue that publishes its versions.
ghost use Rattle.std.specs.Prelude.{◌≡◌, [], None, IfErr, IfOk, IfSome, OnErr, OnOk, Some, length, option_map};
ghost use Rattle.df_state.specs.declared.change.Change.TheVariants.{Append, Delete, DropView, Register, Replace};
ghost use Rattle.df_state.specs.Desks.{AgreeWithBooks, desk_after, having_accepted, having_deleted};
ghost use Rattle.df_state.specs.FrameChanges.{change_of};
ghost use Rattle.df_state.specs.States.{IsLegal};
ghost use Rattle.df_state.specs.ViewChanges.{change_of_views};
ghost use Rattle.df_hall.specs.Closing as closing;
ghost use Rattle.df_hall.specs.Halls.{AnswersOverHistory};
ghost use Rattle.df_hall.specs.LastChanges.{AreOfLastStep, IsLastChange};
ghost use Rattle.df_hall.specs.Rooms.{HasRoomFor, Holds};
ghost use Rattle.df_value.specs.Limits as limits;
ghost use Rattle.df_versions.specs.Answered.{told_states};
ghost use Rattle.df_versions.specs.Histories.{IsHistoryOver, IsLastStateBy, last_state};

use crate::closing::{Unsettled, settle};
use crate::totals::{Totals, TotalsRoom};
use crate::versioned::VersionedCatalogue;
use df_catalogue::{Catalogue, Desk, FrameChange, ViewChange, ViewChanges};
use df_plan::CheckedPlan;
use df_value::{Chunk, Row, Text};
use df_versions::{ChangeFault, Naming, Publisher, Told};
use std::alloc::{AllocError, Global};
use std::sync::ledger::Ledger;
use std::sync::{Mutex, MutexGuard, Wait};

/// A catalogue behind a lock, of which each change publishes a version. What is under the lock is a
/// [`VersionedCatalogue`], so its state is legal, its books are those of the state, and its history ends with the state:
/// the lock needs no fact of its own. An [`OpenedHall`](crate::OpenedHall) makes it.
///
/// Threads share a hall by reference. Each call holds the lock from its first step to its last, so
/// that calls come one after another, and nobody sees half of a change. A hall ends by a [`Hall::close`] that is not
/// refused or by [`Hall::end`], which wait until no reader is inside a step.
pub struct Hall<Acc: Ledger, Del: Ledger, J: Naming> {
    catalogue: Mutex<VersionedCatalogue<Acc, Del, J>>,
    // For the totals of a close, which takes no memory.
    room: TotalsRoom,
    ghost room_for_all: { HasRoomFor limits.most_frames room },
    ghost empty_room: { Holds room [] },
}

/// A hall that was not closed: the shares of the desks are not the books of a frame.
pub struct Missing<Acc: Ledger, Del: Ledger, J: Naming> {
    /// The least frame of which the gathered shares are not the books.
    pub frame: usize,
    /// The hall, as it was.
    pub hall: Hall<Acc, Del, J>,
    /// Everything that the given desks had, in one desk for each frame of which any was given.
    pub desks: Vec<Desk<Acc, Del>>,
    /// The history of the hall, of the last state of which the shares are not the books.
    pub told: Told<J>,
}

/// The calls that change the catalogue take last what the caller was told before, if anything, and answer the history up
/// to their own change, which is longer than that, or up to the state that refused it, which is no shorter; where the
/// hall's history is shorter, [`ChangeFault::Ahead`]. The history's name allows the change, and a body finds no other one
/// allowed: so no call makes another change than its caller's, whatever it does under the lock.
impl<Acc: Ledger, Del: Ledger, J: Naming> Hall<Acc, Del, J> {
    /// Appends the chunk to the desk's frame, and every view follows. The desk's share grows by the
    /// chunk's rows, and at a refusal stays as it was.
    pub fn commit_chunk<R: Wait>(
        &self,
        rt: &R,
        alloc: Global,
        desk: &mut Desk<Acc, Del>,
        chunk: &Chunk,
        told: Option<&Told<J>>,
    ) -> Result<Told<J>, ChangeFault<J>>
        requires allowed { J.allows (Append desk.old.frame chunk.now) }
        ensures answer { AnswersOverHistory J.schemas (told_states (option_map (λ t. t.now) told.entry))
            (Append desk.old.frame chunk.now) result }
        ensures share { OnOk result
            (desk.new ≡ having_accepted (length chunk.now.rows) desk.old) }
        ensures same_share { OnErr result (desk.new ≡ desk.old) }
    {
        self.change_rows(rt, alloc, desk, FrameChange::Append(chunk), told)
    }

    /// Takes the rows of these numbers out of the desk's frame, and every view follows. The desk's
    /// share of the deleted rows grows by as many, and at a refusal stays as it was.
    pub fn delete_rows<R: Wait>(
        &self,
        rt: &R,
        alloc: Global,
        desk: &mut Desk<Acc, Del>,
        numbers: &[u32],
        told: Option<&Told<J>>,
    ) -> Result<Told<J>, ChangeFault<J>>
        requires allowed { J.allows (Delete desk.old.frame numbers.now) }
        ensures answer { AnswersOverHistory J.schemas (told_states (option_map (λ t. t.now) told.entry))
            (Delete desk.old.frame numbers.now) result }
        ensures share { OnOk result
            (desk.new ≡ having_deleted (length numbers.now) desk.old) }
        ensures same_share { OnErr result (desk.new ≡ desk.old) }
    {
        self.change_rows(rt, alloc, desk, FrameChange::Delete(numbers), told)
    }

    /// Puts each row in the place of the row of its number in the desk's frame, and every view
    /// follows. No share changes.
    pub fn replace_rows<R: Wait>(
        &self,
        rt: &R,
        alloc: Global,
        desk: &mut Desk<Acc, Del>,
        rows: &[(u32, Row)],
        told: Option<&Told<J>>,
    ) -> Result<Told<J>, ChangeFault<J>>
        requires allowed { J.allows (Replace desk.old.frame rows.now) }
        ensures answer { AnswersOverHistory J.schemas (told_states (option_map (λ t. t.now) told.entry))
            (Replace desk.old.frame rows.now) result }
        ensures same_share { desk.new ≡ desk.old }
    {
        self.change_rows(rt, alloc, desk, FrameChange::Replace(rows), told)
    }

    /// Adds a view of this name and plan last.
    pub fn register<R: Wait>(
        &self,
        rt: &R,
        alloc: Global,
        name: Text,
        plan: CheckedPlan,
        told: Option<&Told<J>>,
    ) -> Result<Told<J>, ChangeFault<J>>
        requires allowed { J.allows (Register name plan) }
        ensures { AnswersOverHistory J.schemas (told_states (option_map (λ t. t.now) told.entry))
            (Register name plan) result }
    {
        self.change_views(rt, alloc, ViewChange::Register(name, plan), told)
    }

    /// Takes the view of this name out. The version without it takes memory.
    pub fn drop_view<R: Wait>(
        &self,
        rt: &R,
        alloc: Global,
        name: &str,
        told: Option<&Told<J>>,
    ) -> Result<Told<J>, ChangeFault<J>>
        requires allowed { J.allows (DropView name.now) }
        ensures { AnswersOverHistory J.schemas (told_states (option_map (λ t. t.now) told.entry))
            (DropView name.now) result }
    {
        self.change_views(rt, alloc, ViewChange::Drop(name), told)
    }

    /// Changes the rows of the desk's frame, and every view follows. The desk counts what is added and
    /// taken out, and at a refusal stays as it was.
    pub fn change_rows<R: Wait>(
        &self,
        rt: &R,
        alloc: Global,
        desk: &mut Desk<Acc, Del>,
        change: FrameChange,
        told: Option<&Told<J>>,
    ) -> Result<Told<J>, ChangeFault<J>>
        requires allowed { J.allows (change_of desk.old.frame change) }
        ensures answer { AnswersOverHistory J.schemas (told_states (option_map (λ t. t.now) told.entry))
            (change_of desk.old.frame change.entry) result }
        ensures desk { OnOk result (desk.new ≡
            desk_after desk.old (change_of desk.old.frame change.entry)) }
        ensures same_desk { OnErr result (desk.new ≡ desk.old) }
    {
        let mut catalogue = self.catalogue.lock(rt);
        let answer = catalogue.change_rows(rt, alloc, desk, change, told);
        MutexGuard::unlock(catalogue);
        answer
    }

    /// Changes the views. The version without a view takes memory too.
    pub fn change_views<R: Wait>(
        &self,
        rt: &R,
        alloc: Global,
        change: ViewChange,
        told: Option<&Told<J>>,
    ) -> Result<Told<J>, ChangeFault<J>>
        requires allowed { J.allows (change_of_views change) }
        ensures { AnswersOverHistory J.schemas (told_states (option_map (λ t. t.now) told.entry))
            (change_of_views change.entry) result }
    {
        let mut catalogue = self.catalogue.lock(rt);
        let answer = catalogue.change_views(rt, alloc, change, told);
        MutexGuard::unlock(catalogue);
        answer
    }

    /// From now on each view keeps what a change of rows does to its table, or keeps it no longer. What is kept now is
    /// forgotten.
    pub fn keep_changes<R: Wait>(&self, rt: &R, keeps: bool) {
        let mut catalogue = self.catalogue.lock(rt);
        catalogue.keep_changes(keeps);
        MutexGuard::unlock(catalogue);
    }

    /// What the last change of rows did to the view of this name, and its table after it. None where that is not kept, where
    /// anything changed since this was told, and where there is no such view. It takes the memory of a table that shares its
    /// blocks.
    pub fn last_changes<R: Wait>(
        &self,
        rt: &R,
        alloc: Global,
        name: &str,
        told: &Told<J>,
    ) -> Result<Option<ViewChanges>, AllocError>
        ensures { IfOk result (λ r. IfSome r (IsLastChange told.now name.now)) }
    {
        let catalogue = self.catalogue.lock(rt);
        let answer = catalogue.last_changes(alloc, name, told);
        MutexGuard::unlock(catalogue);
        answer
    }

    /// The catalogue and its totals by frame, exactly where the gathered shares of these desks are the
    /// books of every frame; readers get no version from then on. Else the least frame where they are not, with the
    /// hall and the desks, of which those of one frame are now one. It takes no memory, so it can be tried again.
    pub fn close<R: Wait>(
        self,
        rt: &R,
        desks: Vec<Desk<Acc, Del>>,
    ) -> Result<(Catalogue<Acc, Del>, Totals), Missing<Acc, Del, J>>
        ensures settled { IfOk result (λ closed.
            closing.missing_frame desks.items closed.0.state ≡ None) }
        ensures totals { IfOk result (λ closed. closed.1 ≡ closing.totals_of closed.0.state) }
        ensures books { IfOk result (λ closed. AgreeWithBooks desks.items closed.0.state) }
        ensures legal { IfOk result (λ closed. IsLegal closed.0.state) }
        ensures state { IfOk result (λ closed. IsLastStateBy J.allows J.schemas closed.0.state) }
        ensures missing { IfErr result (λ missing.
            closing.IsMissingAfter J.schemas desks.items missing.told missing.frame) }
        ensures joined { IfErr result (λ missing.
            closing.AreJoined desks.items missing.desks.items) }
    {
        let (versioned, room) = self.into_parts();
        let (catalogue, publisher) = versioned.into_parts();
        match settle(catalogue, desks, room) {
            Ok(closed) => {
                publisher.end(rt);
                Ok(closed)
            }
            Err(unsettled) => Err(reopened(unsettled, publisher)),
        }
    }

    /// Gives the hall up. Readers get no version from then on.
    pub fn end<R: Wait>(self, rt: &R) {
        let (versioned, room) = self.into_parts();
        drop(versioned.end(rt));
        drop(room);
    }

    /// A hall over this catalogue, with room for the totals of its close.
    pub(crate) fn over(
        catalogue: VersionedCatalogue<Acc, Del, J>,
        room: TotalsRoom,
    ) -> Hall<Acc, Del, J>
        requires room { HasRoomFor limits.most_frames room }
        requires empty { Holds room [] }
    {
        Hall {
            catalogue: Mutex::new(catalogue),
            room,
        }
    }

    /// What stands behind its lock, and the room for its totals.
    pub fn into_parts(self) -> (VersionedCatalogue<Acc, Del, J>, TotalsRoom)
        ensures room { HasRoomFor limits.most_frames result.1 }
        ensures empty { Holds result.1 [] }
    {
        let Hall { catalogue, room } = self;
        (catalogue.into_inner(), room)
    }
}

// The hall again, as it was before the close.
fn reopened<Acc: Ledger, Del: Ledger, J: Naming>(
    unsettled: Unsettled<Acc, Del>,
    publisher: Publisher<J>,
) -> Missing<Acc, Del, J>
    requires last { last_state publisher ≡ Some unsettled.catalogue.state }
    requires over { IsHistoryOver J.schemas publisher }
    requires changes { AreOfLastStep publisher unsettled.catalogue }
    requires room { HasRoomFor limits.most_frames unsettled.room }
    requires empty { Holds unsettled.room [] }
    ensures frame { result.frame ≡ unsettled.frame }
    ensures desks { result.desks ≡ unsettled.desks }
    ensures told { result.told ≡ publisher }
{
    let told = publisher.told();
    let Unsettled {
        frame,
        catalogue,
        desks,
        room,
    } = unsettled;
    Missing {
        frame,
        hall: Hall::over(VersionedCatalogue::over(catalogue, publisher), room),
        desks,
        told,
    }
}
