//! Totals by frame, in room that is there before the first change.
ghost use Rattle.std.specs.Prelude.{◌≡◌, ◌+◌, ◌++◌, ◌<◌, ◌≤◌, ◌∷◌, [], ℕ, IfOk, Some, length, slice_get};
ghost use Rattle.df_state.specs.States.{IsLegal};
ghost use Rattle.df_frame.specs.declared.state.FrameState.{FrameState};
ghost use Rattle.df_hall.specs.Closing as closing;
ghost use Rattle.df_hall.specs.Rooms.{HasRoomFor, Holds};
ghost use Rattle.df_value.specs.Limits as limits;

use df_catalogue::Catalogue;
use df_value::{List, MOST_FRAMES};
use std::alloc::{AllocError, Global};
use std::sync::ledger::Ledger;

/// What was accepted and deleted, and what there is, by frame.
#[derive(PartialEq, Eq)]
pub struct Totals {
    /// How many rows each frame accepted, also those that were deleted.
    pub accepted: List<u64>,
    /// How many of them were deleted.
    pub deleted: List<u64>,
    /// How many rows each frame has.
    pub live: List<u64>,
}

// A body that owns one drops it by a call.
impl Drop for Totals {
    fn drop(self) {
        let Totals {
            accepted,
            deleted,
            live,
        } = self;
        drop(accepted);
        drop(deleted);
        drop(live);
    }
}

/// Room for the totals of all frames.
#[derive(Drop)]
pub struct TotalsRoom {
    accepted: Vec<u64>,
    deleted: Vec<u64>,
    live: Vec<u64>,
}

impl TotalsRoom {
    /// Room for the totals of as many frames as a catalogue can have.
    pub(crate) fn new(alloc: Global) -> Result<TotalsRoom, AllocError>
        ensures room { IfOk result (HasRoomFor limits.most_frames) }
        ensures empty { IfOk result (λ room. Holds room []) }
    {
        Ok(TotalsRoom {
            accepted: Vec::with_capacity(alloc, MOST_FRAMES)?,
            deleted: Vec::with_capacity(alloc, MOST_FRAMES)?,
            live: Vec::with_capacity(alloc, MOST_FRAMES)?,
        })
    }

    /// The totals of a catalogue.
    pub(crate) fn totals<Acc: Ledger, Del: Ledger>(self, catalogue: &Catalogue<Acc, Del>) -> Totals
        requires room { HasRoomFor limits.most_frames self }
        requires empty { Holds self [] }
        ensures { result ≡ closing.totals_of catalogue.now.state }
    {
        let mut room = self;
        for frame in 0..frame_count(catalogue) {
            room.put(catalogue, frame);
        }
        room.finish()
    }

    // Puts the totals of the next frame in.
    fn put<Acc: Ledger, Del: Ledger>(&mut self, catalogue: &Catalogue<Acc, Del>, frame: usize)
        requires room { HasRoomFor 1 self.old }
        requires within { frame < length catalogue.now.state.frames }
        ensures accepted { (f : FrameState) → slice_get catalogue.now.state.frames frame ≡ Some f → self.new.accepted.items ≡ self.old.accepted.items ++ length f.accepted ∷ [] }
        ensures deleted { (f : FrameState) → slice_get catalogue.now.state.frames frame ≡ Some f → self.new.deleted.items ≡ self.old.deleted.items ++ length f.deleted ∷ [] }
        ensures live { (f : FrameState) → slice_get catalogue.now.state.frames frame ≡ Some f → self.new.live.items ≡ self.old.live.items ++ length f.rows ∷ [] }
        ensures room { (n : ℕ) → HasRoomFor (n + 1) self.old → HasRoomFor n self.new }
    {
        self.accepted
            .push_reserved(catalogue.accepted(frame).unwrap_or(0));
        self.deleted
            .push_reserved(catalogue.deleted(frame).unwrap_or(0));
        self.live.push_reserved(catalogue.live(frame).unwrap_or(0));
    }

    fn finish(self) -> Totals
        ensures accepted { result.accepted ≡ self.accepted.items }
        ensures deleted { result.deleted ≡ self.deleted.items }
        ensures live { result.live ≡ self.live.items }
    {
        Totals {
            accepted: List::from_vec(self.accepted),
            deleted: List::from_vec(self.deleted),
            live: List::from_vec(self.live),
        }
    }
}

/// How many frames a catalogue has.
pub fn frame_count<Acc: Ledger, Del: Ledger>(catalogue: &Catalogue<Acc, Del>) -> usize
    ensures count { result ≡ length catalogue.now.state.frames }
    ensures few { result ≤ limits.most_frames }
    ensures legal { IsLegal catalogue.now.state }
{
    // Asked for what it tells: that the state is legal, and so has at most so many frames.
    let _book = catalogue.accepted_book();
    for frame in 0..MOST_FRAMES {
        if catalogue.accepted(frame).is_none() {
            return frame;
        }
    }
    MOST_FRAMES
}
