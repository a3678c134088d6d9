//! What a hall answers to changes.
ghost use Rattle.std.specs.Prelude.{◌≡◌, OnErr, OnOk, option_map};
ghost use Rattle.df_hall.specs.Halls.{AnswersOverHistory};
ghost use Rattle.df_state.specs.Desks.{desk_after};
ghost use Rattle.df_state.specs.FrameChanges.{change_of};
ghost use Rattle.df_state.specs.ViewChanges.{change_of_views};
ghost use Rattle.df_versions.specs.Answered.{told_states};

use df_catalogue::{Desk, FrameChange, ViewChange};
use df_hall::Hall;
use df_versions::{ChangeFault, Naming, Told};
use std::alloc::Global;
use std::sync::Wait;
use std::sync::ledger::Ledger;

/// What a hall answers to a change.
pub type Answer<J> = Result<Told<J>, ChangeFault<J>>;

/// What answers the changes of a history as a hall does. Books know no more of their hall, so that the proof of none of their
/// calls goes through the types of a hall.
pub trait HallChanges<Acc: Ledger, Del: Ledger, J: Naming> {
    /// Changes the rows of a frame through its desk. What is told of it goes on behind `told`.
    fn change_rows(
        &self,
        desk: &mut Desk<Acc, Del>,
        change: FrameChange,
        told: Option<&Told<J>>,
    ) -> Answer<J>
        requires allowed { J.allows (change_of desk.old.frame change) }
        ensures answer { AnswersOverHistory J.schemas (told_states (option_map (λ t. t.now) told.entry))
            (change_of desk.old.frame change.entry) result }
        ensures desk { OnOk result (desk.new ≡
            desk_after desk.old (change_of desk.old.frame change.entry)) }
        ensures same_desk { OnErr result (desk.new ≡ desk.old) };

    /// Changes the views. What is told of it goes on behind `told`.
    fn change_views(&self, change: ViewChange, told: Option<&Told<J>>) -> Answer<J>
        requires allowed { J.allows (change_of_views change) }
        ensures { AnswersOverHistory J.schemas (told_states (option_map (λ t. t.now) told.entry))
            (change_of_views change.entry) result };
}

/// A hall, with what it waits by and where it takes its memory.
#[derive(Drop)]
pub struct RunningHall<'s, R: Wait, Acc: Ledger, Del: Ledger, J: Naming> {
    pub rt: &'s R,
    pub alloc: Global,
    pub hall: &'s Hall<Acc, Del, J>,
}

impl<'s, R: Wait, Acc: Ledger, Del: Ledger, J: Naming> HallChanges<Acc, Del, J>
    for RunningHall<'s, R, Acc, Del, J> {
    fn change_rows(
        &self,
        desk: &mut Desk<Acc, Del>,
        change: FrameChange,
        told: Option<&Told<J>>,
    ) -> Answer<J> {
        self.hall
            .change_rows(self.rt, self.alloc, desk, change, told)
    }

    fn change_views(&self, change: ViewChange, told: Option<&Told<J>>) -> Answer<J> {
        self.hall.change_views(self.rt, self.alloc, change, told)
    }
}
