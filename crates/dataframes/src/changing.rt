//! What makes the changes of a service: its hall, with the books behind a lock.
ghost use Rattle.df_state.specs.FrameChanges.{change_of};
ghost use Rattle.df_state.specs.ViewChanges.{change_of_views};
ghost use Rattle.dataframes.specs.Appends.{AnswersOfBooks, AppendsToBooks};

use crate::books::{Appended, Books};
use crate::fault::ServiceFault;
use crate::hall_changes::HallChanges;
use df_catalogue::{FrameChange, ViewChange};
use df_value::{List, Row, Schema};
use df_versions::{Naming, Told};
use std::alloc::Global;
use std::marker::Model;
use std::sync::ledger::Ledger;
use std::sync::{Mutex, Wait};

/// What makes the changes of a history. A service knows no more of its hall, so that the proof of none of its calls goes
/// through the types of a hall.
pub trait MakeChanges<J: Naming> {
    /// Appends rows to a frame. They get the numbers behind those of all rows that were appended to it.
    fn append(&self, frame: usize, rows: List<Row>) -> Result<Appended<J>, ServiceFault<J>>
        ensures { AppendsToBooks J.schemas frame rows result };

    /// Changes the rows of a frame.
    fn change_rows(&self, frame: usize, change: FrameChange) -> Result<Told<J>, ServiceFault<J>>
        ensures { AnswersOfBooks J.schemas (change_of frame change.entry) result };

    /// Changes the views.
    fn change_views(&self, change: ViewChange) -> Result<Told<J>, ServiceFault<J>>
        ensures { AnswersOfBooks J.schemas (change_of_views change.entry) result };

    /// What was told of the last change that was made, if one was.
    fn told(&self) -> Option<Told<J>>;
}

/// What answers the changes, and the books behind a lock.
#[derive(Drop)]
pub(crate) struct LockedBooks<'s, R: Wait, H, Acc: Ledger, Del: Ledger, J: Naming> {
    pub rt: &'s R,
    pub alloc: Global,
    pub hall: &'s H,
    pub books: &'s Mutex<Books<Acc, Del, J>>,
    pub schemas: &'s List<Schema>,
}

impl<'s, R: Wait, H, Acc: Ledger, Del: Ledger, J: Naming> Model
    for LockedBooks<'s, R, H, Acc, Del, J> {
    ghost use Rattle.std.specs.Prelude.{◌≡◌, ℕ, List as Seq};
    ghost use Rattle.df_value.specs.declared.cell.CellType.{CellType};
    ghost use Rattle.df_versions.specs.Histories.{AllowsAll};

    ghost Value = { Seq (Seq (Seq ℕ × CellType)) };

    ghost view = { λ b. b.schemas.now };

    // Its history may have whatever a loader asks for.
    ghost invariant = { λ b. AllowsAll J.allows × (b.schemas.now ≡ J.schemas) };
}

impl<'s, R: Wait, H: HallChanges<Acc, Del, J>, Acc: Ledger, Del: Ledger, J: Naming> MakeChanges<J>
    for LockedBooks<'s, R, H, Acc, Del, J> {
    fn append(&self, frame: usize, rows: List<Row>) -> Result<Appended<J>, ServiceFault<J>> {
        let mut books = self.books.lock(self.rt);
        books.append(self.alloc, self.hall, self.schemas, frame, rows)
    }

    fn change_rows(&self, frame: usize, change: FrameChange) -> Result<Told<J>, ServiceFault<J>> {
        let mut books = self.books.lock(self.rt);
        books.change_rows(self.hall, frame, change)
    }

    fn change_views(&self, change: ViewChange) -> Result<Told<J>, ServiceFault<J>> {
        let mut books = self.books.lock(self.rt);
        books.change_views(self.hall, change)
    }

    fn told(&self) -> Option<Told<J>> {
        let books = self.books.lock(self.rt);
        books.told()
    }
}
