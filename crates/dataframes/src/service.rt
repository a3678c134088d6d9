//! What loaders share.
ghost use Rattle.std.specs.Prelude.{◌≡◌, slice_get};
ghost use Rattle.std.specs.Option.{option_copied};
ghost use Rattle.df_state.specs.declared.change.Change.TheVariants.{Delete, DropView, Register, Replace};
ghost use Rattle.dataframes.specs.Appends.{AnswersDrop, AnswersOfBooks, AppendsLines, AppendsOne, AppendsToBooks, AreRowsOfLines, ReadsLines};
ghost use Rattle.dataframes.specs.Cells.{row_lent};

use crate::books::Appended;
use crate::cells::row_of;
use crate::changing::MakeChanges;
use crate::csv_rows::{CsvRecords, LinesFault, read_rows};
use crate::dashboard::Dashboard;
use crate::fault::ServiceFault;
use df_catalogue::{FrameChange, ViewChange};
use df_plan::CheckedPlan;
use df_value::{CellRef, List, Row, Schema, Text, has_name};
use df_versions::{Naming, Told};
use std::alloc::Global;
use std::marker::Model;
use std::sync::Mutex;
use std::sync::atomic::AtomicU64;

/// What tells of the changes of a service, and makes none.
pub trait Tell {
    /// The name of the service's history, which ties what is told to the service's dashboards.
    type History: Naming;

    /// What was told of the last change that a loader made, if any did. A dashboard that learns it shows from then on every
    /// change that was answered before this call. It waits while a change is made.
    fn told(&self) -> Option<Told<Self::History>>;
}

/// Frames and views that many loaders change. Threads share a service by reference.
///
/// Each change is made as a whole or refused, and then everything is as it was. A version follows each. What is told of a
/// change is its history, which is longer than that of every change of the service before.
pub trait Service: Tell {
    ghost use Rattle.std.specs.Prelude.{ℕ, List as Seq};
    ghost use Rattle.df_value.specs.declared.cell.CellType.{CellType};

    // The views with which it was opened, by name, and their columns.
    ghost fixed: { Self → Seq (Seq ℕ × Seq (Seq ℕ × CellType)) };

    /// Where the service takes its memory.
    fn alloc(&self) -> Global;

    /// The columns of a frame, if there is one of this index.
    fn schema(&self, frame: usize) -> Option<&Schema>
        ensures { option_copied result ≡ slice_get Self.History.schemas frame };

    /// Appends rows to a frame. They get the numbers behind those of all rows that any loader appended to the frame.
    ///
    /// Refused are, in this order: an index of no frame; more than 65,536 rows, or a row that does not fit the frame;
    /// what the hall refuses, as a row over the frame's 1,048,576.
    fn append(
        &self,
        frame: usize,
        rows: List<Row>,
    ) -> Result<Appended<Self::History>, ServiceFault<Self::History>>
        ensures { AppendsToBooks Self.History.schemas frame rows result };

    /// Appends a row of these cells. It is refused as rows are.
    fn append_row(
        &self,
        frame: usize,
        cells: &[CellRef<'_>],
    ) -> Result<Appended<Self::History>, ServiceFault<Self::History>>
        ensures { AppendsOne Self.History.schemas frame (row_lent cells.now) result };

    /// Appends the rows of lines of CSV, the first of which is the header ([`read_rows`]).
    ///
    /// Refused are, in this order: an index of no frame; lines that are no rows of the frame; what `append` refuses.
    fn append_csv(
        &self,
        frame: usize,
        lines: &[u8],
    ) -> Result<Appended<Self::History>, ServiceFault<Self::History>>
        ensures { AppendsLines Self.History.schemas frame lines.now result };

    /// Reads lines of CSV of up to 1,048,576 records for a frame, which takes their rows part by part ([`CsvRecords::rows`]).
    ///
    /// Refused are, in this order: an index of no frame; lines without records of the frame ([`CsvRecords::read`]).
    fn read_csv(
        &self,
        frame: usize,
        lines: &[u8],
    ) -> Result<CsvRecords, ServiceFault<Self::History>>
        ensures { ReadsLines Self.History.schemas frame lines.now result };

    /// Takes the rows of these numbers out of a frame. Refused are a number that stands twice, and one of no row.
    fn delete(
        &self,
        frame: usize,
        numbers: &[u32],
    ) -> Result<Told<Self::History>, ServiceFault<Self::History>>
        ensures { AnswersOfBooks Self.History.schemas (Delete frame numbers.now) result };

    /// Puts each row in the place of the row of its number. Refused are a row that does not fit the frame, a number that
    /// stands twice, and one of no row.
    fn replace(
        &self,
        frame: usize,
        rows: &[(u32, Row)],
    ) -> Result<Told<Self::History>, ServiceFault<Self::History>>
        ensures { AnswersOfBooks Self.History.schemas (Replace frame rows.now) result };

    /// Adds a view of this name and plan last. Refused are a name that a view has, a 33rd view, and a plan over other
    /// frames.
    fn register(
        &self,
        name: Text,
        plan: CheckedPlan,
    ) -> Result<Told<Self::History>, ServiceFault<Self::History>>
        ensures { AnswersOfBooks Self.History.schemas (Register name plan) result };

    /// Takes the view of this name out. Refused are a view with which the service was opened, and a name of none.
    fn drop_view(&self, name: &str) -> Result<Told<Self::History>, ServiceFault<Self::History>>
        ensures { AnswersDrop Self.History.schemas (fixed self.now) name.now result };
}

/// The name of a view, and its columns.
pub type ViewSchema = (Text, Schema);

/// What the threads of a service share: what makes its changes, the schemas of its frames, the views with which it was opened,
/// the dashboards of its watchers, and the count of those who still load. [`ServiceBuilder::run`](crate::ServiceBuilder::run)
/// makes it. Contracts see the views.
#[derive(Drop)]
pub struct OpenService<'s, M, J: Naming> {
    pub(crate) alloc: Global,
    pub(crate) changes: &'s M,
    pub(crate) schemas: &'s List<Schema>,
    pub(crate) views: &'s List<ViewSchema>,
    // Each watcher takes the lock of its own.
    pub(crate) dashboards: &'s [Mutex<Dashboard<J>>],
    pub(crate) left: &'s AtomicU64,
}

impl<'s, M, J: Naming> Model for OpenService<'s, M, J> {
    ghost use Rattle.std.specs.Prelude.{◌≡◌, ℕ, List as Seq};
    ghost use Rattle.df_value.specs.declared.cell.CellType.{CellType};

    ghost Value = { Seq (Seq ℕ × Seq (Seq ℕ × CellType)) };

    ghost view = { λ s. s.views.now };

    ghost invariant = { λ s. s.schemas.now ≡ J.schemas };
}

impl<'s, M: MakeChanges<J>, J: Naming> Tell for OpenService<'s, M, J> {
    type History = J;

    fn told(&self) -> Option<Told<J>> {
        self.changes.told()
    }
}

impl<'s, M: MakeChanges<J>, J: Naming> Service for OpenService<'s, M, J> {
    ghost fixed = { λ s. s };

    fn alloc(&self) -> Global {
        self.alloc
    }

    fn schema(&self, frame: usize) -> Option<&Schema> {
        self.schemas.get(frame)
    }

    fn append(&self, frame: usize, rows: List<Row>) -> Result<Appended<J>, ServiceFault<J>> {
        self.changes.append(frame, rows)
    }

    fn append_row(
        &self,
        frame: usize,
        cells: &[CellRef<'_>],
    ) -> Result<Appended<J>, ServiceFault<J>> {
        let row = row_of(self.alloc, cells)?;
        let rows = vec![in self.alloc; row]?;
        self.changes.append(frame, List::from_vec(rows))
    }

    fn append_csv(&self, frame: usize, lines: &[u8]) -> Result<Appended<J>, ServiceFault<J>> {
        match rows_of_frame::<J>(self.alloc, self.schemas, frame, lines) {
            Ok(rows) => self.changes.append(frame, rows),
            Err(fault) => Err(fault),
        }
    }

    fn read_csv(&self, frame: usize, lines: &[u8]) -> Result<CsvRecords, ServiceFault<J>> {
        match self.schemas.get(frame) {
            Some(schema) => match CsvRecords::read(self.alloc, schema, lines) {
                Ok(records) => Ok(records),
                Err(fault) => Err(ServiceFault::Lines(LinesFault::Csv(fault))),
            },
            None => Err(ServiceFault::NoFrame),
        }
    }

    fn delete(&self, frame: usize, numbers: &[u32]) -> Result<Told<J>, ServiceFault<J>> {
        self.changes
            .change_rows(frame, FrameChange::Delete(numbers))
    }

    fn replace(&self, frame: usize, rows: &[(u32, Row)]) -> Result<Told<J>, ServiceFault<J>> {
        self.changes.change_rows(frame, FrameChange::Replace(rows))
    }

    fn register(&self, name: Text, plan: CheckedPlan) -> Result<Told<J>, ServiceFault<J>> {
        self.changes.change_views(ViewChange::Register(name, plan))
    }

    fn drop_view(&self, name: &str) -> Result<Told<J>, ServiceFault<J>> {
        if has_name(self.views.as_slice(), name) {
            return Err(ServiceFault::FixedView);
        }
        self.changes.change_views(ViewChange::Drop(name))
    }
}

// The rows that lines of CSV say.
fn rows_of_frame<J: Naming>(
    alloc: Global,
    schemas: &List<Schema>,
    frame: usize,
    lines: &[u8],
) -> Result<List<Row>, ServiceFault<J>>
    ensures { AreRowsOfLines schemas.now frame lines.now result }
{
    match schemas.get(frame) {
        Some(schema) => match read_rows(alloc, schema, lines) {
            Ok(rows) => Ok(rows),
            Err(fault) => Err(ServiceFault::Lines(fault)),
        },
        None => Err(ServiceFault::NoFrame),
    }
}
