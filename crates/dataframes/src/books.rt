//! The books of a service: a desk for each frame, which counts the rows that the frame accepted, so that the next row's
//! number is that count.
ghost use Rattle.std.specs.Prelude.{◌≡◌, Some, length};
ghost use Rattle.df_value.specs.Chunks.{ChunkParts};
ghost use Rattle.df_state.specs.FrameChanges.{change_of};
ghost use Rattle.df_state.specs.ViewChanges.{change_of_views};
ghost use Rattle.df_state.specs.declared.change.Change.TheVariants.{Append};
ghost use Rattle.dataframes.specs.Appends.{Appends, IsAppendedChunk};
ghost use Rattle.dataframes.specs.Books.{InOrder, IsAnswered, IsKept, IsNextOr, IsNumbered, IsThrough, states_told};

use crate::fault::ServiceFault;
use crate::hall_changes::{Answer, HallChanges};
use df_catalogue::{Desk, FrameChange, ViewChange};
use df_value::{Chunk, ChunkFault, List, Row, Schema};
use df_versions::{Naming, Told};
use std::alloc::Global;
use std::marker::Model;
use std::sync::ledger::Ledger;

/// What was appended: the number of its first row, the others have the numbers after it; how many rows it has; and what is
/// told of the change.
pub struct Appended<J: Naming> {
    pub first: u32,
    pub rows: usize,
    pub told: Told<J>,
}

// A body that owns one drops it by a call.
impl<J: Naming> Drop for Appended<J> {
    fn drop(self) {
        let Appended {
            first: _,
            rows: _,
            told,
        } = self;
        drop(told);
    }
}

/// The desks of all frames, in their order, and what was told of the last change that was made through them. Contracts see
/// the desks and the states that were told.
pub struct Books<Acc: Ledger, Del: Ledger, J: Naming> {
    desks: Vec<Desk<Acc, Del>>,
    told: Option<Told<J>>,
}

// A body that owns one drops it by a call.
impl<Acc: Ledger, Del: Ledger, J: Naming> Drop for Books<Acc, Del, J> {
    fn drop(self) {
        let Books { desks, told } = self;
        drop(desks);
        drop(told);
    }
}

impl<Acc: Ledger, Del: Ledger, J: Naming> Model for Books<Acc, Del, J> {
    ghost use Rattle.std.specs.Prelude.{◌≡◌, length};
    ghost use Rattle.std.specs.Coded.{codes};
    ghost use Rattle.df_state.specs.contracts.state.State as state_type;
    ghost use Rattle.dataframes.specs.Books.{BooksParts, InOrder, states_told};

    ghost Value = { BooksParts };

    ghost coded = { Prim.hlevel (codes, state_type.the_row.coded) };

    ghost view = { λ b. record { told = states_told b.told; desks = b.desks.items } };

    ghost invariant = { λ b. InOrder b.desks.items
        × (length b.desks.items ≡ length J.schemas) };
}

impl<Acc: Ledger, Del: Ledger, J: Naming> Books<Acc, Del, J> {
    /// The books of a hall with its first desks.
    pub fn new(desks: Vec<Desk<Acc, Del>>) -> Books<Acc, Del, J>
        requires desks { InOrder desks.items }
        requires count { length desks.items ≡ length J.schemas }
        ensures desks { result.desks ≡ desks.items }
    {
        Books { desks, told: None }
    }

    /// Appends rows to a frame. Their numbers begin with how many rows the frame accepted through these books, so no
    /// number is left out. `schemas` are those of the frames.
    ///
    /// Refused are, in this order: an index of no frame; rows that are no chunk behind these numbers; what the hall refuses.
    pub fn append<H: HallChanges<Acc, Del, J>>(
        &mut self,
        alloc: Global,
        hall: &H,
        schemas: &List<Schema>,
        frame: usize,
        rows: List<Row>,
    ) -> Result<Appended<J>, ServiceFault<J>>
        requires schemas { schemas.now ≡ J.schemas }
        requires allowed { (chunk : ChunkParts) → J.allows (Append frame chunk) }
        ensures { Appends J.schemas self.old frame rows result self.new }
    {
        match self.next_chunk(alloc, schemas, frame, rows) {
            Some(Ok(chunk)) => self.append_chunk(hall, frame, &chunk),
            Some(Err(fault)) => Err(ServiceFault::Rows(fault)),
            None => Err(ServiceFault::NoFrame),
        }
    }

    // The rows as a chunk behind those that the frame accepted. None: there is no such frame.
    fn next_chunk(
        &self,
        alloc: Global,
        schemas: &List<Schema>,
        frame: usize,
        rows: List<Row>,
    ) -> Option<Result<Chunk, ChunkFault>>
        requires { schemas.now ≡ J.schemas }
        ensures { IsNextOr J.schemas self.now frame rows result }
    {
        if frame >= self.desks.len() {
            drop(rows);
            return None;
        }
        let accepted = self.desks[frame].accepted();
        let schema = &schemas.as_slice()[frame];
        Some(numbered(alloc, schema, accepted, rows))
    }

    // Appends the next chunk of a frame.
    fn append_chunk<H: HallChanges<Acc, Del, J>>(
        &mut self,
        hall: &H,
        frame: usize,
        chunk: &Chunk,
    ) -> Result<Appended<J>, ServiceFault<J>>
        requires { J.allows (Append frame chunk.now) }
        ensures { IsAppendedChunk J.schemas self.old frame chunk.now result self.new }
    {
        match self.change_rows(hall, frame, FrameChange::Append(chunk)) {
            Ok(told) => Ok(Appended {
                first: chunk.first(),
                rows: chunk.rows().len(),
                told,
            }),
            Err(fault) => Err(fault),
        }
    }

    /// Changes the rows of a frame. The history that is told of it is longer than that of every change before, and the
    /// frame's desk counts the rows that are added and taken out.
    pub fn change_rows<H: HallChanges<Acc, Del, J>>(
        &mut self,
        hall: &H,
        frame: usize,
        change: FrameChange,
    ) -> Result<Told<J>, ServiceFault<J>>
        requires allowed { J.allows (change_of frame change) }
        ensures { IsAnswered J.schemas self.old (change_of frame change.entry) result self.new }
    {
        match self.through_desk(hall, frame, change) {
            Some(answer) => self.keep(answer),
            None => Err(ServiceFault::NoFrame),
        }
    }

    /// Changes the views. The history that is told of it is longer than that of every change before.
    pub fn change_views<H: HallChanges<Acc, Del, J>>(
        &mut self,
        hall: &H,
        change: ViewChange,
    ) -> Result<Told<J>, ServiceFault<J>>
        requires allowed { J.allows (change_of_views change) }
        ensures { IsAnswered J.schemas self.old (change_of_views change.entry) result self.new }
    {
        let answer = self.ask_for_views(hall, change);
        self.keep(answer)
    }

    // What the hall answers to a change of a frame's rows through its desk. None: there is no desk for it.
    fn through_desk<H: HallChanges<Acc, Del, J>>(
        &mut self,
        hall: &H,
        frame: usize,
        change: FrameChange,
    ) -> Option<Answer<J>>
        requires { J.allows (change_of frame change) }
        ensures { IsThrough J.schemas self.old (change_of frame change.entry) result self.new }
    {
        if frame >= self.desks.len() {
            return None;
        }
        let told = self.told.as_ref();
        let desk = &mut self.desks.as_mut_slice()[frame];
        Some(hall.change_rows(desk, change, told))
    }

    // What the hall answers to a change of the views.
    fn ask_for_views<H: HallChanges<Acc, Del, J>>(&self, hall: &H, change: ViewChange) -> Answer<J>
        requires { J.allows (change_of_views change) }
        ensures { IsThrough J.schemas self.now (change_of_views change.entry) (Some result) self.now }
    {
        hall.change_views(change, self.told.as_ref())
    }

    // Keeps what is told of a change that was made, for the next one.
    fn keep(&mut self, answer: Answer<J>) -> Result<Told<J>, ServiceFault<J>>
        ensures { IsKept self.old answer result self.new }
    {
        match answer {
            Ok(told) => {
                self.told = Some(told.again());
                Ok(told)
            }
            Err(fault) => Err(ServiceFault::Refused(fault)),
        }
    }

    /// What was told of the last change that was made through these books, if there was one.
    pub fn told(&self) -> Option<Told<J>>
        ensures { states_told result ≡ self.now.told }
    {
        match &self.told {
            Some(told) => Some(told.again()),
            None => None,
        }
    }

    /// The desks, to close a hall with.
    pub fn into_desks(self) -> Vec<Desk<Acc, Del>>
        ensures { result.items ≡ self.desks }
    {
        let Books { desks, told } = self;
        drop(told);
        desks
    }
}

// The rows as a chunk whose first number is `accepted`.
fn numbered(
    alloc: Global,
    schema: &Schema,
    accepted: u64,
    rows: List<Row>,
) -> Result<Chunk, ChunkFault>
    ensures { IsNumbered schema.now accepted rows result }
{
    match u32::try_from(accepted) {
        Ok(first) => chunk_of(alloc, schema, first, rows),
        Err(_) => {
            drop(rows);
            Err(ChunkFault::NumberTooLarge)
        }
    }
}

fn chunk_of(
    alloc: Global,
    schema: &Schema,
    first: u32,
    rows: List<Row>,
) -> Result<Chunk, ChunkFault>
    ensures { IsNumbered schema.now first rows result }
{
    match Chunk::new(alloc, schema, first, rows) {
        Ok(chunk) => Ok(chunk),
        Err(refused) => Err(refused.fault),
    }
}
