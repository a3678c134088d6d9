//! One frame: its rows under their numbers, and the numbers that it accepted.
ghost use Rattle.std.specs.Prelude.{◌≡◌, ◌+◌, ◌≤◌, ◌<◌, None, IfOk, IsTrue, length, map, slice_index};
ghost use Rattle.std.specs.List.{range_with_len};
ghost use Rattle.df_frame.specs.FrameChanges as frame_changes;
ghost use Rattle.df_frame.specs.FrameParts.{empty_parts};
ghost use Rattle.df_frame.specs.FrameTables.{table_parts, tagged_rows_of};
ghost use Rattle.df_frame.specs.Frames as frames;
ghost use Rattle.df_frame.specs.Frames.{IsNumbered, numbers_of, rows_of};
ghost use Rattle.df_frame.specs.Numbers.{put_from};
ghost use Rattle.df_frame.specs.Refusals as refusals;
ghost use Rattle.df_delta.specs.Differences.{IsDiff};
ghost use Rattle.df_value.specs.Limits as limits;
ghost use Rattle.df_value.specs.Rows.{rows_fit};

use crate::deltas::{delta_at, delta_of_rows, row_tag};
use crate::frame_change::FrameChange;
use crate::numbered::HasNumber;
use crate::prepared::FrameDelta;
use crate::ranges::Ranges;
use crate::table_numbers::{number_at, row_numbers};
use df_column::Table;
use df_value::{Duplicate, List, MOST_ROWS_OF_FRAME, Row, Schema, copies};
use std::alloc::{AllocError, Global};
use std::marker::Model;

/// A table of the rows by rising number, the numbers that were accepted, and how many were accepted
/// and deleted.
pub struct Frame {
    accepted: Ranges,
    table: Table,
    accepted_rows: u64,
    deleted_rows: u64,
}

// A body that owns one drops it by a call.
impl Drop for Frame {
    fn drop(self) {
        let Frame {
            accepted,
            table,
            accepted_rows: _,
            deleted_rows: _,
        } = self;
        drop(accepted);
        drop(table);
    }
}

impl Model for Frame {
    ghost use Rattle.df_frame.specs.FrameParts.{FrameParts, frame_state};
    ghost use Rattle.df_frame.specs.FrameTables.{IsTabled, numbered_rows};

    ghost Value = { FrameParts };

    ghost view = { λ f. record {
      schema = f.table.schema;
      state = frame_state f.accepted (numbered_rows f.table.rows);
    } };

    ghost invariant = { λ f. IsTabled f.accepted f.table.rows f.accepted_rows f.deleted_rows };
}

impl Frame {
    /// A frame of this schema that has accepted nothing.
    pub fn new(alloc: Global, schema: Schema) -> Result<Frame, AllocError>
        ensures { IfOk result (λ frame. frame ≡ empty_parts schema) }
    {
        let table = Table::new(alloc, schema)?;
        Ok(Frame {
            accepted: Ranges::new(alloc),
            table,
            accepted_rows: 0,
            deleted_rows: 0,
        })
    }

    /// A table that shares the rows, each at the tag of its number.
    pub fn share(&self, alloc: Global) -> Result<Table, AllocError>
        ensures { IfOk result (λ t. t ≡ table_parts self.now) }
    {
        self.table.share(alloc)
    }

    /// The schema of its rows.
    pub fn schema(&self) -> &Schema
        ensures { result.now ≡ self.now.schema }
    {
        self.table.schema()
    }

    /// How many numbers were accepted.
    pub fn accepted(&self) -> u64
        ensures { result ≡ length self.now.state.accepted }
    {
        self.accepted_rows
    }

    /// How many of them were deleted.
    pub fn deleted(&self) -> u64
        ensures { result ≡ length self.now.state.deleted }
    {
        self.deleted_rows
    }

    /// How many rows there are.
    pub fn live(&self) -> u64
        ensures { result ≡ length self.now.state.rows }
    {
        self.table.len() as u64
    }

    /// Copies of the rows, by rising number.
    pub fn rows(&self, alloc: Global) -> Result<List<Row>, AllocError>
        ensures { IfOk result (λ rows. rows ≡ rows_of self.now.state) }
    {
        let rows = self.table.rows(alloc)?;
        Ok(List::from_vec(rows))
    }

    /// The numbers of the rows, rising.
    pub fn numbers(&self, alloc: Global) -> Result<List<u32>, AllocError>
        requires { IsNumbered self.now.state }
        ensures { IfOk result (λ numbers. numbers ≡ numbers_of self.now.state) }
    {
        row_numbers(alloc, &self.table)
    }

    // The number of the row at this place.
    fn number_at(&self, place: usize) -> u32
        requires sound { IsNumbered self.now.state }
        requires within { place < length self.now.state.rows }
        ensures { result ≡ slice_index (numbers_of self.now.state) place }
    {
        number_at(&self.table, place)
    }

    /// Whether the row at this place has this number and these cells.
    pub fn is_row(&self, place: usize, number: u32, row: &Row) -> bool
        requires { IsNumbered self.now.state }
        ensures { result ≡ frames.is_row_at self.now.state place number row.now }
    {
        if place >= self.table.len() {
            return false;
        }
        self.number_at(place) == number && self.table.is_row(place, row)
    }

    /// The least of so many numbers from this one on that was accepted before.
    pub fn first_accepted(&self, first: u32, count: usize) -> Option<u32>
        requires { first + count ≤ limits.row_numbers }
        ensures { result ≡ refusals.first_accepted self.now.state first count }
    {
        self.accepted.first_within(first, count)
    }

    /// Whether more than 1,048,576 numbers would have been accepted with so many more.
    pub fn has_no_room(&self, count: usize) -> bool
        requires few { length self.now.state.accepted ≤ limits.most_rows_of_frame }
        requires count { count ≤ limits.most_rows_of_frame }
        ensures { result ≡ refusals.has_no_room self.now.state count }
    {
        self.accepted() + count as u64 > MOST_ROWS_OF_FRAME as u64
    }

    /// Whether there is a row of this number.
    pub fn has_row(&self, number: u32) -> bool
        ensures { result ≡ frames.has_row self.now.state number }
    {
        self.table.find(row_tag(number)).is_some()
    }

    /// The first number of the list of which there is no row.
    pub fn first_not_live<N: HasNumber>(&self, items: &[N]) -> Option<u32>
        ensures { result ≡ refusals.first_not_live self.now.state (map N.number_of items.now) }
    {
        items
            .iter()
            .map(|item| item.number())
            .find(|n| !self.has_row(*n))
    }

    // The lean delta from the rows to those after a change that nothing in the frame refuses. That of a prepared run is
    // lent by it.
    fn delta<'a>(
        &self,
        alloc: Global,
        change: FrameChange<'a>,
    ) -> Result<FrameDelta<'a>, AllocError>
        requires sound { IsNumbered self.now.state }
        requires free { frame_changes.FrameTakes self.now.state change }
        ensures { IfOk result (λ delta. IsDiff (tagged_rows_of self.now.state)
            (tagged_rows_of (frame_changes.frame_after self.now.state change.entry))
            (frame_changes.delta_in delta)) }
    {
        match change {
            FrameChange::Append(chunk) => {
                let rows = copies(alloc, chunk.rows().as_slice())?;
                Ok(FrameDelta::Made(delta_of_rows(alloc, chunk.first(), rows)?))
            }
            FrameChange::Prepared(prepared) => Ok(prepared.lend()),
            FrameChange::Delete(numbers) => {
                Ok(FrameDelta::Made(delta_at(alloc, &self.table, numbers)?))
            }
            FrameChange::Replace(rows) => {
                Ok(FrameDelta::Made(delta_at(alloc, &self.table, rows)?))
            }
        }
    }

    /// The frame after a change that nothing in it refuses, and after which the rows fit, and the change's delta. Blocks
    /// of rows that do not change are shared, and those of a prepared run can be.
    pub fn changed<'a>(
        &self,
        alloc: Global,
        change: FrameChange<'a>,
    ) -> Result<(Frame, FrameDelta<'a>), AllocError>
        requires sound { IsNumbered self.now.state }
        requires free { frame_changes.FrameTakes self.now.state change }
        requires fits { IsTrue (rows_fit self.now.schema
            (rows_of (frame_changes.frame_after self.now.state change))) }
        ensures schema { IfOk result (λ made. made.0.schema ≡ self.now.schema) }
        ensures state { IfOk result (λ made.
            made.0.state ≡ frame_changes.frame_after self.now.state change.entry) }
        ensures diff { IfOk result (λ made. IsDiff (tagged_rows_of self.now.state)
            (tagged_rows_of (frame_changes.frame_after self.now.state change.entry))
            (frame_changes.delta_in made.1)) }
    {
        let delta = self.delta(alloc, change)?;
        let table = delta.applied(alloc, &self.table)?;
        let accepted = self.accepted_after(alloc, change)?;
        let frame = Frame {
            accepted,
            table,
            accepted_rows: self.accepted_rows + change.accepted_rows(),
            deleted_rows: self.deleted_rows + change.deleted_rows(),
        };
        Ok((frame, delta))
    }

    // The numbers that were accepted after the change.
    fn accepted_after(&self, alloc: Global, change: FrameChange) -> Result<Ranges, AllocError>
        requires sound { IsNumbered self.now.state }
        requires free { frame_changes.FrameTakes self.now.state change }
        ensures { IfOk result (λ accepted.
            accepted ≡ (frame_changes.frame_after self.now.state change.entry).accepted) }
    {
        match change {
            FrameChange::Append(chunk) => {
                self.accepted_with(alloc, chunk.first(), chunk.rows().len())
            }
            FrameChange::Prepared(prepared) => {
                self.accepted_with(alloc, prepared.first(), prepared.len())
            }
            FrameChange::Delete(_) | FrameChange::Replace(_) => self.accepted.copy(alloc),
        }
    }

    // The numbers that were accepted once so many from this one on are, of which none was.
    fn accepted_with(&self, alloc: Global, first: u32, count: usize) -> Result<Ranges, AllocError>
        requires sound { IsNumbered self.now.state }
        requires within { first + count ≤ limits.row_numbers }
        requires free { refusals.first_accepted self.now.state first count ≡ None }
        ensures { IfOk result (λ accepted.
            accepted ≡ put_from (λ n. n) first (range_with_len first count) self.now.state.accepted) }
    {
        self.accepted.with(alloc, first, count)
    }
}
