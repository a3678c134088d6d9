//! Runs: rows of a frame with their numbers, as many as a frame accepts, which stand in blocks already.
ghost use Rattle.std.specs.Prelude.{◌≡◌, ◌↔◌, ◌+◌, ◌≤◌, IfOk, IsTrue, drop, length, take};
ghost use Rattle.std.specs.FinMap as finite;
ghost use Rattle.df_value.specs.Limits as limits;
ghost use Rattle.df_frame.specs.Runs.{GoesOn, IsRun, run_of_both};
ghost use Rattle.df_column.specs.Changes.{applied};
ghost use Rattle.df_frame.specs.FrameChanges.{delta_in};
ghost use Rattle.df_frame.specs.Prepared.{delta_of_chunk};
ghost use Rattle.df_delta.specs.Deltas.{RowsFit};

use crate::deltas::delta_of_rows;
use crate::stored::StoredChunk;
use df_column::Table;
use df_delta::{Delta, apply};
use df_value::{Duplicate, MOST_ROWS_OF_FRAME, Row, Schema, same};
use std::alloc::{AllocError, Global};
use std::marker::Model;
use std::sync::Arc;

/// A run: rows of a frame, of one schema, of which the first has the number [`first`](PreparedRun::first), and each further
/// one the number after it. There are at most 1,048,576 of them, perhaps none; each fits the schema, and each number is below
/// 2^32. The rows of chunks that follow one another are a run.
///
/// It has the delta by which its rows come, and their blocks in a table. The frame that it enters can share these blocks, so
/// that they are made before the frame is locked. Contracts see of a run what they see of a chunk.
pub struct PreparedRun {
    first: u32,
    delta: Delta,
    table: Arc<Table>,
}

// A body that owns one drops it by a call.
impl Drop for PreparedRun {
    fn drop(self) {
        let PreparedRun {
            first: _,
            delta,
            table,
        } = self;
        drop(delta);
        drop(table);
    }
}

impl Model for PreparedRun {
    ghost use Rattle.std.specs.Arc.{arc_value};
    ghost use Rattle.df_value.specs.Chunks.{ChunkParts};
    ghost use Rattle.df_frame.specs.Prepared.{IsPrepared, run_in};

    ghost Value = { ChunkParts };

    ghost view = { λ p. run_in (arc_value p.table) p.first };

    ghost invariant = { λ p. IsPrepared (run_in (arc_value p.table) p.first) p.delta (arc_value p.table) };
}

/// The delta of a change of a frame: made for it, or that of a prepared run.
pub enum FrameDelta<'a> {
    Made(Delta),
    Lent(&'a PreparedRun),
}

// A body that owns one drops it by a call.
impl Drop for FrameDelta<'_> {
    fn drop(self) {
        match self {
            FrameDelta::Made(delta) => drop(delta),
            FrameDelta::Lent(_) => {}
        }
    }
}

impl FrameDelta<'_> {
    /// The delta.
    pub fn get(&self) -> &Delta
        ensures { result.now ≡ delta_in self.now }
    {
        match self {
            FrameDelta::Made(delta) => delta,
            FrameDelta::Lent(prepared) => prepared.delta(),
        }
    }

    /// The table after it. The blocks of a prepared run are taken where that goes.
    pub fn applied(&self, alloc: Global, table: &Table) -> Result<Table, AllocError>
        ensures schema { IfOk result (λ t. t.schema ≡ table.now.schema) }
        ensures rows { RowsFit table.now.schema (applied table.now.rows (delta_in self.now))
            → IfOk result (λ t. t.rows ≡ applied table.now.rows (delta_in self.now)) }
    {
        apply(alloc, table, self.get())
    }
}

impl PreparedRun {
    /// The run of these rows, of which the first has the number `first`. They are moved into its delta.
    pub fn new(
        alloc: Global,
        schema: &Schema,
        first: u32,
        rows: Vec<Row>,
    ) -> Result<PreparedRun, AllocError>
        requires { IsRun schema.now first rows.items }
        ensures { IfOk result (λ run. run ≡ record { schema = schema.now; first = first; rows = rows.items }) }
    {
        let delta = delta_of_rows(alloc, first, rows)?;
        let none = Table::new(alloc, schema.copy(alloc)?)?;
        let table = Arc::new(alloc, apply(alloc, &none, &delta)?)?;
        Ok(PreparedRun {
            first,
            delta: delta.with_table(Arc::try_clone(&table)?),
            table,
        })
    }

    /// Whether another run goes on behind this one: it has the same schema and begins with the number behind the last one
    /// here, and both have few enough rows together.
    pub fn goes_on(&self, next: &PreparedRun) -> bool
        ensures { IsTrue result ↔ GoesOn self.now next.now }
    {
        let count = self.len();
        count + next.len() <= MOST_ROWS_OF_FRAME
            && next.first as u64 == self.first as u64 + count as u64
            && same(self.schema(), next.schema())
    }

    /// This run and one that goes on behind it, as one, which takes the blocks of both.
    pub fn joined(self, alloc: Global, next: PreparedRun) -> Result<PreparedRun, AllocError>
        requires { GoesOn self next }
        ensures { IfOk result (λ both. both ≡ run_of_both self next) }
    {
        let PreparedRun {
            first,
            delta,
            table,
        } = self;
        let PreparedRun {
            first: _,
            delta: coming,
            table: behind,
        } = next;
        drop(behind);
        let table = Arc::new(alloc, apply(alloc, &table, &coming)?)?;
        let mut entries = delta.into_entries();
        let mut more = coming.into_entries();
        entries.append(&mut more)?;
        let delta = Delta::from_entries(entries);
        Ok(PreparedRun {
            first,
            delta: delta.with_table(Arc::try_clone(&table)?),
            table,
        })
    }

    /// The schema that the rows fit.
    pub fn schema(&self) -> &Schema
        ensures { result.now ≡ self.now.schema }
    {
        self.table.schema()
    }

    /// The number of the first row.
    pub fn first(&self) -> u32
        ensures { result ≡ self.now.first }
    {
        self.first
    }

    /// The number of rows.
    pub fn len(&self) -> usize
        ensures value { result ≡ length self.now.rows }
        ensures sound { IsRun self.now.schema self.now.first self.now.rows }
    {
        self.table.len()
    }

    /// The delta by which its rows come.
    pub fn lend(&self) -> FrameDelta<'_>
        ensures value { delta_in result ≡ delta_of_chunk self.now }
        ensures sound { IsRun self.now.schema self.now.first self.now.rows }
    {
        // The clause `sound` is a fact of the run's type, which a proof has where the run is read.
        let _ = &self.delta;
        FrameDelta::Lent(self)
    }

    fn delta(&self) -> &Delta
        ensures { result.now ≡ delta_of_chunk self.now }
    {
        &self.delta
    }

    /// The chunk of so many of its rows from an index on, in its blocks; its first row has the number `first`. It takes no
    /// memory: the refusal is that of a further owner of the table.
    pub fn part(&self, low: usize, len: usize, first: u32) -> Result<StoredChunk, AllocError>
        requires within { low + len ≤ length self.now.rows }
        requires short { len ≤ limits.most_rows_of_chunk }
        requires number { first ≡ self.now.first + low }
        ensures { IfOk result (λ part. part ≡
            record { schema = self.now.schema; first = first; rows = take len (drop low self.now.rows) }) }
    {
        let table = Arc::try_clone(&self.table)?;
        Ok(StoredChunk::new(table, first, low, len))
    }
}
