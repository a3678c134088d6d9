//! Chunks whose rows stand in blocks alone.
ghost use Rattle.std.specs.Prelude.{◌≡◌, ◌+◌, ◌≤◌, IfOk, length, true};
ghost use Rattle.std.specs.Arc.{arc_value};
ghost use Rattle.std.specs.FinMap as finite;
ghost use Rattle.df_column.specs.RowRuns.{StandFrom};
ghost use Rattle.df_value.specs.declared.chunk.ChunkFault.TheVariants as chunk_fault;
ghost use Rattle.df_frame.specs.FrameTables.{IsNumberedTable};
ghost use Rattle.df_frame.specs.Stored.{IsStored, chunk_in};

use df_column::Table;
use df_value::{Chunk, List, RefusedRows};
use std::alloc::{AllocError, Global};
use std::marker::Model;
use std::sync::Arc;

/// A chunk whose rows stand in the blocks of a table, among others. Where a frame shares these blocks, the chunk takes the
/// memory of a pointer and three numbers. Contracts see the chunk.
pub struct StoredChunk {
    table: Arc<Table>,
    /// The number of its first row.
    first: u32,
    /// The index of its first row in the table.
    low: usize,
    len: usize,
}

// A body that owns one drops it by a call.
impl Drop for StoredChunk {
    fn drop(self) {
        let StoredChunk {
            table,
            first: _,
            low: _,
            len: _,
        } = self;
        drop(table);
    }
}

impl Model for StoredChunk {
    ghost use Rattle.std.specs.Arc.{arc_value};
    ghost use Rattle.df_value.specs.Chunks.{ChunkParts};
    ghost use Rattle.df_frame.specs.Stored.{IsStored, chunk_in};

    ghost Value = { ChunkParts };

    ghost view = { λ s. chunk_in (arc_value s.table) s.first s.low s.len };

    ghost invariant = { λ s. IsStored (arc_value s.table) s.first s.low s.len };
}

impl StoredChunk {
    /// The chunk of so many rows of a table from an index on, the first of which has this number.
    pub fn new(table: Arc<Table>, first: u32, low: usize, len: usize) -> StoredChunk
        requires { IsStored (arc_value table) first low len }
        ensures { result ≡ chunk_in (arc_value table) first low len }
    {
        StoredChunk {
            table,
            first,
            low,
            len,
        }
    }

    /// The number of rows.
    pub fn len(&self) -> usize
        ensures { result ≡ length self.now.rows }
    {
        self.len
    }

    /// The chunk, with copies of its rows.
    pub fn to_chunk(&self, alloc: Global) -> Result<Chunk, AllocError>
        ensures { IfOk result (λ chunk. chunk ≡ self.now) }
    {
        let rows = self
            .table
            .rows_between(alloc, self.low, self.low + self.len)?;
        let rows = List::from_vec(rows);
        match Chunk::new(alloc, self.table.schema(), self.first, rows) {
            Ok(chunk) => Ok(chunk),
            Err(refused) => Err(memory_of(refused)),
        }
    }

    /// Whether its rows stand in a table from an index on, at the tags of their numbers. No cell is copied.
    pub fn stands_in(&self, table: &Table, at: usize) -> bool
        requires { IsNumberedTable table.now.rows }
        ensures within { result ≡ true → at + length self.now.rows ≤ finite.len table.now.rows }
        ensures rows { result ≡ true →
            StandFrom (finite.entries table.now.rows) at (self.now.first + 1) self.now.rows }
        ensures alike { at + length self.now.rows ≤ finite.len table.now.rows
            → StandFrom (finite.entries table.now.rows) at (self.now.first + 1) self.now.rows
            → result ≡ true }
    {
        table.has_rows_of(at, &self.table, self.low, self.len)
    }
}

// The refusal of memory that kept rows from being a chunk, where nothing else does.
fn memory_of(refused: RefusedRows) -> AllocError
    requires { refused.fault ≡ chunk_fault.Memory }
{
    drop(refused);
    AllocError
}
