//! Chunks: rows of a frame with their numbers.
ghost use Rattle.std.specs.Prelude.{◌≡◌, ◌≢◌, ◌↔◌, ◌+◌, ◌≤◌, ◌^◌, None, Some, IfNone, IsTrue, MatchResult, length, not, position};
ghost use Rattle.df_value.specs.Rows.{row_fits, rows_fit};
ghost use Rattle.df_value.specs.ChunkFaults.{chunk_fault};

use crate::limits::{MOST_ROWS_OF_CHUNK, ROW_NUMBERS};
use crate::list::List;
use crate::row::Row;
use crate::schema::Schema;
use crate::traits::Duplicate;
use std::alloc::Global;
use std::marker::Model;
use thiserror::Error;

/// Rows of a frame, of one schema. The first one has the number [`first`](Chunk::first), and each
/// further one the number after it. There are at most 65,536 of them, perhaps none; each fits the
/// schema, and each number is below 2^32.
pub struct Chunk {
    schema: Schema,
    first: u32,
    rows: List<Row>,
}

// A body that owns one drops it by a call.
impl Drop for Chunk {
    fn drop(self) {
        let Chunk {
            schema,
            first: _,
            rows,
        } = self;
        drop(schema);
        drop(rows);
    }
}

impl Model for Chunk {
    ghost use Rattle.df_value.specs.Chunks.{ChunkParts, IsChunk};

    ghost Value = { ChunkParts };

    ghost view = { λ c. record { schema = c.schema; first = c.first; rows = c.rows } };

    ghost invariant = { λ c. IsChunk c.schema c.first c.rows };
}

/// Why rows are no chunk.
#[derive(Debug, PartialEq, Eq, Drop, Error)]
pub enum ChunkFault {
    #[error("more than 65536 rows")]
    TooLong,
    #[error("a row number of 2^32 or more")]
    NumberTooLarge,
    #[error("row {0} does not fit the schema")]
    RowUnlike(usize),
    #[error("out of memory")]
    Memory,
}

/// Rows that are no chunk, handed back, and why.
#[derive(Drop)]
pub struct RefusedRows {
    pub fault: ChunkFault,
    pub rows: List<Row>,
}

/// A cell of a file that is no value of its column's type.
#[derive(Clone, Copy, PartialEq, Eq)]
pub struct BadCell {
    /// The number of its record, from 1.
    pub number: u64,
    /// The index of its column in the schema, from 0.
    pub column: usize,
}

/// What records made: a chunk, or the first bad cell, in which case none of the rows is kept.
#[derive(Drop)]
pub enum Piece {
    Good(Chunk),
    Bad(BadCell),
}

impl Chunk {
    ghost use Rattle.df_value.specs.Chunks.{IsChunk, MakesChunk};

    /// The chunk of these rows, the first of which has the number `first`. It keeps a copy of the
    /// schema.
    ///
    /// Refused are, in this order: more than 65,536 rows; rows of which one would have a number of
    /// 2^32 or more; a row that has another number of cells than the schema has columns, or a cell
    /// that is neither null nor of its column's type (the least such index is named); the refusal
    /// of memory. The rows come back with the fault.
    pub fn new(
        alloc: Global,
        schema: &Schema,
        first: u32,
        rows: List<Row>,
    ) -> Result<Chunk, RefusedRows>
        ensures made { MatchResult result (MakesChunk schema.now first rows) (λ e. e.rows ≡ rows) }
        ensures fault { MatchResult result (λ _. chunk_fault schema.now first rows ≡ None)
            (λ e. e.fault ≢ ChunkFault.Memory → chunk_fault schema.now first rows ≡ Some e.fault) }
        ensures memory_last { MatchResult result (λ _. chunk_fault schema.now first rows ≡ None)
            (λ e. e.fault ≡ ChunkFault.Memory → chunk_fault schema.now first rows ≡ None) }
    {
        if rows.len() > MOST_ROWS_OF_CHUNK {
            return Err(RefusedRows {
                fault: ChunkFault::TooLong,
                rows,
            });
        }
        if first as u64 + rows.len() as u64 > ROW_NUMBERS {
            return Err(RefusedRows {
                fault: ChunkFault::NumberTooLarge,
                rows,
            });
        }
        if let Some(at) = first_unlike(schema, rows.as_slice()) {
            return Err(RefusedRows {
                fault: ChunkFault::RowUnlike(at),
                rows,
            });
        }
        match schema.copy(alloc) {
            Ok(schema) => Ok(Chunk {
                schema,
                first,
                rows,
            }),
            Err(_) => Err(RefusedRows {
                fault: ChunkFault::Memory,
                rows,
            }),
        }
    }

    /// The schema that the rows fit.
    pub fn schema(&self) -> &Schema
        ensures { result.now ≡ self.now.schema }
    {
        &self.schema
    }

    /// The number of the first row.
    pub fn first(&self) -> u32
        ensures { result ≡ self.now.first }
    {
        self.first
    }

    /// The rows by rising number.
    pub fn rows(&self) -> &List<Row>
        ensures value { result.now ≡ self.now.rows }
        ensures sound { IsChunk self.now.schema self.now.first self.now.rows }
    {
        &self.rows
    }

    /// The rows by rising number, taken out of the chunk.
    pub fn into_rows(self) -> List<Row>
        ensures { result ≡ self.rows }
    {
        let Chunk {
            schema,
            first: _,
            rows,
        } = self;
        drop(schema);
        rows
    }
}

/// The least index of a row that does not fit the schema.
fn first_unlike(schema: &Schema, rows: &[Row]) -> Option<usize>
    ensures value { result ≡ position (λ r. not (row_fits schema.now r)) rows.now }
    ensures none { IfNone result (IsTrue (rows_fit schema.now rows.now)) }
{
    unlike_at(schema, rows)
}

fn unlike_at(schema: &Schema, rows: &[Row]) -> Option<usize>
    ensures { result ≡ position (λ r. not (row_fits schema.now r)) rows.now }
{
    rows.iter().position(|r| !schema.fits(r))
}
