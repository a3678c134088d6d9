//! The pieces of a CSV file as a source of chunks.
ghost use Rattle.std.specs.Prelude.{◌≡◌, ◌<◌, ◌≤◌, IsTrue, Some, length, slice_get};
ghost use Rattle.df_value.specs.Limits.{most_rows_of_chunk};
ghost use Rattle.df_value.specs.Schemas.{is_base};
ghost use Rattle.df_csv.specs.Records.{IsRecords};

use crate::pieces::{count_pieces, type_piece};
use crate::records::Records;
use df_value::{Piece, Schema, Source};
use std::alloc::{AllocError, Global};
use std::marker::Model;

/// The records of a CSV file in pieces of `size` records, of which the last one may have fewer.
pub struct CsvSource {
    records: Records,
    schema: Schema,
    size: usize,
}

// A body that owns one drops it by a call.
impl Drop for CsvSource {
    fn drop(self) {
        let CsvSource {
            records,
            schema,
            size: _,
        } = self;
        drop(records);
        drop(schema);
    }
}

impl Model for CsvSource {
    ghost use Rattle.df_csv.specs.Sources.{CsvParts, IsCsvSource};

    ghost Value = { CsvParts };

    ghost view = { λ s. record { records = s.records; schema = s.schema; size = s.size } };

    ghost invariant = { λ s. IsCsvSource s.records s.schema s.size };
}

impl CsvSource {
    ghost use Rattle.df_csv.specs.Sources.{chunks_of, records_in_piece};
    ghost use Rattle.df_value.specs.Chunks.{ChunkParts};
    ghost use Rattle.df_value.specs.declared.chunk.Piece.TheVariants.{Good};

    /// The source of these records, which are typed by the schema in pieces of `size`, 1 to 65,536.
    pub fn new(records: Records, schema: Schema, size: usize) -> CsvSource
        requires sound { IsRecords (length schema) records }
        requires base { IsTrue (is_base schema) }
        requires some { 1 ≤ size }
        requires short { size ≤ most_rows_of_chunk }
        ensures records { result.records ≡ records }
        ensures schema { result.schema ≡ schema }
        ensures size { result.size ≡ size }
    {
        CsvSource {
            records,
            schema,
            size,
        }
    }

    /// How many records the chunk at this index is made of, which a good one has as its rows.
    pub fn records_in(&self, n: u64) -> usize
        requires { n < length (chunks_of self.now) }
        ensures value { result ≡ records_in_piece self.now n }
        ensures rows { (chunk : ChunkParts) → slice_get (chunks_of self.now) n ≡ Some (Good chunk)
            → length chunk.rows ≡ result }
    {
        let first = n as usize * self.size;
        self.size.min(self.records.len() - first)
    }
}

impl Source for CsvSource {
    ghost use Rattle.df_csv.specs.Sources as sources;
    ghost use Rattle.df_csv.specs.Sources.{chunks_of};
    ghost use Rattle.df_csv.specs.PieceStarts.{starts_there};

    ghost made = { chunks_of };

    ghost start_of = { sources.start_of };

    ghost starts = { starts_there };

    fn chunks(&self) -> u64 {
        count_pieces(&self.records, self.size) as u64
    }

    fn chunk(&self, alloc: Global, n: u64) -> Result<Piece, AllocError> {
        type_piece(alloc, &self.records, &self.schema, self.size, n as usize)
    }

    fn start(&self, n: u64) -> u32 {
        (n as usize * self.size) as u32
    }
}
