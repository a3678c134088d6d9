//! Reading the records of a CSV file, by the names of its header.
ghost use Rattle.std.specs.Prelude.{◌≡◌, ◌≢◌, IfOk, IfSome, IsUtf8, length};
ghost use Rattle.df_csv.specs.Header.{without_marks};
ghost use Rattle.df_csv.specs.Records.{Gives, GivesRead, IsRecords, file_records, records_of};

use crate::fault::CsvFault;
use crate::header::skip_marks;
use crate::layout::read_layout;
use crate::limited::{ReadLimitedFault, read_limited};
use crate::records::Records;
use crate::rows::{read_rows, reader_of};
use crate::threaded::read_segments;
use df_value::{CellType, Schema, Text};
use std::alloc::Global;
use std::io::Read;
use std::thread::Threads;

// The most threads that read one text.
const MOST_THREADS: usize = 16;

/// The most bytes of a CSV file.
pub const MOST_BYTES_OF_FILE: usize = 67_108_864;

// The records of a text without marks.
fn read_text(
    alloc: Global,
    bytes: &[u8],
    text: &[u8],
    columns: &[(Text, CellType)],
) -> Result<Records, CsvFault>
    requires marks { text.now ≡ without_marks bytes.now }
    requires utf8 { IsUtf8 text.now }
    ensures { Gives result (records_of bytes.now columns.now) }
{
    let mut reader = reader_of(alloc, text);
    let layout = match read_layout(alloc, &mut reader, columns) {
        Ok(Some(layout)) => layout,
        Ok(None) => return Ok(Records::new(alloc)),
        Err(e) => return Err(e),
    };
    match read_rows(alloc, &mut reader, layout.indices.as_slice(), layout.width) {
        Ok(part) => Ok(Records::from_part(alloc, part)?),
        Err(e) => Err(e),
    }
}

// The same, where several threads may read.
fn read_text_by<R: Threads + Sync>(
    rt: &R,
    alloc: Global,
    bytes: &[u8],
    text: &[u8],
    columns: &[(Text, CellType)],
    threads: usize,
) -> Result<Records, CsvFault>
    requires marks { text.now ≡ without_marks bytes.now }
    requires utf8 { IsUtf8 text.now }
    ensures { Gives result (records_of bytes.now columns.now) }
{
    match read_segments(rt, alloc, text, columns, threads.min(MOST_THREADS)) {
        Ok(Some(records)) => Ok(records),
        Ok(None) => read_text(alloc, bytes, text, columns),
        Err(_) => Err(CsvFault::Memory),
    }
}

/// The records of a CSV text: of each the fields of the schema's columns.
///
/// Byte order marks at the start are taken off. Fields are separated by commas and may stand in
/// double quotes; blank lines are passed over. The first record is the header, whose names say
/// which fields are whose; other columns are passed over.
///
/// The first of these is answered: `NotText`; `DoubledHeader` of the first column of the schema
/// that the header names twice; `MissingColumn` of the first that it does not name; then, by the
/// records in order, `BadRecord` of one that is not as long as the header, and `TooManyRecords` at
/// the record with the number 1,048,577. `Memory` comes where memory was refused.
pub fn parse_records(alloc: Global, bytes: &[u8], schema: &Schema) -> Result<Records, CsvFault>
    ensures value { Gives result (records_of bytes.now schema.now) }
    ensures sound { IfOk result (λ records. IsRecords (length schema.now) records) }
{
    let text = skip_marks(bytes);
    let Ok(_) = str::from_utf8(text) else {
        return Err(CsvFault::NotText);
    };
    read_text(alloc, bytes, text, schema.columns().as_slice())
}

/// The same as [`parse_records`], by at most so many threads, and no more than 16.
///
/// Each thread reads a segment of the text, of at least 65,536 bytes but for the last one. One thread reads the whole text
/// where it has a double quote, is short, has no line feed to cut behind, or begins with so many blank lines. Where a
/// thread finds something wrong with its segment, one thread reads the text again from its head, up to the first fault.
pub fn parse_records_by<R: Threads + Sync>(
    rt: &R,
    alloc: Global,
    bytes: &[u8],
    schema: &Schema,
    threads: usize,
) -> Result<Records, CsvFault>
    ensures value { Gives result (records_of bytes.now schema.now) }
    ensures sound { IfOk result (λ records. IsRecords (length schema.now) records) }
{
    let text = skip_marks(bytes);
    let Ok(_) = str::from_utf8(text) else {
        return Err(CsvFault::NotText);
    };
    read_text_by(rt, alloc, bytes, text, schema.columns().as_slice(), threads)
}

/// The records of what a reader has left, as [`parse_records`] has them.
///
/// Before all else come `ReadFault`, where a read failed, and `TooLarge`, where there are more than
/// 67,108,864 bytes.
pub fn read_records<R: Read>(
    alloc: Global,
    reader: &mut R,
    schema: &Schema,
) -> Result<Records, CsvFault>
    ensures value { IfSome (R.remaining reader.old)
        (λ bytes. GivesRead result (file_records bytes schema.now)) }
    ensures sound { IfOk result (λ records. IsRecords (length schema.now) records) }
{
    match read_limited(alloc, reader, MOST_BYTES_OF_FILE) {
        Ok(bytes) => parse_records(alloc, bytes.as_slice(), schema),
        Err(ReadLimitedFault::Failed) => Err(CsvFault::ReadFault),
        Err(ReadLimitedFault::TooLarge) => Err(CsvFault::TooLarge),
        Err(ReadLimitedFault::Memory) => Err(CsvFault::Memory),
    }
}

/// The same as [`read_records`], where at most so many threads read the records, as [`parse_records_by`] has them.
pub fn read_records_by<V: Read, R: Threads + Sync>(
    rt: &R,
    alloc: Global,
    reader: &mut V,
    schema: &Schema,
    threads: usize,
) -> Result<Records, CsvFault>
    ensures value { IfSome (V.remaining reader.old)
        (λ bytes. GivesRead result (file_records bytes schema.now)) }
    ensures sound { IfOk result (λ records. IsRecords (length schema.now) records) }
{
    match read_limited(alloc, reader, MOST_BYTES_OF_FILE) {
        Ok(bytes) => parse_records_by(rt, alloc, bytes.as_slice(), schema, threads),
        Err(ReadLimitedFault::Failed) => Err(CsvFault::ReadFault),
        Err(ReadLimitedFault::TooLarge) => Err(CsvFault::TooLarge),
        Err(ReadLimitedFault::Memory) => Err(CsvFault::Memory),
    }
}
