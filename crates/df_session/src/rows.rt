//! The rows of a command: its lines as records of the frame, and those as a chunk, or behind
//! numbers.
ghost use Rattle.std.specs.Prelude.{◌≡◌, IfErr, IfOk, IsTrue, length, map};
ghost use Rattle.std.specs.List.{zip};
ghost use Rattle.df_value.specs.Rows.{rows_fit};
ghost use Rattle.df_session.specs.Asked.{IsLineFault, IsRowsFault};
ghost use Rattle.df_csv.specs.Records.{IsRecords};

use crate::refusal::{Mistake, RecordLength, Refusal};
use csv::{ByteRecord, ReaderBuilder};
use df_text::{CsvFault, Records, count_pieces, parse_records, type_piece};
use df_value::{
    BadCell, CellType, Chunk, ChunkFault, Duplicate, List, MOST_ROWS_OF_CHUNK, Piece, Row, Schema,
    Text,
};
use std::alloc::{AllocError, Global};

/// The most records that are typed at once.
const RECORDS_OF_PIECE: usize = MOST_ROWS_OF_CHUNK;

/// The chunk that lines of CSV make, whose cells stand in the schema's order; its first number is
/// `first`.
///
/// Refused are, in this order: lines that are no text (F3), a record of another length than the
/// schema's (F4, by its number from 1, with both lengths), the first bad cell, more than 65,536 records (S5), a row
/// number of 2^32 or more (S6). Memory may be refused at any time.
pub fn read_chunk(
    alloc: Global,
    schema: &Schema,
    first: u32,
    lines: &[u8],
) -> Result<Chunk, Refusal>
    ensures schema { IfOk result (λ chunk. chunk.schema ≡ schema.now) }
    ensures first { IfOk result (λ chunk. chunk.first ≡ first) }
    ensures refused { IfErr result IsLineFault }
{
    let text = with_header(alloc, schema.columns().as_slice(), without_marks(lines))?;
    let records = match parse_records(alloc, text.as_slice(), schema) {
        Ok(records) => records,
        Err(CsvFault::BadRecord(record)) => {
            return Err(other_length(alloc, schema, text.as_slice(), record)?);
        }
        Err(fault) => return Err(refused_records(fault)),
    };
    let rows = type_rows(alloc, schema, &records)?;
    match Chunk::new(alloc, schema, first, rows) {
        Ok(chunk) => Ok(chunk),
        Err(refused) => Err(Refusal::Chunk(refused.fault)),
    }
}

/// The rows that lines of CSV make, each behind the number at its place.
///
/// Refused are the lines that make no chunk (`read_chunk`), and those that are not as many rows as
/// there are numbers.
pub fn read_rows(
    alloc: Global,
    schema: &Schema,
    numbers: List<u32>,
    lines: &[u8],
) -> Result<List<(u32, Row)>, Refusal>
    ensures numbers { IfOk result (λ rows. map (λ r. r.0) rows ≡ numbers) }
    ensures fitting { IfOk result (λ rows.
        IsTrue (rows_fit schema.now (map (λ r. r.1) rows))) }
    ensures refused { IfErr result IsRowsFault }
{
    let chunk = read_chunk(alloc, schema, 0, lines)?;
    if chunk.rows().len() != numbers.len() {
        return Err(Refusal::Mistake(Mistake::OtherRowCount));
    }
    Ok(with_numbers(alloc, numbers, chunk.into_rows())?)
}

// The rows, each behind the number at its place.
fn with_numbers(
    alloc: Global,
    numbers: List<u32>,
    rows: List<Row>,
) -> Result<List<(u32, Row)>, AllocError>
    ensures { IfOk result (λ numbered. numbered ≡ zip numbers rows) }
{
    let numbered = numbers
        .into_vec()
        .into_iter()
        .zip(rows.into_vec())
        .collect(alloc)?;
    Ok(List::from_vec(numbered))
}

// More records than a file may have are more than a chunk may have.
fn refused_records(fault: CsvFault) -> Refusal
    ensures { IsLineFault result }
{
    match fault {
        CsvFault::TooManyRecords => Refusal::Chunk(ChunkFault::TooLong),
        CsvFault::Memory => Refusal::Memory,
        fault => Refusal::Csv(fault),
    }
}

// A record of a text whose header has the schema's columns, which is not as long as this.
fn other_length(
    alloc: Global,
    schema: &Schema,
    text: &[u8],
    record: u64,
) -> Result<Refusal, AllocError>
    ensures { IfOk result IsLineFault }
{
    let fields = count_fields(alloc, text, record)?;
    let columns = schema.columns().len();
    Ok(Refusal::Length(RecordLength {
        record,
        fields,
        columns,
    }))
}

// How many fields a record of a text has, by its number from 1; 0 if there is none.
fn count_fields(alloc: Global, text: &[u8], record: u64) -> Result<usize, AllocError> {
    let mut fields = ByteRecord::new(alloc);
    let mut reader = ReaderBuilder::new().flexible(true).from_reader(alloc, text);
    for _ in 0..record {
        // A slice is read without a fault, and records may differ in length: memory was refused.
        let Ok(_) = reader.read_byte_record(&mut fields) else {
            return Err(AllocError);
        };
    }
    Ok(fields.len())
}

// The lines without byte order marks at their start.
fn without_marks(lines: &[u8]) -> &[u8] {
    let mut rest = lines;
    for _ in 0..lines.len() {
        match rest.strip_prefix(b"\xEF\xBB\xBF") {
            Some(behind) => rest = behind,
            None => return rest,
        }
    }
    rest
}

// The lines under a header of the columns' names, each in double quotes.
fn with_header(
    alloc: Global,
    columns: &[(Text, CellType)],
    lines: &[u8],
) -> Result<Vec<u8>, AllocError> {
    let mut text = Vec::new(alloc);
    for i in 0..columns.len() {
        if i > 0 {
            text.push(b',')?;
        }
        push_quoted(&mut text, columns[i].0.as_str())?;
    }
    text.push(b'\n')?;
    text.extend_from_slice(lines)?;
    Ok(text)
}

fn push_quoted(text: &mut Vec<u8>, name: &str) -> Result<(), AllocError> {
    text.push(b'"')?;
    for byte in name.as_bytes() {
        if *byte == b'"' {
            text.push(b'"')?;
        }
        text.push(*byte)?;
    }
    text.push(b'"')?;
    Ok(())
}

// The rows of all records, or the first bad cell among them.
fn type_rows(alloc: Global, schema: &Schema, records: &Records) -> Result<List<Row>, Refusal>
    requires { IsRecords (length schema.now) records.now }
    ensures { IfErr result IsLineFault }
{
    let mut rows = Vec::new(alloc);
    for n in 0..count_pieces(records, RECORDS_OF_PIECE) {
        match type_piece(alloc, records, schema, RECORDS_OF_PIECE, n)? {
            Piece::Good(chunk) => rows.append(&mut chunk.into_rows().into_vec())?,
            Piece::Bad(cell) => return Err(bad_cell(alloc, schema, cell)?),
        }
    }
    Ok(List::from_vec(rows))
}

fn bad_cell(alloc: Global, schema: &Schema, cell: BadCell) -> Result<Refusal, AllocError>
    ensures { IfOk result IsLineFault }
{
    let name = match schema.columns().get(cell.column) {
        Some(column) => column.0.copy(alloc)?,
        None => Text::from_str(alloc, "")?,
    };
    Ok(Refusal::Cell(cell.number, name))
}
