//! The typed pieces of a CSV file.
ghost use Rattle.std.specs.Prelude.{◌≡◌, ◌+◌, ◌<◌, ◌≤◌, IfOk, None, drop, length, take};
ghost use Rattle.df_value.specs.Limits.{most_rows_of_chunk};
ghost use Rattle.df_value.specs.Chunks.{MakesChunk};
ghost use Rattle.df_value.specs.ChunkFaults.{chunk_fault};
ghost use Rattle.df_csv.specs.Records.{IsRecords, record_at};
ghost use Rattle.df_csv.specs.Typed.{piece_of, row_of, rows_typed};

use crate::fields::cell_of;
use crate::records::Records;
use df_value::{BadCell, CellType, Chunk, ChunkFault, List, Piece, Row, Schema, Text};
use std::alloc::{AllocError, Global};

/// The row of a record, or the index of its first bad cell.
#[derive(Drop)]
pub enum TypedRow {
    Good(Row),
    Bad(usize),
}

/// The rows of records, or the first bad cell.
#[derive(Drop)]
pub enum TypedRows {
    Good(List<Row>),
    Bad(BadCell),
}

/// The row of a record.
fn type_row(
    alloc: Global,
    columns: &[(Text, CellType)],
    records: &Records,
    row: usize,
) -> Result<TypedRow, AllocError>
    requires within { row < length records.now }
    requires even { length (record_at records.now row) ≡ length columns.now }
    ensures { IfOk result (λ cells. cells ≡ row_of columns.now (record_at records.now row)) }
{
    let mut cells = Vec::with_capacity(alloc, columns.len())?;
    for i in 0..columns.len() {
        let Some(cell) = cell_of(alloc, columns[i].1, records.field(row, i))? else {
            return Ok(TypedRow::Bad(i));
        };
        cells.push(cell)?;
    }
    Ok(TypedRow::Good(Row::new(alloc, cells)?))
}

/// The rows of the `len` records behind the first `first`.
#[tactic(auto, using(crate::proofs::RecordFacts::drop_record, crate::proofs::RecordFacts::record_even))]
fn type_rows(
    alloc: Global,
    columns: &[(Text, CellType)],
    records: &Records,
    first: usize,
    len: usize,
) -> Result<TypedRows, AllocError>
    requires sound { IsRecords (length columns.now) records.now }
    requires within { first + len ≤ length records.now }
    ensures { IfOk result
        (λ rows. rows ≡ rows_typed columns.now (first + 1) (take len (drop first records.now))) }
{
    let mut rows = Vec::with_capacity(alloc, len)?;
    for i in 0..len {
        match type_row(alloc, columns, records, first + i)? {
            TypedRow::Good(row) => rows.push(row)?,
            TypedRow::Bad(column) => {
                let number = (first + i) as u64 + 1;
                return Ok(TypedRows::Bad(BadCell { number, column }));
            }
        }
    }
    Ok(TypedRows::Good(List::from_vec(rows)))
}

/// The chunk of rows of which it is known that they make one.
fn chunk_of(
    alloc: Global,
    schema: &Schema,
    first: u32,
    rows: List<Row>,
) -> Result<Chunk, AllocError>
    requires { chunk_fault schema.now first rows ≡ None }
    ensures { IfOk result (λ chunk. MakesChunk schema.now first rows chunk) }
{
    match Chunk::new(alloc, schema, first, rows) {
        Ok(chunk) => Ok(chunk),
        Err(refused) => match refused.fault {
            ChunkFault::Memory => Err(AllocError),
            _ => unreachable!(),
        },
    }
}

/// The typed piece of the `len` records behind the first `first`: the chunk of their rows, whose
/// first number is `first`, or their first bad cell, by record and then by column.
///
/// An empty field is null. An Int is an optional sign and decimal digits, within i64; a Bool is
/// `true` or `false`, where ASCII case is ignored; a Text is any other field. Anything else is a
/// bad cell. The number of a bad cell is its record's in the file, from 1. `Err` says that memory
/// was refused.
pub fn type_chunk(
    alloc: Global,
    records: &Records,
    schema: &Schema,
    first: u32,
    len: usize,
) -> Result<Piece, AllocError>
    requires sound { IsRecords (length schema.now) records.now }
    requires within { first + len ≤ length records.now }
    requires short { len ≤ most_rows_of_chunk }
    ensures { IfOk result
        (λ made. made ≡ piece_of schema.now first (take len (drop first records.now))) }
{
    let columns = schema.columns().as_slice();
    match type_rows(alloc, columns, records, first as usize, len)? {
        TypedRows::Good(rows) => Ok(Piece::Good(chunk_of(alloc, schema, first, rows)?)),
        TypedRows::Bad(cell) => Ok(Piece::Bad(cell)),
    }
}
