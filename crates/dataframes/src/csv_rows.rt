//! The rows that lines of CSV say.
ghost use Rattle.std.specs.Prelude.{◌≡◌, ◌<◌, IfErr, IfOk, length};
ghost use Rattle.df_csv.specs.Records.{IsRecords};
ghost use Rattle.df_csv.specs.Typed.{piece_count, piece_start};
ghost use Rattle.df_value.specs.Limits.{most_rows_of_chunk};
ghost use Rattle.dataframes.specs.Lines.{AreTyped, HaveNoRecords, IsReadFrom, IsTypedPart, SayRows};

use df_csv::{CsvFault, Records, count_pieces, parse_records, type_chunk, type_piece};
use df_value::{BadCell, Duplicate, List, MOST_ROWS_OF_CHUNK, Piece, Row, Schema};
use std::alloc::Global;
use std::fmt;

/// Why lines of CSV are no rows that a frame takes as one change.
#[derive(PartialEq, Eq, Drop)]
pub enum LinesFault {
    /// They have no records of the frame, or there was no memory to read them.
    Csv(CsvFault),
    /// More than 65,536 records.
    TooMany,
    /// The first cell that is no value of its column's type, by record and then by column.
    BadCell(BadCell),
}

impl From<CsvFault> for LinesFault {
    ghost use Rattle.dataframes.specs.declared.csv_rows.LinesFault.TheVariants as lines_fault;

    ghost from_gives = { λ fault e. e ≡ lines_fault.Csv fault };

    fn from(fault: CsvFault) -> LinesFault {
        LinesFault::Csv(fault)
    }
}

impl fmt::Display for LinesFault {
    fn fmt<O: fmt::Write>(&self, f: &mut fmt::Formatter<O>) -> fmt::Result {
        match self {
            LinesFault::Csv(fault) => write!(f, "{fault}"),
            LinesFault::TooMany => write!(f, "more than 65536 records"),
            LinesFault::BadCell(cell) => {
                let (record, column) = (cell.number, cell.column);
                write!(f, "record {record} has a bad cell in column {column}")
            }
        }
    }
}

/// The records of a CSV file, up to 1,048,576, under the columns of a frame. A frame takes their rows in parts of 65,536 records,
/// each as one change; the last part has those that are left.
pub struct CsvRecords {
    records: Records,
    schema: Schema,
    ghost sound: { IsRecords (length schema) records },
}

// A body that owns one drops it by a call.
impl Drop for CsvRecords {
    fn drop(self) {
        let CsvRecords { records, schema } = self;
        drop(records);
        drop(schema);
    }
}

impl CsvRecords {
    /// Reads lines of CSV, the first of which is the header. Columns stand in any order, and those that the schema does not
    /// name are passed over.
    ///
    /// Refused are, in this order: lines that are no text; a column that stands twice in the header or is not there; a record
    /// that is not as long as the header, or the one with the number 1,048,577.
    pub fn read(alloc: Global, schema: &Schema, lines: &[u8]) -> Result<CsvRecords, CsvFault>
        ensures read { IfOk result (λ file. IsReadFrom schema.now lines.now file.schema file.records) }
        ensures refused { IfErr result (HaveNoRecords schema.now lines.now) }
    {
        let records = parse_records(alloc, lines, schema)?;
        match schema.copy(alloc) {
            Ok(schema) => Ok(CsvRecords { records, schema }),
            Err(_) => {
                drop(records);
                Err(CsvFault::Memory)
            }
        }
    }

    /// How many records there are.
    pub fn len(&self) -> usize
        ensures { result ≡ length self.now.records }
    {
        self.records.len()
    }

    // How many records stand before a part.
    pub(crate) fn before(&self, part: usize) -> usize
        requires { part < piece_count most_rows_of_chunk (length self.now.records) }
        ensures { result ≡ piece_start most_rows_of_chunk part }
    {
        part * MOST_ROWS_OF_CHUNK
    }

    /// How many parts the records make: none where there is no record.
    pub fn parts(&self) -> usize
        ensures { result ≡ piece_count most_rows_of_chunk (length self.now.records) }
    {
        count_pieces(&self.records, MOST_ROWS_OF_CHUNK)
    }

    /// The rows of a part, from 0, or its first bad cell with the number of its record in the file.
    pub fn rows(&self, alloc: Global, part: usize) -> Result<List<Row>, LinesFault>
        requires within { part < piece_count most_rows_of_chunk (length self.now.records) }
        ensures { IsTypedPart self.now.schema self.now.records part result }
    {
        match type_piece(alloc, &self.records, &self.schema, MOST_ROWS_OF_CHUNK, part) {
            Ok(Piece::Good(chunk)) => Ok(chunk.into_rows()),
            Ok(Piece::Bad(cell)) => Err(LinesFault::BadCell(cell)),
            Err(_) => Err(LinesFault::Csv(CsvFault::Memory)),
        }
    }
}

/// The rows of lines of CSV that make one change, read as [`CsvRecords::read`] reads them.
///
/// Refused are, in this order: what that call refuses; more than 65,536 records; a cell that is no value of its column's type.
pub fn read_rows(alloc: Global, schema: &Schema, lines: &[u8]) -> Result<List<Row>, LinesFault>
    ensures { SayRows schema.now lines.now result }
{
    match parse_records(alloc, lines, schema) {
        Ok(records) => {
            let rows = type_records(alloc, schema, &records);
            drop(records);
            rows
        }
        Err(fault) => Err(LinesFault::Csv(fault)),
    }
}

// The rows of all records.
fn type_records(alloc: Global, schema: &Schema, records: &Records) -> Result<List<Row>, LinesFault>
    requires { IsRecords (length schema.now) records.now }
    ensures { AreTyped schema.now records.now result }
{
    if records.len() > MOST_ROWS_OF_CHUNK {
        return Err(LinesFault::TooMany);
    }
    match type_chunk(alloc, records, schema, 0, records.len()) {
        Ok(Piece::Good(chunk)) => Ok(chunk.into_rows()),
        Ok(Piece::Bad(cell)) => Err(LinesFault::BadCell(cell)),
        Err(_) => Err(LinesFault::Csv(CsvFault::Memory)),
    }
}
