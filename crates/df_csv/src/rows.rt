//! The records of a CSV text under its header.
ghost use Rattle.std.specs.Prelude.{◌≡◌, ◌++◌, OnOk, Some};
ghost use Rattle.csv.specs.Reading.{default_config, records, strip_bom};
ghost use Rattle.csv.specs.Records.{AllText, fields_of};
ghost use Rattle.df_csv.specs.Records.{EveryText, Gives, fields_at, checked_records};
ghost use Rattle.df_csv.specs.Rows.{IsPlain, IsNextRow, rows_left};

use crate::fault::CsvFault;
use crate::header::field_in;
use crate::part::RecordPart;
use csv::{ByteRecord, ErrorKind, Reader, ReaderBuilder, StringRecord};
use df_value::MOST_ROWS_OF_FRAME;
use std::alloc::{AllocError, Global};
use std::io::Read;

/// A reader of the records of a text that has no byte order mark at its start. It takes records of any length.
pub fn reader_of(alloc: Global, text: &[u8]) -> Reader<&[u8]>
    requires { strip_bom text.now ≡ text.now }
    ensures plain { IsPlain (λ bytes. Some bytes.now) result }
    ensures rows { rows_left (λ bytes. Some bytes.now) result ≡ records default_config text.now }
{
    ReaderBuilder::new()
        .has_headers(false)
        .flexible(true)
        .from_reader(alloc, text)
}

/// What the next record is: a row, none, or not known for want of memory.
#[derive(Drop)]
pub enum NextRow {
    Row,
    End,
    Memory,
}

/// Takes the next record.
pub fn next_row<R: Read>(reader: &mut Reader<R>, row: &mut ByteRecord) -> NextRow
    requires { IsPlain R.remaining reader.old }
    ensures { IsNextRow R.remaining reader.old reader.new (fields_of row.new) result }
{
    match reader.read_byte_record(row) {
        Ok(true) => NextRow::Row,
        Ok(false) => NextRow::End,
        Err(e) => match e.kind() {
            // A slice is read without a fault, so that an Io error stands for memory alone.
            ErrorKind::OutOfMemory | ErrorKind::Io(_) => NextRow::Memory,
            ErrorKind::UnequalLengths { .. } => unreachable!(),
            ErrorKind::Utf8 { .. } => unreachable!(),
            ErrorKind::Serialize(_) => unreachable!(),
            ErrorKind::Deserialize { .. } => unreachable!(),
        },
    }
}

/// Adds the fields at these indices.
fn pick(fields: &mut StringRecord, row: &ByteRecord, indices: &[usize]) -> Result<(), AllocError>
    requires { AllText (fields_of row.now) }
    ensures { OnOk result
        (fields_of fields.new ≡ fields_of fields.old ++ fields_at indices.now (fields_of row.now)) }
{
    for index in indices {
        fields.push_field(field_in(row, *index))?;
    }
    Ok(())
}

/// The records that a reader has left, of `width` fields each; of each the fields at these indices. A fault has the
/// record's number among these.
pub(crate) fn read_rows<R: Read>(
    alloc: Global,
    reader: &mut Reader<R>,
    indices: &[usize],
    width: usize,
) -> Result<RecordPart, CsvFault>
    requires plain { IsPlain R.remaining reader.old }
    requires texts { EveryText (rows_left R.remaining reader.old) }
    ensures { Gives result
        (checked_records width indices.now 1 (rows_left R.remaining reader.old)) }
{
    let mut fields = StringRecord::new(alloc);
    let mut row = ByteRecord::new(alloc);
    let mut count: usize = 0;
    'records: loop {
        match next_row(reader, &mut row) {
            NextRow::Row => {}
            NextRow::End => return Ok(RecordPart::from_fields(fields, indices.len(), count)),
            NextRow::Memory => return Err(CsvFault::Memory),
        }
        if row.len() != width {
            return Err(CsvFault::BadRecord(count as u64 + 1));
        }
        if count == MOST_ROWS_OF_FRAME {
            return Err(CsvFault::TooManyRecords);
        }
        if pick(&mut fields, &row, indices).is_err() {
            return Err(CsvFault::Memory);
        }
        count += 1;
    }
}
