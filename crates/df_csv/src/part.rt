//! Some of the records of a CSV file, their fields in one buffer.
ghost use Rattle.std.specs.Prelude.{◌≡◌, ◌<◌, ◌*◌, Some, length, slice_get};
ghost use Rattle.csv.specs.Records.{fields_of};
ghost use Rattle.df_csv.specs.Records.{record_at, rows_of_width};

use csv::StringRecord;
use std::marker::Model;

/// Some of the records of a CSV file that stand one behind the other.
///
/// The fields of all records stand in one buffer, each record's behind those of the one before it.
#[derive(Drop)]
pub(crate) struct RecordPart {
    fields: StringRecord,
    width: usize,
    count: usize,
}

impl Model for RecordPart {
    ghost use Rattle.std.specs.Prelude.{◌≡◌, ◌*◌, ◌^◌, ◌<◌, List as Seq, ℕ, length};
    ghost use Rattle.csv.specs.Records.{fields_of};
    ghost use Rattle.df_csv.specs.Records.{rows_of_width};

    ghost Value = { Seq (Seq (Seq ℕ)) };

    ghost view = { λ r. rows_of_width r.width r.count (fields_of r.fields) };

    ghost invariant = { λ r. (length (fields_of r.fields) ≡ r.count * r.width)
        × (length (fields_of r.fields) < 2 ^ 64) };
}

impl RecordPart {
    /// The `count` records of `width` fields each whose fields are these.
    pub(crate) fn from_fields(fields: StringRecord, width: usize, count: usize) -> RecordPart
        requires { length (fields_of fields) ≡ count * width }
        ensures { result ≡ rows_of_width width count (fields_of fields) }
    {
        // Asked for its contract alone: as a `usize`, the number of fields is below 2^64, which the
        // invariant says.
        let _size = fields.len();
        RecordPart {
            fields,
            width,
            count,
        }
    }

    /// The field of a record, from 0, in a column, from 0.
    pub(crate) fn field(&self, row: usize, column: usize) -> &str
        requires in_rows { row < length self.now }
        requires in_columns { column < length (record_at self.now row) }
        ensures { slice_get (record_at self.now row) column ≡ Some result.now }
    {
        let index = row * self.width + column;
        match self.fields.get(index) {
            Some(field) => field,
            None => unreachable!(),
        }
    }

    /// The number of fields of a record, from 0.
    pub(crate) fn record_len(&self, row: usize) -> usize
        requires { row < length self.now }
        ensures { result ≡ length (record_at self.now row) }
    {
        self.width
    }

    /// The number of records.
    pub(crate) fn len(&self) -> usize
        ensures { result ≡ length self.now }
    {
        self.count
    }
}
