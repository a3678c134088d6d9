//! The records of a CSV file, in parts.
ghost use Rattle.std.specs.Prelude.{◌≡◌, ◌↔◌, ◌<◌, ◌≤◌, [], IfOk, IfSome, IsTrue, Some, length, slice_get};
ghost use Rattle.df_value.specs.Limits.{most_rows_of_frame};
ghost use Rattle.df_csv.specs.Records.{record_at, records_of_parts};

use crate::part::RecordPart;
use df_value::MOST_ROWS_OF_FRAME;
use std::alloc::{AllocError, Global};
use std::marker::Model;

/// The records of a CSV file: of each the fields of a schema's columns, in the schema's order.
///
/// They stand in parts, one for each segment of the text that was read by itself.
pub struct Records {
    parts: Vec<RecordPart>,
    count: usize,
}

// A body that owns one drops it by a call.
impl Drop for Records {
    fn drop(self) {
        let Records { parts, count: _ } = self;
        drop(parts);
    }
}

impl Model for Records {
    ghost use Rattle.std.specs.Prelude.{◌≡◌, List as Seq, ℕ, length};
    ghost use Rattle.df_csv.specs.Records.{records_of_parts};

    ghost Value = { Seq (Seq (Seq ℕ)) };

    ghost view = { λ r. records_of_parts r.parts.items };

    ghost invariant = { λ r. length (records_of_parts r.parts.items) ≡ r.count };
}

impl Records {
    /// No records.
    pub(crate) fn new(alloc: Global) -> Records
        ensures { result ≡ [] }
    {
        Records {
            parts: Vec::new(alloc),
            count: 0,
        }
    }

    /// The records of one part.
    pub(crate) fn from_part(alloc: Global, part: RecordPart) -> Result<Records, AllocError>
        ensures { IfOk result (λ records. records ≡ part) }
    {
        let count = part.len();
        let mut parts = Vec::new(alloc);
        parts.push(part)?;
        Ok(Records { parts, count })
    }

    /// The records of these parts, one behind the other, unless there are more than a file may have.
    pub(crate) fn from_parts(parts: Vec<RecordPart>) -> Option<Records>
        ensures value { IfSome result (λ records. records ≡ records_of_parts parts.items) }
        ensures few { IfSome result (λ records. length records ≤ most_rows_of_frame) }
    {
        let count = count_of(parts.as_slice())?;
        Some(Records { parts, count })
    }

    /// The field of a record, from 0, in a column, from 0.
    pub fn field(&self, row: usize, column: usize) -> &str
        requires in_rows { row < length self.now }
        requires in_columns { column < length (record_at self.now row) }
        ensures { slice_get (record_at self.now row) column ≡ Some result.now }
    {
        let (part, place) = self.place_of(row);
        part.field(place, column)
    }

    /// The number of fields of a record, from 0.
    pub fn record_len(&self, row: usize) -> usize
        requires { row < length self.now }
        ensures { result ≡ length (record_at self.now row) }
    {
        let (part, place) = self.place_of(row);
        part.record_len(place)
    }

    /// The number of records.
    pub fn len(&self) -> usize
        ensures { result ≡ length self.now }
    {
        self.count
    }

    /// Whether there is no record.
    pub fn is_empty(&self) -> bool
        ensures { IsTrue result ↔ (length self.now ≡ 0) }
    {
        self.count == 0
    }

    // The part that a record is in, and its place there.
    fn place_of(&self, row: usize) -> (&RecordPart, usize)
        requires { row < length self.now }
        ensures within { result.1 < length result.0.now }
        ensures same { record_at result.0.now result.1 ≡ record_at self.now row }
    {
        let mut place = row;
        for part in &self.parts {
            if place < part.len() {
                return (part, place);
            }
            place -= part.len();
        }
        unreachable!()
    }
}

// How many records these parts have, unless they are more than a file may have.
fn count_of(parts: &[RecordPart]) -> Option<usize>
    ensures value { IfSome result (λ n. n ≡ length (records_of_parts parts.now)) }
    ensures few { IfSome result (λ n. n ≤ most_rows_of_frame) }
{
    let mut count = 0;
    for part in parts {
        if part.len() > MOST_ROWS_OF_FRAME - count {
            return None;
        }
        count += part.len();
    }
    Some(count)
}
