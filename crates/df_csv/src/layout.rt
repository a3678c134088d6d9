//! Where the columns of a schema stand in the records of a CSV text.
ghost use Rattle.csv.specs.Records.{fields_of};
ghost use Rattle.df_csv.specs.Records.{EveryText};
ghost use Rattle.df_csv.specs.Rows.{IsPlain, rows_left};
ghost use Rattle.df_csv.specs.Segments.{IsReadLayout};

use crate::fault::CsvFault;
use crate::header::{header_indices, names_of};
use crate::rows::{NextRow, next_row};
use csv::{ByteRecord, Reader};
use df_value::{CellType, Text};
use std::alloc::Global;
use std::io::Read;

/// What the header says of the records under it.
pub struct Layout {
    /// Where the fields of the columns stand in a record.
    pub indices: Vec<usize>,
    /// The number of fields of a record.
    pub width: usize,
}

// A body that owns one drops it by a call.
impl Drop for Layout {
    fn drop(self) {
        let Layout { indices, width: _ } = self;
        drop(indices);
    }
}

/// Takes the header, which is the first record. `None` where there is no record, and no column
/// either, so that nothing is wrong.
pub fn read_layout<R: Read>(
    alloc: Global,
    reader: &mut Reader<R>,
    columns: &[(Text, CellType)],
) -> Result<Option<Layout>, CsvFault>
    requires plain { IsPlain R.remaining reader.old }
    requires texts { EveryText (rows_left R.remaining reader.old) }
    ensures { IsReadLayout R.remaining columns.now reader.old reader.new result }
{
    let mut row = ByteRecord::new(alloc);
    match next_row(reader, &mut row) {
        NextRow::Row => {
            let width = row.len();
            let Ok(header) = names_of(alloc, &row) else {
                return Err(CsvFault::Memory);
            };
            match header_indices(alloc, header.as_slice(), columns) {
                Ok(indices) => Ok(Some(Layout { indices, width })),
                Err(e) => Err(e),
            }
        }
        NextRow::End => match header_indices(alloc, &[], columns) {
            Ok(_) => Ok(None),
            Err(e) => Err(e),
        },
        NextRow::Memory => Err(CsvFault::Memory),
    }
}
