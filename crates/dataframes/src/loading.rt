//! The loading of a CSV file into a frame of a service that is open.
ghost use Rattle.std.specs.Prelude.{◌≡◌, ◌<◌, ◌≤◌, [], length, vec_capacity};
ghost use Rattle.df_csv.specs.Typed.{piece_count};
ghost use Rattle.df_value.specs.Limits.{most_rows_of_chunk};
ghost use Rattle.dataframes.specs.Loads.{IsNotLoaded, LoadsLines, LoadsPart, LoadsRecords};

use crate::books::Appended;
use crate::csv_rows::CsvRecords;
use crate::fault::ServiceFault;
use crate::service::Service;
use df_value::ChunkFault;
use df_versions::Naming;
use std::alloc::Global;

/// What came of a file.
pub struct Loaded<J: Naming> {
    /// How many of its records, from the first on, have entered.
    pub rows: usize,
    /// What was answered to each part that entered, in turn.
    pub parts: Vec<Appended<J>>,
    /// Why the file, or the part behind those, did not enter; None where all parts have entered.
    pub refused: Option<ServiceFault<J>>,
}

// A body that owns one drops it by a call.
impl<J: Naming> Drop for Loaded<J> {
    fn drop(self) {
        let Loaded {
            rows: _,
            parts,
            refused,
        } = self;
        drop(parts);
        drop(refused);
    }
}

/// Appends the rows of a CSV file of up to 1,048,576 records to a frame, while other threads change and read the service. They
/// enter in parts of 65,536 records, each as one change: those that entered before a refusal stay.
///
/// Refused are, in this order: what [`Service::read_csv`] refuses; memory for the list of answers; of each part its first cell
/// that is no value of its column's type, and what [`Service::append`] refuses.
pub fn load_into<S: Service>(service: &S, frame: usize, lines: &[u8]) -> Loaded<S::History>
    ensures { LoadsLines S.History.schemas frame lines.now result }
{
    match service.read_csv(frame, lines) {
        Ok(records) => match Vec::with_capacity(service.alloc(), records.parts()) {
            Ok(parts) => load_records(service, frame, &records, parts),
            Err(_) => {
                drop(records);
                not_loaded(service.alloc(), ServiceFault::Rows(ChunkFault::Memory))
            }
        },
        Err(fault) => not_loaded(service.alloc(), fault),
    }
}

fn not_loaded<J: Naming>(alloc: Global, fault: ServiceFault<J>) -> Loaded<J>
    ensures { IsNotLoaded fault result }
{
    Loaded {
        rows: 0,
        parts: Vec::new(alloc),
        refused: Some(fault),
    }
}

// Loads part by part.
fn load_records<S: Service>(
    service: &S,
    frame: usize,
    records: &CsvRecords,
    parts: Vec<Appended<S::History>>,
) -> Loaded<S::History>
    requires first { parts.items ≡ [] }
    requires room { piece_count most_rows_of_chunk (length records.now.records) ≤ vec_capacity parts }
    ensures { LoadsRecords S.History.schemas frame records.now.schema records.now.records result }
{
    let mut parts = parts;
    for part in 0..records.parts() {
        match load_part(service, frame, records, part) {
            Ok(came) => parts.push_reserved(came),
            Err(fault) => {
                return Loaded {
                    rows: records.before(part),
                    parts,
                    refused: Some(fault),
                };
            }
        }
    }
    Loaded {
        rows: records.len(),
        parts,
        refused: None,
    }
}

fn load_part<S: Service>(
    service: &S,
    frame: usize,
    records: &CsvRecords,
    part: usize,
) -> Result<Appended<S::History>, ServiceFault<S::History>>
    requires { part < piece_count most_rows_of_chunk (length records.now.records) }
    ensures { LoadsPart S.History.schemas frame records.now.schema records.now.records part result }
{
    match records.rows(service.alloc(), part) {
        Ok(rows) => service.append(frame, rows),
        Err(fault) => Err(ServiceFault::Lines(fault)),
    }
}
