//! The records of a CSV text, read by several threads.
ghost use Rattle.std.specs.Prelude.{◌≡◌, ◌<◌, All, IfOk, IfSome, Ok, Some, length, map, slice_index_or};
ghost use Rattle.csv.specs.Reading.{default_config, records, strip_bom};
ghost use Rattle.df_csv.specs.Records.{EveryText, records_under_header};
ghost use Rattle.df_csv.specs.Rows.{IsPlain, rows_left};
ghost use Rattle.df_csv.specs.Segments.{ArePicked, AreRead, IsLayoutOf, IsReadable, rows_of_segment};

use crate::fault::CsvFault;
use crate::layout::{Layout, read_layout};
use crate::part::RecordPart;
use crate::records::Records;
use crate::rows::{NextRow, next_row, read_rows, reader_of};
use crate::segments::segments;
use csv::{ByteRecord, Reader};
use df_value::{CellType, Text};
use std::alloc::{AllocError, Global};
use std::thread;
use std::thread::Threads;

/// The records of a text, read by at most so many threads. `None` where one thread has to read them:
/// there is something wrong with them, or the text is one segment, or its first segment has no
/// header.
///
/// Only one thread, which counts from the head of the text, says what is wrong.
pub(crate) fn read_segments<R: Threads + Sync>(
    rt: &R,
    alloc: Global,
    text: &[u8],
    columns: &[(Text, CellType)],
    threads: usize,
) -> Result<Option<Records>, AllocError>
    requires marks { strip_bom text.now ≡ text.now }
    requires texts { EveryText (records default_config text.now) }
    ensures { IfOk result (λ o. IfSome o (λ made.
        records_under_header columns.now (records default_config text.now) ≡ Ok made)) }
{
    let segments = segments(alloc, text, threads)?;
    if segments.len() < 2 {
        return Ok(None);
    }
    let Some(layout) = layout_of(alloc, segments[0], columns)? else {
        return Ok(None);
    };
    let work = SegmentWork {
        alloc,
        segments,
        layout,
    };
    let Some(parts) = read_parts(rt, &work)? else {
        return Ok(None);
    };
    Ok(Records::from_parts(parts))
}

// What the threads that read the segments of a text share.
struct SegmentWork<'a> {
    alloc: Global,
    segments: Vec<&'a [u8]>,
    layout: Layout,
}

// A body that owns one drops it by a call.
impl Drop for SegmentWork<'_> {
    fn drop(self) {
        let SegmentWork {
            alloc: _,
            segments,
            layout,
        } = self;
        drop(segments);
        drop(layout);
    }
}

impl<'a> SegmentWork<'a> {
    // The rows of the segment at this place, where nothing is wrong with them.
    fn read(&self, at: usize) -> Result<Option<RecordPart>, AllocError>
        requires within { at < length self.now.segments.items }
        requires readable { All (λ s. IsReadable s.now) self.now.segments.items }
        ensures { IfOk result (λ o. IfSome o (λ part. (s : _) →
            ArePicked self.now.layout.width self.now.layout.indices.items
            (rows_of_segment at (slice_index_or self.now.segments.items at s).now) part)) }
    {
        read_segment(self.alloc, self.segments[at], at, &self.layout)
    }
}

// The parts of all segments, where nothing is wrong with their rows.
fn read_parts<R: Threads + Sync>(
    rt: &R,
    work: &SegmentWork,
) -> Result<Option<Vec<RecordPart>>, AllocError>
    requires { All (λ s. IsReadable s.now) work.now.segments.items }
    ensures { IfOk result (λ o. IfSome o (λ parts.
        AreRead work.now.layout.width work.now.layout.indices.items work.now.segments.items
        parts.items)) }
{
    let count = work.segments.len();
    let outcomes = thread::map_indices(rt, work.alloc, count, &|at| work.read(at))?;
    parts_of(work.alloc, outcomes)
}

// The parts, where each is there.
fn parts_of(
    alloc: Global,
    outcomes: Vec<Result<Option<RecordPart>, AllocError>>,
) -> Result<Option<Vec<RecordPart>>, AllocError>
    ensures { IfOk result (λ o. IfSome o (λ parts.
        outcomes.items ≡ map (λ part. Ok (Some part)) parts.items)) }
{
    let mut parts = Vec::with_capacity(alloc, outcomes.len())?;
    for outcome in outcomes {
        let Some(part) = outcome? else {
            return Ok(None);
        };
        parts.push(part)?;
    }
    Ok(Some(parts))
}

// What the header in this segment says, where there is one and nothing is wrong with it.
fn layout_of(
    alloc: Global,
    segment: &[u8],
    columns: &[(Text, CellType)],
) -> Result<Option<Layout>, AllocError>
    requires { IsReadable segment.now }
    ensures { IfOk result (λ o. IfSome o
        (IsLayoutOf columns.now (records default_config segment.now))) }
{
    let mut reader = reader_of(alloc, segment);
    match read_layout(alloc, &mut reader, columns) {
        Ok(layout) => Ok(layout),
        Err(CsvFault::Memory) => Err(AllocError),
        Err(_) => Ok(None),
    }
}

// The rows of the segment that stands at this place, where nothing is wrong with them.
fn read_segment(
    alloc: Global,
    segment: &[u8],
    at: usize,
    layout: &Layout,
) -> Result<Option<RecordPart>, AllocError>
    requires { IsReadable segment.now }
    ensures { IfOk result (λ o. IfSome o
        (ArePicked layout.now.width layout.now.indices.items (rows_of_segment at segment.now))) }
{
    let Some(reader) = reader_at(alloc, segment, at)? else {
        return Ok(None);
    };
    let mut reader = reader;
    match read_rows(alloc, &mut reader, layout.indices.as_slice(), layout.width) {
        Ok(part) => Ok(Some(part)),
        Err(CsvFault::Memory) => Err(AllocError),
        Err(_) => Ok(None),
    }
}

// A reader of the rows of the segment at this place. The first one has the header.
fn reader_at(alloc: Global, segment: &[u8], at: usize) -> Result<Option<Reader<&[u8]>>, AllocError>
    requires { IsReadable segment.now }
    ensures { IfOk result (λ o. IfSome o (λ reader. IsPlain (λ bytes. Some bytes.now) reader
        × (rows_left (λ bytes. Some bytes.now) reader ≡ rows_of_segment at segment.now))) }
{
    let mut reader = reader_of(alloc, segment);
    if at > 0 {
        return Ok(Some(reader));
    }
    let mut row = ByteRecord::new(alloc);
    match next_row(&mut reader, &mut row) {
        NextRow::Row => Ok(Some(reader)),
        NextRow::End => Ok(None),
        NextRow::Memory => Err(AllocError),
    }
}
