//! The frames of a document: their sources, and these in pieces, chunks of rows or bad cells.
ghost use Rattle.std.specs.Prelude.{◌≡◌, ◌≢◌, ◌≤◌, [], All, Err, IfErr, IfOk, length, true};
ghost use Rattle.df_value.specs.Limits.{most_rows_of_chunk};
ghost use Rattle.df_value.specs.Schemas.{is_base};
ghost use Rattle.df_csv.specs.Records.{GivesRead, IsRecords};
ghost use Rattle.df_csv.specs.Sources.{chunks_of};
ghost use Rattle.df_document.specs.Files.{IsKnownState};
ghost use Rattle.df_document.specs.Sources.{IsSourceOf, pieces_by, pieces_by_one, pieces_of_sources};
ghost use Rattle.df_document.specs.Answers.{AnswersOrFails, AreKnown, ComesFromFrames, IsKnown, IsRead, MayFail};
ghost use Rattle.df_document.specs.Opening.{results_after, pieces_in, records_in, records_of_file};

use crate::fault::DocumentFault;
use crate::files::Files;
use df_text::{
    CsvFault, CsvSource, FrameSource, FrameSpec, Records, parse_records_by, read_records_by,
};
use df_value::{Duplicate, List, Piece, Schema, Source};
use std::alloc::{AllocError, Global};
use std::thread::Threads;

/// The sources of the frames, in their order. At most so many threads read the records of each.
pub(crate) fn all_sources<F: Files, R: Threads + Sync>(
    rt: &R,
    alloc: Global,
    files: &mut F,
    frames: &[FrameSpec],
    threads: usize,
    chunk: usize,
) -> Result<List<CsvSource>, DocumentFault>
    requires some { 1 ≤ chunk }
    requires few { chunk ≤ most_rows_of_chunk }
    requires base { All (λ f. is_base f.schema ≡ true) frames.now }
    ensures same { F.file_at files.new ≡ F.file_at files.old }
    ensures value { AreKnown (F.file_at files.old) frames.now →
        AnswersOrFails (MayFail (F.file_at files.old) chunk frames.now)
        (results_after (pieces_in (F.file_at files.old) chunk) [] frames.now) (pieces_by result) }
    ensures each { IfOk result (λ sources. length sources ≡ length frames.now) }
    ensures sound { IfOk result (λ sources. All (IsSourceOf chunk) sources) }
    ensures of_frames { IfErr result ComesFromFrames }
{
    let mut all = Vec::new(alloc);
    for frame in frames {
        all.push(read_source(rt, alloc, files, frame, threads, chunk)?)?;
    }
    Ok(List::from_vec(all))
}

fn read_source<F: Files, R: Threads + Sync>(
    rt: &R,
    alloc: Global,
    files: &mut F,
    frame: &FrameSpec,
    threads: usize,
    chunk: usize,
) -> Result<CsvSource, DocumentFault>
    requires some { 1 ≤ chunk }
    requires few { chunk ≤ most_rows_of_chunk }
    requires base { is_base frame.now.schema ≡ true }
    ensures same { F.file_at files.new ≡ F.file_at files.old }
    ensures value { IsKnown (F.file_at files.old) frame.now.source →
        AnswersOrFails (λ name. (frame.now.name ≡ name)
        × IsRead (F.file_at files.old) frame.now.source)
        (pieces_in (F.file_at files.old) chunk frame.now) (pieces_by_one result) }
    ensures sound { IfOk result (IsSourceOf chunk) }
    ensures of_frames { IfErr result ComesFromFrames }
{
    match read_frame(rt, alloc, files, frame, threads) {
        Ok(records) => match frame.schema.copy(alloc) {
            Ok(schema) => Ok(CsvSource::new(records, schema, chunk)),
            Err(_) => Err(DocumentFault::Memory),
        },
        Err(CsvFault::Memory) => Err(DocumentFault::Memory),
        Err(fault) => match frame.name.copy(alloc) {
            Ok(name) => Err(DocumentFault::Csv(name, fault)),
            Err(_) => Err(DocumentFault::Memory),
        },
    }
}

fn read_frame<F: Files, R: Threads + Sync>(
    rt: &R,
    alloc: Global,
    files: &mut F,
    frame: &FrameSpec,
    threads: usize,
) -> Result<Records, CsvFault>
    ensures same { F.file_at files.new ≡ F.file_at files.old }
    ensures value { IsKnown (F.file_at files.old) frame.now.source →
        GivesRead result (records_in (F.file_at files.old) frame.now.source frame.now.schema) }
    ensures sound { IfOk result (λ records. IsRecords (length frame.now.schema) records) }
    ensures unread { IfErr result (λ fault. fault ≡ CsvFault.ReadFault →
        IsKnown (F.file_at files.old) frame.now.source →
        records_in (F.file_at files.old) frame.now.source frame.now.schema ≢ Err fault →
        IsRead (F.file_at files.old) frame.now.source) }
{
    match &frame.source {
        FrameSource::Path(path) => {
            read_file(rt, alloc, files, path.as_str(), &frame.schema, threads)
        }
        FrameSource::Text(text) => {
            parse_records_by(rt, alloc, text.as_str().as_bytes(), &frame.schema, threads)
        }
    }
}

/// The records of the file under a path, as of a frame with this schema. At most so many threads read them. A file that cannot be opened, or
/// of which a read fails, is a `ReadFault`.
pub fn read_file<F: Files, R: Threads + Sync>(
    rt: &R,
    alloc: Global,
    files: &mut F,
    path: &str,
    schema: &Schema,
    threads: usize,
) -> Result<Records, CsvFault>
    ensures same { F.file_at files.new ≡ F.file_at files.old }
    ensures value { IsKnownState (F.file_at files.old path.now) →
        GivesRead result (records_of_file (F.file_at files.old path.now) schema.now) }
    ensures sound { IfOk result (λ records. IsRecords (length schema.now) records) }
{
    match files.open(path) {
        Some(mut file) => read_records_by(rt, alloc, &mut file, schema, threads),
        None => Err(CsvFault::ReadFault),
    }
}

/// The pieces of the sources, in their order.
pub(crate) fn all_pieces(
    alloc: Global,
    sources: &[CsvSource],
) -> Result<List<List<Piece>>, AllocError>
    ensures { IfOk result (λ pieces. pieces ≡ pieces_of_sources sources.now) }
{
    let mut all = Vec::with_capacity(alloc, sources.len())?;
    for source in sources {
        all.push(pieces(alloc, source)?)?;
    }
    Ok(List::from_vec(all))
}

fn pieces(alloc: Global, source: &CsvSource) -> Result<List<Piece>, AllocError>
    ensures { IfOk result (λ pieces. pieces ≡ chunks_of source.now) }
{
    let mut out = Vec::new(alloc);
    for n in 0..source.chunks() {
        out.push(source.chunk(alloc, n)?)?;
    }
    Ok(List::from_vec(out))
}
