//! The opening of a document: its plans are checked, and its frames are read.
ghost use Rattle.std.specs.Prelude.{◌≡◌, ◌≤◌, [], All, IfErr, IfOk, IfSome, length};
ghost use Rattle.df_value.specs.Limits.{most_rows_of_chunk};
ghost use Rattle.df_text.specs.Document.{IsDocument, document_of};
ghost use Rattle.df_document.specs.Sources.{IsSourceOf, opened_by, opened_with};
ghost use Rattle.df_document.specs.Answers.{AnswersOfBytes, AnswersOrFails, KnowsFiles, KnowsFilesOf, MayFailFrom, MayFailIn};
ghost use Rattle.df_document.specs.Opening.{results_after, of_document, opened_from, opened_in, plan_of, plans_of, schemas_of};
ghost use Rattle.df_document.specs.Answers.{IsOpening, LeavesFiles};

use crate::fault::DocumentFault;
use crate::files::Files;
use crate::pieces::{all_pieces, all_sources};
use df_plan::{CheckedPlan, PlanFault};
use df_text::{
    CsvSource, FrameSpec, ReadLimitedFault, ViewSpec, Views, ViewsFault, read_limited, read_views,
};
use df_value::{Duplicate, List, Piece, Schema};
use std::alloc::{AllocError, Global};
use std::io::Read;
use std::thread::Threads;

/// The most bytes of a view document.
pub const MOST_BYTES_OF_DOCUMENT: usize = 1_048_576;

/// A document that was read, with the checked plans of its views and the records of its frames in
/// typed pieces, each in the document's order.
#[derive(Drop)]
pub struct OpenedDocument {
    pub document: Views,
    pub plans: List<CheckedPlan>,
    pub pieces: List<List<Piece>>,
}

/// A document that was read, with the checked plans of its views and a source of each frame's records,
/// each in the document's order.
#[derive(Drop)]
pub struct SourcedDocument {
    pub document: Views,
    pub plans: List<CheckedPlan>,
    pub sources: List<CsvSource>,
}

/// Reads a view document and the files that it names.
///
/// The document is read whole, at most 1,048,576 bytes; its plans are checked in the order of the
/// views; its frames are read in their order, each by at most `threads` threads and no more than 16, and then typed in
/// pieces of `chunk` records, 1 to 65,536. A file that cannot be opened, or of which a read fails, is a `ReadFault` of its
/// frame. No file is opened before all plans are checked.
pub fn open_document<V: Read, F: Files, R: Threads + Sync>(
    rt: &R,
    alloc: Global,
    reader: &mut V,
    files: &mut F,
    threads: usize,
    chunk: usize,
) -> Result<OpenedDocument, DocumentFault>
    requires some { 1 ≤ chunk }
    requires few { chunk ≤ most_rows_of_chunk }
    ensures same { F.file_at files.new ≡ F.file_at files.old }
    ensures value { IfSome (V.remaining reader.old)
        (λ bytes. KnowsFiles (F.file_at files.old) bytes →
        IsOpening bytes (F.file_at files.old) chunk result) }
    ensures untouched { IfErr result (LeavesFiles files.old files.new) }
    ensures plans { IfOk result (λ o. length o.plans ≡ length o.document.views) }
    ensures pieces { IfOk result (λ o. length o.pieces ≡ length o.document.frames) }
{
    match open_sources(rt, alloc, reader, files, threads, chunk) {
        Ok(sourced) => Ok(typed(alloc, sourced)?),
        Err(fault) => Err(fault),
    }
}

fn typed(alloc: Global, sourced: SourcedDocument) -> Result<OpenedDocument, AllocError>
    ensures { IfOk result (λ o. o ≡ opened_with sourced) }
{
    let SourcedDocument {
        document,
        plans,
        sources,
    } = sourced;
    let pieces = all_pieces(alloc, sources.as_slice())?;
    Ok(OpenedDocument {
        document,
        plans,
        pieces,
    })
}

/// Reads a view document and the files that it names, as [`open_document`] does, and types nothing.
pub fn open_sources<V: Read, F: Files, R: Threads + Sync>(
    rt: &R,
    alloc: Global,
    reader: &mut V,
    files: &mut F,
    threads: usize,
    chunk: usize,
) -> Result<SourcedDocument, DocumentFault>
    requires some { 1 ≤ chunk }
    requires few { chunk ≤ most_rows_of_chunk }
    ensures same { F.file_at files.new ≡ F.file_at files.old }
    ensures value { IfSome (V.remaining reader.old)
        (λ bytes. KnowsFiles (F.file_at files.old) bytes →
        IsOpening bytes (F.file_at files.old) chunk (opened_by result)) }
    ensures untouched { IfErr result (LeavesFiles files.old files.new) }
    ensures sound { IfOk result (λ d. IsDocument d.document) }
    ensures plans { IfOk result (λ d. length d.plans ≡ length d.document.views) }
    ensures sources { IfOk result (λ d. length d.sources ≡ length d.document.frames) }
    ensures each { IfOk result (λ d. All (IsSourceOf chunk) d.sources) }
{
    match read_limited(alloc, reader, MOST_BYTES_OF_DOCUMENT) {
        Ok(bytes) => open_bytes(rt, alloc, bytes.as_slice(), files, threads, chunk),
        Err(ReadLimitedFault::Failed) => Err(DocumentFault::ReadFault),
        Err(ReadLimitedFault::TooLarge) => Err(DocumentFault::TooLarge),
        Err(ReadLimitedFault::Memory) => Err(DocumentFault::Memory),
    }
}

fn open_bytes<F: Files, R: Threads + Sync>(
    rt: &R,
    alloc: Global,
    bytes: &[u8],
    files: &mut F,
    threads: usize,
    chunk: usize,
) -> Result<SourcedDocument, DocumentFault>
    requires some { 1 ≤ chunk }
    requires few { chunk ≤ most_rows_of_chunk }
    ensures same { F.file_at files.new ≡ F.file_at files.old }
    ensures value { IfOk (document_of bytes.now) (KnowsFilesOf (F.file_at files.old)) →
        AnswersOrFails (MayFailFrom bytes.now (F.file_at files.old) chunk)
        (opened_from bytes.now (F.file_at files.old) chunk) (opened_by result) }
    ensures untouched { IfErr result (LeavesFiles files.old files.new) }
    ensures sound { IfOk result (λ d. IsDocument d.document) }
    ensures plans { IfOk result (λ d. length d.plans ≡ length d.document.views) }
    ensures sources { IfOk result (λ d. length d.sources ≡ length d.document.frames) }
    ensures each { IfOk result (λ d. All (IsSourceOf chunk) d.sources) }
{
    match read_document(alloc, bytes) {
        Ok(document) => open_views(rt, alloc, document, files, threads, chunk),
        Err(fault) => Err(fault),
    }
}

fn open_views<F: Files, R: Threads + Sync>(
    rt: &R,
    alloc: Global,
    document: Views,
    files: &mut F,
    threads: usize,
    chunk: usize,
) -> Result<SourcedDocument, DocumentFault>
    requires some { 1 ≤ chunk }
    requires few { chunk ≤ most_rows_of_chunk }
    requires sound { IsDocument document }
    ensures same { F.file_at files.new ≡ F.file_at files.old }
    ensures value { KnowsFilesOf (F.file_at files.old) document →
        AnswersOrFails (MayFailIn document (F.file_at files.old) chunk)
        (opened_in document (F.file_at files.old) chunk) (opened_by result) }
    ensures untouched { IfErr result (LeavesFiles files.old files.new) }
    ensures sound { IfOk result (λ d. IsDocument d.document) }
    ensures plans { IfOk result (λ d. length d.plans ≡ length d.document.views) }
    ensures sources { IfOk result (λ d. length d.sources ≡ length d.document.frames) }
    ensures each { IfOk result (λ d. All (IsSourceOf chunk) d.sources) }
{
    match checked_views(alloc, &document) {
        Ok(plans) => {
            let frames = document.frames.as_slice();
            match all_sources(rt, alloc, files, frames, threads, chunk) {
                Ok(sources) => Ok(SourcedDocument {
                    document,
                    plans,
                    sources,
                }),
                Err(fault) => Err(fault),
            }
        }
        Err(fault) => Err(fault),
    }
}

// The plans of the views, checked over the schemas of the frames.
fn checked_views(alloc: Global, document: &Views) -> Result<List<CheckedPlan>, DocumentFault>
    ensures value { AnswersOfBytes (plans_of document.now) result }
    ensures each { IfOk result (λ plans. length plans ≡ length document.now.views) }
{
    let schemas = copy_schemas(alloc, document.frames.as_slice())?;
    check_views(alloc, schemas.as_slice(), document.views.as_slice())
}

fn read_document(alloc: Global, bytes: &[u8]) -> Result<Views, DocumentFault>
    ensures value { AnswersOfBytes (of_document (document_of bytes.now)) result }
    ensures sound { IfOk result IsDocument }
{
    match read_views(alloc, bytes) {
        Ok(document) => Ok(document),
        Err(ViewsFault::Memory) => Err(DocumentFault::Memory),
        Err(fault) => Err(DocumentFault::Views(fault)),
    }
}

/// The schemas of frames.
pub fn copy_schemas(alloc: Global, frames: &[FrameSpec]) -> Result<List<Schema>, AllocError>
    ensures { IfOk result (λ schemas. schemas ≡ schemas_of frames.now) }
{
    let mut schemas = Vec::with_capacity(alloc, frames.len())?;
    for frame in frames {
        schemas.push(frame.schema.copy(alloc)?)?;
    }
    Ok(List::from_vec(schemas))
}

fn check_views(
    alloc: Global,
    schemas: &[Schema],
    views: &[ViewSpec],
) -> Result<List<CheckedPlan>, DocumentFault>
    ensures value { AnswersOfBytes (results_after (plan_of schemas.now) [] views.now) result }
    ensures each { IfOk result (λ plans. length plans ≡ length views.now) }
{
    let mut plans = Vec::new(alloc);
    for view in views {
        plans.push(check_view(alloc, schemas, view)?)?;
    }
    Ok(List::from_vec(plans))
}

/// The plan of a view, checked over the schemas of the frames.
pub fn check_view(
    alloc: Global,
    schemas: &[Schema],
    view: &ViewSpec,
) -> Result<CheckedPlan, DocumentFault>
    ensures { AnswersOfBytes (plan_of schemas.now view.now) result }
{
    let plan = view.plan.copy(alloc)?;
    match CheckedPlan::new(alloc, plan, schemas) {
        Ok(plan) => Ok(plan),
        Err(PlanFault::Memory) => Err(DocumentFault::Memory),
        Err(fault) => match view.name.copy(alloc) {
            Ok(name) => Err(DocumentFault::Plan(name, fault)),
            Err(_) => Err(DocumentFault::Memory),
        },
    }
}
