//! The rows of a file, which enter a frame.
ghost use Rattle.std.specs.Prelude.{◌≡◌, ◌<◌, ◌≤◌, ◌⊎◌, ◌+◌, ◌-◌, ◌++◌, [], ℕ, List as Seq, IfErr, IfOk, Ok, OnErr, OnOk, Some, length, slice_get, string_bytes};
ghost use Rattle.df_value.specs.declared.chunk.Piece.{Piece as AnyPiece};
ghost use Rattle.df_value.specs.declared.chunk.Piece.TheVariants as made;
ghost use Rattle.df_value.specs.Limits.{row_numbers};
ghost use Rattle.df_csv.specs.Records.{IsRecords};
ghost use Rattle.df_csv.specs.Typed.{piece_start};
ghost use Rattle.df_document.specs.Files.{IsKnownState};
ghost use Rattle.df_document.specs.Opening.{records_of_file};
ghost use Rattle.df_session.specs.Asked.{frame_index_of};
ghost use Rattle.df_session.specs.Described.{frame_at};
ghost use Rattle.df_session.specs.Loading as loading;
ghost use Rattle.df_session.specs.Loading.{HasLoaded, HasLoadedSome, IsLeftOut, IsLoad, IsLoaded, IsMoreBy, IsRefusalOfFile, IsRefusalOfLoad, AreRowsTried, IsTried, IsUnnumbered, append_from, entered_text, pieces_of_load, records_of_chunk};

use crate::definitions::Definitions;
use crate::prompts::plural_end;
use crate::refusal::Refusal;
use crate::refusal_texts::refusal_text;
use crate::view_store::ViewStore;
use df_document::{Files, read_file, refused_line};
use df_state::{CatalogueFault, Change};
use df_text::{CsvFault, FrameSpec, Records, count_pieces, escape, type_piece};
use df_value::{Chunk, ChunkFault, List, Piece, Row, Schema};
use std::alloc::{AllocError, Global};
use std::marker::Model;
use std::thread::Threads;

/// The records of a chunk.
const RECORDS_OF_CHUNK: usize = 1000;

/// The most threads that read the file.
const THREADS_OF_FILE: usize = 4;

/// What a load did.
pub struct Loaded {
    // The number of its first row, and the one behind its last.
    first: u64,
    next: u64,
    refused: Vec<u8>,
    entered: Vec<u8>,
    is_cut: bool,
}

// A body that owns one drops it by a call.
impl Drop for Loaded {
    fn drop(self) {
        let Loaded {
            first: _,
            next: _,
            refused,
            entered,
            is_cut: _,
        } = self;
        drop(refused);
        drop(entered);
    }
}

impl Model for Loaded {
    ghost use Rattle.std.specs.Prelude.{◌≤◌};
    ghost use Rattle.df_session.specs.Loading.{LoadedParts};

    ghost Value = { LoadedParts };

    ghost view = { λ l. record {
      first = l.first;
      next = l.next;
      refused = l.refused.items;
      entered = l.entered.items;
      is_cut = l.is_cut;
    } };

    ghost invariant = { λ l. l.first ≤ l.next };
}

impl Loaded {
    // What one did that has tried no chunk.
    fn new(alloc: Global, first: u64) -> Result<Loaded, AllocError>
        ensures first { IfOk result (λ l. l.first ≡ first) }
        ensures next { IfOk result (λ l. l.next ≡ first) }
        ensures refused { IfOk result (λ l. l.refused ≡ []) }
        ensures entered { IfOk result (λ l. l.entered ≡ entered_text first 0) }
    {
        let entered = tell_entered(alloc, first, 0)?;
        Ok(Loaded {
            first,
            next: first,
            refused: Vec::new(alloc),
            entered: entered.into_bytes(),
            is_cut: false,
        })
    }

    /// A line for each chunk that is left out.
    pub fn refused(&self) -> &[u8]
        ensures { result.now ≡ self.now.refused }
    {
        self.refused.as_slice()
    }

    /// Whether memory was refused, so that the chunks behind the last one that was tried are left out too.
    pub fn is_cut(&self) -> bool
        ensures { result ≡ self.now.is_cut }
    {
        self.is_cut
    }

    /// How many rows entered, and their numbers.
    pub fn entered(&self) -> &[u8]
        ensures { result.now ≡ self.now.entered }
    {
        self.entered.as_slice()
    }

    // Rows up to this number entered, of which this is said.
    fn enter(&mut self, next: u64, entered: Vec<u8>)
        requires later { self.old.next ≤ next }
        ensures { self.new ≡ record self.old { next = next; entered = entered.items } }
    {
        self.next = next;
        self.entered = entered;
    }

    // No further chunk is tried, or it is for want of memory.
    fn end(&mut self, is_cut: bool)
        ensures { self.new ≡ record self.old { is_cut = is_cut } }
    {
        self.is_cut = is_cut;
    }

    // One more chunk is left out, of which this line tells.
    fn leave_out(&mut self, line: &[u8]) -> Result<(), AllocError>
        ensures told { OnOk result (self.new ≡ record self.old { refused = self.old.refused ++ line.now }) }
        ensures same { OnErr result (self.new ≡ self.old) }
    {
        self.refused.extend_from_slice(line)
    }
}

/// Reads the file under a path, and appends its rows to a frame, in chunks of 1,000 records, behind all numbers that the frame
/// ever accepted. At most 4 threads read the file.
///
/// A chunk with a bad cell, and one that the store refuses, is left out and told in a line; the others enter. What memory is refused to
/// is the line of a chunk or its typing: then the chunks from this one on are left out. Before any row enters, the first of these is answered:
/// `C11` where no frame has the name; what is wrong with the file, as a document's sources have it.
pub fn load<R: Threads + Sync, S: ViewStore, F: Files>(
    rt: &R,
    alloc: Global,
    definitions: &Definitions,
    store: &mut S,
    files: &mut F,
    frame: &str,
    path: &str,
) -> Result<Loaded, Refusal>
    ensures loaded { IfOk result (IsLoad S.Makes S.Refuses S.Keeps S.Next definitions.now frame.now
        (F.file_at files.old path.now) store.old store.new) }
    ensures refused { IfErr result (IsRefusalOfLoad (F.file_at files.old path.now)
        (frame_at definitions.now (frame_index_of definitions.now frame.now))) }
    ensures same { OnErr result (store.new ≡ store.old) }
{
    let Some(at) = definitions.frame_index(frame) else {
        return Err(Refusal::Store(CatalogueFault::NoFrame));
    };
    let frame = &definitions.document.frames.as_slice()[at];
    let records = records_in(rt, alloc, files, path, &frame.schema)?;
    let loaded = append_records(alloc, store, frame, at, &records);
    drop(records);
    Ok(loaded?)
}

// The records of the file under a path.
fn records_in<R: Threads + Sync, F: Files>(
    rt: &R,
    alloc: Global,
    files: &mut F,
    path: &str,
    schema: &Schema,
) -> Result<Records, Refusal>
    ensures value { IfOk result (λ records. IsKnownState (F.file_at files.old path.now) →
        records_of_file (F.file_at files.old path.now) schema.now ≡ Ok records) }
    ensures sound { IfOk result (λ records. IsRecords (length schema.now) records) }
    ensures refused { IfErr result (IsRefusalOfFile (F.file_at files.old path.now) schema.now) }
{
    match read_file(rt, alloc, files, path, schema, THREADS_OF_FILE) {
        Ok(records) => Ok(records),
        Err(CsvFault::Memory) => Err(Refusal::Memory),
        Err(fault) => Err(Refusal::File(fault)),
    }
}

// Appends the records of a file to the frame at this index.
fn append_records<S: ViewStore>(
    alloc: Global,
    store: &mut S,
    frame: &FrameSpec,
    at: usize,
    records: &Records,
) -> Result<Loaded, AllocError>
    requires { IsRecords (length frame.now.schema) records.now }
    ensures next { IfOk result (λ l. S.Next store.old at l.first) }
    ensures loaded { IfOk result (λ l. IsLoaded S.Makes S.Refuses S.Keeps frame.now at store.old store.new
        (pieces_of_load frame.now.schema records.now) l l.is_cut) }
    ensures same { OnErr result (store.new ≡ store.old) }
{
    let mut loaded = Loaded::new(alloc, store.next_number(at))?;
    let tried = append_pieces(alloc, store, frame, at, records, &mut loaded);
    loaded.end(tried.is_err());
    Ok(loaded)
}

// Tries each chunk in turn. Err: memory was refused, and the chunks from that one on were not tried.
fn append_pieces<S: ViewStore>(
    alloc: Global,
    store: &mut S,
    frame: &FrameSpec,
    at: usize,
    records: &Records,
    loaded: &mut Loaded,
) -> Result<(), AllocError>
    requires sound { IsRecords (length frame.now.schema) records.now }
    requires new { HasLoaded S.Makes S.Refuses S.Keeps frame.now at store.old store.old [] loaded.old }
    ensures first { loaded.new.first ≡ loaded.old.first }
    ensures all { OnOk result (HasLoaded S.Makes S.Refuses S.Keeps frame.now at store.old store.new
        (pieces_of_load frame.now.schema records.now) loaded.new) }
    ensures some { OnErr result (HasLoadedSome S.Makes S.Refuses S.Keeps frame.now at store.old store.new
        (pieces_of_load frame.now.schema records.now) loaded.new) }
{
    for n in 0..count_pieces(records, RECORDS_OF_CHUNK) {
        append_piece(alloc, store, frame, at, records, n, loaded)?;
    }
    Ok(())
}

// Tries the chunk at this index of the file.
fn append_piece<S: ViewStore>(
    alloc: Global,
    store: &mut S,
    frame: &FrameSpec,
    at: usize,
    records: &Records,
    n: usize,
    loaded: &mut Loaded,
) -> Result<(), AllocError>
    requires sound { IsRecords (length frame.now.schema) records.now }
    requires within { n < length (pieces_of_load frame.now.schema records.now) }
    ensures tried { OnOk result ((piece : AnyPiece) × (count : ℕ) × (line : Seq ℕ)
        × (slice_get (pieces_of_load frame.now.schema records.now) n ≡ Some piece)
        × IsTried S.Makes S.Refuses S.Keeps frame.now at store.old store.new (piece_start records_of_chunk n)
        loaded.old.next piece count line
        × IsMoreBy loaded.old loaded.new count line) }
    ensures same { OnErr result (loaded.new ≡ loaded.old) }
    ensures kept { OnErr result (S.Keeps store.old store.new) }
{
    // In u128 no product of two sizes is too large.
    let before = n as u128 * RECORDS_OF_CHUNK as u128;
    match type_piece(alloc, records, &frame.schema, RECORDS_OF_CHUNK, n)? {
        Piece::Good(chunk) => {
            append_rows(alloc, store, frame, at, before, chunk.into_rows(), loaded)
        }
        Piece::Bad(cell) => {
            let line = refused_line(alloc, frame, before, cell)?;
            loaded.leave_out(line.as_bytes())
        }
    }
}

// Appends rows, before which so many stand in the file, or tells why they are left out.
fn append_rows<S: ViewStore>(
    alloc: Global,
    store: &mut S,
    frame: &FrameSpec,
    at: usize,
    before: u128,
    rows: List<Row>,
    loaded: &mut Loaded,
) -> Result<(), AllocError>
    ensures tried { OnOk result ((count : ℕ) × (line : Seq ℕ)
        × AreRowsTried S.Makes S.Refuses S.Keeps frame.now at store.old store.new before loaded.old.next rows count line
        × IsMoreBy loaded.old loaded.new count line) }
    ensures same { OnErr result (loaded.new ≡ loaded.old) }
    ensures kept { OnErr result (S.Keeps store.old store.new) }
{
    match enter_rows(alloc, store, frame, at, rows, loaded) {
        Ok(()) => Ok(()),
        Err(refusal) => {
            let told = leave_out(alloc, frame, before, &refusal, loaded);
            drop(refusal);
            told
        }
    }
}

// Appends rows behind those that entered before.
fn enter_rows<S: ViewStore>(
    alloc: Global,
    store: &mut S,
    frame: &FrameSpec,
    at: usize,
    rows: List<Row>,
    loaded: &mut Loaded,
) -> Result<(), Refusal>
    ensures made { OnOk result
        (S.Makes store.old store.new (append_from at frame.now.schema loaded.old.next rows)) }
    ensures more { OnOk result (IsMoreBy loaded.old loaded.new (length rows) []) }
    ensures refused { IfErr result
        (IsLeftOut S.Makes S.Refuses S.Keeps frame.now at store.old store.new loaded.old.next rows) }
    ensures same { OnErr result (loaded.new ≡ loaded.old) }
    ensures kept { OnErr result (S.Keeps store.old store.new) }
{
    let chunk = chunk_from(alloc, &frame.schema, loaded.next, rows)?;
    let next = loaded.next + chunk.rows().len() as u64;
    let entered = tell_entered(alloc, loaded.first, next - loaded.first)?;
    store.make(alloc, Change::Append(at, chunk))?;
    loaded.enter(next, entered.into_bytes());
    Ok(())
}

// The chunk of rows that are numbered from this number on.
fn chunk_from(alloc: Global, schema: &Schema, next: u64, rows: List<Row>) -> Result<Chunk, Refusal>
    ensures schema { IfOk result (λ chunk. chunk.schema ≡ schema.now) }
    ensures first { IfOk result (λ chunk. chunk.first ≡ next) }
    ensures rows { IfOk result (λ chunk. chunk.rows ≡ rows) }
    ensures refused { IfErr result (λ r. IsUnnumbered schema.now next rows r ⊎ (r ≡ Refusal.Memory)) }
{
    let Ok(first) = u32::try_from(next) else {
        return Err(Refusal::Chunk(ChunkFault::NumberTooLarge));
    };
    match Chunk::new(alloc, schema, first, rows) {
        Ok(chunk) => Ok(chunk),
        Err(refused) => match refused.fault {
            ChunkFault::Memory => Err(Refusal::Memory),
            fault => Err(Refusal::Chunk(fault)),
        },
    }
}

// Tells why rows are left out, before which so many stand in the file.
fn leave_out(
    alloc: Global,
    frame: &FrameSpec,
    before: u128,
    refusal: &Refusal,
    loaded: &mut Loaded,
) -> Result<(), AllocError>
    ensures told { OnOk result (loaded.new ≡ record loaded.old {
      refused = loaded.old.refused ++ loading.left_out_line frame.now before refusal.now;
    }) }
    ensures same { OnErr result (loaded.new ≡ loaded.old) }
{
    let line = left_out_line(alloc, frame, before, refusal)?;
    loaded.leave_out(line.as_bytes())
}

fn left_out_line(
    alloc: Global,
    frame: &FrameSpec,
    before: u128,
    refusal: &Refusal,
) -> Result<String, AllocError>
    ensures { IfOk result (λ line.
        string_bytes line ≡ loading.left_out_line frame.now before refusal.now) }
{
    let name = escape(alloc, frame.name.as_str())?;
    let why = refusal_text(alloc, frame.name.as_str(), refusal)?;
    let name = name.as_str();
    let why = why.as_str();
    format!(in alloc; "refused {name} {before}: {why}\n")
}

// What is said of so many rows that entered from a number on.
fn tell_entered(alloc: Global, first: u64, count: u64) -> Result<String, AllocError>
    requires { first + count ≤ 18446744073709551615 }
    ensures { IfOk result (λ text. string_bytes text ≡ entered_text first count) }
{
    if count == 0 {
        return String::from_str(alloc, "ok 0 rows\n");
    }
    let last = first + (count - 1);
    let end = plural_end(count as usize);
    format!(in alloc; "ok {count} row{end}, {first}..{last}\n")
}
