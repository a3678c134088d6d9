//! The commands that change the frames and views.
ghost use Rattle.std.specs.Prelude.{◌≡◌, ◌<◌, ℕ, List as Seq, Some, IfErr, IfOk, IsOk, OnErr, OnOk, length};
ghost use Rattle.df_value.specs.declared.cell.Cell.{Cell};
ghost use Rattle.df_value.specs.Chunks.{ChunkParts};
ghost use Rattle.df_plan.specs.CheckedParts.{CheckedParts};
ghost use Rattle.df_state.specs.declared.change.Change.TheVariants.{Append, Delete, DropView, Register, Replace};
ghost use Rattle.df_session.specs.Told.{numbers_told};
ghost use Rattle.df_session.specs.Asked.{AreRowsOf, IsAppended, IsChunkOf, IsLineFault, IsRefusalOfAppend, IsRefusalOfAppendNext, IsRefusalAtFrame, IsRefusalOfChange, IsRefusalOfRegister, IsRefusalOfReplace, IsRowsFault, frame_index_of, plan_named};

use crate::definitions::Definitions;
use crate::numbers::tell_numbers;
use crate::refusal::{Mistake, Refusal};
use crate::rows::{read_chunk, read_rows};
use crate::view_store::ViewStore;
use df_state::{CatalogueFault, Change};
use df_value::{Chunk, ChunkFault, Duplicate, List, Row, Text};
use std::alloc::Global;

/// Adds the rows of lines of CSV to a frame.
///
/// The first of these is answered: `C11` where no frame has the name; why the lines could not be
/// read; why they make no chunk (`read_chunk`); the store's refusal.
pub fn append<S: ViewStore>(
    alloc: Global,
    definitions: &Definitions,
    store: &mut S,
    frame: &str,
    first: u32,
    lines: Result<Vec<u8>, Refusal>,
) -> Result<(), Refusal>
    ensures made { OnOk result
        ((at : ℕ) × (chunk : ChunkParts) × IsOk lines
        × (frame_index_of definitions.now frame.now ≡ Some at)
        × IsChunkOf definitions.now at first chunk
        × S.Makes store.old store.new (Append at chunk)) }
    ensures refused { IfErr result
        (IsRefusalOfAppend (S.Refuses store.old store.new) definitions.now
        (frame_index_of definitions.now frame.now) first lines) }
    ensures same { OnErr result (S.Keeps store.old store.new) }
{
    let Some(at) = definitions.frame_index(frame) else {
        return Err(Refusal::Store(CatalogueFault::NoFrame));
    };
    let lines = lines?;
    let chunk = chunk_at(alloc, definitions, at, first, lines.as_slice())?;
    Ok(store.make(alloc, Change::Append(at, chunk))?)
}

// The chunk that lines of CSV make in the frame at this index, whose rows begin at this number.
fn chunk_at(
    alloc: Global,
    definitions: &Definitions,
    at: usize,
    first: u32,
    lines: &[u8],
) -> Result<Chunk, Refusal>
    requires { at < length definitions.now.document.frames }
    ensures chunk { IfOk result (IsChunkOf definitions.now at first) }
    ensures refused { IfErr result IsLineFault }
{
    let schema = &definitions.document.frames.as_slice()[at].schema;
    Ok(read_chunk(alloc, schema, first, lines)?)
}

/// Adds the rows of lines of CSV to a frame, behind all numbers that it ever accepted, and says their numbers.
///
/// The first of these is answered: `C11` where no frame has the name; why the lines could not be
/// read; why they make no chunk (`read_chunk`); the store's refusal.
pub fn append_next<S: ViewStore>(
    alloc: Global,
    definitions: &Definitions,
    store: &mut S,
    frame: &str,
    lines: Result<Vec<u8>, Refusal>,
) -> Result<Vec<u8>, Refusal>
    ensures made { IfOk result (IsAppended (S.Makes store.old store.new) (S.Next store.old)
        definitions.now (frame_index_of definitions.now frame.now) lines) }
    ensures refused { IfErr result
        (IsRefusalOfAppendNext (S.Refuses store.old store.new) definitions.now
        (frame_index_of definitions.now frame.now) lines) }
    ensures same { OnErr result (S.Keeps store.old store.new) }
{
    let Some(at) = definitions.frame_index(frame) else {
        return Err(Refusal::Store(CatalogueFault::NoFrame));
    };
    let lines = lines?;
    let next = store.next_number(at);
    let (chunk, told) = next_chunk(alloc, definitions, at, next, lines.as_slice())?;
    store.make(alloc, Change::Append(at, chunk))?;
    Ok(told)
}

// The chunk that lines of CSV make in the frame at this index, whose rows begin at this number, and what is said of them.
// It is said before the change, so that nothing can be refused behind it.
fn next_chunk(
    alloc: Global,
    definitions: &Definitions,
    at: usize,
    next: u64,
    lines: &[u8],
) -> Result<(Chunk, Vec<u8>), Refusal>
    requires { at < length definitions.now.document.frames }
    ensures first { IfOk result (λ made. made.0.first ≡ next) }
    ensures chunk { IfOk result (λ made. IsChunkOf definitions.now at next made.0) }
    ensures told { IfOk result (λ made.
        made.1.items ≡ numbers_told next (length made.0.rows)) }
    ensures refused { IfErr result IsLineFault }
{
    let Ok(first) = u32::try_from(next) else {
        return Err(Refusal::Chunk(ChunkFault::NumberTooLarge));
    };
    let chunk = chunk_at(alloc, definitions, at, first, lines)?;
    let told = tell_numbers(alloc, first, chunk.rows().len())?;
    Ok((chunk, told.into_bytes()))
}

/// Takes the rows of these numbers out of a frame. Where no frame has the name it is refused
/// (`C11`).
pub fn delete<S: ViewStore>(
    alloc: Global,
    definitions: &Definitions,
    store: &mut S,
    frame: &str,
    numbers: List<u32>,
) -> Result<(), Refusal>
    ensures made { OnOk result ((at : ℕ) × (frame_index_of definitions.now frame.now ≡ Some at)
        × S.Makes store.old store.new (Delete at numbers)) }
    ensures refused { IfErr result
        (IsRefusalAtFrame (S.Refuses store.old store.new) (λ at. Delete at numbers)
        (frame_index_of definitions.now frame.now)) }
    ensures same { OnErr result (S.Keeps store.old store.new) }
{
    let Some(at) = definitions.frame_index(frame) else {
        return Err(Refusal::Store(CatalogueFault::NoFrame));
    };
    Ok(store.make(alloc, Change::Delete(at, numbers))?)
}

/// Puts the rows of lines of CSV in the place of those of these numbers in a frame.
///
/// The first of these is answered: `C11` where no frame has the name; why the lines could not be
/// read; why they are no rows behind the numbers (`read_rows`); the store's refusal.
pub fn replace<S: ViewStore>(
    alloc: Global,
    definitions: &Definitions,
    store: &mut S,
    frame: &str,
    numbers: List<u32>,
    lines: Result<Vec<u8>, Refusal>,
) -> Result<(), Refusal>
    ensures made { OnOk result
        ((at : ℕ) × (rows : Seq (ℕ × Seq Cell)) × IsOk lines
        × (frame_index_of definitions.now frame.now ≡ Some at)
        × AreRowsOf definitions.now at numbers rows
        × S.Makes store.old store.new (Replace at rows)) }
    ensures refused { IfErr result
        (IsRefusalOfReplace (S.Refuses store.old store.new) definitions.now
        (frame_index_of definitions.now frame.now) numbers lines) }
    ensures same { OnErr result (S.Keeps store.old store.new) }
{
    let Some(at) = definitions.frame_index(frame) else {
        return Err(Refusal::Store(CatalogueFault::NoFrame));
    };
    let lines = lines?;
    let rows = rows_at(alloc, definitions, at, numbers, lines.as_slice())?;
    Ok(store.make(alloc, Change::Replace(at, rows))?)
}

// The rows behind these numbers that lines of CSV make in the frame at this index.
fn rows_at(
    alloc: Global,
    definitions: &Definitions,
    at: usize,
    numbers: List<u32>,
    lines: &[u8],
) -> Result<List<(u32, Row)>, Refusal>
    requires { at < length definitions.now.document.frames }
    ensures rows { IfOk result (AreRowsOf definitions.now at numbers) }
    ensures refused { IfErr result IsRowsFault }
{
    let schema = &definitions.document.frames.as_slice()[at].schema;
    read_rows(alloc, schema, numbers, lines)
}

/// Adds last the view of this name, of the document or one that was defined. A name of no such view is a mistake.
pub fn register<S: ViewStore>(
    alloc: Global,
    definitions: &Definitions,
    store: &mut S,
    view: &str,
) -> Result<(), Refusal>
    ensures made { OnOk result
        ((plan : CheckedParts) × (plan_named definitions.now view.now ≡ Some plan)
        × S.Makes store.old store.new (Register view.now plan)) }
    ensures refused { IfErr result
        (IsRefusalOfRegister (S.Refuses store.old store.new) view.now (plan_named definitions.now view.now)) }
    ensures same { OnErr result (S.Keeps store.old store.new) }
{
    let Some(plan) = definitions.plan(view) else {
        return Err(Refusal::Mistake(Mistake::NoView));
    };
    let name = Text::from_str(alloc, view)?;
    let plan = plan.copy(alloc)?;
    Ok(store.make(alloc, Change::Register(name, plan))?)
}

/// Takes the view of this name out.
pub fn drop_view<S: ViewStore>(alloc: Global, store: &mut S, view: &str) -> Result<(), Refusal>
    ensures made { OnOk result
        (S.Makes store.old store.new (DropView view.now)) }
    ensures refused { IfErr result (IsRefusalOfChange (S.Refuses store.old store.new) (DropView view.now)) }
    ensures same { OnErr result (S.Keeps store.old store.new) }
{
    let name = Text::from_str(alloc, view)?;
    Ok(store.make(alloc, Change::DropView(name))?)
}
