//! A run, from the bytes of a document to what is written.
ghost use Rattle.std.specs.Prelude.{◌≡◌, ◌≤◌, ℕ, IfErr, IfSome};
ghost use Rattle.df_value.specs.Limits.{most_rows_of_chunk};
ghost use Rattle.df_app.specs.ChunkSizes.{IsSameUnlessRefused};
ghost use Rattle.df_document.specs.Answers.{KnowsFiles};
ghost use Rattle.df_app.specs.Output.{output_of};
ghost use Rattle.df_app.specs.Ran.{IsOutput, KeepsUnlessWrite, IsRunOn, IsWriting, LeavesFiles};

use crate::fault::RunFault;
use crate::loading::load_output;
use crate::outcome::{Outcome, Output};
use df_catalogue::PARTS_OF_LEDGER;
use df_document::{Files, open_sources};
use df_store::Gate;
use df_text::write_text;
use std::alloc::Global;
use std::io::{Read, Write};
use std::marker::Brand;
use std::sync::Wait;
use std::sync::ledger::Blank;
use std::thread::Threads;

/// Reads a view document and the files that it names, and writes its views and the chunks that were
/// refused.
///
/// The document is read whole, at most 1,048,576 bytes; its plans are checked in the order of the
/// views; its frames are read in their order and typed in chunks of `chunk` records, 1 to 65,536. A
/// file that cannot be opened, or of which a read fails, is a `ReadFault` of its frame. No file is
/// opened before all plans are checked. A chunk with a bad cell does not enter its frame. Only then
/// is anything written: the tables of the views in the document's order, then a line for each
/// refused chunk. At a fault other than [`RunFault::Write`] nothing was written, at that one a
/// prefix of the output. So many workers, 1 to 16, type the chunks, and pass the gate before each, and at most as many
/// threads read the records of a file; what is written depends neither on their number nor on the gate.
pub fn run<V: Read, F: Files, W: Write, G: Gate + Sync, R: Threads + Wait + Sync>(
    rt: &R,
    alloc: Global,
    reader: &mut V,
    files: &mut F,
    workers: usize,
    chunk: usize,
    gate: &G,
    writer: &mut W,
) -> Result<Outcome, RunFault>
    requires workers { 1 ≤ workers }
    requires few_workers { workers ≤ 16 }
    requires some { 1 ≤ chunk }
    requires few { chunk ≤ most_rows_of_chunk }
    ensures ran { IfSome (V.remaining reader.old)
        (λ bytes. KnowsFiles (F.file_at files.old) bytes →
        IsRunOn bytes (F.file_at files.old) chunk (W.contents writer.old)
        (W.contents writer.new) result) }
    ensures nothing_else { IfErr result
        (KeepsUnlessWrite (W.contents writer.old) (W.contents writer.new)) }
    ensures same { F.file_at files.new ≡ F.file_at files.old }
    ensures untouched { IfErr result (LeavesFiles files.old files.new) }

    // What a run with another size of chunks is to give is the same fault, or has the same outcome,
    // and the same text where no chunk is refused.
    ensures any_size { IfSome (V.remaining reader.old) (λ bytes. (size : ℕ) → 1 ≤ size →
        IsSameUnlessRefused (output_of bytes (F.file_at files.old) chunk)
        (output_of bytes (F.file_at files.old) size)) }
{
    match read_output(rt, alloc, reader, files, workers, chunk, gate) {
        Ok(output) => write_output(writer, &output),
        Err(fault) => Err(fault),
    }
}

fn read_output<V: Read, F: Files, G: Gate + Sync, R: Threads + Wait + Sync>(
    rt: &R,
    alloc: Global,
    reader: &mut V,
    files: &mut F,
    workers: usize,
    chunk: usize,
    gate: &G,
) -> Result<Output, RunFault>
    requires some { 1 ≤ chunk }
    requires few { chunk ≤ most_rows_of_chunk }
    ensures same { F.file_at files.new ≡ F.file_at files.old }
    ensures untouched { IfErr result (LeavesFiles files.old files.new) }
    ensures value { IfSome (V.remaining reader.old)
        (λ bytes. KnowsFiles (F.file_at files.old) bytes →
        IsOutput bytes (F.file_at files.old) chunk result) }
{
    match open_sources(rt, alloc, reader, files, workers, chunk) {
        Ok(sourced) => load_output::<Brand, Brand, G, R>(
            rt,
            alloc,
            Blank::new(PARTS_OF_LEDGER),
            Blank::new(PARTS_OF_LEDGER),
            &sourced,
            workers,
            chunk,
            gate,
        ),
        Err(fault) => Err(RunFault::from(fault)),
    }
}

fn write_output<W: Write>(writer: &mut W, output: &Output) -> Result<Outcome, RunFault>
    ensures { IsWriting output.now (W.contents writer.old) (W.contents writer.new) result }
{
    match write_text(writer, output.text.as_slice()) {
        Ok(()) => Ok(output.outcome),
        Err(_) => Err(RunFault::Write),
    }
}
