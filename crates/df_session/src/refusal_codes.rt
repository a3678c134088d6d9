//! The codes of refusals.
ghost use Rattle.std.specs.Prelude.{◌≡◌, ◌++◌, IfOk, codes, decimal, string_bytes};
ghost use Rattle.df_session.specs.Codes as codes_spec;
ghost use Rattle.df_session.specs.Codes.{code_of};

use crate::definition_texts::definition_code;
use crate::refusal::{Refusal, VersionFault, WriteFault};
use df_document::{csv_text, views_text};
use df_state::CatalogueFault;
use df_text::escape;
use df_value::{ChunkFault, Text};
use std::alloc::{AllocError, Global};

/// The code of a refusal and what it is about, in one line, as `C5 99`; `?` where the line is no command. Names are escaped
/// as in a printed table.
pub fn refusal_code(alloc: Global, refusal: &Refusal) -> Result<String, AllocError>
    ensures { IfOk result (λ code. string_bytes code ≡ code_of refusal.now) }
{
    match refusal {
        Refusal::Mistake(_) => String::from_str(alloc, "?"),
        Refusal::Store(fault) => catalogue_code(alloc, *fault),
        Refusal::Csv(fault) => csv_text(alloc, fault),
        Refusal::Length(length) => record_code(alloc, length.record),
        Refusal::File(fault) => csv_text(alloc, fault),
        Refusal::Cell(number, column) => cell_code(alloc, *number, column),
        Refusal::Chunk(fault) => String::from_str(alloc, chunk_code(fault)),
        Refusal::Frame(fault) => views_text(alloc, fault),
        Refusal::Definition(fault, _) => definition_code(alloc, fault),
        Refusal::Version(fault) => String::from_str(alloc, version_code(*fault)),
        Refusal::Write(fault) => String::from_str(alloc, write_code(*fault)),
        Refusal::Memory => String::from_str(alloc, "memory"),
    }
}

fn catalogue_code(alloc: Global, fault: CatalogueFault) -> Result<String, AllocError>
    ensures { IfOk result (λ code. string_bytes code ≡ codes_spec.catalogue_code fault) }
{
    match fault {
        CatalogueFault::SchemaUnlike => String::from_str(alloc, "C1"),
        CatalogueFault::Taken(number) => format!(in alloc; "C2 {number}"),
        CatalogueFault::Full => String::from_str(alloc, "C3"),
        CatalogueFault::Doubled(number) => format!(in alloc; "C4 {number}"),
        CatalogueFault::NotLive(number) => format!(in alloc; "C5 {number}"),
        CatalogueFault::ViewExists => String::from_str(alloc, "C6"),
        CatalogueFault::TooManyViews => String::from_str(alloc, "C7"),
        CatalogueFault::NoView => String::from_str(alloc, "C8"),
        CatalogueFault::Memory => String::from_str(alloc, "memory"),
        CatalogueFault::PlanUnlike => String::from_str(alloc, "C10"),
        CatalogueFault::NoFrame => String::from_str(alloc, "C11"),
    }
}

fn record_code(alloc: Global, number: u64) -> Result<String, AllocError>
    ensures { IfOk result (λ code. string_bytes code ≡ codes "F4 " ++ decimal number) }
{
    format!(in alloc; "F4 {number}")
}

fn cell_code(alloc: Global, number: u64, column: &Text) -> Result<String, AllocError>
    ensures { IfOk result (λ code. string_bytes code ≡ codes_spec.cell_code number column.now) }
{
    let name = escape(alloc, column.as_str())?;
    let name = name.as_str();
    format!(in alloc; "record {number}, column {name}")
}

fn chunk_code(fault: &ChunkFault) -> &'static str
    ensures { result.now ≡ codes_spec.chunk_code fault.now }
{
    match fault {
        ChunkFault::TooLong => "S5",
        ChunkFault::NumberTooLarge => "S6",
        ChunkFault::RowUnlike(_) => "S4",
        ChunkFault::Memory => "memory",
    }
}

fn version_code(fault: VersionFault) -> &'static str
    ensures { result.now ≡ codes_spec.version_code fault }
{
    match fault {
        VersionFault::Spent => "H1",
        VersionFault::Ahead => "H2",
        VersionFault::Missing => "H3",
    }
}

fn write_code(fault: WriteFault) -> &'static str
    ensures { result.now ≡ codes_spec.write_code fault }
{
    match fault {
        WriteFault::NotMade => "W1",
        WriteFault::NotWritten => "W2",
        WriteFault::NotPlaced => "W3",
        WriteFault::Memory => "memory",
    }
}
