//! The faults of frames that a session declares, and of views that it defines.
ghost use Rattle.std.specs.Prelude.{◌≡◌, IfOk, string_bytes};
ghost use Rattle.df_session.specs.DefinitionTexts as texts;

use df_document::{DocumentFault, document_fault_text, plan_text, views_text};
use df_text::{Location, ViewsFault};
use df_value::SchemaFault;
use std::alloc::{AllocError, Global};

/// The code of the fault of a view: that of a document without the view's name.
pub fn definition_code(alloc: Global, fault: &DocumentFault) -> Result<String, AllocError>
    ensures { IfOk result (λ code. string_bytes code ≡ texts.definition_code fault.now) }
{
    match fault {
        DocumentFault::Views(fault) => views_text(alloc, fault),
        DocumentFault::Plan(_, fault) => plan_text(alloc, fault),
        // Others do not come of a view.
        _ => document_fault_text(alloc, fault),
    }
}

/// The fault of a frame in words.
pub fn frame_words(fault: &ViewsFault) -> &'static str
    ensures { result.now ≡ texts.frame_words fault.now }
{
    match fault {
        ViewsFault::Word(Location::Frame(_)) => "a column's type is Int, Text or Bool",
        ViewsFault::Doubled(Location::Frame(_)) => "a frame of this name is declared",
        ViewsFault::TooManyFrames => "8 frames are declared",
        ViewsFault::Schema(_, fault) => schema_words(fault),
        ViewsFault::Memory => "out of memory",
        // Others do not come of a frame.
        _ => "a fault of a document",
    }
}

fn schema_words(fault: &SchemaFault) -> &'static str
    ensures { result.now ≡ texts.schema_words fault.now }
{
    match fault {
        SchemaFault::DoubledName => "two columns have one name",
        SchemaFault::TooWide => "more than 32 columns",
        SchemaFault::NoColumns => "no column",
    }
}
