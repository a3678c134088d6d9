//! The texts of the faults of a document.
ghost use Rattle.std.specs.Prelude.{◌≡◌, IfOk, codes, string_bytes};
ghost use Rattle.df_document.specs.Texts as texts;
ghost use Rattle.df_document.specs.Texts.{text_in_full, fault_text_of};

use crate::fault::DocumentFault;
use df_expr::ExprFault;
use df_plan::PlanFault;
use df_text::{CsvFault, Location, ViewsFault, escape};
use df_value::{SchemaFault, Text};
use std::alloc::{AllocError, Global};

/// The text of a fault, as a program prints it behind its name: the code of the fault, before it the name of the view or
/// frame, behind it the place, the name or the number that it is about. Names are escaped as in a printed table.
pub fn document_fault_text(alloc: Global, fault: &DocumentFault) -> Result<String, AllocError>
    ensures { IfOk result (λ text. string_bytes text ≡ fault_text_of fault.now) }
{
    if is_memory(fault) {
        return String::from_str(alloc, "memory");
    }
    full_text(alloc, fault)
}

fn is_memory(fault: &DocumentFault) -> bool
    ensures { result ≡ texts.is_memory fault.now }
{
    match fault {
        DocumentFault::Memory => true,
        DocumentFault::Views(ViewsFault::Memory) => true,
        DocumentFault::Plan(_, PlanFault::Memory) => true,
        DocumentFault::Plan(_, PlanFault::Expr(ExprFault::Memory)) => true,
        DocumentFault::Csv(_, CsvFault::Memory) => true,
        _ => false,
    }
}

fn full_text(alloc: Global, fault: &DocumentFault) -> Result<String, AllocError>
    ensures { IfOk result (λ text. string_bytes text ≡ text_in_full fault.now) }
{
    match fault {
        DocumentFault::ReadFault => String::from_str(alloc, "V10"),
        DocumentFault::TooLarge => String::from_str(alloc, "V9"),
        DocumentFault::Views(fault) => views_text(alloc, fault),
        DocumentFault::Plan(view, fault) => text_under_name(alloc, view, plan_text(alloc, fault)?),
        DocumentFault::Csv(frame, fault) => text_under_name(alloc, frame, csv_text(alloc, fault)?),
        DocumentFault::Memory => String::from_str(alloc, "memory"),
    }
}

fn text_under_name(alloc: Global, name: &Text, text: String) -> Result<String, AllocError>
    ensures { IfOk result
        (λ all. string_bytes all ≡ texts.text_under_name name.now (string_bytes text)) }
{
    let name = escape(alloc, name.as_str())?;
    let name = name.as_str();
    let text = text.as_str();
    format!(in alloc; "{name}: {text}")
}

fn code_with_name(alloc: Global, code: &str, name: &Text) -> Result<String, AllocError>
    ensures { IfOk result (λ text. string_bytes text ≡ texts.code_with_name code.now name.now) }
{
    let name = escape(alloc, name.as_str())?;
    let name = name.as_str();
    format!(in alloc; "{code} {name}")
}

fn code_with_location(alloc: Global, code: &str, location: Location) -> Result<String, AllocError>
    ensures { IfOk result (λ text. string_bytes text ≡ texts.code_with_location code.now location) }
{
    match location {
        Location::Top => format!(in alloc; "{code} top"),
        Location::Frame(n) => format!(in alloc; "{code} frame {n}"),
        Location::View(n) | Location::Step(n, _) | Location::Item(n, _, _) => {
            format!(in alloc; "{code} view {n}")
        }
    }
}

fn schema_text(fault: &SchemaFault) -> &'static str
    ensures { result.now ≡ texts.schema_text fault.now }
{
    match fault {
        SchemaFault::DoubledName => "S1",
        SchemaFault::TooWide => "S2",
        SchemaFault::NoColumns => "S3",
    }
}

/// The text of a fault of a document's shape.
pub fn views_text(alloc: Global, fault: &ViewsFault) -> Result<String, AllocError>
    ensures { IfOk result (λ text. string_bytes text ≡ texts.views_text fault.now) }
{
    match fault {
        ViewsFault::NotToml => String::from_str(alloc, "V1"),
        ViewsFault::Shape(location) => code_with_location(alloc, "V2", *location),
        ViewsFault::Word(location) => code_with_location(alloc, "V3", *location),
        ViewsFault::Doubled(location) => code_with_location(alloc, "V4", *location),
        ViewsFault::TooManyFrames => String::from_str(alloc, "V5 frame"),
        ViewsFault::TooManyViews => String::from_str(alloc, "V5 view"),
        ViewsFault::NoFrame(location) => code_with_location(alloc, "V6", *location),
        ViewsFault::Schema(n, fault) => {
            let fault = schema_text(fault);
            format!(in alloc; "V7 frame {n} {fault}")
        }
        ViewsFault::Memory => String::from_str(alloc, "memory"),
    }
}

fn expr_text(alloc: Global, fault: &ExprFault) -> Result<String, AllocError>
    ensures { IfOk result (λ text. string_bytes text ≡ texts.expr_text fault.now) }
{
    match fault {
        ExprFault::NoColumn(name) => code_with_name(alloc, "P2 E1", name),
        ExprFault::WrongType => String::from_str(alloc, "P2 E2"),
        ExprFault::TooDeep => String::from_str(alloc, "P2 E3"),
        ExprFault::Memory => String::from_str(alloc, "memory"),
    }
}

/// The text of a fault of a view's plan, as it stands behind the view's name.
pub fn plan_text(alloc: Global, fault: &PlanFault) -> Result<String, AllocError>
    ensures { IfOk result (λ text. string_bytes text ≡ texts.plan_text fault.now) }
{
    match fault {
        PlanFault::NoFrame(n) => format!(in alloc; "P1 {n}"),
        PlanFault::Expr(fault) => expr_text(alloc, fault),
        PlanFault::DoubledName(name) => code_with_name(alloc, "P3", name),
        PlanFault::TooManyScans => String::from_str(alloc, "P4"),
        PlanFault::TooDeep => String::from_str(alloc, "P5"),
        PlanFault::BadWindow => String::from_str(alloc, "P6"),
        PlanFault::EmptyList => String::from_str(alloc, "P7"),
        PlanFault::TooWide => String::from_str(alloc, "P8"),
        PlanFault::ConstantColumn(name) => code_with_name(alloc, "P9", name),
        PlanFault::WrongType(name) => code_with_name(alloc, "P10", name),
        PlanFault::Memory => String::from_str(alloc, "memory"),
    }
}

/// The text of a fault of a frame's CSV, as it stands behind the frame's name.
pub fn csv_text(alloc: Global, fault: &CsvFault) -> Result<String, AllocError>
    ensures { IfOk result (λ text. string_bytes text ≡ texts.csv_text fault.now) }
{
    match fault {
        CsvFault::ReadFault => String::from_str(alloc, "F1"),
        CsvFault::TooLarge => String::from_str(alloc, "F2"),
        CsvFault::NotText => String::from_str(alloc, "F3"),
        CsvFault::BadRecord(n) => format!(in alloc; "F4 {n}"),
        CsvFault::MissingColumn(name) => code_with_name(alloc, "F5", name),
        CsvFault::DoubledHeader(name) => code_with_name(alloc, "F6", name),
        CsvFault::TooManyRecords => String::from_str(alloc, "F7"),
        CsvFault::Memory => String::from_str(alloc, "memory"),
    }
}
