//! The texts of faults.
ghost use Rattle.std.specs.Prelude.{◌≡◌, IfOk, codes, string_bytes};
ghost use Rattle.df_document.specs.Texts.{code_with_name};
ghost use Rattle.df_app.specs.Texts as texts;
ghost use Rattle.df_app.specs.Texts.{fault_text_of};

use crate::fault::{NamedLoadCause, RunFault};
use df_document::document_fault_text;
use df_text::escape;
use df_value::Text;
use std::alloc::{AllocError, Global};

/// The text of a fault, as the program prints it behind `dfviews: `: that of the document's fault, or the code of the
/// fault and behind it the name or the number that it is about. Names are escaped as in a printed table.
pub fn fault_text(alloc: Global, fault: &RunFault) -> Result<String, AllocError>
    ensures { IfOk result (λ text. string_bytes text ≡ fault_text_of fault.now) }
{
    match fault {
        RunFault::Document(fault) => document_fault_text(alloc, fault),
        RunFault::Load(cause) => load_text(alloc, cause),
        RunFault::Write => String::from_str(alloc, "write"),
        RunFault::Memory => String::from_str(alloc, "memory"),
    }
}

fn load_text(alloc: Global, cause: &NamedLoadCause) -> Result<String, AllocError>
    ensures { IfOk result (λ text. string_bytes text ≡ texts.load_text cause.now) }
{
    match cause {
        NamedLoadCause::Refused(_) => String::from_str(alloc, "L7"),
        NamedLoadCause::Spent => String::from_str(alloc, "L6"),
        NamedLoadCause::Ahead => String::from_str(alloc, "L8"),
        NamedLoadCause::MissingDesk(frame) => text_of_frame(alloc, "L5", frame),
        NamedLoadCause::Lost(job) => format!(in alloc; "L2 {job}"),
        NamedLoadCause::Unlike(frame) => text_of_frame(alloc, "L3", frame),
        NamedLoadCause::ViewsUnlike => String::from_str(alloc, "L4"),
    }
}

fn text_of_frame(alloc: Global, code: &str, name: &Text) -> Result<String, AllocError>
    ensures { IfOk result (λ text. string_bytes text ≡ code_with_name code.now name.now) }
{
    let name = escape(alloc, name.as_str())?;
    let name = name.as_str();
    format!(in alloc; "{code} {name}")
}
