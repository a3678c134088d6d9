//! The texts of refusals.
ghost use Rattle.std.specs.Prelude.{◌≡◌, IfOk, string_bytes};
ghost use Rattle.df_session.specs.Texts as texts;
ghost use Rattle.df_session.specs.Texts.{text_of};

use crate::refusal::Refusal;
use crate::refusal_codes::refusal_code;
use crate::refusal_words::refusal_words;
use df_state::NewFault;
use std::alloc::{AllocError, Global};

/// The text of a refusal, as the shell answers it: the code and what it is about, then `: ` and both in words; or `?` and
/// what is wrong with the line. `name` is that of the frame, the view, the command or the file that it is about, or empty
/// where it is not known. Names are escaped as in a printed table.
pub fn refusal_text(alloc: Global, name: &str, refusal: &Refusal) -> Result<String, AllocError>
    ensures { IfOk result (λ text. string_bytes text ≡ text_of name.now refusal.now) }
{
    let code = refusal_code(alloc, refusal)?;
    let words = refusal_words(alloc, name, refusal)?;
    let (code, words) = (code.as_str(), words.as_str());
    format!(in alloc; "{code}{words}")
}

/// The text of the fault of a catalogue that is not made.
pub fn new_text(alloc: Global, fault: NewFault) -> Result<String, AllocError>
    ensures { IfOk result (λ text. string_bytes text ≡ texts.new_text fault) }
{
    match fault {
        NewFault::TooManyFrames => String::from_str(alloc, "N1"),
        NewFault::DerivedType(frame) => format!(in alloc; "N2 {frame}"),
        NewFault::Memory => String::from_str(alloc, "memory"),
    }
}
