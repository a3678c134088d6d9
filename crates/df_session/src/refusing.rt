//! What a session writes of a command that is refused.
ghost use Rattle.std.specs.Prelude.{◌≡◌, IfOk, OnOk, string_bytes};
ghost use Rattle.df_session.specs.Codes.{code_of};
ghost use Rattle.df_session.specs.Refused.{IsRefusalWritten};
ghost use Rattle.df_session.specs.Texts.{words_of};

use crate::fault::ShellFault;
use crate::options::{SessionEnd, SessionOptions};
use crate::refusal::{Mistake, Refusal};
use crate::refusal_codes::refusal_code;
use crate::refusal_words::refusal_words;
use crate::words::read_words;
use crate::writing::{Status, write_answer};
use csv::StringRecord;
use std::alloc::{AllocError, Global};
use std::io::Write;

/// Writes why a command is refused, if it is framed behind its code. `name` is that of the frame, the view or the file that
/// it is about, or empty where it is not known. Where there is no memory for the text, it is `memory`.
pub fn write_refusal<W: Write>(
    alloc: Global,
    output: &mut W,
    framed: bool,
    name: &str,
    refusal: &Refusal,
) -> Result<(), ShellFault>
    ensures { OnOk result (IsRefusalWritten framed name.now refusal.now
        (W.contents output.old) (W.contents output.new)) }
{
    match texts_of(alloc, name, refusal) {
        Ok((code, words)) => {
            let (code, words) = (code.as_bytes(), words.as_bytes());
            write_answer(output, framed, Status::Error(code), &[code, words, b"\n"])
        }
        Err(_) => write_answer(output, framed, Status::Error(b"memory"), &[b"memory\n"]),
    }
}

// The code of a refusal, and the words behind it.
fn texts_of(alloc: Global, name: &str, refusal: &Refusal) -> Result<(String, String), AllocError>
    ensures code { IfOk result (λ texts. string_bytes texts.0 ≡ code_of refusal.now) }
    ensures words { IfOk result (λ texts. string_bytes texts.1 ≡ words_of name.now refusal.now) }
{
    let code = refusal_code(alloc, refusal)?;
    let words = refusal_words(alloc, name, refusal)?;
    Ok((code, words))
}

/// Writes why a command is refused. Some: that ends the session.
pub fn refuse<W: Write>(
    alloc: Global,
    output: &mut W,
    options: SessionOptions<'_>,
    name: &str,
    refusal: &Refusal,
) -> Result<Option<SessionEnd>, ShellFault> {
    write_refusal(alloc, output, options.framed, name, refusal)?;
    Ok(end_behind_refusal(options))
}

/// Writes why the command of a line is refused, with the name that stands in the line. Some: that ends the session.
pub fn refuse_line<W: Write>(
    alloc: Global,
    output: &mut W,
    options: SessionOptions<'_>,
    line: &[u8],
    refusal: &Refusal,
) -> Result<Option<SessionEnd>, ShellFault> {
    match read_words(alloc, line) {
        Ok(words) => {
            let refused = refuse(alloc, output, options, name_in(&words, refusal), refusal);
            drop(words);
            refused
        }
        // A line that is no text was refused for that. Else there is no memory for its words.
        Err(fault) => {
            let refused = refuse(alloc, output, options, "", &fault);
            drop(fault);
            refused
        }
    }
}

// The name that a refusal is about, as it stands behind a command: that of the frame, the view or the path; or the command, if
// there is none.
fn name_in<'a>(words: &'a StringRecord, refusal: &Refusal) -> &'a str {
    let at = match (refusal, words.get(0)) {
        (Refusal::Mistake(Mistake::NoCommand), Some("help")) => 1,
        (Refusal::Mistake(Mistake::NoCommand), _) => 0,
        (Refusal::File(_), _) => 2,
        // Of several views it is not known which one it is.
        (_, Some("report" | "follow")) if words.len() > 3 => words.len(),
        (_, Some("report" | "follow")) => 2,
        _ => 1,
    };
    words.get(at).unwrap_or("")
}

fn end_behind_refusal(options: SessionOptions<'_>) -> Option<SessionEnd> {
    if options.bail {
        Some(SessionEnd::Refused)
    } else {
        None
    }
}
