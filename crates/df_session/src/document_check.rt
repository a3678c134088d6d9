//! The check of a document, without a session.
use crate::fault::ShellFault;
use crate::prepared::{Prepared, prepare};
use crate::prompts::counts;
use crate::writing::{Status, write_answer};
use df_document::Files;
use std::alloc::Global;
use std::io::{Read, Write};
use std::thread::Threads;

/// What a document is that opens.
#[derive(Clone, Copy, Debug, PartialEq, Eq)]
pub enum DocumentCheck {
    /// All of its rows enter.
    Clean,
    /// Some chunks of its rows are refused.
    Refused,
}

/// Opens a document and its files as a session does, and writes `ok: ` and how many frames and views there are, or the
/// lines of the chunks that are refused.
pub fn check_document<R: Threads + Sync, V: Read, F: Files, W: Write>(
    rt: &R,
    alloc: Global,
    document: &mut V,
    files: &mut F,
    output: &mut W,
) -> Result<DocumentCheck, ShellFault> {
    let prepared = prepare(rt, alloc, document, files)?;
    let told = tell_check(alloc, &prepared, output);
    drop(prepared);
    told
}

fn tell_check<W: Write>(
    alloc: Global,
    prepared: &Prepared,
    output: &mut W,
) -> Result<DocumentCheck, ShellFault> {
    let refused = prepared.refused.as_slice();
    if refused.is_empty() {
        let counts = counts(alloc, &prepared.definitions)?;
        let counts = counts.as_str();
        let line = format!(in alloc; "ok: {counts}\n")?;
        write_answer(output, false, Status::Ok, &[line.as_bytes()])?;
        return Ok(DocumentCheck::Clean);
    }
    write_answer(output, false, Status::Ok, &[refused])?;
    Ok(DocumentCheck::Refused)
}
