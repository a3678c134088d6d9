//! The shell without a document.
use crate::hall_shell::answer_prepared_in_hall;
use crate::shell::answer_prepared;
use df_document::Files;
use df_session::{
    Beginning, Declared, Declaring, Refusal, SessionEnd, SessionOptions, ShellFault, WriteFiles,
};
use std::alloc::Global;
use std::io::{BufRead, Write};
use std::rt::Clock;
use std::sync::Wait;
use std::thread::Threads;

/// Answers the commands of `input` as [`run_shell`](crate::run_shell) does, or with a hall as
/// [`run_hall_shell`](crate::run_hall_shell), over no document: the session begins without frames, and declares them up to the
/// first command that may change them. A question before it is answered from a store of its own.
pub fn run_declared_shell<
    R: Threads + Wait + Clock + Sync,
    F: Files + WriteFiles,
    I: BufRead,
    W: Write,
>(
    rt: &R,
    alloc: Global,
    hall: bool,
    files: &mut F,
    options: SessionOptions<'_>,
    input: &mut I,
    output: &mut W,
) -> Result<Option<SessionEnd>, ShellFault> {
    let mut declaring = Declaring::new(alloc, options)?;
    let answered = answer_declaring(
        rt,
        alloc,
        hall,
        &mut declaring,
        files,
        options,
        input,
        output,
    );
    drop(declaring);
    answered
}

fn answer_declaring<R: Threads + Wait + Clock + Sync, F: Files + WriteFiles, I: BufRead, W: Write>(
    rt: &R,
    alloc: Global,
    hall: bool,
    declaring: &mut Declaring<'_>,
    files: &mut F,
    options: SessionOptions<'_>,
    input: &mut I,
    output: &mut W,
) -> Result<Option<SessionEnd>, ShellFault> {
    declaring.greet(alloc, output)?;
    for _ in 0..u64::MAX {
        let beginning = match declaring.answer_lines(alloc, input, output)? {
            Declared::Store(beginning) => beginning,
            Declared::End(end) => return Ok(Some(end)),
        };
        match open_and_answer(
            rt, alloc, hall, declaring, beginning, files, options, input, output,
        ) {
            Ok(None) => {}
            Ok(end) => return Ok(end),
            Err(fault) => {
                if !fault.is_memory() {
                    return Err(fault);
                }
                let end = declaring.refuse(alloc, input, output, &Refusal::Memory)?;
                if end.is_some() {
                    return Ok(end);
                }
            }
        }
    }
    Ok(None)
}

fn open_and_answer<R: Threads + Wait + Clock + Sync, F: Files + WriteFiles, I: BufRead, W: Write>(
    rt: &R,
    alloc: Global,
    hall: bool,
    declaring: &Declaring<'_>,
    beginning: Beginning,
    files: &mut F,
    options: SessionOptions<'_>,
    input: &mut I,
    output: &mut W,
) -> Result<Option<SessionEnd>, ShellFault> {
    let prepared = declaring.prepare(alloc, beginning)?;
    if hall {
        answer_prepared_in_hall(rt, alloc, prepared, options, files, input, output)
    } else {
        answer_prepared(rt, alloc, prepared, options, files, input, output)
    }
}
