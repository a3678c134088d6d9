//! `dfviews`: reads a view document and the files that it names, and writes the printed views to
//! standard output.
#![tactic(auto)]

mod progress;

ghost use Rattle.std.specs.Prelude.{◌≤◌};
ghost use Rattle.df_value.specs.Limits.{most_rows_of_chunk};

use clap::error::ErrorKind;
use df_app::{DocumentFault, Files, Outcome, RunFault, SystemFiles, fault_text, run};
use df_words::{Words, words};
use progress::Progress;
use std::alloc::AllocError;
use std::io::Read;
use std::process::ExitCode;
use std::sync::Wait;
use std::thread::Threads;
use std::{env, io};

fn main(rt: HostRuntime) -> ExitCode {
    match env::args(&rt) {
        Ok(arguments) => match run_arguments(&rt, &rt, arguments) {
            Ok(code) => code,
            Err(_) => report(&rt, &RunFault::Memory),
        },
        Err(error) => refuse_arguments(&rt, &error),
    }
}

// The first argument is the program's name. `threads` is the runtime once more, which `main` alone can hand on as what
// starts threads.
fn run_arguments<R: Threads + Wait + Sync>(
    rt: &HostRuntime,
    threads: &R,
    arguments: env::Args,
) -> Result<ExitCode, AllocError> {
    let arguments: Vec<String> = arguments.skip(1).collect(rt.alloc())?;
    let line: Vec<&str> = arguments
        .iter()
        .map(|word| word.as_str())
        .collect(rt.alloc())?;
    Ok(run_line(rt, threads, line.as_slice()))
}

fn run_line<R: Threads + Wait + Sync>(rt: &HostRuntime, threads: &R, line: &[&str]) -> ExitCode {
    match words(rt.alloc(), line) {
        Ok(words) => match run_words(rt, threads, words) {
            Ok(Outcome::Clean) => ExitCode::from(0),
            Ok(Outcome::Refused) => ExitCode::from(1),
            Err(fault) => report(rt, &fault),
        },
        Err(error) => answer(rt, &error),
    }
}

// A view document that cannot be opened is one that cannot be read.
fn run_words<R: Threads + Wait + Sync>(
    rt: &HostRuntime,
    threads: &R,
    words: Words<'_>,
) -> Result<Outcome, RunFault>
    requires some_workers { 1 ≤ words.workers }
    requires few_workers { words.workers ≤ 16 }
    requires some { 1 ≤ words.chunk }
    requires few { words.chunk ≤ most_rows_of_chunk }
{
    match words.views {
        Some(path) => match (SystemFiles { rt }).open(path) {
            Some(mut file) => run_reader(rt, threads, &mut file, words),
            None => Err(RunFault::Document(DocumentFault::ReadFault)),
        },
        None => run_reader(rt, threads, &mut rt.stdin(), words),
    }
}

fn run_reader<V: Read, R: Threads + Wait + Sync>(
    rt: &HostRuntime,
    threads: &R,
    reader: &mut V,
    words: Words<'_>,
) -> Result<Outcome, RunFault>
    requires some_workers { 1 ≤ words.workers }
    requires few_workers { words.workers ≤ 16 }
    requires some { 1 ≤ words.chunk }
    requires few { words.chunk ≤ most_rows_of_chunk }
{
    let mut files = SystemFiles { rt };
    let mut output = rt.stdout();
    run(
        threads,
        rt.alloc(),
        reader,
        &mut files,
        words.workers,
        words.chunk,
        &Progress::new(rt),
        &mut output,
    )
}

// What clap answers in the place of words: help on standard output, or why it refuses them on
// standard error.
fn answer(rt: &HostRuntime, error: &clap::Error) -> ExitCode {
    if error.kind() == ErrorKind::OutOfMemory {
        return report(rt, &RunFault::Memory);
    }
    match error.print(rt) {
        Ok(()) if error.use_stderr() => ExitCode::from(2),
        Ok(()) => ExitCode::from(0),
        Err(_) => report(rt, &RunFault::Write),
    }
}

// Arguments that are no text, or for which there was no memory.
fn refuse_arguments(rt: &HostRuntime, error: &io::Error) -> ExitCode {
    if error.kind() == io::ErrorKind::OutOfMemory {
        return report(rt, &RunFault::Memory);
    }
    let _ = eprintln!(rt; "error: an argument is not UTF-8");
    ExitCode::from(2)
}

// One line on standard error. Where that cannot be written either, the status alone tells.
fn report(rt: &HostRuntime, fault: &RunFault) -> ExitCode {
    let _ = match fault_text(rt.alloc(), fault) {
        Ok(text) => eprintln!(rt; "dfviews: {text}"),
        Err(_) => eprintln!(rt; "dfviews: memory"),
    };
    ExitCode::from(2)
}
