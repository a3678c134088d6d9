//! `dfshell`: reads a view document and the files that it names, and answers commands over its
//! frames and views from standard input on standard output.
#![tactic(auto)]

use clap::error::ErrorKind;
use df_csv::{ReadLimitedFault, read_limited};
use df_document::{DocumentFault, Files, MOST_BYTES_OF_DOCUMENT, SystemFiles};
use df_explain::explanation;
use df_shell::{
    DocumentCheck, Prompts, SessionEnd, SessionOptions, ShellFault, check_document,
    run_declared_shell, run_hall_shell, run_shell, shell_fault_text, write_document_page,
    write_document_sql,
};
use df_words::{CommandLine, read_command_line};
use std::alloc::AllocError;
use std::io::{BufReader, IsTerminal};
use std::process::ExitCode;
use std::rt::Clock;
use std::sync::Wait;
use std::thread::Threads;
use std::{env, io};

fn main(rt: HostRuntime) -> ExitCode {
    match env::args(&rt) {
        Ok(arguments) => match run_arguments(&rt, &rt, arguments) {
            Ok(code) => code,
            Err(_) => report(&rt, &ShellFault::Memory),
        },
        Err(error) => refuse_arguments(&rt, &error),
    }
}

// The first argument is the program's name. `waiting` is the runtime once more, which `main` alone can hand on as what
// may start threads, which read a file, and may wait: a hall does, for its lock.
fn run_arguments<R: Threads + Wait + Clock + Sync>(
    rt: &HostRuntime,
    waiting: &R,
    arguments: env::Args,
) -> Result<ExitCode, AllocError> {
    let arguments: Vec<String> = arguments.skip(1).collect(rt.alloc())?;
    let words: Vec<&str> = arguments
        .iter()
        .map(|word| word.as_str())
        .collect(rt.alloc())?;
    Ok(run_words(rt, waiting, words.as_slice()))
}

fn run_words<R: Threads + Wait + Clock + Sync>(
    rt: &HostRuntime,
    waiting: &R,
    words: &[&str],
) -> ExitCode {
    match read_command_line(rt.alloc(), words) {
        Ok(line) => run_line(rt, waiting, line),
        Err(error) => answer(rt, &error),
    }
}

// A document is read once, so that a fault of its opening is explained by the bytes that were opened.
fn run_line<R: Threads + Wait + Clock + Sync>(
    rt: &HostRuntime,
    waiting: &R,
    line: CommandLine<'_>,
) -> ExitCode {
    let Some(path) = line.views else {
        return match declare(rt, waiting, line) {
            Ok(end) => code_of(end),
            Err(fault) => report(rt, &fault),
        };
    };
    match bytes_at(rt, path) {
        Ok(bytes) => match run_document(rt, waiting, bytes.as_slice(), line) {
            Ok(code) => code,
            Err(fault) => report_at(rt, path, bytes.as_slice(), &fault),
        },
        Err(fault) => report_at(rt, path, &[], &fault),
    }
}

// The bytes of the view document. One that cannot be opened is one that cannot be read.
fn bytes_at(rt: &HostRuntime, path: &str) -> Result<Vec<u8>, ShellFault> {
    let Some(mut document) = (SystemFiles { rt }).open(path) else {
        return Err(ShellFault::Document(DocumentFault::ReadFault));
    };
    match read_limited(rt.alloc(), &mut document, MOST_BYTES_OF_DOCUMENT) {
        Ok(bytes) => Ok(bytes),
        Err(ReadLimitedFault::Failed) => Err(ShellFault::Document(DocumentFault::ReadFault)),
        Err(ReadLimitedFault::TooLarge) => Err(ShellFault::Document(DocumentFault::TooLarge)),
        Err(ReadLimitedFault::Memory) => Err(ShellFault::Memory),
    }
}

fn run_document<R: Threads + Wait + Clock + Sync>(
    rt: &HostRuntime,
    waiting: &R,
    bytes: &[u8],
    line: CommandLine<'_>,
) -> Result<ExitCode, ShellFault> {
    let mut document = bytes;
    let mut files = SystemFiles { rt };
    if line.check {
        let mut output = rt.stdout();
        return match check_document(waiting, rt.alloc(), &mut document, &mut files, &mut output)? {
            DocumentCheck::Clean => Ok(ExitCode::from(0)),
            DocumentCheck::Refused => Ok(ExitCode::from(1)),
        };
    }
    if line.sql {
        let mut output = rt.stdout();
        write_document_sql(waiting, rt.alloc(), &mut document, &mut files, &mut output)?;
        return Ok(ExitCode::from(0));
    }
    if let Some(page) = line.report {
        write_page(rt, waiting, &mut document, &mut files, title_of(line), page)?;
        return Ok(ExitCode::from(0));
    }
    let end = answer_commands(rt, waiting, &mut document, &mut files, line)?;
    Ok(code_of(end))
}

// Writes the page of a document to a file. Chunks that are refused are told on standard output, as a session tells them.
fn write_page<R: Threads + Wait + Sync>(
    rt: &HostRuntime,
    waiting: &R,
    document: &mut &[u8],
    files: &mut SystemFiles<'_, HostRuntime>,
    title: &str,
    page: &str,
) -> Result<(), ShellFault> {
    let mut output = rt.stdout();
    write_document_page(
        waiting,
        rt.alloc(),
        title,
        document,
        files,
        page,
        &mut output,
    )
}

// A session is clean also where chunks are refused: it goes on without them.
fn code_of(end: Option<SessionEnd>) -> ExitCode {
    match end {
        Some(SessionEnd::Refused) => ExitCode::from(1),
        _ => ExitCode::from(0),
    }
}

// A session without a document.
fn declare<R: Threads + Wait + Clock + Sync>(
    rt: &HostRuntime,
    waiting: &R,
    line: CommandLine<'_>,
) -> Result<Option<SessionEnd>, ShellFault> {
    let alloc = rt.alloc();
    let Ok(mut input) = BufReader::new(alloc, rt.stdin()) else {
        return Err(ShellFault::Memory);
    };
    let mut output = rt.stdout();
    let mut files = SystemFiles { rt };
    run_declared_shell(
        waiting,
        alloc,
        line.hall,
        &mut files,
        options_at(rt, line),
        &mut input,
        &mut output,
    )
}

fn answer_commands<R: Threads + Wait + Clock + Sync>(
    rt: &HostRuntime,
    waiting: &R,
    document: &mut &[u8],
    files: &mut SystemFiles<'_, HostRuntime>,
    line: CommandLine<'_>,
) -> Result<Option<SessionEnd>, ShellFault> {
    let alloc = rt.alloc();
    let Ok(mut input) = BufReader::new(alloc, rt.stdin()) else {
        return Err(ShellFault::Memory);
    };
    let mut output = rt.stdout();
    let options = options_at(rt, line);
    if line.hall {
        return run_hall_shell(
            waiting,
            alloc,
            document,
            files,
            options,
            &mut input,
            &mut output,
        );
    }
    run_shell(
        waiting,
        alloc,
        document,
        files,
        options,
        &mut input,
        &mut output,
    )
}

// A terminal on both sides has someone who types, but where a program wants frames.
fn options_at<'a>(rt: &HostRuntime, line: CommandLine<'a>) -> SessionOptions<'a> {
    let typed = rt.stdin().is_terminal() && rt.stdout().is_terminal();
    let prompts = if typed && !line.framed {
        Prompts::Shown
    } else {
        Prompts::Hidden
    };
    SessionOptions {
        title: title_of(line),
        prompts,
        bail: line.bail,
        framed: line.framed,
    }
}

// The name of the document: that of its file, without the folders before it. A session without a document has the program's.
fn title_of<'a>(line: CommandLine<'a>) -> &'a str {
    match line.views {
        Some(path) => match path.rsplit_once('/') {
            Some((_, name)) => name,
            None => path,
        },
        None => "dfshell",
    }
}

// What clap answers in the place of a command line: help or the version on standard output, or why it refuses the words
// on standard error.
fn answer(rt: &HostRuntime, error: &clap::Error) -> ExitCode {
    if error.kind() == ErrorKind::OutOfMemory {
        return report(rt, &ShellFault::Memory);
    }
    match error.print(rt) {
        Ok(()) if error.use_stderr() => ExitCode::from(2),
        Ok(()) => ExitCode::from(0),
        Err(_) => report(rt, &ShellFault::Write),
    }
}

// Arguments that are no text, or for which there was no memory.
fn refuse_arguments(rt: &HostRuntime, error: &io::Error) -> ExitCode {
    if error.kind() == io::ErrorKind::OutOfMemory {
        return report(rt, &ShellFault::Memory);
    }
    let _ = eprintln!(rt; "error: an argument is not UTF-8");
    ExitCode::from(2)
}

// A fault of the document at this path in words, with its place; any other, and one for whose words there is no memory,
// by its code.
fn report_at(rt: &HostRuntime, path: &str, bytes: &[u8], fault: &ShellFault) -> ExitCode {
    match fault {
        ShellFault::Document(document) if *document != DocumentFault::Memory => {
            match explanation(rt.alloc(), path, bytes, document) {
                Ok(text) => tell(rt, text.as_str()),
                Err(_) => report(rt, fault),
            }
        }
        _ => report(rt, fault),
    }
}

fn tell(rt: &HostRuntime, text: &str) -> ExitCode {
    let _ = eprintln!(rt; "{text}");
    ExitCode::from(2)
}

// One line on standard error. Where that cannot be written either, the status alone tells.
fn report(rt: &HostRuntime, fault: &ShellFault) -> ExitCode {
    let _ = match shell_fault_text(rt.alloc(), fault) {
        Ok(text) => eprintln!(rt; "dfshell: {text}"),
        Err(_) => eprintln!(rt; "dfshell: memory"),
    };
    ExitCode::from(2)
}
