//! A session: the commands of an input and their answers, one after another.
use crate::answering::{Answer, answer_line};
use crate::behind::read_behind;
use crate::buffers::Buffers;
use crate::change_store::ChangeStore;
use crate::definitions::Definitions;
use crate::exporting::WriteFiles;
use crate::fault::ShellFault;
use crate::followed::FollowedPages;
use crate::help::COMMANDS;
use crate::lines::{Line, read_line, without_end};
use crate::options::{SessionEnd, SessionOptions};
use crate::prompts::{COMMAND_PROMPT, Prompts, greeting};
use crate::refusal::{Mistake, Refusal};
use crate::refusing::{refuse, refuse_line};
use crate::turns::{
    Turn, export_table, follow_store, load_file, report_views, turn_of, unfollow_store, watch_view,
    write_behind,
};
use crate::watched_store::WatchedStore;
use crate::words::{lines_behind, read_words};
use crate::writing::{Status, write_all, write_answer, write_changes, write_prompt};
use df_document::Files;
use df_value::{List, Text};
use std::alloc::Global;
use std::io::{BufRead, BufReader, Read, Write};
use std::rt::Clock;
use std::thread::Threads;

/// What a shell has while it answers.
pub struct Session<'a, S> {
    pub definitions: Definitions,
    pub store: WatchedStore<S>,
    /// The pages that follow the store.
    pub followed: FollowedPages,
    pub buffers: Buffers,
    pub options: SessionOptions<'a>,
}

impl<'a, S> Session<'a, S> {
    /// The line of the last command, without its end.
    pub fn line(&self) -> &[u8] {
        without_end(self.buffers.command.as_slice())
    }
}

/// What a session begins with.
#[derive(Clone, Copy, PartialEq, Eq, Drop)]
pub enum Beginning {
    /// Its first lines. Then it answers the commands of the input.
    Greeting,
    /// The question in its buffers, which is all that it answers.
    Question,
    /// The command in its buffers. Then it answers those of the input.
    Command,
}

/// Writes the first lines, those of the refused chunks among them, and answers the commands. A session that begins with a
/// command in its buffers answers it in place of the first lines. None: it goes on, behind the question that it began with.
pub fn answer_from<
    R: Threads + Clock + Sync,
    S: ChangeStore,
    F: Files + WriteFiles,
    I: BufRead,
    W: Write,
>(
    rt: &R,
    alloc: Global,
    session: &mut Session<'_, S>,
    beginning: Beginning,
    refused: List<u8>,
    files: &mut F,
    input: &mut I,
    output: &mut W,
) -> Result<Option<SessionEnd>, ShellFault> {
    match beginning {
        Beginning::Greeting => {
            greet(alloc, session, output)?;
            let framed = session.options.framed;
            write_answer(output, framed, Status::Ready, &[refused.as_slice()])?;
        }
        Beginning::Question | Beginning::Command => {
            let turn = take_turn(alloc, session, input, output)?;
            let end = complete(rt, alloc, session, files, turn, output)?;
            if end.is_some() || beginning == Beginning::Question {
                return Ok(end);
            }
        }
    }
    let answered = answer_all(rt, alloc, session, files, input, output);
    if answered.is_err() {
        // The last changes before a fault are not lost to the pages.
        drop(write_behind(rt, alloc, session, files, false, output));
    }
    answered
}

fn greet<S, W: Write>(
    alloc: Global,
    session: &Session<'_, S>,
    output: &mut W,
) -> Result<(), ShellFault> {
    match session.options.prompts {
        Prompts::Shown => write_all(output, greeting(alloc, &session.definitions)?.as_bytes()),
        Prompts::Hidden => Ok(()),
    }
}

fn answer_all<
    R: Threads + Clock + Sync,
    S: ChangeStore,
    F: Files + WriteFiles,
    I: BufRead,
    W: Write,
>(
    rt: &R,
    alloc: Global,
    session: &mut Session<'_, S>,
    files: &mut F,
    input: &mut I,
    output: &mut W,
) -> Result<Option<SessionEnd>, ShellFault> {
    for _ in 0..u64::MAX {
        let end = answer_command(rt, alloc, session, files, input, output)?;
        if end.is_some() {
            return Ok(end);
        }
    }
    Ok(Some(SessionEnd::Whole))
}

// Answers a command, and writes the pages that follow the store. Some: so the session has ended.
fn answer_command<
    R: Threads + Clock + Sync,
    S: ChangeStore,
    F: Files + WriteFiles,
    I: BufRead,
    W: Write,
>(
    rt: &R,
    alloc: Global,
    session: &mut Session<'_, S>,
    files: &mut F,
    input: &mut I,
    output: &mut W,
) -> Result<Option<SessionEnd>, ShellFault> {
    let before = session.store.store.change_number();
    let turn = answer_next(alloc, session, input, output)?;
    let end = complete(rt, alloc, session, files, turn, output)?;
    let is_change = session.store.store.change_number() != before;
    write_behind(rt, alloc, session, files, is_change, output)?;
    Ok(end)
}

// Does what comes behind a command. Some: so the session has ended.
fn complete<R: Threads + Clock + Sync, S: ChangeStore, F: Files + WriteFiles, W: Write>(
    rt: &R,
    alloc: Global,
    session: &mut Session<'_, S>,
    files: &mut F,
    turn: Turn,
    output: &mut W,
) -> Result<Option<SessionEnd>, ShellFault> {
    match turn {
        Turn::Next => Ok(None),
        Turn::Load(frame, path) => load_file(rt, alloc, session, files, frame, path, output),
        Turn::Export(path, table) => { export_table(alloc, session, files, path, table, output) }
        Turn::Report(path, views) => report_views(alloc, session, files, path, views, output),
        Turn::Follow(path, views) => {
            follow_store(rt, alloc, session, files, path, views, output)
        }
        Turn::Unfollow(path) => unfollow_store(alloc, session, files, path, output),
        Turn::Watch(asked, view) => watch_view(alloc, session, asked, view, output),
        Turn::Source(path) => source(rt, alloc, session, files, &path, output),
        Turn::End | Turn::Quit => Ok(Some(SessionEnd::Whole)),
        Turn::Refused => Ok(Some(SessionEnd::Refused)),
    }
}

// Answers the commands in a file, without prompts. Some: one of them ends the session.
fn source<R: Threads + Clock + Sync, S: ChangeStore, F: Files + WriteFiles, W: Write>(
    rt: &R,
    alloc: Global,
    session: &mut Session<'_, S>,
    files: &mut F,
    path: &Text,
    output: &mut W,
) -> Result<Option<SessionEnd>, ShellFault> {
    let Some(file) = files.open(path.as_str()) else {
        let no_file = Refusal::Mistake(Mistake::NoFile);
        return refuse(alloc, output, session.options, path.as_str(), &no_file);
    };
    let prompts = session.options.prompts;
    session.options.prompts = Prompts::Hidden;
    let end = answer_file(rt, alloc, session, files, file, path, output);
    session.options.prompts = prompts;
    end
}

fn answer_file<R: Threads + Clock + Sync, S: ChangeStore, F: Files + WriteFiles, W: Write>(
    rt: &R,
    alloc: Global,
    session: &mut Session<'_, S>,
    files: &mut F,
    file: F::Reader,
    path: &Text,
    output: &mut W,
) -> Result<Option<SessionEnd>, ShellFault> {
    match BufReader::new(alloc, file) {
        Ok(mut input) => answer_sourced(rt, alloc, session, files, &mut input, path, output),
        Err(_) => refuse(alloc, output, session.options, "", &Refusal::Memory),
    }
}

// The commands of a file name no further file.
fn answer_sourced<
    R: Threads + Clock + Sync,
    S: ChangeStore,
    F: Files + WriteFiles,
    I: BufRead,
    W: Write,
>(
    rt: &R,
    alloc: Global,
    session: &mut Session<'_, S>,
    files: &mut F,
    input: &mut I,
    path: &Text,
    output: &mut W,
) -> Result<Option<SessionEnd>, ShellFault> {
    for _ in 0..u64::MAX {
        let before = session.store.store.change_number();
        match answer_next(alloc, session, input, output) {
            Ok(Turn::End) => {
                write_behind(rt, alloc, session, files, false, output)?;
                return Ok(None);
            }
            Ok(turn) => {
                let end = take_sourced(rt, alloc, session, files, turn, output)?;
                let is_change = session.store.store.change_number() != before;
                write_behind(rt, alloc, session, files, is_change, output)?;
                if end.is_some() {
                    return Ok(end);
                }
            }
            Err(ShellFault::Read) => {
                let no_file = Refusal::Mistake(Mistake::NoFile);
                return refuse(alloc, output, session.options, path.as_str(), &no_file);
            }
            Err(fault) => return Err(fault),
        }
    }
    Ok(None)
}

// Does what comes behind a command of a file.
fn take_sourced<R: Threads + Clock + Sync, S: ChangeStore, F: Files + WriteFiles, W: Write>(
    rt: &R,
    alloc: Global,
    session: &mut Session<'_, S>,
    files: &mut F,
    turn: Turn,
    output: &mut W,
) -> Result<Option<SessionEnd>, ShellFault> {
    match turn {
        Turn::Next | Turn::End => Ok(None),
        Turn::Load(frame, path) => load_file(rt, alloc, session, files, frame, path, output),
        Turn::Export(path, table) => { export_table(alloc, session, files, path, table, output) }
        Turn::Report(path, views) => report_views(alloc, session, files, path, views, output),
        Turn::Follow(path, views) => {
            follow_store(rt, alloc, session, files, path, views, output)
        }
        Turn::Unfollow(path) => unfollow_store(alloc, session, files, path, output),
        Turn::Watch(asked, view) => watch_view(alloc, session, asked, view, output),
        Turn::Source(_) => {
            let nested = Refusal::Mistake(Mistake::NestedSource);
            refuse(alloc, output, session.options, "", &nested)
        }
        Turn::Quit => Ok(Some(SessionEnd::Whole)),
        Turn::Refused => Ok(Some(SessionEnd::Refused)),
    }
}

// Reads a line, and answers the command that it is.
fn answer_next<S: ChangeStore, I: BufRead, W: Write>(
    alloc: Global,
    session: &mut Session<'_, S>,
    input: &mut I,
    output: &mut W,
) -> Result<Turn, ShellFault> {
    write_prompt(output, session.options.prompts, COMMAND_PROMPT)?;
    match read_line(input, &mut session.buffers.command) {
        Ok(Line::Whole) => take_turn(alloc, session, input, output),
        Ok(Line::TooLong) => {
            let long = Refusal::Mistake(Mistake::LongLine);
            Ok(turn_of(refuse(alloc, output, session.options, "", &long)?))
        }
        Ok(Line::End) => {
            write_prompt(output, session.options.prompts, b"\n")?;
            Ok(Turn::End)
        }
        Err(_) => Err(ShellFault::Read),
    }
}

// Reads what belongs to a command, does what it says and writes the answer, and behind it what it did to the views that
// are watched.
fn take_turn<S: ChangeStore, I: BufRead, W: Write>(
    alloc: Global,
    session: &mut Session<'_, S>,
    input: &mut I,
    output: &mut W,
) -> Result<Turn, ShellFault> {
    let line = without_end(session.buffers.command.as_slice());
    if is_passed_over(line) {
        return Ok(Turn::Next);
    }
    let words = read_words(alloc, line);
    let following = lines_behind(alloc, &words, line);
    let record = &mut session.buffers.record;
    match read_behind(
        alloc,
        session.options.prompts,
        input,
        output,
        line,
        record,
        following,
    ) {
        Ok(lines) => {
            let definitions = &mut session.definitions;
            let store = &mut session.store;
            let answer = answer_line(alloc, &COMMANDS, definitions, store, words, lines);
            let turn = tell(alloc, output, session.options, line, answer)?;
            write_changes(output, &mut session.store)?;
            Ok(turn)
        }
        Err(fault) => {
            drop(words);
            Err(fault)
        }
    }
}

// Writes the answer to the command of a line, or why it is refused.
fn tell<W: Write>(
    alloc: Global,
    output: &mut W,
    options: SessionOptions<'_>,
    line: &[u8],
    answer: Result<Answer, Refusal>,
) -> Result<Turn, ShellFault> {
    match answer {
        Ok(Answer::Ended) => Ok(Turn::Quit),
        Ok(Answer::Load(frame, path)) => Ok(Turn::Load(frame, path)),
        Ok(Answer::Export(path, table)) => Ok(Turn::Export(path, table)),
        Ok(Answer::Report(path, views)) => Ok(Turn::Report(path, views)),
        Ok(Answer::Follow(path, views)) => Ok(Turn::Follow(path, views)),
        Ok(Answer::Unfollow(path)) => Ok(Turn::Unfollow(path)),
        Ok(Answer::Watch(asked, view)) => Ok(Turn::Watch(asked, view)),
        Ok(Answer::Source(path)) => Ok(Turn::Source(path)),
        Ok(answer) => {
            let written = write_answer(output, options.framed, Status::Ok, &[answer.bytes()]);
            drop(answer);
            written?;
            Ok(Turn::Next)
        }
        Err(refusal) => {
            let written = refuse_line(alloc, output, options, line, &refusal);
            drop(refusal);
            Ok(turn_of(written?))
        }
    }
}

/// Whether a line is empty or a comment, behind its first blanks.
pub fn is_passed_over(line: &[u8]) -> bool {
    for byte in line {
        if *byte != b' ' {
            return *byte == b'#';
        }
    }
    true
}
