//! What comes behind the line of a command.
use crate::change_store::ChangeStore;
use crate::command::Watching;
use crate::exporting::{WriteFiles, export};
use crate::fault::ShellFault;
use crate::followed::Moment;
use crate::following::{follow, write_followed, write_last};
use crate::loading::load;
use crate::options::{SessionEnd, SessionOptions};
use crate::refusal::{Mistake, Refusal};
use crate::refusing::refuse_line;
use crate::reporting::report;
use crate::session::Session;
use crate::watched_store::answer_watching;
use crate::writing::{Status, write_answer, write_changes, write_loaded};
use df_document::Files;
use df_value::{List, Text};
use std::alloc::Global;
use std::io::Write;
use std::rt::Clock;
use std::thread::Threads;

/// What comes behind a command.
#[derive(Drop)]
pub enum Turn {
    /// The next one.
    Next,
    /// The rows of a file, which enter a frame, named first, whose path this is.
    Load(Text, Text),
    /// A file under this path, of this table.
    Export(Text, Vec<u8>),
    /// A file under this path, of a page of the views of these names, or without names of all views.
    Report(Text, List<Text>),
    /// Such a page, which is to follow the store.
    Follow(Text, List<Text>),
    /// The page in the file under this path, which is to follow the store no longer.
    Unfollow(Text),
    /// This, which is asked about what changes do to the view of a name.
    Watch(Watching, Text),
    /// The commands in the file under this path.
    Source(Text),
    /// Nothing: the input has ended.
    End,
    /// Nothing: the session ends.
    Quit,
    /// Nothing: a refusal ends the session.
    Refused,
}

/// Loads a file, and writes what came of it, and behind that what its chunks did to the views that are watched.
pub fn load_file<R: Threads + Sync, S: ChangeStore, F: Files, W: Write>(
    rt: &R,
    alloc: Global,
    session: &mut Session<'_, S>,
    files: &mut F,
    frame: Text,
    path: Text,
    output: &mut W,
) -> Result<Option<SessionEnd>, ShellFault> {
    let options = session.options;
    let definitions = &session.definitions;
    let store = &mut session.store;
    let loaded = load(
        rt,
        alloc,
        definitions,
        store,
        files,
        frame.as_str(),
        path.as_str(),
    );
    drop(frame);
    drop(path);
    match loaded {
        Ok(loaded) => {
            let written = write_loaded(output, options, &loaded);
            drop(loaded);
            written?;
            write_changes(output, &mut session.store)?;
            Ok(None)
        }
        Err(refusal) => {
            let written = refuse_line(alloc, output, options, session.line(), &refusal);
            drop(refusal);
            written
        }
    }
}

/// Writes a table to a file, and what came of it.
pub fn export_table<S, F: WriteFiles, W: Write>(
    alloc: Global,
    session: &Session<'_, S>,
    files: &mut F,
    path: Text,
    table: Vec<u8>,
    output: &mut W,
) -> Result<Option<SessionEnd>, ShellFault> {
    let exported = export(alloc, files, path.as_str(), table.as_slice());
    drop(path);
    drop(table);
    write_outcome(alloc, session, exported, output)
}

/// Writes a page of views to a file, and what came of it.
pub fn report_views<S: ChangeStore, F: WriteFiles, W: Write>(
    alloc: Global,
    session: &mut Session<'_, S>,
    files: &mut F,
    path: Text,
    views: List<Text>,
    output: &mut W,
) -> Result<Option<SessionEnd>, ShellFault> {
    let reported = report(
        alloc,
        &session.definitions,
        &mut session.store.store,
        files,
        session.options.title,
        path.as_str(),
        views.as_slice(),
    );
    drop(path);
    drop(views);
    write_outcome(alloc, session, reported, output)
}

/// Writes a page that is to follow the store, and what came of it.
pub fn follow_store<R: Clock, S: ChangeStore, F: WriteFiles, W: Write>(
    rt: &R,
    alloc: Global,
    session: &mut Session<'_, S>,
    files: &mut F,
    path: Text,
    views: List<Text>,
    output: &mut W,
) -> Result<Option<SessionEnd>, ShellFault> {
    let begun = follow(
        alloc,
        &session.definitions,
        &mut session.store.store,
        files,
        &mut session.followed,
        session.options.title,
        milliseconds(rt),
        path,
        views,
    );
    write_outcome(alloc, session, begun, output)
}

/// Has the page under a path follow the store no longer, and writes the answer, and behind it the page a last time.
pub fn unfollow_store<S: ChangeStore, F: WriteFiles, W: Write>(
    alloc: Global,
    session: &mut Session<'_, S>,
    files: &mut F,
    path: Text,
    output: &mut W,
) -> Result<Option<SessionEnd>, ShellFault> {
    let options = session.options;
    let Some(page) = session.followed.page(path.as_str()) else {
        drop(path);
        let not_followed = Refusal::Mistake(Mistake::NotFollowed);
        return refuse_line(alloc, output, options, session.line(), &not_followed);
    };
    let written = match write_answer(output, options.framed, Status::Ok, &[b"ok\n"]) {
        Ok(()) => write_last(
            alloc,
            &session.definitions,
            &mut session.store.store,
            files,
            options.title,
            page,
            output,
        ),
        Err(fault) => Err(fault),
    };
    session.followed.end(path.as_str());
    drop(path);
    written?;
    Ok(None)
}

/// Writes the pages that follow the store behind a command, where they are to be written, and why one is not.
pub fn write_behind<R: Clock, S: ChangeStore, F: WriteFiles, W: Write>(
    rt: &R,
    alloc: Global,
    session: &mut Session<'_, S>,
    files: &mut F,
    is_change: bool,
    output: &mut W,
) -> Result<(), ShellFault> {
    let now = milliseconds(rt);
    write_followed(
        alloc,
        &session.definitions,
        &mut session.store.store,
        files,
        &mut session.followed,
        session.options.title,
        Moment { is_change, now },
        output,
    )
}

// The time, in milliseconds of a clock that does not go back. None: it cannot be read.
fn milliseconds<R: Clock>(rt: &R) -> Option<u128> {
    match rt.monotonic() {
        Ok(time) => Some(time.as_millis()),
        Err(_) => None,
    }
}

// Writes what was told of a file, or why it was not written.
fn write_outcome<S, W: Write>(
    alloc: Global,
    session: &Session<'_, S>,
    outcome: Result<String, Refusal>,
    output: &mut W,
) -> Result<Option<SessionEnd>, ShellFault> {
    let options = session.options;
    match outcome {
        Ok(told) => {
            let written = write_answer(output, options.framed, Status::Ok, &[told.as_bytes()]);
            drop(told);
            written?;
            Ok(None)
        }
        Err(refusal) => {
            let written = refuse_line(alloc, output, options, session.line(), &refusal);
            drop(refusal);
            written
        }
    }
}

/// Does what is asked about what changes do to a view, and writes the answer.
pub fn watch_view<S: ChangeStore, W: Write>(
    alloc: Global,
    session: &mut Session<'_, S>,
    asked: Watching,
    view: Text,
    output: &mut W,
) -> Result<Option<SessionEnd>, ShellFault> {
    let options = session.options;
    let answered = answer_watching(alloc, &mut session.store, asked, view.as_str());
    drop(view);
    match answered {
        Ok(answer) => {
            let written = write_answer(output, options.framed, Status::Ok, &[answer.bytes()]);
            drop(answer);
            written?;
            Ok(None)
        }
        Err(refusal) => {
            let written = refuse_line(alloc, output, options, session.line(), &refusal);
            drop(refusal);
            written
        }
    }
}

/// What comes behind a refusal.
pub fn turn_of(end: Option<SessionEnd>) -> Turn {
    match end {
        Some(_) => Turn::Refused,
        None => Turn::Next,
    }
}
