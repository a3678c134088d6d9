//! The shell over a hall.
ghost use Rattle.std.specs.Prelude.{◌≡◌, ◌≢◌, ◌≤◌, length, map};
ghost use Rattle.std.specs.List.{range_with_len};
ghost use Rattle.df_state.specs.Ledgers as ledgers;
ghost use Rattle.df_versions.specs.Histories.{AllowsAll, schemas_of};

use crate::hall_store::HallStore;
use df_catalogue::{Desk, NewFault, PARTS_OF_LEDGER};
use df_document::{Files, copy_schemas};
use df_hall::{Hall, OpenedHall};
use df_session::{
    Beginning, FollowedPages, Numbers, Prepared, Refusal, Session, SessionEnd, SessionOptions,
    ShellFault, VersionFault, WatchedStore, WriteFiles, answer_from, fill, prepare,
};
use df_value::{List, Piece};
use df_versions::{Naming, OpenFault, Reader};
use std::alloc::Global;
use std::io::{BufRead, Read, Write};
use std::marker::Brand;
use std::rt::Clock;
use std::sync::Wait;
use std::sync::ledger::{Blank, Ledger};
use std::thread::Threads;

/// Does what [`run_shell`](crate::run_shell) does, through a hall with one reader: each change publishes a version, and
/// questions are answered from the newest one, which has at least all changes that were answered before. At the end the
/// hall is closed.
pub fn run_hall_shell<
    R: Threads + Wait + Clock + Sync,
    V: Read,
    F: Files + WriteFiles,
    I: BufRead,
    W: Write,
>(
    rt: &R,
    alloc: Global,
    document: &mut V,
    files: &mut F,
    options: SessionOptions<'_>,
    input: &mut I,
    output: &mut W,
) -> Result<Option<SessionEnd>, ShellFault> {
    let prepared = prepare(rt, alloc, document, files)?;
    answer_prepared_in_hall(rt, alloc, prepared, options, files, input, output)
}

/// Opens a hall of what is prepared, answers the commands, and closes the hall.
pub fn answer_prepared_in_hall<
    R: Threads + Wait + Clock + Sync,
    F: Files + WriteFiles,
    I: BufRead,
    W: Write,
>(
    rt: &R,
    alloc: Global,
    prepared: Prepared,
    options: SessionOptions<'_>,
    files: &mut F,
    input: &mut I,
    output: &mut W,
) -> Result<Option<SessionEnd>, ShellFault> {
    open::<Brand, Brand, R, F, I, W>(
        rt,
        alloc,
        Blank::new(PARTS_OF_LEDGER),
        Blank::new(PARTS_OF_LEDGER),
        prepared,
        options,
        files,
        input,
        output,
    )
}

// Opens the hall, and answers the commands.
fn open<
    Acc: Ledger,
    Del: Ledger,
    R: Threads + Wait + Clock + Sync,
    F: Files + WriteFiles,
    I: BufRead,
    W: Write,
>(
    rt: &R,
    alloc: Global,
    accepted: Blank,
    deleted: Blank,
    prepared: Prepared,
    options: SessionOptions<'_>,
    files: &mut F,
    input: &mut I,
    output: &mut W,
) -> Result<Option<SessionEnd>, ShellFault>
    requires accepted_name { accepted.name ≡ Acc.name }
    requires accepted_parts { (accepted.parts ≡ Acc.parts)
        × (accepted.parts ≡ ledgers.parts_of_ledger) }
    requires deleted_name { deleted.name ≡ Del.name }
    requires deleted_parts { (deleted.parts ≡ Del.parts)
        × (deleted.parts ≡ ledgers.parts_of_ledger) }
{
    let schemas = copy_schemas(alloc, prepared.definitions.document.frames.as_slice())?;
    let numbers = Numbers::new(alloc, schemas.len())?;
    match OpenedHall::<Acc, Del>::open(rt, alloc, accepted, deleted, schemas, 1) {
        Ok(opened) => serve::<Acc, Del, Brand, R, F, I, W>(
            rt, alloc, opened, numbers, prepared, options, files, input, output,
        ),
        Err(fault) => {
            drop(prepared);
            drop(numbers);
            Err(ShellFault::Frames(frames_fault(fault)))
        }
    }
}

// The fault of a hall that is not opened, as of a catalogue: one reader is not too many.
fn frames_fault(fault: OpenFault) -> NewFault
    requires { fault ≢ OpenFault.TooManyReaders }
{
    match fault {
        OpenFault::TooManyFrames => NewFault::TooManyFrames,
        OpenFault::DerivedType(frame) => NewFault::DerivedType(frame),
        OpenFault::TooManyReaders => unreachable!(),
        OpenFault::Memory => NewFault::Memory,
    }
}

// Answers the commands in a hall, of a history with this name.
fn serve<
    Acc: Ledger,
    Del: Ledger,
    J: Naming,
    R: Threads + Wait + Clock + Sync,
    F: Files + WriteFiles,
    I: BufRead,
    W: Write,
>(
    rt: &R,
    alloc: Global,
    opened: OpenedHall<Acc, Del>,
    numbers: Numbers,
    prepared: Prepared,
    options: SessionOptions<'_>,
    files: &mut F,
    input: &mut I,
    output: &mut W,
) -> Result<Option<SessionEnd>, ShellFault>
    requires book { opened.0 ≡ J.book }
    requires schemas { schemas_of opened.1.0 ≡ J.schemas }
    requires allowed { AllowsAll J.allows }
    requires opening { length opened.1.0 ≤ 1 }
    requires desks { map (λ d. d.frame) opened.1.1 ≡ range_with_len 0 (length opened.1.1) }
{
    let (hall, desks, mut readers) = opened.named::<J>();
    let reader = readers.pop();
    drop(readers);
    match reader {
        Some(reader) => {
            let store = HallStore::new(rt, hall, desks, reader, numbers);
            answer_and_close(rt, alloc, store, prepared, options, files, input, output)
        }
        None => {
            drop(prepared);
            drop(desks);
            drop(numbers);
            hall.end(rt);
            Err(ShellFault::Store(Refusal::Version(VersionFault::Missing)))
        }
    }
}

// Answers the commands, and closes the hall.
fn answer_and_close<
    'r,
    R: Threads + Wait + Clock + Sync,
    Acc: Ledger,
    Del: Ledger,
    J: Naming,
    F: Files + WriteFiles,
    I: BufRead,
    W: Write,
>(
    rt: &R,
    alloc: Global,
    store: HallStore<'r, R, Acc, Del, J>,
    prepared: Prepared,
    options: SessionOptions<'_>,
    files: &mut F,
    input: &mut I,
    output: &mut W,
) -> Result<Option<SessionEnd>, ShellFault> {
    let Prepared {
        definitions,
        pieces,
        refused,
        buffers,
        beginning,
    } = prepared;
    let mut session = Session {
        definitions,
        store: WatchedStore::new(alloc, store),
        followed: FollowedPages::new(alloc),
        buffers,
        options,
    };
    let answered = fill_and_answer(
        rt,
        alloc,
        &mut session,
        beginning,
        pieces,
        refused,
        files,
        input,
        output,
    );
    let Session {
        definitions,
        store,
        followed,
        buffers,
        options: _,
    } = session;
    drop(definitions);
    drop(followed);
    drop(buffers);
    let closed = store.into_store().close();
    let end = answered?;
    closed?;
    Ok(end)
}

// The first rows and the views, and then the commands.
fn fill_and_answer<
    'r,
    R: Threads + Wait + Clock + Sync,
    Acc: Ledger,
    Del: Ledger,
    J: Naming,
    F: Files + WriteFiles,
    I: BufRead,
    W: Write,
>(
    rt: &R,
    alloc: Global,
    session: &mut Session<'_, HallStore<'r, R, Acc, Del, J>>,
    beginning: Beginning,
    pieces: List<List<Piece>>,
    refused: List<u8>,
    files: &mut F,
    input: &mut I,
    output: &mut W,
) -> Result<Option<SessionEnd>, ShellFault> {
    fill(alloc, &mut session.store, &session.definitions, pieces)?;
    answer_from(rt, alloc, session, beginning, refused, files, input, output)
}
