//! The shell: from a document and the lines of input to the answers.
ghost use Rattle.std.specs.Prelude.{◌≡◌};
ghost use Rattle.df_state.specs.Ledgers as ledgers;

use crate::opening::open_store;
use crate::store::Store;
use df_catalogue::PARTS_OF_LEDGER;
use df_document::Files;
use df_session::{
    Beginning, FollowedPages, Prepared, Session, SessionEnd, SessionOptions, ShellFault,
    WatchedStore, WriteFiles, answer_from, prepare,
};
use df_value::List;
use std::alloc::Global;
use std::io::{BufRead, Read, Write};
use std::marker::Brand;
use std::rt::Clock;
use std::sync::ledger::{Blank, Ledger};
use std::thread::Threads;

/// Opens a document and answers the commands of `input`, each before the next one is read, to its
/// end or a `quit`.
///
/// Of the document the frames enter with their first rows, in chunks of 1,000 records, and a line
/// is written for each chunk that is refused; then all views are registered. At most 4 threads read the records of a
/// file. Where memory is refused to a command, its answer is `memory`, the store is as before it, and the shell goes on.
pub fn run_shell<R: Threads + Clock + Sync, V: Read, F: Files + WriteFiles, I: BufRead, W: Write>(
    rt: &R,
    alloc: Global,
    document: &mut V,
    files: &mut F,
    options: SessionOptions<'_>,
    input: &mut I,
    output: &mut W,
) -> Result<Option<SessionEnd>, ShellFault> {
    let prepared = prepare(rt, alloc, document, files)?;
    answer_prepared(rt, alloc, prepared, options, files, input, output)
}

/// Opens a store of what is prepared, and answers the commands.
pub fn answer_prepared<R: Threads + Clock + Sync, F: Files + WriteFiles, I: BufRead, W: Write>(
    rt: &R,
    alloc: Global,
    prepared: Prepared,
    options: SessionOptions<'_>,
    files: &mut F,
    input: &mut I,
    output: &mut W,
) -> Result<Option<SessionEnd>, ShellFault> {
    serve::<Brand, Brand, R, F, I, W>(
        rt,
        alloc,
        Blank::new(PARTS_OF_LEDGER),
        Blank::new(PARTS_OF_LEDGER),
        prepared,
        options,
        files,
        input,
        output,
    )
}

// Opens the store, and answers the commands.
fn serve<
    Acc: Ledger,
    Del: Ledger,
    R: Threads + Clock + Sync,
    F: Files + WriteFiles,
    I: BufRead,
    W: Write,
>(
    rt: &R,
    alloc: Global,
    accepted: Blank,
    deleted: Blank,
    prepared: Prepared,
    options: SessionOptions<'_>,
    files: &mut F,
    input: &mut I,
    output: &mut W,
) -> Result<Option<SessionEnd>, ShellFault>
    requires accepted_name { accepted.name ≡ Acc.name }
    requires accepted_parts { (accepted.parts ≡ Acc.parts)
        × (accepted.parts ≡ ledgers.parts_of_ledger) }
    requires deleted_name { deleted.name ≡ Del.name }
    requires deleted_parts { (deleted.parts ≡ Del.parts)
        × (deleted.parts ≡ ledgers.parts_of_ledger) }
{
    let Prepared {
        definitions,
        pieces,
        refused,
        buffers,
        beginning,
    } = prepared;
    match open_store::<Acc, Del>(alloc, accepted, deleted, &definitions, pieces) {
        Ok(store) => {
            let session = Session {
                definitions,
                store: WatchedStore::new(alloc, store),
                followed: FollowedPages::new(alloc),
                buffers,
                options,
            };
            answer_session(rt, alloc, session, beginning, refused, files, input, output)
        }
        Err(fault) => {
            drop(definitions);
            drop(refused);
            drop(buffers);
            Err(fault)
        }
    }
}

// Answers the commands, and ends the session: in calls and at one place, since each drop of a store, and one at the end
// of a block above all, costs the proof anew.
fn answer_session<
    Acc: Ledger,
    Del: Ledger,
    R: Threads + Clock + Sync,
    F: Files + WriteFiles,
    I: BufRead,
    W: Write,
>(
    rt: &R,
    alloc: Global,
    session: Session<'_, Store<Acc, Del>>,
    beginning: Beginning,
    refused: List<u8>,
    files: &mut F,
    input: &mut I,
    output: &mut W,
) -> Result<Option<SessionEnd>, ShellFault> {
    let mut session = session;
    let answered = answer_from(
        rt,
        alloc,
        &mut session,
        beginning,
        refused,
        files,
        input,
        output,
    );
    let Session {
        definitions,
        store,
        followed,
        buffers,
        options: _,
    } = session;
    drop(definitions);
    drop(store);
    drop(followed);
    drop(buffers);
    answered
}
