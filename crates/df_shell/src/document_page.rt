//! The page of a document, without a session.
ghost use Rattle.std.specs.Prelude.{◌≡◌};
ghost use Rattle.df_state.specs.Ledgers as ledgers;

use crate::opening::open_store;
use crate::store::Store;
use df_catalogue::PARTS_OF_LEDGER;
use df_document::Files;
use df_session::{Definitions, Prepared, ShellFault, WriteFiles, prepare, report};
use std::alloc::Global;
use std::io::{Read, Write};
use std::marker::Brand;
use std::sync::ledger::{Blank, Ledger};
use std::thread::Threads;

// What stands above a page, and the path of its file. One value, since a call that picks a ledger takes no text.
#[derive(Clone, Copy)]
struct PageFile<'a> {
    title: &'a str,
    path: &'a str,
}

/// Opens a document and its files as a session does, also with the lines of the chunks that are refused, and writes a page of
/// all views, under this title, to a file. Where the page is not written, the file is left as it was.
pub fn write_document_page<R: Threads + Sync, V: Read, F: Files + WriteFiles, W: Write>(
    rt: &R,
    alloc: Global,
    title: &str,
    document: &mut V,
    files: &mut F,
    path: &str,
    output: &mut W,
) -> Result<(), ShellFault> {
    let prepared = prepare(rt, alloc, document, files)?;
    match prepared.write_refused(output) {
        Ok(()) => report_prepared(alloc, prepared, files, PageFile { title, path }),
        Err(fault) => {
            drop(prepared);
            Err(fault)
        }
    }
}

// Opens a store of what is prepared, and writes the page.
fn report_prepared<F: WriteFiles>(
    alloc: Global,
    prepared: Prepared,
    files: &mut F,
    page: PageFile<'_>,
) -> Result<(), ShellFault> {
    open_and_report::<Brand, Brand, F>(
        alloc,
        Blank::new(PARTS_OF_LEDGER),
        Blank::new(PARTS_OF_LEDGER),
        prepared,
        files,
        page,
    )
}

// Opens the store, and writes the page.
fn open_and_report<Acc: Ledger, Del: Ledger, F: WriteFiles>(
    alloc: Global,
    accepted: Blank,
    deleted: Blank,
    prepared: Prepared,
    files: &mut F,
    page: PageFile<'_>,
) -> Result<(), ShellFault>
    requires accepted_name { accepted.name ≡ Acc.name }
    requires accepted_parts { (accepted.parts ≡ Acc.parts)
        × (accepted.parts ≡ ledgers.parts_of_ledger) }
    requires deleted_name { deleted.name ≡ Del.name }
    requires deleted_parts { (deleted.parts ≡ Del.parts)
        × (deleted.parts ≡ ledgers.parts_of_ledger) }
{
    let Prepared {
        definitions,
        pieces,
        refused,
        buffers,
        beginning: _,
    } = prepared;
    drop(refused);
    drop(buffers);
    let reported = match open_store::<Acc, Del>(alloc, accepted, deleted, &definitions, pieces) {
        Ok(store) => report_all(alloc, &definitions, store, files, page),
        Err(fault) => Err(fault),
    };
    drop(definitions);
    reported
}

// Writes the page of a store, which ends here: by a call, since a drop at the end of a block costs the proof more.
fn report_all<Acc: Ledger, Del: Ledger, F: WriteFiles>(
    alloc: Global,
    definitions: &Definitions,
    store: Store<Acc, Del>,
    files: &mut F,
    page: PageFile<'_>,
) -> Result<(), ShellFault> {
    let mut store = store;
    let reported = report(
        alloc,
        definitions,
        &mut store,
        files,
        page.title,
        page.path,
        &[],
    );
    drop(store);
    let told = reported?;
    drop(told);
    Ok(())
}
