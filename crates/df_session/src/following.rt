//! Pages that are written anew behind commands.
ghost use Rattle.std.specs.Prelude.{◌≡◌, ◌<◌, [], ℕ, IfErr, IfOk, List as Seq, OnErr, OnOk, false, length, string_bytes, true, unwrap_or, vec_capacity};
ghost use Rattle.std.specs.Io.KnownBytes.{Appends};
ghost use Rattle.df_session.specs.Following.{ArePagesBehind, IsFollowBegun, IsFollowedUp, IsLastPage, IsPageBehind, IsReason, IsRefusalOfFollow, begun, parts, unwritten_lines};
ghost use Rattle.df_session.specs.Reports.{IsRefusalOfReport, IsReport};
ghost use Rattle.df_session.specs.declared.view_table.ViewTable.{ViewTable as AnyTable};

use crate::change_store::ChangeStore;
use crate::definitions::Definitions;
use crate::exporting::WriteFiles;
use crate::fault::ShellFault;
use crate::followed::{FollowedPage, FollowedPages, Moment};
use crate::refusal::Refusal;
use crate::refusal_texts::refusal_text;
use crate::reporting::{WrittenPage, write_report};
use crate::view_table::ViewTable;
use crate::writing::write_whole;
use df_value::{List, Text};
use itoa::Buffer;
use std::alloc::Global;
use std::io::Write;

/// Writes a page as [`report`](crate::report) does, which a browser loads again and again, and has it follow the store in the
/// place of one under its path. Where it is refused, the pages that follow the store stay.
pub fn follow<S: ChangeStore, F: WriteFiles>(
    alloc: Global,
    definitions: &Definitions,
    store: &mut S,
    files: &mut F,
    followed: &mut FollowedPages,
    title: &str,
    now: Option<u128>,
    path: Text,
    views: List<Text>,
) -> Result<String, Refusal>
    ensures followed { IfOk result (λ text.
        IsFollowBegun (λ old new. S.Tables old new definitions.now) S.Names S.Numbers F.Writes
        title.now (record { path = path; views = views; tables = [] }) now
        (parts followed.old.pages.items followed.old.number followed.old.at)
        (parts followed.new.pages.items followed.new.number followed.new.at)
        store.old store.new files.old files.new (string_bytes text)) }
    ensures refused { IfErr result (IsRefusalOfFollow (λ old new. S.Tables old new definitions.now)
        S.Names S.Numbers F.Writes title.now views store.old store.new files.old files.new) }
    ensures same { OnErr result (parts followed.new.pages.items followed.new.number followed.new.at
        ≡ parts followed.old.pages.items followed.old.number followed.old.at) }
{
    let page = FollowedPage::new(alloc, path, views)?;
    let number = store.change_number();
    match write_first(alloc, definitions, store, files, followed, title, &page) {
        Ok(written) => Ok(begin(followed, page, written, number, now)),
        Err(refusal) => {
            drop(page);
            Err(refusal)
        }
    }
}

// Has a page, which is written, follow the store, and gives what is told of it.
fn begin(
    followed: &mut FollowedPages,
    page: FollowedPage,
    written: WrittenPage,
    number: u64,
    now: Option<u128>,
) -> String
    requires { length followed.old.pages.items < vec_capacity followed.old.pages }
    ensures told { result ≡ written.told }
    ensures begun { parts followed.new.pages.items followed.new.number followed.new.at
        ≡ begun (record page { tables = written.tables }) number now
        (parts followed.old.pages.items followed.old.number followed.old.at) }
{
    let mut page = page;
    let (told, tables) = written.into_parts();
    page.keep(Some(tables));
    followed.begin(page, number, now);
    told
}

// Makes room for a page, and writes it.
fn write_first<S: ChangeStore, F: WriteFiles>(
    alloc: Global,
    definitions: &Definitions,
    store: &mut S,
    files: &mut F,
    followed: &mut FollowedPages,
    title: &str,
    page: &FollowedPage,
) -> Result<WrittenPage, Refusal>
    ensures room { OnOk result (length followed.new.pages.items < vec_capacity followed.new.pages) }
    ensures written { IfOk result (λ written. IsReport (λ old new. S.Tables old new definitions.now)
        S.Names S.Numbers F.Writes title.now true page.now.path page.now.views page.now.tables
        store.old store.new written.tables files.old files.new (string_bytes written.told)) }
    ensures refused { IfErr result (IsRefusalOfFollow (λ old new. S.Tables old new definitions.now)
        S.Names S.Numbers F.Writes title.now page.now.views store.old store.new files.old files.new) }
    ensures same { parts followed.new.pages.items followed.new.number followed.new.at
        ≡ parts followed.old.pages.items followed.old.number followed.old.at }
{
    followed.reserve()?;
    report_page(alloc, definitions, store, files, title, true, page)
}

// Writes a page as a report, which a browser loads again and again, if it is to.
fn report_page<S: ChangeStore, F: WriteFiles>(
    alloc: Global,
    definitions: &Definitions,
    store: &mut S,
    files: &mut F,
    title: &str,
    reload: bool,
    page: &FollowedPage,
) -> Result<WrittenPage, Refusal>
    ensures written { IfOk result (λ written. IsReport (λ old new. S.Tables old new definitions.now)
        S.Names S.Numbers F.Writes title.now reload page.now.path page.now.views page.now.tables
        store.old store.new written.tables files.old files.new (string_bytes written.told)) }
    ensures refused { IfErr result (IsRefusalOfReport (λ old new. S.Tables old new definitions.now)
        S.Names S.Numbers F.Writes page.now.views store.old store.new files.old files.new) }
{
    let path = page.path();
    let views = page.views();
    let before = page.tables();
    write_report(
        alloc,
        definitions,
        store,
        files,
        title,
        reload,
        path,
        views,
        before,
    )
}

/// Writes the pages that follow the store behind a command, where they are to be written. Behind a change they are, once a
/// second is over, and behind any other command at once, if there was a change since they were. What changed since a page was
/// last written is marked in it.
///
/// Of a page that is not written it is told why behind the answer: a line `unwritten PATH NUMBER 1`, with the number of the
/// last change, and a line of the refusal. What stands under its path stays, and it is tried again behind the next change.
pub fn write_followed<S: ChangeStore, F: WriteFiles, W: Write>(
    alloc: Global,
    definitions: &Definitions,
    store: &mut S,
    files: &mut F,
    followed: &mut FollowedPages,
    title: &str,
    moment: Moment,
    output: &mut W,
) -> Result<(), ShellFault>
    ensures written { OnOk result (IsFollowedUp (λ old new. S.Tables old new definitions.now) S.Names S.Numbers F.Writes
        title.now moment
        (parts followed.old.pages.items followed.old.number followed.old.at)
        (parts followed.new.pages.items followed.new.number followed.new.at)
        store.old store.new files.old files.new (W.contents output.old) (W.contents output.new)) }
    ensures last { moment.is_change ≡ false → OnOk result (S.Numbers store.old followed.new.number) }
{
    let number = store.change_number();
    if !followed.must_write(number, moment) {
        return Ok(());
    }
    let pages = followed.pages.as_mut_slice();
    write_pages(
        alloc,
        definitions,
        store,
        files,
        title,
        pages,
        number,
        output,
    )?;
    followed.note(number, moment.now);
    Ok(())
}

fn write_pages<S: ChangeStore, F: WriteFiles, W: Write>(
    alloc: Global,
    definitions: &Definitions,
    store: &mut S,
    files: &mut F,
    title: &str,
    pages: &mut [FollowedPage],
    number: u64,
    output: &mut W,
) -> Result<(), ShellFault>
    ensures { OnOk result (ArePagesBehind (λ old new. S.Tables old new definitions.now) S.Names S.Numbers F.Writes
        title.now pages.old pages.new number store.old store.new files.old files.new
        (W.contents output.old) (W.contents output.new)) }
{
    let Some((page, others)) = pages.split_first_mut() else {
        return Ok(());
    };
    write_again(
        alloc,
        definitions,
        store,
        files,
        title,
        page,
        number,
        output,
    )?;
    write_pages(
        alloc,
        definitions,
        store,
        files,
        title,
        others,
        number,
        output,
    )
}

// Writes a page, which a browser loads again, or why it is not written.
fn write_again<S: ChangeStore, F: WriteFiles, W: Write>(
    alloc: Global,
    definitions: &Definitions,
    store: &mut S,
    files: &mut F,
    title: &str,
    page: &mut FollowedPage,
    number: u64,
    output: &mut W,
) -> Result<(), ShellFault>
    ensures { OnOk result ((tables : Seq AnyTable)
        × IsPageBehind (λ old new. S.Tables old new definitions.now) S.Names S.Numbers F.Writes
        title.now true page.old tables number store.old store.new files.old files.new
        (W.contents output.old) (W.contents output.new)
        × (page.new ≡ record page.old { tables = tables })) }
{
    let tables = write_page(
        alloc,
        definitions,
        store,
        files,
        title,
        true,
        &*page,
        number,
        output,
    )?;
    page.keep(tables);
    Ok(())
}

/// Writes a page a last time, so that a browser loads it no longer, or why it is not written.
pub fn write_last<S: ChangeStore, F: WriteFiles, W: Write>(
    alloc: Global,
    definitions: &Definitions,
    store: &mut S,
    files: &mut F,
    title: &str,
    page: &FollowedPage,
    output: &mut W,
) -> Result<(), ShellFault>
    ensures { OnOk result (IsLastPage (λ old new. S.Tables old new definitions.now) S.Names S.Numbers F.Writes
        title.now page.now store.old store.new files.old files.new
        (W.contents output.old) (W.contents output.new)) }
{
    let number = store.change_number();
    let tables = write_page(
        alloc,
        definitions,
        store,
        files,
        title,
        false,
        page,
        number,
        output,
    )?;
    drop(tables);
    Ok(())
}

// Writes a page, or why it is not written, and gives the tables that it then shows, if they are others.
fn write_page<S: ChangeStore, F: WriteFiles, W: Write>(
    alloc: Global,
    definitions: &Definitions,
    store: &mut S,
    files: &mut F,
    title: &str,
    reload: bool,
    page: &FollowedPage,
    number: u64,
    output: &mut W,
) -> Result<Option<List<ViewTable>>, ShellFault>
    ensures { IfOk result (λ tables.
        IsPageBehind (λ old new. S.Tables old new definitions.now) S.Names S.Numbers F.Writes
        title.now reload page.now (unwrap_or tables page.now.tables) number store.old store.new
        files.old files.new (W.contents output.old) (W.contents output.new)) }
{
    match report_page(alloc, definitions, store, files, title, reload, page) {
        Ok(written) => Ok(Some(tables_of(written))),
        Err(refusal) => {
            let told = write_unwritten(alloc, output, page, number, &refusal);
            drop(refusal);
            match told {
                Ok(()) => Ok(None),
                Err(fault) => Err(fault),
            }
        }
    }
}

fn tables_of(written: WrittenPage) -> List<ViewTable>
    ensures { result ≡ written.tables }
{
    let (told, tables) = written.into_parts();
    drop(told);
    tables
}

// Writes why a page is not written. Where there is no memory for the text, it is `memory`.
fn write_unwritten<W: Write>(
    alloc: Global,
    output: &mut W,
    page: &FollowedPage,
    number: u64,
    refusal: &Refusal,
) -> Result<(), ShellFault>
    ensures { OnOk result ((reason : Seq ℕ) × IsReason refusal.now reason
        × Appends (W.contents output.old) (W.contents output.new)
        (unwritten_lines page.now.path number reason)) }
{
    match refusal_text(alloc, "", refusal) {
        Ok(text) => write_reason(output, page, number, text.as_bytes()),
        Err(_) => write_reason(output, page, number, b"memory"),
    }
}

fn write_reason<W: Write>(
    output: &mut W,
    page: &FollowedPage,
    number: u64,
    reason: &[u8],
) -> Result<(), ShellFault>
    ensures { OnOk result (Appends (W.contents output.old) (W.contents output.new)
        (unwritten_lines page.now.path number reason.now)) }
{
    let mut buffer = Buffer::new();
    let number = buffer.format(number).as_bytes();
    write_whole(output, &[page.unwritten(), number, b" 1\n", reason, b"\n"])
}
