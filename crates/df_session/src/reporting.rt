//! Pages of views in files.
ghost use Rattle.std.specs.Prelude.{◌≡◌, ◌++◌, ◌∷◌, [], IfErr, IfOk, List as Seq, Ok, OnOk, false, string_bytes};
ghost use Rattle.df_session.specs.Marks.{page_of_tables as page_bytes};
ghost use Rattle.df_session.specs.Reports.{AreTables, HasTables, IsRefusalOfReport, IsRefusalOfTables, IsReport, IsUnwritten, IsUnwrittenPage, IsWritten, reported_text};
ghost use Rattle.df_session.specs.declared.view_table.ViewTable.{ViewTable as AnyTable};

use crate::change_store::ChangeStore;
use crate::definitions::Definitions;
use crate::exporting::WriteFiles;
use crate::prompts::plural_end;
use crate::refusal::Refusal;
use crate::sections::page_of_tables;
use crate::view_table::ViewTable;
use df_value::{List, Text};
use std::alloc::{AllocError, Global};

/// A page that is written: what is told of it, and the tables that it shows.
pub struct WrittenPage {
    pub told: String,
    pub tables: List<ViewTable>,
}

// A body that owns one drops it by a call.
impl Drop for WrittenPage {
    fn drop(self) {
        let WrittenPage { told, tables } = self;
        drop(told);
        drop(tables);
    }
}

impl WrittenPage {
    /// What is told of it, and the tables.
    pub fn into_parts(self) -> (String, List<ViewTable>)
        ensures told { result.0 ≡ self.told }
        ensures tables { result.1 ≡ self.tables }
    {
        let WrittenPage { told, tables } = self;
        (told, tables)
    }
}

/// Writes a page of these views, in their order, or without views of all, to a file, and tells how many they are. Of each it
/// has at most 1,000 rows. Where a view is unknown, or memory is refused, no file is touched.
pub fn report<S: ChangeStore, F: WriteFiles>(
    alloc: Global,
    definitions: &Definitions,
    store: &mut S,
    files: &mut F,
    title: &str,
    path: &str,
    views: &[Text],
) -> Result<String, Refusal>
    ensures written { IfOk result (λ text. (tables : Seq AnyTable)
        × IsReport (λ old new. S.Tables old new definitions.now) S.Names S.Numbers F.Writes
        title.now false path.now views.now [] store.old store.new tables files.old files.new (string_bytes text)) }
    ensures refused { IfErr result (IsRefusalOfReport (λ old new. S.Tables old new definitions.now)
        S.Names S.Numbers F.Writes views.now store.old store.new files.old files.new) }
{
    match write_report(
        alloc,
        definitions,
        store,
        files,
        title,
        false,
        path,
        views,
        &[],
    ) {
        Ok(written) => Ok(told_of(written)),
        Err(refusal) => Err(refusal),
    }
}

fn told_of(written: WrittenPage) -> String
    ensures { result ≡ written.told }
{
    let (told, tables) = written.into_parts();
    drop(tables);
    told
}

/// Writes such a page, which shows what changed since these tables stood there. With `reload` a browser loads it again and again.
pub fn write_report<S: ChangeStore, F: WriteFiles>(
    alloc: Global,
    definitions: &Definitions,
    store: &mut S,
    files: &mut F,
    title: &str,
    reload: bool,
    path: &str,
    views: &[Text],
    before: &[ViewTable],
) -> Result<WrittenPage, Refusal>
    ensures written { IfOk result (λ page. IsReport (λ old new. S.Tables old new definitions.now)
        S.Names S.Numbers F.Writes title.now reload path.now views.now before.now store.old store.new
        page.tables files.old files.new (string_bytes page.told)) }
    ensures refused { IfErr result (IsRefusalOfReport (λ old new. S.Tables old new definitions.now)
        S.Names S.Numbers F.Writes views.now store.old store.new files.old files.new) }
{
    match views {
        [] => report_all(
            alloc,
            definitions,
            store,
            files,
            title,
            reload,
            path,
            before,
        ),
        _ => report_named(
            alloc,
            definitions,
            store,
            files,
            title,
            reload,
            path,
            views,
            before,
        ),
    }
}

fn report_all<S: ChangeStore, F: WriteFiles>(
    alloc: Global,
    definitions: &Definitions,
    store: &mut S,
    files: &mut F,
    title: &str,
    reload: bool,
    path: &str,
    before: &[ViewTable],
) -> Result<WrittenPage, Refusal>
    ensures written { IfOk result (λ page. IsReport (λ old new. S.Tables old new definitions.now)
        S.Names S.Numbers F.Writes title.now reload path.now [] before.now store.old store.new
        page.tables files.old files.new (string_bytes page.told)) }
    ensures refused { IfErr result (IsRefusalOfReport (λ old new. S.Tables old new definitions.now)
        S.Names S.Numbers F.Writes [] store.old store.new files.old files.new) }
{
    let names = store.view_names(alloc)?;
    let views = names.as_slice();
    let reported = report_named(
        alloc,
        definitions,
        store,
        files,
        title,
        reload,
        path,
        views,
        before,
    );
    drop(names);
    reported
}

fn report_named<S: ChangeStore, F: WriteFiles>(
    alloc: Global,
    definitions: &Definitions,
    store: &mut S,
    files: &mut F,
    title: &str,
    reload: bool,
    path: &str,
    views: &[Text],
    before: &[ViewTable],
) -> Result<WrittenPage, Refusal>
    ensures written { IfOk result (λ page. IsWritten (λ old new. S.Tables old new definitions.now)
        S.Names S.Numbers F.Writes title.now reload path.now views.now before.now store.old store.new
        page.tables files.old files.new (string_bytes page.told)) }
    ensures refused { IfErr result (IsUnwritten (λ old new. S.Tables old new definitions.now)
        S.Names S.Numbers F.Writes views.now store.old store.new files.old files.new) }
{
    // Made first, so that nothing is refused behind the file.
    let told = views_told(alloc, views.len())?;
    let number = store.change_number();
    let tables = tables_of(alloc, definitions, store, views)?;
    match write_tables(
        alloc,
        files,
        title,
        number,
        reload,
        path,
        before,
        tables.as_slice(),
    ) {
        Ok(()) => Ok(WrittenPage { told, tables }),
        Err(refusal) => {
            drop(told);
            drop(tables);
            Err(refusal)
        }
    }
}

fn views_told(alloc: Global, views: usize) -> Result<String, AllocError>
    ensures { IfOk result (λ text. string_bytes text ≡ reported_text views) }
{
    let end = plural_end(views);
    format!(in alloc; "ok {views} view{end}\n")
}

// The tables of these views, in their order.
fn tables_of<S: ChangeStore>(
    alloc: Global,
    definitions: &Definitions,
    store: &mut S,
    views: &[Text],
) -> Result<List<ViewTable>, Refusal>
    ensures made { IfOk result (AreTables (λ old new. S.Tables old new definitions.now)
        views.now store.old store.new) }
    ensures refused { IfErr result (IsRefusalOfTables (λ old new. S.Tables old new definitions.now)
        views.now store.old store.new) }
{
    let mut tables = Vec::new(alloc);
    match push_tables(alloc, definitions, store, views, &mut tables) {
        Ok(()) => Ok(List::from_vec(tables)),
        Err(refusal) => {
            drop(tables);
            Err(refusal)
        }
    }
}

// Appends the tables of these views, in their order.
fn push_tables<S: ChangeStore>(
    alloc: Global,
    definitions: &Definitions,
    store: &mut S,
    views: &[Text],
    tables: &mut Vec<ViewTable>,
) -> Result<(), Refusal>
    ensures made { OnOk result (HasTables (λ old new. S.Tables old new definitions.now)
        views.now store.old store.new tables.old.items tables.new.items) }
    ensures refused { IfErr result (IsRefusalOfTables (λ old new. S.Tables old new definitions.now)
        views.now store.old store.new) }
{
    for view in views {
        push_table(alloc, definitions, store, view.as_str(), tables)?;
    }
    Ok(())
}

fn push_table<S: ChangeStore>(
    alloc: Global,
    definitions: &Definitions,
    store: &mut S,
    view: &str,
    tables: &mut Vec<ViewTable>,
) -> Result<(), Refusal>
    ensures made { OnOk result ((table : AnyTable)
        × S.Tables store.old store.new definitions.now view.now (Ok table)
        × (tables.new.items ≡ tables.old.items ++ table ∷ [])) }
    ensures refused { IfErr result (IsRefusalOfTables (λ old new. S.Tables old new definitions.now)
        (view.now ∷ []) store.old store.new) }
{
    let table = store.view_table(alloc, definitions, view)?;
    tables.push(table)?;
    Ok(())
}

// Writes the page of these tables.
fn write_tables<F: WriteFiles>(
    alloc: Global,
    files: &mut F,
    title: &str,
    number: u64,
    reload: bool,
    path: &str,
    before: &[ViewTable],
    tables: &[ViewTable],
) -> Result<(), Refusal>
    ensures written { OnOk result (F.Writes files.old files.new path.now
        (page_bytes title.now number reload before.now tables.now)) }
    ensures refused { IfErr result (IsUnwrittenPage files.old files.new) }
{
    let page = page_of_tables(alloc, title, number, reload, before, tables)?;
    files.write_whole(alloc, path, page.as_slice())?;
    Ok(())
}
