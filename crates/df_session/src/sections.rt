//! The sections of views' tables in a page, marked against those that stood in the page before.
ghost use Rattle.std.specs.Prelude.{◌≡◌, ◌≤◌, ◌++◌, IfOk, OnOk, bytes_eq, cond, count_by, find, flat_map, is_none, map, take};
ghost use Rattle.std.specs.FinMap as finite;
ghost use Rattle.std.specs.Option.{option_copied};
ghost use Rattle.df_session.specs.Marks as marks;

use crate::view_table::ViewTable;
use df_column::Table;
use df_page::{page_end, page_head, view_section};
use df_value::Row;
use std::alloc::{AllocError, Global};

/// The most rows of a view in a page.
const MOST_ROWS: usize = 1000;

/// The page of these tables, in their order, under a title and the number of the last change. Of each it has at most the first
/// 1,000 rows. Where a table of the same name stood in the page before, the rows that are new or have other cells since are
/// marked, and it is said how many of those that were shown are gone.
pub fn page_of_tables(
    alloc: Global,
    title: &str,
    number: u64,
    reload: bool,
    before: &[ViewTable],
    tables: &[ViewTable],
) -> Result<Vec<u8>, AllocError>
    ensures { IfOk result (λ page. page.items
        ≡ marks.page_of_tables title.now number reload before.now tables.now) }
{
    let mut page = page_head(alloc, title, number, reload)?;
    push_sections(alloc, before, tables, &mut page)?;
    page.extend_from_slice(page_end().as_bytes())?;
    Ok(page)
}

fn push_sections(
    alloc: Global,
    before: &[ViewTable],
    tables: &[ViewTable],
    page: &mut Vec<u8>,
) -> Result<(), AllocError>
    ensures { OnOk result (page.new.items ≡ page.old.items
        ++ flat_map (λ section. section) (map (marks.section_behind before.now) tables.now)) }
{
    for shown in tables {
        push_section(alloc, before, shown, page)?;
    }
    Ok(())
}

fn push_section(
    alloc: Global,
    before: &[ViewTable],
    shown: &ViewTable,
    page: &mut Vec<u8>,
) -> Result<(), AllocError>
    ensures { OnOk result (page.new.items
        ≡ page.old.items ++ marks.section_behind before.now shown.now) }
{
    let section = section_against(alloc, table_named(before, shown.name.as_str()), shown)?;
    Ok(page.extend_from_slice(section.as_slice())?)
}

fn table_named<'a>(tables: &'a [ViewTable], name: &str) -> Option<&'a ViewTable>
    ensures { option_copied result ≡ find (λ v. bytes_eq v.name name.now) tables.now }
{
    tables.iter().find(|table| table.name.as_str() == name)
}

fn section_against(
    alloc: Global,
    before: Option<&ViewTable>,
    shown: &ViewTable,
) -> Result<Vec<u8>, AllocError>
    ensures { IfOk result (λ section. section.items
        ≡ marks.section_against (option_copied before.entry) shown.now) }
{
    match before {
        Some(before) => marked_section(alloc, &before.table, shown),
        None => table_section(alloc, shown, &[], 0),
    }
}

fn marked_section(alloc: Global, before: &Table, shown: &ViewTable) -> Result<Vec<u8>, AllocError>
    ensures { IfOk result (λ section. section.items
        ≡ marks.marked_section before.now.rows shown.now) }
{
    let gone = gone_of(alloc, before, &shown.table)?;
    let rows = rows_at(alloc, before, &shown.table)?;
    table_section(alloc, shown, rows.as_slice(), gone)
}

fn table_section(
    alloc: Global,
    shown: &ViewTable,
    before: &[Option<Row>],
    gone: usize,
) -> Result<Vec<u8>, AllocError>
    ensures { IfOk result (λ section. section.items
        ≡ marks.table_section shown.now before.now gone) }
{
    let rows = first_rows(alloc, &shown.table)?;
    let total = shown.table.len();
    view_section(
        alloc,
        &shown.name,
        &shown.schema,
        rows.as_slice(),
        total,
        before,
        gone,
    )
}

// The rows that are shown of a table.
fn first_rows(alloc: Global, table: &Table) -> Result<Vec<Row>, AllocError>
    ensures { IfOk result (λ rows. rows.items
        ≡ take marks.most_rows (finite.values table.now.rows)) }
{
    let count = table.len().min(MOST_ROWS);
    table.rows_between(alloc, 0, count)
}

// What a table has at the tags of the rows that are shown of another.
fn rows_at(alloc: Global, table: &Table, shown: &Table) -> Result<Vec<Option<Row>>, AllocError>
    ensures { IfOk result (λ rows. rows.items ≡ marks.rows_at table.now.rows shown.now.rows) }
{
    let count = shown.len().min(MOST_ROWS);
    let mut rows = Vec::with_capacity(alloc, count)?;
    for at in 0..count {
        rows.push(table.get(alloc, shown.tag(at))?)?;
    }
    Ok(rows)
}

// How many of the rows that were shown of a table are gone from another.
fn gone_of(alloc: Global, before: &Table, table: &Table) -> Result<usize, AllocError>
    ensures { IfOk result (λ gone. gone ≡ marks.gone_of before.now.rows table.now.rows) }
{
    let rows = rows_at(alloc, table, before)?;
    Ok(count_none(rows.as_slice()))
}

fn count_none(rows: &[Option<Row>]) -> usize
    ensures { result ≡ count_by is_none rows.now }
{
    let mut count = 0;
    for row in rows {
        count += one_if_none(row);
    }
    count
}

fn one_if_none(row: &Option<Row>) -> usize
    ensures value { result ≡ cond (is_none row.now) 1 0 }
    ensures few { result ≤ 1 }
{
    match row {
        Some(_) => 0,
        None => 1,
    }
}
