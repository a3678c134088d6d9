//! Printed tables whose lines several threads make.
ghost use Rattle.std.specs.Prelude.{◌≡◌, ◌++◌, ◌<◌, ◌≤◌, ℕ, All, IfOk, IfSome, IsUtf8, Ok, Option, OnOk, flat_map, length, map, slice_index_or};
ghost use Rattle.df_print.specs.Printed.{AreUtf8, IsTableOf, IsWidthAt, column_widths, printed, printed_line, row_texts};

use crate::printing::{print_head, print_rows, print_table};
use crate::widths::column_width;
use df_value::{CellType, Row, Schema, Text};
use std::alloc::{AllocError, Global};
use std::thread;
use std::thread::Threads;

// The most threads that print one table.
const MOST_THREADS: usize = 16;

// The least rows for each thread: fewer are printed sooner than a thread begins.
const LEAST_ROWS: usize = 4096;

/// The same as [`print_table`], by at most so many threads, and no more than 16. Each of them prints at least 4,096 rows.
pub fn print_table_by<R: Threads + Sync>(
    rt: &R,
    alloc: Global,
    name: &Text,
    schema: &Schema,
    rows: &[Row],
    threads: usize,
) -> Result<Vec<u8>, AllocError>
    ensures value { IfOk result (λ v. v.items ≡ printed name.now schema.now rows.now) }
    ensures lines { IfOk result (λ v. IsTableOf schema.now rows.now v.items) }
{
    let threads = threads.min(MOST_THREADS).min(rows.len() / LEAST_ROWS);
    if threads < 2 {
        return print_table(alloc, name, schema, rows);
    }
    let columns = schema.columns().as_slice();
    let widths = widths_by(rt, alloc, columns, rows, threads)?;
    let mut out = print_head(alloc, name, columns, widths.as_slice(), rows.len())?;
    push_rows_by(
        rt,
        alloc,
        &mut out,
        columns,
        widths.as_slice(),
        rows,
        threads,
    )?;
    Ok(out)
}

// The widths of the columns, of which each thread looks at some.
fn widths_by<R: Threads + Sync>(
    rt: &R,
    alloc: Global,
    columns: &[(Text, CellType)],
    rows: &[Row],
    threads: usize,
) -> Result<Vec<usize>, AllocError>
    requires { 0 < threads }
    ensures widths { IfOk result (λ v. v.items ≡ column_widths columns.now rows.now) }
    ensures len { IfOk result (λ v. length v.items ≡ length columns.now) }
    ensures utf8 { IfOk result (λ _. AreUtf8 columns.now rows.now) }
{
    let mut found = unknown_widths(alloc, columns.len())?;
    find_widths(rt, alloc, columns, rows, found.as_mut_slice(), threads);
    known_widths(alloc, columns, rows, found.as_slice())
}

// So many widths that are not known.
fn unknown_widths(alloc: Global, len: usize) -> Result<Vec<Option<usize>>, AllocError>
    ensures { IfOk result (λ v. length v.items ≡ len) }
{
    let mut unknown = Vec::with_capacity(alloc, len)?;
    for _ in 0..len {
        unknown.push(None)?;
    }
    Ok(unknown)
}

// Finds the width of each column; that of one for which memory is refused stays unknown.
fn find_widths<R: Threads + Sync>(
    rt: &R,
    alloc: Global,
    columns: &[(Text, CellType)],
    rows: &[Row],
    found: &mut [Option<usize>],
    threads: usize,
)
    requires threads { 0 < threads }
    requires len { length found.old ≡ length columns.now }
    ensures len { length found.new ≡ length columns.now }
    ensures each { (at : ℕ) (d : Option ℕ) → at < length columns.now →
        IfSome (slice_index_or found.new at d) (IsWidthAt columns.now rows.now at) }
{
    thread::for_each_mut(
        rt,
        found,
        threads,
        &|at, width| find_width(alloc, columns, rows, at, width),
    );
}

#[tactic(auto, using(crate::proofs::ColumnFacts::width_at))]
fn find_width(
    alloc: Global,
    columns: &[(Text, CellType)],
    rows: &[Row],
    at: usize,
    width: &mut Option<usize>,
)
    requires { at < length columns.now }
    ensures { IfSome width.new (IsWidthAt columns.now rows.now at) }
{
    *width = match column_width(alloc, at, &columns[at].0, rows) {
        Ok(found) => Some(found),
        Err(_) => None,
    };
}

// The widths, where all are known.
fn known_widths(
    alloc: Global,
    columns: &[(Text, CellType)],
    rows: &[Row],
    found: &[Option<usize>],
) -> Result<Vec<usize>, AllocError>
    requires len { length found.now ≡ length columns.now }
    requires each { (at : ℕ) (d : Option ℕ) → at < length columns.now →
        IfSome (slice_index_or found.now at d) (IsWidthAt columns.now rows.now at) }
    ensures widths { IfOk result (λ v. v.items ≡ column_widths columns.now rows.now) }
    ensures len { IfOk result (λ v. length v.items ≡ length columns.now) }
    ensures utf8 { IfOk result (λ _. AreUtf8 columns.now rows.now) }
{
    let _ = rows;
    let mut widths = Vec::with_capacity(alloc, columns.len())?;
    for i in 0..columns.len() {
        let Some(width) = found[i] else {
            return Err(AllocError);
        };
        widths.push(width)?;
    }
    Ok(widths)
}

// Appends the lines of the rows, of which each thread prints a part.
fn push_rows_by<R: Threads + Sync>(
    rt: &R,
    alloc: Global,
    out: &mut Vec<u8>,
    columns: &[(Text, CellType)],
    widths: &[usize],
    rows: &[Row],
    threads: usize,
) -> Result<(), AllocError>
    requires threads { 0 < threads }
    requires some { 0 < length rows.now }
    requires widths { length widths.now ≡ length columns.now }
    ensures { OnOk result (out.new.items ≡ out.old.items
        ++ flat_map (λ row. printed_line columns.now widths.now (row_texts (length columns.now) row)) rows.now) }
{
    let size = rows.len().div_ceil(threads);
    let parts = print_parts(rt, alloc, columns, widths, rows, size)?;
    push_parts(out, parts)
}

// The lines of the rows in parts, each of so many rows but the last one.
fn print_parts<R: Threads + Sync>(
    rt: &R,
    alloc: Global,
    columns: &[(Text, CellType)],
    widths: &[usize],
    rows: &[Row],
    size: usize,
) -> Result<Vec<Vec<u8>>, AllocError>
    requires size { 0 < size }
    requires widths { length widths.now ≡ length columns.now }
    ensures { IfOk result (λ parts. flat_map (λ part. part.items) parts.items
        ≡ flat_map (λ row. printed_line columns.now widths.now (row_texts (length columns.now) row)) rows.now) }
{
    let parts = thread::map_chunks(
        rt,
        alloc,
        rows,
        size,
        &|_, part| { print_rows(alloc, columns, widths, part) },
    )?;
    let printed = all_printed(alloc, parts)?;
    Ok(printed)
}

// The parts, where each was printed.
fn all_printed(
    alloc: Global,
    parts: Vec<Result<Vec<u8>, AllocError>>,
) -> Result<Vec<Vec<u8>>, AllocError>
    ensures { IfOk result (λ printed. parts.items ≡ map (λ part. Ok part) printed.items) }
{
    let mut printed = Vec::with_capacity(alloc, parts.len())?;
    for part in parts {
        printed.push(part?)?;
    }
    Ok(printed)
}

// Appends the parts, each of which is dropped then.
fn push_parts(out: &mut Vec<u8>, parts: Vec<Vec<u8>>) -> Result<(), AllocError>
    ensures { OnOk result (out.new.items ≡ out.old.items ++ flat_map (λ part. part.items) parts.items) }
{
    for part in parts {
        out.extend_from_slice(part.as_slice())?;
    }
    Ok(())
}
