//! Group-by over plain tables.
ghost use Rattle.std.specs.Prelude.{◌≡◌, IfOk, map};
ghost use Rattle.df_ops.specs.Tables as tables;
ghost use Rattle.df_ops.specs.Tables.{group_by_table};

use crate::agg::Agg;
use crate::aggregates::aggregate;
use crate::groups::{group_of, keys_of};
use crate::join_columns::column_indices;
use crate::plain_table::{PlainTable, table_from};
use df_value::{CellType, Duplicate, List, Row, Text, column_dtype, copies, push_made};
use std::alloc::{AllocError, Global};

/// The groups of a table, by the first appearance of their keys.
#[tactic(auto, unfolding(crate::specs::Tables::group_by_table))]
pub fn group_by(
    alloc: Global,
    table: &PlainTable,
    keys: &[Text],
    aggs: &[(Text, Agg)],
) -> Result<PlainTable, AllocError>
    ensures { IfOk result (λ t. t ≡ group_by_table table.now keys.now aggs.now) }
{
    let columns = group_by_columns(alloc, &table.columns, keys, aggs);
    table_from(columns, group_by_rows(alloc, table, keys, aggs))
}

fn group_by_rows(
    alloc: Global,
    table: &PlainTable,
    keys: &[Text],
    aggs: &[(Text, Agg)],
) -> Result<List<Row>, AllocError>
    ensures { IfOk result (λ rows. rows ≡ tables.group_by_rows table.now keys.now aggs.now) }
{
    let indices = column_indices(alloc, table.columns.as_slice(), keys)?;
    let found = keys_of(alloc, indices.as_slice(), table.rows.as_slice())?;
    group_rows(alloc, table, indices.as_slice(), found.as_slice(), aggs)
}

fn group_by_columns(
    alloc: Global,
    columns: &List<(Text, CellType)>,
    keys: &[Text],
    aggs: &[(Text, Agg)],
) -> Result<List<(Text, CellType)>, AllocError>
    ensures { IfOk result (λ cs. cs ≡ tables.group_by_columns columns.now keys.now aggs.now) }
{
    let mut out = Vec::new(alloc);
    for name in keys {
        out.push((name.copy(alloc)?, dtype_at(columns, name)))?;
    }
    for agg in aggs {
        out.push((agg.0.copy(alloc)?, aggregate_dtype(columns, &agg.1)))?;
    }
    Ok(List::from_vec(out))
}

fn dtype_at(columns: &List<(Text, CellType)>, name: &Text) -> CellType
    ensures { result ≡ tables.dtype_at columns.now name.now }
{
    column_dtype(name, columns.as_slice()).unwrap_or(CellType::Int)
}

fn aggregate_dtype(columns: &List<(Text, CellType)>, agg: &Agg) -> CellType
    ensures { result ≡ tables.aggregate_dtype columns.now agg.now }
{
    match agg.input_column() {
        Some(name) => agg
            .output_dtype(dtype_at(columns, name))
            .unwrap_or(CellType::Int),
        None => CellType::Int,
    }
}

// A row for each key.
fn group_rows(
    alloc: Global,
    table: &PlainTable,
    indices: &[Option<usize>],
    found: &[Row],
    aggs: &[(Text, Agg)],
) -> Result<List<Row>, AllocError>
    ensures { IfOk result
        (λ rows. rows
        ≡ map (tables.group_row table.now.columns indices.now aggs.now table.now.rows) found.now) }
{
    let mut rows = Vec::with_capacity(alloc, found.len())?;
    for key in found {
        push_made(&mut rows, group_row(alloc, table, indices, key, aggs))?;
    }
    Ok(List::from_vec(rows))
}

// The key, and after it the aggregates of its group.
fn group_row(
    alloc: Global,
    table: &PlainTable,
    indices: &[Option<usize>],
    key: &Row,
    aggs: &[(Text, Agg)],
) -> Result<Row, AllocError>
    ensures { IfOk result
        (λ row. row
        ≡ tables.group_row table.now.columns indices.now aggs.now table.now.rows key.now) }
{
    let group = group_of(alloc, indices, table.rows.as_slice(), key)?;
    let mut row = copies(alloc, key.as_slice())?;
    for agg in aggs {
        let cell = aggregate(alloc, table.columns.as_slice(), group.as_slice(), &agg.1);
        push_made(&mut row, cell)?;
    }
    Row::new(alloc, row)
}
