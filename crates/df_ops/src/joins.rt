//! Joins of plain tables.
ghost use Rattle.std.specs.Prelude.{◌≡◌, ◌<◌, ◌++◌, ◌∷◌, [], All, IfOk, OnOk, filter, length, map, take};
ghost use Rattle.std.specs.List.{list_any, sum_by};
ghost use Rattle.df_expr.specs.Value as value_spec;
ghost use Rattle.df_ops.specs.Joins as joins;
ghost use Rattle.df_ops.specs.Joins.{has_match, join_count, match_count, IsJoinOfRow, JoinsItself, SameWithoutNulls};
ghost use Rattle.df_ops.specs.Groups as groups_spec;
ghost use Rattle.df_ops.specs.Tables as tables;

use crate::groups::key_of;
use crate::join_columns::{JoinIndices, columns_of_join, join_indices_of};
use crate::plain_table::{PlainTable, table_from};
use df_value::{Cell, Duplicate, List, Row, Text, copies, push_made};
use std::alloc::{AllocError, Global};

/// Which left rows a join keeps.
#[derive(Clone, Copy, PartialEq, Eq)]
pub enum How {
    /// Those that have a match.
    Inner,
    /// All; one without a match stands once, beside nulls.
    Left,
}

/// The join of two tables. Null keys match null keys where nulls are equal, else nothing.
#[tactic(auto, unfolding(crate::specs::Tables::join_table))]
pub fn join(
    alloc: Global,
    left: &PlainTable,
    right: &PlainTable,
    how: How,
    keys: &[Text],
    nulls_equal: bool,
) -> Result<PlainTable, AllocError>
    ensures { IfOk result
        (λ t. t ≡ tables.join_table left.now right.now how keys.now nulls_equal) }
{
    let columns = columns_of_join(alloc, &left.columns, right.columns.as_slice(), keys);
    table_from(
        columns,
        rows_of_join(alloc, left, right, how, keys, nulls_equal),
    )
}

fn rows_of_join(
    alloc: Global,
    left: &PlainTable,
    right: &PlainTable,
    how: How,
    keys: &[Text],
    nulls_equal: bool,
) -> Result<List<Row>, AllocError>
    ensures { IfOk result (λ rows. rows
        ≡ joins.join_rows how
        (joins.join_indices_of left.now.columns right.now.columns keys.now nulls_equal)
        left.now.rows right.now.rows) }
{
    let join_indices = join_indices_of(
        alloc,
        left.columns.as_slice(),
        right.columns.as_slice(),
        keys,
        nulls_equal,
    )?;
    join_rows(
        alloc,
        how,
        &join_indices,
        left.rows.as_slice(),
        right.rows.as_slice(),
    )
}

/// The rows of a join, in left order, and for one left row in right order.
pub fn join_rows(
    alloc: Global,
    how: How,
    join_indices: &JoinIndices,
    lefts: &[Row],
    rights: &[Row],
) -> Result<List<Row>, AllocError>
    ensures value { IfOk result
        (λ rows. rows ≡ joins.join_rows how join_indices.now lefts.now rights.now) }

    // Each left row gives its part.
    ensures count { IfOk result (λ rows. length rows
        ≡ sum_by (λ left. join_count how
        (match_count join_indices.now rights.now left)) lefts.now) }

    // An inner join is the left join of those left rows that have a match.
    ensures inner_is_left { joins.join_rows How.Inner join_indices.now lefts.now rights.now
        ≡ joins.join_rows How.Left join_indices.now
        (filter (has_match join_indices.now rights.now) lefts.now) rights.now }

    // Rows that are joined with themselves, where nulls are equal, are each beside themselves.
    ensures itself { JoinsItself how join_indices.now lefts.now }

    // The rows of each left row stand in left order.
    ensures left_order { joins.JoinsInOrder how join_indices.now rights.now }
{
    all_joined(alloc, how, join_indices, lefts, rights)
}

fn all_joined(
    alloc: Global,
    how: How,
    join_indices: &JoinIndices,
    lefts: &[Row],
    rights: &[Row],
) -> Result<List<Row>, AllocError>
    ensures { IfOk result
        (λ rows. rows ≡ joins.join_rows how join_indices.now lefts.now rights.now) }
{
    let mut rows = Vec::new(alloc);
    for left in lefts {
        add_joined(alloc, &mut rows, how, join_indices, left, rights)?;
    }
    Ok(List::from_vec(rows))
}

// Adds the rows that one left row gives.
fn add_joined(
    alloc: Global,
    rows: &mut Vec<Row>,
    how: How,
    join_indices: &JoinIndices,
    left: &Row,
    rights: &[Row],
) -> Result<(), AllocError>
    ensures { OnOk result
        (rows.new.items
        ≡ rows.old.items ++ joins.join_row how join_indices.now rights.now left.now) }
{
    let mut made = join_row(alloc, how, join_indices, left, rights)?;
    rows.append(&mut made)
}

/// The rows that one left row gives, in right order.
pub fn join_row(
    alloc: Global,
    how: How,
    join_indices: &JoinIndices,
    left: &Row,
    rights: &[Row],
) -> Result<Vec<Row>, AllocError>
    ensures value { IfOk result
        (λ rows. rows.items ≡ joins.join_row how join_indices.now rights.now left.now) }

    // One for each match, and in a left join at least one.
    ensures count { IfOk result
        (λ rows. length rows.items
        ≡ join_count how (match_count join_indices.now rights.now left.now)) }
    ensures kept { how ≡ How.Left → IfOk result (λ rows. 0 < length rows.items) }

    // Each begins with the left row.
    ensures begins { IfOk result
        (λ rows. All (λ row. take (length left.now) row ≡ left.now) rows.items) }

    // And goes on with the cells of a match, or in a left join with nulls where there is none.
    ensures right_cells { IsJoinOfRow join_indices.now left.now
        (λ h rows. joins.join_row h join_indices.now rows left.now) }

    // A row without a null in its key has the same matches whether nulls are equal or not.
    ensures no_nulls { SameWithoutNulls join_indices.now rights.now left.now }
{
    matched_row(alloc, how, join_indices, left, rights)
}

#[tactic(auto, unfolding(crate::specs::Joins::join_row))]
fn matched_row(
    alloc: Global,
    how: How,
    join_indices: &JoinIndices,
    left: &Row,
    rights: &[Row],
) -> Result<Vec<Row>, AllocError>
    ensures { IfOk result
        (λ rows. rows.items ≡ joins.join_row how join_indices.now rights.now left.now) }
{
    let key = key_of(alloc, join_indices.left.as_slice(), left)?;
    let rests = matched_rests(
        alloc,
        join_indices.nulls_equal,
        join_indices.right.as_slice(),
        join_indices.rest.as_slice(),
        &key,
        rights,
    )?;
    left_beside(
        alloc,
        how,
        left,
        join_indices.rest.as_slice(),
        rests.as_slice(),
    )
}

// Of the right rows whose key matches, the cells at the indices `rest`.
fn matched_rests(
    alloc: Global,
    nulls_equal: bool,
    indices: &[Option<usize>],
    rest: &[Option<usize>],
    key: &Row,
    rights: &[Row],
) -> Result<Vec<Row>, AllocError>
    ensures { IfOk result
        (λ rests. rests.items
        ≡ map (groups_spec.key_of rest.now)
        (joins.matches_of nulls_equal indices.now key.now rights.now)) }
{
    let mut rests = Vec::new(alloc);
    for right in rights {
        add_rest(alloc, &mut rests, nulls_equal, indices, rest, key, right)?;
    }
    Ok(rests)
}

// Adds the cells of a right row, if its key matches.
fn add_rest(
    alloc: Global,
    rests: &mut Vec<Row>,
    nulls_equal: bool,
    indices: &[Option<usize>],
    rest: &[Option<usize>],
    key: &Row,
    right: &Row,
) -> Result<(), AllocError>
    ensures { OnOk result (rests.new.items
        ≡ rests.old.items
        ++ map (groups_spec.key_of rest.now)
        (joins.matches_of nulls_equal indices.now key.now (right.now ∷ []))) }
{
    let own = key_of(alloc, indices, right)?;
    if keys_match(nulls_equal, key, &own) {
        rests.push(key_of(alloc, rest, right)?)?;
    }
    Ok(())
}

// Whether two keys match: they are the same, and unless nulls are equal no cell of them is null.
fn keys_match(nulls_equal: bool, left: &Row, right: &Row) -> bool
    ensures { result ≡ joins.keys_match nulls_equal left.now right.now }
{
    *right == *left && (nulls_equal || !has_null(left.as_slice()))
}

/// Whether one of the cells is null.
pub fn has_null(cells: &[Cell]) -> bool
    ensures { result ≡ list_any value_spec.is_null cells.now }
{
    cells.iter().any(|cell| *cell == Cell::Null)
}

// The left row beside each of the rests; where there is none, a left join has it once beside nulls.
fn left_beside(
    alloc: Global,
    how: How,
    left: &Row,
    indices: &[Option<usize>],
    rests: &[Row],
) -> Result<Vec<Row>, AllocError>
    ensures { IfOk result
        (λ rows. rows.items
        ≡ joins.left_beside how left.now (joins.nulls_for indices.now) rests.now) }
{
    match how {
        How::Left if rests.is_empty() => {
            let rest = nulls(alloc, indices)?;
            let row = row_beside(alloc, left, rest.as_slice())?;
            Ok(vec![in alloc; row]?)
        }
        _ => each_beside(alloc, left, rests),
    }
}

fn each_beside(alloc: Global, left: &Row, rests: &[Row]) -> Result<Vec<Row>, AllocError>
    ensures { IfOk result (λ rows. rows.items ≡ map (λ rest. left.now ++ rest) rests.now) }
{
    let mut rows = Vec::with_capacity(alloc, rests.len())?;
    for rest in rests {
        push_made(&mut rows, row_beside(alloc, left, rest.as_slice()))?;
    }
    Ok(rows)
}

/// A row with further cells behind its own.
pub fn row_beside(alloc: Global, left: &Row, rest: &[Cell]) -> Result<Row, AllocError>
    ensures { IfOk result (λ row. row ≡ left.now ++ rest.now) }
{
    let mut row = copies(alloc, left.as_slice())?;
    for cell in rest {
        push_made(&mut row, cell.copy(alloc))?;
    }
    Row::new(alloc, row)
}

/// A null for each of these indices.
pub fn nulls(alloc: Global, indices: &[Option<usize>]) -> Result<Vec<Cell>, AllocError>
    ensures { IfOk result (λ cells. cells.items ≡ joins.nulls_for indices.now) }
{
    indices.iter().map(|_| Cell::Null).collect(alloc)
}
