//! The columns of a join, and the column indices of its keys and of its further cells.
ghost use Rattle.std.specs.Prelude.{◌≡◌, ◌++◌, ◌∷◌, [], IfOk, OnOk, codes, map};
ghost use Rattle.df_ops.specs.Joins as joins;
ghost use Rattle.df_ops.specs.Joins.{columns_without_keys};
ghost use Rattle.df_ops.specs.NamedColumns as named_columns;

use df_value::{CellType, Duplicate, List, Text, column_index, has_name};
use std::alloc::{AllocError, Global};

/// The column indices of the keys on the left and on the right, and those of the right columns that
/// are no keys; and whether null keys match.
pub struct JoinIndices {
    pub left: List<Option<usize>>,
    pub right: List<Option<usize>>,
    pub rest: List<Option<usize>>,
    pub nulls_equal: bool,
}

// A body that owns one drops it by a call.
impl Drop for JoinIndices {
    fn drop(self) {
        let JoinIndices {
            left,
            right,
            rest,
            nulls_equal: _,
        } = self;
        drop(left);
        drop(right);
        drop(rest);
    }
}

/// The column indices that a join of tables of these columns reads.
pub fn join_indices_of(
    alloc: Global,
    left: &[(Text, CellType)],
    right: &[(Text, CellType)],
    keys: &[Text],
    nulls_equal: bool,
) -> Result<JoinIndices, AllocError>
    ensures { IfOk result
        (λ s. s ≡ joins.join_indices_of left.now right.now keys.now nulls_equal) }
{
    let rest = rest_indices(alloc, right, keys)?;
    let left = column_indices(alloc, left, keys)?;
    let right = column_indices(alloc, right, keys)?;
    Ok(JoinIndices {
        left,
        right,
        rest,
        nulls_equal,
    })
}

/// The indices of the columns of these names.
pub fn column_indices(
    alloc: Global,
    columns: &[(Text, CellType)],
    names: &[Text],
) -> Result<List<Option<usize>>, AllocError>
    ensures { IfOk result
        (λ indices. indices ≡ named_columns.column_indices columns.now names.now) }
{
    let mut indices = Vec::with_capacity(alloc, names.len())?;
    for name in names {
        indices.push(column_index(name, columns))?;
    }
    Ok(List::from_vec(indices))
}

// The indices of the right columns that are no keys.
fn rest_indices(
    alloc: Global,
    right: &[(Text, CellType)],
    keys: &[Text],
) -> Result<List<Option<usize>>, AllocError>
    ensures { IfOk result
        (λ indices. indices
        ≡ named_columns.column_indices right.now
        (map (λ c. c.0) (columns_without_keys keys.now right.now))) }
{
    let mut indices = Vec::new(alloc);
    for column in right {
        push_rest_index(&mut indices, right, keys, column)?;
    }
    Ok(List::from_vec(indices))
}

// Adds the index of a column, if it is no key.
fn push_rest_index(
    indices: &mut Vec<Option<usize>>,
    right: &[(Text, CellType)],
    keys: &[Text],
    column: &(Text, CellType),
) -> Result<(), AllocError>
    ensures { OnOk result (indices.new.items
        ≡ indices.old.items
        ++ named_columns.column_indices right.now
        (map (λ c. c.0) (columns_without_keys keys.now (column.now ∷ [])))) }
{
    if !has_name(keys, column.0.as_str()) {
        indices.push(column_index(&column.0, right))?;
    }
    Ok(())
}

/// The left columns, and after them the right ones that are no keys; of these one whose name stands
/// on the left gets a suffix.
pub fn columns_of_join(
    alloc: Global,
    left: &List<(Text, CellType)>,
    right: &[(Text, CellType)],
    keys: &[Text],
) -> Result<List<(Text, CellType)>, AllocError>
    ensures { IfOk result (λ columns. columns ≡ joins.columns_of_join left.now right.now keys.now) }
{
    let mut out = left.copy(alloc)?.into_vec();
    for column in right {
        add_column(alloc, &mut out, left.as_slice(), keys, column)?;
    }
    Ok(List::from_vec(out))
}

// Adds a right column, if it is no key.
fn add_column(
    alloc: Global,
    out: &mut Vec<(Text, CellType)>,
    left: &[(Text, CellType)],
    keys: &[Text],
    column: &(Text, CellType),
) -> Result<(), AllocError>
    ensures { OnOk result (out.new.items
        ≡ out.old.items
        ++ map (joins.right_column left.now)
        (columns_without_keys keys.now (column.now ∷ []))) }
{
    if !has_name(keys, column.0.as_str()) {
        out.push(right_column(alloc, left, column)?)?;
    }
    Ok(())
}

// A right column under its name, or where that stands on the left, with a suffix.
fn right_column(
    alloc: Global,
    left: &[(Text, CellType)],
    column: &(Text, CellType),
) -> Result<(Text, CellType), AllocError>
    ensures { IfOk result (λ c. c ≡ joins.right_column left.now column.now) }
{
    if !has_name(left, column.0.as_str()) {
        return column.copy(alloc);
    }
    Ok((suffixed(alloc, &column.0)?, column.1))
}

fn suffixed(alloc: Global, name: &Text) -> Result<Text, AllocError>
    ensures { IfOk result (λ n. n ≡ name.now ++ codes "_right") }
{
    let mut suffixed = String::from_str(alloc, name.as_str())?;
    suffixed.push_str("_right")?;
    Ok(Text::from_string(suffixed))
}
