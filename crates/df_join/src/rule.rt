//! How a join matches rows, and what it makes of them.
ghost use Rattle.std.specs.Prelude.{◌≡◌, ◌&&◌, IfOk, None, Some};
ghost use Rattle.std.specs.List.{list_any};
ghost use Rattle.df_value.specs.Rows.{cell_at, row_eq};
ghost use Rattle.df_expr.specs.Value.{is_null};
ghost use Rattle.df_delta.specs.RowKeys as row_keys;
ghost use Rattle.df_ops.specs.Groups.{key_of as key_cells};
ghost use Rattle.df_join.specs.Rules as rules;

use df_delta::RowKey;
use df_ops::{How, JoinIndices, key_of, nulls, row_beside};
use df_value::{CellRef, Row};
use std::alloc::{AllocError, Global};

/// Whether the row's cell at an index is null, or there is none.
fn is_null_at(row: &Row, index: Option<usize>) -> bool
    ensures { result ≡ is_null (cell_at index row.now) }
{
    matches!(row.cell_at(index), CellRef::Null)
}

/// Whether one of the cells of the key is null.
fn has_null(key: RowKey<'_>) -> bool
    ensures { result ≡ list_any (λ i. is_null (cell_at i key.entry.row.now)) key.entry.indices.now }
{
    let row = key.row;
    key.indices.iter().any(|index| is_null_at(row, *index))
}

/// Which rows match, and which cells stand beside a left row.
pub struct JoinRule {
    pub how: How,
    pub indices: JoinIndices,
}

// A body that owns one drops it by a call.
impl Drop for JoinRule {
    fn drop(self) {
        let JoinRule { how: _, indices } = self;
        drop(indices);
    }
}

impl JoinRule {
    /// Whether the key is null, so that it matches nothing.
    pub fn is_null_key(&self, key: RowKey<'_>) -> bool
        ensures { result ≡ rules.is_null_key self.now (row_keys.key_cells key.entry) }
    {
        !self.indices.nulls_equal && has_null(key)
    }

    /// Whether a left row stays that has no match.
    pub fn keeps_left(&self) -> bool
        ensures { result ≡ rules.keeps_left self.now.how }
    {
        match self.how {
            How::Inner => false,
            How::Left => true,
        }
    }

    /// Whether a left row stays where it is alone.
    pub fn keeps_alone(&self, alone: bool) -> bool
        ensures { result ≡ (rules.keeps_left self.now.how && alone) }
    {
        self.keeps_left() && alone
    }

    /// The key of a left row.
    pub fn left_key<'a>(&'a self, row: &'a Row) -> RowKey<'a>
        ensures { row_keys.key_cells result ≡ key_cells self.now.indices.left row.now }
    {
        let indices = self.indices.left.as_slice();
        RowKey { indices, row }
    }

    /// The key of a right row.
    pub fn right_key<'a>(&'a self, row: &'a Row) -> RowKey<'a>
        ensures { row_keys.key_cells result ≡ key_cells self.now.indices.right row.now }
    {
        let indices = self.indices.right.as_slice();
        RowKey { indices, row }
    }

    /// Whether two right rows have the same key.
    pub fn is_same_right_key(&self, a: &Row, b: &Row) -> bool
        ensures { result ≡ row_eq (key_cells self.now.indices.right a.now)
            (key_cells self.now.indices.right b.now) }
    {
        self.right_key(a) == self.right_key(b)
    }

    /// A left row beside a match.
    pub fn pair(&self, alloc: Global, left: &Row, right: &Row) -> Result<Row, AllocError>
        ensures { IfOk result (λ row. row ≡ rules.joined_row self.now left.now (Some right.now)) }
    {
        let cells = key_of(alloc, self.indices.rest.as_slice(), right)?;
        row_beside(alloc, left, cells.as_slice())
    }

    /// A left row without a match, beside nulls.
    pub fn lone(&self, alloc: Global, left: &Row) -> Result<Row, AllocError>
        ensures { IfOk result (λ row. row ≡ rules.joined_row self.now left.now None) }
    {
        let cells = nulls(alloc, self.indices.rest.as_slice())?;
        row_beside(alloc, left, &cells)
    }
}
