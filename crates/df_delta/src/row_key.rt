//! Keys of rows, by which rows are looked up without a copy of a cell.
ghost use Rattle.std.specs.Prelude.{◌≡◌};
ghost use Rattle.std.specs.List.{flat_map, fold};
ghost use Rattle.std.specs.Option.{option_copied};
ghost use Rattle.df_value.specs.CellEq.{cell_eq};
ghost use Rattle.df_value.specs.Rows.{cell_at};
ghost use Rattle.df_ops.specs.Groups.{key_of};
ghost use Rattle.df_delta.specs.RowKeys.{cell_or_null, cell_writes};

use df_ops::is_in_group;
use df_value::{Cell, Row};
use indexmap::Equivalent;
use std::hash::{Hash, Hasher};

/// The cells of a row at some indices, as they stand there. A map finds a row of the same cells by it.
#[derive(Clone, Copy)]
pub struct RowKey<'a> {
    pub indices: &'a [Option<usize>],
    pub row: &'a Row,
}

/// The cell of the row at an index, if it has one there.
fn cell_of<'a>(row: &'a Row, index: Option<usize>) -> Option<&'a Cell>
    ensures { cell_or_null (option_copied result) ≡ cell_at index row.now }
{
    match index {
        Some(at) => row.get(at),
        None => None,
    }
}

/// Whether the cells are the same, where none is a null.
fn are_same(a: Option<&Cell>, b: Option<&Cell>) -> bool
    ensures { result ≡ cell_eq (cell_or_null (option_copied a.entry))
        (cell_or_null (option_copied b.entry)) }
{
    match (a, b) {
        (Some(a), Some(b)) => *a == *b,
        (Some(a), None) => *a == Cell::Null,
        (None, Some(b)) => Cell::Null == *b,
        (None, None) => true,
    }
}

/// Feeds the cell to the hasher, a null where there is none.
fn hash_cell<H: Hasher>(cell: Option<&Cell>, state: &mut H)
    ensures { state.new ≡ fold H.write state.old
        (cell_writes (cell_or_null (option_copied cell.entry))) }
{
    match cell {
        Some(cell) => cell.hash(state),
        None => Cell::Null.hash(state),
    }
}

/// Feeds the cells of the row at these indices to the hasher.
fn hash_cells<H: Hasher>(row: &Row, indices: &[Option<usize>], state: &mut H)
    ensures { state.new ≡ fold H.write state.old
        (flat_map cell_writes (key_of indices.now row.now)) }
{
    for index in indices {
        hash_cell(cell_of(row, *index), state);
    }
}

impl PartialEq for RowKey<'_> {
    ghost use Rattle.df_delta.specs.RowKeys.{key_eq, key_eq-partial};

    ghost eq = { key_eq };

    ghost laws = { key_eq-partial };

    fn eq(&self, other: &RowKey<'_>) -> bool {
        let (indices, others) = (self.indices, other.indices);
        if indices.len() != others.len() {
            return false;
        }
        for at in 0..indices.len() {
            let cell = cell_of(self.row, indices[at]);
            if !are_same(cell, cell_of(other.row, others[at])) {
                return false;
            }
        }
        true
    }
}

impl Eq for RowKey<'_> {
    ghost use Rattle.df_delta.specs.RowKeys.{key_eq-equivalence};

    ghost laws = { key_eq-equivalence };
}

impl Hash for RowKey<'_> {
    ghost use Rattle.df_delta.specs.RowKeys.{fed_alike, key_cells, row_writes};

    ghost hash_input = { λ k. row_writes (key_cells k) };

    ghost respects_eq = { λ a b. fed_alike (key_cells a) (key_cells b) };

    fn hash<H: Hasher>(&self, state: &mut H) {
        state.write_usize(self.indices.len());
        hash_cells(self.row, self.indices, state);
    }
}

impl Equivalent<Row> for RowKey<'_> {
    ghost use Rattle.df_value.specs.RowEq.{row_eq-equivalence};
    ghost use Rattle.df_value.specs.Rows.{row_eq};
    ghost use Rattle.df_delta.specs.RowKeys.{fed_alike, key_cells};

    ghost equivalent = { λ k row. row_eq (key_cells k) row };

    ghost respects_hash = { λ k row. fed_alike (key_cells k) row };

    ghost respects_eq = { λ k a b. row_eq-equivalence.congr (key_cells k) a b };

    fn equivalent(&self, row: &Row) -> bool {
        is_in_group(self.indices, self.row, row)
    }
}
