//! Rows of a table.
ghost use Rattle.std.specs.Prelude.{◌≡◌, ◌↔◌, IfOk, IsTrue, length, slice_get};
ghost use Rattle.std.specs.Option.{option_copied};
ghost use Rattle.df_value.specs.CellRefs.{cell_of_ref};
ghost use Rattle.df_value.specs.Rows as rows;

use crate::cell::Cell;
use crate::cell_ref::CellRef;
use crate::list::List;
use crate::shared::Shared;
use crate::traits::{Duplicate, Exact};
use std::alloc::{AllocError, Global};
use std::marker::Model;

/// One row of a table, which contracts see as the list of its cells.
///
/// All copies of a row share its cells, so that a row can be handed on without a copy of its
/// texts.
#[derive(PartialEq, Eq, Hash)]
pub struct Row {
    cells: Shared<List<Cell>>,
}

// A body that owns one drops it by a call.
impl Drop for Row {
    fn drop(self) {
        let Row { cells } = self;
        drop(cells);
    }
}

impl Model for Row {
    ghost use Rattle.std.specs.Prelude.{List as Seq};
    ghost use Rattle.df_value.specs.declared.cell.Cell.{Cell};

    ghost Value = { Seq Cell };

    ghost view = { λ row. row.cells };

    ghost inverse = { λ cells. record { cells = cells } };
}

impl Row {
    /// The row of these cells.
    pub fn new(alloc: Global, cells: Vec<Cell>) -> Result<Row, AllocError>
        ensures { IfOk result (λ row. row ≡ cells.items) }
    {
        Ok(Row {
            cells: Shared::new(alloc, List::from_vec(cells))?,
        })
    }

    /// The cells.
    pub fn as_slice(&self) -> &[Cell]
        ensures { result.now ≡ self.now }
    {
        self.cells.get().as_slice()
    }

    /// The number of cells.
    pub fn len(&self) -> usize
        ensures { result ≡ length self.now }
    {
        self.cells.get().len()
    }

    /// Whether there is no cell.
    pub fn is_empty(&self) -> bool
        ensures { IsTrue result ↔ (length self.now ≡ 0) }
    {
        self.cells.get().is_empty()
    }

    /// The cell at this index, if there is one.
    pub fn get(&self, index: usize) -> Option<&Cell>
        ensures { option_copied result ≡ slice_get self.now index }
    {
        self.cells.get().get(index)
    }

    /// The cell at this index, lent; null where there is none.
    pub fn cell_at(&self, index: Option<usize>) -> CellRef<'_>
        ensures { cell_of_ref result ≡ rows.cell_at index self.now }
    {
        let Some(index) = index else {
            return CellRef::Null;
        };
        match self.get(index) {
            Some(cell) => CellRef::of(cell),
            None => CellRef::Null,
        }
    }
}

impl Duplicate for Row {
    /// The same row once more. It takes no memory, and is refused only where the count of owners is
    /// full.
    fn copy(&self, alloc: Global) -> Result<Row, AllocError> {
        Ok(Row {
            cells: self.cells.copy(alloc)?,
        })
    }
}

impl Exact for Row {
    ghost use Rattle.df_value.specs.RowEq.{row_eq-Decides};

    ghost decides = { row_eq-Decides };
}
