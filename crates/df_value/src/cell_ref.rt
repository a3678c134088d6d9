//! Cells that are lent where they stand.
ghost use Rattle.std.specs.Prelude.{◌≡◌, IfOk, IsOk, IsTrue, not};
ghost use Rattle.df_value.specs.CellRefs.{cell_of_ref};
ghost use Rattle.df_value.specs.Cells.{is_text};
ghost use Rattle.df_value.specs.Order.{order_of};

use crate::cell::Cell;
use crate::frac::Frac;
use crate::text::Text;
use std::alloc::{AllocError, Global};
use std::cmp::Ordering;

/// A [`Cell`] that is lent: its text or its mean stands elsewhere, and any other value is here.
#[derive(Clone, Copy)]
pub enum CellRef<'a> {
    Null,
    Int(i64),
    Wide(i128),
    Text(&'a str),
    Bool(bool),
    // Lent, since the prover takes no value with a `Model` out of an enum that is copied.
    Frac(&'a Frac),
}

impl<'a> CellRef<'a> {
    /// The cell, lent.
    pub fn of(cell: &'a Cell) -> CellRef<'a>
        ensures { cell_of_ref result ≡ cell.now }
    {
        match cell {
            Cell::Null => CellRef::Null,
            Cell::Int(n) => CellRef::Int(*n),
            Cell::Wide(n) => CellRef::Wide(*n),
            Cell::Text(text) => CellRef::Text(text.as_str()),
            Cell::Bool(truth) => CellRef::Bool(*truth),
            Cell::Frac(mean) => CellRef::Frac(mean),
        }
    }

    /// A cell of its own. Only a text takes memory.
    pub fn to_cell(self, alloc: Global) -> Result<Cell, AllocError>
        ensures value { IfOk result (λ c. c ≡ cell_of_ref self.entry) }
        ensures free { IsTrue (not (is_text (cell_of_ref self.entry))) → IsOk result }
    {
        match self {
            CellRef::Null => Ok(Cell::Null),
            CellRef::Int(n) => Ok(Cell::Int(n)),
            CellRef::Wide(n) => Ok(Cell::Wide(n)),
            CellRef::Text(text) => Ok(Cell::Text(Text::from_str(alloc, text)?)),
            CellRef::Bool(truth) => Ok(Cell::Bool(truth)),
            CellRef::Frac(mean) => Ok(Cell::Frac(*mean)),
        }
    }

    /// How two cells of one ordered type compare; none where a cell is null or of type Frac, or the
    /// two have different types.
    pub fn compare(self, other: CellRef<'_>) -> Option<Ordering>
        ensures { result ≡ order_of (cell_of_ref self.entry) (cell_of_ref other.entry) }
    {
        match (self, other) {
            (CellRef::Int(a), CellRef::Int(b)) => Some(a.cmp(&b)),
            (CellRef::Wide(a), CellRef::Wide(b)) => Some(a.cmp(&b)),
            (CellRef::Text(a), CellRef::Text(b)) => Some(a.cmp(b)),
            (CellRef::Bool(a), CellRef::Bool(b)) => Some(a.cmp(&b)),
            _ => None,
        }
    }
}

// Two are equal where they lend the same cell.
impl PartialEq for CellRef<'_> {
    ghost use Rattle.df_value.specs.CellRefs.{ref_eq, ref_eq-partial};

    ghost eq = { ref_eq };

    ghost laws = { ref_eq-partial };

    fn eq(&self, other: &CellRef<'_>) -> bool {
        match (*self, *other) {
            (CellRef::Null, CellRef::Null) => true,
            (CellRef::Int(a), CellRef::Int(b)) => a == b,
            (CellRef::Wide(a), CellRef::Wide(b)) => a == b,
            (CellRef::Text(a), CellRef::Text(b)) => a == b,
            (CellRef::Bool(a), CellRef::Bool(b)) => a == b,
            (CellRef::Frac(a), CellRef::Frac(b)) => *a == *b,
            _ => false,
        }
    }
}
