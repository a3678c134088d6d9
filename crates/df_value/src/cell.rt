//! Cells, and the types of columns.
ghost use Rattle.std.specs.Prelude.{◌≡◌, IfOk, IsOk, IsTrue, not};
ghost use Rattle.df_value.specs.Cells.{fits_dtype, is_text};

use crate::frac::Frac;
use crate::text::Text;
use crate::traits::{Duplicate, Exact};
use std::alloc::{AllocError, Global};

/// What the cells of a column are.
///
/// Base frames have `Int` (i64), `Text` and `Bool` columns. `Wide` (i128) comes from sums and
/// `Frac` from means. Null belongs to every type.
#[derive(Clone, Copy, Debug, PartialEq, Eq)]
pub enum CellType {
    Int,
    Wide,
    Text,
    Bool,
    Frac,
}

/// One value of a table.
#[derive(PartialEq, Eq, PartialOrd, Ord, Hash)]
pub enum Cell {
    Null,
    Int(i64),
    Wide(i128),
    Text(Text),
    Bool(bool),
    Frac(Frac),
}

// A body that owns one drops it by a call.
impl Drop for Cell {
    fn drop(self) {
        match self {
            Cell::Text(text) => drop(text),
            Cell::Null | Cell::Int(_) | Cell::Wide(_) | Cell::Bool(_) | Cell::Frac(_) => {}
        }
    }
}

impl Cell {
    /// Whether this cell may stand in a column of this type: it is null or of the type.
    pub fn fits(&self, dtype: CellType) -> bool
        ensures { result ≡ fits_dtype dtype self.now }
    {
        match (dtype, self) {
            (_, Cell::Null) => true,
            (CellType::Int, Cell::Int(_)) => true,
            (CellType::Wide, Cell::Wide(_)) => true,
            (CellType::Text, Cell::Text(_)) => true,
            (CellType::Bool, Cell::Bool(_)) => true,
            (CellType::Frac, Cell::Frac(_)) => true,
            _ => false,
        }
    }
}

impl Exact for CellType {
    ghost use Rattle.std.proofs.Common.{rules};

    ghost decides = { Prim.search rules };
}

impl Exact for Cell {
    ghost use Rattle.std.proofs.Common.{rules};

    ghost decides = { Prim.search rules };
}

impl Duplicate for CellType {
    fn copy(&self, _alloc: Global) -> Result<CellType, AllocError> {
        Ok(*self)
    }
}

impl Duplicate for Cell {
    /// An equal cell. Only a text takes memory.
    fn copy(&self, alloc: Global) -> Result<Cell, AllocError>
        ensures value { IfOk result (λ c. c ≡ self.now) }
        ensures free { IsTrue (not (is_text self.now)) → IsOk result }
    {
        match self {
            Cell::Null => Ok(Cell::Null),
            Cell::Int(n) => Ok(Cell::Int(*n)),
            Cell::Wide(n) => Ok(Cell::Wide(*n)),
            Cell::Text(t) => Ok(Cell::Text(t.copy(alloc)?)),
            Cell::Bool(b) => Ok(Cell::Bool(*b)),
            Cell::Frac(f) => Ok(Cell::Frac(*f)),
        }
    }
}
