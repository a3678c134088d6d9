//! What has a row number: the numbers themselves, and rows behind theirs.
ghost use Rattle.std.specs.Prelude.{◌≡◌, ℕ, IfOk, List, Option, Some, None};
ghost use Rattle.df_value.specs.declared.cell.Cell.{Cell};

use df_value::{Duplicate, Row};
use std::alloc::{AllocError, Global};

/// A row behind its number.
pub type Numbered = (u32, Row);

/// What has a row number.
pub trait HasNumber {
    ghost number_of: { Self → ℕ };

    /// Its row number.
    fn number(&self) -> u32
        ensures { result ≡ number_of self.now };
}

impl HasNumber for u32 {
    ghost number_of = { λ number. number };

    fn number(&self) -> u32 {
        *self
    }
}

impl<T> HasNumber for (u32, T) {
    ghost number_of = { λ item. item.0 };

    fn number(&self) -> u32 {
        self.0
    }
}

/// What says which row comes to stand at a number: none at a number alone.
pub trait NewRow {
    ghost row_of: { Self → Option (List Cell) };

    /// A copy of the row that comes to stand there.
    fn row(&self, alloc: Global) -> Result<Option<Row>, AllocError>
        ensures { IfOk result (λ row. row ≡ row_of self.now) };
}

impl NewRow for u32 {
    ghost row_of = { λ _. None };

    fn row(&self, _alloc: Global) -> Result<Option<Row>, AllocError> {
        Ok(None)
    }
}

impl NewRow for Numbered {
    ghost row_of = { λ item. Some item.1 };

    fn row(&self, alloc: Global) -> Result<Option<Row>, AllocError> {
        Ok(Some(self.1.copy(alloc)?))
    }
}
