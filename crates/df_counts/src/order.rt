//! The order of values.
ghost use Rattle.std.specs.Prelude.{◌≡◌};
ghost use Rattle.std.specs.Ordering.{is_lt};
ghost use Rattle.df_value.specs.CellOrder.{cell_cmp};

use df_value::Cell;

/// Whether a value is less than another.
pub fn is_less(a: &Cell, b: &Cell) -> bool
    ensures { result ≡ is_lt (cell_cmp a.now b.now) }
{
    *a < *b
}
