//! The order of cells.
ghost use Rattle.std.specs.Prelude.{◌≡◌, ◌↔◌, Some, IsTrue, is_some};
ghost use Rattle.df_value.specs.CellOrder.{cell_cmp};
ghost use Rattle.df_value.specs.Order.{order_of};

use crate::cell::Cell;
use crate::cell_ref::CellRef;
use std::cmp::Ordering;

/// How two cells compare that have one type, are not null and not of type Frac: numbers by size,
/// texts by their UTF-8 bytes, false before true.
pub fn order(a: &Cell, b: &Cell) -> Ordering
    requires { IsTrue (is_some (order_of a.now b.now)) }
    ensures value { Some result ≡ order_of a.now b.now }
    ensures same { (result ≡ Ordering.Equal) ↔ (a.now ≡ b.now) }
    ensures agrees { cell_cmp a.now b.now ≡ result }
{
    compare(a, b).unwrap()
}

/// As [`order`], and none where a cell is null or of type Frac, or the two have different types.
pub fn compare(a: &Cell, b: &Cell) -> Option<Ordering>
    ensures { result ≡ order_of a.now b.now }
{
    CellRef::of(a).compare(CellRef::of(b))
}
