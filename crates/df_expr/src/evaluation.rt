//! The value of an expression in a row.
ghost use Rattle.std.specs.Prelude.{◌≡◌, ◌+◌, ◌<◌, ◌^◌, IfOk, IsOk, IsTrue, Ok, not};
ghost use Rattle.df_value.specs.declared.cell.CellType.{CellType};
ghost use Rattle.df_value.specs.CellRefs.{cell_of_ref};
ghost use Rattle.df_value.specs.Cells.{fits_dtype, is_text};
ghost use Rattle.df_value.specs.Rows.{row_fits};
ghost use Rattle.df_expr.specs.Typing.{dtype_of};
ghost use Rattle.df_expr.specs.Operators.{binary_value, unary_value};
ghost use Rattle.df_expr.specs.Value.{value_of};

use crate::expr::Expr;
use crate::meter::Meter;
use crate::operators::{Binary, Unary};
use df_value::{Boxed, Cell, CellRef, CellType, Row, Schema, Text, column_index};
use std::alloc::{AllocError, Global};

/// The value of an expression in a row of a table with this schema. Counts one evaluation.
///
/// Cells are lent until the value is known, so that only a value that is a text takes memory: a
/// comparison of texts takes none. An expression that does not check against the schema has some
/// value too, which says nothing.
pub fn eval(
    alloc: Global,
    expr: &Expr,
    schema: &Schema,
    row: &Row,
    meter: &mut Meter,
) -> Result<Cell, AllocError>
    requires { meter.old.evals + 1 < 2 ^ 128 }
    ensures value { IfOk result (λ c. c ≡ value_of expr.now schema.now row.now) }
    ensures counted { meter.new ≡ record meter.old { evals = meter.old.evals + 1 } }

    // Over a row that fits the schema, the value of an expression that checks is null or of its
    // type.
    ensures typed { IsTrue (row_fits schema.now row.now) → (t : CellType) →
        dtype_of expr.now schema.now ≡ Ok t
        → IsTrue (fits_dtype t (value_of expr.now schema.now row.now)) }
    ensures free { IsTrue (not (is_text (value_of expr.now schema.now row.now))) → IsOk result }
{
    meter.evals.raise();
    value_in(expr, schema.columns().as_slice(), row).to_cell(alloc)
}

// The value, lent where a row or a literal has it.
#[cycle(values)]
fn value_in<'a>(expr: &'a Expr, columns: &[(Text, CellType)], row: &'a Row) -> CellRef<'a>
    ensures { cell_of_ref result ≡ value_of expr.now columns.now row.now }
{
    match expr {
        Expr::Column(name) => row.cell_at(column_index(name, columns)),
        Expr::Literal(cell, _) => CellRef::of(cell),
        Expr::Arith(op, a, b) => {
            let a = value_in(a.get(), columns, row);
            apply_binary(b, columns, row, Binary::Arith(*op), a)
        }
        Expr::Compare(op, a, b) => {
            let a = value_in(a.get(), columns, row);
            apply_binary(b, columns, row, Binary::Compare(*op), a)
        }
        Expr::EqMissing(a, b) => {
            let a = value_in(a.get(), columns, row);
            apply_binary(b, columns, row, Binary::EqMissing, a)
        }
        Expr::And(a, b) => {
            let a = value_in(a.get(), columns, row);
            apply_binary(b, columns, row, Binary::And, a)
        }
        Expr::Or(a, b) => {
            let a = value_in(a.get(), columns, row);
            apply_binary(b, columns, row, Binary::Or, a)
        }
        Expr::Not(a) => apply_unary(a, columns, row, Unary::Not),
        Expr::IsNull(a) => apply_unary(a, columns, row, Unary::IsNull),
        Expr::IsNotNull(a) => apply_unary(a, columns, row, Unary::IsNotNull),
        Expr::FillNull(a, b) => match value_in(a.get(), columns, row) {
            CellRef::Null => value_in(b.get(), columns, row),
            value => value,
        },
    }
}

// The value of an operator over the value of its operand.
#[cycle(values)]
fn apply_unary<'a>(
    a: &'a Boxed<Expr>,
    columns: &[(Text, CellType)],
    row: &'a Row,
    operator: Unary,
) -> CellRef<'a>
    ensures { cell_of_ref result
        ≡ unary_value operator (value_of a.now columns.now row.now) }
{
    operator.apply(value_in(a.get(), columns, row))
}

// The value of an operator over its left operand's value and the value of its right operand. The
// right operand comes before all that is read of it, since the recursion ends by its depth.
#[cycle(values)]
fn apply_binary<'a>(
    b: &'a Boxed<Expr>,
    columns: &[(Text, CellType)],
    row: &'a Row,
    operator: Binary,
    a: CellRef<'a>,
) -> CellRef<'a>
    ensures { cell_of_ref result
        ≡ binary_value operator (cell_of_ref a.entry) (value_of b.now columns.now row.now) }
{
    let b = value_in(b.get(), columns, row);
    operator.apply(a, b)
}
