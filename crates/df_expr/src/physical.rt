//! Expressions over the rows of one table, with indices in place of the names of its columns.
ghost use Rattle.std.specs.Prelude.{◌≡◌, ◌+◌, ◌<◌, ◌^◌, IfOk};
ghost use Rattle.df_value.specs.CellRefs.{cell_of_ref};
ghost use Rattle.df_expr.specs.Meters.{with_evals};
ghost use Rattle.df_expr.specs.Physical as physical;
ghost use Rattle.df_expr.specs.Physical.{physical_value, IsPhysical};
ghost use Rattle.df_expr.specs.declared.physical.PhysicalExpr.TheVariants as form;

use crate::expr::Expr;
use crate::meter::Meter;
use crate::operators::{Binary, Unary};
use df_value::{Boxed, Cell, CellRef, CellType, Duplicate, Row, Text, column_index};
use std::alloc::{AllocError, Global};

/// An expression over the rows of a table, made once for all of them: its evaluation looks up no
/// name.
pub enum PhysicalExpr {
    /// The cell at this index; null where the table has no such column.
    Column(Option<usize>),
    /// This cell in every row.
    Literal(Cell),
    /// An operator of one operand.
    Unary(Unary, Boxed<PhysicalExpr>),
    /// An operator of two operands.
    Binary(Binary, Boxed<PhysicalExpr>, Boxed<PhysicalExpr>),
    /// The first operand, or the second where the first is null.
    FillNull(Boxed<PhysicalExpr>, Boxed<PhysicalExpr>),
}

// A body that owns one drops it by a call.
impl Drop for PhysicalExpr {
    fn drop(self) {
        match self {
            PhysicalExpr::Column(_) => {}
            PhysicalExpr::Literal(cell) => drop(cell),
            PhysicalExpr::Unary(_, a) => drop(a),
            PhysicalExpr::Binary(_, a, b) | PhysicalExpr::FillNull(a, b) => {
                drop(a);
                drop(b);
            }
        }
    }
}

impl PhysicalExpr {
    /// The expression over the rows of a table with these columns. It owns its literals.
    pub fn new(
        alloc: Global,
        expr: &Expr,
        columns: &[(Text, CellType)],
    ) -> Result<PhysicalExpr, AllocError>
        ensures { IfOk result (IsPhysical expr.now columns.now) }
    {
        physical_of(alloc, expr, columns)
    }

    /// The value in a row, lent where the row or a literal has it. Counts one evaluation.
    pub fn eval<'a>(&'a self, row: &'a Row, meter: &mut Meter) -> CellRef<'a>
        requires { meter.old.evals + 1 < 2 ^ 128 }
        ensures value { cell_of_ref result ≡ physical_value self.now row.now }
        ensures counted { meter.new ≡ with_evals 1 meter.old }
    {
        meter.evals.raise();
        value_in(self, row)
    }
}

#[cycle(resolving)]
fn physical_of(
    alloc: Global,
    expr: &Expr,
    columns: &[(Text, CellType)],
) -> Result<PhysicalExpr, AllocError>
    ensures { IfOk result (λ p. p ≡ physical.physical_of columns.now expr.now) }
{
    match expr {
        Expr::Column(name) => Ok(PhysicalExpr::Column(column_index(name, columns))),
        Expr::Literal(cell, _) => Ok(PhysicalExpr::Literal(cell.copy(alloc)?)),
        Expr::Arith(op, a, b) => {
            let a = boxed(alloc, a, columns)?;
            binary(alloc, b, columns, Binary::Arith(*op), a)
        }
        Expr::Compare(op, a, b) => {
            let a = boxed(alloc, a, columns)?;
            binary(alloc, b, columns, Binary::Compare(*op), a)
        }
        Expr::EqMissing(a, b) => {
            let a = boxed(alloc, a, columns)?;
            binary(alloc, b, columns, Binary::EqMissing, a)
        }
        Expr::And(a, b) => {
            let a = boxed(alloc, a, columns)?;
            binary(alloc, b, columns, Binary::And, a)
        }
        Expr::Or(a, b) => {
            let a = boxed(alloc, a, columns)?;
            binary(alloc, b, columns, Binary::Or, a)
        }
        Expr::Not(a) => unary(alloc, a, columns, Unary::Not),
        Expr::IsNull(a) => unary(alloc, a, columns, Unary::IsNull),
        Expr::IsNotNull(a) => unary(alloc, a, columns, Unary::IsNotNull),
        Expr::FillNull(a, b) => {
            let a = boxed(alloc, a, columns)?;
            fill_null(alloc, b, columns, a)
        }
    }
}

// An operator over its operand.
#[cycle(resolving)]
fn unary(
    alloc: Global,
    a: &Boxed<Expr>,
    columns: &[(Text, CellType)],
    operator: Unary,
) -> Result<PhysicalExpr, AllocError>
    ensures { IfOk result (λ p. p ≡ form.Unary operator (physical.physical_of columns.now a.now)) }
{
    Ok(PhysicalExpr::Unary(operator, boxed(alloc, a, columns)?))
}

// An operator over its left operand, which is made, and its right one. The right one comes before
// it, since the recursion ends by its depth.
#[cycle(resolving)]
fn binary(
    alloc: Global,
    b: &Boxed<Expr>,
    columns: &[(Text, CellType)],
    operator: Binary,
    a: Boxed<PhysicalExpr>,
) -> Result<PhysicalExpr, AllocError>
    ensures { IfOk result
        (λ p. p ≡ form.Binary operator a (physical.physical_of columns.now b.now)) }
{
    Ok(PhysicalExpr::Binary(operator, a, boxed(alloc, b, columns)?))
}

#[cycle(resolving)]
fn fill_null(
    alloc: Global,
    b: &Boxed<Expr>,
    columns: &[(Text, CellType)],
    a: Boxed<PhysicalExpr>,
) -> Result<PhysicalExpr, AllocError>
    ensures { IfOk result (λ p. p ≡ form.FillNull a (physical.physical_of columns.now b.now)) }
{
    Ok(PhysicalExpr::FillNull(a, boxed(alloc, b, columns)?))
}

#[cycle(resolving)]
fn boxed(
    alloc: Global,
    expr: &Boxed<Expr>,
    columns: &[(Text, CellType)],
) -> Result<Boxed<PhysicalExpr>, AllocError>
    ensures { IfOk result (λ p. p ≡ physical.physical_of columns.now expr.now) }
{
    Ok(Boxed::new(alloc, physical_of(alloc, expr.get(), columns)?)?)
}

fn value_in<'a>(expr: &'a PhysicalExpr, row: &'a Row) -> CellRef<'a>
    ensures { cell_of_ref result ≡ physical_value expr.now row.now }
{
    match expr {
        PhysicalExpr::Column(index) => row.cell_at(*index),
        PhysicalExpr::Literal(cell) => CellRef::of(cell),
        PhysicalExpr::Unary(operator, a) => operator.apply(value_in(a.get(), row)),
        PhysicalExpr::Binary(operator, a, b) => {
            let a = value_in(a.get(), row);
            let b = value_in(b.get(), row);
            operator.apply(a, b)
        }
        PhysicalExpr::FillNull(a, b) => match value_in(a.get(), row) {
            CellRef::Null => value_in(b.get(), row),
            value => value,
        },
    }
}
