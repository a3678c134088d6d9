//! The forms of an expression.
ghost use Rattle.std.specs.Prelude.{◌≡◌, ◌↔◌, IsTrue, IfOk};
ghost use Rattle.df_expr.specs.Operators.{binary_expr, unary_expr};
ghost use Rattle.df_expr.specs.declared.expr.Expr.TheVariants as form;

use crate::operators::{Binary, Unary};
use df_value::{Boxed, Cell, CellType, Duplicate, Exact, Text, same};
use std::alloc::{AllocError, Global};

/// Arithmetic on Int cells, which wraps at 64 bits.
#[derive(Clone, Copy, PartialEq, Eq)]
pub enum ArithOp {
    Add,
    Sub,
    Mul,
}

/// A comparison of two cells of one type: Int, Wide, Text or Bool.
#[derive(Clone, Copy, PartialEq, Eq)]
pub enum CompareOp {
    Eq,
    Ne,
    Lt,
    Le,
    Gt,
    Ge,
}

/// An expression over the cells of a row. Null spreads where nothing else is said.
pub enum Expr {
    /// The cell of the column of this name.
    Column(Text),
    /// This cell in every row: null, or one of the type, which is Int, Text or Bool.
    Literal(Cell, CellType),
    /// Arithmetic on two Ints.
    Arith(ArithOp, Boxed<Expr>, Boxed<Expr>),
    /// A comparison of two operands of one type, not Frac.
    Compare(CompareOp, Boxed<Expr>, Boxed<Expr>),
    /// As `==`, but null equals null and nothing else; never null.
    EqMissing(Boxed<Expr>, Boxed<Expr>),
    /// Kleene's "and": false where an operand is false, else null where one is null.
    And(Boxed<Expr>, Boxed<Expr>),
    /// Kleene's "or": true where an operand is true, else null where one is null.
    Or(Boxed<Expr>, Boxed<Expr>),
    /// The other truth.
    Not(Boxed<Expr>),
    /// Whether the operand, of any type, is null; never null.
    IsNull(Boxed<Expr>),
    /// Whether the operand, of any type, is not null; never null.
    IsNotNull(Boxed<Expr>),
    /// The first operand, or the second where the first is null. Both have one type, not Frac.
    FillNull(Boxed<Expr>, Boxed<Expr>),
}

// A body that owns one drops it by a call.
impl Drop for Expr {
    fn drop(self) {
        match self {
            Expr::Column(name) => drop(name),
            Expr::Literal(cell, _) => drop(cell),
            Expr::Not(a) | Expr::IsNull(a) | Expr::IsNotNull(a) => drop(a),
            Expr::Arith(_, a, b)
            | Expr::Compare(_, a, b)
            | Expr::EqMissing(a, b)
            | Expr::And(a, b)
            | Expr::Or(a, b)
            | Expr::FillNull(a, b) => {
                drop(a);
                drop(b);
            }
        }
    }
}

impl PartialEq for Expr {
    ghost use Rattle.std.specs.Cmp.{partial_equiv_from_equiv};
    ghost use Rattle.df_value.specs.Same.{same_by, same_by-equivalence};
    ghost use Rattle.df_expr.specs.contracts.expr.Expr.{the_row};

    ghost eq = { same_by the_row.coded };

    ghost laws = { partial_equiv_from_equiv (same_by-equivalence the_row.coded) };

    fn eq(&self, other: &Expr) -> bool {
        same_expr(self, other)
    }
}

impl Eq for Expr {
    ghost use Rattle.df_value.specs.Same.{same_by-equivalence};
    ghost use Rattle.df_expr.specs.contracts.expr.Expr.{the_row};

    ghost laws = { same_by-equivalence the_row.coded };
}

impl Exact for Expr {
    ghost use Rattle.df_value.specs.Same.{same_by-Decides};
    ghost use Rattle.df_expr.specs.contracts.expr.Expr.{the_row};

    ghost decides = { same_by-Decides the_row.coded };
}

impl Duplicate for Expr {
    #[cycle(copying)]
    fn copy(&self, alloc: Global) -> Result<Expr, AllocError> {
        match self {
            Expr::Column(name) => Ok(Expr::Column(name.copy(alloc)?)),
            Expr::Literal(cell, dtype) => Ok(Expr::Literal(cell.copy(alloc)?, *dtype)),
            Expr::Arith(op, a, b) => {
                let a = copy_of(alloc, a)?;
                copy_binary(alloc, b, Binary::Arith(*op), a)
            }
            Expr::Compare(op, a, b) => {
                let a = copy_of(alloc, a)?;
                copy_binary(alloc, b, Binary::Compare(*op), a)
            }
            Expr::EqMissing(a, b) => {
                let a = copy_of(alloc, a)?;
                copy_binary(alloc, b, Binary::EqMissing, a)
            }
            Expr::And(a, b) => {
                let a = copy_of(alloc, a)?;
                copy_binary(alloc, b, Binary::And, a)
            }
            Expr::Or(a, b) => {
                let a = copy_of(alloc, a)?;
                copy_binary(alloc, b, Binary::Or, a)
            }
            Expr::Not(a) => copy_unary(alloc, a, Unary::Not),
            Expr::IsNull(a) => copy_unary(alloc, a, Unary::IsNull),
            Expr::IsNotNull(a) => copy_unary(alloc, a, Unary::IsNotNull),
            Expr::FillNull(a, b) => {
                let a = copy_of(alloc, a)?;
                copy_fill_null(alloc, b, a)
            }
        }
    }
}

#[cycle(copying)]
fn copy_of(alloc: Global, expr: &Boxed<Expr>) -> Result<Boxed<Expr>, AllocError>
    ensures { IfOk result (λ r. r ≡ expr.now) }
{
    Ok(Boxed::new(alloc, expr.get().copy(alloc)?)?)
}

// The operator over a copy of its operand.
#[cycle(copying)]
fn copy_unary(alloc: Global, a: &Boxed<Expr>, operator: Unary) -> Result<Expr, AllocError>
    ensures { IfOk result (λ r. r ≡ unary_expr operator a.now) }
{
    Ok(operator.over(copy_of(alloc, a)?))
}

// The operator over the copy of its left operand, which is made, and a copy of its right one. The
// right one comes before it, since the recursion ends by its depth.
#[cycle(copying)]
fn copy_binary(
    alloc: Global,
    b: &Boxed<Expr>,
    operator: Binary,
    a: Boxed<Expr>,
) -> Result<Expr, AllocError>
    ensures { IfOk result (λ r. r ≡ binary_expr operator a b.now) }
{
    Ok(operator.over(a, copy_of(alloc, b)?))
}

#[cycle(copying)]
fn copy_fill_null(alloc: Global, b: &Boxed<Expr>, a: Boxed<Expr>) -> Result<Expr, AllocError>
    ensures { IfOk result (λ r. r ≡ form.FillNull a b.now) }
{
    Ok(Expr::FillNull(a, copy_of(alloc, b)?))
}

/// Whether two expressions are one and the same.
fn same_expr(a: &Expr, b: &Expr) -> bool
    ensures { IsTrue result ↔ (a.now ≡ b.now) }
{
    match (a, b) {
        (Expr::Column(x), Expr::Column(y)) => same(x, y),
        (Expr::Literal(x, k), Expr::Literal(y, l)) => same(x, y) && same(k, l),
        (Expr::Arith(o, x, y), Expr::Arith(p, z, w)) => {
            *o == *p && same_expr(x.get(), z.get()) && same_expr(y.get(), w.get())
        }
        (Expr::Compare(o, x, y), Expr::Compare(p, z, w)) => {
            *o == *p && same_expr(x.get(), z.get()) && same_expr(y.get(), w.get())
        }
        (Expr::EqMissing(x, y), Expr::EqMissing(z, w))
        | (Expr::And(x, y), Expr::And(z, w))
        | (Expr::Or(x, y), Expr::Or(z, w))
        | (Expr::FillNull(x, y), Expr::FillNull(z, w)) => {
            same_expr(x.get(), z.get()) && same_expr(y.get(), w.get())
        }
        (Expr::Not(x), Expr::Not(z))
        | (Expr::IsNull(x), Expr::IsNull(z))
        | (Expr::IsNotNull(x), Expr::IsNotNull(z)) => same_expr(x.get(), z.get()),
        _ => false,
    }
}
