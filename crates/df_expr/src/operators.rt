//! Arithmetic, comparison and equality of cells, and the operators of expressions.
ghost use Rattle.std.specs.Prelude.{◌≡◌, ◌↔◌, IsTrue, Option};
ghost use Rattle.df_value.specs.declared.cell.Cell.{Cell as AnyCell};
ghost use Rattle.df_value.specs.declared.cell.Cell.TheVariants as cell;
ghost use Rattle.df_value.specs.CellEq.{cell_eq};
ghost use Rattle.df_value.specs.CellRefs.{cell_of_ref};
ghost use Rattle.df_value.specs.Order.{order_of};
ghost use Rattle.df_expr.specs.Operators.{binary_expr, binary_value, unary_expr, unary_value};
ghost use Rattle.df_expr.specs.Value as value_spec;
ghost use Rattle.df_expr.specs.Value.{arith_of, compare_of, holds};

use crate::expr::{ArithOp, CompareOp, Expr};
use crate::logic::{cell_of, kleene_and, kleene_not, kleene_or, truth_of};
use df_value::{Boxed, CellRef};
use std::cmp::Ordering;

/// The result of two Int cells, wrapped at 64 bits; null where a cell is null or no Int.
pub fn arith<'r>(op: ArithOp, a: CellRef<'_>, b: CellRef<'_>) -> CellRef<'r>
    ensures value { cell_of_ref result ≡ arith_of op (cell_of_ref a.entry) (cell_of_ref b.entry) }
    ensures null_spreads { (arith_of op cell.Null (cell_of_ref b.entry) ≡ cell.Null)
        × (arith_of op (cell_of_ref a.entry) cell.Null ≡ cell.Null) }
{
    match (a, b) {
        (CellRef::Int(a), CellRef::Int(b)) => CellRef::Int(op.apply(a, b)),
        _ => CellRef::Null,
    }
}

/// Whether the comparison holds, a Bool; null where a cell is null or the two do not compare.
pub fn comparison<'r>(op: CompareOp, a: CellRef<'_>, b: CellRef<'_>) -> CellRef<'r>
    ensures value { cell_of_ref result
        ≡ compare_of op (order_of (cell_of_ref a.entry) (cell_of_ref b.entry)) }
    ensures null_spreads { (compare_of op (order_of cell.Null (cell_of_ref b.entry)) ≡ cell.Null)
        × (compare_of op (order_of (cell_of_ref a.entry) cell.Null) ≡ cell.Null) }
{
    match a.compare(b) {
        Some(order) => CellRef::Bool(is_met(op, order)),
        None => CellRef::Null,
    }
}

fn is_met(op: CompareOp, order: Ordering) -> bool
    ensures { result ≡ holds op order }
{
    match op {
        CompareOp::Eq => order.is_eq(),
        CompareOp::Ne => order.is_ne(),
        CompareOp::Lt => order.is_lt(),
        CompareOp::Le => order.is_le(),
        CompareOp::Gt => order.is_gt(),
        CompareOp::Ge => order.is_ge(),
    }
}

/// Whether two cells are one and the same, null like any other.
pub fn eq_missing(a: CellRef<'_>, b: CellRef<'_>) -> bool
    ensures value { result ≡ cell_eq (cell_of_ref a.entry) (cell_of_ref b.entry) }
    ensures exact { IsTrue result ↔ (cell_of_ref a.entry ≡ cell_of_ref b.entry) }
    ensures reflexive { IsTrue (cell_eq (cell_of_ref a.entry) (cell_of_ref a.entry)) }
    ensures symmetric { cell_eq (cell_of_ref a.entry) (cell_of_ref b.entry)
        ≡ cell_eq (cell_of_ref b.entry) (cell_of_ref a.entry) }
    ensures transitive { (c : AnyCell)
        → IsTrue (cell_eq (cell_of_ref a.entry) (cell_of_ref b.entry))
        → IsTrue (cell_eq (cell_of_ref b.entry) c) → IsTrue (cell_eq (cell_of_ref a.entry) c) }
{
    a == b
}

/// An operator of one operand.
#[derive(Clone, Copy)]
pub enum Unary {
    /// The other truth.
    Not,
    /// Whether the operand is null.
    IsNull,
    /// Whether the operand is not null.
    IsNotNull,
}

impl Unary {
    /// The expression of it over an operand.
    pub(crate) fn over(self, a: Boxed<Expr>) -> Expr
        ensures { result ≡ unary_expr self a }
    {
        match self {
            Unary::Not => Expr::Not(a),
            Unary::IsNull => Expr::IsNull(a),
            Unary::IsNotNull => Expr::IsNotNull(a),
        }
    }

    /// Its value over a cell.
    pub fn apply<'r>(self, a: CellRef<'_>) -> CellRef<'r>
        ensures { cell_of_ref result ≡ unary_value self (cell_of_ref a.entry) }
    {
        match self {
            Unary::Not => cell_of(kleene_not(truth_of(a))),
            Unary::IsNull => CellRef::Bool(is_null(a)),
            Unary::IsNotNull => CellRef::Bool(!is_null(a)),
        }
    }
}

fn is_null(cell: CellRef<'_>) -> bool
    ensures { result ≡ value_spec.is_null (cell_of_ref cell.entry) }
{
    matches!(cell, CellRef::Null)
}

/// An operator of two operands, both of which are evaluated.
#[derive(Clone, Copy)]
pub enum Binary {
    /// Arithmetic on two Ints.
    Arith(ArithOp),
    /// A comparison of two operands of one type.
    Compare(CompareOp),
    /// As `==`, but null equals null.
    EqMissing,
    /// Kleene's "and".
    And,
    /// Kleene's "or".
    Or,
}

impl Binary {
    /// The expression of it over two operands.
    pub(crate) fn over(self, a: Boxed<Expr>, b: Boxed<Expr>) -> Expr
        ensures { result ≡ binary_expr self a b }
    {
        match self {
            Binary::Arith(op) => Expr::Arith(op, a, b),
            Binary::Compare(op) => Expr::Compare(op, a, b),
            Binary::EqMissing => Expr::EqMissing(a, b),
            Binary::And => Expr::And(a, b),
            Binary::Or => Expr::Or(a, b),
        }
    }

    /// Its value over two cells.
    pub fn apply<'r>(self, a: CellRef<'_>, b: CellRef<'_>) -> CellRef<'r>
        ensures { cell_of_ref result
            ≡ binary_value self (cell_of_ref a.entry) (cell_of_ref b.entry) }
    {
        match self {
            Binary::Arith(op) => arith(op, a, b),
            Binary::Compare(op) => comparison(op, a, b),
            Binary::EqMissing => CellRef::Bool(eq_missing(a, b)),
            Binary::And => cell_of(kleene_and(truth_of(a), truth_of(b))),
            Binary::Or => cell_of(kleene_or(truth_of(a), truth_of(b))),
        }
    }
}
