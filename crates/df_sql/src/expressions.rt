//! Expressions.
use crate::statement::{Piece, Statement};
use crate::types::type_words;
use df_expr::{ArithOp, CompareOp, Expr};
use df_value::{Cell, CellType};
use std::alloc::AllocError;

/// Behind an operation on two whole numbers of 64 bits, in `numeric`: brings its result back to 64 bits. The first number is
/// 2^126 + 2^63, which leaves no result below zero, since `mod` rounds towards zero. It is 2^63 more than a multiple of 2^64.
const WRAPPED: &str =
    "::numeric + 85070591730234615875067023894796828672, 18446744073709551616) - 9223372036854775808)::bigint";

/// Adds an expression.
#[cycle(expressions)]
pub fn push_expr(out: &mut Statement, expr: &Expr) -> Result<(), AllocError> {
    match expr {
        Expr::Column(name) => out.push(&[Piece::Name(name.as_str())]),
        Expr::Literal(cell, dtype) => push_cell(out, cell, *dtype),
        Expr::Arith(op, a, b) => {
            push_between(out, "(mod(", a.get(), arith_words(*op))?;
            push_between(out, "", b.get(), WRAPPED)
        }
        Expr::Compare(op, a, b) => {
            push_between(out, "(", a.get(), compare_words(*op))?;
            push_between(out, "", b.get(), ")")
        }
        Expr::EqMissing(a, b) => {
            push_between(out, "(", a.get(), " IS NOT DISTINCT FROM ")?;
            push_between(out, "", b.get(), ")")
        }
        Expr::And(a, b) => {
            push_between(out, "(", a.get(), " AND ")?;
            push_between(out, "", b.get(), ")")
        }
        Expr::Or(a, b) => {
            push_between(out, "(", a.get(), " OR ")?;
            push_between(out, "", b.get(), ")")
        }
        Expr::Not(a) => push_between(out, "(NOT ", a.get(), ")"),
        Expr::IsNull(a) => push_between(out, "(", a.get(), " IS NULL)"),
        Expr::IsNotNull(a) => push_between(out, "(", a.get(), " IS NOT NULL)"),
        Expr::FillNull(a, b) => {
            push_between(out, "coalesce(", a.get(), ", ")?;
            push_between(out, "", b.get(), ")")
        }
    }
}

// An operand between words.
#[cycle(expressions)]
fn push_between(
    out: &mut Statement,
    before: &str,
    a: &Expr,
    behind: &str,
) -> Result<(), AllocError> {
    out.push(&[Piece::Sql(before)])?;
    push_expr(out, a)?;
    out.push(&[Piece::Sql(behind)])
}

fn push_cell(out: &mut Statement, cell: &Cell, dtype: CellType) -> Result<(), AllocError> {
    match cell {
        Cell::Int(number) => {
            out.push(&[
                Piece::Sql("("),
                Piece::Number(*number),
                Piece::Sql(")::bigint"),
            ])
        }
        Cell::Bool(true) => out.push(&[Piece::Sql("true")]),
        Cell::Bool(false) => out.push(&[Piece::Sql("false")]),
        Cell::Text(text) => push_typed(out, Piece::Literal(text.as_str()), CellType::Text),
        Cell::Null | Cell::Wide(_) | Cell::Frac(_) => push_typed(out, Piece::Sql("null"), dtype),
    }
}

// A literal with its type.
fn push_typed(out: &mut Statement, literal: Piece<'_>, dtype: CellType) -> Result<(), AllocError> {
    out.push(&[literal, Piece::Sql("::"), Piece::Sql(type_words(dtype))])
}

fn arith_words(op: ArithOp) -> &'static str {
    match op {
        ArithOp::Add => "::numeric + ",
        ArithOp::Sub => "::numeric - ",
        ArithOp::Mul => "::numeric * ",
    }
}

fn compare_words(op: CompareOp) -> &'static str {
    match op {
        CompareOp::Eq => " = ",
        CompareOp::Ne => " <> ",
        CompareOp::Lt => " < ",
        CompareOp::Le => " <= ",
        CompareOp::Gt => " > ",
        CompareOp::Ge => " >= ",
    }
}
