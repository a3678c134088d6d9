//! The type of an expression.
ghost use Rattle.std.specs.Prelude.{◌≡◌, ◌≤◌, ◌↔◌, [], false, IsTrue};
ghost use Rattle.df_value.specs.Schemas.{column_dtype};
ghost use Rattle.df_expr.specs.Typing as typing;
ghost use Rattle.df_expr.specs.Typing.{columns_in, expr_levels, expr_check, AnswersType};
ghost use Rattle.df_expr.specs.Value.{IsConstant};

use crate::expr::Expr;
use crate::fault::ExprFault;
use df_value::{Cell, CellType, Duplicate, Schema, Text};
use std::alloc::Global;

/// The most levels of an expression: the nodes on its longest path.
pub const MOST_EXPR_LEVELS: u32 = 32;

/// The type of an expression over the columns of a schema.
///
/// Refused is first an expression of more than 32 levels. Then comes the first fault of a walk that
/// visits operands from left to right and then their node: a column that the schema does not have,
/// a literal of another type than stated or of type Wide or Frac, or operands of a wrong type.
/// Memory is asked for only to name the missing column.
pub fn check(alloc: Global, expr: &Expr, schema: &Schema) -> Result<CellType, ExprFault>
    ensures { AnswersType (expr_check expr.now schema.now) result }
{
    if !is_within(expr, MOST_EXPR_LEVELS) {
        return Err(ExprFault::TooDeep);
    }
    dtype_of(alloc, expr, schema)
}

/// Whether a column stands in an expression; if none does, its value is the same in every row.
pub fn names_column(expr: &Expr) -> bool
    ensures value { result ≡ typing.names_column expr.now }
    ensures columns { (typing.names_column expr.now ≡ false) ↔ (columns_in expr.now ≡ []) }
    ensures constant { typing.names_column expr.now ≡ false → IsConstant expr.now }
{
    has_column_name(expr)
}

fn has_column_name(expr: &Expr) -> bool
    ensures { result ≡ typing.names_column expr.now }
{
    match expr {
        Expr::Column(_) => true,
        Expr::Literal(_, _) => false,
        Expr::Not(a) | Expr::IsNull(a) | Expr::IsNotNull(a) => has_column_name(a.get()),
        Expr::Arith(_, a, b) | Expr::Compare(_, a, b) => {
            has_column_name(a.get()) || has_column_name(b.get())
        }
        Expr::EqMissing(a, b) | Expr::And(a, b) | Expr::Or(a, b) | Expr::FillNull(a, b) => {
            has_column_name(a.get()) || has_column_name(b.get())
        }
    }
}

// Whether an expression has at most so many levels.
fn is_within(expr: &Expr, most: u32) -> bool
    ensures { IsTrue result ↔ (expr_levels expr.now ≤ most) }
{
    if most == 0 {
        return false;
    }
    let below = most - 1;
    match expr {
        Expr::Column(_) | Expr::Literal(_, _) => true,
        Expr::Not(a) | Expr::IsNull(a) | Expr::IsNotNull(a) => is_within(a.get(), below),
        Expr::Arith(_, a, b) | Expr::Compare(_, a, b) => {
            is_within(a.get(), below) && is_within(b.get(), below)
        }
        Expr::EqMissing(a, b) | Expr::And(a, b) | Expr::Or(a, b) | Expr::FillNull(a, b) => {
            is_within(a.get(), below) && is_within(b.get(), below)
        }
    }
}

fn dtype_of(alloc: Global, expr: &Expr, schema: &Schema) -> Result<CellType, ExprFault>
    ensures { AnswersType (typing.dtype_of expr.now schema.now) result }
{
    match expr {
        Expr::Column(name) => column_dtype_check(alloc, name, schema),
        Expr::Literal(cell, dtype) => literal_dtype(cell, *dtype),
        Expr::Arith(_, a, b) => {
            let a = dtype_of(alloc, a.get(), schema)?;
            let b = dtype_of(alloc, b.get(), schema)?;
            arith_dtype(a, b)
        }
        Expr::Compare(_, a, b) | Expr::EqMissing(a, b) => {
            let a = dtype_of(alloc, a.get(), schema)?;
            let b = dtype_of(alloc, b.get(), schema)?;
            compare_dtype(a, b)
        }
        Expr::And(a, b) | Expr::Or(a, b) => {
            let a = dtype_of(alloc, a.get(), schema)?;
            let b = dtype_of(alloc, b.get(), schema)?;
            bools_dtype(a, b)
        }
        Expr::Not(a) => bool_dtype(dtype_of(alloc, a.get(), schema)?),
        Expr::IsNull(a) | Expr::IsNotNull(a) => {
            dtype_of(alloc, a.get(), schema)?;
            Ok(CellType::Bool)
        }
        Expr::FillNull(a, b) => {
            let a = dtype_of(alloc, a.get(), schema)?;
            let b = dtype_of(alloc, b.get(), schema)?;
            ordered_dtype(a, b)
        }
    }
}

fn column_dtype_check(alloc: Global, name: &Text, schema: &Schema) -> Result<CellType, ExprFault>
    ensures { AnswersType
        (typing.column_dtype_check name.now (column_dtype name.now schema.now)) result }
{
    match schema.dtype_of(name) {
        Some(dtype) => Ok(dtype),
        None => match name.copy(alloc) {
            Ok(name) => Err(ExprFault::NoColumn(name)),
            Err(_) => Err(ExprFault::Memory),
        },
    }
}

fn literal_dtype(cell: &Cell, dtype: CellType) -> Result<CellType, ExprFault>
    ensures { result ≡ typing.literal_dtype cell.now dtype }
{
    match (cell, dtype) {
        (Cell::Null, CellType::Int | CellType::Text | CellType::Bool) => Ok(dtype),
        (Cell::Int(_), CellType::Int) => Ok(dtype),
        (Cell::Text(_), CellType::Text) => Ok(dtype),
        (Cell::Bool(_), CellType::Bool) => Ok(dtype),
        _ => Err(ExprFault::WrongType),
    }
}

fn arith_dtype(a: CellType, b: CellType) -> Result<CellType, ExprFault>
    ensures { result ≡ typing.arith_dtype a b }
{
    match (a, b) {
        (CellType::Int, CellType::Int) => Ok(CellType::Int),
        _ => Err(ExprFault::WrongType),
    }
}

fn ordered_dtype(a: CellType, b: CellType) -> Result<CellType, ExprFault>
    ensures { result ≡ typing.ordered_dtype a b }
{
    if a == b && a != CellType::Frac {
        Ok(a)
    } else {
        Err(ExprFault::WrongType)
    }
}

fn compare_dtype(a: CellType, b: CellType) -> Result<CellType, ExprFault>
    ensures { result ≡ typing.compare_dtype a b }
{
    ordered_dtype(a, b)?;
    Ok(CellType::Bool)
}

fn bool_dtype(a: CellType) -> Result<CellType, ExprFault>
    ensures { result ≡ typing.bool_dtype a }
{
    match a {
        CellType::Bool => Ok(CellType::Bool),
        _ => Err(ExprFault::WrongType),
    }
}

fn bools_dtype(a: CellType, b: CellType) -> Result<CellType, ExprFault>
    ensures { result ≡ typing.bools_dtype a b }
{
    bool_dtype(a)?;
    bool_dtype(b)
}
