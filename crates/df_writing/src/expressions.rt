//! Expressions as a view document writes them.
ghost use Rattle.std.specs.Prelude.{◌≡◌, ◌++◌, OnOk, codes, map};
ghost use Rattle.toml.specs.View.{items_of};
ghost use Rattle.df_writing.specs.ExpressionData as expression_data;
ghost use Rattle.df_writing.specs.ExpressionData.{expr_data, literal_data, operand_data, output_data};
ghost use Rattle.df_writing.specs.Texts.{data_text, last_item, later_items, two_items};

use crate::frame_tables::dtype_word;
use crate::toml_text::{push_first, push_last_text, push_number, push_quoted};
use df_expr::{ArithOp, CompareOp, Expr};
use df_value::{Cell, CellType, Text};
use std::alloc::{AllocError, Global};

/// Adds an expression.
#[cycle(expressions)]
pub fn push_expr(alloc: Global, text: &mut Vec<u8>, expr: &Expr) -> Result<(), AllocError>
    ensures { OnOk result (text.new.items ≡ text.old.items ++ data_text (expr_data expr.now)) }
{
    match expr {
        Expr::Column(name) => push_column(text, name),
        Expr::Literal(cell, dtype) => push_literal(alloc, text, cell, *dtype),
        Expr::Arith(op, a, b) => {
            push_left(alloc, text, arith_word(*op), a.get())?;
            push_last(alloc, text, b.get())
        }
        Expr::Compare(op, a, b) => {
            push_left(alloc, text, compare_word(*op), a.get())?;
            push_last(alloc, text, b.get())
        }
        Expr::EqMissing(a, b) => {
            push_left(alloc, text, "eq_missing", a.get())?;
            push_last(alloc, text, b.get())
        }
        Expr::And(a, b) => {
            push_left(alloc, text, "&", a.get())?;
            push_last(alloc, text, b.get())
        }
        Expr::Or(a, b) => {
            push_left(alloc, text, "|", a.get())?;
            push_last(alloc, text, b.get())
        }
        Expr::Not(a) => push_operand(alloc, text, "~", a.get()),
        Expr::IsNull(a) => push_operand(alloc, text, "is_null", a.get()),
        Expr::IsNotNull(a) => push_operand(alloc, text, "is_not_null", a.get()),
        Expr::FillNull(a, b) => {
            push_left(alloc, text, "fill_null", a.get())?;
            push_last(alloc, text, b.get())
        }
    }
}

// A word and its only operand.
#[cycle(expressions)]
fn push_operand(alloc: Global, text: &mut Vec<u8>, word: &str, a: &Expr) -> Result<(), AllocError>
    ensures { OnOk result (text.new.items ≡ text.old.items
        ++ data_text (operand_data word.now (expr_data a.now))) }
{
    push_first(text, word)?;
    push_last(alloc, text, a)
}

// A word and the first of its two operands.
#[cycle(expressions)]
fn push_left(alloc: Global, text: &mut Vec<u8>, word: &str, a: &Expr) -> Result<(), AllocError>
    ensures { OnOk result (text.new.items ≡ text.old.items
        ++ two_items word.now (expr_data a.now)) }
{
    push_first(text, word)?;
    text.extend_from_slice(b", ")?;
    push_expr(alloc, text, a)
}

/// Adds an expression that is the last item, behind another.
#[cycle(expressions)]
pub fn push_last(alloc: Global, text: &mut Vec<u8>, b: &Expr) -> Result<(), AllocError>
    ensures { OnOk result (text.new.items ≡ text.old.items ++ last_item (expr_data b.now)) }
{
    text.extend_from_slice(b", ")?;
    push_expr(alloc, text, b)?;
    text.extend_from_slice(b"]")
}

fn push_column(text: &mut Vec<u8>, name: &Text) -> Result<(), AllocError>
    ensures { OnOk result (text.new.items ≡ text.old.items
        ++ data_text (expression_data.column_data name.now)) }
{
    push_first(text, "col")?;
    push_last_text(text, name.as_str())
}

fn push_literal(
    alloc: Global,
    text: &mut Vec<u8>,
    cell: &Cell,
    dtype: CellType,
) -> Result<(), AllocError>
    ensures { OnOk result (text.new.items ≡ text.old.items ++ data_text (literal_data cell.now dtype)) }
{
    match cell {
        Cell::Int(number) => push_number(alloc, text, *number),
        Cell::Bool(true) => text.extend_from_slice(b"true"),
        Cell::Bool(false) => text.extend_from_slice(b"false"),
        Cell::Text(word) => push_quoted(text, word.as_str()),
        Cell::Null | Cell::Wide(_) | Cell::Frac(_) => push_null(text, dtype),
    }
}

// The null of a type.
fn push_null(text: &mut Vec<u8>, dtype: CellType) -> Result<(), AllocError>
    ensures { OnOk result (text.new.items ≡ text.old.items
        ++ data_text (expression_data.null_data dtype)) }
{
    push_first(text, "null")?;
    push_last_text(text, dtype_word(dtype))
}

/// Adds outputs, each a name and its expression, as the last items of an array, behind another.
pub fn push_outputs(
    alloc: Global,
    text: &mut Vec<u8>,
    outputs: &[(Text, Expr)],
) -> Result<(), AllocError>
    ensures { OnOk result (text.new.items ≡ text.old.items
        ++ later_items (items_of (map output_data outputs.now))) }
{
    for output in outputs {
        push_output(alloc, text, &output.0, &output.1)?;
    }
    text.extend_from_slice(b"]")
}

fn push_output(
    alloc: Global,
    text: &mut Vec<u8>,
    name: &Text,
    expr: &Expr,
) -> Result<(), AllocError>
    ensures { OnOk result (text.new.items ≡ text.old.items
        ++ (codes ", " ++ data_text (output_data (name.now, expr.now)))) }
{
    text.extend_from_slice(b", ")?;
    push_first(text, name.as_str())?;
    push_last(alloc, text, expr)
}

fn arith_word(op: ArithOp) -> &'static str
    ensures { result.now ≡ expression_data.arith_word op }
{
    match op {
        ArithOp::Add => "+",
        ArithOp::Sub => "-",
        ArithOp::Mul => "*",
    }
}

fn compare_word(op: CompareOp) -> &'static str
    ensures { result.now ≡ expression_data.compare_word op }
{
    match op {
        CompareOp::Eq => "==",
        CompareOp::Ne => "!=",
        CompareOp::Lt => "<",
        CompareOp::Le => "<=",
        CompareOp::Gt => ">",
        CompareOp::Ge => ">=",
    }
}
