//! The expressions of a view.
ghost use Rattle.std.specs.Prelude.{◌≡◌, map, codes};
ghost use Rattle.toml.specs.View.{items_of, view};
ghost use Rattle.df_value.specs.Outcomes.{Answers};
ghost use Rattle.df_text.specs.Expressions.{form_of_word, unary_expr_of, binary_expr_of, with_operand, with_operands, column_expr_of, null_of, word_of, expr_of, form_of};

use crate::document::Location;
use crate::fault::ViewsFault;
use crate::frames::dtype_of_word;
use crate::tree::text_in;
use df_expr::{ArithOp, CompareOp, Expr};
use df_value::{Boxed, Cell, CellType, Text};
use std::alloc::Global;
use toml::Value;

/// What the word of an expression stands for.
#[derive(Clone, Copy)]
pub enum ExprWord {
    Column,
    Null,
    Unary(UnaryWord),
    Binary(BinaryWord),
}

/// What a word before one operand stands for.
#[derive(Clone, Copy)]
pub enum UnaryWord {
    Not,
    IsNull,
    IsNotNull,
}

/// What a word before two operands stands for.
#[derive(Clone, Copy)]
pub enum BinaryWord {
    Arith(ArithOp),
    Compare(CompareOp),
    EqMissing,
    And,
    Or,
    FillNull,
}

/// The expression that a value says.
#[cycle(expressions)]
pub fn read_expr(alloc: Global, location: Location, value: &Value) -> Result<Expr, ViewsFault>
    ensures { Answers ViewsFault.Memory (expr_of location (view value.now)) result }
{
    match value {
        Value::Integer(n) => Ok(Expr::Literal(Cell::Int(*n), CellType::Int)),
        Value::Boolean(b) => Ok(Expr::Literal(Cell::Bool(*b), CellType::Bool)),
        Value::String(text) => {
            let text = Text::from_str(alloc, text.as_str())?;
            Ok(Expr::Literal(Cell::Text(text), CellType::Text))
        }
        Value::Array(items) => {
            let word = word_in(location, items.as_slice())?;
            read_form(alloc, location, word, items.as_slice())
        }
        _ => Err(ViewsFault::Shape(location)),
    }
}

/// The expression of an array whose first item names this form.
#[cycle(expressions)]
fn read_form(
    alloc: Global,
    location: Location,
    word: ExprWord,
    items: &[Value],
) -> Result<Expr, ViewsFault>
    ensures { Answers ViewsFault.Memory
        (form_of location word (items_of (map view items.now))) result }
{
    match (word, items) {
        (ExprWord::Column, [_word, name]) => read_column(alloc, location, name),
        (ExprWord::Null, [_word, kind]) => read_null(location, kind),
        (ExprWord::Unary(op), [_word, a]) => read_unary(alloc, location, op, a),
        (ExprWord::Binary(op), [_word, a, b]) => match read_boxed(alloc, location, a) {
            Ok(a) => read_binary(alloc, location, b, op, a),
            Err(fault) => Err(fault),
        },
        _ => Err(ViewsFault::Shape(location)),
    }
}

/// A word and its operand.
#[cycle(expressions)]
fn read_unary(
    alloc: Global,
    location: Location,
    op: UnaryWord,
    a: &Value,
) -> Result<Expr, ViewsFault>
    ensures { Answers ViewsFault.Memory (with_operand op (expr_of location (view a.now))) result }
{
    Ok(unary(op, read_boxed(alloc, location, a)?))
}

/// A word and its operands, the left one of which is read. The right one stands before it, since by
/// its depth the recursion ends.
#[cycle(expressions)]
fn read_binary(
    alloc: Global,
    location: Location,
    b: &Value,
    op: BinaryWord,
    a: Boxed<Expr>,
) -> Result<Expr, ViewsFault>
    ensures { Answers ViewsFault.Memory
        (with_operands op (Ok a) (expr_of location (view b.now))) result }
{
    match read_boxed(alloc, location, b) {
        Ok(b) => Ok(binary(op, a, b)),
        Err(fault) => Err(fault),
    }
}

/// An operand, where an expression keeps it.
#[cycle(expressions)]
fn read_boxed(alloc: Global, location: Location, value: &Value) -> Result<Boxed<Expr>, ViewsFault>
    ensures { Answers ViewsFault.Memory (expr_of location (view value.now)) result }
{
    Ok(Boxed::new(alloc, read_expr(alloc, location, value)?)?)
}

/// What the first item of an array names.
fn word_in(location: Location, items: &[Value]) -> Result<ExprWord, ViewsFault>
    ensures { result ≡ word_of location (items_of (map view items.now)) }
{
    match items {
        [word, ..] => form_named(location, text_in(location, word)?),
        [] => Err(ViewsFault::Shape(location)),
    }
}

/// What the word of an expression stands for.
fn form_named(location: Location, word: &str) -> Result<ExprWord, ViewsFault>
    ensures { result ≡ form_of_word location word.now }
{
    match word {
        "col" => Ok(ExprWord::Column),
        "null" => Ok(ExprWord::Null),
        "~" => Ok(ExprWord::Unary(UnaryWord::Not)),
        "is_null" => Ok(ExprWord::Unary(UnaryWord::IsNull)),
        "is_not_null" => Ok(ExprWord::Unary(UnaryWord::IsNotNull)),
        "+" => Ok(ExprWord::Binary(BinaryWord::Arith(ArithOp::Add))),
        "-" => Ok(ExprWord::Binary(BinaryWord::Arith(ArithOp::Sub))),
        "*" => Ok(ExprWord::Binary(BinaryWord::Arith(ArithOp::Mul))),
        "==" => Ok(ExprWord::Binary(BinaryWord::Compare(CompareOp::Eq))),
        "!=" => Ok(ExprWord::Binary(BinaryWord::Compare(CompareOp::Ne))),
        "<" => Ok(ExprWord::Binary(BinaryWord::Compare(CompareOp::Lt))),
        "<=" => Ok(ExprWord::Binary(BinaryWord::Compare(CompareOp::Le))),
        ">" => Ok(ExprWord::Binary(BinaryWord::Compare(CompareOp::Gt))),
        ">=" => Ok(ExprWord::Binary(BinaryWord::Compare(CompareOp::Ge))),
        "eq_missing" => Ok(ExprWord::Binary(BinaryWord::EqMissing)),
        "&" => Ok(ExprWord::Binary(BinaryWord::And)),
        "|" => Ok(ExprWord::Binary(BinaryWord::Or)),
        "fill_null" => Ok(ExprWord::Binary(BinaryWord::FillNull)),
        _ => Err(ViewsFault::Word(location)),
    }
}

/// The column of a name.
fn read_column(alloc: Global, location: Location, name: &Value) -> Result<Expr, ViewsFault>
    ensures { Answers ViewsFault.Memory (column_expr_of location (view name.now)) result }
{
    let name = text_in(location, name)?;
    Ok(Expr::Column(Text::from_str(alloc, name)?))
}

/// The null literal of the type that a word names.
fn read_null(location: Location, word: &Value) -> Result<Expr, ViewsFault>
    ensures { Answers ViewsFault.Memory (null_of location (view word.now)) result }
{
    let kind = dtype_of_word(location, text_in(location, word)?)?;
    Ok(Expr::Literal(Cell::Null, kind))
}

/// The expression of a word before one operand.
fn unary(op: UnaryWord, a: Boxed<Expr>) -> Expr
    ensures { result ≡ unary_expr_of op a }
{
    match op {
        UnaryWord::Not => Expr::Not(a),
        UnaryWord::IsNull => Expr::IsNull(a),
        UnaryWord::IsNotNull => Expr::IsNotNull(a),
    }
}

/// The expression of a word before two operands.
fn binary(op: BinaryWord, a: Boxed<Expr>, b: Boxed<Expr>) -> Expr
    ensures { result ≡ binary_expr_of op a b }
{
    match op {
        BinaryWord::Arith(op) => Expr::Arith(op, a, b),
        BinaryWord::Compare(op) => Expr::Compare(op, a, b),
        BinaryWord::EqMissing => Expr::EqMissing(a, b),
        BinaryWord::And => Expr::And(a, b),
        BinaryWord::Or => Expr::Or(a, b),
        BinaryWord::FillNull => Expr::FillNull(a, b),
    }
}
