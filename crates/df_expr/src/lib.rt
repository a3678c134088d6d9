//! Expressions over the cells of a row: their check against a schema, and their value.
//!
//! [`check`] gives the type of an [`Expr`] or its first fault, and [`eval`] its value in a row, which is null
//! or of that type. [`PhysicalExpr`] is an expression that was made for all rows of a table. docs/ARCHITECTURE.md
//! says where to add a form of expression.
#![tactic(auto)]

mod arithmetic;
mod counter;
mod evaluation;
mod expr;
mod fault;
mod logic;
mod meter;
mod operators;
mod physical;
mod typing;

pub use counter::Counter;
pub use evaluation::eval;
pub use expr::{ArithOp, CompareOp, Expr};
pub use fault::ExprFault;
pub use logic::{kleene_and, kleene_not, kleene_or};
pub use meter::{Meter, WorkCounts};
pub use operators::{Binary, Unary, arith, comparison, eq_missing};
pub use physical::PhysicalExpr;
pub use typing::{MOST_EXPR_LEVELS, check, names_column};
