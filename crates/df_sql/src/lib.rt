//! Frames and views as SQL, in the dialect of PostgreSQL.
//!
//! [`push_document`] adds the statements of a whole document to a text, and [`push_view_script`] those of one view with the tables
//! that it reads. A frame is a table of the schema `frames`, whose first column has the row's number, and a view is one of the
//! schema `views`: its steps are common table expressions, each over the one before, which carry the numbers of the rows that
//! theirs are made of, and by these its rows are put in order.
//!
//! That names and texts are quoted so that a reader finds them again is proved. That a view has the rows of its plan, in their
//! order, is tested: tests/sql.py compares them in a PostgreSQL. docs/GUIDE.md says where SQL is not exact.
#![tactic(auto)]

mod aggregates;
mod documents;
mod expressions;
mod frames;
mod groups;
mod joins;
mod numbers;
mod plans;
mod quoting;
mod row_wise;
mod statement;
mod steps;
mod types;
mod views;
mod windows;

pub use documents::{push_document, push_view_script};
