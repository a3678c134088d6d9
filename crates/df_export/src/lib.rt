//! Tables for programs: as CSV, in which null is not the empty text, and as lines of JSON.
//!
//! [`csv_table`] and [`json_lines`] give the bytes of a table, [`numbered_csv_table`] and
//! [`numbered_json_lines`] those of one whose rows have numbers. [`push_rest`] appends the fields of a row behind others of its line.
#![tactic(auto)]

mod fields;
mod number_column;
mod objects;
mod records;

pub use fields::push_rest;
pub use objects::{json_lines, numbered_json_lines};
pub use records::{csv_table, numbered_csv_table};
