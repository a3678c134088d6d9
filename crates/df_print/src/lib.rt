//! Printed tables: [`print_table`] gives the bytes of a table, and [`write_text`] writes them.
//!
//! [`column_width`] is the width of a column, and [`escape`] a text as it is printed.
#![tactic(auto)]

mod cells;
mod escapes;
mod printing;
mod threaded;
mod widths;
mod writing;

pub use escapes::escape;
pub use printing::print_table;
pub use threaded::print_table_by;
pub use widths::column_width;
pub use writing::{WriteFault, write_text};
