//! Text in and text out: the view document here, CSV files and printed tables in crates of their own.
//!
//! [`read_views`] reads the TOML document that names frames and views, and [`read_next_view`] one more view. This crate
//! also offers what `df_csv` and `df_print` offer, so that the code above uses it alone. docs/ARCHITECTURE.md says where
//! to add a step, an aggregate or a form of expression.
#![tactic(auto)]

mod aggregates;
mod document;
mod expressions;
mod fault;
mod frames;
mod from_tables;
mod row_wise_steps;
mod tree;
mod view_steps;
mod views;
mod window_steps;

pub use df_csv::{
    CsvFault, CsvSource, MOST_BYTES_OF_FILE, ReadLimitedFault, Records, count_pieces,
    parse_records, parse_records_by, read_limited, read_records, read_records_by, type_chunk,
    type_piece,
};
pub use df_print::{WriteFault, column_width, escape, print_table, write_text};
pub use document::{FrameSource, FrameSpec, Location, ViewSpec, Views};
pub use fault::ViewsFault;
pub use views::{read_next_view, read_views};
