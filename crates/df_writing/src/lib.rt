//! Frames and views as a view document writes them.
//!
//! [`push_frame_table`] adds the table of a frame to a text, and [`push_view_table`] that of a view, of its plan. A type has
//! the word [`dtype_word`].
#![tactic(auto)]

mod aggregates;
mod expressions;
mod frame_tables;
mod plan_steps;
mod steps;
mod toml_text;
mod view_tables;

pub use frame_tables::{dtype_word, push_frame_table};
pub use view_tables::{push_view_table, tell_sayable};
