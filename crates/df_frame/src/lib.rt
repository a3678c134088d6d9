//! One frame: its rows under their numbers, and what a change makes of them.
//!
//! A [`Frame`] has its rows in a table, each at the tag of its number, and the numbers that it accepted. A
//! [`FrameChange`] gives another frame, which shares the blocks of rows that do not change, and the delta between the
//! two. Contracts see a frame's schema and its [`FrameState`].
#![tactic(auto)]

mod deltas;
mod frame;
mod frame_change;
mod number_sets;
mod numbered;
mod prepared;
mod ranges;
mod state;
mod stored;
mod table_numbers;

pub use deltas::row_tag;
pub use frame::Frame;
pub use frame_change::FrameChange;
pub use number_sets::first_doubled_number;
pub use numbered::{HasNumber, Numbered};
pub use prepared::{FrameDelta, PreparedRun};
pub use state::FrameState;
pub use stored::StoredChunk;
pub use table_numbers::row_numbers;
