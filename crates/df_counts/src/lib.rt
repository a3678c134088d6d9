//! How many rows have each value of a column.
//!
//! [`Counts`] are a sequence by rising value, of which a change of one value changes only the nodes on the way to that value.
#![tactic(auto)]

mod counts;
mod entries;
mod order;
mod position;
mod totals;
mod value_count;

pub use counts::Counts;
pub use position::Position;
