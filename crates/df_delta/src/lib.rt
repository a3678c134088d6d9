//! Deltas of tables, and what a live node promises.
//!
//! A [`Delta`] names rows of a table by their tags, each with what stood there and what stands there afterwards. A
//! [`LiveNode`] is an operator that follows its input by deltas: [`prepare`](LiveNode::prepare) gives the delta of its
//! output, and [`commit`](LiveNode::commit) puts in place what the prepare made. A [`TwoSidedNode`] follows two inputs.
//! [`keyed_changes`] splits a delta by a key of its rows.
#![tactic(auto)]

mod delta;
mod entries;
mod keyed;
mod node;
mod notes;
mod row_key;
mod two_sided;

pub use delta::{Delta, apply};
pub use entries::push_change;
pub use keyed::{KeyChanges, keyed_changes};
pub use node::LiveNode;
pub use notes::Notes;
pub use row_key::RowKey;
pub use two_sided::TwoSidedNode;
