//! The live join: a join of two inputs that follows both by their deltas.
//!
//! [`LiveJoin`] keeps the rows of each side by their join keys and no output. It promises what
//! [`TwoSidedNode`](df_delta::TwoSidedNode) says.
#![tactic(auto)]

mod join;
mod keyed;
mod members;
mod rule;
mod tree_table;

pub use join::{LiveJoin, StagedJoin};
pub use keyed::KeyedTables;
pub use members::Members;
pub use rule::JoinRule;
