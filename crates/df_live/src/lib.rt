//! The live view: a plan as a tree of live nodes, whose table follows the changes of the frames.
//!
//! A [`LiveView`] has the table of its plan, and a [`LiveTree`] with a live node for each node of the plan. A delta of one
//! frame reaches all scans of that frame at once, each node makes the delta of its output from those of its inputs, and
//! that of the last node changes the table.
#![tactic(auto)]

mod building;
mod fresh_tree;
mod join_trees;
mod joined;
mod keeping;
mod nodes;
mod operator;
mod row_wise_trees;
mod scan;
mod staging;
mod tree;
mod tree_delta;
mod view;
mod window_trees;

pub use building::Fresh;
pub use joined::JoinOperator;
pub use operator::{LiveOperator, StagedOperator};
pub use tree::{LiveTree, StagedTree};
pub use view::{LiveView, StagedView};
