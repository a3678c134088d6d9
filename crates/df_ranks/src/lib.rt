//! The live rank: a column of ranks that follows its input by deltas.
//!
//! [`LiveRank`] keeps its input and its output as tables, which share blocks from one change to the next, and how many
//! rows have each value of the ranked column. Under dense ranks a change that neither brings a value nor takes one away
//! touches its own rows alone. Where a change renews many ranks, [`KnownRanks`] counts what is below each value once.
#![tactic(auto)]

mod column;
mod known;
mod rank;
mod reach;
mod rises;

pub use column::RankColumn;
pub use known::KnownRanks;
pub use rank::{LiveRank, StagedRank};
