//! The live group-by: a row for each key of its input, which follows the input by deltas.
//!
//! [`LiveGroup`] keeps the members of each key's group with running totals of them and the group's finished row: counts,
//! sums, and where distinct values are asked for, how many members have each value. A member has the cells of its row that
//! the aggregates take, or one cell where they take none; all cells where these would be more than half, or one of type
//! `Text`. A change touches the groups whose members it changes: it moves their totals by the members that go and come, and
//! finishes each of them once, of its totals, of its first and last member, and of a least and a greatest cell: those of its
//! row before or of the members that come. Only in a new group, and where a member with such a cell goes and none as good
//! comes in its place, the members are looked at: one cell of each leaf and of each block behind the leaves.
#![tactic(auto)]

mod extremes;
mod group;
mod grouping;
mod live_group;
mod notes;
mod projection;
mod staging;
mod sums;
mod total;
mod values;

pub use live_group::{LiveGroup, StagedGroups};
