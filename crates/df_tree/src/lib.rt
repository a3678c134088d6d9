//! One sequence of items, `Seq`, as a tree of wide nodes, each with the measure of its items. It is copied by path, or edited
//! in place where room was reserved.
#![tactic(auto)]

mod changing;
mod copying;
mod cutting;
mod editing;
mod finding;
mod halving;
mod item;
mod joining;
mod making;
mod partition;
mod replacing;
mod reserving;
mod seq;
mod sharing;
mod spot;
mod totals;

pub use finding::{Before, Test};
pub use item::{Item, Monoid};
pub use partition::Predicate;
pub use seq::Seq;
