//! A catalogue behind a lock, which threads share; its opening with readers, and its close.
//!
//! A [`Hall`] is a lock round a [`VersionedCatalogue`], which publishes a version for each change. Whoever has a desk of a frame changes the
//! frame through the hall, and whoever has a reader takes versions without waiting; [`Hall::close`] gives the catalogue
//! back once the desks account for every row. A load takes the hall apart and closes it by [`settle`].
#![tactic(auto)]

mod closing;
mod entering;
mod hall;
mod opened_hall;
mod totals;
mod versioned;

pub use closing::{Unsettled, missing_frame, settle};
pub use entering::StagedState;
pub use hall::{Hall, Missing};
pub use opened_hall::{MOST_READERS, NamedHall, OpenedHall};
pub use totals::{Totals, TotalsRoom, frame_count};
pub use versioned::VersionedCatalogue;
