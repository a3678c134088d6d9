//! Claims: numbers below a total, which several threads draw, each number at most once.
//!
//! [`Claims::new`] gives the claims and a seat for each thread. A thread draws by [`Claims::next`] until it gets
//! none.
#![tactic(auto)]

mod claims;
mod rule;

pub use claims::{ClaimSeat, Claims};
pub use rule::Draws;
