//! Tests of the hall, of loads and of versions: that workers run at once, what a load refuses and leaves, the close, and
//! what readers see beside the changes.
//!
//! They need nothing above `df_store`, so the gate proves them beside `df_app`.
#![tactic(auto)]

#[cfg(test)]
mod changes;
#[cfg(test)]
mod claims;
#[cfg(test)]
mod clients;
#[cfg(test)]
mod gates;
#[cfg(test)]
mod given;
#[cfg(test)]
mod hall_test;
#[cfg(test)]
mod loads;
#[cfg(test)]
mod pairs;
#[cfg(test)]
mod pairs_load;
#[cfg(test)]
mod refusals;
#[cfg(test)]
mod refused_loads;
#[cfg(test)]
mod watching;
