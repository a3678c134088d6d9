//! Tests of what neither a view document nor a session of the shell can show: parts of values, laws and readers
//! that no program calls, and what only a caller of the catalogue can ask of it.
//!
//! Worked documents are in tests/cases, sessions in tests/sessions.
#![tactic(auto)]

#[cfg(test)]
mod blocks;
#[cfg(test)]
mod catalogues;
#[cfg(test)]
mod deltas;
#[cfg(test)]
mod given;
#[cfg(test)]
mod groups;
#[cfg(test)]
mod joins;
#[cfg(test)]
mod nodes;
#[cfg(test)]
mod plans;
#[cfg(test)]
mod sources;
#[cfg(test)]
mod tables;
#[cfg(test)]
mod values;
