//! A run of `dfviews`: the bytes of a view document in, the bytes of its printed views out.
//!
//! [`run`] writes the output of a document and its files, and [`fault_text`] gives the text of a fault. This crate also
//! offers what its callers need of `df_document`. docs/ARCHITECTURE.md follows a row through these calls, and
//! says where to add a fault.
#![tactic(auto)]

mod fault;
mod fault_texts;
mod loading;
mod outcome;
mod output;
mod refused;
mod running;

pub use df_document::{DocumentFault, FileState, Files, SystemFiles};
pub use df_store::{Gate, OpenGate};
pub use fault::{NamedLoadCause, RunFault};
pub use fault_texts::fault_text;
pub use outcome::Outcome;
pub use running::run;
