//! Loads of a catalogue behind a lock by several threads; also offers the lock, a [`Hall`], with its opening and its close.
//!
//! [`load_all`] runs workers, each with desks of its own: a worker makes its chunks outside of the lock of the hall, and
//! commits them under it. What came of them is compared with the sources once.
#![tactic(auto)]

mod drawing;
mod entering;
mod fault;
mod findings;
mod load;
mod loading;
mod pool;
mod registering;
mod views;
mod waiting;
mod working;

pub use df_claims::{ClaimSeat, Claims};
pub use df_hall::{Hall, Missing, NamedHall, OpenedHall, Totals, missing_frame};
pub use df_jobs::{Gate, OpenGate, Refused};
pub use df_versions::{ChangeFault, Naming, OpenFault, Reader, Told, Version};
pub use fault::LoadCause;
pub use load::{LoadFault, Loaded, load_all};
