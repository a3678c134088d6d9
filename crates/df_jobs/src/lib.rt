//! The jobs of a load: the chunks of its sources, the pieces that jobs make of them, joined, in the order of their jobs, and
//! compared with what a picture of a catalogue shows. And the workers that do the jobs: what each of them owns, how they
//! share out desks, and how all desks come back.
//!
//! A load has threads run the workers, and enters what these make: that is the crate above.
#![tactic(auto)]

mod comparing;
mod expected;
mod gate;
mod jobs;
mod joining;
mod made;
mod outcomes;
mod pool;
mod refused;
mod splitting;
mod stop;
mod worker;

pub use comparing::first_unlike;
pub use gate::{Gate, OpenGate};
pub use jobs::{Outcome, job_count, make};
pub use joining::{Joined, count_of_first_frame, join};
pub use made::{KeptPiece, Made};
pub use outcomes::{first_lost, in_order};
pub use pool::WorkerPool;
pub use refused::{Refused, refused_in};
pub use stop::Stop;
pub use worker::{AtOnce, Work, Worker, make_all};
