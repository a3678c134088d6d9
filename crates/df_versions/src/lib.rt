//! Versions: what readers see of a catalogue, without waiting for those who change it.
//!
//! Whoever changes the catalogue has a [`Publisher`], which shows the [`Version`] after each change. A [`Reader`] takes
//! the newest version at any moment. A [`Told`] carries from a change to a reader what the reader must see from then on.
//!
//! What the contracts say of all three is a history: the list of the catalogue's states so far, which exists in proofs
//! alone. At run time it is a number.
#![tactic(auto)]

mod fault;
mod history;
mod opening;
mod publisher;
mod reader;
mod told;
mod version;

pub use fault::{ChangeFault, OpenFault, PublishFault};
pub use history::{Head, History, Naming};
pub use opening::OpenedVersions;
pub use publisher::Publisher;
pub use reader::Reader;
pub use told::Told;
pub use version::Version;
