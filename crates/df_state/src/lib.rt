//! A catalogue at one moment, and what its changes make of it.
//!
//! Contracts see a [`State`] of frames and views, of which a [`Change`] makes the next or is refused with a
//! [`CatalogueFault`]. A [`Desk`] is the right to change one frame; its shares of two ledgers count the rows. A [`Picture`]
//! has the tables of one state. All this needs no live view: what holds those is the catalogue of df_catalogue.
#![tactic(auto)]

mod change;
mod checks;
mod desk;
mod fault;
mod opening;
mod picture;
mod schemas;
mod state;
mod tables;
mod view_change;

pub use change::Change;
pub use checks::{check_frame_change, frame_at};
pub use desk::{Desk, PARTS_OF_LEDGER, audit_all};
pub use fault::{CatalogueFault, NewFault};
pub use opening::{check_schemas, empty_frames, open_desks};
pub use picture::{Picture, PicturedView};
pub use schemas::{are_schemas, schema_eq};
pub use state::{CatalogueParts, RowCounts, StagedParts, State, ViewState};
pub use tables::{shared_tables, table_over};
pub use view_change::ViewChange;
