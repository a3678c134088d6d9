//! The catalogue: frames that accept chunks, and deletions and new rows by row number, and registered views,
//! each of which has at every moment the table of its plan over the frames.
//!
//! A [`Catalogue`] is for one thread, and contracts see its [`State`]. A [`Desk`] is the right to make a
//! [`Change`] of a frame. docs/ARCHITECTURE.md says where to add a change.
#![tactic(auto)]

mod catalogue;
mod changing;
mod checks;
mod commits;
mod forgetting;
mod keeping;
mod live_views;
mod pictured;
mod reading;
mod replay;
mod staged;
mod staged_pictures;
mod stages;
mod staging;
mod views;

pub use catalogue::Catalogue;
pub use df_frame::{FrameChange, FrameState, PreparedRun, StoredChunk};
pub use df_live::{LiveView, StagedView};
pub use df_state::{
    CatalogueFault, CatalogueParts, Change, Desk, NewFault, PARTS_OF_LEDGER, Picture, RowCounts,
    StagedParts, State, ViewChange, ViewState,
};
pub use keeping::ViewChanges;
pub use staged::{StagedRows, StagedViews};
