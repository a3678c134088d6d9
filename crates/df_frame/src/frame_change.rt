//! Changes of one frame's rows.
ghost use Rattle.std.specs.Prelude.{◌≡◌};

use crate::numbered::Numbered;
use crate::prepared::PreparedRun;
use df_value::Chunk;

/// A change of one frame's rows. Which frame it is, the call says that makes the change.
#[derive(Clone, Copy)]
pub enum FrameChange<'a> {
    /// The chunk's rows are added.
    Append(&'a Chunk),
    /// The prepared run's rows are added.
    Prepared(&'a PreparedRun),
    /// The rows of these numbers are taken out.
    Delete(&'a [u32]),
    /// Each of these rows comes in the place of the row of its number.
    Replace(&'a [Numbered]),
}

impl FrameChange<'_> {
    ghost use Rattle.df_frame.specs.FrameChanges as frame_changes;

    /// How many rows are added. Tells also that its rows are a run.
    pub fn accepted_rows(&self) -> u64
        ensures value { result ≡ frame_changes.accepted_rows self.now }
        ensures sound { frame_changes.IsSound self.now }
    {
        match self {
            FrameChange::Append(chunk) => chunk.rows().len() as u64,
            FrameChange::Prepared(prepared) => prepared.len() as u64,
            FrameChange::Delete(_) | FrameChange::Replace(_) => 0,
        }
    }

    /// How many rows are taken out.
    pub fn deleted_rows(&self) -> u64
        ensures { result ≡ frame_changes.deleted_rows self.now }
    {
        match self {
            FrameChange::Append(_) | FrameChange::Prepared(_) | FrameChange::Replace(_) => 0,
            FrameChange::Delete(numbers) => numbers.len() as u64,
        }
    }
}
