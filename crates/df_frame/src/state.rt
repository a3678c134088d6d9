//! What the definitions speak of: a frame at one moment. No code makes a value of this type.
//!
//! `[T; 0]` stands for a list of any length: a definition sees the elements of an array and not its
//! length. So the type holds plain data alone, and needs no allocator.

use df_value::Row;

/// A frame: the row numbers that were accepted and those of them that were deleted, each rising;
/// and the rows behind their numbers, by rising number. That numbers are below 2^32 lies in their
/// type.
pub struct FrameState {
    pub accepted: [u32; 0],
    pub deleted: [u32; 0],
    pub rows: [(u32, Row); 0],
}
