//! What the words of `dfviews` say.

/// The workers that load, where the words name no number.
pub const DEFAULT_WORKERS: usize = 4;

/// The records of a chunk, where the words name no number.
pub const DEFAULT_CHUNK: usize = 1000;

/// What the words of `dfviews` say.
#[derive(Clone, Copy, PartialEq, Eq)]
pub struct Words<'a> {
    /// The path of the view document; without one it comes from standard input.
    pub views: Option<&'a str>,
    /// How many workers load the frames, 1 to 16.
    pub workers: usize,
    /// How many records a chunk has, 1 to 65,536.
    pub chunk: usize,
}
