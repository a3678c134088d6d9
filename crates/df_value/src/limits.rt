//! The limits of a store: its frames and views, their rows and columns.

/// The most frames.
pub const MOST_FRAMES: usize = 8;

/// The most views.
pub const MOST_VIEWS: usize = 32;

/// The most columns of a table.
pub const MOST_COLUMNS: usize = 32;

/// The most rows that a frame accepts, deleted ones included, and so the most records of a file.
pub const MOST_ROWS_OF_FRAME: usize = 1_048_576;

/// The most rows of a chunk.
pub const MOST_ROWS_OF_CHUNK: usize = 65_536;

/// Row numbers lie below this.
pub const ROW_NUMBERS: u64 = 4_294_967_296;
