//! Where a value stands among others.

/// Where a value stands among those that are counted, or would stand, and how many rows have it, if one does. It is so until
/// the counts change.
#[derive(Clone, Copy)]
pub struct Position {
    pub index: usize,
    pub count: Option<u64>,
}
