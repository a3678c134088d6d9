//! A list of blocks after some changes.
use crate::block_list::BlockList;

/// A list after the changes of some entries: those from one index up to another.
#[derive(Drop)]
pub struct Edited {
    pub list: BlockList,
    pub from: usize,
    pub to: usize,
}
