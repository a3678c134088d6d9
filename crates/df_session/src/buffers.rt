//! Room for what is read.
use crate::lines::line_buffer;
use std::alloc::{AllocError, Global};

/// Room for the line of a command, and for a line of CSV behind it.
pub struct Buffers {
    pub command: Vec<u8>,
    pub record: Vec<u8>,
}

// A body that owns one drops it by a call.
impl Drop for Buffers {
    fn drop(self) {
        let Buffers { command, record } = self;
        drop(command);
        drop(record);
    }
}

impl Buffers {
    pub fn new(alloc: Global) -> Result<Buffers, AllocError> {
        let command = line_buffer(alloc)?;
        let record = line_buffer(alloc)?;
        Ok(Buffers { command, record })
    }

    /// Room for lines, with the line of a command.
    pub fn with_command(alloc: Global, line: &[u8]) -> Result<Buffers, AllocError> {
        let mut buffers = Buffers::new(alloc)?;
        buffers.command.extend_from_slice(line)?;
        Ok(buffers)
    }
}
