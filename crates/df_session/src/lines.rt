//! Lines of input.

use crate::refusal::{Mistake, Refusal};
use std::alloc::{AllocError, Global};
use std::io;
use std::io::{BufRead, Read};

/// The most bytes of a line, its end among them.
pub const MOST_BYTES_OF_LINE: usize = 1_048_576;

/// What a read found.
#[derive(Clone, Copy, PartialEq, Eq)]
pub enum Line {
    /// A line, which is in the buffer.
    Whole,
    /// A line of more than 1,048,576 bytes, which was passed over.
    TooLong,
    /// The end of input.
    End,
}

/// Room for a line: with it no read of a line takes memory.
pub fn line_buffer(alloc: Global) -> Result<Vec<u8>, AllocError> {
    Vec::with_capacity(alloc, MOST_BYTES_OF_LINE)
}

/// Reads a line with its end into a buffer that has room for it.
pub fn read_line<I: BufRead>(input: &mut I, line: &mut Vec<u8>) -> io::Result<Line> {
    line.clear();
    let mut limited = Read::take(input.by_ref(), MOST_BYTES_OF_LINE as u64);
    let taken = limited.read_until(b'\n', line)?;
    if taken == 0 {
        return Ok(Line::End);
    }
    if taken == MOST_BYTES_OF_LINE && !line.ends_with(b"\n") && input.skip_until(b'\n')? > 0 {
        return Ok(Line::TooLong);
    }
    Ok(Line::Whole)
}

/// A line without its end.
pub fn without_end(line: &[u8]) -> &[u8] {
    let line = line.strip_suffix(b"\n").unwrap_or(line);
    line.strip_suffix(b"\r").unwrap_or(line)
}

/// The lines with one more, where those before it were read.
pub fn with_line(lines: Result<Vec<u8>, Refusal>, line: &[u8]) -> Result<Vec<u8>, Refusal> {
    let mut lines = lines?;
    lines.extend_from_slice(line)?;
    Ok(lines)
}

/// The lines with one more that is too long.
pub fn with_long_line(lines: Result<Vec<u8>, Refusal>) -> Result<Vec<u8>, Refusal> {
    let _lines = lines?;
    Err(Refusal::Mistake(Mistake::LongLine))
}
