//! Readers that give little, and fail.
use df_csv::{ReadLimitedFault, read_limited};
use std::alloc::Global;
use std::io::{self, ErrorKind, Read};
use std::test::Fail;

// Gives one byte a call, then fails or ends, and counts its calls.
#[derive(Drop)]
struct SlowReader {
    left: usize,
    fails: bool,
    reads: usize,
}

impl Read for SlowReader {
    fn read(&mut self, buf: &mut [u8]) -> io::Result<usize> {
        self.reads = self.reads.wrapping_add(1);
        if buf.is_empty() {
            return Ok(0);
        }
        if self.left == 0 {
            return if self.fails {
                Err(ErrorKind::Other.into())
            } else {
                Ok(0)
            };
        }
        self.left -= 1;
        buf[0] = b'x';
        Ok(1)
    }
}

// What is read of so many bytes within a limit of 5, and by how many reads.
fn read_slowly(
    alloc: Global,
    left: usize,
    fails: bool,
) -> (Result<Vec<u8>, ReadLimitedFault>, usize) {
    let mut reader = SlowReader {
        left,
        fails,
        reads: 0,
    };
    (read_limited(alloc, &mut reader, 5), reader.reads)
}

#[test]
fn reads_are_few(rt: HostRuntime) -> Result<(), Fail> {
    let alloc = rt.alloc();
    let (full, reads) = read_slowly(alloc, 5, false);
    assert!(rt; full?.as_slice() == b"xxxxx".as_slice() && reads == 6);
    let (over, reads) = read_slowly(alloc, 9, false);
    assert!(rt; over.err() == Some(ReadLimitedFault::TooLarge) && reads == 6);
    let (failed, reads) = read_slowly(alloc, 3, true);
    assert!(rt; failed.err() == Some(ReadLimitedFault::Failed) && reads == 4);
    Ok(())
}
