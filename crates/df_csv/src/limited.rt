//! Reading up to a limit.
ghost use Rattle.std.specs.Prelude.{◌≡◌, ◌≤◌, ◌<◌, length, IfOk, IfErr, IfSome};
ghost use Rattle.df_csv.specs.declared.limited.ReadLimitedFault.TheVariants.{Memory};

use std::alloc::{AllocError, Global};
use std::io::Read;
use thiserror::Error;

/// Why the bytes of a reader are not there.
#[derive(Debug, PartialEq, Eq, Drop, Error)]
pub enum ReadLimitedFault {
    /// A read failed.
    #[error("a read failed")]
    Failed,
    /// There are more bytes than the limit allows.
    #[error("more bytes than the limit")]
    TooLarge,
    /// There was no memory for the bytes.
    #[error("out of memory")]
    Memory,
}

impl From<AllocError> for ReadLimitedFault {
    ghost from_gives = { λ _ e. e ≡ Memory };

    fn from(_e: AllocError) -> ReadLimitedFault {
        ReadLimitedFault::Memory
    }
}

/// All bytes that a reader has left, which are at most `limit`. It takes up to 65,536 bytes a read,
/// and makes at most `limit` + 1 reads.
///
/// `Failed` where a read fails, `TooLarge` where more than `limit` bytes were left, `Memory` where
/// they do not fit into memory. At a fault the reader may have given some of its bytes; at
/// `TooLarge` it has given `limit` + 1 of them and up to 65,535 more.
pub fn read_limited<R: Read>(
    alloc: Global,
    reader: &mut R,
    limit: usize,
) -> Result<Vec<u8>, ReadLimitedFault>
    ensures bytes { IfOk result (λ v. IfSome (R.remaining reader.old) (λ xs. v.items ≡ xs)) }
    ensures within { IfOk result (λ v. length v.items ≤ limit) }
    ensures too_large { IfErr result (λ e. e ≡ ReadLimitedFault.TooLarge →
        IfSome (R.remaining reader.old) (λ xs. limit < length xs)) }
{
    let mut bytes = Vec::new(alloc);
    let mut buffer = [0u8; 65_536];
    while bytes.len() <= limit {
        let Ok(taken) = reader.read(&mut buffer) else {
            return Err(ReadLimitedFault::Failed);
        };
        if taken == 0 {
            return Ok(bytes);
        }
        bytes.extend_from_slice(&buffer[..taken])?;
    }
    Err(ReadLimitedFault::TooLarge)
}
