//! Writing a text.
ghost use Rattle.std.specs.Prelude.{◌≡◌, ℕ, ◌<◌, length, take, MatchResult};
ghost use Rattle.std.specs.Io.KnownBytes.{Appends};

use std::io::Write;
use thiserror::Error;

/// A write that failed, or took no byte.
#[derive(Debug, PartialEq, Eq, Drop, Error)]
#[error("a write failed")]
pub struct WriteFault;

/// Writes a text whole, or, where a write fails or takes no byte, a front of it.
pub fn write_text<W: Write>(writer: &mut W, text: &[u8]) -> Result<(), WriteFault>
    ensures { MatchResult result
        (λ _. Appends (W.contents writer.old) (W.contents writer.new) text.now)
        (λ _. (n : ℕ) × (n < length text.now)
        × Appends (W.contents writer.old) (W.contents writer.new) (take n text.now)) }
{
    let mut at = 0;
    while at < text.len() {
        let Ok(taken) = writer.write(&text[at..]) else {
            return Err(WriteFault);
        };
        if taken == 0 {
            return Err(WriteFault);
        }
        at += taken;
    }
    Ok(())
}
