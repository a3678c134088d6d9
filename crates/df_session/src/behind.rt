//! What belongs to a command besides its words: lines of CSV behind its line, or the steps in it.
ghost use Rattle.std.specs.Prelude.{◌≡◌, IfOk};
ghost use Rattle.df_session.specs.Words as words_spec;

use crate::fault::ShellFault;
use crate::lines::{Line, read_line, with_line, with_long_line, without_end};
use crate::prompts::{Prompts, RECORD_PROMPT};
use crate::refusal::{Mistake, Refusal};
use crate::words::{Following, steps_in};
use crate::writing::write_prompt;
use std::alloc::{AllocError, Global};
use std::io::{BufRead, Write};

/// Reads what belongs to a command besides its words, also where it cannot be had: then the answer says why. `line` is the
/// command's, without its end.
pub fn read_behind<I: BufRead, W: Write>(
    alloc: Global,
    prompts: Prompts,
    input: &mut I,
    output: &mut W,
    line: &[u8],
    record: &mut Vec<u8>,
    following: Following,
) -> Result<Result<Vec<u8>, Refusal>, ShellFault> {
    match following {
        Following::Steps => match copy_steps(alloc, line) {
            Ok(steps) => Ok(Ok(steps)),
            Err(_) => Ok(Err(Refusal::Memory)),
        },
        _ => read_lines(alloc, prompts, input, output, record, following),
    }
}

fn copy_steps(alloc: Global, line: &[u8]) -> Result<Vec<u8>, AllocError>
    ensures { IfOk result (λ steps. steps.items ≡ words_spec.steps_in line.now) }
{
    let mut steps = Vec::new(alloc);
    steps.extend_from_slice(steps_in(line))?;
    Ok(steps)
}

// Reads the lines behind a command, also where they cannot be had: then the answer says why.
fn read_lines<I: BufRead, W: Write>(
    alloc: Global,
    prompts: Prompts,
    input: &mut I,
    output: &mut W,
    line: &mut Vec<u8>,
    following: Following,
) -> Result<Result<Vec<u8>, Refusal>, ShellFault> {
    let mut lines = Ok(Vec::new(alloc));
    for _ in 0..most_lines(following) {
        write_prompt(output, prompts, RECORD_PROMPT)?;
        match read_line(input, line) {
            Ok(Line::Whole) if is_end(following, line.as_slice()) => return Ok(lines),
            Ok(Line::Whole) => lines = with_line(lines, content(following, line.as_slice())),
            Ok(Line::TooLong) => lines = with_long_line(lines),
            Ok(Line::End) => return Ok(Err(Refusal::Mistake(Mistake::MissingLines))),
            Err(_) => return Err(ShellFault::Read),
        }
    }
    Ok(lines)
}

fn most_lines(following: Following) -> u64 {
    match following {
        Following::Lines(count) => count,
        Following::UntilDot => u64::MAX,
        Following::Steps => 0,
    }
}

// Whether the line ends those that are read.
fn is_end(following: Following, line: &[u8]) -> bool {
    following == Following::UntilDot && without_end(line) == b".".as_slice()
}

// The line without the dot that stands before another.
fn content(following: Following, line: &[u8]) -> &[u8] {
    match following {
        Following::Lines(_) | Following::Steps => line,
        Following::UntilDot => line.strip_prefix(b".").unwrap_or(line),
    }
}
