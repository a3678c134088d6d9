//! What a session writes for whoever types at a terminal.
ghost use Rattle.std.specs.Prelude.{◌≡◌, IfOk, string_bytes};
ghost use Rattle.df_session.specs.Greetings as greetings;
ghost use Rattle.df_session.specs.Greetings.{counts_text, greeting_text};

use crate::definitions::Definitions;
use std::alloc::{AllocError, Global};

/// Whether a session writes a first line, and a prompt before each line that it reads.
#[derive(Clone, Copy, PartialEq, Eq)]
pub enum Prompts {
    /// At a terminal.
    Shown,
    /// In a pipe and in a script.
    Hidden,
}

/// Before each command.
pub const COMMAND_PROMPT: &[u8] = b"> ";

/// Before each line of CSV.
pub const RECORD_PROMPT: &[u8] = b"| ";

/// The first line of a session.
pub fn greeting(alloc: Global, definitions: &Definitions) -> Result<String, AllocError>
    ensures { IfOk result (λ text. string_bytes text ≡ greeting_text definitions.now) }
{
    let counts = counts(alloc, definitions)?;
    let counts = counts.as_str();
    format!(in alloc; "{counts}; help lists the commands, quit ends\n")
}

/// How many frames and views a document has.
pub fn counts(alloc: Global, definitions: &Definitions) -> Result<String, AllocError>
    ensures { IfOk result (λ text. string_bytes text ≡ counts_text definitions.now) }
{
    let frames = definitions.document.frames.len();
    let views = definitions.document.views.len();
    counted(alloc, frames, views)
}

fn counted(alloc: Global, frames: usize, views: usize) -> Result<String, AllocError>
    ensures { IfOk result (λ text. string_bytes text ≡ greetings.counted frames views) }
{
    let frames_end = plural_end(frames);
    let views_end = plural_end(views);
    format!(in alloc; "{frames} frame{frames_end}, {views} view{views_end}")
}

/// What a count of things ends their noun with.
pub fn plural_end(count: usize) -> &'static str
    ensures { result.now ≡ greetings.plural_end count }
{
    if count == 1 { "" } else { "s" }
}
