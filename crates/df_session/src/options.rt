//! How a session is held.
use crate::prompts::Prompts;

/// How a session is held.
#[derive(Clone, Copy, PartialEq, Eq)]
pub struct SessionOptions<'a> {
    /// The name of the document, which stands above its pages.
    pub title: &'a str,
    pub prompts: Prompts,
    /// Whether the first refusal of a command ends the session.
    pub bail: bool,
    /// Whether a line stands before each answer that says how many lines it has.
    pub framed: bool,
}

/// How a session ended.
#[derive(Clone, Copy, Debug, PartialEq, Eq)]
pub enum SessionEnd {
    /// At the end of its input, or at a `quit`.
    Whole,
    /// At the first refusal, as its options want it.
    Refused,
}
