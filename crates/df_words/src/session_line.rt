//! What the words of `dfshell` say.

/// What the words of `dfshell` say.
#[derive(Clone, Copy, PartialEq, Eq)]
pub struct CommandLine<'a> {
    /// The path of the view document; without one a session begins without frames.
    pub views: Option<&'a str>,
    /// Whether the session goes through a hall.
    pub hall: bool,
    /// Whether the document is only opened.
    pub check: bool,
    /// Whether the first refusal ends the session.
    pub bail: bool,
    /// Whether each answer says before it how many lines it has.
    pub framed: bool,
    /// Whether the document is only written as SQL.
    pub sql: bool,
    /// The path of the page that the document's views are only written to.
    pub report: Option<&'a str>,
}
