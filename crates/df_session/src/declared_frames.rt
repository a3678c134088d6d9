//! The frames that a session declares which has no document.
ghost use Rattle.std.specs.Prelude.{◌≡◌, ◌∷◌, ◌++◌, [], IfErr, IfOk, IsOk, OnErr, OnOk, codes, map};
ghost use Rattle.df_value.specs.Outcomes.{Answers};
ghost use Rattle.df_text.specs.Document.{document_of};
ghost use Rattle.df_session.specs.Answers.{IsWordFault};
ghost use Rattle.df_session.specs.Declarations.{IsDeclaration, IsDeclared, IsFaultOfFrames, IsOtherDeclaration, IsRefusalOfFrame, IsRefusalOfWords, IsDeclaredBy, words_of_columns};
ghost use Rattle.df_writing.specs.FrameTables.{frame_table};

use crate::answering::{Answer, explain};
use crate::command::{Command, read_command};
use crate::help::{CommandHelp, list_commands};
use crate::refusal::{Mistake, Refusal};
use df_text::{Views, ViewsFault, read_views};
use df_writing::push_frame_table;
use std::alloc::{AllocError, Global};

/// The frames that a session has declared: the view document that says them.
pub struct DeclaredFrames {
    document: Vec<u8>,
}

// A body that owns one drops it by a call.
impl Drop for DeclaredFrames {
    fn drop(self) {
        let DeclaredFrames { document } = self;
        drop(document);
    }
}

/// What the words of a line come to before a store is opened.
#[derive(Drop)]
pub enum Declaration {
    /// They are answered.
    Answered(Answer),
    /// They are a question, which a store of the declared frames answers.
    Asked,
    /// They may change a store of the declared frames.
    Opens,
}

impl DeclaredFrames {
    /// No frame.
    pub fn new(alloc: Global) -> DeclaredFrames
        ensures { result.document.items ≡ [] }
    {
        DeclaredFrames {
            document: Vec::new(alloc),
        }
    }

    /// Declares a frame behind the others, of these columns, each a name and the word of a type.
    pub fn declare(
        &mut self,
        alloc: Global,
        name: &str,
        columns: &[(&str, &str)],
    ) -> Result<(), Refusal>
        ensures declared { OnOk result (IsDeclared self.old.document.items self.new.document.items
            name.now (map (λ c. (c.0.now, c.1.now)) columns.now)) }
        ensures refused { IfErr result (IsRefusalOfFrame self.old.document.items
            name.now (map (λ c. (c.0.now, c.1.now)) columns.now)) }
        ensures kept { OnErr result (self.new ≡ self.old) }
    {
        let document = self.with_frame(alloc, name, columns)?;
        check_frames(alloc, document.as_slice())?;
        self.document = document;
        Ok(())
    }

    // The document with one frame more.
    fn with_frame(
        &self,
        alloc: Global,
        name: &str,
        columns: &[(&str, &str)],
    ) -> Result<Vec<u8>, AllocError>
        ensures { IfOk result (λ document. document.items ≡ self.now.document.items
            ++ frame_table name.now (map (λ c. (c.0.now, c.1.now)) columns.now)) }
    {
        let mut document = Vec::new(alloc);
        document.extend_from_slice(self.document.as_slice())?;
        push_frame_table(&mut document, name, columns)?;
        Ok(document)
    }

    /// The document of the frames.
    pub fn read(&self, alloc: Global) -> Result<Views, ViewsFault>
        ensures { Answers ViewsFault.Memory (document_of self.now.document.items) result }
    {
        read_views(alloc, self.document.as_slice())
    }
}

fn check_frames(alloc: Global, document: &[u8]) -> Result<(), Refusal>
    ensures said { OnOk result (IsOk (document_of document.now)) }
    ensures refused { IfErr result (IsFaultOfFrames (document_of document.now)) }
{
    match read_views(alloc, document) {
        Ok(views) => {
            drop(views);
            Ok(())
        }
        Err(ViewsFault::Memory) => Err(Refusal::Memory),
        Err(fault) => Err(Refusal::Frame(fault)),
    }
}

/// Does what the words of a line say, before a store is opened: declares a frame, or tells of the commands. Other words are
/// left to a store of the frames that are declared. `commands` is the table that `help` answers from.
pub fn answer_declaring(
    alloc: Global,
    commands: &[CommandHelp],
    declared: &mut DeclaredFrames,
    words: &[&str],
) -> Result<Declaration, Refusal>
    ensures { IsDeclaration (map (λ c. (c.0.now, c.1.now, c.2.now)) commands.now)
        declared.old.document.items declared.new.document.items (map (λ w. w.now) words.now) result }
{
    match words {
        ["frame", arguments @ ..] => match declare_words(alloc, declared, arguments) {
            Ok(()) => Ok(Declaration::Answered(Answer::Accepted)),
            Err(refusal) => Err(refusal),
        },
        _ => answer_other(alloc, commands, words),
    }
}

fn declare_words(
    alloc: Global,
    declared: &mut DeclaredFrames,
    arguments: &[&str],
) -> Result<(), Refusal>
    ensures declared { OnOk result (IsDeclaredBy declared.old.document.items
        declared.new.document.items (codes "frame" ∷ map (λ w. w.now) arguments.now)) }
    ensures refused { IfErr result (IsRefusalOfWords declared.old.document.items
        (codes "frame" ∷ map (λ w. w.now) arguments.now)) }
    ensures kept { OnErr result (declared.new ≡ declared.old) }
{
    match arguments {
        [name, words @ ..] => {
            let columns = columns_of(alloc, words)?;
            declared.declare(alloc, name, columns.as_slice())
        }
        [] => Err(Refusal::Mistake(Mistake::MissingWord)),
    }
}

// The names and the types of columns in turn.
fn columns_of<'a>(alloc: Global, words: &[&'a str]) -> Result<Vec<(&'a str, &'a str)>, Refusal>
    ensures said { IfOk result (λ columns. map (λ w. w.now) words.now
        ≡ words_of_columns (map (λ c. (c.0.now, c.1.now)) columns.items)) }
    ensures refused { IfErr result IsWordFault }
{
    if words.len() % 2 != 0 {
        return Err(Refusal::Mistake(Mistake::MissingWord));
    }
    let mut columns = Vec::with_capacity(alloc, words.len() / 2)?;
    for at in 0..words.len() / 2 {
        columns.push((words[2 * at], words[2 * at + 1]))?;
    }
    Ok(columns)
}

fn answer_other(
    alloc: Global,
    commands: &[CommandHelp],
    words: &[&str],
) -> Result<Declaration, Refusal>
    ensures { IsOtherDeclaration (map (λ c. (c.0.now, c.1.now, c.2.now)) commands.now)
        (map (λ w. w.now) words.now) result }
{
    match read_command(alloc, words)? {
        Command::Question(_) | Command::Sql(_) | Command::Watch(..) | Command::Unfollow(_) => {
            Ok(Declaration::Asked)
        }
        Command::Help => {
            let told = list_commands(alloc, commands)?;
            Ok(Declaration::Answered(Answer::Told(told)))
        }
        Command::HelpOn(name) => {
            let told = explain(alloc, commands, name)?;
            Ok(Declaration::Answered(Answer::Told(told)))
        }
        Command::Quit => Ok(Declaration::Answered(Answer::Ended)),
        Command::Change(_)
        | Command::AppendNext(_)
        | Command::Load(..)
        | Command::Export(..)
        | Command::Report(..)
        | Command::Follow(..)
        | Command::Define(..)
        | Command::Source(_) => Ok(Declaration::Opens),
    }
}
