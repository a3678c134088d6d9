//! The answers to commands.
ghost use Rattle.std.specs.Prelude.{◌≡◌, IfErr, IfOk, OnErr, OnOk, Some, map};
ghost use Rattle.csv.specs.Records.{fields_of};
ghost use Rattle.df_session.specs.Answers.{IsAlone, IsAnswer, IsAnswerAlone, IsAnswerToLine, IsAnswerToWords, IsAtOnce, IsRefusalOfHelp, IsTableFor, LeavesDefinitions, answer_text};
ghost use Rattle.df_session.specs.Asked.{IsMadeAsAsked, IsRefusalOfAsked};
ghost use Rattle.df_session.specs.Help.{help_on};

use crate::changing::{append, append_next, delete, drop_view, register, replace};
use crate::command::{AskedChange, Command, Format, Part, Question, Watching, read_command};
use crate::defining::define;
use crate::definitions::Definitions;
use crate::help::{CommandHelp, explain_command, list_commands};
use crate::refusal::{Mistake, Refusal};
use crate::sql_views::sql_of_view;
use crate::view_store::ViewStore;
use csv::StringRecord;
use df_value::{List, Text};
use std::alloc::{AllocError, Global};

/// What a command is answered, where it is not refused.
#[derive(Drop)]
pub enum Answer {
    /// The change was made.
    Accepted,
    /// What was asked for.
    Told(Vec<u8>),
    /// Nothing: the rows of a file enter a frame, named first, whose path this is.
    Load(Text, Text),
    /// Nothing: a file under this path is to have this table.
    Export(Text, Vec<u8>),
    /// Nothing: a file under this path is to have a page of the views of these names, or without names of all views.
    Report(Text, List<Text>),
    /// Nothing: such a page is to follow the store.
    Follow(Text, List<Text>),
    /// Nothing: the page in the file under this path follows the store no longer.
    Unfollow(Text),
    /// Nothing: this is asked about what changes do to the view of this name.
    Watch(Watching, Text),
    /// Nothing: the commands in the file under this path come next.
    Source(Text),
    /// Nothing: the session ends.
    Ended,
}

impl Answer {
    /// The bytes of the answer.
    pub fn bytes(&self) -> &[u8]
        ensures { result.now ≡ answer_text self.now }
    {
        match self {
            Answer::Accepted => b"ok\n",
            Answer::Told(text) => text.as_slice(),
            Answer::Load(..)
            | Answer::Export(..)
            | Answer::Report(..)
            | Answer::Follow(..)
            | Answer::Unfollow(_)
            | Answer::Watch(..)
            | Answer::Source(_)
            | Answer::Ended => b"",
        }
    }
}

/// Does what the words of a line say. `words` and `lines`, or the steps of a `define`, are what was read, or why it was not; `commands` is the table that
/// `help` answers from, as [`COMMANDS`](crate::COMMANDS).
pub fn answer_line<S: ViewStore>(
    alloc: Global,
    commands: &[CommandHelp],
    definitions: &mut Definitions,
    store: &mut S,
    words: Result<StringRecord, Refusal>,
    lines: Result<Vec<u8>, Refusal>,
) -> Result<Answer, Refusal>
    ensures { IsAnswerToLine (S.Makes store.old store.new) (S.Refuses store.old store.new)
        (S.Keeps store.old store.new) (S.Answers store.old store.new definitions.old)
        (S.Next store.old) (map (λ c. (c.0.now, c.1.now, c.2.now)) commands.now)
        definitions.old definitions.new words lines result }
{
    let record = words?;
    let answered = answer_record(alloc, commands, definitions, store, &record, lines);
    drop(record);
    answered
}

fn answer_record<S: ViewStore>(
    alloc: Global,
    commands: &[CommandHelp],
    definitions: &mut Definitions,
    store: &mut S,
    record: &StringRecord,
    lines: Result<Vec<u8>, Refusal>,
) -> Result<Answer, Refusal>
    ensures { IsAnswerToWords (S.Makes store.old store.new) (S.Refuses store.old store.new)
        (S.Keeps store.old store.new) (S.Answers store.old store.new definitions.old)
        (S.Next store.old) (map (λ c. (c.0.now, c.1.now, c.2.now)) commands.now)
        definitions.old definitions.new (fields_of record.now) lines result }
{
    let words = words_of(alloc, record)?;
    let said = words.as_slice();
    let answered = answer_words(alloc, commands, definitions, store, said, lines);
    drop(words);
    answered
}

fn answer_words<S: ViewStore>(
    alloc: Global,
    commands: &[CommandHelp],
    definitions: &mut Definitions,
    store: &mut S,
    words: &[&str],
    lines: Result<Vec<u8>, Refusal>,
) -> Result<Answer, Refusal>
    ensures { IsAnswerToWords (S.Makes store.old store.new) (S.Refuses store.old store.new)
        (S.Keeps store.old store.new) (S.Answers store.old store.new definitions.old)
        (S.Next store.old) (map (λ c. (c.0.now, c.1.now, c.2.now)) commands.now)
        definitions.old definitions.new (map (λ w. w.now) words.now) lines result }
{
    let command = read_command(alloc, words)?;
    answer_command(alloc, commands, definitions, store, command, lines)
}

/// The words of a line.
pub fn words_of(alloc: Global, fields: &StringRecord) -> Result<Vec<&str>, AllocError>
    ensures { IfOk result (λ words. map (λ w. w.now) words.items ≡ fields_of fields.now) }
{
    fields.iter().collect(alloc)
}

fn answer_command<S: ViewStore>(
    alloc: Global,
    commands: &[CommandHelp],
    definitions: &mut Definitions,
    store: &mut S,
    command: Command<'_>,
    lines: Result<Vec<u8>, Refusal>,
) -> Result<Answer, Refusal>
    ensures answered { IsAnswer (S.Makes store.old store.new) (S.Refuses store.old store.new)
        (S.Keeps store.old store.new) (S.Answers store.old store.new definitions.old)
        (S.Next store.old) (map (λ c. (c.0.now, c.1.now, c.2.now)) commands.now)
        definitions.old definitions.new command.entry lines result }
    ensures definitions { LeavesDefinitions definitions.old definitions.new command.entry result }
{
    match command {
        Command::Change(change) => {
            answer_change(alloc, definitions, store, change, lines)?;
            Ok(Answer::Accepted)
        }
        Command::AppendNext(frame) => {
            let told = append_next(alloc, definitions, store, frame, lines)?;
            Ok(Answer::Told(told))
        }
        Command::Define(view, source) => {
            define(alloc, definitions, store, view, source, lines)?;
            Ok(Answer::Accepted)
        }
        command => {
            drop(lines);
            answer_alone(alloc, commands, definitions, store, command)
        }
    }
}

// The answer to a command that no lines follow.
fn answer_alone<S: ViewStore>(
    alloc: Global,
    commands: &[CommandHelp],
    definitions: &Definitions,
    store: &mut S,
    command: Command<'_>,
) -> Result<Answer, Refusal>
    requires { IsAlone command }
    ensures { IsAnswerAlone (S.Keeps store.old store.new)
        (S.Answers store.old store.new definitions.now)
        (map (λ c. (c.0.now, c.1.now, c.2.now)) commands.now)
        definitions.now command.entry result }
{
    match command {
        Command::Export(view, path) => export_of(alloc, definitions, store, view, path),
        Command::Load(frame, path) => Ok(load_of(alloc, frame, path)?),
        Command::Report(path, views) => Ok(report_of(alloc, path, views)?),
        Command::Follow(path, views) => Ok(follow_of(alloc, path, views)?),
        Command::Unfollow(path) => Ok(Answer::Unfollow(Text::from_str(alloc, path)?)),
        Command::Watch(asked, view) => Ok(Answer::Watch(asked, Text::from_str(alloc, view)?)),
        Command::Source(path) => Ok(Answer::Source(Text::from_str(alloc, path)?)),
        command => answer_at_once(alloc, commands, definitions, store, command),
    }
}

// The answer to a command behind which the session has nothing to do, or ends.
fn answer_at_once<S: ViewStore>(
    alloc: Global,
    commands: &[CommandHelp],
    definitions: &Definitions,
    store: &mut S,
    command: Command<'_>,
) -> Result<Answer, Refusal>
    requires { IsAtOnce command }
    ensures { IsAnswerAlone (S.Keeps store.old store.new)
        (S.Answers store.old store.new definitions.now)
        (map (λ c. (c.0.now, c.1.now, c.2.now)) commands.now)
        definitions.now command.entry result }
{
    match command {
        Command::Question(question) => {
            Ok(Answer::Told(store.answer(alloc, definitions, question)?))
        }
        Command::Sql(view) => Ok(Answer::Told(sql_of_view(alloc, definitions, view)?)),
        Command::Help => Ok(Answer::Told(list_commands(alloc, commands)?)),
        Command::HelpOn(name) => Ok(Answer::Told(explain(alloc, commands, name)?)),
        Command::Quit => Ok(Answer::Ended),
        _ => unreachable!(),
    }
}

fn load_of(alloc: Global, frame: &str, path: &str) -> Result<Answer, AllocError>
    ensures { IfOk result (λ answer. answer ≡ Answer.Load frame.now path.now) }
{
    let frame = Text::from_str(alloc, frame)?;
    let path = Text::from_str(alloc, path)?;
    Ok(Answer::Load(frame, path))
}

fn report_of(alloc: Global, path: &str, views: List<Text>) -> Result<Answer, AllocError>
    ensures { IfOk result (λ answer. answer ≡ Answer.Report path.now views) }
{
    match Text::from_str(alloc, path) {
        Ok(path) => Ok(Answer::Report(path, views)),
        Err(fault) => {
            drop(views);
            Err(fault)
        }
    }
}

fn follow_of(alloc: Global, path: &str, views: List<Text>) -> Result<Answer, AllocError>
    ensures { IfOk result (λ answer. answer ≡ Answer.Follow path.now views) }
{
    match Text::from_str(alloc, path) {
        Ok(path) => Ok(Answer::Follow(path, views)),
        Err(fault) => {
            drop(views);
            Err(fault)
        }
    }
}

// The table of a view as `show VIEW csv` writes it, for a file.
fn export_of<S: ViewStore>(
    alloc: Global,
    definitions: &Definitions,
    store: &mut S,
    view: &str,
    path: &str,
) -> Result<Answer, Refusal>
    ensures { IsTableFor (S.Keeps store.old store.new)
        (S.Answers store.old store.new definitions.now (Question.Show view.entry Part.Whole Format.Csv))
        path.now result }
{
    let path = Text::from_str(alloc, path)?;
    let question = Question::Show(view, Part::Whole, Format::Csv);
    match store.answer(alloc, definitions, question) {
        Ok(table) => Ok(Answer::Export(path, table)),
        Err(refusal) => {
            drop(path);
            Err(refusal)
        }
    }
}

/// The forms of the command of this name.
pub fn explain(alloc: Global, commands: &[CommandHelp], name: &str) -> Result<Vec<u8>, Refusal>
    ensures told { IfOk result (λ text.
        help_on name.now (map (λ c. (c.0.now, c.1.now, c.2.now)) commands.now)
        ≡ Some text.items) }
    ensures refused { IfErr result (IsRefusalOfHelp
        (help_on name.now (map (λ c. (c.0.now, c.1.now, c.2.now)) commands.now))) }
{
    match explain_command(alloc, commands, name)? {
        Some(text) => Ok(text),
        None => Err(Refusal::Mistake(Mistake::NoCommand)),
    }
}

fn answer_change<S: ViewStore>(
    alloc: Global,
    definitions: &Definitions,
    store: &mut S,
    asked: AskedChange<'_>,
    lines: Result<Vec<u8>, Refusal>,
) -> Result<(), Refusal>
    ensures made { OnOk result
        (IsMadeAsAsked (S.Makes store.old store.new) definitions.now asked.entry lines) }
    ensures refused { IfErr result
        (IsRefusalOfAsked (S.Refuses store.old store.new) definitions.now asked.entry lines) }
    ensures same { OnErr result (S.Keeps store.old store.new) }
{
    match asked {
        AskedChange::Append(frame, first) => {
            append(alloc, definitions, store, frame, first, lines)
        }
        AskedChange::Delete(frame, numbers) => delete(alloc, definitions, store, frame, numbers),
        AskedChange::Replace(frame, numbers) => {
            replace(alloc, definitions, store, frame, numbers, lines)
        }
        AskedChange::Register(view) => register(alloc, definitions, store, view),
        AskedChange::DropView(view) => drop_view(alloc, store, view),
    }
}
