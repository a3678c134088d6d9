//! Commands, and the words that they are read of.
ghost use Rattle.std.specs.Prelude.{◌≡◌, ◌∷◌, [], IfErr, IfOk, codes, map};
ghost use Rattle.std.specs.List.{AllZip};
ghost use Rattle.df_session.specs.Answers.{IsWordFault};
ghost use Rattle.df_session.specs.Commands.{IsChangeOf, IsCommandOf, IsLineCount, IsRowNumber};

use crate::question_words::question_of;
use crate::refusal::{Mistake, Refusal};
use df_value::{List, Text};
use std::alloc::{AllocError, Global};

/// What a line asks for. Frames and views are named as in the document.
#[derive(Drop)]
pub enum Command<'a> {
    Change(AskedChange<'a>),
    /// Adds rows to a frame, behind all numbers that it ever accepted.
    AppendNext(&'a str),
    Question(Question<'a>),
    /// Adds the rows of a file to a frame, behind all numbers that it ever accepted: the frame, and the path.
    Load(&'a str, &'a str),
    /// Writes the table of a view, as CSV, to a file: the view, and the path.
    Export(&'a str, &'a str),
    /// Writes a page of the views of these names, in their order, or without names of all views, to a file, whose path stands first.
    Report(&'a str, List<Text>),
    /// Writes such a page, and from now on anew behind changes.
    Follow(&'a str, List<Text>),
    /// Writes the page in the file under a path no longer.
    Unfollow(&'a str),
    /// Adds a view behind all views so far: its name, and that of the frame that it begins with. Its steps stand behind
    /// these.
    Define(&'a str, &'a str),
    /// The view of a name as SQL, behind the tables of the frames that it reads.
    Sql(&'a str),
    /// About what changes do to a view.
    Watch(Watching, &'a str),
    /// The commands in the file under a path.
    Source(&'a str),
    /// The commands.
    Help,
    /// A command, by its name.
    HelpOn(&'a str),
    /// The end of the session.
    Quit,
}

/// What a command says about what changes do to a view.
#[derive(Clone, Copy, PartialEq, Eq)]
pub enum Watching {
    /// That of each further change of rows is written behind its answer.
    Begin,
    /// It no longer is.
    End,
    /// That of the last change is asked for.
    Ask,
}

/// A change that is asked for.
#[derive(Drop)]
pub enum AskedChange<'a> {
    /// Adds rows to a frame, the first of which has this number.
    Append(&'a str, u32),
    /// Takes the rows of these numbers out of a frame.
    Delete(&'a str, List<u32>),
    /// Puts rows in the place of those of these numbers.
    Replace(&'a str, List<u32>),
    /// Adds last the view of this name, of the document or one that was defined.
    Register(&'a str),
    /// Takes the view of this name out.
    DropView(&'a str),
}

/// What is asked about the frames and views.
#[derive(Clone, Copy)]
pub enum Question<'a> {
    /// The names of the frames, how many rows each has, and its columns with their types.
    Frames,
    /// The columns of a frame or of a view with their types.
    Schema(&'a str),
    /// The plan of a view, as a document writes it.
    Plan(&'a str),
    /// The table of a view, or a part of its rows.
    Show(&'a str, Part, Format),
    /// The table of a frame and the numbers of its rows.
    Rows(&'a str, Format),
    /// How many rows a frame accepted, how many were deleted, and how many it has.
    Books(&'a str),
    /// The names of the views.
    Views,
    /// Whether each view has the rows that its plan gives.
    Check,
    /// What the views counted at the last change of rows.
    Work,
    /// The number of the newest version.
    Version,
}

/// Which rows of a table are shown.
#[derive(Clone, Copy)]
pub enum Part {
    Whole,
    /// So many, from the first one on.
    First(usize),
    /// From this one on, the first being 0, so many.
    From(usize, usize),
}

/// How a table is written.
#[derive(Clone, Copy)]
pub enum Format {
    /// In columns, under its name.
    Printed,
    /// As CSV.
    Csv,
    /// As lines of JSON.
    Json,
    /// As a section of an HTML page.
    Html,
}

/// The command that words say.
pub fn read_command<'a>(alloc: Global, words: &[&'a str]) -> Result<Command<'a>, Refusal>
    ensures said { IfOk result (IsCommandOf (map (λ w. w.now) words.now)) }
    ensures refused { IfErr result IsWordFault }
{
    match words {
        [name, arguments @ ..] => command_of(alloc, name, arguments),
        [] => Err(Refusal::Mistake(Mistake::MissingWord)),
    }
}

fn command_of<'a>(alloc: Global, name: &str, arguments: &[&'a str]) -> Result<Command<'a>, Refusal>
    ensures said { IfOk result (IsCommandOf (name.now ∷ map (λ w. w.now) arguments.now)) }
    ensures refused { IfErr result IsWordFault }
{
    match name {
        "help" => Ok(read_help(arguments)?),
        "quit" => bare(Command::Quit, arguments),
        "frame" => Err(Refusal::Mistake(Mistake::LateFrame)),
        _ => change_of(alloc, name, arguments),
    }
}

// The commands that change rows and views, then those about files.
fn change_of<'a>(alloc: Global, name: &str, arguments: &[&'a str]) -> Result<Command<'a>, Refusal>
    ensures said { IfOk result (IsCommandOf (name.now ∷ map (λ w. w.now) arguments.now)) }
    ensures refused { IfErr result IsWordFault }
{
    match name {
        "append" => Ok(read_append(arguments)?),
        "delete" => Ok(Command::Change(read_delete(alloc, arguments)?)),
        "replace" => Ok(Command::Change(read_replace(alloc, arguments)?)),
        "register" => Ok(Command::Change(AskedChange::Register(only(arguments)?))),
        "drop" => Ok(Command::Change(AskedChange::DropView(only(arguments)?))),
        "define" => Ok(read_define(arguments)?),
        _ => file_command_of(alloc, name, arguments),
    }
}

// The commands about files, then those about views.
fn file_command_of<'a>(
    alloc: Global,
    name: &str,
    arguments: &[&'a str],
) -> Result<Command<'a>, Refusal>
    ensures said { IfOk result (IsCommandOf (name.now ∷ map (λ w. w.now) arguments.now)) }
    ensures refused { IfErr result IsWordFault }
{
    match name {
        "load" => Ok(read_load(arguments)?),
        "export" => Ok(read_export(arguments)?),
        "report" => read_report(alloc, arguments),
        "follow" => read_follow(alloc, arguments),
        "unfollow" => Ok(Command::Unfollow(only(arguments)?)),
        "source" => Ok(Command::Source(only(arguments)?)),
        _ => view_command_of(name, arguments),
    }
}

// The commands about views, then the questions.
fn view_command_of<'a>(name: &str, arguments: &[&'a str]) -> Result<Command<'a>, Refusal>
    ensures said { IfOk result (IsCommandOf (name.now ∷ map (λ w. w.now) arguments.now)) }
    ensures refused { IfErr result IsWordFault }
{
    match name {
        "sql" => Ok(Command::Sql(only(arguments)?)),
        "watch" => Ok(Command::Watch(Watching::Begin, only(arguments)?)),
        "unwatch" => Ok(Command::Watch(Watching::End, only(arguments)?)),
        "changes" => Ok(Command::Watch(Watching::Ask, only(arguments)?)),
        _ => question_of(name, arguments),
    }
}

fn read_append<'a>(arguments: &[&'a str]) -> Result<Command<'a>, Mistake>
    ensures { IfOk result (IsCommandOf (codes "append" ∷ map (λ w. w.now) arguments.now)) }
{
    match arguments {
        [frame] => Ok(Command::AppendNext(frame)),
        [frame, first, count] => {
            let first = row_number(first)?;
            line_count(count)?;
            Ok(Command::Change(AskedChange::Append(frame, first)))
        }
        [_, _, _, ..] => Err(Mistake::ExtraWord),
        _ => Err(Mistake::MissingWord),
    }
}

fn read_load<'a>(arguments: &[&'a str]) -> Result<Command<'a>, Mistake>
    ensures { IfOk result (IsCommandOf (codes "load" ∷ map (λ w. w.now) arguments.now)) }
{
    match arguments {
        [frame, path] => Ok(Command::Load(frame, path)),
        [_, _, ..] => Err(Mistake::ExtraWord),
        _ => Err(Mistake::MissingWord),
    }
}

fn read_export<'a>(arguments: &[&'a str]) -> Result<Command<'a>, Mistake>
    ensures { IfOk result (IsCommandOf (codes "export" ∷ map (λ w. w.now) arguments.now)) }
{
    match arguments {
        [view, path] => Ok(Command::Export(view, path)),
        [_, _, ..] => Err(Mistake::ExtraWord),
        _ => Err(Mistake::MissingWord),
    }
}

fn read_report<'a>(alloc: Global, arguments: &[&'a str]) -> Result<Command<'a>, Refusal>
    ensures said { IfOk result (IsCommandOf (codes "report" ∷ map (λ w. w.now) arguments.now)) }
    ensures refused { IfErr result IsWordFault }
{
    match arguments {
        [path, views @ ..] => Ok(Command::Report(path, texts_of(alloc, views)?)),
        [] => Err(Refusal::Mistake(Mistake::MissingWord)),
    }
}

fn read_follow<'a>(alloc: Global, arguments: &[&'a str]) -> Result<Command<'a>, Refusal>
    ensures said { IfOk result (IsCommandOf (codes "follow" ∷ map (λ w. w.now) arguments.now)) }
    ensures refused { IfErr result IsWordFault }
{
    match arguments {
        [path, views @ ..] => Ok(Command::Follow(path, texts_of(alloc, views)?)),
        [] => Err(Refusal::Mistake(Mistake::MissingWord)),
    }
}

fn texts_of(alloc: Global, words: &[&str]) -> Result<List<Text>, AllocError>
    ensures { IfOk result (λ texts. texts ≡ map (λ w. w.now) words.now) }
{
    let mut texts = Vec::with_capacity(alloc, words.len())?;
    for word in words {
        texts.push(Text::from_str(alloc, word)?)?;
    }
    Ok(List::from_vec(texts))
}

fn read_define<'a>(arguments: &[&'a str]) -> Result<Command<'a>, Mistake>
    ensures { IfOk result (IsCommandOf (codes "define" ∷ map (λ w. w.now) arguments.now)) }
{
    match arguments {
        [view, source, _, ..] => Ok(Command::Define(view, source)),
        _ => Err(Mistake::MissingWord),
    }
}

fn read_delete<'a>(alloc: Global, arguments: &[&'a str]) -> Result<AskedChange<'a>, Refusal>
    ensures said { IfOk result (IsChangeOf (codes "delete" ∷ map (λ w. w.now) arguments.now)) }
    ensures refused { IfErr result IsWordFault }
{
    match arguments {
        [frame, numbers @ ..] => Ok(AskedChange::Delete(frame, row_numbers(alloc, numbers)?)),
        [] => Err(Refusal::Mistake(Mistake::MissingWord)),
    }
}

fn read_replace<'a>(alloc: Global, arguments: &[&'a str]) -> Result<AskedChange<'a>, Refusal>
    ensures said { IfOk result (IsChangeOf (codes "replace" ∷ map (λ w. w.now) arguments.now)) }
    ensures refused { IfErr result IsWordFault }
{
    match arguments {
        [frame, numbers @ ..] => Ok(AskedChange::Replace(frame, row_numbers(alloc, numbers)?)),
        [] => Err(Refusal::Mistake(Mistake::MissingWord)),
    }
}

fn read_help<'a>(arguments: &[&'a str]) -> Result<Command<'a>, Mistake>
    ensures { IfOk result (IsCommandOf (codes "help" ∷ map (λ w. w.now) arguments.now)) }
{
    match arguments {
        [] => Ok(Command::Help),
        [name] => Ok(Command::HelpOn(name)),
        _ => Err(Mistake::ExtraWord),
    }
}

fn row_numbers(alloc: Global, words: &[&str]) -> Result<List<u32>, Refusal>
    ensures said { IfOk result (AllZip IsRowNumber (map (λ w. w.now) words.now)) }
    ensures refused { IfErr result IsWordFault }
{
    let mut numbers = Vec::with_capacity(alloc, words.len())?;
    for word in words {
        numbers.push(row_number(word)?)?;
    }
    Ok(List::from_vec(numbers))
}

/// The row number that a word says.
pub fn row_number(word: &str) -> Result<u32, Mistake>
    ensures { IfOk result (IsRowNumber word.now) }
{
    match word.parse::<u32>() {
        Ok(number) => Ok(number),
        Err(_) => Err(Mistake::NotRowNumber),
    }
}

/// How many lines of CSV a word says.
pub fn line_count(word: &str) -> Result<u64, Mistake>
    ensures { IfOk result (IsLineCount word.now) }
{
    match word.parse::<u64>() {
        Ok(count) => Ok(count),
        Err(_) => Err(Mistake::NotCount),
    }
}

/// The word of a command that takes one.
pub fn only<'a>(arguments: &[&'a str]) -> Result<&'a str, Mistake>
    ensures { IfOk result (λ word. map (λ w. w.now) arguments.now ≡ word.now ∷ []) }
{
    match arguments {
        [word] => Ok(word),
        [] => Err(Mistake::MissingWord),
        _ => Err(Mistake::ExtraWord),
    }
}

/// A command that takes no word.
pub fn bare<'a>(command: Command<'a>, arguments: &[&'a str]) -> Result<Command<'a>, Refusal>
    ensures said { IfOk result (λ c. (c ≡ command.entry) × (arguments.now ≡ [])) }
    ensures refused { IfErr result IsWordFault }
{
    match arguments {
        [] => Ok(command),
        _ => Err(Refusal::Mistake(Mistake::ExtraWord)),
    }
}
