//! What a session writes.
ghost use Rattle.std.specs.Prelude.{◌≡◌, ◌++◌, [], ℕ, List, OnOk, Some, false, flat_map, sum_by, true};
ghost use Rattle.std.specs.Io.KnownBytes.{Appends, Keeps};
ghost use Rattle.df_session.specs.Framed as framed_spec;
ghost use Rattle.df_session.specs.Framed.{answer_written, ends_lines, frame_head, lines_and_rest, status_tail, status_word};
ghost use Rattle.df_session.specs.ViewChanges.{missed_line};
ghost use Rattle.df_session.specs.Watching.{told_text};

use crate::change_store::ChangeStore;
use crate::fault::ShellFault;
use crate::loading::Loaded;
use crate::options::SessionOptions;
use crate::prompts::Prompts;
use crate::watched_store::WatchedStore;
use crate::watches::{WatchedView, Watches};
use df_text::write_text;
use itoa::Buffer;
use std::io::Write;

/// What an answer is to its command.
#[derive(Clone, Copy)]
pub enum Status<'a> {
    /// What a session begins with, before all commands.
    Ready,
    Ok,
    /// The command is refused, with this code and what it is about.
    Error(&'a [u8]),
}

impl<'a> Status<'a> {
    fn word(self) -> &'static [u8]
        ensures { result.now ≡ status_word self.entry }
    {
        match self {
            Status::Ready => b"ready ",
            Status::Ok => b"ok ",
            Status::Error(_) => b"error ",
        }
    }

    // Both stand behind the number of lines.
    fn tail(self) -> (&'static [u8], &'a [u8])
        ensures { result.0.now ++ result.1.now ≡ status_tail self.entry }
    {
        match self {
            Status::Ready | Status::Ok => (b"", b""),
            Status::Error(code) => (b" ", code),
        }
    }
}

/// Writes what only a terminal shows.
pub fn write_prompt<W: Write>(
    output: &mut W,
    prompts: Prompts,
    text: &[u8],
) -> Result<(), ShellFault> {
    match prompts {
        Prompts::Shown => {
            write_all(output, text)?;
            flush(output)
        }
        Prompts::Hidden => Ok(()),
    }
}

/// Writes what came of a load. It takes no memory, since rows have entered.
pub fn write_loaded<W: Write>(
    output: &mut W,
    options: SessionOptions<'_>,
    loaded: &Loaded,
) -> Result<(), ShellFault> {
    let cut: &[u8] = if loaded.is_cut() { b"memory\n" } else { b"" };
    let parts = [loaded.refused(), cut, loaded.entered()];
    write_answer(output, options.framed, Status::Ok, &parts)
}

/// Writes an answer whose parts follow one another, so that whoever waits for it has it: if it is framed, behind a line that
/// says how many lines it has. It takes no memory.
pub fn write_answer<W: Write>(
    output: &mut W,
    framed: bool,
    status: Status<'_>,
    parts: &[&[u8]],
) -> Result<(), ShellFault>
    ensures { OnOk result (Appends (W.contents output.old) (W.contents output.new)
        (answer_written framed (status_word status.entry) (status_tail status.entry)
        (flat_map (λ part. part.now) parts.now))) }
{
    if framed {
        write_head(output, status, line_ends_of(parts))?;
        write_whole(output, parts)
    } else {
        write_whole(output, parts)
    }
}

/// Writes what changes did to the views that are watched, where there is something to be told: for each a line `change NAME
/// NUMBER LINES`, and so many lines. It takes no memory.
///
/// What is missed, since there was no memory for it, is told behind that by a line `missed NAME NUMBER 0` for each view: what
/// was done to it is not known up to the change of that number.
pub fn write_changes<S: ChangeStore, W: Write>(
    output: &mut W,
    store: &mut WatchedStore<S>,
) -> Result<(), ShellFault>
    ensures told { OnOk result ((number : ℕ) × S.Numbers store.old.store number
        × Appends (W.contents output.old) (W.contents output.new) (told_text number store.old.watches)) }
    ensures store { store.new.store ≡ store.old.store }
    ensures forgotten { OnOk result (store.new.watches
        ≡ record store.old.watches { told = []; is_missing = false }) }
{
    let number = store.store.change_number();
    write_told(output, number, &store.watches)?;
    store.watches.forget();
    Ok(())
}

fn write_told<W: Write>(output: &mut W, number: u64, watches: &Watches) -> Result<(), ShellFault>
    ensures { OnOk result (Appends (W.contents output.old) (W.contents output.new)
        (told_text number watches.now)) }
{
    write_all(output, watches.told())?;
    if watches.is_missing() {
        write_missed(output, number, watches.views())?;
    }
    flush(output)
}

// Writes that something is missed of each of these views.
fn write_missed<W: Write>(
    output: &mut W,
    number: u64,
    views: &[WatchedView],
) -> Result<(), ShellFault>
    ensures { OnOk result (Appends (W.contents output.old) (W.contents output.new)
        (flat_map (missed_line number) views.now)) }
{
    for view in views {
        write_missed_line(output, number, view)?;
    }
    Ok(())
}

fn write_missed_line<W: Write>(
    output: &mut W,
    number: u64,
    view: &WatchedView,
) -> Result<(), ShellFault>
    ensures { OnOk result (Appends (W.contents output.old) (W.contents output.new)
        (missed_line number view.now)) }
{
    let mut buffer = Buffer::new();
    write_all(output, view.missed())?;
    write_all(output, buffer.format(number).as_bytes())?;
    write_all(output, b" 0\n")
}

/// Writes parts that follow one another, and what the output keeps back.
pub fn write_whole<W: Write>(output: &mut W, parts: &[&[u8]]) -> Result<(), ShellFault>
    ensures { OnOk result (Appends (W.contents output.old) (W.contents output.new)
        (flat_map (λ part. part.now) parts.now)) }
{
    write_parts(output, parts)?;
    flush(output)?;
    Ok(())
}

// The line before an answer of so many lines.
fn write_head<W: Write>(output: &mut W, status: Status<'_>, lines: u128) -> Result<(), ShellFault>
    ensures { OnOk result (Appends (W.contents output.old) (W.contents output.new)
        (frame_head (status_word status.entry) (status_tail status.entry) lines)) }
{
    let mut buffer = Buffer::new();
    let (blank, code) = status.tail();
    write_all(output, status.word())?;
    write_all(output, buffer.format(lines).as_bytes())?;
    write_all(output, blank)?;
    write_all(output, code)?;
    write_all(output, b"\n")
}

fn write_parts<W: Write>(output: &mut W, parts: &[&[u8]]) -> Result<(), ShellFault>
    ensures { OnOk result (Appends (W.contents output.old) (W.contents output.new)
        (flat_map (λ part. part.now) parts.now)) }
{
    for part in parts {
        write_all(output, part)?;
    }
    Ok(())
}

// How many lines of the parts have an end.
fn line_ends_of(parts: &[&[u8]]) -> u128
    ensures { result ≡ sum_by (λ part. framed_spec.line_ends part.now) parts.now }
{
    let mut lines = 0;
    for part in parts {
        lines += line_ends(part) as u128;
    }
    lines
}

// How many lines of a text have an end. If each has one, a reader that takes so many lines has the text.
fn line_ends(text: &[u8]) -> usize
    ensures count { result ≡ framed_spec.line_ends text.now }
    ensures read_back { (rest : List ℕ) → ends_lines text.now ≡ true →
        lines_and_rest result (text.now ++ rest) ≡ Some (text.now, rest) }
{
    count_ends(text)
}

/// The same, without its law.
pub fn count_ends(text: &[u8]) -> usize
    ensures { result ≡ framed_spec.line_ends text.now }
{
    text.iter().filter(|byte| **byte == b'\n').count()
}

fn flush<W: Write>(output: &mut W) -> Result<(), ShellFault>
    ensures { Keeps (W.contents output.old) (W.contents output.new) }
{
    match output.flush() {
        Ok(()) => Ok(()),
        Err(_) => Err(ShellFault::Write),
    }
}

/// Writes a text.
pub fn write_all<W: Write>(output: &mut W, text: &[u8]) -> Result<(), ShellFault>
    ensures { OnOk result (Appends (W.contents output.old) (W.contents output.new) text.now) }
{
    match write_text(output, text) {
        Ok(()) => Ok(()),
        Err(_) => Err(ShellFault::Write),
    }
}
