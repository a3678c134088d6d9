//! Notes of an output: what stood at each tag, and what comes to stand there.
ghost use Rattle.std.specs.Prelude.{◌≡◌, IfOk, OnOk, Some};
ghost use Rattle.std.specs.Option.{option_map};
ghost use Rattle.std.specs.FinMap as finite;
ghost use Rattle.df_delta.specs.Deltas.{Changes};
ghost use Rattle.df_delta.specs.Notes.{leaned, moved, new_of, old_of, then_change};
ghost use Rattle.df_delta.specs.NotedRows.{note_change};
ghost use Rattle.df_delta.specs.SameRows.{same_row};

use crate::delta::Delta;
use crate::entries::push_change;
use df_column::Tag;
use df_value::Row;
use std::alloc::{AllocError, Global};
use std::collections::BTreeMap;
use std::marker::Model;

/// What is noted at a tag.
#[derive(Drop)]
struct Note {
    old: Option<Row>,
    new: Option<Row>,
}

/// What an operator's output had and comes to have, noted by tag and in any order. A tag may be noted more than once,
/// and where both of its rows are equal, it is no change.
pub struct Notes {
    alloc: Global,
    notes: BTreeMap<Tag, Note>,
}

// A body that owns one drops it by a call.
impl Drop for Notes {
    fn drop(self) {
        let Notes { alloc: _, notes } = self;
        drop(notes);
    }
}

impl Model for Notes {
    ghost use Rattle.std.specs.Prelude.{T, map};
    ghost use Rattle.std.specs.FinMap as finite;
    ghost use Rattle.df_column.specs.Tags.{tag_cmp};
    ghost use Rattle.df_delta.specs.Deltas.{Changes, changes_code};
    ghost use Rattle.df_delta.specs.NotedRows.{noted_change};

    ghost Value = { Changes };

    ghost coded = { changes_code };

    ghost view = { λ n. finite.from_sorted (map noted_change n.notes.entries) };

    ghost invariant = { λ n. T (finite.is_sorted tag_cmp (map noted_change n.notes.entries)) };
}

/// The row that is noted to have stood there.
fn old_row(noted: Option<Note>) -> Option<Row>
    ensures { result ≡ old_of (option_map note_change noted) }
{
    match noted {
        Some(noted) => noted.old,
        None => None,
    }
}

/// The row that is noted to come.
fn new_row(noted: Option<Note>) -> Option<Row>
    ensures { result ≡ new_of (option_map note_change noted) }
{
    match noted {
        Some(noted) => noted.new,
        None => None,
    }
}

/// One note after another: what stood before the first, and what stands after the last.
fn then(noted: Option<Note>, next: Note) -> Note
    ensures { note_change result ≡ then_change (option_map note_change noted) (note_change next) }
{
    match noted {
        Some(noted) => Note {
            old: noted.old,
            new: next.new,
        },
        None => next,
    }
}

/// A row that goes, or else comes.
fn move_of(goes: bool, row: Row) -> Note
    ensures { note_change result ≡ moved goes row }
{
    if goes {
        Note {
            old: Some(row),
            new: None,
        }
    } else {
        Note {
            old: None,
            new: Some(row),
        }
    }
}

impl Notes {
    /// No notes.
    pub fn new(alloc: Global) -> Notes
        ensures { result ≡ finite.empty }
    {
        Notes {
            alloc,
            notes: BTreeMap::new(alloc),
        }
    }

    /// Takes out what is noted at the tag.
    fn take(&mut self, tag: Tag) -> Option<Note>
        ensures noted { option_map note_change result ≡ finite.get self.old tag }
        ensures rest { self.new ≡ finite.remove self.old tag }
    {
        self.notes.remove(&tag)
    }

    /// Puts a note at a tag out of which the notes were taken.
    fn put(&mut self, tag: Tag, note: Note) -> Result<(), AllocError>
        ensures { (m : Changes) → self.old ≡ finite.remove m tag
            → OnOk result (self.new ≡ finite.insert m tag (note_change note)) }
    {
        match self.notes.insert(tag, note) {
            Ok(_) => Ok(()),
            Err(_) => Err(AllocError),
        }
    }

    /// Notes that this row stood at the tag. What comes to stand there stays as it was noted.
    pub fn note_old(&mut self, tag: Tag, row: Row) -> Result<(), AllocError>
        ensures { OnOk result (self.new ≡ finite.insert self.old tag
            (record { old = Some row; new = new_of (finite.get self.old tag) })) }
    {
        let new = new_row(self.take(tag));
        let old = Some(row);
        self.put(tag, Note { old, new })
    }

    /// Notes that this row comes to stand at the tag. What stood there stays as it was noted.
    pub fn note_new(&mut self, tag: Tag, row: Row) -> Result<(), AllocError>
        ensures { OnOk result (self.new ≡ finite.insert self.old tag
            (record { old = old_of (finite.get self.old tag); new = Some row })) }
    {
        let old = old_row(self.take(tag));
        let new = Some(row);
        self.put(tag, Note { old, new })
    }

    /// Notes a row that goes from the tag, or else one that comes there, behind what is noted: what stood there stays
    /// as it was first noted.
    pub fn note(&mut self, goes: bool, tag: Tag, row: Row) -> Result<(), AllocError>
        ensures { OnOk result (self.new ≡ finite.insert self.old tag
            (then_change (finite.get self.old tag) (moved goes row))) }
    {
        let noted = self.take(tag);
        self.put(tag, then(noted, move_of(goes, row)))
    }

    /// Notes that a row takes the place of another at the tag, behind what is noted: what stood there stays as it was
    /// first noted.
    pub fn note_both(&mut self, tag: Tag, old: Row, new: Row) -> Result<(), AllocError>
        ensures { OnOk result (self.new ≡ finite.insert self.old tag
            (then_change (finite.get self.old tag) (record { old = Some old; new = Some new }))) }
    {
        let noted = self.take(tag);
        let both = Note {
            old: Some(old),
            new: Some(new),
        };
        self.put(tag, then(noted, both))
    }

    /// The changes that are noted.
    pub fn into_delta(self) -> Result<Delta, AllocError>
        ensures { IfOk result (λ d. d ≡ leaned same_row self) }
    {
        let Notes { alloc, notes } = self;
        let mut entries = Vec::new(alloc);
        for (tag, note) in notes {
            push_change(&mut entries, tag, note.old, note.new)?;
        }
        Ok(Delta::from_entries(entries))
    }
}
