//! The delta of a tree's output.
ghost use Rattle.std.specs.Prelude.{◌≡◌, IfOk};

use df_column::Entry;
use df_delta::Delta;
use df_value::{Duplicate, Row};
use std::alloc::{AllocError, Global};
use std::marker::Model;

/// The delta of a tree's output under a given delta of a frame. Where the tree scans that frame it is the given one, which is
/// lent. Contracts see the changes.
pub struct TreeDelta<'a> {
    given: &'a Delta,
    made: Option<Delta>,
}

// A body that owns one drops it by a call.
impl Drop for TreeDelta<'_> {
    fn drop(self) {
        let TreeDelta { given: _, made } = self;
        drop(made);
    }
}

impl<'a> Model for TreeDelta<'a> {
    ghost use Rattle.std.specs.Prelude.{unwrap_or};
    ghost use Rattle.df_delta.specs.Deltas.{Changes, changes_code};

    ghost Value = { Changes };

    ghost coded = { changes_code };

    ghost view = { λ d. unwrap_or d.made d.given.now };
}

impl<'a> TreeDelta<'a> {
    /// The given delta itself.
    pub fn lent(given: &'a Delta) -> TreeDelta<'a>
        ensures { result ≡ given.now }
    {
        TreeDelta { given, made: None }
    }

    /// What was made under a given delta.
    pub fn made(given: &'a Delta, changes: Delta) -> TreeDelta<'a>
        ensures { result ≡ changes }
    {
        TreeDelta {
            given,
            made: Some(changes),
        }
    }

    /// The delta.
    pub fn get(&self) -> &Delta
        ensures { result.now ≡ self.now }
    {
        match &self.made {
            Some(changes) => changes,
            None => self.given,
        }
    }

    /// The delta, a copy of it where it is lent.
    pub fn into_own(self, alloc: Global) -> Result<Delta, AllocError>
        ensures { IfOk result (λ d. d ≡ self.entry) }
    {
        let TreeDelta { given, made } = self;
        match made {
            Some(changes) => Ok(changes),
            None => copy_of(alloc, given),
        }
    }
}

/// An equal delta.
fn copy_of(alloc: Global, delta: &Delta) -> Result<Delta, AllocError>
    ensures { IfOk result (λ d. d ≡ delta.now) }
{
    let entries = copies_of(alloc, delta.entries())?;
    Ok(Delta::from_entries(entries))
}

fn copies_of(alloc: Global, entries: &[Entry]) -> Result<Vec<Entry>, AllocError>
    ensures { IfOk result (λ copies. copies.items ≡ entries.now) }
{
    let mut copies = Vec::with_capacity(alloc, entries.len())?;
    for entry in entries {
        copies.push(copy_of_entry(alloc, entry)?)?;
    }
    Ok(copies)
}

fn copy_of_entry(alloc: Global, entry: &Entry) -> Result<Entry, AllocError>
    ensures { IfOk result (λ copy. copy ≡ entry.now) }
{
    let old = copy_of_row(alloc, &entry.old)?;
    let new = copy_of_row(alloc, &entry.new)?;
    Ok(Entry {
        tag: entry.tag,
        old,
        new,
    })
}

fn copy_of_row(alloc: Global, row: &Option<Row>) -> Result<Option<Row>, AllocError>
    ensures { IfOk result (λ copy. copy ≡ row.now) }
{
    match row {
        Some(row) => Ok(Some(row.copy(alloc)?)),
        None => Ok(None),
    }
}
