//! Deltas: changes of the rows of a table, by rising tags.
ghost use Rattle.std.specs.Prelude.{◌≡◌, IfOk, IfSome, MatchResult, false, length, map};
ghost use Rattle.std.specs.Arc.{arc_value};
ghost use Rattle.std.specs.FinMap as finite;
ghost use Rattle.df_column.specs.Changes.{applied};
ghost use Rattle.df_column.specs.Tables.{entry_change};
ghost use Rattle.df_delta.specs.Deltas.{IsDelta, RowsFit, is_delta};
ghost use Rattle.df_delta.specs.Differences.{IsDiff};

use crate::entries::{are_changes, whole_entries};
use df_column::{Entry, Table};
use df_value::{Duplicate, Schema};
use std::alloc::{AllocError, Global};
use std::marker::Model;
use std::sync::Arc;

// So many rows come in blocks of their own: as many as one block has.
const LEAST_ROWS_IN_BLOCKS: usize = 128;

/// Changes of the rows of a table, by rising tags. Each names what stood at the tag and what stands there afterwards,
/// at least one of the two being a row.
///
/// It may have the rows that it makes in an empty table as such a table, whose blocks are then shared by the tables that
/// it is [applied](apply) to. Contracts see the changes alone.
pub struct Delta {
    entries: Vec<Entry>,
    made: Option<Arc<Table>>,
}

// A body that owns one drops it by a call.
impl Drop for Delta {
    fn drop(self) {
        let Delta { entries, made } = self;
        drop(entries);
        drop(made);
    }
}

impl Model for Delta {
    ghost use Rattle.std.specs.Prelude.{◌≡◌, IfSome, map};
    ghost use Rattle.std.specs.Arc.{arc_value};
    ghost use Rattle.std.specs.FinMap as finite;
    ghost use Rattle.df_column.specs.Changes.{applied};
    ghost use Rattle.df_column.specs.Tables.{entry_change};
    ghost use Rattle.df_delta.specs.Deltas.{Changes, IsDelta, changes_code};

    ghost Value = { Changes };

    ghost coded = { changes_code };

    ghost view = { λ d. finite.from_sorted (map entry_change d.entries.items) };

    ghost invariant = { λ d. IsDelta d.entries.items
        × IfSome d.made (λ t. (arc_value t).rows
        ≡ applied finite.empty (finite.from_sorted (map entry_change d.entries.items))) };
}

impl Delta {
    /// The delta of these entries. They come back where their tags do not rise, or one has neither row.
    pub fn new(entries: Vec<Entry>) -> Result<Delta, Vec<Entry>>
        ensures made { MatchResult result
            (λ d. d ≡ finite.from_sorted (map entry_change entries.items))
            (λ back. back.items ≡ entries.items) }
        ensures exact { MatchResult result (λ _. IsDelta entries.items)
            (λ _. is_delta entries.items ≡ false) }
    {
        if !are_changes(&entries) {
            return Err(entries);
        }
        Ok(Delta::from_entries(entries))
    }

    /// The delta of these entries.
    pub fn from_entries(entries: Vec<Entry>) -> Delta
        requires { IsDelta entries.items }
        ensures { result ≡ finite.from_sorted (map entry_change entries.items) }
    {
        Delta {
            entries,
            made: None,
        }
    }

    /// The delta that names no tag.
    pub fn empty(alloc: Global) -> Delta
        ensures { result ≡ finite.empty }
    {
        Delta {
            entries: Vec::new(alloc),
            made: None,
        }
    }

    /// The delta that leads from no rows to those of this table.
    pub fn whole(alloc: Global, table: &Table) -> Result<Delta, AllocError>
        ensures { IfOk result (IsDiff finite.empty table.now.rows) }
    {
        let made = Arc::new(alloc, table.share(alloc)?)?;
        let entries = whole_entries(alloc, table)?;
        Ok(Delta {
            entries,
            made: Some(made),
        })
    }

    /// The same delta, with a table of the rows that it makes in an empty one.
    pub fn with_table(self, table: Arc<Table>) -> Delta
        requires { (arc_value table).rows ≡ applied finite.empty self }
        ensures { result ≡ self }
    {
        let Delta { entries, made } = self;
        drop(made);
        Delta {
            entries,
            made: Some(table),
        }
    }

    /// The same delta. Where many rows come and they fit this schema, it has them in blocks, which are made once for all tables
    /// that it is applied to.
    pub fn in_blocks(self, alloc: Global, schema: &Schema) -> Result<Delta, AllocError>
        ensures { IfOk result (λ d. d ≡ self) }
    {
        match blocks_of(alloc, schema, &self) {
            Ok(Some(table)) => Ok(self.with_table(table)),
            Ok(None) => Ok(self),
            Err(refused) => {
                drop(self);
                Err(refused)
            }
        }
    }

    /// The changes by rising tags.
    pub fn entries(&self) -> &[Entry]
        ensures all { map entry_change result.now ≡ finite.entries self.now }
        ensures len { length result.now ≡ finite.len self.now }
        ensures sound { IsDelta result.now }
    {
        &self.entries
    }

    /// The changes by rising tags, taken out of the delta.
    pub fn into_entries(self) -> Vec<Entry>
        ensures all { map entry_change result.items ≡ finite.entries self }
        ensures sound { IsDelta result.items }
    {
        let Delta { entries, made } = self;
        drop(made);
        entries
    }

    /// The number of changes.
    pub fn len(&self) -> usize
        ensures { result ≡ finite.len self.now }
    {
        self.entries().len()
    }
}

// A table of the rows that the delta makes in an empty one of this schema, where many come and they fit.
fn blocks_of(
    alloc: Global,
    schema: &Schema,
    delta: &Delta,
) -> Result<Option<Arc<Table>>, AllocError>
    ensures { IfOk result (λ o. IfSome o (λ table.
        (arc_value table).rows ≡ applied finite.empty delta.now)) }
{
    if delta.made.is_some() || !many_come(delta.entries()) {
        return Ok(None);
    }
    let none = Table::new(alloc, schema.copy(alloc)?)?;
    let made = none.edited(alloc, delta.entries())?;
    // Rows that do not fit leave the table as it was.
    if made.is_empty() {
        return Ok(None);
    }
    Ok(Some(Arc::new(alloc, made)?))
}

// Whether many rows come, the first and the last of them where none stood.
fn many_come(entries: &[Entry]) -> bool {
    entries.len() >= LEAST_ROWS_IN_BLOCKS
        && entries[0].old.is_none()
        && entries[entries.len() - 1].old.is_none()
}

/// The table after these changes: at each tag that they name stands the new row, or nothing. It shares the blocks
/// without a change, and those that the delta has where [`Table::edited_with`] can take them, which no clause says.
///
/// The schema is asked of the rows that it gives: where one of them does not fit, the call promises no more than that
/// the schema stays.
pub fn apply(alloc: Global, table: &Table, delta: &Delta) -> Result<Table, AllocError>
    ensures schema { IfOk result (λ t. t.schema ≡ table.now.schema) }
    ensures rows { RowsFit table.now.schema (applied table.now.rows delta.now)
        → IfOk result (λ t. t.rows ≡ applied table.now.rows delta.now) }
{
    match &delta.made {
        Some(made) => table.edited_with(alloc, delta.entries(), made),
        None => table.edited(alloc, delta.entries()),
    }
}
