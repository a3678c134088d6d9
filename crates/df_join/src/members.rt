//! The rows of one side of a join by their keys, and what they will be.
ghost use Rattle.std.specs.Prelude.{◌≡◌, ℕ, ◌+◌, ◌*◌, ◌≤◌, ◌<◌, ◌^◌, ◌==◌, ◌||◌, List, Option, Some, T, cond, None, OnOk, IfOk};
ghost use Rattle.std.specs.Option.{option_copied};
ghost use Rattle.std.specs.FinMap as finite;
ghost use Rattle.indexmap.specs.IndexMap.{get, spare, index_map_len, IsUnchanged};
ghost use Rattle.df_value.specs.Rows.{row_eq};
ghost use Rattle.df_column.specs.Changes.{set_at, applied};
ghost use Rattle.df_column.specs.Tables.{TaggedRows, new_row_fits};
ghost use Rattle.df_delta.specs.Differences.{Fits};
ghost use Rattle.df_delta.specs.RowKeys.{key_cells};
ghost use Rattle.df_join.specs.Keyed.{IsGroup, IsIndexOf, LeadsTo, group_of, state_of, table_or, table_or_none, unless_empty};
ghost use Rattle.df_join.specs.Probes.{Grows, all_probes, change_probes, is_staged, nothing_staged, probes_over, stage_probes, with_key, with_keys};
ghost use Rattle.df_join.specs.RowNotes.{CanMove, NewFit, row_after, without};
ghost use Rattle.df_join.specs.Rules.{Cells};

use crate::keyed::KeyedTables;
use crate::tree_table::TreeTable;
use df_column::{Entry, Tag};
use df_delta::{Delta, RowKey};
use df_expr::Counter;
use df_value::{Duplicate, Row, Schema};
use std::alloc::{AllocError, Global};

/// The rows of one side, a table for each key that has one.
pub struct Members {
    alloc: Global,
    empty: TreeTable,
    keyed: KeyedTables,
}

// A body that owns one drops it by a call.
impl Drop for Members {
    fn drop(self) {
        let Members {
            alloc: _,
            empty,
            keyed,
        } = self;
        drop(empty);
        drop(keyed);
    }
}

/// Takes the row that goes out of the table, or puts the one that comes there.
fn edit_by(
    alloc: Global,
    table: &mut TreeTable,
    goes: bool,
    tag: Tag,
    row: &Row,
) -> Result<(), AllocError>
    ensures { OnOk result (table.new ≡ record { schema = table.old.schema; rows = set_at table.old.rows tag (row_after goes row.now) }) }
{
    if goes {
        table.take(alloc, tag)
    } else {
        table.put(alloc, tag, row.copy(alloc)?)
    }
}

/// The same, and answers whether the table has no other row.
fn move_row(
    alloc: Global,
    table: &mut TreeTable,
    goes: bool,
    tag: Tag,
    row: &Row,
) -> Result<bool, AllocError>
    ensures table { OnOk result (table.new ≡ record { schema = table.old.schema; rows = set_at table.old.rows tag (row_after goes row.now) }) }
    ensures alone { IfOk result (λ alone. alone ≡ (finite.len (without goes table.old.rows tag) == 0)) }
{
    let was_empty = table.is_empty();
    edit_by(alloc, table, goes, tag, row)?;
    Ok(if goes { table.is_empty() } else { was_empty })
}

impl Members {
    /// No rows, of this schema.
    pub fn new(alloc: Global, schema: &Schema) -> Result<Members, AllocError>
        ensures schema { IfOk result (λ m. m.empty.schema ≡ schema.now) }
        ensures over { IfOk result (λ m. (indices : List (Option ℕ)) → IsIndexOf indices m finite.empty) }
    {
        Ok(Members {
            alloc,
            empty: TreeTable::new(alloc, schema.copy(alloc)?)?,
            keyed: KeyedTables::new(alloc),
        })
    }

    /// The rows of the key. Makes one probe.
    pub fn look(&self, key: RowKey<'_>, probes: &mut Counter) -> Option<&TreeTable>
        requires { probes.old + 1 < 2 ^ 128 }
        ensures table { option_copied result ≡ get row_eq self.now.keyed.tables (key_cells key.entry) }
        ensures counted { probes.new ≡ probes.old + 1 }
    {
        self.keyed.look(key, probes)
    }

    /// The rows of the key as they are. Makes one probe.
    fn kept_table(&self, key: RowKey<'_>, probes: &mut Counter) -> Result<TreeTable, AllocError>
        requires { probes.old + 1 < 2 ^ 128 }
        ensures table { IfOk result (λ t. t ≡ table_or self.now.empty (get row_eq self.now.keyed.tables (key_cells key.entry))) }
        ensures counted { probes.new ≡ probes.old + 1 }
    {
        match self.keyed.look(key, probes) {
            Some(table) => table.share(self.alloc),
            None => self.empty.share(self.alloc),
        }
    }

    /// Makes a table without rows one that is of the schema.
    fn give_schema(&self, table: &mut TreeTable) -> Result<(), AllocError>
        ensures { OnOk result (table.new ≡ table_or self.now.empty (unless_empty table.old)) }
    {
        if table.is_empty() {
            *table = self.empty.share(self.alloc)?;
        }
        Ok(())
    }

    /// Takes the row out of its key's rows, or puts it there. Answers whether the key has no other row.
    fn stage_in_key(
        &self,
        staged: &mut KeyedTables,
        goes: bool,
        tag: Tag,
        row: &Row,
        key: RowKey<'_>,
        probes: &mut Counter,
    ) -> Result<bool, AllocError>
        requires { probes.old + 2 < 2 ^ 128 }
        ensures states { OnOk result ((g : TaggedRows) → IsGroup self.now staged.old (key_cells key.entry) g
            → T (new_row_fits self.now.empty.schema (row_after goes row.now))
            → (k : Cells) → state_of self.now.keyed.tables staged.new.tables k
            ≡ cond (row_eq (key_cells key.entry) k) (table_or_none self.now.empty.schema (set_at g tag (row_after goes row.now)))
            (state_of self.now.keyed.tables staged.old.tables k)) }
        ensures alone { IfOk result (λ alone. (g : TaggedRows) → IsGroup self.now staged.old (key_cells key.entry) g
            → T (new_row_fits self.now.empty.schema (row_after goes row.now))
            → alone ≡ (finite.len (without goes g tag) == 0)) }
        ensures exact { probes.new ≡ probes.old + probes_over (is_staged staged.old (key_cells key.entry)) }
        ensures touched { OnOk result ((k : Cells) → is_staged staged.new k ≡ (row_eq (key_cells key.entry) k || is_staged staged.old k)) }
        ensures counted { Grows probes.old probes.new 2 }
    {
        probes.raise();
        if let Some(table) = staged.tables.get_mut(key) {
            self.give_schema(table)?;
            return move_row(self.alloc, table, goes, tag, row);
        }
        let mut table = self.kept_table(key, probes)?;
        let alone = move_row(self.alloc, &mut table, goes, tag, row)?;
        staged.put(self.alloc, key, table)?;
        Ok(alone)
    }

    /// Stages a row of this key that goes or comes. Answers whether the key has no other row. Makes at most two probes.
    pub fn stage_row(
        &self,
        staged: &mut KeyedTables,
        goes: bool,
        tag: Tag,
        row: &Row,
        key: RowKey<'_>,
        probes: &mut Counter,
    ) -> Result<bool, AllocError>
        requires { probes.old + 2 < 2 ^ 128 }
        ensures leads { OnOk result ((indices : List (Option ℕ)) (t : TaggedRows)
            → CanMove self.now.empty.schema indices goes tag row.now (key_cells key.entry) t
            → LeadsTo indices self.now staged.old t
            → LeadsTo indices self.now staged.new (set_at t tag (row_after goes row.now))) }
        ensures alone { IfOk result (λ alone. (indices : List (Option ℕ)) (t : TaggedRows)
            → CanMove self.now.empty.schema indices goes tag row.now (key_cells key.entry) t
            → LeadsTo indices self.now staged.old t
            → alone ≡ (finite.len (group_of indices (key_cells key.entry) (without goes t tag)) == 0)) }
        ensures exact { probes.new ≡ probes.old + probes_over (is_staged staged.old (key_cells key.entry)) }
        ensures touched { OnOk result ((k : Cells) → is_staged staged.new k ≡ (row_eq (key_cells key.entry) k || is_staged staged.old k)) }
        ensures counted { Grows probes.old probes.new 2 }
    {
        self.stage_in_key(staged, goes, tag, row, key, probes)
    }

    /// Stages the row that goes or comes, where there is one.
    fn stage_option(
        &self,
        indices: &[Option<usize>],
        staged: &mut KeyedTables,
        goes: bool,
        tag: Tag,
        row: &Option<Row>,
        probes: &mut Counter,
    ) -> Result<(), AllocError>
        requires { probes.old + 2 < 2 ^ 128 }
        ensures leads { OnOk result ((t : TaggedRows) → finite.get t tag ≡ cond goes row.now None
            → T (new_row_fits self.now.empty.schema (cond goes None row.now))
            → LeadsTo indices.now self.now staged.old t
            → LeadsTo indices.now self.now staged.new (set_at t tag (cond goes None row.now))) }
        ensures touched { OnOk result (is_staged staged.new ≡ with_key indices.now row.now (is_staged staged.old)) }
        ensures exact { OnOk result (probes.new ≡ probes.old + stage_probes indices.now (is_staged staged.old) row.now) }
        ensures counted { Grows probes.old probes.new 2 }
    {
        match row {
            Some(row) => {
                let key = RowKey { indices, row };
                self.stage_row(staged, goes, tag, row, key, probes)?;
                Ok(())
            }
            None => Ok(()),
        }
    }

    /// Stages one change of the side.
    fn stage_entry(
        &self,
        indices: &[Option<usize>],
        staged: &mut KeyedTables,
        entry: &Entry,
        probes: &mut Counter,
    ) -> Result<(), AllocError>
        requires { probes.old + 4 < 2 ^ 128 }
        ensures leads { OnOk result ((t : TaggedRows) → finite.get t entry.now.tag ≡ entry.now.old
            → T (new_row_fits self.now.empty.schema entry.now.new)
            → LeadsTo indices.now self.now staged.old t
            → LeadsTo indices.now self.now staged.new (set_at t entry.now.tag entry.now.new)) }
        ensures touched { OnOk result (is_staged staged.new
            ≡ with_key indices.now entry.now.new (with_key indices.now entry.now.old (is_staged staged.old))) }
        ensures exact { OnOk result (probes.new ≡ probes.old
            + change_probes indices.now (stage_probes indices.now) (is_staged staged.old) entry.now.old entry.now.new) }
        ensures counted { Grows probes.old probes.new 4 }
    {
        self.stage_option(indices, staged, true, entry.tag, &entry.old, probes)?;
        self.stage_option(indices, staged, false, entry.tag, &entry.new, probes)
    }

    /// What the members will be after the changes. Makes at most four probes for each of them.
    pub fn stage_all(
        &self,
        indices: &[Option<usize>],
        delta: &Delta,
        probes: &mut Counter,
    ) -> Result<KeyedTables, AllocError>
        requires { probes.old + 2 ^ 66 < 2 ^ 128 }
        ensures leads { IfOk result (λ staged. (t : TaggedRows) → IsIndexOf indices.now self.now t
            → Fits t delta.now → NewFit self.now.empty.schema (finite.entries delta.now)
            → LeadsTo indices.now self.now staged (applied t delta.now)) }
        ensures within { probes.new ≤ probes.old + 2 ^ 66 }
        ensures touched { IfOk result (λ staged. is_staged staged
            ≡ with_keys indices.now nothing_staged (finite.entries delta.now)) }
        ensures exact { OnOk result (probes.new ≡ probes.old
            + all_probes indices.now (stage_probes indices.now) nothing_staged (finite.entries delta.now)) }
        ensures counted { Grows probes.old probes.new (4 * finite.len delta.now) }
    {
        let mut staged = KeyedTables::new(self.alloc);
        for entry in delta.entries() {
            self.stage_entry(indices, &mut staged, entry, probes)?;
        }
        Ok(staged)
    }

    /// Makes the room that `put_all` needs.
    pub fn make_room(&mut self, staged: &KeyedTables) -> Result<(), AllocError>
        ensures empty { self.new.empty ≡ self.old.empty }
        ensures tables { IsUnchanged self.old.keyed.tables self.new.keyed.tables }
        ensures room { OnOk result (index_map_len staged.now.tables ≤ spare self.new.keyed.tables) }
    {
        self.keyed.make_room(staged)
    }

    /// Puts what is staged in place.
    pub fn put_all(&mut self, staged: KeyedTables)
        requires { index_map_len staged.tables ≤ spare self.old.keyed.tables }
        ensures empty { self.new.empty ≡ self.old.empty }
        ensures over { (indices : List (Option ℕ)) (t : TaggedRows)
            → LeadsTo indices self.old staged t → IsIndexOf indices self.new t }
    {
        self.keyed.put_all(staged);
    }
}
