//! Notes of changed right rows, over the left side as it is.
ghost use Rattle.std.specs.Prelude.{◌≡◌, ◌+◌, ◌*◌, ◌≤◌, ◌<◌, ◌^◌, ◌||◌, T, OnOk, None, Some, cond, true};
ghost use Rattle.std.specs.Option.{option_copied};
ghost use Rattle.std.specs.FinMap as finite;
ghost use Rattle.df_column.specs.Changes.{set_at, applied};
ghost use Rattle.df_column.specs.Tables.{TaggedRows, new_row_fits};
ghost use Rattle.df_delta.specs.Differences.{Fits};
ghost use Rattle.df_delta.specs.RowKeys as row_keys;
ghost use Rattle.df_ops.specs.Groups.{key_of as key_cells};
ghost use Rattle.df_join.specs.Keyed.{IsIndexOf, rows_or_empty};
ghost use Rattle.df_join.specs.Probes.{Grows, all_probes, change_probes, is_staged, probes_left, probes_over, right_probes, with_key, with_keys};
ghost use Rattle.df_join.specs.RowNotes.{NewFit, keyed_rows, row_after, row_before};
ghost use Rattle.df_join.specs.Rules.{Cells};
ghost use Rattle.df_value.specs.Rows.{row_eq};
ghost use Rattle.df_join.specs.Sides.{IsRowTag, LeadsOver, is_one};
ghost use Rattle.df_join.specs.Spread.{HasKeys};

use super::LiveJoin;
use super::pairs::tagged_rows;
use crate::keyed::KeyedTables;
use crate::tree_table::TreeTable;
use df_column::{Entry, Tag};
use df_delta::{Delta, Notes, RowKey};
use df_expr::Counter;
use df_value::Row;
use std::alloc::AllocError;

impl LiveJoin {
    /// The table of the left rows of the key, where it is not null. Makes at most one probe.
    fn left_table(&self, key: RowKey<'_>, probes: &mut Counter) -> Option<&TreeTable>
        requires { probes.old + 1 < 2 ^ 128 }
        ensures rows { (l : TaggedRows) → IsIndexOf self.now.rule.indices.left self.now.left l
            → rows_or_empty (option_copied result) ≡ keyed_rows self.now.rule self.now.rule.indices.left (row_keys.key_cells key.entry) l }
        ensures exact { probes.new ≡ probes.old + probes_left self.now.rule (row_keys.key_cells key.entry) }
        ensures counted { Grows probes.old probes.new 1 }
    {
        if self.rule.is_null_key(key) {
            return None;
        }
        self.left.look(key, probes)
    }

    /// Stages a right row that goes or comes, and notes its pairs. Makes at most three probes.
    fn note_right_row(
        &self,
        staged: &mut KeyedTables,
        notes: &mut Notes,
        goes: bool,
        tag: Tag,
        right: &Row,
        probes: &mut Counter,
    ) -> Result<(), AllocError>
        requires { probes.old + 3 < 2 ^ 128 }
        ensures leads { OnOk result ((from l r : TaggedRows) → IsRowTag (is_one self.now.left_scans) tag
            → finite.get r tag ≡ row_before goes right.now
            → T (new_row_fits self.now.right.empty.schema (row_after goes right.now))
            → LeadsOver self.now staged.old notes.old from l r
            → LeadsOver self.now staged.new notes.new from l (set_at r tag (row_after goes right.now))) }
        ensures exact { OnOk result (probes.new ≡ probes.old
            + (probes_over (is_staged staged.old (key_cells self.now.rule.indices.right right.now))
            + probes_left self.now.rule (key_cells self.now.rule.indices.right right.now))) }
        ensures touched { OnOk result ((k : Cells) → is_staged staged.new k
            ≡ (row_eq (key_cells self.now.rule.indices.right right.now) k || is_staged staged.old k)) }
        ensures counted { Grows probes.old probes.new 3 }
    {
        let key = self.rule.right_key(right);
        let alone = self.right.stage_row(staged, goes, tag, right, key, probes)?;
        let left = self.left_table(key, probes);
        let matching = tagged_rows(self.alloc, left)?;
        let lone = self.rule.keeps_alone(alone);
        self.note_right(notes, lone, goes, tag, right, &matching)
    }

    /// Stages a right row in the place of another of its key, and notes their pairs. Makes at most six probes.
    fn note_in_place(
        &self,
        staged: &mut KeyedTables,
        notes: &mut Notes,
        tag: Tag,
        old: &Row,
        new: &Row,
        probes: &mut Counter,
    ) -> Result<(), AllocError>
        requires few { probes.old + 6 < 2 ^ 128 }
        requires same { row_eq (key_cells self.now.rule.indices.right old.now)
            (key_cells self.now.rule.indices.right new.now) ≡ true }
        ensures leads { OnOk result ((from l r : TaggedRows) → IsRowTag (is_one self.now.left_scans) tag
            → finite.get r tag ≡ Some old.now
            → T (new_row_fits self.now.right.empty.schema (Some new.now))
            → LeadsOver self.now staged.old notes.old from l r
            → LeadsOver self.now staged.new notes.new from l (set_at r tag (Some new.now))) }
        ensures touched { OnOk result (is_staged staged.new
            ≡ with_key self.now.rule.indices.right (Some new.now)
            (with_key self.now.rule.indices.right (Some old.now) (is_staged staged.old))) }
        ensures exact { OnOk result (probes.new ≡ probes.old
            + change_probes self.now.rule.indices.right (right_probes self.now.rule)
            (is_staged staged.old) (Some old.now) (Some new.now)) }
        ensures counted { Grows probes.old probes.new 6 }
    {
        let key = self.rule.right_key(old);
        self.right.stage_row(staged, true, tag, old, key, probes)?;
        // The work of a change is that of a row that goes and of one that comes, whatever their keys are.
        let _before = self.left_table(key, probes);
        self.right.stage_row(staged, false, tag, new, key, probes)?;
        let table = self.left_table(key, probes);
        let matching = tagged_rows(self.alloc, table)?;
        self.note_replaced(notes, tag, old, new, &matching)
    }

    /// Stages and notes a right row that goes or comes, where there is one.
    fn note_right_option(
        &self,
        staged: &mut KeyedTables,
        notes: &mut Notes,
        goes: bool,
        tag: Tag,
        row: &Option<Row>,
        probes: &mut Counter,
    ) -> Result<(), AllocError>
        requires { probes.old + 3 < 2 ^ 128 }
        ensures leads { OnOk result ((from l r : TaggedRows) → IsRowTag (is_one self.now.left_scans) tag
            → finite.get r tag ≡ cond goes row.now None
            → T (new_row_fits self.now.right.empty.schema (cond goes None row.now))
            → LeadsOver self.now staged.old notes.old from l r
            → LeadsOver self.now staged.new notes.new from l (set_at r tag (cond goes None row.now))) }
        ensures touched { OnOk result (is_staged staged.new
            ≡ with_key self.now.rule.indices.right row.now (is_staged staged.old)) }
        ensures exact { OnOk result (probes.new ≡ probes.old
            + right_probes self.now.rule (is_staged staged.old) row.now) }
        ensures counted { Grows probes.old probes.new 3 }
    {
        match row {
            Some(row) => self.note_right_row(staged, notes, goes, tag, row, probes),
            None => Ok(()),
        }
    }

    /// Stages and notes one change of the right side.
    fn note_right_entry(
        &self,
        staged: &mut KeyedTables,
        notes: &mut Notes,
        entry: &Entry,
        probes: &mut Counter,
    ) -> Result<(), AllocError>
        requires { probes.old + 6 < 2 ^ 128 }
        ensures leads { OnOk result ((from l r : TaggedRows) → IsRowTag (is_one self.now.left_scans) entry.now.tag
            → finite.get r entry.now.tag ≡ entry.now.old
            → T (new_row_fits self.now.right.empty.schema entry.now.new)
            → LeadsOver self.now staged.old notes.old from l r
            → LeadsOver self.now staged.new notes.new from l (set_at r entry.now.tag entry.now.new)) }
        ensures touched { OnOk result (is_staged staged.new
            ≡ with_key self.now.rule.indices.right entry.now.new
            (with_key self.now.rule.indices.right entry.now.old (is_staged staged.old))) }
        ensures exact { OnOk result (probes.new ≡ probes.old
            + change_probes self.now.rule.indices.right (right_probes self.now.rule)
            (is_staged staged.old) entry.now.old entry.now.new) }
        ensures counted { Grows probes.old probes.new 6 }
    {
        match (&entry.old, &entry.new) {
            (Some(old), Some(new)) if self.rule.is_same_right_key(old, new) => {
                self.note_in_place(staged, notes, entry.tag, old, new, probes)
            }
            _ => {
                self.note_right_option(staged, notes, true, entry.tag, &entry.old, probes)?;
                self.note_right_option(staged, notes, false, entry.tag, &entry.new, probes)
            }
        }
    }

    /// Stages and notes all changes of the right side. Makes at most six probes for each.
    pub fn note_right_all(
        &self,
        staged: &mut KeyedTables,
        notes: &mut Notes,
        delta: &Delta,
        probes: &mut Counter,
    ) -> Result<(), AllocError>
        requires { probes.old + 2 ^ 67 < 2 ^ 128 }
        ensures leads { OnOk result ((from l r : TaggedRows) → HasKeys (IsRowTag (is_one self.now.left_scans)) delta.now
            → Fits r delta.now → NewFit self.now.right.empty.schema (finite.entries delta.now)
            → LeadsOver self.now staged.old notes.old from l r
            → LeadsOver self.now staged.new notes.new from l (applied r delta.now)) }
        ensures touched { OnOk result (is_staged staged.new
            ≡ with_keys self.now.rule.indices.right (is_staged staged.old) (finite.entries delta.now)) }
        ensures within { probes.new ≤ probes.old + 2 ^ 67 }
        ensures exact { OnOk result (probes.new ≡ probes.old
            + all_probes self.now.rule.indices.right (right_probes self.now.rule)
            (is_staged staged.old) (finite.entries delta.now)) }
        ensures counted { Grows probes.old probes.new (6 * finite.len delta.now) }
    {
        for entry in delta.entries() {
            self.note_right_entry(staged, notes, entry, probes)?;
        }
        Ok(())
    }
}
