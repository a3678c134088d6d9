//! Notes of changed left rows, over the right side as it will be.
ghost use Rattle.std.specs.Prelude.{◌≡◌, ◌+◌, ◌*◌, ◌≤◌, ◌<◌, ◌^◌, OnOk, None, cond};
ghost use Rattle.std.specs.Option.{option_copied};
ghost use Rattle.std.specs.FinMap as finite;
ghost use Rattle.df_column.specs.Changes.{set_at, applied};
ghost use Rattle.df_column.specs.Tables.{TaggedRows};
ghost use Rattle.df_delta.specs.Differences.{Fits};
ghost use Rattle.df_delta.specs.RowKeys as row_keys;
ghost use Rattle.df_ops.specs.Groups.{key_of as key_cells};
ghost use Rattle.df_join.specs.Keyed.{LeadsTo, rows_or_empty};
ghost use Rattle.df_join.specs.Probes.{Grows, all_probes, is_staged, note_probes, nothing_staged, probes_right};
ghost use Rattle.df_join.specs.RowNotes.{AreSides, Leads, Noted, joined_by_key, keyed_rows, left_list};
ghost use Rattle.df_join.specs.Rules.{keeps_left};
ghost use Rattle.df_join.specs.Sides.{is_one};
ghost use Rattle.df_join.specs.Spread.{HasKeys, IsLeftTag};

use super::LiveJoin;
use super::pairs::tagged_rows;
use crate::keyed::KeyedTables;
use crate::tree_table::TreeTable;
use df_column::{Entry, Tag};
use df_delta::{Delta, Notes, RowKey};
use df_expr::Counter;
use df_value::Row;
use std::alloc::AllocError;

impl LiveJoin {
    /// The table of the right rows of the key as they will be, where it is not null: as staged, else as it is. Makes at most
    /// two probes.
    fn right_table<'a>(
        &'a self,
        staged: &'a KeyedTables,
        key: RowKey<'_>,
        probes: &mut Counter,
    ) -> Option<&'a TreeTable>
        requires { probes.old + 2 < 2 ^ 128 }
        ensures rows { (r : TaggedRows) → LeadsTo self.now.rule.indices.right self.now.right staged.now r
            → rows_or_empty (option_copied result) ≡ keyed_rows self.now.rule self.now.rule.indices.right (row_keys.key_cells key.entry) r }
        ensures exact { probes.new ≡ probes.old
            + probes_right self.now.rule (row_keys.key_cells key.entry) (is_staged staged.now (row_keys.key_cells key.entry)) }
        ensures counted { Grows probes.old probes.new 2 }
    {
        if self.rule.is_null_key(key) {
            return None;
        }
        match staged.look(key, probes) {
            Some(table) => Some(table),
            None => self.right.look(key, probes),
        }
    }

    /// Notes what a left row gives that goes or comes.
    fn note_left_row(
        &self,
        staged: &KeyedTables,
        notes: &mut Notes,
        goes: bool,
        tag: Tag,
        left: &Row,
        probes: &mut Counter,
    ) -> Result<(), AllocError>
        requires { probes.old + 2 < 2 ^ 128 }
        ensures noted { OnOk result ((r : TaggedRows) → LeadsTo self.now.rule.indices.right self.now.right staged.now r
            → Noted notes.old notes.new
            (left_list self.now.rule (is_one self.now.left_scans) (keeps_left self.now.rule.how) goes tag left.now
            (finite.entries (keyed_rows self.now.rule self.now.rule.indices.right
            (key_cells self.now.rule.indices.left left.now) r)))) }
        ensures exact { OnOk result (probes.new ≡ probes.old
            + probes_right self.now.rule (key_cells self.now.rule.indices.left left.now)
            (is_staged staged.now (key_cells self.now.rule.indices.left left.now))) }
        ensures counted { Grows probes.old probes.new 2 }
    {
        let key = self.rule.left_key(left);
        let table = self.right_table(staged, key, probes);
        let matching = tagged_rows(self.alloc, table)?;
        self.note_left(notes, goes, tag, left, &matching)
    }

    /// Notes what a left row gives that goes or comes, where there is one.
    fn note_left_option(
        &self,
        staged: &KeyedTables,
        notes: &mut Notes,
        goes: bool,
        tag: Tag,
        row: &Option<Row>,
        probes: &mut Counter,
    ) -> Result<(), AllocError>
        requires { probes.old + 2 < 2 ^ 128 }
        ensures leads { OnOk result ((from l r : TaggedRows)
            → AreSides (is_one self.now.left_scans) self.now.rule self.now.right staged.now l r
            → IsLeftTag (is_one self.now.left_scans) tag → finite.get l tag ≡ cond goes row.now None
            → Leads notes.old from (joined_by_key (is_one self.now.left_scans) self.now.rule l r)
            → Leads notes.new from (joined_by_key (is_one self.now.left_scans) self.now.rule
            (set_at l tag (cond goes None row.now)) r)) }
        ensures exact { OnOk result (probes.new ≡ probes.old + note_probes self.now.rule (is_staged staged.now) row.now) }
        ensures counted { Grows probes.old probes.new 2 }
    {
        match row {
            Some(row) => self.note_left_row(staged, notes, goes, tag, row, probes),
            None => Ok(()),
        }
    }

    /// Notes one change of the left side.
    fn note_left_entry(
        &self,
        staged: &KeyedTables,
        notes: &mut Notes,
        entry: &Entry,
        probes: &mut Counter,
    ) -> Result<(), AllocError>
        requires { probes.old + 4 < 2 ^ 128 }
        ensures leads { OnOk result ((from l r : TaggedRows)
            → AreSides (is_one self.now.left_scans) self.now.rule self.now.right staged.now l r
            → IsLeftTag (is_one self.now.left_scans) entry.now.tag → finite.get l entry.now.tag ≡ entry.now.old
            → Leads notes.old from (joined_by_key (is_one self.now.left_scans) self.now.rule l r)
            → Leads notes.new from (joined_by_key (is_one self.now.left_scans) self.now.rule
            (set_at l entry.now.tag entry.now.new) r)) }
        ensures exact { OnOk result (probes.new ≡ probes.old
            + (note_probes self.now.rule (is_staged staged.now) entry.now.old
            + note_probes self.now.rule (is_staged staged.now) entry.now.new)) }
        ensures counted { Grows probes.old probes.new 4 }
    {
        self.note_left_option(staged, notes, true, entry.tag, &entry.old, probes)?;
        self.note_left_option(staged, notes, false, entry.tag, &entry.new, probes)
    }

    /// Notes all changes of the left side. Makes at most four probes for each.
    pub fn note_left_all(
        &self,
        staged: &KeyedTables,
        notes: &mut Notes,
        delta: &Delta,
        probes: &mut Counter,
    ) -> Result<(), AllocError>
        requires { probes.old + 2 ^ 66 < 2 ^ 128 }
        ensures leads { OnOk result ((from l r : TaggedRows)
            → AreSides (is_one self.now.left_scans) self.now.rule self.now.right staged.now l r
            → HasKeys (IsLeftTag (is_one self.now.left_scans)) delta.now → Fits l delta.now
            → Leads notes.old from (joined_by_key (is_one self.now.left_scans) self.now.rule l r)
            → Leads notes.new from
            (joined_by_key (is_one self.now.left_scans) self.now.rule (applied l delta.now) r)) }
        ensures within { probes.new ≤ probes.old + 2 ^ 66 }
        ensures exact { OnOk result (probes.new ≡ probes.old
            + all_probes self.now.rule.indices.left (λ _. note_probes self.now.rule (is_staged staged.now))
            nothing_staged (finite.entries delta.now)) }
        ensures counted { Grows probes.old probes.new (4 * finite.len delta.now) }
    {
        for entry in delta.entries() {
            self.note_left_entry(staged, notes, entry, probes)?;
        }
        Ok(())
    }
}
