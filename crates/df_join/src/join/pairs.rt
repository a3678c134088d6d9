//! Notes of pairs, and of left rows alone.
ghost use Rattle.std.specs.Prelude.{◌≡◌, ◌∷◌, [], IfOk, OnOk, Option, Some};
ghost use Rattle.std.specs.Option.{option_copied};
ghost use Rattle.std.specs.FinMap as finite;
ghost use Rattle.df_delta.specs.Notes.{moved};
ghost use Rattle.df_join.specs.Keyed.{rows_or_empty};
ghost use Rattle.df_join.specs.RowNotes.{Noted, left_list, lone_notes, replaced_list, replaced_pair, right_list};
ghost use Rattle.df_join.specs.Rules.{joined_row, keeps_left};
ghost use Rattle.df_join.specs.Sides.{is_one};
ghost use Rattle.df_join.specs.Spread as spread;

use super::LiveJoin;
use crate::tree_table::TreeTable;
use df_column::Tag;
use df_delta::Notes;
use df_value::Row;
use std::alloc::{AllocError, Global};

/// The tag of no row.
const NO_TAG: Tag = Tag {
    first: 0,
    second: 0,
    third: 0,
};

/// The rows of the table with their tags, if there is one.
pub fn tagged_rows(alloc: Global, table: Option<&TreeTable>) -> Result<Vec<(Tag, Row)>, AllocError>
    ensures { IfOk result (λ rows. rows.items ≡ finite.entries (rows_or_empty (option_copied table.entry))) }
{
    match table {
        Some(table) => table.tagged_rows(alloc),
        None => Ok(Vec::new(alloc)),
    }
}

impl LiveJoin {
    /// The tag of a pair.
    fn pair_tag(&self, left: Tag, right: Tag) -> Tag
        ensures { result ≡ spread.combine (is_one self.now.left_scans) left right }
    {
        if self.left_scans == 1 {
            Tag {
                first: left.first,
                second: right.first,
                third: right.second,
            }
        } else {
            Tag {
                first: left.first,
                second: left.second,
                third: right.first,
            }
        }
    }

    /// Notes a pair that goes or comes.
    fn note_pair(
        &self,
        notes: &mut Notes,
        goes: bool,
        tag: Tag,
        left: &Row,
        right: &Row,
    ) -> Result<(), AllocError>
        ensures { OnOk result (Noted notes.old notes.new
            ((tag, moved goes (joined_row self.now.rule left.now (Some right.now))) ∷ [])) }
    {
        let row = self.rule.pair(self.alloc, left, right)?;
        notes.note(goes, tag, row)
    }

    /// Notes a left row alone that goes or comes, where it stays in the join.
    fn note_alone(
        &self,
        notes: &mut Notes,
        stays: bool,
        goes: bool,
        tag: Tag,
        left: &Row,
    ) -> Result<(), AllocError>
        ensures { OnOk result (Noted notes.old notes.new
            (lone_notes self.now.rule (is_one self.now.left_scans) stays goes tag left.now)) }
    {
        if !stays {
            return Ok(());
        }
        let row = self.rule.lone(self.alloc, left)?;
        notes.note(goes, self.pair_tag(tag, NO_TAG), row)
    }

    /// Notes the pairs of a left row that goes or comes beside these right rows, or where there is none the row alone.
    pub fn note_left(
        &self,
        notes: &mut Notes,
        goes: bool,
        tag: Tag,
        left: &Row,
        matching: &[(Tag, Row)],
    ) -> Result<(), AllocError>
        ensures { OnOk result (Noted notes.old notes.new
            (left_list self.now.rule (is_one self.now.left_scans) (keeps_left self.now.rule.how) goes tag left.now matching.now)) }
    {
        if matching.is_empty() {
            return self.note_alone(notes, self.rule.keeps_left(), goes, tag, left);
        }
        for right in matching {
            self.note_pair(notes, goes, self.pair_tag(tag, right.0), left, &right.1)?;
        }
        Ok(())
    }

    /// Notes the pairs of a right row that goes or comes beside these left rows. Where it is the only one of its key,
    /// the left rows alone come or go.
    pub fn note_right(
        &self,
        notes: &mut Notes,
        lone: bool,
        goes: bool,
        tag: Tag,
        right: &Row,
        matching: &[(Tag, Row)],
    ) -> Result<(), AllocError>
        ensures { OnOk result (Noted notes.old notes.new
            (right_list self.now.rule (is_one self.now.left_scans) lone goes tag right.now matching.now)) }
    {
        for left in matching {
            self.note_alone(notes, lone, !goes, left.0, &left.1)?;
            self.note_pair(notes, goes, self.pair_tag(left.0, tag), &left.1, right)?;
        }
        Ok(())
    }

    /// Notes that the pair of a left row with one right row takes the place of that with another.
    fn note_both_pairs(
        &self,
        notes: &mut Notes,
        tag: Tag,
        left: &Row,
        old: &Row,
        new: &Row,
    ) -> Result<(), AllocError>
        ensures { OnOk result (Noted notes.old notes.new
            ((tag, replaced_pair self.now.rule left.now old.now new.now) ∷ [])) }
    {
        let before = self.rule.pair(self.alloc, left, old)?;
        let after = self.rule.pair(self.alloc, left, new)?;
        notes.note_both(tag, before, after)
    }

    /// Notes the pairs of a right row that takes the place of another of its key, beside these left rows. None of them
    /// stands alone before or afterwards.
    pub fn note_replaced(
        &self,
        notes: &mut Notes,
        tag: Tag,
        old: &Row,
        new: &Row,
        matching: &[(Tag, Row)],
    ) -> Result<(), AllocError>
        ensures { OnOk result (Noted notes.old notes.new
            (replaced_list self.now.rule (is_one self.now.left_scans) tag old.now new.now matching.now)) }
    {
        for left in matching {
            self.note_both_pairs(notes, self.pair_tag(left.0, tag), &left.1, old, new)?;
        }
        Ok(())
    }
}
