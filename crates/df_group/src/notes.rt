//! Notes of the rows that groups had and get.
ghost use Rattle.std.specs.Prelude.{◌≡◌, ◌++◌, IfOk, OnOk, Some};
ghost use Rattle.std.specs.FinMap as finite;
ghost use Rattle.indexmap.specs.IndexMap.{get, keys};
ghost use Rattle.df_value.specs.Rows.{row_eq};
ghost use Rattle.df_column.specs.Tables.{TaggedRows};
ghost use Rattle.df_column.specs.Tags.{tag_cmp};
ghost use Rattle.df_column.specs.declared.tag.Tag.{Tag};
ghost use Rattle.df_group.specs.GroupIndex.{IsIndexOf, LeadsTo, entry_of, output_at};
ghost use Rattle.df_group.specs.Grouped.{at_tag};
ghost use Rattle.df_group.specs.NotedSides.{both_sides, noted_new, noted_old};
ghost use Rattle.df_group.specs.declared.grouping.Grouping.{Grouping};

use crate::group::Group;
use df_delta::Notes;
use df_value::{Duplicate, Row};
use indexmap::IndexMap;
use std::alloc::{AllocError, Global};

/// Notes the row that the output has of a group.
fn note_old(alloc: Global, notes: &mut Notes, group: &Group) -> Result<(), AllocError>
    ensures { OnOk result ((q : Tag) → finite.get notes.new q ≡ noted_old
        (finite.get notes.old q) (at_tag tag_cmp q (entry_of (Some group.now)))) }
{
    if group.members.is_empty() {
        return Ok(());
    }
    let row = group.row.copy(alloc)?;
    notes.note_old(group.members.tag(0), row)
}

/// Notes the row that the output gets of a group.
fn note_new(alloc: Global, notes: &mut Notes, group: &Group) -> Result<(), AllocError>
    ensures { OnOk result ((q : Tag) → finite.get notes.new q ≡ noted_new
        (finite.get notes.old q) (at_tag tag_cmp q (entry_of (Some group.now)))) }
{
    if group.members.is_empty() {
        return Ok(());
    }
    let row = group.row.copy(alloc)?;
    notes.note_new(group.members.tag(0), row)
}

/// Notes the row that the output has of the key's group, if there is one.
fn note_now(
    alloc: Global,
    index: &IndexMap<Row, Group>,
    notes: &mut Notes,
    key: &Row,
) -> Result<(), AllocError>
    ensures { OnOk result ((q : Tag) → finite.get notes.new q ≡ noted_old
        (finite.get notes.old q) (at_tag tag_cmp q (entry_of (get row_eq index.now key.now)))) }
{
    match index.get(key) {
        Some(group) => note_old(alloc, notes, group),
        None => Ok(()),
    }
}

/// Notes the rows that the output has and gets of the key's group.
fn note_group(
    alloc: Global,
    index: &IndexMap<Row, Group>,
    notes: &mut Notes,
    key: &Row,
    group: &Group,
) -> Result<(), AllocError>
    ensures { OnOk result ((q : Tag) → finite.get notes.new q ≡ noted_new
        (noted_old (finite.get notes.old q) (at_tag tag_cmp q (entry_of (get row_eq index.now key.now))))
        (at_tag tag_cmp q (entry_of (Some group.now)))) }
{
    note_now(alloc, index, notes, key)?;
    note_new(alloc, notes, group)
}

/// Notes the rows that the output has and gets of the staged groups.
pub fn note_all(
    alloc: Global,
    index: &IndexMap<Row, Group>,
    staged: &IndexMap<Row, Group>,
) -> Result<Notes, AllocError>
    ensures { IfOk result (λ notes. (g : Grouping) (t u : TaggedRows) →
        IsIndexOf g index.now t → LeadsTo g index.now staged.now u
        → (q : Tag) → finite.get notes q
        ≡ both_sides (output_at g (keys staged.now) t q) (output_at g (keys staged.now) u q)) }
{
    let mut notes = Notes::new(alloc);
    let mut at = staged.len();
    while at > 0 {
        at -= 1;
        if let Some((key, group)) = staged.get_index(at) {
            note_group(alloc, index, &mut notes, key, group)?;
        }
    }
    Ok(notes)
}
