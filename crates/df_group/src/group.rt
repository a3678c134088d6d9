//! The groups of keys: their members, and their finished rows.
ghost use Rattle.std.specs.Prelude.{◌≡◌, ◌+◌, ◌<◌, ◌≤◌, ◌^◌, IfOk, List, OnOk, Some, cond, option_map};
ghost use Rattle.std.specs.Option.{IfSome, option_copied};
ghost use Rattle.std.specs.FinMap as finite;
ghost use Rattle.indexmap.specs.IndexMap.{get, index_map_len, spare};
ghost use Rattle.df_value.specs.Rows.{row_eq};
ghost use Rattle.df_value.specs.declared.cell.Cell.{Cell};
ghost use Rattle.df_column.specs.Tables.{AreRising, after_entries, new_rows_fit};
ghost use Rattle.df_delta.specs.Work.{IsWithin, plus};
ghost use Rattle.df_group.specs.GroupIndex as index_spec;
ghost use Rattle.df_group.specs.GroupIndex.{Follows, IsRowBefore, edited_table, group_with, members_now, totals_of};
ghost use Rattle.df_group.specs.Work.{finishes};

use crate::grouping::Grouping;
use crate::total::{Total, moved_totals};
use df_column::{Entry, Table};
use df_delta::KeyChanges;
use df_expr::Meter;
use df_value::{Duplicate, List, Row};
use indexmap::IndexMap;
use std::alloc::{AllocError, Global};

/// The members of one key, at the tags of their rows, each with the cells that are kept of its row; a running total of
/// them for each aggregate; and the key's row of the output.
pub struct Group {
    pub members: Table,
    pub totals: List<Total>,
    pub row: Row,
}

// A body that owns one drops it by a call.
impl Drop for Group {
    fn drop(self) {
        let Group {
            members,
            totals,
            row,
        } = self;
        drop(members);
        drop(totals);
        drop(row);
    }
}

/// The table after the changes of these entries, if they fit its schema.
fn edit_table(alloc: Global, table: &Table, entries: &[Entry]) -> Result<Table, AllocError>
    requires { AreRising entries.now }
    ensures { IfOk result (λ t. t ≡ edited_table table.now entries.now) }
{
    table.edited(alloc, entries)
}

/// The members of a group after these changes; those of no group are none.
pub fn changed_members(
    alloc: Global,
    grouping: &Grouping,
    group: Option<&Group>,
    changes: &KeyChanges,
) -> Result<Table, AllocError>
    requires { AreRising changes.now.entries.items }
    ensures { IfOk result (λ t. t ≡ edited_table
        (members_now grouping.now (option_copied group.entry)) changes.now.entries.items) }
{
    match group {
        Some(group) => edit_table(alloc, &group.members, &changes.entries),
        None => {
            let none = Table::new(alloc, grouping.members.schema.copy(alloc)?)?;
            edit_table(alloc, &none, &changes.entries)
        }
    }
}

/// The totals of the key's group after these changes, which lead to these members.
pub fn changed_totals(
    alloc: Global,
    grouping: &Grouping,
    key: &Row,
    group: Option<&Group>,
    changes: &KeyChanges,
    members: &Table,
) -> Result<List<Total>, AllocError>
    ensures { IfOk result (λ ts. Follows grouping.now key.now (option_copied group.entry) changes.now.entries.items
        → members.now ≡ edited_table (members_now grouping.now (option_copied group.entry)) changes.now.entries.items
        → ts ≡ totals_of grouping.now (finite.values members.now.rows)) }
{
    match group {
        Some(group) => moved_totals(alloc, group.totals.as_slice(), &changes.entries, members),
        None => {
            let none = grouping.no_totals(alloc)?;
            moved_totals(alloc, none.as_slice(), &changes.entries, members)
        }
    }
}

/// The row of a group, if there is one.
pub fn row_before<'a>(group: Option<&'a Group>) -> Option<&'a Row>
    ensures { option_copied result ≡ option_map (λ g. g.row) (option_copied group.entry) }
{
    match group {
        Some(group) => Some(&group.row),
        None => None,
    }
}

/// The group of these members and their totals, with its row. The entries lead to the members from those of the row
/// before, if there was one.
pub fn finished_group(
    alloc: Global,
    grouping: &Grouping,
    key: &Row,
    before: Option<&Row>,
    entries: &[Entry],
    members: Table,
    totals: List<Total>,
    meter: &mut Meter,
) -> Result<Group, AllocError>
    requires { meter.old.finishes + 1 < 2 ^ 128 }
    ensures group { IfOk result (λ g. totals ≡ totals_of grouping.now (finite.values members.rows)
        → IfSome (option_copied before.entry)
        (λ row. IsRowBefore grouping.now key.now row entries.now (finite.values members.rows))
        → g ≡ group_with grouping.now key.now members) }
    ensures counted { meter.new ≡ plus meter.old (finishes 1) }
{
    meter.finishes.raise();
    let row = grouping.finished_row(alloc, key, before, entries, &members, totals.as_slice())?;
    Ok(Group {
        members,
        totals,
        row,
    })
}
