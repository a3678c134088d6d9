//! The groups that a change touches: made beside the index, and put into it.
ghost use Rattle.std.specs.Prelude.{◌≡◌, ◌+◌, ◌<◌, ◌≤◌, ◌^◌, IfOk, List, None, OnOk, cond};
ghost use Rattle.std.specs.Option.{IfSome};
ghost use Rattle.indexmap.specs.IndexMap.{get, index_map_len, spare};
ghost use Rattle.df_value.specs.Rows.{row_eq};
ghost use Rattle.df_value.specs.declared.cell.Cell.{Cell};
ghost use Rattle.df_column.specs.Tables.{AreRising};
ghost use Rattle.df_delta.specs.Work.{IsWithin, plus};
ghost use Rattle.df_group.specs.GroupIndex.{Follows, member_entries, non_empty, staged_after, staged_with, state_of};
ghost use Rattle.df_group.specs.Work.{finishes};

use crate::group::{Group, changed_members, changed_totals, finished_group, row_before};
use crate::grouping::Grouping;
use crate::projection::member_changes;
use df_delta::KeyChanges;
use df_expr::Meter;
use df_value::Row;
use indexmap::IndexMap;
use std::alloc::{AllocError, Global};

/// Stages the key's group after these changes of its rows, unless its members stay as they are.
fn stage_group(
    alloc: Global,
    grouping: &Grouping,
    index: &IndexMap<Row, Group>,
    staged: &mut IndexMap<Row, Group>,
    key: Row,
    changes: KeyChanges,
    meter: &mut Meter,
) -> Result<(), AllocError>
    requires rising { AreRising changes.entries.items }
    requires counts { meter.old.finishes + 1 < 2 ^ 128 }
    ensures staged { OnOk result (Follows grouping.now key (get row_eq index.now key) (member_entries grouping.now changes)
        → (k : List Cell) → get row_eq staged.new k
        ≡ cond (row_eq key k)
        (staged_after grouping.now key (get row_eq index.now key) (member_entries grouping.now changes) (get row_eq staged.old k))
        (get row_eq staged.old k)) }
    ensures grows { IsWithin meter.old meter.new }
    ensures counted { IsWithin meter.new (plus meter.old (finishes 1)) }
{
    let changes = member_changes(alloc, &grouping.members.indices, changes)?;
    if changes.entries.is_empty() {
        return Ok(());
    }
    let now = index.get(&key);
    let members = changed_members(alloc, grouping, now, &changes)?;
    let totals = changed_totals(alloc, grouping, &key, now, &changes, &members)?;
    let before = row_before(now);
    let entries = &changes.entries;
    let group = finished_group(
        alloc, grouping, &key, before, entries, members, totals, meter,
    )?;
    match staged.insert(key, group) {
        Ok(_) => Ok(()),
        Err(_) => Err(AllocError),
    }
}

/// The groups after these changes of the rows of each key, where members change. Each is finished once.
pub fn stage_all(
    alloc: Global,
    grouping: &Grouping,
    index: &IndexMap<Row, Group>,
    mut changes: IndexMap<Row, KeyChanges>,
    meter: &mut Meter,
) -> Result<IndexMap<Row, Group>, AllocError>
    requires rising { (k : List Cell) → IfSome (get row_eq changes k)
        (λ c. AreRising c.entries.items) }
    requires counts { meter.old.finishes + 2 ^ 64 < 2 ^ 128 }
    ensures staged { IfOk result (λ staged. ((k : List Cell) → IfSome (get row_eq changes k)
        (λ c. Follows grouping.now k (get row_eq index.now k) (member_entries grouping.now c)))
        → (k : List Cell) → get row_eq staged k
        ≡ staged_with grouping.now k (get row_eq index.now k) (get row_eq changes k) None) }
    ensures grows { IsWithin meter.old meter.new }
    ensures within { IsWithin meter.new (plus meter.old (finishes (2 ^ 64))) }
    ensures counted { IsWithin meter.new (plus meter.old (finishes (index_map_len changes))) }
{
    let mut staged = IndexMap::with_capacity(alloc, changes.len())?;
    while let Some((key, key_changes)) = changes.pop() {
        stage_group(alloc, grouping, index, &mut staged, key, key_changes, meter)?;
    }
    Ok(staged)
}

/// Puts the group into the index, or takes its key out where it has no member.
fn put_group(index: &mut IndexMap<Row, Group>, key: Row, group: Group)
    requires { 0 < spare index.old }
    ensures state { (k : List Cell) → get row_eq index.new k
        ≡ cond (row_eq key k) (non_empty group) (get row_eq index.old k) }
    ensures room { spare index.old ≤ spare index.new + 1 }
{
    if group.members.len() == 0 {
        take_out(index, &key);
    } else {
        let _ = index.insert(key, group);
    }
}

/// Takes the key out of the index.
fn take_out(index: &mut IndexMap<Row, Group>, key: &Row)
    ensures state { (k : List Cell) → get row_eq index.new k
        ≡ cond (row_eq key.now k) None (get row_eq index.old k) }
    ensures room { spare index.old ≤ spare index.new }
{
    let _ = index.swap_remove(key);
}

/// Puts each staged group into the index.
pub fn put_all(index: &mut IndexMap<Row, Group>, mut staged: IndexMap<Row, Group>)
    requires { index_map_len staged ≤ spare index.old }
    ensures { (k : List Cell) → get row_eq index.new k ≡ state_of index.old staged k }
{
    while let Some((key, group)) = staged.pop() {
        put_group(index, key, group);
    }
}
