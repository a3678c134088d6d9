//! The tags at which a rank looks again.
ghost use Rattle.std.specs.Prelude.{◌≡◌, ◌==◌, ◌++◌, T, IfOk, map, not};
ghost use Rattle.std.specs.Option.{option_copied};
ghost use Rattle.std.specs.FinMap as finite;
ghost use Rattle.std.specs.FinMap.{is_sorted};
ghost use Rattle.df_value.specs.CellOrder.{cell_cmp};
ghost use Rattle.df_column.specs.Changes.{after_changes};
ghost use Rattle.df_counts.specs.Counts.{count_change};
ghost use Rattle.df_ranks.specs.Counts.{RanksStay, SameBelow, changes_weight, weight};
ghost use Rattle.df_ranks.specs.Reach.{Reaches, tags_above_any};

use df_column::{Table, Tag};
use df_counts::Counts;
use df_delta::Delta;
use df_ops::RankKind;
use df_value::Cell;
use std::alloc::{AllocError, Global};
use std::collections::BTreeMap;

/// The least value above which ranks change, if there is one.
pub fn least_change<'a>(
    kind: RankKind,
    old: &Counts,
    new: &Counts,
    rises: &'a BTreeMap<Cell, u64>,
) -> Option<&'a Cell>
    requires sorted { T (is_sorted cell_cmp old.now) }
    requires raised { new.now ≡ after_changes cell_cmp old.now
        (map (count_change old.now) rises.now.entries) }
    ensures { RanksStay kind old.now new.now (option_copied result) }
{
    let Some(least) = first_change(kind, old, new, rises) else {
        return None;
    };
    if new.has_none_above(least) {
        return None;
    }
    Some(least)
}

/// The least value that adds something else to the ranks above it, if one does.
fn first_change<'a>(
    kind: RankKind,
    old: &Counts,
    new: &Counts,
    rises: &'a BTreeMap<Cell, u64>,
) -> Option<&'a Cell>
    requires { new.now ≡ after_changes cell_cmp old.now
        (map (count_change old.now) rises.now.entries) }
    ensures { SameBelow kind old.now new.now (option_copied result) }
{
    for value in rises.keys() {
        if is_changed(kind, old.find(value), new.find(value)) {
            return Some(value);
        }
    }
    None
}

/// Whether a value with the first count, if any, adds something else to the ranks above it where it gets the second.
fn is_changed(kind: RankKind, old: Option<u64>, new: Option<u64>) -> bool
    ensures { result ≡ changes_weight kind old new }
{
    match (old, new) {
        (Some(old), Some(new)) => is_other_weight(kind, old, new),
        _ => old.is_some() != new.is_some(),
    }
}

/// Whether these counts add different numbers to ranks.
fn is_other_weight(kind: RankKind, old: u64, new: u64) -> bool
    ensures { result ≡ not (weight kind old == weight kind new) }
{
    match kind {
        RankKind::Dense => false,
        RankKind::Min => old != new,
    }
}

/// The tags of the delta, and those of the rows whose value is above the least one, in order.
pub fn reached_tags(
    alloc: Global,
    delta: &Delta,
    input: &Table,
    index: Option<usize>,
    least: Option<&Cell>,
) -> Result<Vec<Tag>, AllocError>
    ensures { IfOk result (λ v.
        Reaches v.items delta.now input.now.rows index (option_copied least.entry)) }
{
    let mut tags = gathered_tags(alloc, delta, input, index, least)?;
    tags.sort_unstable();
    tags.dedup();
    Ok(tags)
}

fn gathered_tags(
    alloc: Global,
    delta: &Delta,
    input: &Table,
    index: Option<usize>,
    least: Option<&Cell>,
) -> Result<Vec<Tag>, AllocError>
    ensures { IfOk result (λ v. v.items ≡ finite.keys delta.now
        ++ tags_above_any index (option_copied least.entry) (finite.entries input.now.rows)) }
{
    let mut tags = delta_tags(alloc, delta)?;
    let Some(least) = least else {
        return Ok(tags);
    };
    let above = input.tags_above(alloc, index, least)?;
    tags.extend_from_slice(&above)?;
    Ok(tags)
}

fn delta_tags(alloc: Global, delta: &Delta) -> Result<Vec<Tag>, AllocError>
    ensures { IfOk result (λ v. v.items ≡ finite.keys delta.now) }
{
    let entries = delta.entries();
    let mut tags = Vec::with_capacity(alloc, entries.len())?;
    for entry in entries {
        tags.push(entry.tag)?;
    }
    Ok(tags)
}
