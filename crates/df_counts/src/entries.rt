//! Values with their counts, by rising value.
ghost use Rattle.std.specs.Prelude.{◌≡◌, MatchResult, T, false, true};
ghost use Rattle.std.specs.FinMap.{is_sorted};
ghost use Rattle.df_value.specs.CellOrder.{cell_cmp};
ghost use Rattle.df_column.specs.Changes.{edit};
ghost use Rattle.df_tree.specs.Leaves.{items_in};
ghost use Rattle.df_tree.specs.Partitions.{IsPlace};
ghost use Rattle.df_counts.specs.Counts.{some_count};
ghost use Rattle.df_counts.specs.Places.{is_below, IsGap, IsThere};
ghost use Rattle.df_counts.specs.Positions.{IsPosition};

use crate::order::is_less;
use crate::position::Position;
use crate::value_count::{IsBelow, ValueCount};
use df_tree::Seq;
use df_value::Cell;
use std::alloc::{AllocError, Global};

/// How many entries are before this value.
fn place_of(entries: &Seq<ValueCount>, value: &Cell) -> usize
    requires { T (is_sorted cell_cmp (items_in entries.now)) }
    ensures { IsPlace (is_below value.now) (items_in entries.now) result }
{
    entries.partition_point(&IsBelow { value })
}

/// Whether the entry at the place of a value is of this value.
fn is_at(entries: &Seq<ValueCount>, place: usize, value: &Cell) -> bool
    requires sorted { T (is_sorted cell_cmp (items_in entries.now)) }
    requires place { IsPlace (is_below value.now) (items_in entries.now) place }
    ensures there { result ≡ true → IsThere (items_in entries.now) place value.now }
    ensures gap { result ≡ false → IsGap (items_in entries.now) place value.now }
{
    if place == entries.len() {
        return false;
    }
    !is_less(value, entries.get(place).value.get())
}

/// Where this value stands among the entries, or would stand.
pub fn position_of(entries: &Seq<ValueCount>, value: &Cell) -> Position
    requires { T (is_sorted cell_cmp (items_in entries.now)) }
    ensures { IsPosition (items_in entries.now) value.now result }
{
    let index = place_of(entries, value);
    if is_at(entries, index, value) {
        let count = Some(entries.get(index).count);
        return Position { index, count };
    }
    Position { index, count: None }
}

/// Gives the value at its position this count. For 0 the value goes. Where memory is refused the entries stay.
pub fn set_at(
    entries: &mut Seq<ValueCount>,
    alloc: Global,
    position: Position,
    value: &Cell,
    count: u64,
) -> Result<(), AllocError>
    requires sorted { T (is_sorted cell_cmp (items_in entries.old)) }
    requires position { IsPosition (items_in entries.old) value.now position }
    ensures { MatchResult result
        (λ _. items_in entries.new ≡ edit cell_cmp (items_in entries.old) value.now (some_count count))
        (λ _. items_in entries.new ≡ items_in entries.old) }
{
    match position.count {
        Some(_) => change_at(entries, alloc, position.index, value, count),
        None => insert_at(entries, alloc, position.index, value, count),
    }
}

/// Puts the value with this count at its place, where it has none. For 0 the entries stay.
fn insert_at(
    entries: &mut Seq<ValueCount>,
    alloc: Global,
    place: usize,
    value: &Cell,
    count: u64,
) -> Result<(), AllocError>
    requires place { IsPlace (is_below value.now) (items_in entries.old) place }
    requires gap { IsGap (items_in entries.old) place value.now }
    ensures { MatchResult result
        (λ _. items_in entries.new ≡ edit cell_cmp (items_in entries.old) value.now (some_count count))
        (λ _. items_in entries.new ≡ items_in entries.old) }
{
    if count == 0 {
        return Ok(());
    }
    let entry = ValueCount::new(alloc, value, count)?;
    entries.insert(alloc, place, entry)
}

/// Gives the value at its place this count. For 0 it goes.
fn change_at(
    entries: &mut Seq<ValueCount>,
    alloc: Global,
    place: usize,
    value: &Cell,
    count: u64,
) -> Result<(), AllocError>
    requires sorted { T (is_sorted cell_cmp (items_in entries.old)) }
    requires place { IsPlace (is_below value.now) (items_in entries.old) place }
    requires there { IsThere (items_in entries.old) place value.now }
    ensures { MatchResult result
        (λ _. items_in entries.new ≡ edit cell_cmp (items_in entries.old) value.now (some_count count))
        (λ _. items_in entries.new ≡ items_in entries.old) }
{
    if count == 0 {
        let gone = entries.remove(alloc, place)?;
        drop(gone);
        return Ok(());
    }
    let entry = entries.get(place).with_count(alloc, count)?;
    entries.set(alloc, place, entry)
}
