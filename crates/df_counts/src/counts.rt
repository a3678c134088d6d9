//! Counts of the values of a column.
ghost use Rattle.std.specs.Prelude.{◌≡◌, ◌%◌, ◌^◌, [], T, IfOk, IsTrue, MatchResult, false, if◌then◌else◌, is_some, length, map, true, unwrap_or};
ghost use Rattle.std.specs.List.{sum_by};
ghost use Rattle.std.specs.Ordering.{is_lt};
ghost use Rattle.std.specs.FinMap.{find as entry_of, is_sorted};
ghost use Rattle.df_value.specs.CellOrder.{cell_cmp};
ghost use Rattle.df_value.specs.declared.cell.Cell.{Cell as AnyCell};
ghost use Rattle.df_column.specs.Changes.{after_changes, edit};
ghost use Rattle.df_counts.specs.Counts.{count_change, some_count};
ghost use Rattle.df_counts.specs.Positions.{IsPosition};

use crate::entries::{position_of, set_at};
use crate::order::is_less;
use crate::position::Position;
use crate::value_count::{IsBelow, ValueCount};
use df_tree::Seq;
use df_value::Cell;
use std::alloc::{AllocError, Global};
use std::collections::BTreeMap;
use std::marker::Model;

/// How many rows have each value of a column. Contracts see the values with their counts, by rising value.
///
/// A change of a count reaches the nodes on the way to the value, whose number goes by the logarithm of the number of values.
/// Those that other counts share are copied first.
pub struct Counts {
    entries: Option<Entries>,
}

// A body that owns one drops it by a call.
impl Drop for Counts {
    fn drop(self) {
        let Counts { entries } = self;
        drop(entries);
    }
}

impl Model for Counts {
    ghost use Rattle.std.specs.Prelude.{ℕ, List, T};
    ghost use Rattle.std.specs.FinMap.{is_sorted};
    ghost use Rattle.df_value.specs.CellOrder.{cell_cmp};
    ghost use Rattle.df_value.specs.declared.cell.Cell.{Cell as AnyCell};

    ghost Value = { List (AnyCell × ℕ) };

    ghost use Rattle.df_counts.specs.Entries.{entries_of};

    ghost view = { λ c. entries_of c.entries };

    ghost invariant = { λ c. T (is_sorted cell_cmp (entries_of c.entries)) };
}

/// Values with their counts, by rising value, and where their memory is from.
struct Entries {
    alloc: Global,
    seq: Seq<ValueCount>,
}

// A body that owns one drops it by a call.
impl Drop for Entries {
    fn drop(self) {
        let Entries { alloc: _, seq } = self;
        drop(seq);
    }
}

impl Counts {
    /// No counts.
    pub fn new() -> Counts
        ensures { result ≡ [] }
    {
        Counts { entries: None }
    }

    /// The same counts once more. It takes no memory where they were made shared.
    pub fn share(&self) -> Result<Counts, AllocError>
        ensures { IfOk result (λ t. t ≡ self.now) }
    {
        match &self.entries {
            None => Ok(Counts { entries: None }),
            Some(entries) => {
                let alloc = entries.alloc;
                let seq = entries.seq.copied(alloc)?;
                let entries = Some(Entries { alloc, seq });
                Ok(Counts { entries })
            }
        }
    }

    /// Shares each node that is owned, so that a copy takes no memory. Whoever shares often calls it first.
    pub fn make_shared(&mut self, alloc: Global) -> Result<(), AllocError>
        ensures { self.new ≡ self.old }
    {
        match &mut self.entries {
            Some(entries) => entries.seq.make_shared(alloc),
            None => Ok(()),
        }
    }

    /// Where this value stands, or would stand.
    pub fn position(&self, value: &Cell) -> Position
        ensures { IsPosition self.now value.now result }
    {
        match &self.entries {
            None => Position {
                index: 0,
                count: None,
            },
            Some(entries) => position_of(&entries.seq, value),
        }
    }

    /// How many rows have this value, if one has it.
    pub fn find(&self, value: &Cell) -> Option<u64>
        ensures { result ≡ entry_of cell_cmp value.now self.now }
    {
        self.position(value).count
    }

    /// How many rows have this value.
    pub fn count(&self, value: &Cell) -> u64
        ensures { result ≡ unwrap_or (entry_of cell_cmp value.now self.now) 0 }
    {
        self.find(value).unwrap_or(0)
    }

    /// Gives the value this count. For 0 the value goes. Where memory is refused the counts stay.
    ///
    /// Nodes that are owned are changed as they stand, and those on the way that are shared are copied.
    pub fn set_count(&mut self, alloc: Global, value: &Cell, count: u64) -> Result<(), AllocError>
        ensures { MatchResult result
            (λ _. self.new ≡ edit cell_cmp self.old value.now (some_count count))
            (λ _. self.new ≡ self.old) }
    {
        let position = self.position(value);
        self.set_at(alloc, position, value, count)
    }

    /// Gives the value this count, as `set_count` does, where its position is known already.
    pub fn set_at(
        &mut self,
        alloc: Global,
        position: Position,
        value: &Cell,
        count: u64,
    ) -> Result<(), AllocError>
        requires { IsPosition self.old value.now position }
        ensures { MatchResult result
            (λ _. self.new ≡ edit cell_cmp self.old value.now (some_count count))
            (λ _. self.new ≡ self.old) }
    {
        match &mut self.entries {
            Some(entries) => set_at(&mut entries.seq, alloc, position, value, count),
            None => self.set_first(alloc, value, count),
        }
    }

    /// Gives the value this count, where there are no entries yet.
    fn set_first(&mut self, alloc: Global, value: &Cell, count: u64) -> Result<(), AllocError>
        requires { self.old ≡ [] }
        ensures { MatchResult result
            (λ _. self.new ≡ edit cell_cmp self.old value.now (some_count count))
            (λ _. self.new ≡ self.old) }
    {
        if count == 0 {
            return Ok(());
        }
        let mut seq = Seq::empty(alloc)?;
        let position = position_of(&seq, value);
        set_at(&mut seq, alloc, position, value, count)?;
        self.entries = Some(Entries { alloc, seq });
        Ok(())
    }

    /// The number of values, modulo 2^64.
    pub fn values(&self) -> u64
        ensures { result ≡ length self.now % 2 ^ 64 }
    {
        match &self.entries {
            None => 0,
            Some(entries) => entries.seq.measure().values,
        }
    }

    /// The number of values that are less than this one, modulo 2^64.
    pub fn values_below(&self, value: &Cell) -> u64
        ensures { result ≡ sum_by (λ e. if is_lt (cell_cmp e.0 value.now) then 1 else 0) self.now % 2 ^ 64 }
    {
        match &self.entries {
            None => 0,
            Some(entries) => entries.seq.measure_before(&IsBelow { value }).values,
        }
    }

    /// The number of rows whose value is less than this one, modulo 2^64.
    pub fn rows_below(&self, value: &Cell) -> u64
        ensures { result ≡ sum_by (λ e. if is_lt (cell_cmp e.0 value.now) then e.1 else 0) self.now % 2 ^ 64 }
    {
        match &self.entries {
            None => 0,
            Some(entries) => entries.seq.measure_before(&IsBelow { value }).rows,
        }
    }

    /// Whether no value is above this one.
    pub fn has_none_above(&self, value: &Cell) -> bool
        ensures { IsTrue result → (v : AnyCell)
            → is_some (entry_of cell_cmp v self.now) ≡ true
            → is_lt (cell_cmp value.now v) ≡ false }
    {
        match &self.entries {
            None => true,
            Some(entries) => match entries.seq.last() {
                Some(last) => !is_less(value, last.value.get()),
                None => true,
            },
        }
    }

    /// Raises these values in other counts, from those that they have here.
    fn raise(
        &self,
        raised: &mut Counts,
        alloc: Global,
        rises: &BTreeMap<Cell, u64>,
    ) -> Result<(), AllocError>
        requires { raised.old ≡ self.now }
        ensures rising { IfOk result (λ _. T (is_sorted cell_cmp rises.now.entries)) }
        ensures counts { IfOk result (λ _. raised.new ≡ after_changes cell_cmp self.now
            (map (count_change self.now) rises.now.entries)) }
    {
        for (value, rise) in rises.iter() {
            let count = self.count(value).wrapping_add(*rise);
            raised.set_count(alloc, value, count)?;
        }
        Ok(())
    }

    /// The counts after these rises, modulo 2^64. A value whose count becomes 0 goes.
    pub fn raised(&self, alloc: Global, rises: &BTreeMap<Cell, u64>) -> Result<Counts, AllocError>
        ensures sorted { IfOk result (λ _. T (is_sorted cell_cmp self.now)) }
        ensures rising { IfOk result (λ _. T (is_sorted cell_cmp rises.now.entries)) }
        ensures counts { IfOk result (λ t. t ≡ after_changes cell_cmp self.now
            (map (count_change self.now) rises.now.entries)) }
    {
        let mut counts = self.share()?;
        self.raise(&mut counts, alloc, rises)?;
        counts.make_shared(alloc)?;
        Ok(counts)
    }
}
