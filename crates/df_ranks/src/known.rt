//! The numbers behind which values rank.
ghost use Rattle.std.specs.Prelude.{◌≡◌, ◌%◌, ◌^◌, IfOk, OnOk, Some, cond};
ghost use Rattle.indexmap.specs.IndexMap.{get};
ghost use Rattle.df_value.specs.CellEq.{cell_eq};
ghost use Rattle.df_value.specs.declared.cell.Cell.{Cell as AnyCell};
ghost use Rattle.df_ranks.specs.Counts.{weight_below};
ghost use Rattle.df_ranks.specs.Known.{AreNumbers};

use df_counts::Counts;
use df_ops::RankKind;
use df_value::{Cell, Duplicate};
use indexmap::IndexMap;
use std::alloc::{AllocError, Global};

/// The numbers behind which values rank by some counts. Where many ranks are asked for, each is counted once.
pub struct KnownRanks {
    numbers: IndexMap<Cell, u64>,
    are_kept: bool,
}

// A body that owns one drops it by a call.
impl Drop for KnownRanks {
    fn drop(self) {
        let KnownRanks {
            numbers,
            are_kept: _,
        } = self;
        drop(numbers);
    }
}

/// What is counted below a value, modulo 2^64: the values, or the rows that have them.
fn counted_below(kind: RankKind, counts: &Counts, value: &Cell) -> u64
    ensures { result ≡ weight_below kind counts.now value.now % 2 ^ 64 }
{
    match kind {
        RankKind::Dense => counts.values_below(value),
        RankKind::Min => counts.rows_below(value),
    }
}

impl KnownRanks {
    /// No number is known. Numbers will be kept if so many ranks are more than twice the values.
    pub fn new(alloc: Global, counts: &Counts, many: usize) -> KnownRanks
        ensures { (kind : RankKind) → AreNumbers kind counts.now result }
    {
        KnownRanks {
            numbers: IndexMap::new(alloc),
            are_kept: counts.values() < many as u64 / 2,
        }
    }

    /// Keeps the number of a value.
    fn keep(&mut self, alloc: Global, value: &Cell, number: u64) -> Result<(), AllocError>
        ensures { OnOk result ((v : AnyCell) → get cell_eq self.new.numbers v
            ≡ cond (cell_eq value.now v) (Some number) (get cell_eq self.old.numbers v)) }
    {
        match self.numbers.insert(value.copy(alloc)?, number) {
            Ok(_) => Ok(()),
            Err(_) => Err(AllocError),
        }
    }

    /// Counts what is below a value, and keeps it.
    fn counted(
        &mut self,
        alloc: Global,
        kind: RankKind,
        counts: &Counts,
        value: &Cell,
    ) -> Result<u64, AllocError>
        requires { AreNumbers kind counts.now self.old }
        ensures number { IfOk result (λ n. n ≡ weight_below kind counts.now value.now % 2 ^ 64) }
        ensures known { OnOk result (AreNumbers kind counts.now self.new) }
    {
        let number = counted_below(kind, counts, value);
        self.keep(alloc, value, number)?;
        Ok(number)
    }

    /// What is below a value by these counts, modulo 2^64: the values, or the rows that have them.
    pub fn number(
        &mut self,
        alloc: Global,
        kind: RankKind,
        counts: &Counts,
        value: &Cell,
    ) -> Result<u64, AllocError>
        requires { AreNumbers kind counts.now self.old }
        ensures number { IfOk result (λ n. n ≡ weight_below kind counts.now value.now % 2 ^ 64) }
        ensures known { OnOk result (AreNumbers kind counts.now self.new) }
    {
        if !self.are_kept {
            return Ok(counted_below(kind, counts, value));
        }
        match self.numbers.get(value) {
            Some(number) => Ok(*number),
            None => self.counted(alloc, kind, counts, value),
        }
    }
}
