//! A value with its count, as an item of a sequence.
ghost use Rattle.std.specs.Prelude.{◌≡◌, IfOk};
ghost use Rattle.df_counts.specs.Places.{is_below};
ghost use Rattle.df_counts.specs.Totals.{totals_of};

use crate::order::is_less;
use crate::totals::Totals;
use df_tree::{Item, Predicate};
use df_value::{Cell, Duplicate, Shared};
use std::alloc::{AllocError, Global};
use std::marker::Model;

/// A value, and how many rows have it. Contracts see the pair.
pub struct ValueCount {
    pub value: Shared<Cell>,
    pub count: u64,
}

// A body that owns one drops it by a call.
impl Drop for ValueCount {
    fn drop(self) {
        let ValueCount { value, count: _ } = self;
        drop(value);
    }
}

impl Model for ValueCount {
    ghost use Rattle.std.specs.Prelude.{ℕ};
    ghost use Rattle.df_value.specs.declared.cell.Cell.{Cell as AnyCell};

    ghost Value = { AnyCell × ℕ };

    ghost view = { λ e. (e.value, e.count) };
}

impl ValueCount {
    /// A value that nobody else has, with its count.
    pub fn new(alloc: Global, value: &Cell, count: u64) -> Result<ValueCount, AllocError>
        ensures { IfOk result (λ e. e ≡ (value.now, count)) }
    {
        let value = Shared::new(alloc, value.copy(alloc)?)?;
        Ok(ValueCount { value, count })
    }

    /// The same value with another count.
    pub fn with_count(&self, alloc: Global, count: u64) -> Result<ValueCount, AllocError>
        ensures { IfOk result (λ e. e ≡ (self.now.0, count)) }
    {
        let value = self.value.copy(alloc)?;
        Ok(ValueCount { value, count })
    }
}

impl Item for ValueCount {
    type Measure = Totals;

    ghost measure = { totals_of };

    fn measure(&self) -> Totals {
        Totals {
            values: 1,
            rows: self.count,
        }
    }

    fn share(&self, alloc: Global) -> Result<ValueCount, AllocError> {
        self.with_count(alloc, self.count)
    }
}

/// The predicate whether a value is less than this one.
#[derive(Clone, Copy)]
pub struct IsBelow<'a> {
    pub value: &'a Cell,
}

impl<'a> Predicate<ValueCount> for IsBelow<'a> {
    ghost holds = { λ b e. is_below b.value.now e };

    fn holds(&self, item: &ValueCount) -> bool {
        is_less(item.value.get(), self.value)
    }
}
