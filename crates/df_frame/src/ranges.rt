//! Sets of row numbers, kept as ranges.
ghost use Rattle.std.specs.Prelude.{◌≡◌, ◌<◌, ◌≤◌, ◌+◌, ◌++◌, ◌∷◌, [], None, IfOk, IsTrue, OnOk, find, max, nat_lt};
ghost use Rattle.std.specs.List.{range_with_len};
ghost use Rattle.df_frame.specs.Numbers.{are_below, has_number, is_rising, put_from};
ghost use Rattle.df_value.specs.Limits as limits;

use df_value::Duplicate;
use std::alloc::{AllocError, Global};
use std::marker::Model;

/// The numbers from `first` on, `len` of them, all below 2^32.
#[derive(Clone, Copy)]
pub struct RowRange {
    pub first: u32,
    pub len: u64,
    pub ghost within: { first + len ≤ limits.row_numbers },
}

/// A set of row numbers, by rising number. Contracts see the list of them; ranges that meet are
/// kept as one.
pub struct Ranges {
    ranges: Vec<RowRange>,
}

// A body that owns one drops it by a call.
impl Drop for Ranges {
    fn drop(self) {
        let Ranges { ranges } = self;
        drop(ranges);
    }
}

impl Model for Ranges {
    ghost use Rattle.std.specs.Prelude.{IsTrue, List, ℕ};
    ghost use Rattle.df_frame.specs.Ranges.{all_numbers, are_apart};

    ghost Value = { List ℕ };

    ghost view = { λ r. all_numbers r.ranges.items };

    ghost invariant = { λ r. IsTrue (are_apart r.ranges.items) };
}

impl RowRange {
    // The first of the ranges that ends behind a number.
    fn first_behind(ranges: &[RowRange], number: u32) -> Option<RowRange>
        ensures { result ≡ find (λ r. nat_lt number (r.first + r.len)) ranges.now }
    {
        ranges.iter().copied().find(|r| r.ends_behind(number))
    }

    // Whether a number is below the end of the range.
    fn ends_behind(&self, number: u32) -> bool
        ensures { result ≡ nat_lt number (self.now.first + self.now.len) }
    {
        (number as u64) < self.first as u64 + self.len
    }

    // The first number of the range, or a greater one.
    fn first_from(&self, number: u32) -> u32
        ensures { result ≡ max self.now.first number }
    {
        if self.first < number {
            return number;
        }
        self.first
    }
}

impl Ranges {
    ghost use Rattle.df_frame.specs.Ranges as ranges_spec;

    /// No numbers.
    pub fn new(alloc: Global) -> Ranges
        ensures { result ≡ [] }
    {
        Ranges {
            ranges: Vec::new(alloc),
        }
    }

    /// The least of `len` numbers from `first` on that is in the set.
    pub fn first_within(&self, first: u32, len: usize) -> Option<u32>
        requires { first + len ≤ limits.row_numbers }
        ensures { result ≡ find (λ n. has_number self.now n) (range_with_len first len) }
    {
        let range = RowRange::first_behind(self.ranges.as_slice(), first)?;
        let number = range.first_from(first);
        if (number as u64) < first as u64 + len as u64 {
            return Some(number);
        }
        None
    }

    /// The set with `len` numbers more, from `first` on, of which it has none yet.
    pub fn with(&self, alloc: Global, first: u32, len: usize) -> Result<Ranges, AllocError>
        requires within { first + len ≤ limits.row_numbers }
        requires rising { IsTrue (is_rising self.now) }
        requires free { find (λ n. has_number self.now n) (range_with_len first len) ≡ None }
        ensures { IfOk result (λ all.
            all ≡ put_from (λ n. n) first (range_with_len first len) self.now) }
    {
        if len == 0 {
            return self.copy(alloc);
        }
        let ranges = self.ranges.as_slice();
        let block = RowRange {
            first,
            len: len as u64,
        };
        let mut all = Ranges::new(alloc);
        all.add_below(ranges, first)?;
        all.add(block)?;
        all.add_from(ranges, first)?;
        Ok(all)
    }

    // Adds the ranges that begin below `first`.
    fn add_below(&mut self, ranges: &[RowRange], first: u32) -> Result<(), AllocError>
        requires none { self.old ≡ [] }
        requires apart { IsTrue (ranges_spec.are_apart ranges.now) }
        ensures { OnOk result (self.new
            ≡ self.old ++ ranges_spec.all_numbers (ranges_spec.ranges_below first ranges.now)) }
    {
        for range in ranges {
            self.add_if_below(*range, first)?;
        }
        Ok(())
    }

    fn add_if_below(&mut self, range: RowRange, first: u32) -> Result<(), AllocError>
        requires some { 0 < range.len }
        requires behind { IsTrue (are_below range.first self.old) }
        ensures { OnOk result (self.new ≡ self.old
            ++ ranges_spec.all_numbers (ranges_spec.ranges_below first (range ∷ []))) }
    {
        if range.first < first {
            return self.add(range);
        }
        Ok(())
    }

    // Adds the ranges that begin at `first` or above.
    fn add_from(&mut self, ranges: &[RowRange], first: u32) -> Result<(), AllocError>
        requires apart { IsTrue (ranges_spec.are_apart ranges.now) }
        requires behind { IsTrue (ranges_spec.are_below_from first ranges.now self.old) }
        ensures { OnOk result (self.new
            ≡ self.old ++ ranges_spec.all_numbers (ranges_spec.ranges_from first ranges.now)) }
    {
        for range in ranges {
            self.add_if_from(*range, first)?;
        }
        Ok(())
    }

    fn add_if_from(&mut self, range: RowRange, first: u32) -> Result<(), AllocError>
        requires some { 0 < range.len }
        requires behind { first ≤ range.first →
            IsTrue (are_below range.first self.old) }
        ensures { OnOk result (self.new ≡ self.old
            ++ ranges_spec.all_numbers (ranges_spec.ranges_from first (range ∷ []))) }
    {
        if first <= range.first {
            return self.add(range);
        }
        Ok(())
    }

    // Adds a range behind all numbers, as one with the last where it goes on there.
    fn add(&mut self, range: RowRange) -> Result<(), AllocError>
        requires some { 0 < range.len }
        requires behind { IsTrue (are_below range.first self.old) }
        ensures { OnOk result (self.new ≡ self.old ++ ranges_spec.range_numbers range) }
    {
        let Some(last) = self.ranges.pop() else {
            self.ranges.push(range)?;
            return Ok(());
        };
        if last.first as u64 + last.len == range.first as u64 {
            self.ranges.push(RowRange {
                first: last.first,
                len: last.len + range.len,
            })?;
            return Ok(());
        }
        self.ranges.push(last)?;
        self.ranges.push(range)?;
        Ok(())
    }
}

impl Duplicate for Ranges {
    fn copy(&self, alloc: Global) -> Result<Ranges, AllocError> {
        let ranges = Vec::from_slice(alloc, self.ranges.as_slice())?;
        Ok(Ranges { ranges })
    }
}
