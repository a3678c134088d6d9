//! Values with a null mask.
ghost use Rattle.std.specs.Prelude.{◌≡◌, ◌<◌, ◌≤◌, ◌+◌, ◌++◌, ◌∷◌, [], IsTrue, length, map, slice_index_or, drop, take, IfOk, OnOk, OnErr, Option, None, true};
ghost use Rattle.df_value.specs.Cells.{fits_dtype};
ghost use Rattle.df_value.specs.declared.cell.Cell.{Cell};
ghost use Rattle.df_value.specs.declared.cell.Cell.TheVariants as cell_as;
ghost use Rattle.df_column.specs.Masks.{filled_mask, joined_mask, masked_values};
ghost use Rattle.df_column.specs.Picks.{AreFit, AreWithin, picked_cells, spliced};

use crate::picks::{Origin, Pick, old_rows};
use crate::values::CellValue;
use df_value::{Cell, Row};
use std::alloc::{AllocError, Global};
use std::marker::Model;

/// Values of one type, or nulls, which contracts see as a list of options. Values past the mask's end are not null.
pub struct Masked<T> {
    nulls: Vec<bool>,
    values: Vec<T>,
}

// A body that owns one drops it by a call.
impl<T: Drop> Drop for Masked<T> {
    fn drop(self) {
        let Masked { nulls, values } = self;
        drop(nulls);
        drop(values);
    }
}

impl<T> Model for Masked<T> {
    ghost use Rattle.std.specs.Prelude.{◌≤◌, List, Option, length};
    ghost use Rattle.df_column.specs.Masks.{masked_values};

    ghost Value = { List (Option T) };

    ghost view = { λ m. masked_values m.nulls.items m.values.items };

    ghost invariant = { λ m. length m.nulls.items ≤ length m.values.items };
}

fn value_at<T: Copy>(nulls: &[bool], values: &[T], at: usize) -> Option<T>
    requires { at < length values.now }
    ensures { (d : Option T) → result ≡ slice_index_or (masked_values nulls.now values.now) at d }
{
    if at < nulls.len() {
        if nulls[at] { None } else { Some(values[at]) }
    } else {
        Some(values[at])
    }
}

/// Fills the mask up to this length.
fn fill_mask(nulls: &mut Vec<bool>, len: usize) -> Result<(), AllocError>
    requires { length nulls.old.items ≤ len }
    ensures ok { OnOk result (nulls.new.items ≡ filled_mask nulls.old.items len) }
    ensures err { OnErr result (nulls.new.items ≡ nulls.old.items) }
{
    if nulls.as_slice().len() < len {
        nulls.resize(len, false)?;
    }
    Ok(())
}

/// Adds a null, and the filler in its place.
fn push_null<T: Drop>(
    nulls: &mut Vec<bool>,
    values: &mut Vec<T>,
    filler: T,
) -> Result<(), AllocError>
    requires { length nulls.old.items ≤ length values.old.items }
    ensures mask { length nulls.new.items ≤ length values.new.items }
    ensures nulls { OnOk result (nulls.new.items ≡
        filled_mask nulls.old.items (length values.old.items) ++ true ∷ []) }
    ensures values { OnOk result (values.new.items ≡ values.old.items ++ filler ∷ []) }
{
    let len = values.as_slice().len();
    values.push(filler)?;
    fill_mask(nulls, len)?;
    nulls.push(true)?;
    Ok(())
}

/// This many items from an index on.
fn part<T>(items: &[T], from: usize, count: usize) -> &[T]
    requires { from + count ≤ length items.now }
    ensures { result.now ≡ take count (drop from items.now) }
{
    let rest = &items[from..];
    &rest[..count]
}

/// The mask of this many values from an index on; it may end before them.
fn mask_part(mask: &[bool], from: usize, count: usize) -> &[bool]
    ensures { result.now ≡ take count (drop from mask.now) }
{
    let from = from.min(mask.len());
    part(mask, from, count.min(mask.len() - from))
}

/// Adds the mask of more values behind the mask of the first `len`.
fn push_mask(nulls: &mut Vec<bool>, len: usize, more: &[bool]) -> Result<(), AllocError>
    requires { length nulls.old.items ≤ len }
    ensures mask { length nulls.new.items ≤ len + length more.now }
    ensures nulls { OnOk result (nulls.new.items ≡ joined_mask nulls.old.items len more.now) }
{
    if more.is_empty() {
        return Ok(());
    }
    fill_mask(nulls, len)?;
    nulls.extend_from_slice(more)?;
    Ok(())
}

impl<T: Copy> Masked<T> {
    /// No values.
    pub fn new(alloc: Global) -> Self
        ensures { result ≡ [] }
    {
        Masked {
            nulls: Vec::new(alloc),
            values: Vec::new(alloc),
        }
    }

    /// No values, with room for this many.
    pub(crate) fn with_capacity(alloc: Global, capacity: usize) -> Result<Self, AllocError>
        ensures { IfOk result (λ m. m ≡ []) }
    {
        let values = Vec::with_capacity(alloc, capacity)?;
        Ok(Masked {
            nulls: Vec::new(alloc),
            values,
        })
    }

    /// The number of values and nulls.
    pub fn len(&self) -> usize
        ensures { result ≡ length self.now }
    {
        let values: &[T] = &self.values;
        values.len()
    }

    /// The value at this index, or none for a null.
    pub fn get(&self, at: usize) -> Option<T>
        requires { at < length self.now }
        ensures { (d : Option T) → result ≡ slice_index_or self.now at d }
    {
        value_at(&self.nulls, &self.values, at)
    }

    /// Adds the value, or a null, in whose place the filler stands. After a refusal one value more may be there.
    pub(crate) fn push(&mut self, value: Option<T>, filler: T) -> Result<(), AllocError>
        ensures { OnOk result (self.new ≡ self.old ++ value ∷ []) }
    {
        match value {
            Some(value) => {
                self.values.push(value)?;
                Ok(())
            }
            None => {
                push_null(&mut self.nulls, &mut self.values, filler)?;
                Ok(())
            }
        }
    }

    /// Adds this many values of another list, from an index on. After a refusal other values may be there.
    pub(crate) fn push_values(
        &mut self,
        old: &Masked<T>,
        from: usize,
        count: usize,
    ) -> Result<(), AllocError>
        requires { from + count ≤ length old.now }
        ensures { OnOk result (self.new ≡ self.old ++ take count (drop from old.now)) }
    {
        let len = self.values.as_slice().len();
        self.values
            .extend_from_slice(part(&old.values, from, count))?;
        push_mask(&mut self.nulls, len, mask_part(&old.nulls, from, count))?;
        Ok(())
    }
}

impl<T: CellValue> Masked<T> {
    /// The cell at this index.
    pub fn cell(&self, at: usize) -> Cell
        requires { at < length (map T.cell_of self.now) }
        ensures { (d : Cell) → result ≡ slice_index_or (map T.cell_of self.now) at d }
    {
        T::to_cell(self.get(at))
    }

    /// The cells up to one index, those of the picked rows, as [`Masked::push_picked`] has them, and the cells from
    /// another index on.
    pub(crate) fn spliced(
        &self,
        alloc: Global,
        low: usize,
        high: usize,
        column: usize,
        picks: &[Pick<'_>],
    ) -> Result<Masked<T>, AllocError>
        requires ordered { low ≤ high }
        requires in_range { high ≤ length (map T.cell_of self.now) }
        requires within { AreWithin (length (map T.cell_of self.now)) picks.now }
        requires fits { AreFit T.dtype column picks.now }
        ensures { IfOk result (λ m. map T.cell_of m ≡
            spliced low high (picked_cells (map T.cell_of self.now) column picks.now) (map T.cell_of self.now)) }
    {
        let behind = self.len() - high;
        let room = (low + behind).saturating_add(picks.len());
        let mut values = Masked::with_capacity(alloc, room)?;
        values.push_values(self, 0, low)?;
        values.push_picked(self, column, picks)?;
        values.push_values(self, high, behind)?;
        Ok(values)
    }

    /// Adds the first of the picked rows, and gives their number: one new row, or old rows that follow one another.
    fn push_first(
        &mut self,
        old: &Masked<T>,
        column: usize,
        picks: &[Pick<'_>],
    ) -> Result<usize, AllocError>
        requires some { 0 < length picks.now }
        requires within { AreWithin (length old.now) picks.now }
        requires fits { AreFit T.dtype column picks.now }
        ensures some { IfOk result (λ n. 0 < n) }
        ensures most { IfOk result (λ n. n ≤ length picks.now) }
        ensures cells { IfOk result (λ n. map T.cell_of self.new ≡ map T.cell_of self.old
            ++ picked_cells (map T.cell_of old.now) column (take n picks.now)) }
    {
        let origin = picks[0].origin;
        match origin {
            Origin::Old(first) => {
                let count = old_rows(picks, first);
                self.push_values(old, first, count)?;
                Ok(count)
            }
            Origin::New(row) => {
                self.push(new_value(row, column), T::filler())?;
                Ok(1)
            }
        }
    }

    /// Adds the cells of the picked rows, in the old column or at this index of a new row.
    pub(crate) fn push_picked(
        &mut self,
        old: &Masked<T>,
        column: usize,
        picks: &[Pick<'_>],
    ) -> Result<(), AllocError>
        requires within { AreWithin (length old.now) picks.now }
        requires fits { AreFit T.dtype column picks.now }
        ensures { OnOk result (map T.cell_of self.new ≡
            map T.cell_of self.old ++ picked_cells (map T.cell_of old.now) column picks.now) }
    {
        let mut from = 0;
        while from < picks.len() {
            from += self.push_first(old, column, &picks[from..])?;
        }
        Ok(())
    }
}

/// The value at an index of a new row.
fn new_value<T: CellValue>(row: &Row, column: usize) -> Option<T>
    requires { IsTrue (fits_dtype T.dtype (slice_index_or row.now column cell_as.Null)) }
    ensures { T.cell_of result ≡ slice_index_or row.now column cell_as.Null }
{
    match row.get(column) {
        Some(cell) => T::from_cell(cell),
        None => None,
    }
}
