//! The texts of one column of a block.
ghost use Rattle.std.specs.Prelude.{◌≡◌, ◌<◌, ◌≤◌, ◌+◌, ◌-◌, ◌++◌, ◌∷◌, [], T, List, ℕ, true, drop, length, map, slice_index_or, take, IfOk, IfSome, IsTrue, OnOk, Option};
ghost use Rattle.df_value.specs.CellEq.{cell_eq};
ghost use Rattle.df_value.specs.CellOrder.{cell_cmp};
ghost use Rattle.df_value.specs.Cells.{fits_dtype};
ghost use Rattle.df_value.specs.declared.cell.Cell.{Cell};
ghost use Rattle.df_value.specs.declared.cell.CellType.TheVariants as dtype_as;
ghost use Rattle.df_column.specs.MinMaxCells as min_max;
ghost use Rattle.df_column.specs.Picks.{AreFit, AreWithin, is_fit, is_within, origin_cell, picked_cells, spliced};
ghost use Rattle.df_column.specs.Sizes.{most_rows};
ghost use Rattle.df_column.specs.Texts.{ArePlaces, pool_text, text_now};
ghost use Rattle.df_column.specs.ValueCells.{text_cell};

use crate::compare::compare_texts;
use crate::masked::Masked;
use crate::min_max_search::Ranked;
use crate::picks::{Origin, Pick};
use crate::pool::TextPool;
use df_value::{Cell, Text};
use std::alloc::{AllocError, Global};
use std::cmp::Ordering;
use std::marker::Model;

mod adding;

use adding::{Lookup, push_rows, spliced_anew};

/// The texts of up to so many picked rows are looked for along a pool that stays, and those of a block of up to so many rows
/// along a new one. For more of them the hashes of all texts of the block are made.
const FEW_ROWS: usize = 16;

/// A pool of up to so many texts has few.
const FEW_TEXTS: usize = 16;

/// The texts of up to so many picked rows are looked for along a pool that stays and has few texts.
const MORE_ROWS: usize = 64;

/// Texts or nulls: the places of the texts in a pool. Contracts see a list of options.
pub struct Texts {
    places: Masked<u16>,
    pool: TextPool,
}

// A body that owns one drops it by a call.
impl Drop for Texts {
    fn drop(self) {
        let Texts { places, pool } = self;
        drop(places);
        drop(pool);
    }
}

impl Model for Texts {
    ghost use Rattle.std.specs.Prelude.{List, ℕ, Option, map};
    ghost use Rattle.df_column.specs.Texts.{pool_text, ArePlaces};

    ghost Value = { List (Option (List ℕ)) };

    ghost view = { λ t. map (pool_text t.pool) t.places };

    ghost invariant = { λ t. ArePlaces t.pool t.places };
}

/// The text of the cell, none for a null.
fn text_of(cell: &Cell) -> Option<&str>
    ensures { IsTrue (fits_dtype dtype_as.Text cell.now) → text_cell (text_now result) ≡ cell.now }
{
    match cell {
        Cell::Text(text) => Some(text.as_str()),
        _ => None,
    }
}

/// The text of a picked row, in the old column or at this index of a new row.
fn text_from<'a>(old: &'a Texts, column: usize, origin: Origin<'a>) -> Option<&'a str>
    requires within { T (is_within (length old.now) origin) }
    requires fits { T (is_fit dtype_as.Text column origin) }
    ensures { text_cell (text_now result) ≡
        origin_cell (map text_cell old.now) column origin.entry }
{
    match origin {
        Origin::Old(at) => old.get(at),
        Origin::New(row) => match row.get(column) {
            Some(cell) => text_of(cell),
            None => None,
        },
    }
}

/// Whether the texts of so many picked rows are looked for along a pool that stays and has so many texts. By hashes, the
/// texts of the rows that stay would be hashed too.
fn are_few(texts: usize, rows: usize) -> bool {
    if 0 < texts && texts <= FEW_TEXTS {
        rows <= MORE_ROWS
    } else {
        rows <= FEW_ROWS
    }
}

/// Whether the cell is this text, or a null where there is none.
fn is_cell_of(text: Option<&str>, cell: &Cell) -> bool
    ensures { result ≡ cell_eq (text_cell (text_now text.entry)) cell.now }
{
    match (text, cell) {
        (Some(text), Cell::Text(other)) => text == other.as_str(),
        (None, Cell::Null) => true,
        _ => false,
    }
}

impl Ranked for Texts {
    ghost cells = { map text_cell };

    fn count(&self) -> usize
        ensures { result ≡ length (map text_cell self.now) }
    {
        self.len()
    }

    // No text is read.
    fn is_null(&self, at: usize) -> bool
        requires { at < length (map text_cell self.now) }
        ensures { (d : Cell) → result ≡ min_max.is_null (slice_index_or (map text_cell self.now) at d) }
    {
        self.places.get(at).is_none()
    }

    fn compare(&self, a: usize, b: usize) -> Ordering
        requires first { a < length (map text_cell self.now) }
        requires second { b < length (map text_cell self.now) }
        ensures { (d : Cell) → result ≡ cell_cmp (slice_index_or (map text_cell self.now) a d)
            (slice_index_or (map text_cell self.now) b d) }
    {
        if self.are_known_same(a, b) {
            return Ordering::Equal;
        }
        compare_texts(self.get(a), self.get(b))
    }
}

impl Texts {
    /// No texts.
    pub fn new(alloc: Global) -> Self
        ensures { result ≡ [] }
    {
        Texts {
            places: Masked::new(alloc),
            pool: TextPool::new(alloc),
        }
    }

    /// The number of texts and nulls.
    pub fn len(&self) -> usize
        ensures { result ≡ length self.now }
    {
        self.places.len()
    }

    /// The text at this index, or none for a null.
    pub fn get(&self, at: usize) -> Option<&str>
        requires { at < length self.now }
        ensures { (d : Option (List ℕ)) → text_now result ≡ slice_index_or self.now at d }
    {
        match self.places.get(at) {
            Some(place) => Some(self.pool.get(place as u32)),
            None => None,
        }
    }

    /// A copy of the cell at this index.
    pub fn cell(&self, alloc: Global, at: usize) -> Result<Cell, AllocError>
        requires { at < length (map text_cell self.now) }
        ensures { IfOk result (λ c. (d : Cell) → c ≡ slice_index_or (map text_cell self.now) at d) }
    {
        match self.get(at) {
            Some(text) => Ok(Cell::Text(Text::from_str(alloc, text)?)),
            None => Ok(Cell::Null),
        }
    }

    /// Whether it is known without a look at the texts that those at two indices are the same: a pool has each text once.
    fn are_known_same(&self, a: usize, b: usize) -> bool
        requires first { a < length self.now }
        requires second { b < length self.now }
        ensures { result ≡ true → (d : Option (List ℕ)) →
            slice_index_or self.now a d ≡ slice_index_or self.now b d }
    {
        match (self.places.get(a), self.places.get(b)) {
            (Some(a), Some(b)) => a == b,
            _ => false,
        }
    }

    /// Whether the cell at this index is this one. No text is copied.
    pub fn is_cell(&self, at: usize, cell: &Cell) -> bool
        requires { at < length (map text_cell self.now) }
        ensures { (d : Cell) → result ≡ cell_eq (slice_index_or (map text_cell self.now) at d) cell.now }
    {
        is_cell_of(self.get(at), cell)
    }

    /// The cells up to one index, those of the picked rows, and the cells from another index on. A picked row is an old one,
    /// or a new one whose cell stands at the column's index. Where few rows are picked, the pool stays, with the new texts;
    /// texts that no row has any more stay in it, unless it has more texts than rows stay.
    pub(crate) fn spliced(
        &self,
        alloc: Global,
        low: usize,
        high: usize,
        column: usize,
        picks: &[Pick<'_>],
    ) -> Result<Texts, AllocError>
        requires ordered { low ≤ high }
        requires in_range { high ≤ length (map text_cell self.now) }
        requires within { AreWithin (length (map text_cell self.now)) picks.now }
        requires fits { AreFit dtype_as.Text column picks.now }
        requires few { low + length picks.now + (length (map text_cell self.now) - high) ≤ most_rows }
        ensures { IfOk result (λ t. map text_cell t ≡
            spliced low high (picked_cells (map text_cell self.now) column picks.now) (map text_cell self.now)) }
    {
        let kept = self.without(alloc, low, high, picks.len())?;
        if let Some(kept) = kept {
            let all = kept.with_picked(self, column, picks)?;
            return all.rotated(alloc, low, low + (self.len() - high));
        }
        spliced_anew(alloc, self, low, high, column, picks)
    }

    /// The texts up to one index and those from another index on, over this pool, with room for so many places more. None
    /// where so many picked rows are not few, or the pool has more texts than rows stay.
    fn without(
        &self,
        alloc: Global,
        low: usize,
        high: usize,
        more: usize,
    ) -> Result<Option<Texts>, AllocError>
        requires ordered { low ≤ high }
        requires in_range { high ≤ length self.now }
        ensures { IfOk result (λ o. IfSome o (λ t. t ≡ take low self.now ++ drop high self.now)) }
    {
        let behind = self.len() - high;
        let texts = self.pool.len();
        if texts > low + behind || !are_few(texts, more) {
            return Ok(None);
        }
        let mut places = Masked::with_capacity(alloc, (low + behind).saturating_add(more))?;
        places.push_values(&self.places, 0, low)?;
        places.push_values(&self.places, high, behind)?;
        let pool = self.pool.copy(alloc)?;
        Ok(Some(Texts { places, pool }))
    }

    /// The texts up to one index, those from another index on, and those between.
    fn rotated(self, alloc: Global, low: usize, middle: usize) -> Result<Texts, AllocError>
        requires ordered { low ≤ middle }
        requires in_range { middle ≤ length self }
        ensures { IfOk result (λ t. t ≡ take low self ++ (drop middle self ++ drop low (take middle self))) }
    {
        if low == middle || middle == self.len() {
            return Ok(self);
        }
        let Texts { places: old, pool } = self;
        let mut places = Masked::with_capacity(alloc, old.len())?;
        places.push_values(&old, 0, low)?;
        places.push_values(&old, middle, old.len() - middle)?;
        places.push_values(&old, low, middle - low)?;
        Ok(Texts { places, pool })
    }

    /// These texts, and then those of the picked rows, in the old column or at this index of a new row.
    fn with_picked<'a>(
        self,
        old: &'a Texts,
        column: usize,
        picks: &[Pick<'a>],
    ) -> Result<Texts, AllocError>
        requires within { AreWithin (length old.now) picks.now }
        requires fits { AreFit dtype_as.Text column picks.now }
        requires few { length self + length picks.now ≤ most_rows }
        ensures { IfOk result (λ t. map text_cell t ≡
            map text_cell self ++ picked_cells (map text_cell old.now) column picks.now) }
    {
        let Texts {
            mut places,
            mut pool,
        } = self;
        let mut lookup = Lookup::Along;
        push_rows(&mut places, &mut pool, &mut lookup, old, column, picks)?;
        Ok(Texts { places, pool })
    }
}
