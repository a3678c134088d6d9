//! Texts that are added to a column, of which each is looked up in the pool.
ghost use Rattle.std.specs.Prelude.{◌≡◌, ◌<◌, ◌≤◌, ◌+◌, ◌-◌, ◌++◌, ◌∷◌, [], drop, length, map, take, IfOk, OnOk};
ghost use Rattle.df_value.specs.declared.cell.CellType.TheVariants as dtype_as;
ghost use Rattle.df_column.specs.Picks.{AreFit, AreWithin, picked_cells, spliced};
ghost use Rattle.df_column.specs.Pools as pools;
ghost use Rattle.df_column.specs.Pools.{place_of};
ghost use Rattle.df_column.specs.Sizes.{most_rows};
ghost use Rattle.df_column.specs.Texts.{ArePlaces, pool_text, text_now};
ghost use Rattle.df_column.specs.Lookups.{IsLookup};
ghost use Rattle.df_column.specs.ValueCells.{text_cell};

use crate::masked::Masked;
use crate::picks::Pick;
use crate::pool::TextPool;
use crate::texts::{FEW_ROWS, Texts, text_from};
use indexmap::IndexSet;
use std::alloc::{AllocError, Global};

/// Adds the text to the pool if it is none of the known ones, which are those of the pool, and gives its place.
fn put_known<'a>(
    pool: &mut TextPool,
    known: &mut IndexSet<&'a str>,
    text: &'a str,
) -> Result<u32, AllocError>
    requires few { length pool.old < most_rows }
    requires known { map (λ t. t.now) known.old.keys ≡ pool.old }
    ensures place { IfOk result (λ p. p ≡ pools.place_or_end (place_of text.now pool.old) pool.old) }
    ensures texts { OnOk result (pool.new ≡
        pools.with_text (place_of text.now pool.old) pool.old text.now) }
    ensures known { OnOk result (map (λ t. t.now) known.new.keys ≡ pool.new) }
{
    let (place, is_new) = known.insert_full(text)?;
    if !is_new {
        return Ok(place as u32);
    }
    let place = pool.push(text)?;
    Ok(place)
}

/// How the texts of a pool are looked up.
pub enum Lookup<'a> {
    /// Each of them may be looked at.
    Along,
    /// By their hashes, in the set of them.
    ByHash(IndexSet<&'a str>),
}

// A body that owns one drops it by a call.
impl Drop for Lookup<'_> {
    fn drop(self) {
        match self {
            Lookup::Along => {}
            Lookup::ByHash(known) => drop(known),
        }
    }
}

/// The place of the text in the pool, where it goes to the end if it is not there.
fn place_of_text<'a>(
    pool: &mut TextPool,
    lookup: &mut Lookup<'a>,
    text: &'a str,
) -> Result<u32, AllocError>
    requires few { length pool.old < most_rows }
    requires lookup { IsLookup pool.old lookup.old }
    ensures place { IfOk result (λ p. p ≡ pools.place_or_end (place_of text.now pool.old) pool.old) }
    ensures texts { OnOk result (pool.new ≡
        pools.with_text (place_of text.now pool.old) pool.old text.now) }
    ensures lookup { OnOk result (IsLookup pool.new lookup.new) }
{
    match lookup {
        Lookup::Along => pool.put(text),
        Lookup::ByHash(known) => put_known(pool, known, text),
    }
}

/// Adds the text or a null to the places, and a new text to the pool.
fn push_text<'a>(
    places: &mut Masked<u16>,
    pool: &mut TextPool,
    lookup: &mut Lookup<'a>,
    text: Option<&'a str>,
) -> Result<(), AllocError>
    requires sound { ArePlaces pool.old places.old }
    requires few { length places.old < most_rows }
    requires lookup { IsLookup pool.old lookup.old }
    ensures sound { OnOk result (ArePlaces pool.new places.new) }
    ensures len { OnOk result (length places.new ≡ length places.old + 1) }
    ensures texts { OnOk result (map (pool_text pool.new) places.new ≡
        map (pool_text pool.old) places.old ++ text_now text.entry ∷ []) }
    ensures lookup { OnOk result (IsLookup pool.new lookup.new) }
{
    match text {
        Some(text) => {
            let place = place_of_text(pool, lookup, text)?;
            places.push(Some(place as u16), 0)?;
            Ok(())
        }
        None => {
            places.push(None, 0)?;
            Ok(())
        }
    }
}

/// Adds the texts of a column from one index up to another, as [`push_text`] does each.
fn push_range<'a>(
    places: &mut Masked<u16>,
    pool: &mut TextPool,
    lookup: &mut Lookup<'a>,
    old: &'a Texts,
    low: usize,
    high: usize,
) -> Result<(), AllocError>
    requires sound { ArePlaces pool.old places.old }
    requires ordered { low ≤ high }
    requires in_range { high ≤ length old.now }
    requires few { length places.old + (high - low) ≤ most_rows }
    requires lookup { IsLookup pool.old lookup.old }
    ensures sound { OnOk result (ArePlaces pool.new places.new) }
    ensures texts { OnOk result (map (pool_text pool.new) places.new ≡
        map (pool_text pool.old) places.old ++ drop low (take high old.now)) }
    ensures lookup { OnOk result (IsLookup pool.new lookup.new) }
{
    for at in low..high {
        push_text(places, pool, lookup, old.get(at))?;
    }
    Ok(())
}

/// Adds the texts of the picked rows, in the old column or at this index of a new row, as [`push_text`] does each.
pub fn push_rows<'a>(
    places: &mut Masked<u16>,
    pool: &mut TextPool,
    lookup: &mut Lookup<'a>,
    old: &'a Texts,
    column: usize,
    picks: &[Pick<'a>],
) -> Result<(), AllocError>
    requires sound { ArePlaces pool.old places.old }
    requires lookup { IsLookup pool.old lookup.old }
    requires within { AreWithin (length old.now) picks.now }
    requires fits { AreFit dtype_as.Text column picks.now }
    requires few { length places.old + length picks.now ≤ most_rows }
    ensures sound { OnOk result (ArePlaces pool.new places.new) }
    ensures texts { OnOk result (map text_cell (map (pool_text pool.new) places.new) ≡
        map text_cell (map (pool_text pool.old) places.old)
        ++ picked_cells (map text_cell old.now) column picks.now) }
    ensures lookup { OnOk result (IsLookup pool.new lookup.new) }
{
    for pick in picks {
        push_text(places, pool, lookup, text_from(old, column, pick.origin))?;
    }
    Ok(())
}

/// How the texts of a new block of so many rows are looked up. No text is known yet.
fn new_lookup<'a>(alloc: Global, rows: usize) -> Result<Lookup<'a>, AllocError>
    ensures { IfOk result (IsLookup []) }
{
    if rows <= FEW_ROWS {
        return Ok(Lookup::Along);
    }
    Ok(Lookup::ByHash(IndexSet::with_capacity(alloc, rows)?))
}

/// The texts up to one index, those of the picked rows, and the texts from another index on, over a new pool.
pub fn spliced_anew<'a>(
    alloc: Global,
    old: &'a Texts,
    low: usize,
    high: usize,
    column: usize,
    picks: &[Pick<'a>],
) -> Result<Texts, AllocError>
    requires ordered { low ≤ high }
    requires in_range { high ≤ length old.now }
    requires within { AreWithin (length old.now) picks.now }
    requires fits { AreFit dtype_as.Text column picks.now }
    requires few { low + length picks.now + (length old.now - high) ≤ most_rows }
    ensures { IfOk result (λ t. map text_cell t ≡
        spliced low high (picked_cells (map text_cell old.now) column picks.now) (map text_cell old.now)) }
{
    let room = low + picks.len() + (old.len() - high);
    let mut lookup = new_lookup(alloc, room)?;
    let mut places = Masked::with_capacity(alloc, room)?;
    let mut pool = TextPool::new(alloc);
    push_range(&mut places, &mut pool, &mut lookup, old, 0, low)?;
    push_rows(&mut places, &mut pool, &mut lookup, old, column, picks)?;
    push_range(&mut places, &mut pool, &mut lookup, old, high, old.len())?;
    Ok(Texts { places, pool })
}
