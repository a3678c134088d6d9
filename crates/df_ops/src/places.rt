//! Where the cells of a row come from, among whose cells others are put.
ghost use Rattle.std.specs.Prelude.{◌≡◌, Some, IfOk, map};
ghost use Rattle.df_value.specs.Rows as rows;
ghost use Rattle.df_ops.specs.Places as places_spec;
ghost use Rattle.df_ops.specs.Places.{cells_from, placed_cell};

use crate::named_columns::with_columns;
use df_value::{Cell, Duplicate, Row, Text, push_made};
use std::alloc::{AllocError, Global};

/// Whether a cell is a row's own or an added one.
#[derive(Clone, Copy, PartialEq, Eq)]
pub enum Origin {
    /// The row's own cells.
    Row,
    /// The added cells.
    Added,
}

/// Which cell stands somewhere: the one at an index of the row's own, or of the added ones.
#[derive(Clone, Copy, PartialEq, Eq)]
pub struct Place {
    /// Whose index it is.
    pub origin: Origin,
    /// The index of the cell.
    pub index: usize,
}

impl Duplicate for Place {
    fn copy(&self, _alloc: Global) -> Result<Place, AllocError> {
        Ok(*self)
    }
}

/// The places of the cells of a row among whose cells others are put, made once for all rows: each
/// added cell in the place of the column of its name, and at the end where no column has it.
pub fn places_of<A, B>(
    alloc: Global,
    own: &[(Text, A)],
    added: &[(Text, B)],
) -> Result<Vec<Place>, AllocError>
    ensures { IfOk result (λ places. places.items ≡ places_spec.places_of own.now added.now) }
{
    let own = numbered(alloc, Origin::Row, own)?;
    let added = numbered(alloc, Origin::Added, added)?;
    let places = with_columns(alloc, own.as_slice(), added.as_slice())?;
    unnamed(alloc, places.as_slice())
}

fn numbered<T>(
    alloc: Global,
    origin: Origin,
    items: &[(Text, T)],
) -> Result<Vec<(Text, Place)>, AllocError>
    ensures { IfOk result (λ places. places.items ≡ places_spec.numbered origin items.now) }
{
    let mut places = Vec::with_capacity(alloc, items.len())?;
    for (index, item) in items.iter().enumerate() {
        places.push((item.0.copy(alloc)?, Place { origin, index }))?;
    }
    Ok(places)
}

fn unnamed(alloc: Global, named: &[(Text, Place)]) -> Result<Vec<Place>, AllocError>
    ensures { IfOk result (λ places. places.items ≡ map (λ p. p.1) named.now) }
{
    let mut places = Vec::with_capacity(alloc, named.len())?;
    for place in named {
        places.push(place.1)?;
    }
    Ok(places)
}

/// The row of copies of the cells at these places.
pub fn placed_row(
    alloc: Global,
    places: &[Place],
    row: &[Cell],
    added: &[Cell],
) -> Result<Row, AllocError>
    ensures { IfOk result (λ r. r ≡ map (placed_cell row.now added.now) places.now) }
{
    let mut cells = Vec::with_capacity(alloc, places.len())?;
    for place in places {
        let from = cells_at(place.origin, row, added);
        push_made(&mut cells, copy_at(alloc, place.index, from))?;
    }
    Row::new(alloc, cells)
}

fn cells_at<'a>(origin: Origin, row: &'a [Cell], added: &'a [Cell]) -> &'a [Cell]
    ensures { result.now ≡ cells_from origin row.now added.now }
{
    match origin {
        Origin::Row => row,
        Origin::Added => added,
    }
}

fn copy_at(alloc: Global, index: usize, cells: &[Cell]) -> Result<Cell, AllocError>
    ensures { IfOk result (λ c. c ≡ rows.cell_at (Some index) cells.now) }
{
    match cells.get(index) {
        Some(cell) => cell.copy(alloc),
        None => Ok(Cell::Null),
    }
}
