//! The numbers of the rows of a frame's table.
ghost use Rattle.std.specs.Prelude.{◌≡◌, ◌<◌, IfOk, length, map, slice_index};
ghost use Rattle.df_frame.specs.FrameTables.{IsNumberedTable, numbered_rows};

use df_column::Table;
use df_value::List;
use std::alloc::{AllocError, Global};

/// The numbers of the rows, rising.
pub fn row_numbers(alloc: Global, table: &Table) -> Result<List<u32>, AllocError>
    requires { IsNumberedTable table.now.rows }
    ensures { IfOk result (λ numbers. numbers ≡ map (λ r. r.0) (numbered_rows table.now.rows)) }
{
    let mut numbers = Vec::with_capacity(alloc, table.len())?;
    for place in 0..table.len() {
        numbers.push(number_at(table, place))?;
    }
    Ok(List::from_vec(numbers))
}

/// The number of the row at this place.
pub fn number_at(table: &Table, place: usize) -> u32
    requires numbered { IsNumberedTable table.now.rows }
    requires within { place < length (numbered_rows table.now.rows) }
    ensures { result ≡ slice_index (map (λ r. r.0) (numbered_rows table.now.rows)) place }
{
    (table.tag(place).first - 1) as u32
}
