//! Cells, rows, schemas and chunks: what a table is made of.
//!
//! A [`Cell`] is null or a value of one of five types, and a [`CellRef`] such a cell that is lent. A [`Row`] is a list
//! of cells, a [`Schema`] the names and types of a table's columns, and a [`Chunk`] some rows of a frame with the
//! number of the first. Contracts see a [`Text`] as the list of its bytes, and a [`List`] as the list of its items.
#![tactic(auto)]

mod cell;
mod cell_ref;
mod chunk;
mod frac;
mod limits;
mod list;
mod names;
mod ordering;
mod results;
mod row;
mod schema;
mod shared;
mod source;
mod text;
mod traits;

pub use cell::{Cell, CellType};
pub use cell_ref::CellRef;
pub use chunk::{BadCell, Chunk, ChunkFault, Piece, RefusedRows};
pub use frac::Frac;
pub use limits::{
    MOST_COLUMNS, MOST_FRAMES, MOST_ROWS_OF_CHUNK, MOST_ROWS_OF_FRAME, MOST_VIEWS, ROW_NUMBERS,
};
pub use list::{List, copies};
pub use names::{Named, first_doubled_name, has_name, index_of_name};
pub use ordering::{compare, order};
pub use results::{both, push_made, then_drop};
pub use row::Row;
pub use schema::{Schema, SchemaFault, column_dtype, column_index};
pub use shared::Shared;
pub use source::Source;
pub use sqlite_items::Boxed;
pub use text::Text;
pub use traits::{Duplicate, Exact, same};
