//! CSV files: their records, and the chunks that are made of them.
//!
//! [`parse_records`] and [`read_records`] read records, as texts in the columns of a schema, and
//! [`parse_records_by`] and [`read_records_by`] by several threads. [`type_chunk`] makes a chunk of some of them,
//! [`type_piece`] of one piece of a file, and [`CsvSource`] is the source of all pieces. [`read_limited`] reads
//! bytes up to a limit.
#![tactic(auto)]

mod fault;
mod fields;
mod header;
mod layout;
mod limited;
mod part;
mod pieces;
mod reading;
mod records;
mod rows;
mod segments;
mod source;
mod threaded;
mod typed;

pub use fault::CsvFault;
pub use limited::{ReadLimitedFault, read_limited};
pub use pieces::{count_pieces, type_piece};
pub use reading::{
    MOST_BYTES_OF_FILE, parse_records, parse_records_by, read_records, read_records_by,
};
pub use records::Records;
pub use source::CsvSource;
pub use typed::type_chunk;
