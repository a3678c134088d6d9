//! The pieces of a CSV file.
ghost use Rattle.std.specs.Prelude.{◌≡◌, ◌<◌, ◌≤◌, IfOk, Some, length, slice_get};
ghost use Rattle.df_value.specs.Limits.{most_rows_of_chunk};
ghost use Rattle.df_csv.specs.Records.{IsRecords};
ghost use Rattle.df_csv.specs.Typed.{piece_count, pieces_of};

use crate::records::Records;
use crate::typed::type_chunk;
use df_value::{Piece, Schema};
use std::alloc::{AllocError, Global};

/// How many pieces of at most `k` records these records make; none where there is no record.
pub fn count_pieces(records: &Records, k: usize) -> usize
    requires { 0 < k }
    ensures { result ≡ piece_count k (length records.now) }
{
    records.len().div_ceil(k)
}

/// Piece `n`, from 0, of the typed pieces of `k` records: [`type_chunk`] of the records from `n *
/// k` on, of which the last piece may have fewer. `Err` says that memory was refused.
pub fn type_piece(
    alloc: Global,
    records: &Records,
    schema: &Schema,
    k: usize,
    n: usize,
) -> Result<Piece, AllocError>
    requires sound { IsRecords (length schema.now) records.now }
    requires some { 0 < k }
    requires short { k ≤ most_rows_of_chunk }
    requires within { n < piece_count k (length records.now) }
    ensures { IfOk result (λ made. slice_get (pieces_of schema.now k records.now) n ≡ Some made) }
{
    let first = n * k;
    let left = records.len() - first;
    let made = type_chunk(alloc, records, schema, first as u32, k.min(left))?;
    Ok(made)
}
