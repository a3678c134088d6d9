//! The sums of groups.
ghost use Rattle.std.specs.Prelude.{◌≡◌, IfOk, map};
ghost use Rattle.df_ops.specs.Aggregates as aggregates_spec;
ghost use Rattle.df_ops.specs.Aggregates.{cells_of, total};
ghost use Rattle.df_ops.specs.Groups as groups_spec;

use crate::aggregates::sum_of;
use crate::groups::{group_of, keys_of};
use df_value::Row;
use std::alloc::{AllocError, Global};

/// The sum of each group's cells at an index, in the order of the keys. Together they are the sum
/// of all rows.
pub fn group_sums(
    alloc: Global,
    indices: &[Option<usize>],
    rows: &[Row],
    index: Option<usize>,
) -> Result<Vec<i128>, AllocError>
    ensures value { IfOk result (λ sums. sums.items ≡
        map (λ k. aggregates_spec.sum_of
        (cells_of index (groups_spec.group_of indices.now rows.now k)))
        (groups_spec.keys_of indices.now rows.now)) }
    ensures whole { IfOk result
        (λ sums. total sums.items ≡ aggregates_spec.sum_of (cells_of index rows.now)) }
{
    sums_of_groups(alloc, indices, rows, index)
}

fn sums_of_groups(
    alloc: Global,
    indices: &[Option<usize>],
    rows: &[Row],
    index: Option<usize>,
) -> Result<Vec<i128>, AllocError>
    ensures { IfOk result (λ sums. sums.items ≡
        map (λ k. aggregates_spec.sum_of
        (cells_of index (groups_spec.group_of indices.now rows.now k)))
        (groups_spec.keys_of indices.now rows.now)) }
{
    let keys = keys_of(alloc, indices, rows)?;
    let keys = keys.as_slice();
    let mut sums = Vec::with_capacity(alloc, keys.len())?;
    for key in keys {
        let group = group_of(alloc, indices, rows, key)?;
        sums.push(sum_of(index, group.as_slice()))?;
    }
    Ok(sums)
}
