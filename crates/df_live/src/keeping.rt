//! A view's table after a change, and what is kept of the change.
ghost use Rattle.std.specs.Prelude.{◌≡◌, IfOk, Some, None, if◌then◌else◌};
ghost use Rattle.df_column.specs.Changes.{applied};
ghost use Rattle.df_delta.specs.Deltas.{RowsFit};

use crate::tree_delta::TreeDelta;
use df_column::Table;
use df_delta::{Delta, apply};
use df_value::Shared;
use std::alloc::{AllocError, Global};

/// The table after these changes, and the changes themselves where they are kept.
pub fn with_changes(
    alloc: Global,
    table: &Table,
    changes: TreeDelta<'_>,
    keeps: bool,
) -> Result<(Table, Option<Shared<Delta>>), AllocError>
    ensures schema { IfOk result (λ made. made.0.schema ≡ table.now.schema) }
    ensures rows { IfOk result (λ made. RowsFit table.now.schema (applied table.now.rows changes.entry)
        → made.0.rows ≡ applied table.now.rows changes.entry) }
    ensures kept { IfOk result (λ made. made.1 ≡ (if keeps then Some changes.entry else None)) }
{
    match apply(alloc, table, changes.get()) {
        Ok(after) => {
            let kept = if_kept(alloc, changes, keeps)?;
            Ok((after, kept))
        }
        Err(refused) => {
            drop(changes);
            Err(refused)
        }
    }
}

// The changes, where they are kept.
fn if_kept(
    alloc: Global,
    changes: TreeDelta<'_>,
    keeps: bool,
) -> Result<Option<Shared<Delta>>, AllocError>
    ensures { IfOk result (λ kept. kept ≡ (if keeps then Some changes.entry else None)) }
{
    if !keeps {
        drop(changes);
        return Ok(None);
    }
    let own = changes.into_own(alloc)?;
    Ok(Some(Shared::new(alloc, own)?))
}
