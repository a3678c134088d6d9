//! Copies of the rows of a block.
ghost use Rattle.std.specs.Prelude.{◌≡◌, ◌++◌, OnOk, map};
ghost use Rattle.df_column.specs.Blocks.{block_rows};

use crate::block::Block;
use crate::tag::Tag;
use df_value::Row;
use std::alloc::{AllocError, Global};

/// Adds copies of the block's rows.
pub fn push_rows(alloc: Global, out: &mut Vec<Row>, block: &Block) -> Result<(), AllocError>
    ensures { OnOk result (out.new.items ≡ out.old.items ++ map (λ r. r.1) (block_rows block.now)) }
{
    for at in 0..block.tags().len() {
        let row = block.row(alloc, at)?;
        out.push(row)?;
    }
    Ok(())
}

/// Adds the block's tags with copies of their rows.
pub fn push_tagged_rows(
    alloc: Global,
    out: &mut Vec<(Tag, Row)>,
    block: &Block,
) -> Result<(), AllocError>
    ensures { OnOk result (out.new.items ≡ out.old.items ++ block_rows block.now) }
{
    let tags = block.tags();
    for at in 0..tags.len() {
        let row = block.row(alloc, at)?;
        out.push((tags.get(at), row))?;
    }
    Ok(())
}
