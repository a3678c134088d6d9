//! The tables of frames, and of plans over them.
ghost use Rattle.std.specs.Prelude.{◌≡◌, IfOk, map};
ghost use Rattle.df_frame.specs.FrameParts.{states_of};
ghost use Rattle.df_frame.specs.FrameTables.{table_parts};
ghost use Rattle.df_state.specs.States.{tables_of_frames, value_over};

use df_column::Table;
use df_frame::Frame;
use df_plan::{CheckedPlan, evaluate};
use df_value::{List, Row};
use std::alloc::{AllocError, Global};

/// Tables that share the rows of the frames.
pub fn shared_tables(alloc: Global, frames: &[Frame]) -> Result<Vec<Table>, AllocError>
    ensures { IfOk result (λ tables. tables.items ≡ map table_parts frames.now) }
{
    let mut tables = Vec::with_capacity(alloc, frames.len())?;
    for frame in frames {
        tables.push(frame.share(alloc)?)?;
    }
    Ok(tables)
}

/// The table of a plan over the frames, by the plain evaluator.
pub fn table_over(
    alloc: Global,
    plan: &CheckedPlan,
    frames: &[Frame],
) -> Result<List<Row>, AllocError>
    ensures { IfOk result (λ table. table ≡ value_over (states_of frames.now) plan.now) }
{
    let rows = frame_rows(alloc, frames)?;
    evaluate(alloc, plan, rows.as_slice())
}

// The rows of the frames.
fn frame_rows(alloc: Global, frames: &[Frame]) -> Result<Vec<List<Row>>, AllocError>
    ensures { IfOk result (λ rows. rows.items ≡ tables_of_frames (states_of frames.now)) }
{
    let mut rows = Vec::with_capacity(alloc, frames.len())?;
    for frame in frames {
        rows.push(frame.rows(alloc)?)?;
    }
    Ok(rows)
}
