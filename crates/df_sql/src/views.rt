//! Views.
ghost use Rattle.std.specs.Prelude.{◌≡◌};

use crate::numbers::number_names;
use crate::plans::{Over, push_steps};
use crate::statement::{Piece, Statement};
use crate::steps::{push_order, push_step_name};
use df_plan::CheckedPlan;
use df_text::FrameSpec;
use df_value::{CellType, Text};
use std::alloc::{AllocError, Global};

/// Adds the view of a name and a plan over these frames.
pub fn push_view(
    alloc: Global,
    out: &mut Statement,
    frames: &[FrameSpec],
    name: &str,
    plan: &CheckedPlan,
) -> Result<(), AllocError> {
    let order = number_names(alloc, plan.plan(), frames)?;
    let over = Over {
        frames,
        schemas: plan.frames().as_slice(),
        order: order.as_slice(),
    };
    let pushed = push_over(alloc, out, over, name, plan);
    drop(order);
    pushed
}

fn push_over(
    alloc: Global,
    out: &mut Statement,
    over: Over<'_>,
    name: &str,
    plan: &CheckedPlan,
) -> Result<(), AllocError>
    requires { over.schemas.now ≡ plan.now.frames }
{
    out.push(&[
        Piece::Sql("CREATE VIEW views."),
        Piece::Name(name),
        Piece::Sql(" AS\n"),
    ])?;
    let last = push_steps(alloc, plan.plan(), out, over, 1)?;
    push_selected(out, plan.schema().columns().as_slice())?;
    out.push(&[Piece::Sql("\nFROM ")])?;
    push_step_name(out, last)?;
    out.push(&[Piece::Sql("\n")])?;
    push_order(out, over.order_of(plan.plan()))?;
    out.push(&[Piece::Sql(";\n")])
}

// The columns of a view.
fn push_selected(out: &mut Statement, columns: &[(Text, CellType)]) -> Result<(), AllocError> {
    let mut before = "\nSELECT ";
    for column in columns {
        out.push(&[Piece::Sql(before), Piece::Name(column.0.as_str())])?;
        before = ", ";
    }
    Ok(())
}
