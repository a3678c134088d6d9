//! Views as a view document writes them.
ghost use Rattle.std.specs.Prelude.{◌≡◌, ◌++◌, OnOk, true};
ghost use Rattle.df_writing.specs.Sayable.{AreSaid, IsReadBack, can_be_said};
ghost use Rattle.df_writing.specs.StepData.{written};
ghost use Rattle.df_writing.specs.ViewTables.{step_lines, view_head, view_table};

use crate::plan_steps::{first_frame, has_steps, push_steps};
use crate::toml_text::push_quoted;
use df_plan::Plan;
use df_text::FrameSpec;
use std::alloc::{AllocError, Global};

/// Adds the table of a view of this name and plan, over these frames. A plan that a document can say is read of it again: one
/// over frames of different names, of typed literals, and of at most 64 steps in each right side.
#[tactic(auto, using(crate::proofs::ReadPlans::plan_back), unfolding(crate::specs::ViewTables::view_table))]
pub fn push_view_table(
    alloc: Global,
    text: &mut Vec<u8>,
    name: &str,
    frames: &[FrameSpec],
    plan: &Plan,
) -> Result<(), AllocError>
    ensures text { OnOk result (text.new.items ≡ text.old.items
        ++ view_table name.now frames.now plan.now) }
    ensures read_back { can_be_said frames.now plan.now ≡ true → IsReadBack frames.now plan.now }
{
    push_head(text, name, first_frame(frames, plan))?;
    push_lines(alloc, text, frames, plan)
}

/// Tells that a document can say the plan of each view that is read over these frames, so that [`push_view_table`] writes what is
/// read as this plan.
#[tactic(auto, using(crate::proofs::SaidFacts::views_said))]
pub fn tell_sayable(frames: &[FrameSpec])
    ensures { AreSaid frames.now }
{
    let _frames = frames;
}

fn push_head(text: &mut Vec<u8>, name: &str, source: &str) -> Result<(), AllocError>
    ensures { OnOk result (text.new.items ≡ text.old.items ++ view_head name.now source.now) }
{
    text.extend_from_slice(b"[[view]]\nname = ")?;
    push_quoted(text, name)?;
    text.extend_from_slice(b"\nfrom = ")?;
    push_quoted(text, source)?;
    text.extend_from_slice(b"\nsteps = ")?;
    Ok(())
}

// The array of the steps, a line each.
fn push_lines(
    alloc: Global,
    text: &mut Vec<u8>,
    frames: &[FrameSpec],
    plan: &Plan,
) -> Result<(), AllocError>
    ensures { OnOk result (text.new.items ≡ text.old.items
        ++ step_lines (written frames.now plan.now).steps) }
{
    if has_steps(plan) {
        text.extend_from_slice(b"[\n  ")?;
        push_steps(alloc, text, plan, frames, b",\n  ")?;
        text.extend_from_slice(b",\n]\n")?;
        Ok(())
    } else {
        text.extend_from_slice(b"[]\n")?;
        Ok(())
    }
}
