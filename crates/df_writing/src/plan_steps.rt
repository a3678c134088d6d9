//! The steps of a plan, and the frame that it begins with, as a view document writes them.
ghost use Rattle.std.specs.Prelude.{◌≡◌, ◌++◌, List, OnOk, codes};
ghost use Rattle.df_text.specs.declared.document.FrameSpec.{FrameSpec as Frame};
ghost use Rattle.df_writing.specs.StepData as step_data;
ghost use Rattle.df_writing.specs.StepData.{frame_name, has_any, join_data, plan_table, side_data, written};
ghost use Rattle.df_writing.specs.Texts.{data_text};
ghost use Rattle.df_writing.specs.ViewTables.{steps_before, steps_text};

use crate::steps::{
    push_cum_sum, push_filter, push_group_by, push_join_end, push_join_head, push_outputs_of,
    push_rank, push_rolling,
};
use crate::toml_text::push_quoted;
use df_plan::{How, Plan};
use df_text::FrameSpec;
use df_value::Text;
use std::alloc::{AllocError, Global};

/// Adds the steps of a plan, in order, with this text between them.
#[cycle(steps)]
pub fn push_steps(
    alloc: Global,
    text: &mut Vec<u8>,
    plan: &Plan,
    frames: &[FrameSpec],
    between: &[u8],
) -> Result<(), AllocError>
    ensures { OnOk result (text.new.items ≡ text.old.items
        ++ steps_text between.now (written frames.now plan.now).steps) }
{
    match plan {
        Plan::Scan(_) => Ok(()),
        Plan::Filter(input, predicate) => {
            push_before(alloc, text, input.get(), frames, between)?;
            push_filter(alloc, text, predicate)
        }
        Plan::Select(input, outputs) => {
            push_before(alloc, text, input.get(), frames, between)?;
            push_outputs_of(alloc, text, "select", outputs.as_slice())
        }
        Plan::WithColumns(input, outputs) => {
            push_before(alloc, text, input.get(), frames, between)?;
            push_outputs_of(alloc, text, "with_columns", outputs.as_slice())
        }
        Plan::GroupBy(input, keys, aggregates) => {
            push_before(alloc, text, input.get(), frames, between)?;
            push_group_by(text, keys.as_slice(), aggregates.as_slice())
        }
        Plan::Join(left, right, how, keys, nulls_equal) => {
            push_before(alloc, text, left.get(), frames, between)?;
            let (how, nulls_equal) = (*how, *nulls_equal);
            push_join(
                alloc,
                text,
                right.get(),
                frames,
                how,
                keys.as_slice(),
                nulls_equal,
            )
        }
        Plan::Rolling(input, output, kind, column, w, m) => {
            push_before(alloc, text, input.get(), frames, between)?;
            push_rolling(alloc, text, output, *kind, column, *w, *m)
        }
        Plan::CumSum(input, output, column) => {
            push_before(alloc, text, input.get(), frames, between)?;
            push_cum_sum(text, output, column)
        }
        Plan::Rank(input, output, kind, column) => {
            push_before(alloc, text, input.get(), frames, between)?;
            push_rank(text, output, *kind, column)
        }
    }
}

// The steps before another one, and the text between it and them.
#[cycle(steps)]
fn push_before(
    alloc: Global,
    text: &mut Vec<u8>,
    plan: &Plan,
    frames: &[FrameSpec],
    between: &[u8],
) -> Result<(), AllocError>
    ensures { OnOk result (text.new.items ≡ text.old.items
        ++ steps_before between.now (written frames.now plan.now).steps) }
{
    if has_steps(plan) {
        push_steps(alloc, text, plan, frames, between)?;
        text.extend_from_slice(between)?;
        Ok(())
    } else {
        Ok(())
    }
}

#[cycle(steps)]
fn push_join(
    alloc: Global,
    text: &mut Vec<u8>,
    right: &Plan,
    frames: &[FrameSpec],
    how: How,
    keys: &[Text],
    nulls_equal: bool,
) -> Result<(), AllocError>
    ensures { OnOk result (text.new.items ≡ text.old.items
        ++ data_text (join_data (side_data frames.now (written frames.now right.now)) how keys.now
        nulls_equal)) }
{
    push_join_head(text, how, keys)?;
    push_side(alloc, text, right, frames)?;
    push_join_end(text, nulls_equal)
}

// The right side of a join.
#[cycle(steps)]
fn push_side(
    alloc: Global,
    text: &mut Vec<u8>,
    plan: &Plan,
    frames: &[FrameSpec],
) -> Result<(), AllocError>
    ensures { OnOk result (text.new.items ≡ text.old.items
        ++ data_text (side_data frames.now (written frames.now plan.now))) }
{
    if has_steps(plan) {
        push_source_table(alloc, text, plan, frames)
    } else {
        push_quoted(text, first_frame(frames, plan))
    }
}

// A plan that has steps, as a table.
#[cycle(steps)]
fn push_source_table(
    alloc: Global,
    text: &mut Vec<u8>,
    plan: &Plan,
    frames: &[FrameSpec],
) -> Result<(), AllocError>
    ensures { OnOk result (text.new.items ≡ text.old.items
        ++ data_text (plan_table frames.now (written frames.now plan.now))) }
{
    text.extend_from_slice(b"{ from = ")?;
    push_quoted(text, first_frame(frames, plan))?;
    text.extend_from_slice(b", steps = [")?;
    push_steps(alloc, text, plan, frames, b", ")?;
    text.extend_from_slice(b"] }")?;
    Ok(())
}

/// Whether a plan has steps.
pub fn has_steps(plan: &Plan) -> bool
    ensures { (frames : List Frame) → result ≡ has_any (written frames plan.now).steps }
{
    match plan {
        Plan::Scan(_) => false,
        Plan::Filter(_, _) => true,
        Plan::Select(_, _) => true,
        Plan::WithColumns(_, _) => true,
        Plan::GroupBy(_, _, _) => true,
        Plan::Join(_, _, _, _, _) => true,
        Plan::Rolling(_, _, _, _, _, _) => true,
        Plan::CumSum(_, _, _) => true,
        Plan::Rank(_, _, _, _) => true,
    }
}

/// The name of the frame that a plan begins with.
pub fn first_frame<'a>(frames: &'a [FrameSpec], plan: &Plan) -> &'a str
    ensures { result.now ≡ frame_name frames.now (written frames.now plan.now).source }
{
    match plan {
        Plan::Scan(at) => name_at(frames, *at),
        Plan::Filter(input, _) => first_frame(frames, input.get()),
        Plan::Select(input, _) => first_frame(frames, input.get()),
        Plan::WithColumns(input, _) => first_frame(frames, input.get()),
        Plan::GroupBy(input, _, _) => first_frame(frames, input.get()),
        Plan::Join(left, _, _, _, _) => first_frame(frames, left.get()),
        Plan::Rolling(input, _, _, _, _, _) => first_frame(frames, input.get()),
        Plan::CumSum(input, _, _) => first_frame(frames, input.get()),
        Plan::Rank(input, _, _, _) => first_frame(frames, input.get()),
    }
}

fn name_at(frames: &[FrameSpec], at: usize) -> &str
    ensures { result.now ≡ frame_name frames.now at }
{
    match frames.get(at) {
        Some(frame) => frame.name.as_str(),
        None => "",
    }
}
