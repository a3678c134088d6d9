//! The columns that carry the numbers of rows.
//!
//! A table of a frame has one, and a step of a view one for each scan below it: by these its rows are in order.
use df_plan::Plan;
use df_text::FrameSpec;
use df_value::{List, Named, Text, has_name};
use std::alloc::{AllocError, Global};

/// A plan has so many scans at most.
const MOST_SCANS: usize = 3;

/// A plan of 3 scans and 12 levels, of 32 columns each, names fewer columns than this.
const MOST_NAMES: usize = 2000;

/// Names for the columns of row numbers of a plan, a name for each scan that it may have: `number`, and behind it as many
/// underscores as it takes until no column in the plan has it.
pub fn number_names(
    alloc: Global,
    plan: &Plan,
    frames: &[FrameSpec],
) -> Result<List<Text>, AllocError> {
    let mut names = Vec::new(alloc);
    let mut name = String::from_str(alloc, "number")?;
    for _ in 0..MOST_NAMES {
        if names.len() == MOST_SCANS {
            break;
        }
        if !names_column(plan, frames, name.as_str()) {
            names.push(Text::from_str(alloc, name.as_str())?)?;
        }
        name.push('_')?;
    }
    Ok(List::from_vec(names))
}

// Whether a frame that a plan reads has a column of this name, or a step makes one. What a join adds to a name is passed over:
// no name of a column of row numbers ends with it.
fn names_column(plan: &Plan, frames: &[FrameSpec], name: &str) -> bool {
    match plan {
        Plan::Scan(at) => frame_has_column(frames, *at, name),
        Plan::Filter(input, _) => names_column(input.get(), frames, name),
        Plan::Select(input, items) | Plan::WithColumns(input, items) => {
            has_name(items.as_slice(), name) || names_column(input.get(), frames, name)
        }
        Plan::GroupBy(input, _, aggregates) => {
            has_name(aggregates.as_slice(), name) || names_column(input.get(), frames, name)
        }
        Plan::Join(left, right, _, _, _) => {
            names_column(left.get(), frames, name) || names_column(right.get(), frames, name)
        }
        Plan::Rolling(input, output, _, _, _, _) => {
            output.as_str() == name || names_column(input.get(), frames, name)
        }
        Plan::CumSum(input, output, _) | Plan::Rank(input, output, _, _) => {
            output.as_str() == name || names_column(input.get(), frames, name)
        }
    }
}

fn frame_has_column(frames: &[FrameSpec], at: usize, name: &str) -> bool {
    match frames.get(at) {
        Some(frame) => has_name(frame.schema.columns().as_slice(), name),
        None => false,
    }
}

/// How many scans a plan has.
pub fn scans(plan: &Plan) -> usize {
    match plan {
        Plan::Scan(_) => 1,
        Plan::Filter(input, _) | Plan::Select(input, _) | Plan::WithColumns(input, _) => {
            scans(input.get())
        }
        Plan::GroupBy(input, _, _) | Plan::CumSum(input, _, _) => scans(input.get()),
        Plan::Rolling(input, _, _, _, _, _) | Plan::Rank(input, _, _, _) => scans(input.get()),
        Plan::Join(left, right, _, _, _) => scans(left.get()).saturating_add(scans(right.get())),
    }
}

/// Whether a plan reads the frame at an index.
pub fn reads(plan: &Plan, frame: usize) -> bool {
    match plan {
        Plan::Scan(at) => *at == frame,
        Plan::Filter(input, _) | Plan::Select(input, _) | Plan::WithColumns(input, _) => {
            reads(input.get(), frame)
        }
        Plan::GroupBy(input, _, _) | Plan::CumSum(input, _, _) => reads(input.get(), frame),
        Plan::Rolling(input, _, _, _, _, _) | Plan::Rank(input, _, _, _) => {
            reads(input.get(), frame)
        }
        Plan::Join(left, right, _, _, _) => reads(left.get(), frame) || reads(right.get(), frame),
    }
}
