//! Whether a change of one frame is refused. Where memory is refused to a check it answers the same, by another way.
ghost use Rattle.std.specs.Prelude.{◌≡◌, ◌+◌, ◌≤◌, IfSome, Some, map, option_map, slice_get};
ghost use Rattle.std.specs.List.{AllZip, list_all};
ghost use Rattle.std.specs.Option.{option_copied};
ghost use Rattle.df_value.specs.Limits as limits;
ghost use Rattle.df_value.specs.Rows.{row_fits, rows_fit};
ghost use Rattle.df_frame.specs.FrameParts.{schemas_of, states_of};
ghost use Rattle.df_frame.specs.Frames.{IsFrame, IsNumbered};
ghost use Rattle.df_state.specs.Answers.{AnswersTest};
ghost use Rattle.df_state.specs.FrameChanges.{frame_refusal};
ghost use Rattle.df_state.specs.Refusals.{coming_refusal, delete_refusal, numbers_refusal, replace_refusal};

use crate::fault::CatalogueFault;
use crate::schemas::schema_eq;
use df_frame::{Frame, FrameChange, HasNumber, Numbered, first_doubled_number};
use df_value::Schema;
use std::alloc::Global;

/// Whether the rows of a frame can be changed so.
pub fn check_frame_change(
    alloc: Global,
    frames: &[Frame],
    frame: usize,
    change: FrameChange,
) -> Result<(), CatalogueFault>
    requires { AllZip IsFrame (schemas_of frames.now) (states_of frames.now) }
    ensures { AnswersTest
        (frame_refusal (schemas_of frames.now) (states_of frames.now) frame change.entry) result }
{
    match change {
        FrameChange::Append(chunk) => {
            let rows = chunk.rows();
            check_append(frames, frame, chunk.schema(), chunk.first(), rows.len())
        }
        FrameChange::Prepared(prepared) => {
            let count = prepared.len();
            check_append(frames, frame, prepared.schema(), prepared.first(), count)
        }
        FrameChange::Delete(numbers) => check_delete(alloc, frames, frame, numbers),
        FrameChange::Replace(rows) => check_replace(alloc, frames, frame, rows),
    }
}

/// The frame of this index.
pub fn frame_at(frames: &[Frame], frame: usize) -> Option<&Frame>
    requires { AllZip IsFrame (schemas_of frames.now) (states_of frames.now) }
    ensures schema { option_map (λ f. f.schema) (option_copied result)
        ≡ slice_get (schemas_of frames.now) frame }
    ensures state { option_map (λ f. f.state) (option_copied result)
        ≡ slice_get (states_of frames.now) frame }
    ensures sound { IfSome result (λ frame. IsNumbered frame.now.state) }
{
    frames.get(frame)
}

// Whether a frame would take so many rows of a schema, numbered from a first number on.
fn check_append(
    frames: &[Frame],
    frame: usize,
    schema: &Schema,
    first: u32,
    count: usize,
) -> Result<(), CatalogueFault>
    requires sound { AllZip IsFrame (schemas_of frames.now) (states_of frames.now) }
    requires numbered { first + count ≤ limits.row_numbers }
    requires few { count ≤ limits.most_rows_of_frame }
    ensures { AnswersTest (coming_refusal schema.now first count
        (slice_get (schemas_of frames.now) frame) (slice_get (states_of frames.now) frame)) result }
{
    match frame_at(frames, frame) {
        Some(frame) => check_coming(frame, schema, first, count),
        None => Err(CatalogueFault::NoFrame),
    }
}

// Whether the rows of these numbers can be taken out of a frame.
fn check_delete(
    alloc: Global,
    frames: &[Frame],
    frame: usize,
    numbers: &[u32],
) -> Result<(), CatalogueFault>
    requires { AllZip IsFrame (schemas_of frames.now) (states_of frames.now) }
    ensures { AnswersTest (delete_refusal numbers.now (slice_get (states_of frames.now) frame)) result }
{
    match frame_at(frames, frame) {
        Some(frame) => check_numbers(alloc, frame, numbers),
        None => Err(CatalogueFault::NoFrame),
    }
}

// Whether these rows can come in the place of those of their numbers.
fn check_replace(
    alloc: Global,
    frames: &[Frame],
    frame: usize,
    rows: &[Numbered],
) -> Result<(), CatalogueFault>
    requires { AllZip IsFrame (schemas_of frames.now) (states_of frames.now) }
    ensures { AnswersTest (replace_refusal rows.now (slice_get (schemas_of frames.now) frame)
        (slice_get (states_of frames.now) frame)) result }
{
    match frame_at(frames, frame) {
        Some(frame) => check_rows(alloc, frame, rows),
        None => Err(CatalogueFault::NoFrame),
    }
}

fn check_coming(
    frame: &Frame,
    schema: &Schema,
    first: u32,
    count: usize,
) -> Result<(), CatalogueFault>
    requires sound { IsNumbered frame.now.state }
    requires numbered { first + count ≤ limits.row_numbers }
    requires few { count ≤ limits.most_rows_of_frame }
    ensures { AnswersTest (coming_refusal schema.now first count (Some frame.now.schema)
        (Some frame.now.state)) result }
{
    if !schema_eq(schema, frame.schema()) {
        return Err(CatalogueFault::SchemaUnlike);
    }
    if let Some(number) = frame.first_accepted(first, count) {
        return Err(CatalogueFault::Taken(number));
    }
    if frame.has_no_room(count) {
        return Err(CatalogueFault::Full);
    }
    Ok(())
}

fn check_rows(alloc: Global, frame: &Frame, rows: &[Numbered]) -> Result<(), CatalogueFault>
    ensures { AnswersTest
        (replace_refusal rows.now (Some frame.now.schema) (Some frame.now.state)) result }
{
    if !all_fit(frame.schema(), rows) {
        return Err(CatalogueFault::SchemaUnlike);
    }
    check_numbers(alloc, frame, rows)
}

fn check_numbers<N: HasNumber>(
    alloc: Global,
    frame: &Frame,
    items: &[N],
) -> Result<(), CatalogueFault>
    ensures { AnswersTest (numbers_refusal (map N.number_of items.now) frame.now.state) result }
{
    if let Some(number) = first_doubled_number(alloc, items) {
        return Err(CatalogueFault::Doubled(number));
    }
    if let Some(number) = frame.first_not_live(items) {
        return Err(CatalogueFault::NotLive(number));
    }
    Ok(())
}

fn all_fit(schema: &Schema, rows: &[Numbered]) -> bool
    ensures { result ≡ rows_fit schema.now (map (λ r. r.1) rows.now) }
{
    each_fits(schema, rows)
}

fn each_fits(schema: &Schema, rows: &[Numbered]) -> bool
    ensures { result ≡ list_all (λ r. row_fits schema.now r.1) rows.now }
{
    rows.iter().all(|row| schema.fits(&row.1))
}
