//! One more view, behind those of a document.
ghost use Rattle.df_document.specs.Answers.{AnswersOfBytes};
ghost use Rattle.df_document.specs.Opening.{next_view_in, next_view_read, plan_of, schemas_of};

use crate::fault::DocumentFault;
use crate::opening::{check_view, copy_schemas};
use df_plan::CheckedPlan;
use df_text::{ViewSpec, Views, ViewsFault, read_next_view};
use std::alloc::Global;

/// Reads one more view over a document's frames, behind its views, and checks its plan: its name, the name of the frame
/// that it begins with, and its steps, the array that a document has behind `steps = `.
pub fn open_next_view(
    alloc: Global,
    document: &Views,
    name: &str,
    source: &str,
    steps: &[u8],
) -> Result<(ViewSpec, CheckedPlan), DocumentFault>
    ensures { AnswersOfBytes (next_view_in document.now name.now source.now steps.now) result }
{
    let view = next_view(alloc, document, name, source, steps)?;
    match plan_over(alloc, document, &view) {
        Ok(plan) => Ok((view, plan)),
        Err(fault) => Err(fault),
    }
}

fn next_view(
    alloc: Global,
    document: &Views,
    name: &str,
    source: &str,
    steps: &[u8],
) -> Result<ViewSpec, DocumentFault>
    ensures { AnswersOfBytes (next_view_read document.now name.now source.now steps.now) result }
{
    let frames = document.frames.as_slice();
    let views = document.views.as_slice();
    match read_next_view(alloc, frames, views, name, source, steps) {
        Ok(view) => Ok(view),
        Err(ViewsFault::Memory) => Err(DocumentFault::Memory),
        Err(fault) => Err(DocumentFault::Views(fault)),
    }
}

// The plan of a view, checked over the document's frames.
fn plan_over(alloc: Global, document: &Views, view: &ViewSpec) -> Result<CheckedPlan, DocumentFault>
    ensures { AnswersOfBytes (plan_of (schemas_of document.now.frames) view.now) result }
{
    let schemas = copy_schemas(alloc, document.frames.as_slice())?;
    check_view(alloc, schemas.as_slice(), view)
}
