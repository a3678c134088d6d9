//! What frames and views are: their columns with their types, how many rows the frames have, and the plans of the views.
ghost use Rattle.std.specs.Prelude.{◌≡◌, ◌++◌, IfOk, OnOk, Some, option_map, string_bytes};
ghost use Rattle.df_session.specs.Described as described;
ghost use Rattle.df_session.specs.Described.{column_text, columns_text, frame_line_of, frames_text, plan_text, schema_named, schema_text};
ghost use Rattle.df_session.specs.Told.{IsTold};
ghost use Rattle.df_writing.specs.ViewTables as writing;

use crate::definitions::Definitions;
use crate::prompts::plural_end;
use crate::refusal::{Mistake, Refusal};
use df_plan::Plan;
use df_text::{FrameSpec, escape};
use df_value::{CellType, Schema, Text};
use df_writing::{dtype_word, push_view_table};
use std::alloc::{AllocError, Global};

/// What knows how many rows each frame has.
pub trait RowCounts {
    ghost use Rattle.std.specs.Prelude.{◌≡◌, ℕ, Option};

    /// How many rows the frame at an index has, if there is one.
    ghost counts: { Self → ℕ → Option ℕ };

    fn row_count(&self, frame: usize) -> Option<u64>
        ensures { result ≡ counts self.now frame };
}

/// The frames of a document, a line each: the name, how many rows it has, and its columns with their types.
pub fn describe_frames<C: RowCounts>(
    alloc: Global,
    definitions: &Definitions,
    counts: &C,
) -> Result<Vec<u8>, AllocError>
    ensures { IfOk result (λ text. text.items ≡ frames_text definitions.now (C.counts counts.now)) }
{
    let frames = definitions.document.frames.as_slice();
    let mut text = Vec::new(alloc);
    for at in 0..frames.len() {
        push_frame(alloc, &mut text, &frames[at], counts.row_count(at))?;
    }
    Ok(text)
}

fn push_frame(
    alloc: Global,
    text: &mut Vec<u8>,
    spec: &FrameSpec,
    rows: Option<u64>,
) -> Result<(), AllocError>
    ensures { OnOk result (text.new.items ≡ text.old.items ++ frame_line_of (Some spec.now) rows) }
{
    let Some(rows) = rows else {
        return Ok(());
    };
    let head = frame_head(alloc, &spec.name, rows)?;
    text.extend_from_slice(head.as_bytes())?;
    push_columns(alloc, text, b", ", &spec.schema, b"")?;
    text.push(b'\n')?;
    Ok(())
}

fn frame_head(alloc: Global, name: &Text, rows: u64) -> Result<String, AllocError>
    ensures { IfOk result (λ head. string_bytes head ≡ described.frame_head name.now rows) }
{
    let name = escape(alloc, name.as_str())?;
    let name = name.as_str();
    let end = plural_end(rows as usize);
    format!(in alloc; "{name}: {rows} row{end}")
}

/// The columns of the document's frame of a name, or else of its view, a line each.
pub fn describe_table(
    alloc: Global,
    definitions: &Definitions,
    name: &str,
) -> Result<Vec<u8>, Refusal>
    ensures { IsTold (option_map schema_text (schema_named definitions.now name.now))
        (Refusal.Mistake Mistake.NoTable) result }
{
    match definitions.schema(name) {
        Some(schema) => Ok(describe_schema(alloc, schema)?),
        None => Err(Refusal::Mistake(Mistake::NoTable)),
    }
}

// The columns of a schema, a line each: the name and the type.
fn describe_schema(alloc: Global, schema: &Schema) -> Result<Vec<u8>, AllocError>
    ensures { IfOk result (λ text. text.items ≡ schema_text schema.now) }
{
    let mut text = Vec::new(alloc);
    push_columns(alloc, &mut text, b"", schema, b"\n")?;
    Ok(text)
}

// Each column between what stands before it and what stands behind it.
fn push_columns(
    alloc: Global,
    text: &mut Vec<u8>,
    before: &[u8],
    schema: &Schema,
    behind: &[u8],
) -> Result<(), AllocError>
    ensures { OnOk result (text.new.items
        ≡ text.old.items ++ columns_text before.now schema.now behind.now) }
{
    for column in schema.columns().as_slice() {
        text.extend_from_slice(before)?;
        push_column(alloc, text, column)?;
        text.extend_from_slice(behind)?;
    }
    Ok(())
}

fn push_column(
    alloc: Global,
    text: &mut Vec<u8>,
    column: &(Text, CellType),
) -> Result<(), AllocError>
    ensures { OnOk result (text.new.items ≡ text.old.items ++ column_text column.now) }
{
    let name = escape(alloc, column.0.as_str())?;
    text.extend_from_slice(name.as_bytes())?;
    text.push(b' ')?;
    text.extend_from_slice(dtype_word(column.1).as_bytes())?;
    Ok(())
}

/// The table of the view of a name, as the document has it, or would have it where the session defined it.
pub fn describe_plan(
    alloc: Global,
    definitions: &Definitions,
    name: &str,
) -> Result<Vec<u8>, Refusal>
    ensures { IsTold (plan_text definitions.now name.now) (Refusal.Mistake Mistake.NoView) result }
{
    match definitions.plan(name) {
        Some(plan) => Ok(view_table(alloc, definitions, name, plan.plan())?),
        None => Err(Refusal::Mistake(Mistake::NoView)),
    }
}

fn view_table(
    alloc: Global,
    definitions: &Definitions,
    name: &str,
    plan: &Plan,
) -> Result<Vec<u8>, AllocError>
    ensures { IfOk result (λ text.
        text.items ≡ writing.view_table name.now definitions.now.document.frames plan.now) }
{
    let mut text = Vec::new(alloc);
    let frames = definitions.document.frames.as_slice();
    push_view_table(alloc, &mut text, name, frames, plan)?;
    Ok(text)
}
