//! Whole documents, and single views with what they need.
use crate::frames::{push_copy, push_table};
use crate::numbers::reads;
use crate::statement::Statement;
use crate::views::push_view;
use df_plan::CheckedPlan;
use df_text::{FrameSpec, ViewSpec};
use std::alloc::{AllocError, Global};

const HEAD: &[u8] =
    b"-- Frames and views of a document, in the dialect of PostgreSQL, for psql. NAME.csv is what `rows NAME csv` of dfshell answers.\n";

const SCHEMAS: &[u8] = b"CREATE SCHEMA IF NOT EXISTS frames;\nCREATE SCHEMA IF NOT EXISTS views;\n";

const ODD_NAME: &[u8] =
    b"-- Not exact: a name is empty, has more than 63 bytes or a zero byte, which PostgreSQL does not take.\n";

const ZERO_BYTE: &[u8] = b"-- Not exact: a text has a zero byte, which PostgreSQL does not take.\n";

/// Adds the statements of a document to a text: its frames as tables, each with a line of `psql` that fills it, and its views
/// in their order. The plans are those of the views.
///
/// Where PostgreSQL does not take a name or a text, a comment above the statement says so.
pub fn push_document(
    alloc: Global,
    text: &mut Vec<u8>,
    frames: &[FrameSpec],
    views: &[ViewSpec],
    plans: &[CheckedPlan],
) -> Result<(), AllocError> {
    text.extend_from_slice(HEAD)?;
    text.extend_from_slice(SCHEMAS)?;
    for at in 0..frames.len() {
        push_frame(alloc, text, frames, at)?;
        push_copy_line(alloc, text, frames[at].name.as_str())?;
    }
    for (view, plan) in views.iter().zip(plans) {
        push_view_statement(alloc, text, frames, view.name.as_str(), plan)?;
    }
    Ok(())
}

/// Adds the statement of a view to a text, behind those of the tables that it reads.
pub fn push_view_script(
    alloc: Global,
    text: &mut Vec<u8>,
    frames: &[FrameSpec],
    name: &str,
    plan: &CheckedPlan,
) -> Result<(), AllocError> {
    text.extend_from_slice(SCHEMAS)?;
    for at in 0..frames.len() {
        if reads(plan.plan(), at) {
            push_frame(alloc, text, frames, at)?;
        }
    }
    push_view_statement(alloc, text, frames, name, plan)
}

fn push_frame(
    alloc: Global,
    text: &mut Vec<u8>,
    frames: &[FrameSpec],
    at: usize,
) -> Result<(), AllocError> {
    let mut statement = Statement::new(alloc);
    let pushed = push_table(alloc, &mut statement, frames, at);
    let added = add_made(text, &statement, pushed);
    drop(statement);
    added
}

fn push_copy_line(alloc: Global, text: &mut Vec<u8>, name: &str) -> Result<(), AllocError> {
    let mut line = Statement::new(alloc);
    let pushed = push_copy(alloc, &mut line, name);
    let added = add_made(text, &line, pushed);
    drop(line);
    added
}

fn push_view_statement(
    alloc: Global,
    text: &mut Vec<u8>,
    frames: &[FrameSpec],
    name: &str,
    plan: &CheckedPlan,
) -> Result<(), AllocError> {
    let mut statement = Statement::new(alloc);
    let pushed = push_view(alloc, &mut statement, frames, name, plan);
    let added = add_made(text, &statement, pushed);
    drop(statement);
    added
}

fn add_made(
    text: &mut Vec<u8>,
    statement: &Statement,
    made: Result<(), AllocError>,
) -> Result<(), AllocError> {
    made?;
    add(text, statement)
}

// Adds a statement, under what is not exact in it.
fn add(text: &mut Vec<u8>, statement: &Statement) -> Result<(), AllocError> {
    text.extend_from_slice(b"\n")?;
    if statement.has_odd_name {
        text.extend_from_slice(ODD_NAME)?;
    }
    if statement.has_zero_byte {
        text.extend_from_slice(ZERO_BYTE)?;
    }
    text.extend_from_slice(statement.text.as_slice())
}
