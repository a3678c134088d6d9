//! Views and documents as SQL.
ghost use Rattle.std.specs.Prelude.{MatchResult};
ghost use Rattle.std.specs.Option.{IsSome};
ghost use Rattle.df_session.specs.Answers.{IsRefusalOfSql};
ghost use Rattle.df_session.specs.Asked.{plan_named};

use crate::definitions::Definitions;
use crate::fault::ShellFault;
use crate::prepared::{Prepared, prepare};
use crate::refusal::{Mistake, Refusal};
use crate::writing::{Status, write_answer};
use df_document::Files;
use df_plan::CheckedPlan;
use df_sql::{push_document, push_view_script};
use std::alloc::{AllocError, Global};
use std::io::{Read, Write};
use std::thread::Threads;

/// The view of a name as SQL, behind the tables of the frames that it reads.
pub fn sql_of_view(alloc: Global, definitions: &Definitions, name: &str) -> Result<Vec<u8>, Refusal>
    ensures { MatchResult result (λ text. IsSome (plan_named definitions.now name.now))
        (IsRefusalOfSql (plan_named definitions.now name.now)) }
{
    match definitions.plan(name) {
        Some(plan) => Ok(view_script(alloc, definitions, name, plan)?),
        None => Err(Refusal::Mistake(Mistake::NoView)),
    }
}

fn view_script(
    alloc: Global,
    definitions: &Definitions,
    name: &str,
    plan: &CheckedPlan,
) -> Result<Vec<u8>, AllocError> {
    let frames = definitions.document.frames.as_slice();
    let mut text = Vec::new(alloc);
    push_view_script(alloc, &mut text, frames, name, plan)?;
    Ok(text)
}

/// Opens a document and its files as a session does, and writes its frames and views as SQL.
pub fn write_document_sql<R: Threads + Sync, V: Read, F: Files, W: Write>(
    rt: &R,
    alloc: Global,
    document: &mut V,
    files: &mut F,
    output: &mut W,
) -> Result<(), ShellFault> {
    let prepared = prepare(rt, alloc, document, files)?;
    let script = document_script(alloc, &prepared);
    drop(prepared);
    let script = script?;
    let written = write_answer(output, false, Status::Ok, &[script.as_slice()]);
    drop(script);
    written
}

fn document_script(alloc: Global, prepared: &Prepared) -> Result<Vec<u8>, AllocError> {
    let document = &prepared.definitions.document;
    let mut text = Vec::new(alloc);
    push_document(
        alloc,
        &mut text,
        document.frames.as_slice(),
        document.views.as_slice(),
        prepared.definitions.plans.as_slice(),
    )?;
    Ok(text)
}
