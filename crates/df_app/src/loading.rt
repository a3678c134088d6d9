//! The loading of a document: workers bring the chunks of its sources into a hall.
ghost use Rattle.std.specs.Prelude.{◌≡◌, ◌≤◌, All, IfErr, IfOk, length, true};
ghost use Rattle.df_value.specs.Limits as limits;
ghost use Rattle.df_value.specs.Schemas.{is_base};
ghost use Rattle.df_state.specs.Desks as desks_spec;
ghost use Rattle.df_state.specs.Ledgers as ledgers;
ghost use Rattle.df_text.specs.Document.{IsDocument};
ghost use Rattle.df_document.specs.Opening as opening;
ghost use Rattle.df_document.specs.Sources.{IsSourceOf};
ghost use Rattle.df_app.specs.Loading.{IsFaultOfLoad, IsOutputOfLoad, headings_in};
ghost use Rattle.df_store.specs.Loads.{AllowsLoad};
ghost use Rattle.df_versions.specs.Histories.{schemas_of};

use crate::fault::{NamedLoadCause, RunFault};
use crate::outcome::Output;
use crate::output::output;
use df_document::{SourcedDocument, copy_schemas};
use df_plan::CheckedPlan;
use df_store::{Gate, OpenedHall, load_all};
use df_text::{FrameSpec, ViewSpec};
use df_value::{Duplicate, Text};
use df_versions::{Naming, OpenFault};
use std::alloc::{AllocError, Global};
use std::marker::Brand;
use std::sync::Wait;
use std::sync::ledger::{Blank, Ledger};
use std::thread::Threads;

/// Loads the sources of a document by so many workers, each of which passes the gate before it makes
/// a chunk, and gives what a run writes.
pub(crate) fn load_output<
    Acc: Ledger + Send + Sync,
    Del: Ledger + Send + Sync,
    G: Gate + Sync,
    R: Threads + Wait + Sync,
>(
    rt: &R,
    alloc: Global,
    accepted: Blank,
    deleted: Blank,
    sourced: &SourcedDocument,
    workers: usize,
    chunk: usize,
    gate: &G,
) -> Result<Output, RunFault>
    requires accepted_name { accepted.name ≡ Acc.name }
    requires accepted_parts { (accepted.parts ≡ Acc.parts)
        × (accepted.parts ≡ ledgers.parts_of_ledger) }
    requires deleted_name { deleted.name ≡ Del.name }
    requires deleted_parts { (deleted.parts ≡ Del.parts)
        × (deleted.parts ≡ ledgers.parts_of_ledger) }
    requires sound { IsDocument sourced.now.document }
    requires plans { length sourced.now.plans ≡ length sourced.now.document.views }
    requires sources { length sourced.now.sources ≡ length sourced.now.document.frames }
    requires some { 1 ≤ chunk }
    requires each { All (IsSourceOf chunk) sourced.now.sources }
    ensures output { IfOk result (IsOutputOfLoad sourced.now) }
    ensures fault { IfErr result (IsFaultOfLoad sourced.now) }
{
    // The headings come first: a hall that is there cannot just be dropped.
    let views = headings(
        alloc,
        sourced.document.views.as_slice(),
        sourced.plans.as_slice(),
    )?;
    let frames = sourced.document.frames.as_slice();
    let opened = open_hall::<Acc, Del, R>(rt, alloc, accepted, deleted, frames)?;
    load_opened::<Acc, Del, Brand, G, R>(rt, alloc, opened, sourced, &views, workers, chunk, gate)
}

// The same in a hall that was opened, of a history with this name.
fn load_opened<
    Acc: Ledger + Send + Sync,
    Del: Ledger + Send + Sync,
    J: Naming + Send + Sync,
    G: Gate + Sync,
    R: Threads + Wait + Sync,
>(
    rt: &R,
    alloc: Global,
    opened: OpenedHall<Acc, Del>,
    sourced: &SourcedDocument,
    views: &Vec<(Text, CheckedPlan)>,
    workers: usize,
    chunk: usize,
    gate: &G,
) -> Result<Output, RunFault>
    requires book { opened.0 ≡ J.book }
    requires schemas { schemas_of opened.1.0 ≡ J.schemas }
    requires allowed { AllowsLoad J.allows }
    requires frames { J.schemas ≡ opening.schemas_of sourced.now.document.frames }
    requires desks { opened.1.1 ≡ desks_spec.first_desks (length sourced.now.document.frames) }
    requires sound { IsDocument sourced.now.document }
    requires sources { length sourced.now.sources ≡ length sourced.now.document.frames }
    requires some { 1 ≤ chunk }
    requires each { All (IsSourceOf chunk) sourced.now.sources }
    requires views { views.now.items ≡ headings_in sourced.now.document.views sourced.now.plans }
    ensures output { IfOk result (IsOutputOfLoad sourced.now) }
    ensures fault { IfErr result (IsFaultOfLoad sourced.now) }
{
    let _ = chunk;
    let (hall, desks, _readers) = opened.named::<J>();
    let frames = sourced.document.frames.as_slice();
    let sources = sourced.sources.as_slice();
    match load_all(
        rt,
        alloc,
        hall,
        desks,
        views.as_slice(),
        sources,
        workers,
        gate,
    ) {
        Ok(loaded) => Ok(output(rt, alloc, frames, views.as_slice(), &loaded, workers)?),
        Err(fault) => Err(RunFault::Load(NamedLoadCause::of(alloc, frames, fault.cause)?)),
    }
}

// A hall over empty frames, with the first desk of each and no readers. To so few frames of base types nothing but
// memory is refused.
fn open_hall<Acc: Ledger, Del: Ledger, R: Wait>(
    rt: &R,
    alloc: Global,
    accepted: Blank,
    deleted: Blank,
    frames: &[FrameSpec],
) -> Result<OpenedHall<Acc, Del>, AllocError>
    requires accepted_name { accepted.name ≡ Acc.name }
    requires accepted_parts { (accepted.parts ≡ Acc.parts)
        × (accepted.parts ≡ ledgers.parts_of_ledger) }
    requires deleted_name { deleted.name ≡ Del.name }
    requires deleted_parts { (deleted.parts ≡ Del.parts)
        × (deleted.parts ≡ ledgers.parts_of_ledger) }
    requires few { length frames.now ≤ limits.most_frames }
    requires base { All (λ f. is_base f.schema ≡ true) frames.now }
    ensures desks { IfOk result (λ o. o.1.1 ≡ desks_spec.first_desks (length frames.now)) }
    ensures schemas { IfOk result (λ o. schemas_of o.1.0 ≡ opening.schemas_of frames.now) }
{
    let schemas = copy_schemas(alloc, frames)?;
    match OpenedHall::open(rt, alloc, accepted, deleted, schemas, 0) {
        Ok(opened) => Ok(opened),
        Err(OpenFault::Memory) => Err(AllocError),
        Err(OpenFault::TooManyFrames) => unreachable!(),
        Err(OpenFault::DerivedType(_)) => unreachable!(),
        Err(OpenFault::TooManyReaders) => unreachable!(),
    }
}

// The views by name and plan.
fn headings(
    alloc: Global,
    views: &[ViewSpec],
    plans: &[CheckedPlan],
) -> Result<Vec<(Text, CheckedPlan)>, AllocError>
    requires { length plans.now ≡ length views.now }
    ensures { IfOk result (λ out. out.items ≡ headings_in views.now plans.now) }
{
    let mut out = Vec::with_capacity(alloc, views.len())?;
    for i in 0..views.len() {
        let name = views[i].name.copy(alloc)?;
        let plan = plans[i].copy(alloc)?;
        out.push((name, plan))?;
    }
    Ok(out)
}
