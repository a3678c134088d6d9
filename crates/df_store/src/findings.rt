//! What a load left, compared once with its sources and with the views that were given.
ghost use Rattle.std.specs.Prelude.{◌≡◌, ◌<◌, ℕ, IfErr, IfNone, IfOk, IfSome, filter_map, length, map};
ghost use Rattle.df_jobs.specs.Jobs.{AreBegun, AreOutcomes, chunks_of, job_of, jobs_of};
ghost use Rattle.df_jobs.specs.Loaded.{AreLoaded, IsUnlike};
ghost use Rattle.df_store.specs.Headings.{headings_of};
ghost use Rattle.df_store.specs.Loads as loads;
ghost use Rattle.df_jobs.specs.Refused.{refusal};
ghost use Rattle.df_jobs.specs.Counted.{entered_at};

use crate::fault::LoadCause;
use crate::views::are_views;
use df_catalogue::Catalogue;
use df_hall::frame_count;
use df_jobs::{Gate, Outcome, Refused, Work, first_lost, first_unlike, in_order, refused_in};
use df_plan::CheckedPlan;
use df_value::{List, Source, Text};
use std::alloc::{AllocError, Global};
use std::sync::ledger::Ledger;
use std::thread::Threads;

/// The chunks that were refused, by job, where each job has exactly one outcome, each frame has the
/// rows of its good chunks, and the views are those that were given. All that takes memory comes
/// first. At most as many threads as there were workers look for the rows.
pub(crate) fn compare<Acc: Ledger, Del: Ledger, S: Source, G: Gate, R: Threads + Sync>(
    rt: &R,
    catalogue: &Catalogue<Acc, Del>,
    work: &Work<S, G>,
    views: &[(Text, CheckedPlan)],
    outcomes: Vec<Outcome>,
) -> Result<List<Refused>, LoadCause>
    requires workers { 0 < work.now.workers }
    requires jobs { work.now.jobs
        ≡ length (jobs_of (chunks_of S.made S.start_of work.now.sources.now)) }
    requires outcomes { AreOutcomes (chunks_of S.made S.start_of work.now.sources.now) outcomes.items }
    ensures loaded { IfOk result (λ _.
        AreLoaded (jobs_of (chunks_of S.made S.start_of work.now.sources.now)) catalogue.now.state) }
    ensures refused { IfOk result (λ refused.
        refused ≡ filter_map refusal (jobs_of (chunks_of S.made S.start_of work.now.sources.now))) }
    ensures entered { IfOk result (λ _. (frame : ℕ) → entered_at frame outcomes.items
        ≡ loads.rows_of_jobs frame (jobs_of (chunks_of S.made S.start_of work.now.sources.now))) }
    ensures views { IfOk result (λ _. headings_of catalogue.now.state ≡ views.now) }
    ensures difference { IfErr result (λ cause.
        loads.IsDifference (jobs_of (chunks_of S.made S.start_of work.now.sources.now))
        outcomes.items views.now catalogue.now.state cause) }
{
    let outcomes = in_order(work.sources, outcomes);
    let refused = refused_in(work.alloc, outcomes.as_slice())?;
    let names = catalogue.view_names(work.alloc)?;
    let lost = first_lost(outcomes.as_slice(), work.jobs);
    let unlike = unlike_frame(rt, work.alloc, catalogue, outcomes, work.workers)?;
    if let Some(job) = lost {
        return Err(LoadCause::Lost(job));
    }
    if let Some(frame) = unlike {
        return Err(LoadCause::Unlike(frame));
    }
    if !are_views(catalogue, &names, views) {
        return Err(LoadCause::ViewsUnlike);
    }
    Ok(List::from_vec(refused))
}

// The least frame whose rows are not those of its good chunks. Threads share a picture of the catalogue.
fn unlike_frame<Acc: Ledger, Del: Ledger, R: Threads + Sync>(
    rt: &R,
    alloc: Global,
    catalogue: &Catalogue<Acc, Del>,
    outcomes: Vec<Outcome>,
    threads: usize,
) -> Result<Option<usize>, AllocError>
    requires threads { 0 < threads }
    requires begun { AreBegun outcomes.items }
    ensures loaded { IfOk result (λ unlike. IfNone unlike
        (AreLoaded (map job_of outcomes.items) catalogue.now.state)) }
    ensures unlike { IfOk result (λ unlike. IfSome unlike
        (IsUnlike (map job_of outcomes.items) catalogue.now.state)) }
{
    let picture = catalogue.picture(alloc)?;
    first_unlike(
        rt,
        alloc,
        &picture,
        frame_count(catalogue),
        outcomes,
        threads,
    )
}
