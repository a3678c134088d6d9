//! The commits of a worker: chunks enter their frames through its desks, and the outcomes that stand are kept.
ghost use Rattle.std.specs.Prelude.{◌≡◌, ◌<◌, ◌≤◌, ◌+◌, ◌++◌, ◌∷◌, [], ℕ, All, List, IfOk, IfSome, OnErr, if◌then◌else◌, length, slice_index_or, vec_capacity};
ghost use Rattle.df_state.specs.declared.change.Change.TheVariants.{Append};
ghost use Rattle.df_state.specs.Desks.{DeskParts};
ghost use Rattle.df_state.specs.FrameChanges.{change_of};
ghost use Rattle.df_value.specs.declared.chunk.Piece.{Piece};
ghost use Rattle.df_jobs.specs.Jobs.{AreOutcomes, IsOutcome};
ghost use Rattle.df_jobs.specs.Joined.{IsJoined};
ghost use Rattle.df_jobs.specs.Counted.{AreCounted, HaveAccepted, all_without_accepted};
ghost use Rattle.df_store.specs.Batches.{IsBatch};
ghost use Rattle.df_store.specs.Grown.{IsWhole};
ghost use Rattle.df_store.specs.Incoming.{chunk_of};

use crate::loading::{Beginning, LoadingCatalogue};
use crate::waiting::Batch;
use core::mem;
use df_catalogue::{Desk, FrameChange, PreparedRun};
use df_jobs::{Joined, KeptPiece, Outcome, Stop};
use df_value::{Chunk, Piece};
use df_versions::{ChangeFault, Naming, Told};
use std::alloc::Global;
use std::sync::Wait;
use std::sync::ledger::Ledger;

/// What a worker commits: a chunk, or a run whose blocks it has made.
#[derive(Clone, Copy)]
pub(crate) enum Incoming<'a> {
    Chunk(&'a Chunk),
    Prepared(&'a PreparedRun),
}

impl<'a> Incoming<'a> {
    /// The change that appends it.
    pub(crate) fn change(self) -> FrameChange<'a>
        ensures { (frame : ℕ) → change_of frame result ≡ Append frame (chunk_of self.entry) }
    {
        match self {
            Incoming::Chunk(chunk) => FrameChange::Append(chunk),
            Incoming::Prepared(run) => FrameChange::Prepared(run),
        }
    }
}

/// Commits these batches in their order, and keeps the outcomes that stand.
pub(crate) fn enter_batches<Acc: Ledger, Del: Ledger, J: Naming, B: Beginning, R: Wait>(
    rt: &R,
    alloc: Global,
    catalogue: &mut LoadingCatalogue<Acc, Del, J, B>,
    desks: &mut Vec<Desk<Acc, Del>>,
    batches: &mut Vec<Batch>,
    done: &mut Vec<Outcome>,
    told: &mut Option<Told<J>>,
) -> Result<(), Stop>
    requires { All (IsBatch B.chunks) batches.old.items }
    ensures desks { all_without_accepted desks.new.items ≡ all_without_accepted desks.old.items }
    ensures counted { AreCounted desks.old.items done.old.items desks.new.items done.new.items }
    ensures done { AreOutcomes B.chunks done.old.items → AreOutcomes B.chunks done.new.items }
{
    for at in 0..batches.len() {
        enter_batch(rt, alloc, catalogue, desks, &mut batches[at], done, told)?;
    }
    Ok(())
}

// Commits a batch, and keeps the outcomes that stand. The room comes first: of each chunk that has entered there is an
// outcome.
fn enter_batch<Acc: Ledger, Del: Ledger, J: Naming, B: Beginning, R: Wait>(
    rt: &R,
    alloc: Global,
    catalogue: &mut LoadingCatalogue<Acc, Del, J, B>,
    desks: &mut Vec<Desk<Acc, Del>>,
    batch: &mut Batch,
    done: &mut Vec<Outcome>,
    told: &mut Option<Told<J>>,
) -> Result<(), Stop>
    requires { IsBatch B.chunks batch.old }
    ensures desks { all_without_accepted desks.new.items ≡ all_without_accepted desks.old.items }
    ensures counted { AreCounted desks.old.items done.old.items desks.new.items done.new.items }
    ensures done { AreOutcomes B.chunks done.old.items → AreOutcomes B.chunks done.new.items }
{
    done.reserve(batch.len())?;
    match batch {
        Batch::Run(run) => enter_run(rt, alloc, catalogue, desks, run, done, told),
        Batch::Apart(outcomes) => {
            let outcomes = mem::replace(outcomes, Vec::new(alloc));
            enter_each(rt, alloc, catalogue, desks, outcomes, done, told)
        }
    }
}

// Commits a run in one change, and keeps its outcomes; where it is refused, each of its chunks enters by itself, as far as it
// can.
fn enter_run<Acc: Ledger, Del: Ledger, J: Naming, B: Beginning, R: Wait>(
    rt: &R,
    alloc: Global,
    catalogue: &mut LoadingCatalogue<Acc, Del, J, B>,
    desks: &mut Vec<Desk<Acc, Del>>,
    run: &mut Joined,
    done: &mut Vec<Outcome>,
    told: &mut Option<Told<J>>,
) -> Result<(), Stop>
    requires room { length done.old.items + length run.old.outcomes.items ≤ vec_capacity done.old }
    requires joined { IsJoined run.old }
    requires made { AreOutcomes B.chunks run.old.outcomes.items }
    ensures desks { all_without_accepted desks.new.items ≡ all_without_accepted desks.old.items }
    ensures counted { AreCounted desks.old.items done.old.items desks.new.items done.new.items }
    ensures done { AreOutcomes B.chunks done.old.items → AreOutcomes B.chunks done.new.items }
{
    let incoming = Incoming::Prepared(&run.run);
    let entered = enter_chunk(rt, alloc, catalogue, desks, run.frame, incoming, told)?;
    let outcomes = mem::replace(&mut run.outcomes, Vec::new(alloc));
    if entered {
        keep_all(outcomes, done);
        return Ok(());
    }
    enter_each(rt, alloc, catalogue, desks, outcomes, done, told)
}

// Adds outcomes to those that are done.
fn keep_all(outcomes: Vec<Outcome>, done: &mut Vec<Outcome>)
    requires { length done.old.items + length outcomes.items ≤ vec_capacity done.old }
    ensures { done.new.items ≡ done.old.items ++ outcomes.items }
{
    for outcome in outcomes {
        done.push_reserved(outcome);
    }
}

// Commits the good chunks of these outcomes in their order, and keeps the outcomes that stand.
fn enter_each<Acc: Ledger, Del: Ledger, J: Naming, B: Beginning, R: Wait>(
    rt: &R,
    alloc: Global,
    catalogue: &mut LoadingCatalogue<Acc, Del, J, B>,
    desks: &mut Vec<Desk<Acc, Del>>,
    made: Vec<Outcome>,
    done: &mut Vec<Outcome>,
    told: &mut Option<Told<J>>,
) -> Result<(), Stop>
    requires room { length done.old.items + length made.items ≤ vec_capacity done.old }
    requires made { AreOutcomes B.chunks made.items }
    ensures desks { all_without_accepted desks.new.items ≡ all_without_accepted desks.old.items }
    ensures counted { AreCounted desks.old.items done.old.items desks.new.items done.new.items }
    ensures done { (chunks : List (List (ℕ × Piece))) → AreOutcomes chunks made.items →
        AreOutcomes chunks done.old.items → AreOutcomes chunks done.new.items }
{
    for outcome in made {
        if enter(rt, alloc, catalogue, desks, &outcome, told)? {
            done.push_reserved(outcome);
        }
    }
    Ok(())
}

// Commits the chunk of an outcome, if it is good, and tells whether the outcome stands: that of a bad chunk does, which
// changes nothing, and that of a good one where it enters.
fn enter<Acc: Ledger, Del: Ledger, J: Naming, B: Beginning, R: Wait>(
    rt: &R,
    alloc: Global,
    catalogue: &mut LoadingCatalogue<Acc, Del, J, B>,
    desks: &mut Vec<Desk<Acc, Del>>,
    outcome: &Outcome,
    told: &mut Option<Told<J>>,
) -> Result<bool, Stop>
    requires { IsOutcome B.chunks outcome.now }
    ensures desks { all_without_accepted desks.new.items ≡ all_without_accepted desks.old.items }
    ensures counted { IfOk result (λ stands. AreCounted desks.old.items [] desks.new.items
        (if stands then outcome.now ∷ [] else [])) }
    ensures refused { OnErr result (desks.new.items ≡ desks.old.items) }
{
    let frame = outcome.frame;
    match outcome.made.kept() {
        KeptPiece::Typed(Piece::Good(chunk)) => {
            let incoming = Incoming::Chunk(chunk);
            enter_chunk(rt, alloc, catalogue, desks, frame, incoming, told)
        }
        KeptPiece::Typed(Piece::Bad(_)) => Ok(true),
        KeptPiece::Stored(stored) => {
            let chunk = stored.to_chunk(alloc)?;
            let incoming = Incoming::Chunk(&chunk);
            enter_chunk(rt, alloc, catalogue, desks, frame, incoming, told)
        }
    }
}

// Commits a chunk through a desk of a frame, and tells whether it entered. It does not where the catalogue refuses it, or
// no desk here is of the frame.
fn enter_chunk<Acc: Ledger, Del: Ledger, J: Naming, B: Beginning, R: Wait>(
    rt: &R,
    alloc: Global,
    catalogue: &mut LoadingCatalogue<Acc, Del, J, B>,
    desks: &mut Vec<Desk<Acc, Del>>,
    frame: usize,
    chunk: Incoming<'_>,
    told: &mut Option<Told<J>>,
) -> Result<bool, Stop>
    requires { IsWhole B.chunks frame (chunk_of chunk) }
    ensures desks { all_without_accepted desks.new.items ≡ all_without_accepted desks.old.items }
    ensures accepted { IfOk result (λ entered. HaveAccepted frame
        (if entered then length (chunk_of chunk.entry).rows else 0) desks.old.items desks.new.items) }
    ensures refused { OnErr result (desks.new.items ≡ desks.old.items) }
{
    let Some(at) = desk_of(desks.as_slice(), frame) else {
        return Ok(false);
    };
    match catalogue.append(rt, alloc, &mut desks[at], chunk, told.as_ref()) {
        Ok(next) => {
            *told = Some(next);
            Ok(true)
        }
        Err(ChangeFault::Refused(_, _)) => Ok(false),
        Err(ChangeFault::Memory) => Err(Stop::Memory),
        Err(ChangeFault::Spent) => Err(Stop::Spent),
        Err(ChangeFault::Ahead) => Err(Stop::Ahead),
    }
}

// The place of the first desk of a frame.
fn desk_of<Acc: Ledger, Del: Ledger>(desks: &[Desk<Acc, Del>], frame: usize) -> Option<usize>
    ensures within { IfSome result (λ at. at < length desks.now) }
    ensures found { IfSome result (λ at. (d : DeskParts) →
        (slice_index_or desks.now at d).frame ≡ frame) }
{
    desks.iter().position(|desk| desk.frame() == frame)
}
