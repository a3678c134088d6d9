//! Working: the chunks that a worker makes are joined and committed.
ghost use Rattle.std.specs.Prelude.{◌≡◌};
ghost use Rattle.df_jobs.specs.Counted.{AreCounted, all_without_accepted};
ghost use Rattle.df_jobs.specs.Jobs.{AreOutcomes, chunks_of};
ghost use Rattle.df_jobs.specs.Workers.{IsWorker};

use crate::entering::enter_batches;
use crate::loading::{Beginning, LoadingHall};
use crate::waiting::{Batch, Turn};
use df_jobs::{Gate, Outcome, Stop, Work, Worker, count_of_first_frame, join, make_all};
use df_value::Source;
use df_versions::{Naming, Told};
use std::alloc::AllocError;
use std::sync::ledger::Ledger;
use std::sync::{MutexGuard, Wait};

/// Does the jobs that it draws, until none is left or it has to stop. Each commit is told of the one before.
pub(crate) fn run<Acc: Ledger, Del: Ledger, J: Naming, B: Beginning, S: Source, G: Gate, R: Wait>(
    rt: &R,
    hall: &LoadingHall<Acc, Del, J, B>,
    work: &Work<S, G>,
    worker: &mut Worker<Acc, Del>,
)
    requires chunks { B.chunks ≡ chunks_of S.made S.start_of work.now.sources.now }
    requires worker { IsWorker work.now.claims.now work.now.desks
        (chunks_of S.made S.start_of work.now.sources.now)
        worker.old }
    ensures worker { IsWorker work.now.claims.now work.now.desks
        (chunks_of S.made S.start_of work.now.sources.now)
        worker.new }
    ensures desks { all_without_accepted worker.new.desks.items
        ≡ all_without_accepted worker.old.desks.items }
    ensures counted { AreCounted worker.old.desks.items worker.old.done.items
        worker.new.desks.items worker.new.done.items }
{
    if let Err(stop) = do_all(rt, hall, work, worker) {
        worker.stopped = Some(stop);
    }
}

// Does the jobs that it draws, until none is left, and commits what then waits.
fn do_all<Acc: Ledger, Del: Ledger, J: Naming, B: Beginning, S: Source, G: Gate, R: Wait>(
    rt: &R,
    hall: &LoadingHall<Acc, Del, J, B>,
    work: &Work<S, G>,
    worker: &mut Worker<Acc, Del>,
) -> Result<(), Stop>
    requires chunks { B.chunks ≡ chunks_of S.made S.start_of work.now.sources.now }
    requires worker { IsWorker work.now.claims.now work.now.desks
        (chunks_of S.made S.start_of work.now.sources.now)
        worker.old }
    ensures worker { IsWorker work.now.claims.now work.now.desks
        (chunks_of S.made S.start_of work.now.sources.now)
        worker.new }
    ensures desks { all_without_accepted worker.new.desks.items
        ≡ all_without_accepted worker.old.desks.items }
    ensures counted { AreCounted worker.old.desks.items worker.old.done.items
        worker.new.desks.items worker.new.done.items }
{
    let mut told: Option<Told<J>> = None;
    for _ in 0..work.jobs {
        if !do_next(rt, hall, work, worker, &mut told)? {
            return commit_rest(rt, hall, work, worker, &mut told);
        }
    }
    commit_rest(rt, hall, work, worker, &mut told)
}

// Has the last worker that found no job commit what waits.
fn commit_rest<Acc: Ledger, Del: Ledger, J: Naming, B: Beginning, S: Source, G: Gate, R: Wait>(
    rt: &R,
    hall: &LoadingHall<Acc, Del, J, B>,
    work: &Work<S, G>,
    worker: &mut Worker<Acc, Del>,
    told: &mut Option<Told<J>>,
) -> Result<(), Stop>
    requires chunks { B.chunks ≡ chunks_of S.made S.start_of work.now.sources.now }
    requires worker { IsWorker work.now.claims.now work.now.desks
        (chunks_of S.made S.start_of work.now.sources.now)
        worker.old }
    ensures worker { IsWorker work.now.claims.now work.now.desks
        (chunks_of S.made S.start_of work.now.sources.now)
        worker.new }
    ensures desks { all_without_accepted worker.new.desks.items
        ≡ all_without_accepted worker.old.desks.items }
    ensures counted { AreCounted worker.old.desks.items worker.old.done.items
        worker.new.desks.items worker.new.done.items }
{
    if hall.end_drawing(rt) {
        return commit_waiting(rt, hall, work, worker, told);
    }
    Ok(())
}

// Does the next jobs that it draws, and tells whether there were any. Those of one frame are committed together.
fn do_next<Acc: Ledger, Del: Ledger, J: Naming, B: Beginning, S: Source, G: Gate, R: Wait>(
    rt: &R,
    hall: &LoadingHall<Acc, Del, J, B>,
    work: &Work<S, G>,
    worker: &mut Worker<Acc, Del>,
    told: &mut Option<Told<J>>,
) -> Result<bool, Stop>
    requires chunks { B.chunks ≡ chunks_of S.made S.start_of work.now.sources.now }
    requires worker { IsWorker work.now.claims.now work.now.desks
        (chunks_of S.made S.start_of work.now.sources.now)
        worker.old }
    ensures worker { IsWorker work.now.claims.now work.now.desks
        (chunks_of S.made S.start_of work.now.sources.now)
        worker.new }
    ensures desks { all_without_accepted worker.new.desks.items
        ≡ all_without_accepted worker.old.desks.items }
    ensures counted { AreCounted worker.old.desks.items worker.old.done.items
        worker.new.desks.items worker.new.done.items }
{
    let jobs = draw(rt, hall, work, worker)?;
    let mut left = make_all(work, jobs.as_slice())?;
    if left.is_empty() {
        return Ok(false);
    }
    while !left.is_empty() {
        let others = left.split_off(count_of_first_frame(left.as_slice()))?;
        commit(rt, hall, work, worker, left, told)?;
        left = others;
    }
    Ok(true)
}

// Draws the next jobs. One worker draws at a time, so that the jobs of each draw follow one another.
fn draw<Acc: Ledger, Del: Ledger, J: Naming, B: Beginning, S: Source, G: Gate, R: Wait>(
    rt: &R,
    hall: &LoadingHall<Acc, Del, J, B>,
    work: &Work<S, G>,
    worker: &mut Worker<Acc, Del>,
) -> Result<Vec<u64>, AllocError>
    requires { IsWorker work.now.claims.now work.now.desks
        (chunks_of S.made S.start_of work.now.sources.now)
        worker.old }
    ensures worker { IsWorker work.now.claims.now work.now.desks
        (chunks_of S.made S.start_of work.now.sources.now)
        worker.new }
    ensures desks { worker.new.desks ≡ worker.old.desks }
    ensures done { worker.new.done ≡ worker.old.done }
{
    let waiting = hall.lock_waiting(rt);
    let jobs = worker.draw(work, waiting.least_jobs());
    MutexGuard::unlock(waiting);
    jobs
}

// Has what came of some jobs wait to be committed, and commits all that waits, unless another worker does. Before that the
// chunks are joined, and the blocks of their run made.
fn commit<Acc: Ledger, Del: Ledger, J: Naming, B: Beginning, S: Source, G: Gate, R: Wait>(
    rt: &R,
    hall: &LoadingHall<Acc, Del, J, B>,
    work: &Work<S, G>,
    worker: &mut Worker<Acc, Del>,
    made: Vec<Outcome>,
    told: &mut Option<Told<J>>,
) -> Result<(), Stop>
    requires worker { IsWorker work.now.claims.now work.now.desks
        (chunks_of S.made S.start_of work.now.sources.now)
        worker.old }
    requires chunks { B.chunks ≡ chunks_of S.made S.start_of work.now.sources.now }
    requires made { AreOutcomes (chunks_of S.made S.start_of work.now.sources.now) made.items }
    ensures worker { IsWorker work.now.claims.now work.now.desks
        (chunks_of S.made S.start_of work.now.sources.now)
        worker.new }
    ensures desks { all_without_accepted worker.new.desks.items
        ≡ all_without_accepted worker.old.desks.items }
    ensures counted { AreCounted worker.old.desks.items worker.old.done.items
        worker.new.desks.items worker.new.done.items }
{
    let batch = match join(work.alloc, made)? {
        Ok(run) => Batch::Run(run),
        Err(outcomes) => Batch::Apart(outcomes),
    };
    match hall.put(rt, work.alloc, batch, work.workers)? {
        Turn::Commit => commit_waiting(rt, hall, work, worker, told),
        Turn::Make => {
            drop(hall.swap_spent(rt, Vec::new(work.alloc)));
            Ok(())
        }
        Turn::Pause => {
            drop(hall.swap_spent(rt, Vec::new(work.alloc)));
            hall.pause(rt);
            Ok(())
        }
    }
}

// Commits all that waits, until nothing does. The longer a commit takes the more waits behind it, so that slow commits are
// few.
fn commit_waiting<Acc: Ledger, Del: Ledger, J: Naming, B: Beginning, S: Source, G: Gate, R: Wait>(
    rt: &R,
    hall: &LoadingHall<Acc, Del, J, B>,
    work: &Work<S, G>,
    worker: &mut Worker<Acc, Del>,
    told: &mut Option<Told<J>>,
) -> Result<(), Stop>
    requires worker { IsWorker work.now.claims.now work.now.desks
        (chunks_of S.made S.start_of work.now.sources.now)
        worker.old }
    requires chunks { B.chunks ≡ chunks_of S.made S.start_of work.now.sources.now }
    ensures worker { IsWorker work.now.claims.now work.now.desks
        (chunks_of S.made S.start_of work.now.sources.now)
        worker.new }
    ensures desks { all_without_accepted worker.new.desks.items
        ≡ all_without_accepted worker.old.desks.items }
    ensures counted { AreCounted worker.old.desks.items worker.old.done.items
        worker.new.desks.items worker.new.done.items }
{
    for _ in 0..u64::MAX {
        match commit_next(rt, hall, work, worker, told) {
            Ok(true) => {}
            Ok(false) => return Ok(()),
            Err(stop) => {
                hall.give_up(rt);
                return Err(stop);
            }
        }
    }
    Ok(())
}

// Commits what waits under one lock, and tells whether anything did: what the commits work on goes from one processor's
// cache to another's with the lock.
fn commit_next<Acc: Ledger, Del: Ledger, J: Naming, B: Beginning, S: Source, G: Gate, R: Wait>(
    rt: &R,
    hall: &LoadingHall<Acc, Del, J, B>,
    work: &Work<S, G>,
    worker: &mut Worker<Acc, Del>,
    told: &mut Option<Told<J>>,
) -> Result<bool, Stop>
    requires worker { IsWorker work.now.claims.now work.now.desks
        (chunks_of S.made S.start_of work.now.sources.now)
        worker.old }
    requires chunks { B.chunks ≡ chunks_of S.made S.start_of work.now.sources.now }
    ensures worker { IsWorker work.now.claims.now work.now.desks
        (chunks_of S.made S.start_of work.now.sources.now)
        worker.new }
    ensures desks { all_without_accepted worker.new.desks.items
        ≡ all_without_accepted worker.old.desks.items }
    ensures counted { AreCounted worker.old.desks.items worker.old.done.items
        worker.new.desks.items worker.new.done.items }
{
    let mut batches = hall.take_waiting(rt, work.alloc);
    if batches.is_empty() {
        return Ok(false);
    }
    let mut catalogue = hall.lock(rt);
    let entered = enter_batches(
        rt,
        work.alloc,
        &mut catalogue,
        &mut worker.desks,
        &mut batches,
        &mut worker.done,
        told,
    );
    let groups = catalogue.finished_groups();
    MutexGuard::unlock(catalogue);
    hall.note_groups(rt, rows_of_last(batches.as_slice()), groups);
    // The deltas of runs that entered are freed once the lock is free, by other workers where there are any: that takes as long
    // as a commit.
    if work.workers > 1 {
        batches = hall.swap_spent(rt, batches);
    }
    drop(batches);
    entered?;
    Ok(true)
}

// How many rows the last run of these batches has.
fn rows_of_last(batches: &[Batch]) -> usize {
    match batches.last() {
        Some(batch) => batch.rows(),
        None => 0,
    }
}
