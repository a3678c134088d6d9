//! The workers of a load: desks are shared out among them, and come back once they have ended.
ghost use Rattle.std.specs.Prelude.{◌≡◌, ◌+◌, ◌<◌, ◌≤◌, ◌*◌, ◌++◌, [], All, IfErr, IfOk, None, OnOk, length, map, vec_capacity};
ghost use Rattle.df_state.specs.Desks.{HaveSameSums};
ghost use Rattle.df_claims.specs.Seats.{IsSeatOf};
ghost use Rattle.df_jobs.specs.Jobs.{chunks_of};
ghost use Rattle.df_jobs.specs.Stops.{earlier_of, first_stop};
ghost use Rattle.df_jobs.specs.Workers.{IsIdle, IsPool, desks_of, outcomes_in};

use crate::jobs::Outcome;
use crate::splitting::share_desks;
use crate::stop::Stop;
use crate::worker::{Work, Worker};
use df_claims::ClaimSeat;
use df_state::Desk;
use df_value::Source;
use std::alloc::{AllocError, Global};
use std::sync::ledger::Ledger;

/// The workers of a load.
///
/// A worker is lent to its thread and is never moved, and there is room for the desks of all of them.
/// So each desk comes back, whatever was refused meanwhile.
pub struct WorkerPool<Acc: Ledger, Del: Ledger> {
    pub workers: Vec<Worker<Acc, Del>>,
    /// No desk, until the workers have ended.
    pub gathered: Vec<Desk<Acc, Del>>,
}

// A body that owns one drops it by a call.
impl<Acc: Ledger, Del: Ledger> Drop for WorkerPool<Acc, Del> {
    fn drop(self) {
        let WorkerPool { workers, gathered } = self;
        drop(workers);
        drop(gathered);
    }
}

impl<Acc: Ledger, Del: Ledger> WorkerPool<Acc, Del> {
    /// A worker for each seat, among which these desks are split. Where memory is refused the desks
    /// come back as they were.
    pub fn new<S: Source, G>(
        work: &Work<S, G>,
        seats: Vec<ClaimSeat>,
        desks: Vec<Desk<Acc, Del>>,
    ) -> Result<WorkerPool<Acc, Del>, Vec<Desk<Acc, Del>>>
        requires some { 0 < length seats.items }
        requires seats { All (IsSeatOf work.now.claims.now) seats.items }
        requires desks { length desks.items ≤ work.now.desks }
        ensures pool { IfOk result (IsPool work.now.claims.now work.now.desks
            (chunks_of S.made S.start_of work.now.sources.now)) }
        ensures sums { IfOk result (λ pool.
            HaveSameSums desks.items (desks_of pool.workers.items)) }
        ensures nothing_done { IfOk result (λ pool. outcomes_in pool.workers.items ≡ []) }
        ensures back { IfErr result (λ back. back.items ≡ desks.items) }
    {
        let mut desks = desks;
        let mut pool = match WorkerPool::with_room(work, seats) {
            Ok(pool) => pool,
            Err(_) => return Err(desks),
        };
        move_desks(&mut desks, &mut pool.workers[0].desks);
        share_desks(work, pool.workers.as_mut_slice());
        Ok(pool)
    }

    // A worker for each seat, without desks, with room for as many as it may have.
    fn with_room<S, G>(
        work: &Work<S, G>,
        seats: Vec<ClaimSeat>,
    ) -> Result<WorkerPool<Acc, Del>, AllocError>
        requires { All (IsSeatOf work.now.claims.now) seats.items }
        ensures idle { IfOk result (λ pool.
            All (IsIdle work.now.claims.now work.now.desks) pool.workers.items) }
        ensures count { IfOk result (λ pool. length pool.workers.items ≡ length seats.items) }
        ensures gathered { IfOk result (λ pool. pool.gathered.items ≡ []) }
        ensures room { IfOk result (λ pool.
            length seats.items * work.now.desks ≤ vec_capacity pool.gathered) }
    {
        let room = seats.len().saturating_mul(work.desks);
        let mut pool = WorkerPool {
            workers: Vec::with_capacity(work.alloc, seats.len())?,
            gathered: Vec::with_capacity(work.alloc, room)?,
        };
        push_idle(work, seats, &mut pool.workers)?;
        Ok(pool)
    }

    /// Ends the workers, and gives back their desks. Beside them is all that the workers have done, or
    /// why one of them stopped, or that memory was refused here.
    pub fn end<S: Source, G>(
        self,
        work: &Work<S, G>,
    ) -> (Vec<Desk<Acc, Del>>, Result<Vec<Outcome>, Stop>)
        requires { IsPool work.now.claims.now work.now.desks
            (chunks_of S.made S.start_of work.now.sources.now) self }
        ensures desks { result.0.items ≡ desks_of self.workers.items }
        ensures outcomes { IfOk result.1 (λ os. os.items ≡ outcomes_in self.workers.items) }
        ensures running { IfOk result.1 (λ _. All (λ w. w.stopped ≡ None) self.workers.items) }
    {
        let WorkerPool { workers, gathered } = self;
        let mut workers = workers;
        let mut gathered = gathered;
        take_desks(workers.as_mut_slice(), &mut gathered);
        (gathered, outcomes_of(work.alloc, workers))
    }
}

// Adds a worker for each seat, without desks, with room for as many as it may have.
fn push_idle<Acc: Ledger, Del: Ledger, S, G>(
    work: &Work<S, G>,
    seats: Vec<ClaimSeat>,
    workers: &mut Vec<Worker<Acc, Del>>,
) -> Result<(), AllocError>
    requires seats { All (IsSeatOf work.now.claims.now) seats.items }
    requires idle { All (IsIdle work.now.claims.now work.now.desks) workers.old.items }
    ensures idle { OnOk result
        (All (IsIdle work.now.claims.now work.now.desks) workers.new.items) }
    ensures count { OnOk result
        (length workers.new.items ≡ length workers.old.items + length seats.items) }
{
    for seat in seats {
        workers.push(Worker::idle(work, seat)?)?;
    }
    Ok(())
}

// Moves desks behind others, where there is room for them.
fn move_desks<Acc: Ledger, Del: Ledger>(
    desks: &mut Vec<Desk<Acc, Del>>,
    to: &mut Vec<Desk<Acc, Del>>,
)
    requires { length to.old.items + length desks.old.items ≤ vec_capacity to.old }
    ensures moved { to.new.items ≡ to.old.items ++ desks.old.items }
    ensures left { desks.new.items ≡ [] }
    ensures capacity { vec_capacity to.old ≤ vec_capacity to.new }
{
    match to.append(desks) {
        Ok(()) => (),
        Err(_) => unreachable!(),
    }
}

// Moves the desks of all workers behind others, where there is room for them.
fn take_desks<Acc: Ledger, Del: Ledger>(
    workers: &mut [Worker<Acc, Del>],
    gathered: &mut Vec<Desk<Acc, Del>>,
)
    requires { length gathered.old.items + length (desks_of workers.old)
        ≤ vec_capacity gathered.old }
    ensures gathered { gathered.new.items ≡ gathered.old.items ++ desks_of workers.old }
    ensures count { length workers.new ≡ length workers.old }
    ensures outcomes { outcomes_in workers.new ≡ outcomes_in workers.old }
    ensures stopped { map (λ w. w.stopped) workers.new ≡ map (λ w. w.stopped) workers.old }
{
    for at in 0..workers.len() {
        move_desks(&mut workers[at].desks, gathered);
    }
}

// All that the workers have done, if none of them stopped.
fn outcomes_of<Acc: Ledger, Del: Ledger>(
    alloc: Global,
    workers: Vec<Worker<Acc, Del>>,
) -> Result<Vec<Outcome>, Stop>
    ensures outcomes { IfOk result (λ os. os.items ≡ outcomes_in workers.items) }
    ensures running { IfOk result (λ _. All (λ w. w.stopped ≡ None) workers.items) }
{
    if let Some(stop) = stop_of(workers.as_slice()) {
        return Err(stop);
    }
    let mut all = Vec::new(alloc);
    for worker in workers {
        let mut worker = worker;
        worker.give_outcomes(&mut all)?;
    }
    Ok(all)
}

// Why workers stopped, if any did: of several reasons the one that a load answers.
fn stop_of<Acc: Ledger, Del: Ledger>(workers: &[Worker<Acc, Del>]) -> Option<Stop>
    ensures { result ≡ first_stop (map (λ w. w.stopped) workers.now) }
{
    let mut first = None;
    for worker in workers {
        first = earlier(first, worker.stopped);
    }
    first
}

fn earlier(first: Option<Stop>, next: Option<Stop>) -> Option<Stop>
    ensures { result ≡ earlier_of first next }
{
    match (first, next) {
        (Some(first), Some(next)) => Some(first.earlier(next)),
        (Some(first), None) => Some(first),
        (None, next) => next,
    }
}
