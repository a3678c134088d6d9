//! The threads of a load: its workers run, and give their desks back.
ghost use Rattle.std.specs.Prelude.{◌≡◌, ◌<◌, ◌≤◌, All, length};
ghost use Rattle.df_state.specs.Desks as desks_spec;
ghost use Rattle.df_claims.specs.Seats.{IsSeatOf};
ghost use Rattle.df_jobs.specs.Counted.{AreCounted, HaveDone, all_without_accepted};
ghost use Rattle.df_jobs.specs.Jobs.{chunks_of};
ghost use Rattle.df_jobs.specs.Workers.{IsPool, IsWorker, desks_of, outcomes_in};

use crate::loading::{Beginning, LoadingHall};
use crate::working::run;
use df_catalogue::Desk;
use df_claims::ClaimSeat;
use df_jobs::{Gate, Outcome, Stop, Work, Worker, WorkerPool};
use df_value::Source;
use df_versions::Naming;
use std::sync::Wait;
use std::sync::ledger::Ledger;
use std::thread;
use std::thread::Threads;

/// Has workers do all jobs, one worker for each seat. What comes back are the desks, with every part and
/// every row that was accepted through them, and all that the workers did, or why one of them stopped, or
/// that memory was refused to the pool.
pub(crate) fn do_jobs<
    Acc: Ledger + Send + Sync,
    Del: Ledger + Send + Sync,
    J: Naming + Send + Sync,
    B: Beginning + Send + Sync,
    S: Source + Sync,
    G: Gate + Sync,
    R: Threads + Wait + Sync,
>(
    rt: &R,
    hall: &LoadingHall<Acc, Del, J, B>,
    work: &Work<S, G>,
    seats: Vec<ClaimSeat>,
    desks: Vec<Desk<Acc, Del>>,
) -> (Vec<Desk<Acc, Del>>, Result<Vec<Outcome>, Stop>)
    requires chunks { B.chunks ≡ chunks_of S.made S.start_of work.now.sources.now }
    requires some { 0 < length seats.items }
    requires seats { All (IsSeatOf work.now.claims.now) seats.items }
    requires desks { length desks.items ≤ work.now.desks }
    ensures parts { desks_spec.parts_of result.0.items ≡ desks_spec.parts_of desks.items }
    ensures done { HaveDone (λ os. os.items) (chunks_of S.made S.start_of work.now.sources.now)
        desks.items result.0.items result.1 }
{
    let mut pool = match WorkerPool::new(work, seats, desks) {
        Ok(pool) => pool,
        Err(desks) => return (desks, Err(Stop::Memory)),
    };
    run_pool(rt, hall, work, &mut pool);
    pool.end(work)
}

// Runs the workers of a pool, and returns when all have ended.
fn run_pool<
    Acc: Ledger + Send + Sync,
    Del: Ledger + Send + Sync,
    J: Naming + Send + Sync,
    B: Beginning + Send + Sync,
    S: Source + Sync,
    G: Gate + Sync,
    R: Threads + Wait + Sync,
>(rt: &R, hall: &LoadingHall<Acc, Del, J, B>, work: &Work<S, G>, pool: &mut WorkerPool<Acc, Del>)
    requires chunks { B.chunks ≡ chunks_of S.made S.start_of work.now.sources.now }
    requires pool { IsPool work.now.claims.now work.now.desks
        (chunks_of S.made S.start_of work.now.sources.now) pool.old }
    ensures pool { IsPool work.now.claims.now work.now.desks
        (chunks_of S.made S.start_of work.now.sources.now) pool.new }
    ensures desks { all_without_accepted (desks_of pool.new.workers.items)
        ≡ all_without_accepted (desks_of pool.old.workers.items) }
    ensures counted { AreCounted (desks_of pool.old.workers.items)
        (outcomes_in pool.old.workers.items) (desks_of pool.new.workers.items)
        (outcomes_in pool.new.workers.items) }
{
    run_workers(rt, hall, work, pool.workers.as_mut_slice());
}

// Runs the workers, each in a thread if one can be started, and returns when all have ended.
fn run_workers<
    Acc: Ledger + Send + Sync,
    Del: Ledger + Send + Sync,
    J: Naming + Send + Sync,
    B: Beginning + Send + Sync,
    S: Source + Sync,
    G: Gate + Sync,
    R: Threads + Wait + Sync,
>(rt: &R, hall: &LoadingHall<Acc, Del, J, B>, work: &Work<S, G>, workers: &mut [Worker<Acc, Del>])
    requires chunks { B.chunks ≡ chunks_of S.made S.start_of work.now.sources.now }
    requires workers { All (λ w.
        IsWorker work.now.claims.now work.now.desks
        (chunks_of S.made S.start_of work.now.sources.now) w) workers.old }
    ensures all { All (λ w.
        IsWorker work.now.claims.now work.now.desks
        (chunks_of S.made S.start_of work.now.sources.now) w) workers.new }
    ensures count { length workers.new ≡ length workers.old }
    ensures desks { all_without_accepted (desks_of workers.new)
        ≡ all_without_accepted (desks_of workers.old) }
    ensures counted { AreCounted (desks_of workers.old) (outcomes_in workers.old)
        (desks_of workers.new) (outcomes_in workers.new) }
{
    if workers.is_empty() {
        return;
    }
    let threads = workers.len();
    thread::for_each_mut(
        rt,
        workers,
        threads,
        &|_, worker| run(rt, hall, work, worker),
    );
}
