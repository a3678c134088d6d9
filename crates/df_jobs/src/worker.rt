//! Workers: what each of them owns, and the chunks of the jobs that it draws.
ghost use Rattle.std.specs.Prelude.{◌≡◌, ◌<◌, ◌++◌, IfOk, None, OnOk};
ghost use Rattle.df_claims.specs.Seats.{IsSeatOf};
ghost use Rattle.df_jobs.specs.Jobs.{AreOutcomes, chunks_of};
ghost use Rattle.df_jobs.specs.Workers.{IsIdle, IsWorker};

use crate::gate::Gate;
use crate::jobs::{Outcome, make};
use crate::stop::Stop;
use df_claims::{ClaimSeat, Claims};
use df_state::Desk;
use df_value::Source;
use std::alloc::{AllocError, Global};
use std::sync::ledger::Ledger;

/// What a thread that does jobs owns: its desks, what it draws jobs with, and what it has done so far.
///
/// What it makes enters a hall by the crate above.
pub struct Worker<Acc: Ledger, Del: Ledger> {
    pub desks: Vec<Desk<Acc, Del>>,
    pub seat: ClaimSeat,
    pub done: Vec<Outcome>,
    /// Why it stopped before no job was left, if it did.
    pub stopped: Option<Stop>,
}

// A body that owns one drops it by a call.
impl<Acc: Ledger, Del: Ledger> Drop for Worker<Acc, Del> {
    fn drop(self) {
        let Worker {
            desks,
            seat,
            done,
            stopped: _,
        } = self;
        drop(desks);
        drop(seat);
        drop(done);
    }
}

/// How many jobs a worker draws at once.
#[derive(Clone, Copy)]
pub struct AtOnce {
    /// Where none were drawn before.
    pub first: usize,
    pub least: usize,
    /// Where many were drawn before.
    pub most: usize,
}

/// What the workers of a load share beside the hall.
///
/// The closure that crosses threads captures this, the hall and the handle alone: with more captures
/// the check finds no proof that it may cross.
#[derive(Drop)]
pub struct Work<'a, S, G> {
    pub alloc: Global,
    pub sources: &'a [S],
    pub gate: &'a G,
    /// How many jobs there are.
    pub jobs: u64,
    /// The numbers of the jobs, each of which one worker draws.
    pub claims: &'a Claims,
    /// How many workers there are.
    pub workers: usize,
    /// The most desks that a worker may have.
    pub desks: usize,
    pub at_once: AtOnce,
}

impl<S, G> Work<'_, S, G> {
    // How many jobs a worker draws at once where so many were drawn before. A commit may change every row of a view: where
    // each brings half as many rows as stand, all commits together change three times as many as the last one.
    fn jobs_behind(&self, drawn: u64) -> usize {
        if drawn == 0 {
            return self.at_once.first;
        }
        let half = (drawn / 2).min(self.at_once.most as u64);
        self.at_once.least.max(half as usize)
    }
}

impl<Acc: Ledger, Del: Ledger> Worker<Acc, Del> {
    /// A worker that has done nothing, and has no desks, but room for as many as it may have.
    pub(crate) fn idle<S, G>(
        work: &Work<S, G>,
        seat: ClaimSeat,
    ) -> Result<Worker<Acc, Del>, AllocError>
        requires { IsSeatOf work.now.claims.now seat }
        ensures { IfOk result (IsIdle work.now.claims.now work.now.desks) }
    {
        Ok(Worker {
            desks: Vec::with_capacity(work.alloc, work.desks)?,
            seat,
            done: Vec::new(work.alloc),
            stopped: None,
        })
    }

    /// Draws the next jobs, at least so many if they are left. They follow one another where no other worker draws
    /// meanwhile. There are none where no job is left.
    pub fn draw<S: Source, G: Gate>(
        &mut self,
        work: &Work<S, G>,
        least: usize,
    ) -> Result<Vec<u64>, AllocError>
        requires { IsWorker work.now.claims.now work.now.desks
            (chunks_of S.made S.start_of work.now.sources.now)
            self.old }
        ensures worker { IsWorker work.now.claims.now work.now.desks
            (chunks_of S.made S.start_of work.now.sources.now)
            self.new }
        ensures desks { self.new.desks ≡ self.old.desks }
        ensures done { self.new.done ≡ self.old.done }
    {
        let mut jobs = Vec::new(work.alloc);
        let Some(first) = work.claims.next(&mut self.seat) else {
            return Ok(jobs);
        };
        jobs.push(first)?;
        for _ in 1..work.jobs_behind(first).max(least) {
            let Some(job) = work.claims.next(&mut self.seat) else {
                return Ok(jobs);
            };
            jobs.push(job)?;
        }
        Ok(jobs)
    }

    /// Adds what it has done to the others' outcomes, unless it was stopped.
    pub(crate) fn give_outcomes(&mut self, all: &mut Vec<Outcome>) -> Result<(), Stop>
        ensures given { OnOk result (all.new.items ≡ all.old.items ++ self.old.done.items) }
        ensures running { OnOk result (self.old.stopped ≡ None) }
    {
        if let Some(stop) = self.stopped {
            return Err(stop);
        }
        all.append(&mut self.done)?;
        Ok(())
    }
}

/// Passes the gate with each of these jobs, and makes their chunks.
pub fn make_all<S: Source, G: Gate>(
    work: &Work<S, G>,
    jobs: &[u64],
) -> Result<Vec<Outcome>, AllocError>
    ensures made { IfOk result (λ made.
        AreOutcomes (chunks_of S.made S.start_of work.now.sources.now) made.items) }
{
    let mut made = Vec::with_capacity(work.alloc, jobs.len())?;
    for job in jobs {
        work.gate.pass(*job);
        if let Some(outcome) = make(work.alloc, work.sources, *job)? {
            made.push(outcome)?;
        }
    }
    Ok(made)
}
