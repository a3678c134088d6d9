//! What waits to be committed: batches of outcomes. One worker commits what waits, and the others make more meanwhile. A batch
//! joins one that waits already, where the runs of both follow one another, so that both enter in one change.
ghost use Rattle.std.specs.Prelude.{◌≡◌, ◌++◌, ◌⊎◌, IfOk, IfSome, All, length};
ghost use Rattle.df_jobs.specs.Joined.{IsJoined};
ghost use Rattle.df_store.specs.Batches.{IsBatch, IsRunOfAll, outcomes_of};

use crate::drawing::JOBS_OF_FULL_FRAME;
use crate::loading::Beginning;
use core::mem;
use df_jobs::{Joined, Outcome};
use std::alloc::{AllocError, Global};
use std::marker::{Model, PhantomData};

/// Outcomes that enter together.
pub(crate) enum Batch {
    /// Those of a run, which enters in one change.
    Run(Joined),
    /// Outcomes whose chunks enter one by one.
    Apart(Vec<Outcome>),
}

// A body that owns one drops it by a call.
impl Drop for Batch {
    fn drop(self) {
        match self {
            Batch::Run(run) => drop(run),
            Batch::Apart(outcomes) => drop(outcomes),
        }
    }
}

impl Batch {
    /// How many outcomes there are.
    pub(crate) fn len(&self) -> usize
        ensures { result ≡ length (outcomes_of self.now) }
    {
        match self {
            Batch::Run(run) => run.outcomes.len(),
            Batch::Apart(outcomes) => outcomes.len(),
        }
    }

    /// How many rows its run has; none where its chunks enter one by one.
    pub(crate) fn rows(&self) -> usize {
        match self {
            Batch::Run(run) => run.run.len(),
            Batch::Apart(_) => 0,
        }
    }

    // The outcomes.
    fn into_outcomes(self) -> Vec<Outcome>
        ensures { result.items ≡ outcomes_of self }
    {
        match self {
            Batch::Run(run) => run.into_outcomes(),
            Batch::Apart(outcomes) => outcomes,
        }
    }

    // Whether it is a run that another one's goes on behind.
    fn goes_on(&self, next: &Batch) -> bool {
        match (self, next) {
            (Batch::Run(run), Batch::Run(behind)) => run.goes_on(behind),
            _ => false,
        }
    }

    // Whether both are runs that follow one another.
    fn is_beside(&self, other: &Batch) -> bool {
        self.goes_on(other) || other.goes_on(self)
    }

    /// The outcomes of two batches as one batch: a run where both are runs that follow one another, else apart.
    pub(crate) fn with(self, alloc: Global, other: Batch) -> Result<Batch, AllocError>
        ensures all { IfOk result (λ both. (outcomes_of both ≡ outcomes_of self ++ outcomes_of other)
            ⊎ (outcomes_of both ≡ outcomes_of other ++ outcomes_of self)) }
        ensures run { IfOk result (λ both. IsRunOfAll self → IsRunOfAll other → IsRunOfAll both) }
    {
        if self.goes_on(&other) {
            Ok(self.before(alloc, other)?)
        } else {
            Ok(other.before(alloc, self)?)
        }
    }

    // The outcomes of this batch, and behind them those of another.
    fn before(self, alloc: Global, next: Batch) -> Result<Batch, AllocError>
        ensures all { IfOk result (λ both. outcomes_of both ≡ outcomes_of self ++ outcomes_of next) }
        ensures run { IfOk result (λ both. IsRunOfAll self → IsRunOfAll next → IsRunOfAll both) }
    {
        match self {
            Batch::Run(run) => next.behind(alloc, run),
            Batch::Apart(outcomes) => apart(outcomes, next),
        }
    }

    // The outcomes of a run, and behind them those of this batch.
    fn behind(self, alloc: Global, run: Joined) -> Result<Batch, AllocError>
        ensures all { IfOk result (λ both. outcomes_of both ≡ run.outcomes.items ++ outcomes_of self) }
        ensures run { IfOk result (λ both. IsJoined run → IsRunOfAll self → IsRunOfAll both) }
    {
        match self {
            Batch::Run(next) => joined(alloc, run, next),
            Batch::Apart(outcomes) => apart(run.into_outcomes(), Batch::Apart(outcomes)),
        }
    }
}

// A run and another behind it: as one, where the second goes on behind the first, else apart.
fn joined(alloc: Global, run: Joined, next: Joined) -> Result<Batch, AllocError>
    ensures all { IfOk result (λ both. outcomes_of both ≡ run.outcomes.items ++ next.outcomes.items) }
    ensures run { IfOk result (λ both. IsJoined run → IsJoined next → IsRunOfAll both) }
{
    if run.goes_on(&next) {
        return Ok(Batch::Run(run.joined(alloc, next)?));
    }
    apart(run.into_outcomes(), Batch::Run(next))
}

// These outcomes, and behind them those of a batch, apart.
fn apart(outcomes: Vec<Outcome>, next: Batch) -> Result<Batch, AllocError>
    ensures all { IfOk result (λ both. outcomes_of both ≡ outcomes.items ++ outcomes_of next) }
    ensures run { IfOk result IsRunOfAll }
{
    let mut outcomes = outcomes;
    let mut more = next.into_outcomes();
    outcomes.append(&mut more)?;
    Ok(Batch::Apart(outcomes))
}

/// Where a commit brings fewer rows than this for each group that it finishes, there are many groups.
const ROWS_OF_A_GROUP: usize = 2;

/// What a worker is to do whose batch waits.
#[derive(Clone, Copy, PartialEq, Eq)]
pub(crate) enum Turn {
    /// Commit all that waits: nobody else does.
    Commit,
    /// Make more.
    Make,
    /// Let the commit end that is going on: so much waits already, or it is the first.
    Pause,
}

/// The batches that wait to be committed. They are of the chunks of a load's sources.
pub(crate) struct Waiting<B: Beginning> {
    batches: Vec<Batch>,
    /// How many were put here since the last were taken out.
    count: usize,
    /// Whether a worker commits.
    is_committing: bool,
    /// Whether the last commit finished a group for few rows each. Each further commit may finish them all once more, so
    /// that there are to be few.
    has_many_groups: bool,
    /// Whether a commit has ended.
    has_entered: bool,
    /// How many workers may still draw jobs.
    drawing: usize,
    /// Batches that have entered, and are to be freed.
    spent: Vec<Batch>,
    of: PhantomData<B>,
}

// A body that owns one drops it by a call.
impl<B: Beginning> Drop for Waiting<B> {
    fn drop(self) {
        let Waiting {
            batches,
            count: _,
            is_committing: _,
            has_many_groups: _,
            has_entered: _,
            drawing: _,
            spent,
            of,
        } = self;
        drop(batches);
        drop(spent);
        drop(of);
    }
}

impl<B: Beginning> Model for Waiting<B> {
    ghost use Rattle.std.specs.Prelude.{All, ⊤};
    ghost use Rattle.df_store.specs.Batches.{IsBatch};

    ghost Value = { ⊤ };

    ghost view = { λ w. tt };

    ghost invariant = { λ w. All (IsBatch B.chunks) w.batches.items };
}

impl<B: Beginning> Waiting<B> {
    /// None, of so many workers.
    pub(crate) fn new(alloc: Global, workers: usize) -> Waiting<B> {
        Waiting {
            batches: Vec::new(alloc),
            count: 0,
            is_committing: false,
            has_many_groups: false,
            has_entered: false,
            drawing: workers,
            spent: Vec::new(alloc),
            of: PhantomData,
        }
    }

    /// Adds a batch, and says what its worker, one of so many, is to do.
    pub(crate) fn push(&mut self, batch: Batch, workers: usize) -> Result<Turn, AllocError>
        requires { IsBatch B.chunks batch }
    {
        self.batches.push(batch)?;
        self.count = self.count.saturating_add(1);
        if !self.is_committing {
            self.is_committing = true;
            return Ok(Turn::Commit);
        }
        // Until the first commit has ended nobody knows how many groups there are.
        Ok(if self.has_entered && self.count / 2 < workers {
            Turn::Make
        } else {
            Turn::Pause
        })
    }

    /// Takes out a batch whose run and that of this one follow one another, if there is one.
    pub(crate) fn take_beside(&mut self, batch: &Batch) -> Option<Batch>
        ensures { IfSome result (IsBatch B.chunks) }
    {
        let at = self
            .batches
            .iter()
            .position(|other| other.is_beside(batch))?;
        Some(self.batches.remove(at))
    }

    /// Notes how many groups a change finished by which so many rows came.
    pub(crate) fn note_groups(&mut self, rows: usize, groups: u128) {
        self.has_entered = true;
        if rows > 0 {
            self.has_many_groups = groups > (rows / ROWS_OF_A_GROUP) as u128;
        }
    }

    /// The least jobs that a worker is to draw at once.
    pub(crate) fn least_jobs(&self) -> usize {
        if self.has_many_groups {
            JOBS_OF_FULL_FRAME
        } else {
            1
        }
    }

    /// A worker has found no job to draw. Whether it is the last one, which commits what waits. There is none where one
    /// stopped before: then the load fails.
    pub(crate) fn end_drawing(&mut self) -> bool {
        self.drawing = self.drawing.saturating_sub(1);
        self.drawing == 0
    }

    // Whether what waits is to wait for more.
    fn is_to_wait(&self) -> bool {
        self.has_many_groups && self.drawing > 0 && self.jobs() < JOBS_OF_FULL_FRAME
    }

    // How many jobs wait.
    fn jobs(&self) -> usize {
        let mut jobs: usize = 0;
        for batch in &self.batches {
            jobs = jobs.saturating_add(batch.len());
        }
        jobs
    }

    /// Takes out what is to be committed now, for the worker that commits. Where that is nothing, it has ended.
    pub(crate) fn take_ready(&mut self, alloc: Global) -> Vec<Batch>
        ensures { All (IsBatch B.chunks) result.items }
    {
        if self.is_to_wait() {
            self.is_committing = false;
            return Vec::new(alloc);
        }
        self.take_all(alloc)
    }

    // Takes all out, in the order in which they came.
    fn take_all(&mut self, alloc: Global) -> Vec<Batch>
        ensures { All (IsBatch B.chunks) result.items }
    {
        let batches = mem::replace(&mut self.batches, Vec::new(alloc));
        self.count = 0;
        self.is_committing = !batches.is_empty();
        batches
    }

    /// Leaves batches that have entered, for whoever frees them, and takes those that were left before.
    pub(crate) fn swap_spent(&mut self, batches: Vec<Batch>) -> Vec<Batch> {
        mem::replace(&mut self.spent, batches)
    }

    /// The worker that committed has stopped.
    pub(crate) fn give_up(&mut self) {
        self.is_committing = false;
    }
}
