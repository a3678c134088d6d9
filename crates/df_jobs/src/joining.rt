//! Joining: the chunks of several jobs become one run, which enters in one change.
ghost use Rattle.std.specs.Prelude.{◌≡◌, ◌<◌, ◌≤◌, ◌+◌, ◌++◌, ◌==◌, true, IfOk, IfSome, MatchResult, length, map};
ghost use Rattle.std.specs.List.{prefix_len};
ghost use Rattle.df_frame.specs.Runs.{GoesOn};
ghost use Rattle.df_value.specs.Limits as limits;
ghost use Rattle.df_jobs.specs.Joined as joined;
ghost use Rattle.df_jobs.specs.Joined.{AreRun, FollowFrom, IsGoodAt, IsJoined, StandIn, all_rows, outcomes_in, part_of};
ghost use Rattle.df_jobs.specs.Made.{rows_in};

use crate::jobs::Outcome;
use crate::made::Made;
use df_frame::PreparedRun;
use df_value::{Chunk, Duplicate, MOST_ROWS_OF_FRAME, Row, Schema, same};
use std::alloc::{AllocError, Global};

/// The chunks of one or several outcomes as one run.
pub struct Joined {
    /// The index of their frame.
    pub frame: usize,
    /// The run, whose rows stand in blocks.
    pub run: PreparedRun,
    /// The outcomes, with the rows of each in blocks of the run.
    pub outcomes: Vec<Outcome>,
}

// A body that owns one drops it by a call.
impl Drop for Joined {
    fn drop(self) {
        let Joined {
            frame: _,
            run,
            outcomes,
        } = self;
        drop(run);
        drop(outcomes);
    }
}

/// How the run of some outcomes begins, and how many rows it has.
struct Head {
    frame: usize,
    schema: Schema,
    first: u32,
    rows: usize,
}

// A body that owns one drops it by a call.
impl Drop for Head {
    fn drop(self) {
        let Head {
            frame: _,
            schema,
            first: _,
            rows: _,
        } = self;
        drop(schema);
    }
}

/// What is left of an outcome whose rows were taken out: its job, frame and first number, the number of the first row, and how
/// many rows there were.
#[derive(Clone, Copy, Drop)]
struct Part {
    job: u64,
    frame: usize,
    first: u32,
    number: u32,
    rows: usize,
}

impl Joined {
    /// Whether the run of another goes on behind this one, in the same frame.
    pub fn goes_on(&self, next: &Joined) -> bool
        ensures frame { result ≡ true → next.now.frame ≡ self.now.frame }
        ensures run { result ≡ true → GoesOn self.now.run next.now.run }
    {
        self.frame == next.frame && self.run.goes_on(&next.run)
    }

    /// The outcomes.
    pub fn into_outcomes(self) -> Vec<Outcome>
        ensures { result ≡ self.outcomes }
    {
        let Joined {
            frame: _,
            run,
            outcomes,
        } = self;
        drop(run);
        outcomes
    }

    /// This run and one that goes on behind it, as one, with the outcomes of both.
    pub fn joined(self, alloc: Global, next: Joined) -> Result<Joined, AllocError>
        requires frame { next.frame ≡ self.frame }
        requires run { GoesOn self.run next.run }
        ensures joined { IfOk result (λ both. IsJoined self → IsJoined next → IsJoined both) }
        ensures outcomes { IfOk result (λ both.
            both.outcomes.items ≡ self.outcomes.items ++ next.outcomes.items) }
    {
        let Joined {
            frame,
            run,
            outcomes,
        } = self;
        let Joined {
            frame: _,
            run: more,
            outcomes: others,
        } = next;
        let run = run.joined(alloc, more)?;
        let mut outcomes = outcomes;
        let mut others = others;
        outcomes.append(&mut others)?;
        Ok(Joined {
            frame,
            run,
            outcomes,
        })
    }
}

/// The chunks of all these outcomes as one run, where they are all good, of one frame and one schema, each begins at the
/// number behind the one before, and a frame can have so many rows; else the outcomes come back. The rows are moved into the
/// run, and stand in blocks already, so that few are made while the lock is held.
pub fn join(
    alloc: Global,
    outcomes: Vec<Outcome>,
) -> Result<Result<Joined, Vec<Outcome>>, AllocError>
    ensures { IfOk result (λ r. MatchResult r
        (λ run. IsJoined run × (run.outcomes.items ≡ outcomes.items))
        (λ back. back.items ≡ outcomes.items)) }
{
    match head_of(alloc, outcomes.as_slice())? {
        Some(head) => Ok(Ok(run_of(alloc, head, outcomes)?)),
        None => Ok(Err(outcomes)),
    }
}

// How the run of these outcomes begins, if they are one.
fn head_of(alloc: Global, outcomes: &[Outcome]) -> Result<Option<Head>, AllocError>
    ensures { IfOk result (λ r. IfSome r (λ head. AreRun head outcomes.now)) }
{
    let Some(outcome) = outcomes.first() else {
        return Ok(None);
    };
    let Some(begin) = outcome.made.typed_chunk() else {
        return Ok(None);
    };
    match rows_of_run(outcome.frame, begin, outcomes) {
        Some(rows) => Ok(Some(Head {
            frame: outcome.frame,
            schema: begin.schema().copy(alloc)?,
            first: begin.first(),
            rows,
        })),
        None => Ok(None),
    }
}

// How many rows these outcomes have, if they are a run of a frame that begins as this chunk.
fn rows_of_run(frame: usize, begin: &Chunk, outcomes: &[Outcome]) -> Option<usize>
    ensures follow { IfSome result (λ _. FollowFrom frame begin.now.schema begin.now.first outcomes.now) }
    ensures count { IfSome result (λ rows. rows ≡ length (all_rows outcomes.now)) }
    ensures few { IfSome result (λ rows. rows ≤ limits.most_rows_of_frame) }
{
    let mut rows = 0;
    for outcome in outcomes {
        rows = rows_with(frame, begin, rows, outcome)?;
    }
    Some(rows)
}

// How many rows there are with those of one more outcome behind so many, if it goes on where they end.
fn rows_with(frame: usize, begin: &Chunk, rows: usize, outcome: &Outcome) -> Option<usize>
    requires { rows ≤ limits.most_rows_of_frame }
    ensures part { IfSome result (λ _.
        IsGoodAt frame begin.now.schema (begin.now.first + rows) outcome.now) }
    ensures count { IfSome result (λ all. all ≡ rows + length (rows_in outcome.now.made)) }
    ensures few { IfSome result (λ all. all ≤ limits.most_rows_of_frame) }
{
    let chunk = outcome.made.typed_chunk()?;
    let all = rows + chunk.rows().len();
    let goes_on = outcome.frame == frame
        && chunk.first() as u64 == begin.first() as u64 + rows as u64
        && all <= MOST_ROWS_OF_FRAME
        && same(chunk.schema(), begin.schema());
    if goes_on { Some(all) } else { None }
}

// The run of these outcomes, which begins so.
fn run_of(alloc: Global, head: Head, outcomes: Vec<Outcome>) -> Result<Joined, AllocError>
    requires { AreRun head outcomes.items }
    ensures joined { IfOk result IsJoined }
    ensures outcomes { IfOk result (λ run. run.outcomes.items ≡ outcomes.items) }
{
    let (rows, parts) = take_apart(alloc, outcomes, head.rows)?;
    let run = PreparedRun::new(alloc, &head.schema, head.first, rows)?;
    let outcomes = stored_in(alloc, &run, parts.as_slice())?;
    Ok(Joined {
        frame: head.frame,
        run,
        outcomes,
    })
}

// The rows of these outcomes, of which there are so many, and what is left of each.
fn take_apart(
    alloc: Global,
    outcomes: Vec<Outcome>,
    count: usize,
) -> Result<(Vec<Row>, Vec<Part>), AllocError>
    ensures rows { IfOk result (λ taken. taken.0.items ≡ all_rows outcomes.items) }
    ensures parts { IfOk result (λ taken. taken.1.items ≡ map part_of outcomes.items) }
{
    let mut rows = Vec::with_capacity(alloc, count)?;
    let mut parts = Vec::with_capacity(alloc, outcomes.len())?;
    for outcome in outcomes {
        let part = take_rows(alloc, outcome, &mut rows)?;
        parts.push(part)?;
    }
    Ok((rows, parts))
}

// Moves the rows of an outcome behind others, and gives what is left of it.
fn take_rows(alloc: Global, outcome: Outcome, rows: &mut Vec<Row>) -> Result<Part, AllocError>
    ensures part { IfOk result (λ part. part ≡ part_of outcome) }
    ensures rows { IfOk result (λ _. rows.new.items ≡ rows.old.items ++ rows_in outcome.made) }
{
    let (job, frame, first) = (outcome.job, outcome.frame, outcome.first);
    let Some(chunk) = outcome.into_made().into_chunk(alloc)? else {
        return Ok(Part {
            job,
            frame,
            first,
            number: 0,
            rows: 0,
        });
    };
    let number = chunk.first();
    let mut more = chunk.into_rows().into_vec();
    let part = Part {
        job,
        frame,
        first,
        number,
        rows: more.len(),
    };
    rows.append(&mut more)?;
    Ok(part)
}

// The outcomes of which these parts are left, with their rows in the blocks of a run.
fn stored_in(alloc: Global, run: &PreparedRun, parts: &[Part]) -> Result<Vec<Outcome>, AllocError>
    requires { StandIn run.now 0 parts.now }
    ensures { IfOk result (λ outcomes. outcomes.items ≡ outcomes_in run.now 0 parts.now) }
{
    let mut outcomes = Vec::with_capacity(alloc, parts.len())?;
    let mut low = 0;
    for part in parts {
        outcomes.push(stored_at(run, low, *part)?)?;
        low += part.rows;
    }
    Ok(outcomes)
}

// The outcome of which this part is left, with its rows in the blocks of a run from an index on.
fn stored_at(run: &PreparedRun, low: usize, part: Part) -> Result<Outcome, AllocError>
    requires within { low + part.rows ≤ length run.now.rows }
    requires short { part.rows ≤ limits.most_rows_of_chunk }
    requires number { part.number ≡ run.now.first + low }
    ensures { IfOk result (λ outcome. outcome ≡ joined.outcome_in run.now low part) }
{
    let chunk = run.part(low, part.rows, part.number)?;
    Ok(Outcome {
        job: part.job,
        frame: part.frame,
        first: part.first,
        made: Made::stored(chunk),
    })
}

/// How many outcomes stand before the first one of another frame than the first: they are to enter together.
pub fn count_of_first_frame(outcomes: &[Outcome]) -> usize
    requires { 0 < length outcomes.now }
    ensures value { result ≡ joined.count_of_first_frame outcomes.now }
    ensures some { 0 < result }
    ensures within { result ≤ length outcomes.now }
{
    let frame = outcomes[0].frame;
    1 + count_of_frame(frame, &outcomes[1..])
}

// How many of the first outcomes are of this frame.
fn count_of_frame(frame: usize, outcomes: &[Outcome]) -> usize
    ensures value { result ≡ prefix_len (λ o. o.frame == frame) outcomes.now }
    ensures within { result ≤ length outcomes.now }
{
    outcomes.iter().take_while(|o| o.frame == frame).count()
}
