//! Jobs: each chunk of each source, numbered by frame and then by chunk.
ghost use Rattle.std.specs.Prelude.{◌≡◌, ◌<◌, ◌^◌, None, Some, IfOk, IfSome, MatchOption, length, slice_get};
ghost use Rattle.df_jobs.specs.Jobs.{IsOutcome, IsPlace, chunks_of, jobs_of};

use crate::made::Made;
use df_value::Source;
use std::alloc::{AllocError, Global};

/// What a job made.
pub struct Outcome {
    /// The number of the job.
    pub job: u64,
    /// The index of its frame.
    pub frame: usize,
    /// The number of its chunk's first row.
    pub first: u32,
    /// Its chunk, or the chunk's first bad cell.
    pub made: Made,
}

// A body that owns one drops it by a call.
impl Drop for Outcome {
    fn drop(self) {
        let Outcome {
            job: _,
            frame: _,
            first: _,
            made,
        } = self;
        drop(made);
    }
}

impl Outcome {
    /// What it made.
    pub(crate) fn into_made(self) -> Made
        ensures { result ≡ self.made }
    {
        let Outcome {
            job: _,
            frame: _,
            first: _,
            made,
        } = self;
        made
    }
}

/// Where the chunk of a job stands.
#[derive(Clone, Copy, Drop)]
pub(crate) struct Place {
    pub(crate) frame: usize,
    pub(crate) chunk: u64,
}

/// Where the chunk of a job stands, if there are so many jobs.
pub(crate) fn place_of<S: Source>(sources: &[S], job: u64) -> Option<Place>
    ensures { MatchOption result (slice_get (jobs_of (chunks_of S.made S.start_of sources.now)) job ≡ None) (λ p. IsPlace S.made S.start_of sources.now job p.frame p.chunk) }
{
    let mut left = job;
    for frame in 0..sources.len() {
        let chunks = sources[frame].chunks();
        if left < chunks {
            return Some(Place { frame, chunk: left });
        }
        left -= chunks;
    }
    None
}

/// Makes the chunk of a job, if there are so many jobs.
pub fn make<S: Source>(
    alloc: Global,
    sources: &[S],
    job: u64,
) -> Result<Option<Outcome>, AllocError>
    ensures outcome { IfOk result (λ made. IfSome made (λ o. IsOutcome (chunks_of S.made S.start_of sources.now) o)) }
    ensures job { IfOk result (λ made. IfSome made (λ o. o.job ≡ job)) }
    ensures frame { IfOk result (λ made. IfSome made (λ o. o.frame < length sources.now)) }
{
    match place_of(sources, job) {
        Some(place) => Ok(Some(make_at(alloc, sources, job, place)?)),
        None => Ok(None),
    }
}

fn make_at<S: Source>(
    alloc: Global,
    sources: &[S],
    job: u64,
    place: Place,
) -> Result<Outcome, AllocError>
    requires { IsPlace S.made S.start_of sources.now job place.frame place.chunk }
    ensures outcome { IfOk result (λ o. IsOutcome (chunks_of S.made S.start_of sources.now) o) }
    ensures job { IfOk result (λ o. o.job ≡ job) }
    ensures frame { IfOk result (λ o. o.frame ≡ place.frame) }
{
    let Place { frame, chunk } = place;
    let source = &sources[frame];
    let first = source.start(chunk);
    let made = source.chunk(alloc, chunk)?;
    Ok(Outcome {
        job,
        frame,
        first,
        made: Made::typed(made),
    })
}

/// How many jobs there are.
pub fn job_count<S: Source>(sources: &[S]) -> u64
    requires { length (jobs_of (chunks_of S.made S.start_of sources.now)) < 2 ^ 64 }
    ensures { result ≡ length (jobs_of (chunks_of S.made S.start_of sources.now)) }
{
    let mut count = 0;
    for source in sources {
        count += source.chunks();
    }
    count
}
