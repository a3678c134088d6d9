//! Where the rows of outcomes are to stand in their frames.
ghost use Rattle.std.specs.Prelude.{◌≡◌, ◌+◌, ◌<◌, ◌^◌, ◌-◌, ℕ, IfOk, get_or, length, min};
ghost use Rattle.df_jobs.specs.Expected.{AreExpected};
ghost use Rattle.df_jobs.specs.Jobs.{job_of};
ghost use Rattle.df_jobs.specs.Loaded.{job_rows};

use crate::jobs::Outcome;
use std::alloc::{AllocError, Global};

/// The outcome of a job until its rows are found, and the place in its frame from which they are to stand.
pub(crate) struct Expected {
    /// None once the rows were found.
    pub(crate) outcome: Option<Outcome>,
    pub(crate) place: usize,
}

// A body that owns one drops it by a call.
impl Drop for Expected {
    fn drop(self) {
        let Expected { outcome, place: _ } = self;
        drop(outcome);
    }
}

/// The outcomes with their places, each behind the rows that those before it give to its frame, and how many rows they
/// give to each of so many frames. A count that no `usize` holds is the greatest of them.
pub(crate) fn expect_all(
    alloc: Global,
    frames: usize,
    outcomes: Vec<Outcome>,
) -> Result<(Vec<Expected>, Vec<usize>), AllocError>
    ensures { IfOk result (λ all. AreExpected frames outcomes.items all.0.items all.1.items) }
{
    let mut counts = zeros(alloc, frames)?;
    let mut all = Vec::with_capacity(alloc, outcomes.len())?;
    for outcome in outcomes {
        let place = add_rows(counts.as_mut_slice(), &outcome);
        all.push(Expected {
            outcome: Some(outcome),
            place,
        })?;
    }
    Ok((all, counts))
}

fn zeros(alloc: Global, len: usize) -> Result<Vec<usize>, AllocError>
    ensures len { IfOk result (λ zeros. length zeros.items ≡ len) }
    ensures zero { IfOk result (λ zeros. (at : ℕ) → get_or zeros.items at 0 ≡ 0) }
{
    let mut zeros = Vec::with_capacity(alloc, len)?;
    for _ in 0..len {
        zeros.push(0)?;
    }
    Ok(zeros)
}

// Adds the rows of an outcome to the count of its frame, if there is one, and gives what it was.
fn add_rows(counts: &mut [usize], outcome: &Outcome) -> usize
    ensures count { length counts.new ≡ length counts.old }
    ensures place { outcome.now.frame < length counts.old → result ≡ get_or counts.old outcome.now.frame 0 }
    ensures added { (frame : ℕ) → frame < length counts.old →
        get_or counts.new frame 0 ≡ min (get_or counts.old frame 0
        + length (job_rows frame (job_of outcome.now))) (2 ^ 64 - 1) }
{
    let frame = outcome.frame;
    if frame >= counts.len() {
        return 0;
    }
    let place = counts[frame];
    counts[frame] = place.saturating_add(outcome.made.row_count());
    place
}
