//! Outcomes in the order of their jobs, and whether each job has exactly one.
ghost use Rattle.std.specs.Prelude.{◌≡◌, ◌<◌, All, IfNone, IfSome, map};
ghost use Rattle.std.specs.List.{range_with_len};
ghost use Rattle.std.specs.List.Sorted.{IsNonDecreasingBy, IsPermutation};
ghost use Rattle.df_jobs.specs.Jobs.{AreOutcomes, chunks_of};
ghost use Rattle.df_jobs.specs.Lost.{IsLost};

use crate::jobs::Outcome;
use df_value::Source;

// The outcomes in the order of their jobs.
fn by_job(outcomes: Vec<Outcome>) -> Vec<Outcome>
    ensures same { IsPermutation outcomes.items result.items }
    ensures order { IsNonDecreasingBy (λ o. o.job) result.items }
{
    let mut outcomes = outcomes;
    outcomes.sort_unstable_by_key(|outcome| outcome.job);
    outcomes
}

/// The outcomes of jobs of these sources in the order of the jobs.
pub fn in_order<S: Source>(sources: &[S], outcomes: Vec<Outcome>) -> Vec<Outcome>
    requires { AreOutcomes (chunks_of S.made S.start_of sources.now) outcomes.items }
    ensures outcomes { AreOutcomes (chunks_of S.made S.start_of sources.now) result.items }
    ensures same { IsPermutation outcomes.items result.items }
    ensures order { IsNonDecreasingBy (λ o. o.job) result.items }
{
    let _ = sources;
    by_job(outcomes)
}

/// The least of so many jobs that has not exactly one of these outcomes.
pub fn first_lost(outcomes: &[Outcome], jobs: u64) -> Option<u64>
    requires order { IsNonDecreasingBy (λ o. o.job) outcomes.now }
    requires within { All (λ o. o.job < jobs) outcomes.now }
    ensures none { IfNone result (map (λ o. o.job) outcomes.now ≡ range_with_len 0 jobs) }
    ensures lost { IfSome result (IsLost jobs outcomes.now) }
{
    for at in 0..outcomes.len() {
        let job = outcomes[at].job;
        if job != at as u64 {
            return Some(job.min(at as u64));
        }
    }
    let len = outcomes.len() as u64;
    if len == jobs { None } else { Some(len) }
}
