//! How many jobs a worker draws at once: those of a draw are committed together.

use df_jobs::AtOnce;
use df_plan::{CheckedPlan, Plan};
use df_value::Text;

/// As many as make a full frame in chunks of 1,000 rows.
pub(crate) const JOBS_OF_FULL_FRAME: usize = 1049;

/// How many jobs are drawn at first, so that a first commit shows what views make of rows.
const JOBS_OF_FIRST_COMMIT: usize = 8;

/// How many jobs each of so many workers draws at once, where these views are kept.
///
/// Where each commit may change every row of a view, a frame is to come in one: all that a draw may take. Else one worker draws
/// many, and several together half as many, since as much may wait to be committed; and of few jobs so few that a free worker
/// finds some.
pub(crate) fn jobs_at_once(jobs: u64, workers: usize, views: &[(Text, CheckedPlan)]) -> AtOnce {
    if views.iter().any(|view| may_change_every_row(view.1.plan())) {
        return AtOnce {
            first: JOBS_OF_FULL_FRAME,
            least: JOBS_OF_FULL_FRAME,
            most: JOBS_OF_FULL_FRAME,
        };
    }
    let most = if workers <= 1 {
        256
    } else {
        (128 / workers).max(1)
    };
    let parts = if workers <= 1 { 1 } else { workers.max(4) };
    let least = jobs.div_ceil(parts as u64).clamp(1, most as u64) as usize;
    AtOnce {
        first: least.min(JOBS_OF_FIRST_COMMIT),
        least,
        most,
    }
}

// Whether rows that come may change every row of a plan's table: a new cell moves the ranks of others, and a new row of a right
// side is beside rows of the left one.
fn may_change_every_row(plan: &Plan) -> bool {
    match plan {
        Plan::Scan(_) => false,
        Plan::Rank(_, _, _, _) | Plan::Join(_, _, _, _, _) => true,
        Plan::Filter(input, _) | Plan::Select(input, _) | Plan::WithColumns(input, _) => {
            may_change_every_row(input.get())
        }
        Plan::GroupBy(input, _, _) | Plan::CumSum(input, _, _) => may_change_every_row(input.get()),
        Plan::Rolling(input, _, _, _, _, _) => may_change_every_row(input.get()),
    }
}
