//! The chunks that did not enter, since a cell of them is bad.
ghost use Rattle.std.specs.Prelude.{◌≡◌, ◌++◌, ◌∷◌, [], IfOk, OnOk, filter_map, map};
ghost use Rattle.df_jobs.specs.Jobs.{job_of};
ghost use Rattle.df_jobs.specs.Refused.{refusal};

use crate::jobs::Outcome;
use df_value::BadCell;
use std::alloc::{AllocError, Global};

/// A chunk that did not enter, since a cell of it is bad.
#[derive(Clone, Copy, PartialEq, Eq)]
pub struct Refused {
    /// The index of its frame.
    pub frame: usize,
    /// The number of its first row.
    pub first: u32,
    /// Its first bad cell.
    pub cell: BadCell,
}

/// The chunks of these outcomes that were refused.
pub fn refused_in(alloc: Global, outcomes: &[Outcome]) -> Result<Vec<Refused>, AllocError>
    ensures { IfOk result (λ refused.
        refused.items ≡ filter_map refusal (map job_of outcomes.now)) }
{
    let mut refused = Vec::new(alloc);
    for outcome in outcomes {
        push_refused(&mut refused, outcome)?;
    }
    Ok(refused)
}

fn push_refused(refused: &mut Vec<Refused>, outcome: &Outcome) -> Result<(), AllocError>
    ensures { OnOk result
        (refused.new.items
        ≡ refused.old.items ++ filter_map refusal (job_of outcome.now ∷ [])) }
{
    if let Some(cell) = outcome.made.bad_cell() {
        refused.push(Refused {
            frame: outcome.frame,
            first: outcome.first,
            cell: *cell,
        })?;
    }
    Ok(())
}
