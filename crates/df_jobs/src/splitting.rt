//! Splitting: the desks of one worker are shared out among all of them.
ghost use Rattle.std.specs.Prelude.{◌≡◌, ◌+◌, ◌<◌, ◌≤◌, ◌∷◌, ◌++◌, All, drop, length, vec_capacity};
ghost use Rattle.df_state.specs.Desks.{HaveSameSums};
ghost use Rattle.df_jobs.specs.Workers.{HasNotBegun, IsIdle, desks_of};

use crate::worker::{Work, Worker};
use df_state::Desk;
use std::sync::ledger::Ledger;

/// Splits the desks of the first worker among all, of which the others have none yet.
///
/// The worker at each place `at` gets its desks from the one at `(at - 1) / 2`, so that none gives
/// more than twice.
pub(crate) fn share_desks<Acc: Ledger, Del: Ledger, S, G>(
    work: &Work<S, G>,
    workers: &mut [Worker<Acc, Del>],
)
    requires begun { All (HasNotBegun work.now.claims.now work.now.desks) workers.old }
    requires idle { All (IsIdle work.now.claims.now work.now.desks) (drop 1 workers.old) }
    ensures begun { All (HasNotBegun work.now.claims.now work.now.desks) workers.new }
    ensures count { length workers.new ≡ length workers.old }
    ensures sums { HaveSameSums (desks_of workers.old) (desks_of workers.new) }
{
    for at in 1..workers.len() {
        split_between(work, workers, (at - 1) / 2, at);
    }
}

// Splits each desk of the worker at `from` for the one at `to`, which has none yet.
fn split_between<Acc: Ledger, Del: Ledger, S, G>(
    work: &Work<S, G>,
    workers: &mut [Worker<Acc, Del>],
    from: usize,
    to: usize,
)
    requires order { from < to }
    requires within { to < length workers.old }
    requires begun { All (HasNotBegun work.now.claims.now work.now.desks) workers.old }
    requires idle { All (IsIdle work.now.claims.now work.now.desks) (drop to workers.old) }
    ensures begun { All (HasNotBegun work.now.claims.now work.now.desks) workers.new }
    ensures idle { All (IsIdle work.now.claims.now work.now.desks) (drop (to + 1) workers.new) }
    ensures count { length workers.new ≡ length workers.old }
    ensures sums { HaveSameSums (desks_of workers.old) (desks_of workers.new) }
{
    let _ = work;
    let (givers, takers) = workers.split_at_mut(to);
    split_desks(&mut givers[from].desks, &mut takers[0].desks);
}

// Splits each of these desks, and puts what was split off behind the others, where there is room.
fn split_desks<Acc: Ledger, Del: Ledger>(
    desks: &mut Vec<Desk<Acc, Del>>,
    others: &mut Vec<Desk<Acc, Del>>,
)
    requires { length others.old.items + length desks.old.items ≤ vec_capacity others.old }
    ensures count { length desks.new.items ≡ length desks.old.items }
    ensures most { length others.new.items ≤ length others.old.items + length desks.old.items }
    ensures sums { HaveSameSums (desks.old.items ++ others.old.items)
        (desks.new.items ++ others.new.items) }
{
    for at in 0..desks.len() {
        split_desk(&mut desks[at], others);
    }
}

// Splits a desk, unless it has one part alone.
fn split_desk<Acc: Ledger, Del: Ledger>(desk: &mut Desk<Acc, Del>, others: &mut Vec<Desk<Acc, Del>>)
    requires { length others.old.items < vec_capacity others.old }
    ensures most { length others.new.items ≤ length others.old.items + 1 }
    ensures capacity { vec_capacity others.new ≡ vec_capacity others.old }
    ensures sums { HaveSameSums (desk.old ∷ others.old.items) (desk.new ∷ others.new.items) }
{
    if let Some(split) = desk.split() {
        others.push_reserved(split);
    }
}
