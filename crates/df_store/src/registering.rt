//! What a load does before its workers begin: it registers the views, and numbers the jobs.
ghost use Rattle.std.specs.Prelude.{◌≡◌, ◌≤◌, IfErr, IfOk, OnErr, OnOk, Some, length};
ghost use Rattle.df_state.specs.declared.state.State.{State};
ghost use Rattle.df_claims.specs.Seats.{AreAllSeats};
ghost use Rattle.df_jobs.specs.Jobs.{most_jobs};
ghost use Rattle.df_store.specs.Faults.{IsCauseAtStart, IsCauseOfView, IsCauseOfViews};
ghost use Rattle.df_store.specs.Headings.{HaveLastViews, IsRegistered};
ghost use Rattle.df_store.specs.Loads.{AllowsLoad};
ghost use Rattle.df_versions.specs.Histories.{last_state};

use crate::fault::LoadCause;
use df_catalogue::ViewChange;
use df_claims::{ClaimSeat, Claims};
use df_hall::VersionedCatalogue;
use df_plan::CheckedPlan;
use df_value::{Duplicate, Text};
use df_versions::{Naming, Told};
use std::alloc::Global;
use std::sync::Wait;
use std::sync::ledger::Ledger;

/// Registers copies of the views, and numbers the jobs for so many workers.
pub(crate) fn begin<Acc: Ledger, Del: Ledger, J: Naming, R: Wait>(
    rt: &R,
    alloc: Global,
    catalogue: &mut VersionedCatalogue<Acc, Del, J>,
    views: &[(Text, CheckedPlan)],
    jobs: u64,
    workers: usize,
) -> Result<(Claims, Vec<ClaimSeat>), LoadCause>
    requires allowed { AllowsLoad J.allows }
    requires jobs { jobs ≤ most_jobs }
    requires workers { (1 ≤ workers) × (workers ≤ 16) }
    ensures registered { OnOk result (HaveLastViews views.now catalogue.new) }
    ensures count { IfOk result (λ begun. length begun.1.items ≡ workers) }
    ensures seats { IfOk result (λ begun. AreAllSeats begun.0 begun.1.items) }
    ensures cause { IfErr result (λ cause. (s : State) → last_state catalogue.new ≡ Some s
        → IsCauseAtStart s views.now cause) }
{
    register_all(rt, alloc, catalogue, views)?;
    match Claims::new(alloc, jobs, workers) {
        Ok(begun) => Ok(begun),
        Err(_) => Err(LoadCause::Memory),
    }
}

// Registers copies of the views, in their order.
fn register_all<Acc: Ledger, Del: Ledger, J: Naming, R: Wait>(
    rt: &R,
    alloc: Global,
    catalogue: &mut VersionedCatalogue<Acc, Del, J>,
    views: &[(Text, CheckedPlan)],
) -> Result<(), LoadCause>
    requires { AllowsLoad J.allows }
    ensures registered { OnOk result (HaveLastViews views.now catalogue.new) }
    ensures cause { IfErr result (λ cause. (s : State) → last_state catalogue.new ≡ Some s
        → IsCauseOfViews s views.now cause) }
{
    for at in 0..views.len() {
        register_one(rt, alloc, catalogue, &views[at])?;
    }
    Ok(())
}

// Registers a copy of a view. No reader learns of it, so that nothing needs to be told.
fn register_one<Acc: Ledger, Del: Ledger, J: Naming, R: Wait>(
    rt: &R,
    alloc: Global,
    catalogue: &mut VersionedCatalogue<Acc, Del, J>,
    view: &(Text, CheckedPlan),
) -> Result<(), LoadCause>
    requires { AllowsLoad J.allows }
    ensures registered { OnOk result (IsRegistered view.now catalogue.old catalogue.new) }
    ensures same { OnErr result (catalogue.new ≡ catalogue.old) }
    ensures cause { IfErr result (λ cause. (s : State) → last_state catalogue.new ≡ Some s
        → IsCauseOfView s view.now cause) }
{
    let name = view.0.copy(alloc)?;
    let plan = view.1.copy(alloc)?;
    let change = ViewChange::Register(name, plan);
    let nothing: Option<Told<J>> = None;
    match catalogue.change_views(rt, alloc, change, nothing.as_ref()) {
        Ok(told) => {
            drop(told);
            Ok(())
        }
        Err(fault) => Err(LoadCause::of_register(fault)),
    }
}
