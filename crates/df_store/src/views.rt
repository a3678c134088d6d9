//! Whether a catalogue has the views that were given.
ghost use Rattle.std.specs.Prelude.{◌≡◌, ◌↔◌, IsTrue, Some};
ghost use Rattle.df_state.specs.Reads as reads;
ghost use Rattle.df_state.specs.States.{IsLegal};
ghost use Rattle.df_store.specs.Headings.{headings_of};

use df_catalogue::Catalogue;
use df_plan::CheckedPlan;
use df_value::{List, Text, same};
use std::sync::ledger::Ledger;

/// Whether the views of a catalogue, which have these names, are the given ones in their order.
pub(crate) fn are_views<Acc: Ledger, Del: Ledger>(
    catalogue: &Catalogue<Acc, Del>,
    names: &List<Text>,
    views: &[(Text, CheckedPlan)],
) -> bool
    requires names { names.now ≡ reads.view_names_of catalogue.now.state }
    requires legal { IsLegal catalogue.now.state }
    ensures { IsTrue result ↔ (headings_of catalogue.now.state ≡ views.now) }
{
    let names = names.as_slice();
    if names.len() != views.len() {
        return false;
    }
    for at in 0..views.len() {
        if !is_view(catalogue, &names[at], &views[at]) {
            return false;
        }
    }
    true
}

// Whether a view of this name is there with the plan of a given one, and has its name.
fn is_view<Acc: Ledger, Del: Ledger>(
    catalogue: &Catalogue<Acc, Del>,
    name: &Text,
    view: &(Text, CheckedPlan),
) -> bool
    ensures { IsTrue result ↔ ((name.now ≡ view.now.0)
        × (reads.view_plan_of catalogue.now.state name.now ≡ Some view.now.1)) }
{
    match catalogue.view_plan(name.as_str()) {
        Some(plan) => same(name, &view.0) && same_plan(plan, &view.1),
        None => false,
    }
}

fn same_plan(plan: &CheckedPlan, other: &CheckedPlan) -> bool
    ensures { IsTrue result ↔ (plan.now ≡ other.now) }
{
    same(plan.plan(), other.plan())
        && same(plan.frames(), other.frames())
        && same(plan.schema(), other.schema())
}
