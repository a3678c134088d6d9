//! The command that defines a view.
ghost use Rattle.std.specs.Prelude.{◌≡◌, ◌++◌, ◌∷◌, [], Ok, IfErr, IfOk, OnErr, OnOk};
ghost use Rattle.df_state.specs.declared.change.Change.TheVariants.{Register};
ghost use Rattle.df_session.specs.Asked.{IsRefusalOfChange};
ghost use Rattle.df_session.specs.Defined.{IsDefined, IsFaultOfView, IsRefusalOfDefine, view_defined, with_view};

use crate::definitions::Definitions;
use crate::refusal::Refusal;
use crate::view_store::ViewStore;
use df_document::{DocumentFault, open_next_view};
use df_explain::next_view_words;
use df_plan::CheckedPlan;
use df_state::Change;
use df_text::ViewSpec;
use df_value::{Duplicate, List, Text};
use std::alloc::Global;
use std::mem;

/// Defines a view over the document's frames, behind all views so far, and adds it last.
///
/// The first of these is answered: why the steps could not be read; the fault of the view, as a document has it; the
/// store's refusal.
pub fn define<S: ViewStore>(
    alloc: Global,
    definitions: &mut Definitions,
    store: &mut S,
    view: &str,
    source: &str,
    steps: Result<Vec<u8>, Refusal>,
) -> Result<(), Refusal>
    ensures made { OnOk result (IsDefined (S.Makes store.old store.new)
        definitions.old definitions.new view.now source.now steps) }
    ensures refused { IfErr result (IsRefusalOfDefine (S.Refuses store.old store.new)
        definitions.old view.now source.now steps) }
    ensures same { OnErr result (S.Keeps store.old store.new) }
    ensures kept { OnErr result (definitions.new ≡ definitions.old) }
{
    let steps = steps?;
    let (spec, plan) = checked_view(alloc, definitions, view, source, steps.as_slice())?;
    drop(steps);
    add_view(alloc, definitions, store, view, spec, plan)
}

// The view that the words say, with its plan.
fn checked_view(
    alloc: Global,
    definitions: &Definitions,
    view: &str,
    source: &str,
    steps: &[u8],
) -> Result<(ViewSpec, CheckedPlan), Refusal>
    ensures said { IfOk result (λ v. view_defined definitions.now view.now source.now steps.now ≡ Ok v) }
    ensures refused { IfErr result (IsFaultOfView definitions.now view.now source.now steps.now) }
{
    let document = &definitions.document;
    match open_next_view(alloc, document, view, source, steps) {
        Ok(checked) => Ok(checked),
        Err(DocumentFault::Memory) => Err(Refusal::Memory),
        Err(fault) => match next_view_words(alloc, document, view, source, steps, &fault) {
            Ok(words) => Err(Refusal::Definition(fault, Text::from_string(words))),
            Err(_) => {
                drop(fault);
                Err(Refusal::Memory)
            }
        },
    }
}

// Registers a view, and keeps it behind all others. While the store is asked the views are out of the definitions, in
// vectors with room for it.
fn add_view<S: ViewStore>(
    alloc: Global,
    definitions: &mut Definitions,
    store: &mut S,
    name: &str,
    view: ViewSpec,
    plan: CheckedPlan,
) -> Result<(), Refusal>
    ensures made { OnOk result ((definitions.new ≡ with_view definitions.old view plan)
        × S.Makes store.old store.new (Register name.now plan)) }
    ensures refused { IfErr result
        (IsRefusalOfChange (S.Refuses store.old store.new) (Register name.now plan)) }
    ensures same { OnErr result (S.Keeps store.old store.new) }
    ensures kept { OnErr result (definitions.new ≡ definitions.old) }
{
    let mut views = taken(alloc, &mut definitions.document.views);
    let mut plans = taken(alloc, &mut definitions.plans);
    let made = push_registered(alloc, store, name, view, plan, &mut views, &mut plans);
    definitions.document.views = List::from_vec(views);
    definitions.plans = List::from_vec(plans);
    made
}

// The items of a list, which is empty then.
fn taken<T: Drop>(alloc: Global, list: &mut List<T>) -> Vec<T>
    ensures { result.items ≡ list.old }
{
    mem::replace(list, List::from_vec(Vec::new(alloc))).into_vec()
}

// Registers a view, and pushes it and its plan, where the store takes it. There is room before the store is asked, so that
// nothing can be refused behind it.
fn push_registered<S: ViewStore>(
    alloc: Global,
    store: &mut S,
    name: &str,
    view: ViewSpec,
    plan: CheckedPlan,
    views: &mut Vec<ViewSpec>,
    plans: &mut Vec<CheckedPlan>,
) -> Result<(), Refusal>
    ensures made { OnOk result ((views.new.items ≡ views.old.items ++ view ∷ [])
        × (plans.new.items ≡ plans.old.items ++ plan ∷ [])
        × S.Makes store.old store.new (Register name.now plan)) }
    ensures refused { IfErr result
        (IsRefusalOfChange (S.Refuses store.old store.new) (Register name.now plan)) }
    ensures same { OnErr result (S.Keeps store.old store.new) }
    ensures kept { OnErr result ((views.new.items ≡ views.old.items) × (plans.new.items ≡ plans.old.items)) }
{
    let name = Text::from_str(alloc, name)?;
    let registered = plan.copy(alloc)?;
    views.reserve(1)?;
    plans.reserve(1)?;
    store.make(alloc, Change::Register(name, registered))?;
    views.push_reserved(view);
    plans.push_reserved(plan);
    Ok(())
}
