//! What changes a catalogue and publishes the version after it. These are functions over both and not methods of the
//! value that holds them, which hides the catalogue's parts: what is staged is known of these.
ghost use Rattle.std.specs.Prelude.{◌≡◌, Some, IfErr, IsSomeAnd, OnErr, OnOk, option_map};
ghost use Rattle.df_catalogue.specs.StagedChanges.{counted_desk, counts_staged};
ghost use Rattle.df_state.specs.Pictures.{next_state};
ghost use Rattle.df_versions.specs.Answered.{AnswersNext, ChangesHistory, IsReady, IsUnready, Reports, told_states};
ghost use Rattle.df_versions.specs.Histories.{IsHistoryOver, MayFollowBy};

use df_catalogue::{Catalogue, CatalogueFault, Desk, StagedRows, StagedViews, State};
use df_versions::{ChangeFault, Naming, PublishFault, Publisher, Told};
use logbook::Plain;
use std::alloc::Global;
use std::sync::Wait;
use std::sync::ledger::Ledger;

/// What is asked of a history where a change is staged: the state once it is committed.
pub struct StagedState;

impl<Acc: Ledger, Del: Ledger> Plain<Catalogue<Acc, Del>, State, u64> for StagedState {
    ghost use Rattle.std.specs.Prelude.{None};
    ghost use Rattle.df_state.specs.Pictures.{next_state};

    ghost ask = { λ c. next_state c };

    ghost state = { λ c. None };
}

// Of how many states a caller was told.
fn states_told<J: Naming>(told: Option<&Told<J>>) -> u64
    ensures { result ≡ told_states (option_map (λ t. t.now) told.entry) }
{
    match told {
        Some(told) => told.len(),
        None => 0,
    }
}

/// Whether a change can be made, whatever it is: the caller was told of no later version, and there is a further one.
pub(crate) fn check_ready<J: Naming>(
    publisher: &Publisher<J>,
    told: Option<&Told<J>>,
) -> Result<(), ChangeFault<J>>
    ensures ready { OnOk result (IsReady publisher.now
        (told_states (option_map (λ t. t.now) told.entry))) }
    ensures unready { IfErr result (IsUnready publisher.now
        (told_states (option_map (λ t. t.now) told.entry))) }
    ensures over { IsHistoryOver J.schemas publisher.now }
{
    let states = publisher.len();
    if states_told(told) > states {
        return Err(ChangeFault::Ahead);
    }
    if states == u64::MAX {
        return Err(ChangeFault::Spent);
    }
    Ok(())
}

/// What a change answers that the catalogue refused.
pub(crate) fn report<J: Naming>(publisher: &Publisher<J>, fault: CatalogueFault) -> ChangeFault<J>
    ensures { Reports publisher.now fault result }
{
    match fault {
        CatalogueFault::Memory => ChangeFault::Memory,
        fault => ChangeFault::Refused(fault, publisher.told()),
    }
}

// Publishes the state that is staged, which an allowed change makes.
fn publish_staged<Acc: Ledger, Del: Ledger, J: Naming, R: Wait>(
    catalogue: &Catalogue<Acc, Del>,
    publisher: &mut Publisher<J>,
    rt: &R,
    alloc: Global,
) -> Result<Told<J>, ChangeFault<J>>
    requires { MayFollowBy J.allows publisher.old (next_state catalogue.now) }
    ensures answer { AnswersNext publisher.old (next_state catalogue.now) result }
    ensures history { ChangesHistory publisher.old result publisher.new }
{
    let Ok(picture) = catalogue.next_picture(alloc) else {
        return Err(ChangeFault::Memory);
    };
    match publisher.publish::<Catalogue<Acc, Del>, StagedState, R>(rt, alloc, catalogue, picture) {
        Ok(told) => Ok(told),
        Err(PublishFault::Spent) => Err(ChangeFault::Spent),
        Err(PublishFault::Memory) => Err(ChangeFault::Memory),
    }
}

/// Publishes the state that rows were staged for, and makes the change.
pub(crate) fn enter_rows<Acc: Ledger, Del: Ledger, J: Naming, R: Wait>(
    catalogue: &mut Catalogue<Acc, Del>,
    publisher: &mut Publisher<J>,
    rt: &R,
    alloc: Global,
    desk: &mut Desk<Acc, Del>,
    staged: StagedRows<Acc, Del>,
) -> Result<Told<J>, ChangeFault<J>>
    requires last { staged.catalogue.value ≡ catalogue.old }
    requires next { MayFollowBy J.allows publisher.old (next_state catalogue.old) }
    requires frame { option_map (λ r. r.frame) (counts_staged catalogue.old) ≡ Some desk.old.frame }
    ensures answer { AnswersNext publisher.old (next_state catalogue.old) result }
    ensures history { ChangesHistory publisher.old result publisher.new }
    ensures committed { OnOk result (catalogue.new.state ≡ next_state catalogue.old) }
    ensures same { OnErr result (catalogue.new.state ≡ catalogue.old.state) }
    ensures kept { OnOk result (IsSomeAnd catalogue.old.staged (λ s. catalogue.new.changes ≡ s.changes)) }
    ensures same_kept { OnErr result (catalogue.new.changes ≡ catalogue.old.changes) }
    ensures desk { OnOk result (IsSomeAnd (counts_staged catalogue.old) (λ rows.
        desk.new ≡ counted_desk desk.old rows)) }
    ensures same_desk { OnErr result (desk.new ≡ desk.old) }
{
    match publish_staged(catalogue, publisher, rt, alloc) {
        Ok(told) => {
            catalogue.commit_rows(desk, staged);
            Ok(told)
        }
        Err(fault) => Err(fault),
    }
}

/// The same where views were staged.
pub(crate) fn enter_views<Acc: Ledger, Del: Ledger, J: Naming, R: Wait>(
    catalogue: &mut Catalogue<Acc, Del>,
    publisher: &mut Publisher<J>,
    rt: &R,
    alloc: Global,
    staged: StagedViews<Acc, Del>,
) -> Result<Told<J>, ChangeFault<J>>
    requires last { staged.catalogue.value ≡ catalogue.old }
    requires next { MayFollowBy J.allows publisher.old (next_state catalogue.old) }
    ensures answer { AnswersNext publisher.old (next_state catalogue.old) result }
    ensures history { ChangesHistory publisher.old result publisher.new }
    ensures committed { OnOk result (catalogue.new.state ≡ next_state catalogue.old) }
    ensures same { OnErr result (catalogue.new.state ≡ catalogue.old.state) }
    ensures kept { OnOk result (IsSomeAnd catalogue.old.staged (λ s. catalogue.new.changes ≡ s.changes)) }
    ensures same_kept { OnErr result (catalogue.new.changes ≡ catalogue.old.changes) }
{
    match publish_staged(catalogue, publisher, rt, alloc) {
        Ok(told) => {
            catalogue.commit_views(staged);
            Ok(told)
        }
        Err(fault) => Err(fault),
    }
}
