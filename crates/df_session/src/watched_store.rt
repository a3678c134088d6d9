//! A store of which views are watched.
ghost use Rattle.std.specs.Prelude.{◌≡◌, ◌⊎◌, ◌++◌, ℕ, Err, Ok, Some, IfErr, IfOk, MatchResult, OnErr, OnOk};
ghost use Rattle.std.specs.Global.{Vec as Bytes};
ghost use Rattle.df_state.specs.declared.change.Change.TheVariants.{DropView};
ghost use Rattle.df_session.specs.Watching.{HasBegun, HasEnded, HasToldRows, IsAnswerToWatching, IsChangesOf, IsRefusalOfWatch, IsToldOf, IsUnwatched, is_watched, without_name};

use crate::answering::Answer;
use crate::change_store::ChangeStore;
use crate::command::{Question, Watching};
use crate::definitions::Definitions;
use crate::refusal::{Mistake, Refusal};
use crate::view_store::ViewStore;
use crate::watches::{WatchedView, Watches};
use df_state::{CatalogueFault, Change};
use df_value::{Duplicate, Text};
use std::alloc::Global;

/// A store, and the views of it that are watched. A change that it makes is told of them: [`Watches::told`] has what is to be
/// written behind the answer.
pub struct WatchedStore<S> {
    pub store: S,
    pub watches: Watches,
}

// A body that owns one drops it by a call.
impl<S: Drop> Drop for WatchedStore<S> {
    fn drop(self) {
        let WatchedStore { store, watches } = self;
        drop(store);
        drop(watches);
    }
}

impl<S> WatchedStore<S> {
    /// A store of which no view is watched.
    pub fn new(alloc: Global, store: S) -> WatchedStore<S>
        ensures { result.store ≡ store }
    {
        WatchedStore {
            store,
            watches: Watches::new(alloc),
        }
    }

    /// The store.
    pub fn into_store(self) -> S
        ensures { result ≡ self.store }
    {
        let WatchedStore { store, watches } = self;
        drop(watches);
        store
    }
}

impl<S: ChangeStore> WatchedStore<S> {
    // Makes a change of rows, and what it did to the watched views is to be told.
    fn make_rows(&mut self, alloc: Global, change: Change) -> Result<(), Refusal>
        ensures made { OnOk result (S.Makes self.old.store self.new.store change) }
        ensures told { OnOk result
            (HasToldRows (S.Tells self.new.store) self.old.watches self.new.watches) }
        ensures refused { IfErr result (S.Refuses self.old.store self.new.store change) }
        ensures same { OnErr result (S.Keeps self.old.store self.new.store) }
        ensures silent { OnErr result (self.new.watches ≡ self.old.watches) }
    {
        self.store.make(alloc, change)?;
        tell(alloc, &self.store, &mut self.watches);
        Ok(())
    }

    // Takes a view out, which is then no longer watched.
    fn drop_view(&mut self, alloc: Global, name: Text) -> Result<(), Refusal>
        ensures made { OnOk result (S.Makes self.old.store self.new.store (DropView name)) }
        ensures ended { OnOk result (self.new.watches
            ≡ record self.old.watches { names = without_name name self.old.watches.names }) }
        ensures refused { IfErr result (λ r. (r ≡ Refusal.Memory)
            ⊎ S.Refuses self.old.store self.new.store (DropView name) r) }
        ensures same { OnErr result (S.Keeps self.old.store self.new.store) }
        ensures silent { OnErr result (self.new.watches ≡ self.old.watches) }
    {
        let dropped = name.copy(alloc)?;
        self.store.make(alloc, Change::DropView(name))?;
        self.watches.end(dropped.as_str());
        Ok(())
    }
}

impl<S: ChangeStore> ViewStore for WatchedStore<S> {
    ghost use Rattle.std.specs.Prelude.{refl};
    ghost use Rattle.df_session.specs.Watching.{HasTold};
    ghost use Rattle.df_session.specs.declared.refusal.Refusal.TheVariants.{Memory};

    ghost Makes = { λ old new c. S.Makes old.store new.store c
        × HasTold (S.Tells new.store) c old.watches new.watches };

    ghost Refuses = { λ old new c r. (r ≡ Memory) ⊎ S.Refuses old.store new.store c r };

    ghost Keeps = { λ old new. S.Keeps old.store new.store × (new.watches ≡ old.watches) };

    ghost Answers = { λ old new d q answer. S.Answers old.store new.store d q answer
        × (new.watches ≡ old.watches) };

    ghost Next = { λ s at n. S.Next s.store at n };

    fn make(&mut self, alloc: Global, change: Change) -> Result<(), Refusal> {
        match change {
            Change::Append(at, chunk) => self.make_rows(alloc, Change::Append(at, chunk)),
            Change::Delete(at, numbers) => self.make_rows(alloc, Change::Delete(at, numbers)),
            Change::Replace(at, rows) => self.make_rows(alloc, Change::Replace(at, rows)),
            Change::Register(name, plan) => { self.store.make(alloc, Change::Register(name, plan)) }
            Change::DropView(name) => self.drop_view(alloc, name),
        }
    }

    fn answer(
        &mut self,
        alloc: Global,
        definitions: &Definitions,
        question: Question<'_>,
    ) -> Result<Vec<u8>, Refusal> {
        self.store.answer(alloc, definitions, question)
    }

    fn next_number(&self, frame: usize) -> u64 {
        self.store.next_number(frame)
    }

    ghost stays = { λ s. (S.stays s.store, refl) };
}

// What the last change did to the watched views is to be told.
fn tell<S: ChangeStore>(alloc: Global, store: &S, watches: &mut Watches)
    ensures { HasToldRows (S.Tells store.now) watches.old watches.new }
{
    match changes_of_all(alloc, store, watches.views()) {
        Ok(text) => watches.tell(text.as_slice()),
        Err(_) => watches.miss(),
    }
}

// What the last change did to each of these views, in their order.
fn changes_of_all<S: ChangeStore>(
    alloc: Global,
    store: &S,
    views: &[WatchedView],
) -> Result<Vec<u8>, Refusal>
    ensures { IfOk result (λ text. IsToldOf (S.Tells store.now) views.now text.items) }
{
    let mut text = Vec::new(alloc);
    for view in views {
        push_changes(alloc, store, view.name(), &mut text)?;
    }
    Ok(text)
}

fn push_changes<S: ChangeStore>(
    alloc: Global,
    store: &S,
    view: &str,
    text: &mut Vec<u8>,
) -> Result<(), Refusal>
    ensures { OnOk result ((first : Bytes ℕ) × S.Tells store.now view.now (Ok (Some first))
        × (text.new.items ≡ text.old.items ++ first.items)) }
{
    match store.changes(alloc, view)? {
        Some(changes) => Ok(text.extend_from_slice(changes.as_slice())?),
        None => Err(Refusal::Mistake(Mistake::NoChange)),
    }
}

/// Does what a command says that is about the changes of a view.
///
/// `C8` is answered where no view of the name is registered, of a `watch` or a `changes`; a mistake to a `changes` of a view
/// that is not watched, or behind which no change of rows is kept.
pub fn answer_watching<S: ChangeStore>(
    alloc: Global,
    store: &mut WatchedStore<S>,
    asked: Watching,
    view: &str,
) -> Result<Answer, Refusal>
    ensures { IsAnswerToWatching S.Finds S.Turns S.Tells view.now asked
        store.old.store store.old.watches store.new.store store.new.watches result }
{
    match asked {
        Watching::Begin => {
            watch(alloc, store, view)?;
            Ok(Answer::Accepted)
        }
        Watching::End => {
            unwatch(store, view);
            Ok(Answer::Accepted)
        }
        Watching::Ask => Ok(Answer::Told(changes_of(alloc, store, view)?)),
    }
}

// Begins to watch a view, behind the others. Where memory is refused, nothing begins.
fn watch<S: ChangeStore>(
    alloc: Global,
    store: &mut WatchedStore<S>,
    view: &str,
) -> Result<(), Refusal>
    ensures begun { OnOk result (HasBegun S.Finds S.Turns S.Tells view.now
        store.old.store store.old.watches store.new.store store.new.watches) }
    ensures refused { IfErr result
        (IsRefusalOfWatch S.Finds S.Turns S.Tells view.now store.old.store store.new.store) }
    ensures same { OnErr result (store.new.watches ≡ store.old.watches) }
{
    let watched = WatchedView::new(alloc, view)?;
    if !store.store.has_view(alloc, view)? {
        return Err(Refusal::Store(CatalogueFault::NoView));
    }
    let is_first = store.watches.is_empty();
    store.watches.begin(watched)?;
    if is_first {
        store.store.keep_changes(true);
    }
    Ok(())
}

// Watches a view no longer, if it did. It takes no memory.
fn unwatch<S: ChangeStore>(store: &mut WatchedStore<S>, view: &str)
    ensures { HasEnded S.Finds S.Turns S.Tells view.now store.old.store store.old.watches
        store.new.store store.new.watches }
{
    store.watches.end(view);
    if store.watches.is_empty() {
        store.store.keep_changes(false);
    }
}

// What the last change did to a view that is watched.
fn changes_of<S: ChangeStore>(
    alloc: Global,
    store: &mut WatchedStore<S>,
    view: &str,
) -> Result<Vec<u8>, Refusal>
    ensures changes { IsChangesOf S.Finds S.Turns S.Tells view.now store.old.store store.new.store
        (is_watched view.now store.old.watches.names) result }
    ensures same { store.new.watches ≡ store.old.watches }
{
    if !store.watches.is_watched(view) {
        return Err(unwatched(alloc, &mut store.store, view)?);
    }
    match store.store.changes(alloc, view)? {
        Some(changes) => Ok(changes),
        None => Err(Refusal::Mistake(Mistake::NoChange)),
    }
}

// Why a view has no changes that is not watched.
fn unwatched<S: ChangeStore>(alloc: Global, store: &mut S, view: &str) -> Result<Refusal, Refusal>
    ensures { MatchResult result (IsUnwatched S.Finds S.Turns S.Tells view.now store.old store.new)
        (λ r. S.Finds store.old store.new view.now (Err r)) }
{
    if store.has_view(alloc, view)? {
        Ok(Refusal::Mistake(Mistake::NotWatched))
    } else {
        Ok(Refusal::Store(CatalogueFault::NoView))
    }
}
