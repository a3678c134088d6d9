//! The catalogue behind a shell.
ghost use Rattle.std.specs.Prelude.{◌≡◌, None, OnErr, OnOk, true, is_none};
ghost use Rattle.df_state.specs.Desks.{AreInOrder};
ghost use Rattle.df_state.specs.Reads.{live_of};
ghost use Rattle.df_state.specs.States.{IsLegal};
ghost use Rattle.df_state.specs.Transitions.{IsTransition};
ghost use Rattle.df_catalogue.specs.KeptChanges.{HasChangesOf};
ghost use Rattle.df_catalogue.specs.Work.{IsWorkOf};
ghost use Rattle.df_shell.specs.NextNumbers.{next_numbers};
ghost use Rattle.df_shell.specs.ToldChanges.{number_behind};

use crate::checking::check;
use crate::reading::{books, changes, rows, show, view_table, views, work};
use df_catalogue::{Catalogue, CatalogueFault, Change, Desk};
use df_session::{
    ChangeStore, Definitions, Mistake, Numbers, Question, Refusal, RowCounts, ViewStore, ViewTable,
    describe_frames, describe_plan, describe_table, end_if_made, end_of,
};
use df_value::{List, Text};
use std::alloc::Global;
use std::sync::ledger::Ledger;

/// A catalogue, over which nothing is staged, with the desks of its frames, in their order, and the numbers behind all that
/// each accepted, and the number of the last change.
pub struct Store<Acc: Ledger, Del: Ledger> {
    pub catalogue: Catalogue<Acc, Del>,
    pub desks: Vec<Desk<Acc, Del>>,
    pub numbers: Numbers,
    pub change_number: u64,
    ghost in_order: { AreInOrder desks.items catalogue.state },
    ghost nothing_staged: { is_none catalogue.staged ≡ true },
    ghost numbered: { numbers ≡ next_numbers catalogue.state.frames },
}

// A body that owns one drops it by a call.
impl<Acc: Ledger, Del: Ledger> Drop for Store<Acc, Del> {
    fn drop(self) {
        let Store {
            catalogue,
            desks,
            numbers,
            change_number: _,
        } = self;
        drop(catalogue);
        drop(desks);
        drop(numbers);
    }
}

impl<Acc: Ledger, Del: Ledger> Store<Acc, Del> {
    /// Tells that the state of the catalogue is legal: each view's table is its plan's value over
    /// the frames.
    pub fn tell_legal(&self)
        ensures { IsLegal self.now.catalogue.state }
    {
        let _book = self.catalogue.accepted_book();
    }

    // Makes a change of the catalogue, notes where its rows end, and counts it.
    fn apply(&mut self, alloc: Global, change: Change) -> Result<(), CatalogueFault>
        ensures state { IsTransition self.old.catalogue.state change result self.new.catalogue.state }
        ensures work { IsWorkOf self.old.catalogue change result self.new.catalogue }
        ensures changes { HasChangesOf self.old.catalogue change result self.new.catalogue }
        ensures staged { self.new.catalogue.staged ≡ None }
        ensures counted { OnOk result
            (self.new.change_number ≡ number_behind self.old.change_number) }
        ensures same_number { OnErr result (self.new.change_number ≡ self.old.change_number) }
    {
        let end = end_of(&change);
        let desks = self.desks.as_mut_slice();
        let made = self.catalogue.apply(alloc, desks, change);
        self.numbers.note(end_if_made(&made, end));
        self.change_number = number_after(&made, self.change_number);
        made
    }
}

// The number of the last change, where this was the one before it: a refused one has none.
fn number_after(made: &Result<(), CatalogueFault>, number: u64) -> u64
    ensures counted { OnOk made.now (result ≡ number_behind number) }
    ensures same { OnErr made.now (result ≡ number) }
{
    match made {
        Ok(()) => number.saturating_add(1),
        Err(_) => number,
    }
}

/// How many rows the frames of the catalogue have.
impl<Acc: Ledger, Del: Ledger> RowCounts for Store<Acc, Del> {
    ghost counts = { λ s at. live_of s.catalogue.state at };

    fn row_count(&self, frame: usize) -> Option<u64> {
        self.catalogue.live(frame)
    }
}

impl<Acc: Ledger, Del: Ledger> ViewStore for Store<Acc, Del> {
    ghost use Rattle.std.specs.Prelude.{refl};
    ghost use Rattle.df_catalogue.specs.KeptChanges.{AreKeptAt};
    ghost use Rattle.df_shell.specs.Changes.{IsMade, IsRefusedAs};
    ghost use Rattle.df_shell.specs.ToldChanges.{number_behind};
    ghost use Rattle.df_shell.specs.NextNumbers.{next_number_at};
    ghost use Rattle.df_session.specs.Told.{IsTold};
    ghost use Rattle.df_shell.specs.Questions.{refusal_of_question, text_of_question};

    ghost Makes = { λ old new c. IsMade old.catalogue new.catalogue c
        × (new.catalogue.keeps ≡ old.catalogue.keeps)
        × AreKeptAt old.catalogue.keeps c old.catalogue.state new.catalogue.state new.catalogue.changes
        × (new.change_number ≡ number_behind old.change_number) };

    ghost Refuses = { λ old new c r. IsRefusedAs old.catalogue.state c r };

    ghost Keeps = { λ old new. (new.catalogue ≡ old.catalogue)
        × (new.change_number ≡ old.change_number) };

    ghost Answers = { λ old new d q answer.
        IsTold (text_of_question d old.catalogue q) (refusal_of_question q) answer
        × (new.catalogue ≡ old.catalogue) × (new.change_number ≡ old.change_number) };

    ghost Next = { λ s at n. n ≡ next_number_at s.catalogue.state.frames at };

    fn make(&mut self, alloc: Global, change: Change) -> Result<(), Refusal> {
        Ok(self.apply(alloc, change)?)
    }

    fn next_number(&self, frame: usize) -> u64 {
        self.numbers.get(frame)
    }

    fn answer(
        &mut self,
        alloc: Global,
        definitions: &Definitions,
        question: Question<'_>,
    ) -> Result<Vec<u8>, Refusal> {
        let catalogue = &self.catalogue;
        match question {
            Question::Frames => Ok(describe_frames(alloc, definitions, &*self)?),
            Question::Schema(name) => describe_table(alloc, definitions, name),
            Question::Plan(view) => describe_plan(alloc, definitions, view),
            Question::Show(view, part, format) => show(alloc, catalogue, view, part, format),
            Question::Rows(frame, format) => rows(alloc, definitions, catalogue, frame, format),
            Question::Books(frame) => books(alloc, definitions, catalogue, frame),
            Question::Views => views(alloc, catalogue),
            Question::Check => check(alloc, catalogue),
            Question::Work => work(alloc, catalogue),
            Question::Version => Err(Refusal::Mistake(Mistake::OnlyWithHall)),
        }
    }

    ghost stays = { λ s. (refl, refl) };
}

impl<Acc: Ledger, Del: Ledger> ChangeStore for Store<Acc, Del> {
    ghost use Rattle.df_catalogue.specs.KeptChanges.{none_kept};
    ghost use Rattle.df_shell.specs.ToldChanges.{FindsView, NamesViews, TellsLast};
    ghost use Rattle.df_shell.specs.ViewTables.{GivesTable};

    ghost Turns = { λ old new keeps. (new.catalogue ≡ record old.catalogue {
      staged = None;
      keeps = keeps;
      changes = none_kept old.catalogue.state.views;
    }) × (new.change_number ≡ old.change_number) };

    ghost Tells = { λ s name r. TellsLast s.catalogue s.change_number name r };

    ghost Finds = { λ old new name r. FindsView old.catalogue.state name r
        × (new.catalogue ≡ old.catalogue) × (new.change_number ≡ old.change_number) };

    ghost Names = { λ old new r. NamesViews old.catalogue.state r
        × (new.catalogue ≡ old.catalogue) × (new.change_number ≡ old.change_number) };

    ghost Tables = { λ old new d name r. GivesTable old.catalogue.state name r
        × (new.catalogue ≡ old.catalogue) × (new.change_number ≡ old.change_number) };

    ghost Numbers = { λ s n. n ≡ s.change_number };

    fn keep_changes(&mut self, keeps: bool) {
        self.catalogue.keep_changes(keeps);
    }

    fn changes(&self, alloc: Global, view: &str) -> Result<Option<Vec<u8>>, Refusal> {
        changes(alloc, &self.catalogue, self.change_number, view)
    }

    fn has_view(&mut self, _alloc: Global, view: &str) -> Result<bool, Refusal> {
        Ok(self.catalogue.view_schema(view).is_some())
    }

    fn view_names(&mut self, alloc: Global) -> Result<List<Text>, Refusal> {
        Ok(self.catalogue.view_names(alloc)?)
    }

    fn view_table(
        &mut self,
        alloc: Global,
        _definitions: &Definitions,
        view: &str,
    ) -> Result<ViewTable, Refusal> {
        view_table(alloc, &self.catalogue, view)
    }

    fn change_number(&self) -> u64 {
        self.change_number
    }
}
