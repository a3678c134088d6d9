//! The hall behind a shell.
ghost use Rattle.std.specs.Prelude.{◌≡◌, ◌≤◌, IfErr, OnOk, Some, length, map};
ghost use Rattle.std.specs.List.{range_with_len};
ghost use Rattle.df_state.specs.FrameChanges.{change_of};
ghost use Rattle.df_state.specs.ViewChanges.{change_of_views};
ghost use Rattle.df_shell.specs.Changing.{IsAnswered, IsLearnt, IsLongEnough};
ghost use Rattle.df_shell.specs.Halls.{Closes, Follows, IsLeftOpen};
ghost use Rattle.df_shell.specs.ToldChanges.{TellsInHall};
ghost use Rattle.df_versions.specs.Histories.{AllowsAll};

use crate::reading::tell_last;
use crate::version_reading::{answer_from_version, has_view, view_names, view_table};
use df_catalogue::{CatalogueFault, Change, Desk, FrameChange, ViewChange};
use df_hall::{Hall, Missing};
use df_session::{
    ChangeStore, Definitions, Numbers, Question, Refusal, ShellFault, VersionFault, ViewStore,
    ViewTable, end_of,
};
use df_value::{List, Text};
use df_versions::{ChangeFault, Naming, Reader, Told};
use std::alloc::Global;
use std::marker::Model;
use std::sync::Wait;
use std::sync::ledger::Ledger;

/// A hall, the desks of its frames, in their order, and a reader. Contracts see what the session was told of the hall's
/// history, what it saw of it, and the desks.
pub struct HallStore<'r, R: Wait, Acc: Ledger, Del: Ledger, J: Naming> {
    rt: &'r R,
    hall: Hall<Acc, Del, J>,
    desks: Vec<Desk<Acc, Del>>,
    reader: Reader,
    // What the reader learnt last, for the next change.
    told: Option<Told<J>>,
    // Of this session's own changes.
    numbers: Numbers,
}

impl<'r, R: Wait, Acc: Ledger, Del: Ledger, J: Naming> Model for HallStore<'r, R, Acc, Del, J> {
    ghost use Rattle.std.specs.Prelude.{◌≡◌, length, map};
    ghost use Rattle.std.specs.Coded.{codes};
    ghost use Rattle.std.specs.List.{range_with_len};
    ghost use Rattle.df_state.specs.contracts.state.State as state_type;
    ghost use Rattle.df_shell.specs.Changing.{IsKnown};
    ghost use Rattle.df_shell.specs.Halls.{HallParts};
    ghost use Rattle.df_versions.specs.Histories.{AllowsAll};

    ghost Value = { HallParts };

    ghost coded = { Prim.hlevel (codes, state_type.the_row.coded) };

    ghost view = { λ s. record { told = s.reader.1.1; seen = s.reader.1.0; desks = s.desks.items } };

    // Its history may have whatever a line asks for.
    ghost invariant = { λ s.
        (s.reader.0 ≡ J.book) × IsKnown s.told s.reader.1.1
        × (map (λ d. d.frame) s.desks.items ≡ range_with_len 0 (length s.desks.items))
        × AllowsAll J.allows };
}

/// What a hall answers to a change.
type Answer<J> = Result<Told<J>, ChangeFault<J>>;

impl<'r, R: Wait, Acc: Ledger, Del: Ledger, J: Naming> HallStore<'r, R, Acc, Del, J> {
    /// A hall with its first desks, and a reader of its opening state.
    pub fn new(
        rt: &'r R,
        hall: Hall<Acc, Del, J>,
        desks: Vec<Desk<Acc, Del>>,
        reader: Reader,
        numbers: Numbers,
    ) -> HallStore<'r, R, Acc, Del, J>
        requires book { reader.0 ≡ J.book }
        requires allowed { AllowsAll J.allows }
        requires opening { length reader.1.1 ≤ 1 }
        requires desks { map (λ d. d.frame) desks.items ≡ range_with_len 0 (length desks.items) }
        ensures told { result.told ≡ reader.1.1 }
        ensures seen { result.seen ≡ reader.1.0 }
        ensures desks { result.desks ≡ desks.items }
    {
        HallStore {
            rt,
            hall,
            desks,
            reader,
            told: None,
            numbers,
        }
    }

    /// Closes the hall. The shares of its desks are the books of every frame, or the least frame of which they are not is
    /// the fault.
    pub fn close(self) -> Result<(), ShellFault>
        ensures closed { OnOk result (Closes J.schemas self.entry.desks) }
        ensures missing { IfErr result (λ fault. IsLeftOpen J.schemas self.entry.desks fault) }
    {
        let HallStore {
            rt,
            hall,
            desks,
            reader,
            told,
            numbers,
        } = self;
        drop(numbers);
        drop(told);
        drop(reader);
        match hall.close(rt, desks) {
            Ok((catalogue, totals)) => {
                drop(totals);
                drop(catalogue);
                Ok(())
            }
            Err(
                Missing {
                    frame,
                    hall,
                    desks,
                    told,
                },
            ) => {
                drop(told);
                drop(desks);
                hall.end(rt);
                Err(ShellFault::Missing(frame))
            }
        }
    }

    // What the hall answers to a change. None: there is no desk for it.
    fn change(&mut self, alloc: Global, change: Change) -> Option<Answer<J>>
        ensures { IsAnswered self.old change result self.new }
    {
        match change {
            Change::Append(frame, chunk) => {
                self.change_rows(alloc, frame, FrameChange::Append(&chunk))
            }
            Change::Delete(frame, numbers) => {
                let rows = FrameChange::Delete(numbers.as_slice());
                self.change_rows(alloc, frame, rows)
            }
            Change::Replace(frame, rows) => {
                let rows = FrameChange::Replace(rows.as_slice());
                self.change_rows(alloc, frame, rows)
            }
            Change::Register(name, plan) => {
                Some(self.change_views(alloc, ViewChange::Register(name, plan)))
            }
            Change::DropView(name) => {
                Some(self.change_views(alloc, ViewChange::Drop(name.as_str())))
            }
        }
    }

    // Changes the rows of a frame through its desk, if there is such a desk.
    fn change_rows(&mut self, alloc: Global, frame: usize, change: FrameChange) -> Option<Answer<J>>
        ensures { IsAnswered self.old (change_of frame change.entry) result self.new }
    {
        if frame >= self.desks.len() {
            return None;
        }
        let told = self.told.as_ref();
        let desk = &mut self.desks.as_mut_slice()[frame];
        Some(self.hall.change_rows(self.rt, alloc, desk, change, told))
    }

    // Changes the views.
    fn change_views(&mut self, alloc: Global, change: ViewChange) -> Answer<J>
        ensures { IsAnswered self.old (change_of_views change.entry) (Some result) self.new }
    {
        let told = self.told.as_ref();
        self.hall.change_views(self.rt, alloc, change, told)
    }

    // Learns what was told with the answer. Of a change that was made, the rows end behind this number.
    fn learn(&mut self, answer: Answer<J>, end: Option<(usize, u64)>) -> Result<(), Refusal>
        requires { IsLongEnough self.old.told answer }
        ensures { IsLearnt self.old answer result self.new }
    {
        match answer {
            Ok(told) => {
                self.hear(told);
                self.numbers.note(end);
                Ok(())
            }
            Err(ChangeFault::Refused(fault, told)) => {
                self.hear(told);
                Err(Refusal::Store(fault))
            }
            Err(ChangeFault::Spent) => Err(Refusal::Version(VersionFault::Spent)),
            Err(ChangeFault::Ahead) => Err(Refusal::Version(VersionFault::Ahead)),
            Err(ChangeFault::Memory) => Err(Refusal::Memory),
        }
    }

    // Learns what is told, which is at least what was told before.
    fn hear(&mut self, told: Told<J>)
        requires { length self.old.told ≤ length told }
        ensures told { self.new.told ≡ told }
        ensures follows { Follows self.old self.new }
        ensures desks { self.new.desks ≡ self.old.desks }
    {
        self.reader.learn(told.again());
        self.told = Some(told);
    }
}

impl<'r, R: Wait, Acc: Ledger, Del: Ledger, J: Naming> ViewStore for HallStore<'r, R, Acc, Del, J> {
    ghost use Rattle.std.specs.Prelude.{[], refl, ⊤};
    ghost use Rattle.std.proofs.lemmas.List.{append-nil};
    ghost use Rattle.df_shell.specs.Halls.{IsAnswerOfHall, IsKeptInHall, IsMadeInHall, IsRefusedInHall};

    ghost Makes = { λ old new c. IsMadeInHall old new c };

    ghost Refuses = { λ old new c r. IsRefusedInHall old new c r };

    ghost Keeps = { λ old new. IsKeptInHall old new };

    ghost Answers = { λ old new d q answer. IsAnswerOfHall old new d q answer };

    // No clause says which numbers others appended.
    ghost Next = { λ s at n. ⊤ };

    fn next_number(&self, frame: usize) -> u64 {
        self.numbers.get(frame)
    }

    fn make(&mut self, alloc: Global, change: Change) -> Result<(), Refusal> {
        let end = end_of(&change);
        match self.change(alloc, change) {
            Some(answer) => self.learn(answer, end),
            None => Err(Refusal::Store(CatalogueFault::NoFrame)),
        }
    }

    fn answer(
        &mut self,
        alloc: Global,
        definitions: &Definitions,
        question: Question<'_>,
    ) -> Result<Vec<u8>, Refusal> {
        match self.reader.snapshot() {
            Some(version) => {
                let desks = self.desks.as_slice();
                answer_from_version(alloc, definitions, version.as_ref(), desks, question)
            }
            None => Err(Refusal::Version(VersionFault::Missing)),
        }
    }

    ghost stays = { λ s. record {
      follows = record { told = ([], append-nil s.told); seen = refl };
      desks = refl;
    } };
}

impl<'r, R: Wait, Acc: Ledger, Del: Ledger, J: Naming> ChangeStore
    for HallStore<'r, R, Acc, Del, J> {
    ghost use Rattle.df_shell.specs.Halls.{AreNamesInHall, IsFoundInHall, IsTableInHall};
    ghost use Rattle.df_shell.specs.ToldChanges.{TellsInHall, last_number};

    // No clause says what the hall keeps.
    ghost Turns = { λ old new keeps. new ≡ old };

    ghost Tells = { λ s name r. TellsInHall s.told name r };

    ghost Finds = { λ old new name r. IsFoundInHall old new name r };

    ghost Names = { λ old new r. AreNamesInHall old new r };

    ghost Tables = { λ old new d name r. IsTableInHall old new d name r };

    ghost Numbers = { λ s n. n ≡ last_number s.told };

    fn keep_changes(&mut self, keeps: bool) {
        self.hall.keep_changes(self.rt, keeps);
    }

    fn changes(&self, alloc: Global, view: &str) -> Result<Option<Vec<u8>>, Refusal> {
        match &self.told {
            Some(told) => changes(self.rt, alloc, &self.hall, told, view),
            None => Ok(None),
        }
    }

    fn has_view(&mut self, alloc: Global, view: &str) -> Result<bool, Refusal> {
        match self.reader.snapshot() {
            Some(version) => has_view(alloc, version.as_ref(), view),
            None => Err(Refusal::Version(VersionFault::Missing)),
        }
    }

    fn view_names(&mut self, alloc: Global) -> Result<List<Text>, Refusal> {
        match self.reader.snapshot() {
            Some(version) => view_names(alloc, version.as_ref()),
            None => Err(Refusal::Version(VersionFault::Missing)),
        }
    }

    fn view_table(
        &mut self,
        alloc: Global,
        definitions: &Definitions,
        view: &str,
    ) -> Result<ViewTable, Refusal> {
        match self.reader.snapshot() {
            Some(version) => view_table(alloc, definitions, version.as_ref(), view),
            None => Err(Refusal::Version(VersionFault::Missing)),
        }
    }

    fn change_number(&self) -> u64 {
        match &self.told {
            Some(told) => told.number(),
            None => 0,
        }
    }
}

// What the last change that was told did to a view. None: the hall does not keep it, or knows of a later change.
fn changes<R: Wait, Acc: Ledger, Del: Ledger, J: Naming>(
    rt: &R,
    alloc: Global,
    hall: &Hall<Acc, Del, J>,
    told: &Told<J>,
    view: &str,
) -> Result<Option<Vec<u8>>, Refusal>
    ensures { TellsInHall told.now view.now result }
{
    match hall.last_changes(rt, alloc, view, told)? {
        Some(last) => Ok(Some(tell_last(alloc, view, told.number(), last)?)),
        None => Ok(None),
    }
}
