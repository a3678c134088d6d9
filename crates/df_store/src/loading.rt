//! What stands behind the lock while workers load: a catalogue whose frames grow by whole chunks alone.
ghost use Rattle.std.specs.Prelude.{◌≡◌, All, IfOk, OnErr, OnOk};
ghost use Rattle.df_state.specs.Desks.{desk_after};
ghost use Rattle.df_state.specs.declared.change.Change.TheVariants.{Append};
ghost use Rattle.df_store.specs.Batches.{IsBatch};
ghost use Rattle.df_store.specs.Grown.{HaveGrown, IsWhole};
ghost use Rattle.df_store.specs.Incoming.{chunk_of};
ghost use Rattle.df_store.specs.Loads.{AllowsAppends};

use crate::entering::Incoming;
use crate::waiting::{Batch, Turn, Waiting};
use df_catalogue::Desk;
use df_hall::VersionedCatalogue;
use df_versions::{ChangeFault, Naming, Told};
use std::alloc::{AllocError, Global};
use std::marker::{Brand, Model, PhantomData};
use std::sync::ledger::Ledger;
use std::sync::{Mutex, MutexGuard, Wait};

/// What the workers of a load begin with: contracts see the history until then, and the chunks of the sources. Each load
/// picks its own, at `Brand`, since a clause cannot name what a lock holds.
pub(crate) trait Beginning {
    ghost use Rattle.std.specs.Prelude.{ℕ, List};
    ghost use Rattle.df_state.specs.declared.state.State.{State};
    ghost use Rattle.df_value.specs.declared.chunk.Piece.{Piece};

    ghost history: { List State };

    ghost chunks: { List (List (ℕ × Piece)) };
}

impl Beginning for Brand {
    ghost use Rattle.std.specs.Prelude.{[]};

    ghost history = { [] };

    ghost chunks = { [] };
}

/// A lock round a catalogue that workers load, and what waits for it. Threads share it by reference.
pub(crate) struct LoadingHall<Acc: Ledger, Del: Ledger, J: Naming, B: Beginning> {
    catalogue: Mutex<LoadingCatalogue<Acc, Del, J, B>>,
    waiting: Mutex<Waiting<B>>,
}

impl<Acc: Ledger, Del: Ledger, J: Naming, B: Beginning> LoadingHall<Acc, Del, J, B> {
    /// A lock round the catalogue that so many workers begin with, for which nothing waits.
    pub(crate) fn over(
        alloc: Global,
        catalogue: VersionedCatalogue<Acc, Del, J>,
        workers: usize,
    ) -> LoadingHall<Acc, Del, J, B>
        requires history { catalogue ≡ B.history }
        requires allowed { AllowsAppends J.allows }
    {
        LoadingHall {
            catalogue: Mutex::new(LoadingCatalogue::over(catalogue)),
            waiting: Mutex::new(Waiting::new(alloc, workers)),
        }
    }

    /// Takes the lock, for several calls in a row.
    pub(crate) fn lock<R: Wait>(&self, rt: &R) -> MutexGuard<'_, LoadingCatalogue<Acc, Del, J, B>> {
        self.catalogue.lock(rt)
    }

    /// Takes the lock of what waits.
    pub(crate) fn lock_waiting<R: Wait>(&self, rt: &R) -> MutexGuard<'_, Waiting<B>> {
        self.waiting.lock(rt)
    }

    /// Has a batch of one of so many workers wait, together with those whose runs and its own follow one another, and says
    /// what the worker is to do.
    pub(crate) fn put<R: Wait>(
        &self,
        rt: &R,
        alloc: Global,
        batch: Batch,
        workers: usize,
    ) -> Result<Turn, AllocError>
        requires { IsBatch B.chunks batch }
    {
        let batch = self.with_beside(rt, alloc, batch)?;
        let batch = self.with_beside(rt, alloc, batch)?;
        let mut waiting = self.waiting.lock(rt);
        let turn = waiting.push(batch, workers);
        MutexGuard::unlock(waiting);
        turn
    }

    // A batch together with one that waits, if the runs of both follow one another. Others may wait meanwhile.
    fn with_beside<R: Wait>(&self, rt: &R, alloc: Global, batch: Batch) -> Result<Batch, AllocError>
        requires { IsBatch B.chunks batch }
        ensures { IfOk result (IsBatch B.chunks) }
    {
        let mut waiting = self.waiting.lock(rt);
        let beside = waiting.take_beside(&batch);
        MutexGuard::unlock(waiting);
        match beside {
            Some(other) => Ok(batch.with(alloc, other)?),
            None => Ok(batch),
        }
    }

    /// Takes out the batches that are to be committed now, for the worker that commits. Where there are none, it has ended.
    pub(crate) fn take_waiting<R: Wait>(&self, rt: &R, alloc: Global) -> Vec<Batch>
        ensures { All (IsBatch B.chunks) result.items }
    {
        let mut waiting = self.waiting.lock(rt);
        let batches = waiting.take_ready(alloc);
        MutexGuard::unlock(waiting);
        batches
    }

    /// A worker has found no job to draw. Whether it is the last one, which commits what waits.
    pub(crate) fn end_drawing<R: Wait>(&self, rt: &R) -> bool {
        let mut waiting = self.waiting.lock(rt);
        let is_last = waiting.end_drawing();
        MutexGuard::unlock(waiting);
        is_last
    }

    /// Notes how many groups a change finished by which so many rows came.
    pub(crate) fn note_groups<R: Wait>(&self, rt: &R, rows: usize, groups: u128) {
        let mut waiting = self.waiting.lock(rt);
        waiting.note_groups(rows, groups);
        MutexGuard::unlock(waiting);
    }

    /// Leaves batches that have entered, for whoever frees them, and takes those that were left before.
    pub(crate) fn swap_spent<R: Wait>(&self, rt: &R, batches: Vec<Batch>) -> Vec<Batch> {
        let mut waiting = self.waiting.lock(rt);
        let before = waiting.swap_spent(batches);
        MutexGuard::unlock(waiting);
        before
    }

    /// The worker that committed has stopped.
    pub(crate) fn give_up<R: Wait>(&self, rt: &R) {
        let mut waiting = self.waiting.lock(rt);
        waiting.give_up();
        MutexGuard::unlock(waiting);
    }

    /// Waits for the commit that is going on.
    pub(crate) fn pause<R: Wait>(&self, rt: &R) {
        MutexGuard::unlock(self.lock(rt));
    }

    /// The catalogue that the load leaves.
    pub(crate) fn into_catalogue(self) -> VersionedCatalogue<Acc, Del, J>
        ensures { HaveGrown B.chunks B.history result }
    {
        let LoadingHall { catalogue, waiting } = self;
        drop(waiting);
        catalogue.into_inner().into_catalogue()
    }
}

/// A catalogue that workers load. Contracts see its history.
pub(crate) struct LoadingCatalogue<Acc: Ledger, Del: Ledger, J: Naming, B: Beginning> {
    catalogue: VersionedCatalogue<Acc, Del, J>,
    of: PhantomData<B>,
}

impl<Acc: Ledger, Del: Ledger, J: Naming, B: Beginning> Model for LoadingCatalogue<Acc, Del, J, B> {
    ghost use Rattle.std.specs.Prelude.{List};
    ghost use Rattle.std.specs.Coded.{coded_list};
    ghost use Rattle.df_state.specs.declared.state.State.{State};
    ghost use Rattle.df_state.specs.contracts.state.State as state_type;
    ghost use Rattle.df_store.specs.Grown.{HaveGrown};
    ghost use Rattle.df_store.specs.Loads.{AllowsAppends};

    ghost Value = { List State };

    ghost coded = { coded_list state_type.the_row.coded };

    ghost view = { λ v. v.catalogue };

    // What came to its frames since the load began are whole chunks, and more may come.
    ghost invariant = { λ v. HaveGrown B.chunks B.history v.catalogue × AllowsAppends J.allows };
}

impl<Acc: Ledger, Del: Ledger, J: Naming, B: Beginning> LoadingCatalogue<Acc, Del, J, B> {
    // The catalogue that the load begins with.
    fn over(catalogue: VersionedCatalogue<Acc, Del, J>) -> LoadingCatalogue<Acc, Del, J, B>
        requires history { catalogue ≡ B.history }
        requires allowed { AllowsAppends J.allows }
    {
        LoadingCatalogue {
            catalogue,
            of: PhantomData,
        }
    }

    // The catalogue that the load leaves.
    fn into_catalogue(self) -> VersionedCatalogue<Acc, Del, J>
        ensures { HaveGrown B.chunks B.history result }
    {
        let LoadingCatalogue { catalogue, of } = self;
        drop(of);
        catalogue
    }

    /// How many groups the last change finished.
    pub(crate) fn finished_groups(&self) -> u128 {
        self.catalogue.finished_groups()
    }

    /// Appends a whole chunk to the desk's frame.
    pub(crate) fn append<R: Wait>(
        &mut self,
        rt: &R,
        alloc: Global,
        desk: &mut Desk<Acc, Del>,
        chunk: Incoming<'_>,
        told: Option<&Told<J>>,
    ) -> Result<Told<J>, ChangeFault<J>>
        requires { IsWhole B.chunks desk.old.frame (chunk_of chunk) }
        ensures desk { OnOk result (desk.new ≡
            desk_after desk.old (Append desk.old.frame (chunk_of chunk.entry))) }
        ensures same_desk { OnErr result (desk.new ≡ desk.old) }
    {
        self.catalogue
            .change_rows(rt, alloc, desk, chunk.change(), told)
    }
}
