//! The opening of a hall.
ghost use Rattle.std.specs.Prelude.{◌≡◌, ◌≢◌, ◌≤◌, ◌∷◌, [], All, Err, IfErr, IfOk, IsOk, None, OnOk, Some, length};
ghost use Rattle.df_state.specs.Desks.{first_desks};
ghost use Rattle.df_state.specs.Ledgers as ledgers;
ghost use Rattle.df_state.specs.States.{opening_of};
ghost use Rattle.df_state.specs.declared.fault.NewFault.TheVariants as catalogue_fault;
ghost use Rattle.df_hall.specs.Rooms.{HasRoomFor, Holds};
ghost use Rattle.df_value.specs.Limits as limits;
ghost use Rattle.df_versions.specs.Histories.{IsOpening, schemas_of};
ghost use Rattle.df_versions.specs.Openings.{open_fault, opening_refused};
ghost use Rattle.df_versions.specs.declared.fault.OpenFault.TheVariants as open_fault_of;

use crate::entering::StagedState;
use crate::hall::Hall;
use crate::totals::TotalsRoom;
use crate::versioned::VersionedCatalogue;
use df_catalogue::{Catalogue, Desk, NewFault};
use df_value::{List, Schema};
use df_versions::{Naming, OpenFault, OpenedVersions, Reader};
use std::alloc::{AllocError, Global};
use std::marker::Model;
use std::sync::Wait;
use std::sync::ledger::{Blank, Ledger};

/// The most readers that a hall is opened with.
pub const MOST_READERS: usize = 16;

/// A hall that was just opened, with its desks and readers. Its history has no name yet: [`OpenedHall::named`] gives it
/// one, which a body that is generic in it is called with. Contracts see which history it is, its states, the desks, and
/// how many readers there are.
pub struct OpenedHall<Acc: Ledger, Del: Ledger> {
    catalogue: Catalogue<Acc, Del>,
    desks: Vec<Desk<Acc, Del>>,
    versions: OpenedVersions,
    room: TotalsRoom,
}

impl<Acc: Ledger, Del: Ledger> Model for OpenedHall<Acc, Del> {
    ghost use Rattle.std.specs.Prelude.{◌≡◌, [], ℕ, List, Some};
    ghost use Rattle.std.specs.Coded.{codes};
    ghost use Rattle.logbook.specs.Pages.{Book, book_coded};
    ghost use Rattle.df_state.specs.Desks.{DeskParts};
    ghost use Rattle.df_state.specs.declared.state.State.{State};
    ghost use Rattle.df_state.specs.contracts.state.State as state_type;
    ghost use Rattle.df_hall.specs.Rooms.{HasRoomFor, Holds};
    ghost use Rattle.df_value.specs.Limits as limits;
    ghost use Rattle.df_versions.specs.Histories.{last_state};

    ghost Value = { Book × (List State × List DeskParts) × ℕ };

    ghost coded = { Prim.hlevel (codes, book_coded, state_type.the_row.coded) };

    ghost view = { λ o. (o.versions.0, (o.versions.1, o.desks.items), o.versions.2) };

    // The history ends with the catalogue's state, which keeps no changes.
    ghost invariant = { λ o. (last_state o.versions.1 ≡ Some o.catalogue.state) × (o.catalogue.changes ≡ [])
        × (HasRoomFor limits.most_frames o.room × Holds o.room []) };
}

/// A hall, the first desk of each frame, and its readers.
pub type NamedHall<Acc, Del, J> = (Hall<Acc, Del, J>, Vec<Desk<Acc, Del>>, Vec<Reader>);

impl<Acc: Ledger, Del: Ledger> OpenedHall<Acc, Del> {
    /// A hall over a catalogue of empty frames with these schemas, the first desk of each frame, in order, and so many
    /// readers, who see its opening state as version 0. It waits for nobody.
    ///
    /// Refused are, in this order: more than 8 frames; a frame with a column of another type than
    /// Int, Text and Bool (the least such index is named); more than 16 readers; the refusal of memory.
    pub fn open<R: Wait>(
        rt: &R,
        alloc: Global,
        accepted: Blank,
        deleted: Blank,
        schemas: List<Schema>,
        readers: usize,
    ) -> Result<OpenedHall<Acc, Del>, OpenFault>
        requires accepted_name { accepted.name ≡ Acc.name }
        requires accepted_parts { (accepted.parts ≡ Acc.parts)
            × (accepted.parts ≡ ledgers.parts_of_ledger) }
        requires deleted_name { deleted.name ≡ Del.name }
        requires deleted_parts { (deleted.parts ≡ Del.parts)
            × (deleted.parts ≡ ledgers.parts_of_ledger) }
        ensures sound { OnOk result (open_fault schemas readers ≡ None) }
        ensures history { IfOk result (λ o. o.1.0 ≡ opening_of schemas ∷ []) }
        ensures desks { IfOk result (λ o. o.1.1 ≡ first_desks (length schemas)) }
        ensures readers { IfOk result (λ o. o.2 ≡ readers) }
        ensures refused { IfErr result (λ fault. fault ≢ open_fault_of.Memory → open_fault schemas readers ≡ Some fault) }
        ensures memory_last { IfErr result (λ fault. fault ≡ open_fault_of.Memory → open_fault schemas readers ≡ None) }
    {
        match Catalogue::new(alloc, accepted, deleted, schemas) {
            Ok((catalogue, desks)) => {
                let opened = open_versions(rt, alloc, &catalogue, readers);
                OpenedHall::with_versions(catalogue, desks, opened)
            }
            Err(fault) => Err(refused(fault, readers)),
        }
    }

    // One place alone drops the catalogue, which a proof goes through part by part.
    fn with_versions(
        catalogue: Catalogue<Acc, Del>,
        desks: Vec<Desk<Acc, Del>>,
        opened: Result<(OpenedVersions, TotalsRoom), OpenFault>,
    ) -> Result<OpenedHall<Acc, Del>, OpenFault>
        requires history { IfOk opened (λ made. made.0.1 ≡ catalogue.state ∷ []) }
        requires changes { catalogue.changes ≡ [] }
        requires room { IfOk opened (λ made. HasRoomFor limits.most_frames made.1) }
        requires empty { IfOk opened (λ made. Holds made.1 []) }
        ensures history { IfOk result (λ o. o.1.0 ≡ catalogue.state ∷ []) }
        ensures desks { IfOk result (λ o. o.1.1 ≡ desks.items) }
        ensures readers { IfOk result (λ o. IfOk opened (λ made. o.2 ≡ made.0.2)) }
        ensures opened { OnOk result (IsOk opened) }
        ensures fault { IfErr result (λ fault. opened ≡ Err fault) }
    {
        match opened {
            Ok((versions, room)) => Ok(OpenedHall {
                catalogue,
                desks,
                versions,
                room,
            }),
            Err(fault) => {
                drop(catalogue);
                Err(fault)
            }
        }
    }

    /// The hall, the desks and the readers, under a name of the history. It waits for nobody and takes no memory.
    pub fn named<J: Naming>(self) -> NamedHall<Acc, Del, J>
        requires book { self.0 ≡ J.book }
        requires schemas { schemas_of self.1.0 ≡ J.schemas }
        ensures desks { result.1.items ≡ self.1.1 }
        ensures readers { All (λ r. r ≡ (J.book, (self.1.0, self.1.0))) result.2.items }
        ensures count { length result.2.items ≡ self.2 }
    {
        let OpenedHall {
            catalogue,
            desks,
            versions,
            room,
        } = self;
        let (publisher, readers) = versions.named::<J>();
        let catalogue = VersionedCatalogue::over(catalogue, publisher);
        (Hall::over(catalogue, room), desks, readers)
    }

    /// Gives it up.
    pub fn end<R: Wait>(self, rt: &R) {
        let OpenedHall {
            catalogue,
            desks: _,
            versions,
            room,
        } = self;
        versions.end(rt);
        drop(catalogue);
        drop(room);
    }
}

// What is answered where the catalogue is not made: a refusal of memory comes after that of the number of readers.
fn refused(fault: NewFault, readers: usize) -> OpenFault
    ensures { result ≡ opening_refused fault readers }
{
    match fault {
        NewFault::TooManyFrames => OpenFault::TooManyFrames,
        NewFault::DerivedType(frame) => OpenFault::DerivedType(frame),
        NewFault::Memory if readers > MOST_READERS => OpenFault::TooManyReaders,
        NewFault::Memory => OpenFault::Memory,
    }
}

// The history of the catalogue's state, its readers, and room for the totals of a close.
fn open_versions<Acc: Ledger, Del: Ledger, R: Wait>(
    rt: &R,
    alloc: Global,
    catalogue: &Catalogue<Acc, Del>,
    readers: usize,
) -> Result<(OpenedVersions, TotalsRoom), OpenFault>
    requires opening { IsOpening catalogue.now.state }
    requires nothing { catalogue.now.staged ≡ None }
    ensures history { IfOk result (λ made. made.0.1 ≡ catalogue.now.state ∷ []) }
    ensures count { IfOk result (λ made. made.0.2 ≡ readers) }
    ensures room { IfOk result (λ made. HasRoomFor limits.most_frames made.1) }
    ensures empty { IfOk result (λ made. Holds made.1 []) }
    ensures readers { OnOk result (readers ≤ 16) }
    ensures fault { IfErr result (λ fault. fault ≡ opening_refused catalogue_fault.Memory readers) }
{
    if readers > MOST_READERS {
        return Err(OpenFault::TooManyReaders);
    }
    match open_over(rt, alloc, catalogue, readers) {
        Ok(made) => Ok(made),
        Err(AllocError) => Err(OpenFault::Memory),
    }
}

// The room is made first, so that no version is published where memory for it is refused.
fn open_over<Acc: Ledger, Del: Ledger, R: Wait>(
    rt: &R,
    alloc: Global,
    catalogue: &Catalogue<Acc, Del>,
    readers: usize,
) -> Result<(OpenedVersions, TotalsRoom), AllocError>
    requires opening { IsOpening catalogue.now.state }
    requires nothing { catalogue.now.staged ≡ None }
    requires readers { readers ≤ 16 }
    ensures history { IfOk result (λ made. made.0.1 ≡ catalogue.now.state ∷ []) }
    ensures count { IfOk result (λ made. made.0.2 ≡ readers) }
    ensures room { IfOk result (λ made. HasRoomFor limits.most_frames made.1) }
    ensures empty { IfOk result (λ made. Holds made.1 []) }
{
    let room = TotalsRoom::new(alloc)?;
    let picture = catalogue.next_picture(alloc)?;
    let versions = OpenedVersions::open::<Catalogue<Acc, Del>, StagedState, R>(
        rt, alloc, catalogue, picture, readers,
    )?;
    Ok((versions, room))
}
