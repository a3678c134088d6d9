//! The opening of a store: a catalogue of a document's frames with their first rows and all its
//! views.
ghost use Rattle.std.specs.Prelude.{◌≡◌, IfOk};
ghost use Rattle.df_shell.specs.Changes.{IsMade};
ghost use Rattle.df_shell.specs.Opening.{empty_catalogue};
ghost use Rattle.df_session.specs.Filling.{AreMade, opening_changes};
ghost use Rattle.df_state.specs.Ledgers as ledgers;

use crate::store::Store;
use df_catalogue::Catalogue;
use df_document::copy_schemas;
use df_session::{Definitions, Numbers, ShellFault, fill};
use df_value::{List, Piece};
use std::alloc::Global;
use std::sync::ledger::{Blank, Ledger};

/// The store of a document, with the rows of these pieces and all of the document's views.
pub fn open_store<Acc: Ledger, Del: Ledger>(
    alloc: Global,
    accepted: Blank,
    deleted: Blank,
    definitions: &Definitions,
    pieces: List<List<Piece>>,
) -> Result<Store<Acc, Del>, ShellFault>
    requires accepted_name { accepted.name ≡ Acc.name }
    requires accepted_parts { (accepted.parts ≡ Acc.parts)
        × (accepted.parts ≡ ledgers.parts_of_ledger) }
    requires deleted_name { deleted.name ≡ Del.name }
    requires deleted_parts { (deleted.parts ≡ Del.parts)
        × (deleted.parts ≡ ledgers.parts_of_ledger) }
    ensures { IfOk result
        (λ store. AreMade IsMade (empty_catalogue definitions.now) store.catalogue
        (opening_changes definitions.now pieces)) }
{
    let schemas = copy_schemas(alloc, definitions.document.frames.as_slice())?;
    let numbers = Numbers::new(alloc, schemas.len())?;
    let (catalogue, desks) = Catalogue::new(alloc, accepted, deleted, schemas)?;
    let mut store = Store {
        catalogue,
        desks,
        numbers,
        change_number: 0,
    };
    match fill(alloc, &mut store, definitions, pieces) {
        Ok(()) => Ok(store),
        Err(fault) => {
            // A call costs the proof less than a drop at the end of a block.
            drop(store);
            Err(fault)
        }
    }
}
