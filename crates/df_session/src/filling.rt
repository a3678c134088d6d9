//! The first rows of the frames of a store, and its views.
ghost use Rattle.std.specs.Prelude.{OnOk, flat_map, map};
ghost use Rattle.std.specs.List.{enumerate_from, zip};
ghost use Rattle.df_session.specs.Filling.{AreMade, frame_appends, opening_changes, piece_appends, registration};

use crate::definitions::Definitions;
use crate::fault::ShellFault;
use crate::view_store::ViewStore;
use df_state::Change;
use df_value::{Duplicate, List, Piece};
use std::alloc::Global;

/// Enters the rows of the pieces, and then registers all views.
pub fn fill<S: ViewStore>(
    alloc: Global,
    store: &mut S,
    definitions: &Definitions,
    pieces: List<List<Piece>>,
) -> Result<(), ShellFault>
    ensures { OnOk result (AreMade S.Makes store.old store.new
        (opening_changes definitions.now pieces)) }
{
    enter_frames(alloc, store, pieces)?;
    register_views(alloc, store, definitions)
}

fn enter_frames<S: ViewStore>(
    alloc: Global,
    store: &mut S,
    pieces: List<List<Piece>>,
) -> Result<(), ShellFault>
    ensures { OnOk result
        (AreMade S.Makes store.old store.new
        (flat_map frame_appends (enumerate_from 0 pieces))) }
{
    for (frame, of_frame) in pieces.into_vec().into_iter().enumerate() {
        enter_pieces(alloc, store, frame, of_frame)?;
    }
    Ok(())
}

// The rows of a frame's good pieces.
fn enter_pieces<S: ViewStore>(
    alloc: Global,
    store: &mut S,
    frame: usize,
    pieces: List<Piece>,
) -> Result<(), ShellFault>
    ensures { OnOk result
        (AreMade S.Makes store.old store.new (flat_map (piece_appends frame) pieces)) }
{
    for made in pieces.into_vec() {
        enter(alloc, store, frame, made)?;
    }
    Ok(())
}

fn enter<S: ViewStore>(
    alloc: Global,
    store: &mut S,
    frame: usize,
    made: Piece,
) -> Result<(), ShellFault>
    ensures { OnOk result
        (AreMade S.Makes store.old store.new (piece_appends frame made)) }
{
    match made {
        Piece::Good(chunk) => Ok(store.make(alloc, Change::Append(frame, chunk))?),
        Piece::Bad(_) => Ok(()),
    }
}

fn register_views<S: ViewStore>(
    alloc: Global,
    store: &mut S,
    definitions: &Definitions,
) -> Result<(), ShellFault>
    ensures { OnOk result (AreMade S.Makes store.old store.new
        (map registration (zip definitions.now.document.views definitions.now.plans))) }
{
    let views = definitions.document.views.as_slice();
    for (view, plan) in views.iter().zip(definitions.plans.as_slice()) {
        let name = view.name.copy(alloc)?;
        let plan = plan.copy(alloc)?;
        store.make(alloc, Change::Register(name, plan))?;
    }
    Ok(())
}
