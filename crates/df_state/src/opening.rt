//! What a new catalogue begins with: schemas that it can have, empty frames, and the first desk of each.
ghost use Rattle.std.specs.Prelude.{◌≡◌, ◌≤◌, None, Some, IfOk, MatchResult, OnOk, map};
ghost use Rattle.df_value.specs.Limits as limits;
ghost use Rattle.df_frame.specs.FrameParts.{empty_parts};
ghost use Rattle.df_state.specs.Desks as desks_spec;
ghost use Rattle.df_state.specs.Ledgers as ledgers;
ghost use Rattle.df_state.specs.New as new_spec;

use crate::desk::Desk;
use crate::fault::NewFault;
use df_frame::Frame;
use df_value::{List, MOST_FRAMES, Schema};
use std::alloc::{AllocError, Global};
use std::sync::ledger::{Ledger, Share};

/// Whether frames can have these schemas: there are at most 8, of base columns.
pub fn check_schemas(schemas: &[Schema]) -> Result<(), NewFault>
    ensures { MatchResult result (λ _. new_spec.new_fault schemas.now ≡ None)
        (λ f. new_spec.new_fault schemas.now ≡ Some f) }
{
    if schemas.len() > MOST_FRAMES {
        return Err(NewFault::TooManyFrames);
    }
    match schemas.iter().position(|s| !s.is_base()) {
        Some(frame) => Err(NewFault::DerivedType(frame)),
        None => Ok(()),
    }
}

/// Frames of these schemas without rows.
pub fn empty_frames(alloc: Global, schemas: List<Schema>) -> Result<Vec<Frame>, AllocError>
    ensures { IfOk result (λ frames. frames.items ≡ map empty_parts schemas) }
{
    let mut frames = Vec::with_capacity(alloc, schemas.len())?;
    for schema in schemas.into_vec() {
        frames.push(Frame::new(alloc, schema)?)?;
    }
    Ok(frames)
}

/// The first desks of so many frames, in order, whose parts are taken out of these shares.
pub fn open_desks<Acc: Ledger, Del: Ledger>(
    alloc: Global,
    count: usize,
    accepted: &mut Share<Acc>,
    deleted: &mut Share<Del>,
) -> Result<Vec<Desk<Acc, Del>>, AllocError>
    requires few { count ≤ limits.most_frames }
    requires accepted_ledger { Acc.parts ≡ ledgers.parts_of_ledger }
    requires deleted_ledger { Del.parts ≡ ledgers.parts_of_ledger }
    requires accepted { (accepted.old.parts ≡ ledgers.parts_of_ledger) × (accepted.old.amount ≡ 0) }
    requires deleted { (deleted.old.parts ≡ ledgers.parts_of_ledger) × (deleted.old.amount ≡ 0) }
    ensures desks { IfOk result (λ desks. desks.items ≡ desks_spec.first_desks count) }
    ensures accepted_parts { OnOk result (accepted.new.parts ≡ desks_spec.parts_of_no_desk count) }
    ensures accepted_amount { OnOk result (accepted.new.amount ≡ 0) }
    ensures deleted_parts { OnOk result (deleted.new.parts ≡ desks_spec.parts_of_no_desk count) }
    ensures deleted_amount { OnOk result (deleted.new.amount ≡ 0) }
{
    let mut desks = Vec::with_capacity(alloc, count)?;
    for frame in 0..count {
        desks.push(Desk::first(frame, accepted, deleted))?;
    }
    Ok(desks)
}
