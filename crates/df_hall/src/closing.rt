//! The close: desks are joined to one for each frame, and their shares compared with the frames' books.
ghost use Rattle.std.specs.Prelude.{◌≡◌, ◌+◌, ◌<◌, ◌≤◌, ◌==◌, ◌^◌, None, Some, [], IfErr, IfNone, IfOk, IfSome, length, slice_get, if◌then◌else◌};
ghost use Rattle.df_state.specs.Desks as desks_spec;
ghost use Rattle.df_state.specs.States.{IsLegal};
ghost use Rattle.df_frame.specs.declared.state.FrameState.{FrameState};
ghost use Rattle.df_hall.specs.Closing as closing;
ghost use Rattle.df_hall.specs.Rooms.{HasRoomFor, Holds};
ghost use Rattle.df_value.specs.Limits as limits;

use crate::totals::{Totals, TotalsRoom, frame_count};
use df_catalogue::{Catalogue, Desk};
use std::sync::ledger::Ledger;

/// A catalogue and desks whose shares are not the books of a frame.
#[derive(Drop)]
pub struct Unsettled<Acc: Ledger, Del: Ledger> {
    /// The least frame of which the gathered shares are not the books.
    pub frame: usize,
    pub catalogue: Catalogue<Acc, Del>,
    /// The desks, joined to one for each frame of which there is one.
    pub desks: Vec<Desk<Acc, Del>>,
    /// Room for the totals of another try.
    pub room: TotalsRoom,
}

/// The catalogue and its totals, where the shares of the desks are the books of every frame; else all that
/// was given, with the desks of a frame as one. It takes no memory.
pub fn settle<Acc: Ledger, Del: Ledger>(
    catalogue: Catalogue<Acc, Del>,
    desks: Vec<Desk<Acc, Del>>,
    room: TotalsRoom,
) -> Result<(Catalogue<Acc, Del>, Totals), Unsettled<Acc, Del>>
    requires room { HasRoomFor limits.most_frames room }
    requires empty { Holds room [] }
    ensures settled { IfOk result (λ r. closing.missing_frame desks.items catalogue.state ≡ None) }
    ensures catalogue { IfOk result (λ r. r.0 ≡ catalogue) }
    ensures totals { IfOk result (λ r. r.1 ≡ closing.totals_of catalogue.state) }
    ensures missing { IfErr result (λ e.
        closing.missing_frame desks.items catalogue.state ≡ Some e.frame) }
    ensures back { IfErr result (λ e. e.catalogue ≡ catalogue) }
    ensures joined { IfErr result (λ e. closing.AreJoined desks.items e.desks.items) }
    ensures room { IfErr result (λ e. HasRoomFor limits.most_frames e.room) }
    ensures empty { IfErr result (λ e. Holds e.room []) }
    ensures books { desks_spec.AgreeWithBooks desks.items catalogue.state }
    ensures legal { IsLegal catalogue.state }
{
    let mut catalogue = catalogue;
    let mut desks = desks;
    gather(&mut catalogue, &mut desks);
    match missing_frame(&mut catalogue, desks.as_mut_slice()) {
        None => {
            drop(desks);
            let totals = room.totals(&catalogue);
            Ok((catalogue, totals))
        }
        Some(frame) => Err(Unsettled {
            frame,
            catalogue,
            desks,
            room,
        }),
    }
}

/// Joins the desks to one for each frame, and audits them: over all frames they count no more than the catalogue's books, and
/// exactly these where they have every part.
pub(crate) fn gather_audited<Acc: Ledger, Del: Ledger>(
    catalogue: &mut Catalogue<Acc, Del>,
    desks: &mut Vec<Desk<Acc, Del>>,
)
    ensures same { catalogue.new ≡ catalogue.old }
    ensures joined { closing.AreJoined desks.old.items desks.new.items }
    ensures books { desks_spec.AgreeWithBooks desks.new.items catalogue.old.state }
{
    gather(catalogue, desks);
    catalogue.audit_all(desks.as_mut_slice());
}

// Joins the desks to one for each frame.
fn gather<Acc: Ledger, Del: Ledger>(
    catalogue: &mut Catalogue<Acc, Del>,
    desks: &mut Vec<Desk<Acc, Del>>,
)
    ensures same { catalogue.new ≡ catalogue.old }
    ensures joined { closing.AreJoined desks.old.items desks.new.items }
{
    // From the last one on: each desk behind this place is the first of its frame, so it stays.
    let mut at = desks.len();
    while at > 0 {
        at -= 1;
        join_at(catalogue, desks, at);
    }
}

// Joins the desk at this place to an earlier one of its frame, if there is one.
fn join_at<Acc: Ledger, Del: Ledger>(
    catalogue: &mut Catalogue<Acc, Del>,
    desks: &mut Vec<Desk<Acc, Del>>,
    at: usize,
)
    requires within { at < length desks.old.items }
    requires behind { closing.AreFirst desks.old.items (at + 1) }
    ensures same { catalogue.new ≡ catalogue.old }
    ensures sums { desks_spec.HaveSameSums desks.old.items desks.new.items }
    ensures left { at ≤ length desks.new.items }
    ensures first { closing.AreFirst desks.new.items at }
{
    let Some(to) = earlier(desks.as_slice(), at) else {
        return;
    };
    let desk = desks.remove(at);
    join(catalogue, &mut desks[to], desk);
}

// The place of a desk before this one that is of its frame.
fn earlier<Acc: Ledger, Del: Ledger>(desks: &[Desk<Acc, Del>], at: usize) -> Option<usize>
    requires { at < length desks.now }
    ensures found { IfSome result (λ to. (to < at) × closing.SameFrame desks.now to at) }
    ensures first { IfNone result (closing.IsFirst desks.now at) }
{
    let frame = desks[at].frame();
    for to in 0..at {
        if desks[to].frame() == frame {
            return Some(to);
        }
    }
    None
}

// Joins a desk to another one of its frame. Both are desks of the catalogue, so their numbers are small.
fn join<Acc: Ledger, Del: Ledger>(
    catalogue: &mut Catalogue<Acc, Del>,
    to: &mut Desk<Acc, Del>,
    desk: Desk<Acc, Del>,
)
    requires { to.old.frame ≡ desk.frame }
    ensures same { catalogue.new ≡ catalogue.old }
    ensures joined { to.new ≡ desks_spec.joined_desk to.old desk }
{
    let mut desk = desk;
    catalogue.audit(to);
    catalogue.audit(&mut desk);
    match to.join(desk) {
        Ok(()) => (),
        Err(_) => unreachable!(),
    }
}

/// The least frame of which the shares of these desks together are not the books.
///
/// Each desk takes a further level of a recursion, so the list is to be short, as one desk for each
/// frame.
pub fn missing_frame<Acc: Ledger, Del: Ledger>(
    catalogue: &mut Catalogue<Acc, Del>,
    desks: &mut [Desk<Acc, Del>],
) -> Option<usize>
    ensures same { catalogue.new ≡ catalogue.old }
    ensures desks { desks.new ≡ desks.old }
    ensures missing { result ≡ closing.missing_frame desks.old catalogue.old.state }
    ensures books { desks_spec.AgreeWithBooks desks.old catalogue.old.state }
    ensures legal { IsLegal catalogue.old.state }
{
    catalogue.audit_all(desks);
    missing_in(catalogue, desks)
}

fn missing_in<Acc: Ledger, Del: Ledger>(
    catalogue: &Catalogue<Acc, Del>,
    desks: &[Desk<Acc, Del>],
) -> Option<usize>
    requires { desks_spec.AgreeWithBooks desks.now catalogue.now.state }
    ensures missing { result ≡ closing.missing_frame desks.now catalogue.now.state }
    ensures legal { IsLegal catalogue.now.state }
{
    for frame in 0..frame_count(catalogue) {
        if !is_settled_at(catalogue, desks, frame) {
            return Some(frame);
        }
    }
    None
}

// Whether the shares of the desks are the books of a frame.
fn is_settled_at<Acc: Ledger, Del: Ledger>(
    catalogue: &Catalogue<Acc, Del>,
    desks: &[Desk<Acc, Del>],
    frame: usize,
) -> bool
    requires legal { IsLegal catalogue.now.state }
    requires books { desks_spec.AgreeWithBooks desks.now catalogue.now.state }
    ensures { (f : FrameState) → slice_get catalogue.now.state.frames frame ≡ Some f → result ≡ closing.is_settled desks.now frame f }
{
    let (accepted, deleted) = sums(desks, frame);
    catalogue.accepted(frame) == Some(accepted) && catalogue.deleted(frame) == Some(deleted)
}

// What the desks of a frame accepted and deleted together.
fn sums<Acc: Ledger, Del: Ledger>(desks: &[Desk<Acc, Del>], frame: usize) -> (u64, u64)
    requires accepted { desks_spec.accepted_through desks.now < 2 ^ 64 }
    requires deleted { desks_spec.deleted_through desks.now < 2 ^ 64 }
    ensures accepted { result.0 ≡ desks_spec.accepted_at frame desks.now }
    ensures deleted { result.1 ≡ desks_spec.deleted_at frame desks.now }
{
    let mut accepted: u64 = 0;
    let mut deleted: u64 = 0;
    for desk in desks {
        accepted += accepted_of(desk, frame);
        deleted += deleted_of(desk, frame);
    }
    (accepted, deleted)
}

fn accepted_of<Acc: Ledger, Del: Ledger>(desk: &Desk<Acc, Del>, frame: usize) -> u64
    ensures { result ≡ (if desk.now.frame == frame then desk.now.accepted else 0) }
{
    if desk.frame() == frame {
        desk.accepted()
    } else {
        0
    }
}

fn deleted_of<Acc: Ledger, Del: Ledger>(desk: &Desk<Acc, Del>, frame: usize) -> u64
    ensures { result ≡ (if desk.now.frame == frame then desk.now.deleted else 0) }
{
    if desk.frame() == frame {
        desk.deleted()
    } else {
        0
    }
}
