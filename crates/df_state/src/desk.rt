//! Desks: what was accepted and deleted through them, as shares of the ledgers over all frames.
ghost use Rattle.std.specs.Prelude.{◌≡◌, ◌+◌, ◌<◌, ◌≤◌, ◌^◌, ◌↔◌, false, true, length};
ghost use Rattle.std.specs.Prelude.{IfErr, IfNone, IfSome, IsNone, OnOk};
ghost use Rattle.df_state.specs.Desks as desks_spec;
ghost use Rattle.df_state.specs.Ledgers as ledgers;
ghost use Rattle.df_value.specs.Limits as limits;

use std::marker::Model;
use std::sync::ledger::{Book, Ledger, Share};

/// The parts of each ledger of a catalogue.
pub const PARTS_OF_LEDGER: u64 = 524_288;

/// The parts of each ledger that the first desk of a frame has.
pub const PARTS_OF_FIRST_DESK: u64 = 65_536;

/// The right to change one frame, with the numbers of rows that were accepted and deleted through
/// it.
///
/// The numbers are shares of two ledgers, whose books the catalogue keeps. A desk has as many parts
/// of the one as of the other, at least one.
pub struct Desk<Acc: Ledger, Del: Ledger> {
    frame: usize,
    accepted: u64,
    deleted: u64,
    parts: u64,
    accepted_share: Share<Acc>,
    deleted_share: Share<Del>,
}

// A body that owns one drops it by a call.
impl<Acc: Ledger, Del: Ledger> Drop for Desk<Acc, Del> {
    fn drop(self) {
        let Desk {
            frame: _,
            accepted: _,
            deleted: _,
            parts: _,
            accepted_share,
            deleted_share,
        } = self;
        drop(accepted_share);
        drop(deleted_share);
    }
}

impl<Acc: Ledger, Del: Ledger> Model for Desk<Acc, Del> {
    ghost use Rattle.df_state.specs.Desks.{DeskParts};
    ghost use Rattle.df_state.specs.DeskShares.{IsDesk};

    ghost Value = { DeskParts };

    ghost view = { λ d.
        record { frame = d.frame; accepted = d.accepted; deleted = d.deleted; parts = d.parts } };

    ghost invariant = { λ d. IsDesk d.frame d.accepted d.deleted d.parts (Acc.parts, Del.parts)
        (d.accepted_share.parts, d.accepted_share.amount)
        (d.deleted_share.parts, d.deleted_share.amount) };
}

impl<Acc: Ledger, Del: Ledger> Desk<Acc, Del> {
    /// The first desk of a frame, with 65,536 parts of each share, of which it has no amount yet.
    pub fn first(
        frame: usize,
        accepted: &mut Share<Acc>,
        deleted: &mut Share<Del>,
    ) -> Desk<Acc, Del>
        requires within { frame < limits.most_frames }
        requires accepted_ledger { Acc.parts ≡ ledgers.parts_of_ledger }
        requires deleted_ledger { Del.parts ≡ ledgers.parts_of_ledger }
        requires accepted_parts { ledgers.parts_of_first_desk ≤ accepted.old.parts }
        requires accepted_amount { accepted.old.amount ≡ 0 }
        requires deleted_parts { ledgers.parts_of_first_desk ≤ deleted.old.parts }
        requires deleted_amount { deleted.old.amount ≡ 0 }
        ensures desk { result ≡ desks_spec.first_desk frame }
        ensures accepted_parts { accepted.new.parts + ledgers.parts_of_first_desk
            ≡ accepted.old.parts }
        ensures accepted_amount { accepted.new.amount ≡ 0 }
        ensures deleted_parts { deleted.new.parts + ledgers.parts_of_first_desk
            ≡ deleted.old.parts }
        ensures deleted_amount { deleted.new.amount ≡ 0 }
    {
        Desk {
            frame,
            accepted: 0,
            deleted: 0,
            parts: PARTS_OF_FIRST_DESK,
            accepted_share: accepted.split_off(PARTS_OF_FIRST_DESK, 0),
            deleted_share: deleted.split_off(PARTS_OF_FIRST_DESK, 0),
        }
    }

    /// The index of the frame.
    pub fn frame(&self) -> usize
        ensures value { result ≡ self.now.frame }
        ensures within { result < limits.most_frames }
    {
        self.frame
    }

    /// How many rows were accepted through the desk.
    pub fn accepted(&self) -> u64
        ensures { result ≡ self.now.accepted }
    {
        self.accepted
    }

    /// How many rows were deleted through the desk.
    pub fn deleted(&self) -> u64
        ensures { result ≡ self.now.deleted }
    {
        self.deleted
    }

    /// Its parts of each ledger.
    pub fn parts(&self) -> u64
        ensures value { result ≡ self.now.parts }
        ensures some { 0 < result }
        ensures most { result ≤ ledgers.parts_of_ledger }
    {
        self.parts
    }

    /// A second desk of the frame, with nothing accepted or deleted yet and half of the parts,
    /// rounded down. None, and no change, exactly where the desk has one part.
    pub fn split(&mut self) -> Option<Desk<Acc, Del>>
        ensures one_part { IsNone result ↔ (self.old.parts ≡ 1) }
        ensures same { IfNone result (self.new ≡ self.old) }
        ensures halves { IfSome result (desks_spec.IsSplit self.old self.new) }
    {
        let half = self.parts / 2;
        if half == 0 {
            return None;
        }
        self.parts -= half;
        Some(Desk {
            frame: self.frame,
            accepted: 0,
            deleted: 0,
            parts: half,
            accepted_share: self.accepted_share.split_off(half, 0),
            deleted_share: self.deleted_share.split_off(half, 0),
        })
    }

    /// Adds the numbers and parts of another desk. A desk of another frame comes back, and so would
    /// one with which an amount passed 64 bits: no desk of one catalogue is refused so, as `audit` of
    /// the catalogue tells.
    pub fn join(&mut self, other: Desk<Acc, Del>) -> Result<(), Desk<Acc, Del>>
        ensures joined { OnOk result (self.new ≡ desks_spec.joined_desk self.old other) }
        ensures back { IfErr result (λ desk. desk ≡ other) }
        ensures same { IfErr result (λ _. self.new ≡ self.old) }
        ensures refused { IfErr result (λ _. desks_spec.may_join self.old other ≡ false) }
        ensures accepted { OnOk result (desks_spec.may_join self.old other ≡ true) }
    {
        if !self.may_join(&other) {
            return Err(other);
        }
        let Desk {
            frame: _,
            accepted,
            deleted,
            parts,
            accepted_share,
            deleted_share,
        } = other;
        self.accepted_share.merge(accepted_share);
        self.deleted_share.merge(deleted_share);
        self.accepted += accepted;
        self.deleted += deleted;
        self.parts += parts;
        Ok(())
    }

    fn may_join(&self, other: &Desk<Acc, Del>) -> bool
        ensures { result ≡ desks_spec.may_join self.now other.now }
    {
        self.frame == other.frame
            && self.accepted.checked_add(other.accepted).is_some()
            && self.deleted.checked_add(other.deleted).is_some()
    }

    /// Books so many accepted rows.
    pub fn count_accepted(&mut self, book: &mut Book<Acc>, rows: u64)
        requires { book.old.total + rows < 2 ^ 64 }
        ensures desk { self.new ≡ record self.old { accepted = self.old.accepted + rows } }
        ensures book { book.new.total ≡ book.old.total + rows }
    {
        book.audit(&mut self.accepted_share);
        book.add(&mut self.accepted_share, rows);
        self.accepted += rows;
    }

    /// Books so many deleted rows.
    pub fn count_deleted(&mut self, book: &mut Book<Del>, rows: u64)
        requires { book.old.total + rows < 2 ^ 64 }
        ensures desk { self.new ≡ record self.old { deleted = self.old.deleted + rows } }
        ensures book { book.new.total ≡ book.old.total + rows }
    {
        book.audit(&mut self.deleted_share);
        book.add(&mut self.deleted_share, rows);
        self.deleted += rows;
    }

    /// Tells that the desk has accepted and deleted no more than the books have.
    pub fn audit(&mut self, accepted: &mut Book<Acc>, deleted: &mut Book<Del>)
        ensures same { self.new ≡ self.old }
        ensures accepted { self.new.accepted ≤ accepted.old.total }
        ensures deleted { self.new.deleted ≤ deleted.old.total }
        ensures accepted_book { accepted.new.total ≡ accepted.old.total }
        ensures deleted_book { deleted.new.total ≡ deleted.old.total }
    {
        accepted.audit(&mut self.accepted_share);
        deleted.audit(&mut self.deleted_share);
    }
}

/// Tells that these desks and two more shares together have no more than the books, and exactly
/// these where they have every part.
///
/// For the time of the call the desks lend their shares to those given, one desk at each level of a
/// recursion.
pub fn audit_all<Acc: Ledger, Del: Ledger>(
    desks: &mut [Desk<Acc, Del>],
    accepted: &mut Book<Acc>,
    deleted: &mut Book<Del>,
    accepted_share: &mut Share<Acc>,
    deleted_share: &mut Share<Del>,
)
    requires accepted_backed { accepted_share.old.parts ≡ 0 → accepted_share.old.amount ≡ 0 }
    requires deleted_backed { deleted_share.old.parts ≡ 0 → deleted_share.old.amount ≡ 0 }
    ensures desks { desks.new ≡ desks.old }
    ensures accepted_book { accepted.new.total ≡ accepted.old.total }
    ensures deleted_book { deleted.new.total ≡ deleted.old.total }
    ensures accepted_parts { accepted_share.new.parts ≡ accepted_share.old.parts }
    ensures accepted_amount { accepted_share.new.amount ≡ accepted_share.old.amount }
    ensures deleted_parts { deleted_share.new.parts ≡ deleted_share.old.parts }
    ensures deleted_amount { deleted_share.new.amount ≡ deleted_share.old.amount }
    ensures most_accepted { desks_spec.accepted_through desks.old + accepted_share.old.amount
        ≤ accepted.old.total }
    ensures most_deleted { desks_spec.deleted_through desks.old + deleted_share.old.amount
        ≤ deleted.old.total }
    ensures all_accepted { desks_spec.parts_of desks.old + accepted_share.old.parts ≡ Acc.parts →
        desks_spec.accepted_through desks.old + accepted_share.old.amount ≡ accepted.old.total }
    ensures all_deleted { desks_spec.parts_of desks.old + deleted_share.old.parts ≡ Del.parts →
        desks_spec.deleted_through desks.old + deleted_share.old.amount ≡ deleted.old.total }
    ensures accepted_ledger { 0 < length desks.old → Acc.parts ≡ ledgers.parts_of_ledger }
    ensures deleted_ledger { 0 < length desks.old → Del.parts ≡ ledgers.parts_of_ledger }
{
    let Some((first, rest)) = desks.split_first_mut() else {
        accepted.audit(accepted_share);
        deleted.audit(deleted_share);
        return;
    };
    let Desk {
        frame: _,
        accepted: accepted_rows,
        deleted: deleted_rows,
        parts,
        accepted_share: accepted_lent,
        deleted_share: deleted_lent,
    } = first;
    accepted_lent.give(accepted_share, *parts, *accepted_rows);
    deleted_lent.give(deleted_share, *parts, *deleted_rows);
    audit_all(rest, accepted, deleted, accepted_share, deleted_share);
    accepted_share.give(accepted_lent, *parts, *accepted_rows);
    deleted_share.give(deleted_lent, *parts, *deleted_rows);
}
