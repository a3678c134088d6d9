//! The live join.
ghost use Rattle.std.specs.Prelude.{◌≡◌, ◌+◌, ◌*◌, ◌≤◌, ◌<◌, ◌^◌, IfOk, OnOk};
ghost use Rattle.std.specs.FinMap as finite;
ghost use Rattle.df_column.specs.Changes.{applied};
ghost use Rattle.df_column.specs.Tables.{TaggedRows};
ghost use Rattle.df_delta.specs.Deltas.{RowsFit};
ghost use Rattle.df_delta.specs.Diff.{diff};
ghost use Rattle.df_delta.specs.Differences.{IsDiff};
ghost use Rattle.df_delta.specs.Inputs.{MayFollowBoth};
ghost use Rattle.df_delta.specs.SameRows.{same_row};
ghost use Rattle.df_ops.specs.Joins.{join_indices_of as indices_of_join};
ghost use Rattle.df_ops.specs.Tables as tables;
ghost use Rattle.df_join.specs.Probes.{Grows, probes as probe_count, probes_made, probes_noted};
ghost use Rattle.df_join.specs.Keyed.{LeadsTo};
ghost use Rattle.df_join.specs.RowNotes.{Leads, joined_by_key};
ghost use Rattle.df_join.specs.Sides as sides;
ghost use Rattle.df_join.specs.Sides.{AreInputs, AreScans, IsAsBefore, IsStagedAsBefore, LeadsToBoth, is_one, join_output};
ghost use Rattle.df_join.specs.Spread.{HasKeys, IsTagOver};

mod left;
mod pairs;
mod right;

use crate::keyed::KeyedTables;
use crate::members::Members;
use crate::rule::JoinRule;
use df_delta::{Delta, Notes, TwoSidedNode};
use df_expr::{Counter, Meter};
use df_ops::{How, join_indices_of};
use df_value::{Schema, Text};
use std::alloc::{AllocError, Global};

/// Joins two sides by their keys.
pub struct LiveJoin {
    alloc: Global,
    rule: JoinRule,
    left_scans: usize,
    right_scans: usize,
    left: Members,
    right: Members,
}

// A body that owns one drops it by a call.
impl Drop for LiveJoin {
    fn drop(self) {
        let LiveJoin {
            alloc: _,
            rule,
            left_scans: _,
            right_scans: _,
            left,
            right,
        } = self;
        drop(rule);
        drop(left);
        drop(right);
    }
}

/// The members of both sides that a commit puts in place.
#[derive(Drop)]
pub struct StagedJoin {
    left: KeyedTables,
    right: KeyedTables,
}

impl LiveJoin {
    /// The join of rows of these schemas, over so many scans on each side, which have no rows yet.
    ///
    /// A scan's rows stand at tags (n, 0, 0), n being at least 1. A pair's tag has the left row's number for each scan
    /// of the left side, then the right row's for each scan of the right side; that of a left row alone has zeros for
    /// these.
    pub fn new(
        alloc: Global,
        left: &Schema,
        right: &Schema,
        left_scans: usize,
        right_scans: usize,
        how: How,
        keys: &[Text],
        nulls_equal: bool,
    ) -> Result<LiveJoin, AllocError>
        requires { AreScans left_scans right_scans }
        ensures output { IfOk result (λ n. (l r : TaggedRows) → join_output n l r
            ≡ joined_by_key (is_one left_scans) (record {
              how = how;
              indices =
                  indices_of_join left.now right.now keys.now nulls_equal;
            }) l r) }

        // The rows are those that the operator gives of the rows of both inputs.
        ensures rows { IfOk result (λ n. (l r : TaggedRows) → HasKeys (IsTagOver left_scans) l
            → HasKeys (IsTagOver right_scans) r → finite.values (join_output n l r)
            ≡ (tables.join_table (record { columns = left.now; rows = finite.values l })
            (record { columns = right.now; rows = finite.values r }) how keys.now nulls_equal).rows) }
        ensures tags { IfOk result (λ n. (l r : TaggedRows) → HasKeys (IsTagOver left_scans) l
            → HasKeys (IsTagOver right_scans) r
            → HasKeys (IsTagOver (left_scans + right_scans)) (join_output n l r)) }
        ensures over { IfOk result (λ n. sides.IsOver n finite.empty finite.empty) }
        ensures scans { IfOk result (λ n. (n.left_scans ≡ left_scans) × (n.right_scans ≡ right_scans)) }
        ensures schemas { IfOk result (λ n. (n.left.empty.schema ≡ left.now)
            × (n.right.empty.schema ≡ right.now)) }

        // It takes rows of the schemas, at tags of so many scans.
        ensures takes { IfOk result (λ n. (l r : TaggedRows) → RowsFit left.now l → RowsFit right.now r
            → HasKeys (IsTagOver left_scans) l → HasKeys (IsTagOver right_scans) r → AreInputs n l r) }
    {
        let indices = join_indices_of(
            alloc,
            left.columns().as_slice(),
            right.columns().as_slice(),
            keys,
            nulls_equal,
        )?;
        Ok(LiveJoin {
            alloc,
            rule: JoinRule { how, indices },
            left_scans,
            right_scans,
            left: Members::new(alloc, left)?,
            right: Members::new(alloc, right)?,
        })
    }

    /// The notes of both deltas, and what the right one makes of its members: the right delta first, then the left one over the
    /// right side as it will be. So a left row that comes is noted once, beside the right rows of the end.
    fn noted(
        &self,
        left: &Delta,
        right: &Delta,
        probes: &mut Counter,
    ) -> Result<(KeyedTables, Notes), AllocError>
        requires { probes.old + 2 ^ 68 < 2 ^ 128 }
        ensures leads { IfOk result (λ x. (l r : TaggedRows)
            → MayFollowBoth (sides.IsOver self.now) (AreInputs self.now) l left.now r right.now
            → Leads x.1 (join_output self.now l r)
            (join_output self.now (applied l left.now) (applied r right.now))) }
        ensures staged { IfOk result (λ x. (l r : TaggedRows)
            → MayFollowBoth (sides.IsOver self.now) (AreInputs self.now) l left.now r right.now
            → LeadsTo self.now.rule.indices.right self.now.right x.0 (applied r right.now)) }
        ensures within { probes.new ≤ probes.old + 2 ^ 67 + 2 ^ 66 }
        ensures exact { OnOk result (probes.new ≡ probes.old + probes_noted self.now.rule left.now right.now) }
        ensures counted { Grows probes.old probes.new (6 * finite.len right.now + 4 * finite.len left.now) }
    {
        let mut staged = KeyedTables::new(self.alloc);
        let mut notes = Notes::new(self.alloc);
        self.note_right_all(&mut staged, &mut notes, right, probes)?;
        self.note_left_all(&staged, &mut notes, left, probes)?;
        Ok((staged, notes))
    }

    /// What both deltas make of the members of their sides and of the join. Makes at most eight probes for each change.
    fn changes(
        &self,
        left: &Delta,
        right: &Delta,
        probes: &mut Counter,
    ) -> Result<(StagedJoin, Delta), AllocError>
        requires { probes.old + 2 ^ 68 < 2 ^ 128 }
        ensures diff { IfOk result (λ x. (l r : TaggedRows)
            → MayFollowBoth (sides.IsOver self.now) (AreInputs self.now) l left.now r right.now
            → IsDiff (join_output self.now l r)
            (join_output self.now (applied l left.now) (applied r right.now)) x.1) }
        ensures staged { IfOk result (λ x. (l r : TaggedRows)
            → MayFollowBoth (sides.IsOver self.now) (AreInputs self.now) l left.now r right.now
            → LeadsToBoth self.now x.0 (applied l left.now) (applied r right.now)) }
        ensures within { probes.new ≤ probes.old + 2 ^ 68 }
        ensures exact { OnOk result (probes.new ≡ probes.old + probes_made self.now.rule left.now right.now) }
        ensures counted { Grows probes.old probes.new (8 * (finite.len left.now + finite.len right.now)) }
    {
        let (right, notes) = self.noted(left, right, probes)?;
        let indices = self.rule.indices.left.as_slice();
        match self.left.stage_all(indices, left, probes) {
            Ok(left) => Ok((StagedJoin { left, right }, notes.into_delta()?)),
            Err(refused) => {
                drop(right);
                drop(notes);
                Err(refused)
            }
        }
    }

    /// Makes the room that a commit of what is staged needs, and each staged table one that is copied at once, as the next
    /// change copies it.
    fn make_ready(&mut self, staged: &mut StagedJoin) -> Result<(), AllocError>
        ensures before { IsAsBefore self.old self.new }
        ensures staged { IsStagedAsBefore staged.old staged.new }
        ensures room { OnOk result (sides.HasRoomFor self.new staged.new) }
    {
        staged.left.make_shared(self.alloc)?;
        staged.right.make_shared(self.alloc)?;
        self.left.make_room(&staged.left)?;
        self.right.make_room(&staged.right)
    }
}

impl TwoSidedNode for LiveJoin {
    type Staged = StagedJoin;

    ghost Takes = { λ j l r. AreInputs j l r };

    ghost IsOver = { λ j l r. sides.IsOver j l r };

    ghost output = { λ j l r. join_output j l r };

    ghost HasRoomFor = { λ j s. sides.HasRoomFor j s };

    ghost LeadsTo = { λ j s l r. LeadsToBoth j s l r };

    ghost budget = { λ _. probe_count (2 ^ 68) };

    ghost allowed = { λ _ l m r s.
        probe_count (8 * (finite.len (diff same_row l m) + finite.len (diff same_row r s))) };

    fn prepare(
        &mut self,
        left: &Delta,
        right: &Delta,
        meter: &mut Meter,
    ) -> Result<(StagedJoin, Delta), AllocError> {
        let (mut staged, changes) = self.changes(left, right, &mut meter.probes)?;
        self.make_ready(&mut staged)?;
        Ok((staged, changes))
    }

    fn commit(&mut self, staged: StagedJoin) {
        let StagedJoin { left, right } = staged;
        self.left.put_all(left);
        self.right.put_all(right);
    }
}
