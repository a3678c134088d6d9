//! What a live node of two inputs promises.
ghost use Rattle.std.specs.Prelude.{◌≡◌, ◌^◌, IfOk};
ghost use Rattle.df_expr.specs.declared.meter.Meter.{Meter as Counts};
ghost use Rattle.df_column.specs.Changes.{applied};
ghost use Rattle.df_column.specs.Tables.{TaggedRows};
ghost use Rattle.df_delta.specs.Differences.{IsDiff};
ghost use Rattle.df_delta.specs.Inputs.{MayFollowBoth};
ghost use Rattle.df_delta.specs.Work.{IsBelow, IsWithin, plus};

use crate::delta::Delta;
use df_expr::Meter;
use std::alloc::AllocError;

/// An operator that follows two inputs by their deltas, which are applied together: see
/// [`LiveNode`](crate::LiveNode).
pub trait TwoSidedNode {
    /// What a prepare makes and a commit puts in place.
    type Staged: Drop;

    /// The operator takes these inputs.
    ghost Takes: { Self → TaggedRows → TaggedRows → Type 0 };

    /// The node stands over these inputs.
    ghost IsOver: { Self → TaggedRows → TaggedRows → Type 0 };

    /// What the operator gives of two inputs.
    ghost output: { Self → TaggedRows → TaggedRows → TaggedRows };

    /// What was staged is such that a commit may put it in place.
    ghost HasRoomFor: { Self → Self.Staged → Type 0 };

    /// A commit of what was staged leads to these inputs.
    ghost LeadsTo: { Self → Self.Staged → TaggedRows → TaggedRows → Type 0 };

    /// No prepare counts more.
    ghost budget: { Self → Counts };

    /// What a prepare may count, by the left input before and after, and the right one.
    ghost allowed: { Self → TaggedRows → TaggedRows → TaggedRows → TaggedRows → Counts };

    /// Makes the delta of the output under these deltas of the inputs, and what a commit needs. Counts the work.
    fn prepare(
        &mut self,
        left: &Delta,
        right: &Delta,
        meter: &mut Meter,
    ) -> Result<(Self::Staged, Delta), AllocError>
        requires counts { IsBelow (plus meter.old (budget self.old)) (2 ^ 128) }
        ensures grows { IsWithin meter.old meter.new }
        ensures within { IsWithin meter.new (plus meter.old (budget self.old)) }
        ensures meter { (l r : TaggedRows)
            → MayFollowBoth (IsOver self.old) (Takes self.old) l left.now r right.now
            → IsWithin meter.new (plus meter.old
            (allowed self.old l (applied l left.now) r (applied r right.now))) }
        ensures contents { (l r : TaggedRows) → IsOver self.old l r → IsOver self.new l r }
        ensures operator { (l r : TaggedRows) → output self.new l r ≡ output self.old l r }
        ensures takes { (l r : TaggedRows) → Takes self.old l r → Takes self.new l r }
        ensures same_budget { budget self.new ≡ budget self.old }
        ensures same_bound { (l m r s : TaggedRows) →
            allowed self.new l m r s ≡ allowed self.old l m r s }
        ensures diff { IfOk result (λ d. (l r : TaggedRows)
            → MayFollowBoth (IsOver self.old) (Takes self.old) l left.now r right.now
            → IsDiff (output self.old l r)
            (output self.old (applied l left.now) (applied r right.now)) d.1) }
        ensures staged { IfOk result (λ d. (l r : TaggedRows)
            → MayFollowBoth (IsOver self.old) (Takes self.old) l left.now r right.now
            → LeadsTo self.new d.0 (applied l left.now) (applied r right.now)) }
        ensures room { IfOk result (λ d. HasRoomFor self.new d.0) };

    /// Puts what was staged in place.
    fn commit(&mut self, staged: Self::Staged)
        requires { HasRoomFor self.old staged }
        ensures over { (l r : TaggedRows) → LeadsTo self.old staged l r → IsOver self.new l r }
        ensures operator { (l r : TaggedRows) → output self.new l r ≡ output self.old l r }
        ensures takes { (l r : TaggedRows) → Takes self.old l r → Takes self.new l r }
        ensures same_budget { budget self.new ≡ budget self.old }
        ensures same_bound { (l m r s : TaggedRows) →
            allowed self.new l m r s ≡ allowed self.old l m r s };
}
