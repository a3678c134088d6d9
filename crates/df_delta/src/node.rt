//! What a live node of one input promises.
ghost use Rattle.std.specs.Prelude.{◌≡◌, ◌^◌, IfOk};
ghost use Rattle.df_expr.specs.declared.meter.Meter.{Meter as Counts};
ghost use Rattle.df_column.specs.Changes.{applied};
ghost use Rattle.df_column.specs.Tables.{TaggedRows};
ghost use Rattle.df_delta.specs.Differences.{IsDiff};
ghost use Rattle.df_delta.specs.Inputs.{MayFollow};
ghost use Rattle.df_delta.specs.Work.{IsBelow, IsWithin, plus};

use crate::delta::Delta;
use df_expr::Meter;
use std::alloc::AllocError;

/// An operator that follows its input by deltas.
///
/// A change comes in two steps. `prepare` makes the delta of the output and all that the change needs, and leaves the
/// node over the input that it stands over, whether it succeeds or is refused memory. `commit` puts what was made in
/// place and cannot fail; it is to take no memory. What was prepared and is dropped changes nothing.
pub trait LiveNode {
    /// What a prepare makes and a commit puts in place.
    type Staged: Drop;

    /// The operator takes this input, as one whose rows fit.
    ghost Takes: { Self → TaggedRows → Type 0 };

    /// The node stands over this input.
    ghost IsOver: { Self → TaggedRows → Type 0 };

    /// What the operator gives of an input.
    ghost output: { Self → TaggedRows → TaggedRows };

    /// What was staged is such that a commit may put it in place.
    ghost HasRoomFor: { Self → Self.Staged → Type 0 };

    /// A commit of what was staged leads to this input.
    ghost LeadsTo: { Self → Self.Staged → TaggedRows → Type 0 };

    /// No prepare counts more.
    ghost budget: { Self → Counts };

    /// What a prepare may count, by the inputs before and after.
    ghost allowed: { Self → TaggedRows → TaggedRows → Counts };

    /// Makes the delta of the output under this delta of the input, and what a commit needs. Counts the work.
    fn prepare(
        &mut self,
        delta: &Delta,
        meter: &mut Meter,
    ) -> Result<(Self::Staged, Delta), AllocError>
        requires counts { IsBelow (plus meter.old (budget self.old)) (2 ^ 128) }
        ensures grows { IsWithin meter.old meter.new }
        ensures within { IsWithin meter.new (plus meter.old (budget self.old)) }
        ensures meter { (t : TaggedRows) → MayFollow (IsOver self.old) (Takes self.old) t delta.now
            → IsWithin meter.new (plus meter.old (allowed self.old t (applied t delta.now))) }
        ensures contents { (t : TaggedRows) → IsOver self.old t → IsOver self.new t }
        ensures operator { (t : TaggedRows) → output self.new t ≡ output self.old t }
        ensures takes { (t : TaggedRows) → Takes self.old t → Takes self.new t }
        ensures same_budget { budget self.new ≡ budget self.old }
        ensures same_bound { (t u : TaggedRows) → allowed self.new t u ≡ allowed self.old t u }
        ensures diff { IfOk result (λ r. (t : TaggedRows)
            → MayFollow (IsOver self.old) (Takes self.old) t delta.now
            → IsDiff (output self.old t) (output self.old (applied t delta.now)) r.1) }
        ensures staged { IfOk result (λ r. (t : TaggedRows)
            → MayFollow (IsOver self.old) (Takes self.old) t delta.now
            → LeadsTo self.new r.0 (applied t delta.now)) }
        ensures room { IfOk result (λ r. HasRoomFor self.new r.0) };

    /// Puts what was staged in place.
    fn commit(&mut self, staged: Self::Staged)
        requires { HasRoomFor self.old staged }
        ensures over { (t : TaggedRows) → LeadsTo self.old staged t → IsOver self.new t }
        ensures operator { (t : TaggedRows) → output self.new t ≡ output self.old t }
        ensures takes { (t : TaggedRows) → Takes self.old t → Takes self.new t }
        ensures same_budget { budget self.new ≡ budget self.old }
        ensures same_bound { (t u : TaggedRows) → allowed self.new t u ≡ allowed self.old t u };
}
