//! The step of a plan that does not check.
ghost use Rattle.std.specs.Prelude.{◌≡◌, ◌++◌, IfNone, IfOk, IfSome, List, Some, codes, is_ok, string_bytes};
ghost use Rattle.df_plan.specs.Checks.{columns_of};
ghost use Rattle.df_plan.specs.declared.plan.Plan.{Plan as AnyPlan};
ghost use Rattle.df_explain.specs.PlanPlaces as places;
ghost use Rattle.df_explain.specs.PlanPlaces.{IsFaultOf, IsFirst, IsInnermost, IsPlaceOf, IsUpTo, IsWhole, IsWithin, right_of};

use crate::names::joined;
use crate::place::step_text;
use df_plan::{Plan, PlanFault, RollKind, schema_of};
use df_value::Schema;
use std::alloc::{AllocError, Global};

/// The step of a plan that does not check, and where it stands in the view.
#[derive(Drop)]
pub struct FaultyStep<'a> {
    /// As ``step 3 `join`, right side, step 1 `filter` ``.
    pub place: String,
    /// The plan up to this step.
    pub part: &'a Plan,
}

/// Most right sides within right sides that are told of.
const MOST_SIDES: u32 = 3;

/// The step of a plan that does not check over frames of these schemas; the last one where all do.
pub fn faulty_step<'a>(
    alloc: Global,
    plan: &'a Plan,
    frames: &[Schema],
) -> Result<FaultyStep<'a>, AllocError>
    ensures fault { IfOk result (λ step. IsFaultOf frames.now plan.now step.part.now) }
    ensures place { IfOk result (λ step.
        IsPlaceOf frames.now plan.now step.part.now (string_bytes step.place)) }
{
    let part = faulty_part(alloc, plan, frames)?;
    let place = last_step_text(alloc, part)?;
    within_sides(alloc, FaultyStep { place, part }, frames, MOST_SIDES)
}

// The same step, or the one in its right side that does not check.
fn within_sides<'a>(
    alloc: Global,
    step: FaultyStep<'a>,
    frames: &[Schema],
    most: u32,
) -> Result<FaultyStep<'a>, AllocError>
    requires { IsFirst frames.now step.part.now }
    ensures fault { IfOk result (λ inner. IsFaultOf frames.now step.entry.part.now inner.part.now) }
    ensures place { IfOk result (λ inner. (sides : List AnyPlan)
        × IsWithin frames.now step.entry.part.now sides inner.part.now
        × IsWhole frames.now most sides inner.part.now
        × (string_bytes inner.place ≡ string_bytes step.entry.place ++ places.sides_text sides)) }
{
    if most == 0 {
        return Ok(step);
    }
    match faulty_side(alloc, step.part, frames)? {
        Some(side) => {
            let part = faulty_part(alloc, side, frames)?;
            let place = place_in_side(alloc, step.place.as_str(), part)?;
            within_sides(alloc, FaultyStep { place, part }, frames, most - 1)
        }
        None => Ok(step),
    }
}

fn place_in_side(alloc: Global, place: &str, part: &Plan) -> Result<String, AllocError>
    ensures { IfOk result (λ text. string_bytes text
        ≡ place.now ++ (codes ", right side, " ++ places.last_step_text part.now)) }
{
    let inner = last_step_text(alloc, part)?;
    joined(alloc, place, ", right side, ", inner.as_str())
}

// The right side of a join whose left side checks, if it does not check.
fn faulty_side<'a>(
    alloc: Global,
    plan: &'a Plan,
    frames: &[Schema],
) -> Result<Option<&'a Plan>, AllocError>
    ensures fault { IfOk result (λ side. IfSome side (λ p. IsFaultOf frames.now plan.now p.now)) }
    ensures side { IfOk result (λ side. IfSome side (λ p. right_of plan.now ≡ Some p.now)) }
    ensures none { IfOk result (λ side. IfNone side
        (IsFirst frames.now plan.now → IsInnermost frames.now plan.now)) }
{
    match plan {
        Plan::Join(left, right, _, _, _) => {
            if checks(alloc, left.get(), frames)? && !checks(alloc, right.get(), frames)? {
                Ok(Some(right.get()))
            } else {
                Ok(None)
            }
        }
        _ => Ok(None),
    }
}

/// The plan up to its first step that does not check, of the steps of the view itself.
fn faulty_part<'a>(alloc: Global, plan: &'a Plan, frames: &[Schema]) -> Result<&'a Plan, AllocError>
    ensures fault { IfOk result (λ part. IsFaultOf frames.now plan.now part.now) }
    ensures step { IfOk result (λ part. IsUpTo plan.now part.now) }
    ensures first { IfOk result (λ part. IsFirst frames.now part.now) }
{
    match plan {
        Plan::Scan(_) => Ok(plan),
        Plan::Filter(input, _) | Plan::Select(input, _) | Plan::WithColumns(input, _) => {
            if checks(alloc, input.get(), frames)? {
                return Ok(plan);
            }
            faulty_part(alloc, input.get(), frames)
        }
        Plan::GroupBy(input, _, _) | Plan::CumSum(input, _, _) => {
            if checks(alloc, input.get(), frames)? {
                return Ok(plan);
            }
            faulty_part(alloc, input.get(), frames)
        }
        Plan::Rolling(input, _, _, _, _, _) | Plan::Rank(input, _, _, _) => {
            if checks(alloc, input.get(), frames)? {
                return Ok(plan);
            }
            faulty_part(alloc, input.get(), frames)
        }
        Plan::Join(left, _, _, _, _) => {
            if checks(alloc, left.get(), frames)? {
                return Ok(plan);
            }
            faulty_part(alloc, left.get(), frames)
        }
    }
}

fn checks(alloc: Global, plan: &Plan, frames: &[Schema]) -> Result<bool, AllocError>
    ensures { IfOk result (λ sound. sound ≡ is_ok (columns_of plan.now frames.now)) }
{
    match schema_of(alloc, plan, frames) {
        Ok(_) => Ok(true),
        Err(PlanFault::Memory) => Err(AllocError),
        Err(_) => Ok(false),
    }
}

/// The last step of a plan by its number, from 1, and its word; for a frame's own rows `from`.
fn last_step_text(alloc: Global, part: &Plan) -> Result<String, AllocError>
    ensures { IfOk result (λ text. string_bytes text ≡ places.last_step_text part.now) }
{
    let word = word_of(part);
    match steps_of(part) {
        0 => String::from_str(alloc, word),
        number => step_text(alloc, u128::from(number), word),
    }
}

/// How many steps of a view lead to this part of its plan.
fn steps_of(part: &Plan) -> u64
    ensures { result ≡ places.steps_of part.now }
{
    match part {
        Plan::Scan(_) => 0,
        Plan::Filter(input, _) | Plan::Select(input, _) | Plan::WithColumns(input, _) => {
            steps_of(input.get()).saturating_add(1)
        }
        Plan::GroupBy(input, _, _) | Plan::CumSum(input, _, _) => {
            steps_of(input.get()).saturating_add(1)
        }
        Plan::Rolling(input, _, _, _, _, _) | Plan::Rank(input, _, _, _) => {
            steps_of(input.get()).saturating_add(1)
        }
        Plan::Join(left, _, _, _, _) => steps_of(left.get()).saturating_add(1),
    }
}

/// The word of the last step.
pub fn word_of(part: &Plan) -> &'static str
    ensures { result.now ≡ places.word_of part.now }
{
    match part {
        Plan::Scan(_) => "from",
        Plan::Filter(_, _) => "filter",
        Plan::Select(_, _) => "select",
        Plan::WithColumns(_, _) => "with_columns",
        Plan::GroupBy(_, _, _) => "group_by",
        Plan::Join(_, _, _, _, _) => "join",
        Plan::Rolling(_, _, RollKind::Sum, _, _, _) => "rolling_sum",
        Plan::Rolling(_, _, RollKind::Min, _, _, _) => "rolling_min",
        Plan::Rolling(_, _, RollKind::Max, _, _, _) => "rolling_max",
        Plan::CumSum(_, _, _) => "cum_sum",
        Plan::Rank(_, _, _, _) => "rank",
    }
}
