//! A plan that was checked.
ghost use Rattle.std.specs.Prelude.{◌≡◌, ◌≢◌, Ok, Err, IfOk, IfErr, IsTrue, List as Seq};
ghost use Rattle.df_plan.specs.Checks.{plan_check};
ghost use Rattle.df_plan.specs.CheckedParts.{IsOfItsSchema};
ghost use Rattle.df_plan.specs.Meaning.{frames_fit};

use crate::checks::check;
use crate::fault::PlanFault;
use crate::plan::Plan;
use df_value::{Cell, Duplicate, List, Schema};
use std::alloc::{AllocError, Global};
use std::marker::Model;

/// A plan that checks over frames of known schemas, with the schema of its result.
#[derive(PartialEq, Eq)]
pub struct CheckedPlan {
    plan: Plan,
    frames: List<Schema>,
    schema: Schema,
}

// A body that owns one drops it by a call.
impl Drop for CheckedPlan {
    fn drop(self) {
        let CheckedPlan {
            plan,
            frames,
            schema,
        } = self;
        drop(plan);
        drop(frames);
        drop(schema);
    }
}

impl Model for CheckedPlan {
    ghost use Rattle.df_plan.specs.CheckedParts.{CheckedParts};
    ghost use Rattle.std.specs.Coded.{codes};
    ghost use Rattle.df_plan.specs.contracts.plan.Plan as plan_type;

    ghost Value = { CheckedParts };

    ghost coded = { Prim.hlevel (codes, plan_type.the_row.coded) };

    ghost use Rattle.std.specs.Prelude.{◌≡◌, Ok};
    ghost use Rattle.df_plan.specs.Checks.{plan_check};

    ghost view = { λ p. record { plan = p.plan; frames = p.frames; schema = p.schema } };

    ghost invariant = { λ p. plan_check p.plan p.frames ≡ Ok p.schema };

    ghost inverse = { λ p. record { plan = p.plan; frames = p.frames; schema = p.schema } };
}

impl CheckedPlan {
    /// The plan, if it checks over frames of these schemas, of which it keeps copies.
    ///
    /// Refused is first a plan of more than 12 levels, then one of more than 3 scans. Then comes
    /// the first fault of a walk that visits inputs before their node. Of a scan: an index that is
    /// no frame. Of a filter: the predicate's fault; a predicate that is no Bool. Of a select: no
    /// items; item by item the expression's fault, or that it names no column. Of a with_columns:
    /// item by item the expression's fault; the first name that stands earlier in the list; more
    /// than 32 columns. Of a group-by: no keys; key by key a missing column or one of type Frac;
    /// aggregate by aggregate a missing column or one whose type it does not take. Of a join: no
    /// keys; key by key a column that is missing on the left or on the right, or whose types differ
    /// or are Frac; the first key that stands earlier. Of a select, a group-by and a join then: the
    /// first name of the result that stands earlier in it; more than 32 columns. Of a rolling
    /// window: sizes that are none, before its column. Of it and of a cumulative sum: a column that
    /// is missing or not Int; of a rank: one that is missing or Frac; then more than 32 columns.
    pub fn new(alloc: Global, plan: Plan, frames: &[Schema]) -> Result<CheckedPlan, PlanFault>
        ensures ok { IfOk result
            (λ p. (p.plan ≡ plan) × (p.frames ≡ frames.now)
            × (plan_check plan frames.now ≡ Ok p.schema)) }
        ensures fault { IfErr result
            (λ f. f ≢ PlanFault.Memory → plan_check plan frames.now ≡ Err f) }
    {
        match checked_parts(alloc, &plan, frames) {
            Ok((frames, schema)) => Ok(CheckedPlan {
                plan,
                frames,
                schema,
            }),
            Err(fault) => {
                drop(plan);
                Err(fault)
            }
        }
    }

    /// The plan.
    pub fn plan(&self) -> &Plan
        ensures value { result.now ≡ self.now.plan }
        ensures sound { plan_check self.now.plan self.now.frames ≡ Ok self.now.schema }
    {
        &self.plan
    }

    /// The schemas of the frames that the plan was checked over.
    pub fn frames(&self) -> &List<Schema>
        ensures value { result.now ≡ self.now.frames }
        ensures sound { plan_check self.now.plan self.now.frames ≡ Ok self.now.schema }
    {
        &self.frames
    }

    /// The schema of the plan's result: that of its table over any frames whose rows fit.
    pub fn schema(&self) -> &Schema
        ensures value { result.now ≡ self.now.schema }
        ensures sound { plan_check self.now.plan self.now.frames ≡ Ok self.now.schema }
        ensures fit { (frames : Seq (Seq (Seq Cell))) → IsTrue (frames_fit self.now.frames frames)
            → IsOfItsSchema self.now frames }
    {
        &self.schema
    }
}

// Copies of the frames' schemas, and the schema of the plan's result over them.
fn checked_parts(
    alloc: Global,
    plan: &Plan,
    frames: &[Schema],
) -> Result<(List<Schema>, Schema), PlanFault>
    ensures ok { IfOk result (λ p. (p.0 ≡ frames.now) × (plan_check plan.now frames.now ≡ Ok p.1)) }
    ensures fault { IfErr result
        (λ f. f ≢ PlanFault.Memory → plan_check plan.now frames.now ≡ Err f) }
{
    let schema = check(alloc, plan, frames)?;
    Ok((copy_all(alloc, frames)?, schema))
}

fn copy_all(alloc: Global, schemas: &[Schema]) -> Result<List<Schema>, AllocError>
    ensures { IfOk result (λ copies. copies ≡ schemas.now) }
{
    let mut copies = Vec::with_capacity(alloc, schemas.len())?;
    for schema in schemas {
        copies.push(schema.copy(alloc)?)?;
    }
    Ok(List::from_vec(copies))
}

impl Duplicate for CheckedPlan {
    fn copy(&self, alloc: Global) -> Result<CheckedPlan, AllocError> {
        let frames = self.frames.copy(alloc)?;
        let schema = self.schema.copy(alloc)?;
        let plan = self.plan.copy(alloc)?;
        Ok(CheckedPlan {
            plan,
            frames,
            schema,
        })
    }
}
