//! The building of a service: its frames and its views.
ghost use Rattle.std.specs.Prelude.{◌≡◌, ◌++◌, ◌∷◌, [], IfErr, IfOk, length};
ghost use Rattle.dataframes.specs.Builders.{HasOneMore, IsNoFrame, IsNoPlan};
ghost use Rattle.dataframes.specs.Cells.{columns_lent};
ghost use Rattle.dataframes.specs.Closing.{IsClosed, IsUnfinished};

use crate::cells::columns_of;
use crate::fault::FinishFault;
use crate::opening::{Finished, open};
use crate::threads::{Load, ServiceRuntime, Watch, Workers};
use df_catalogue::PARTS_OF_LEDGER;
use df_plan::{CheckedPlan, Plan, PlanFault};
use df_value::{CellType, Schema, Text};
use df_versions::OpenFault;
use std::alloc::Global;
use std::marker::{Brand, Model};
use std::sync::ledger::Blank;

/// A name, and the plan of its view.
pub(crate) type NamedPlan = (Text, CheckedPlan);

/// What a service is opened with: its frames, which are empty at first, and its views. Contracts see the schemas of the frames
/// and the views.
pub struct ServiceBuilder {
    frames: Vec<Schema>,
    views: Vec<NamedPlan>,
    alloc: Global,
}

// A body that owns one drops it by a call.
impl Drop for ServiceBuilder {
    fn drop(self) {
        let ServiceBuilder {
            frames,
            views,
            alloc: _,
        } = self;
        drop(frames);
        drop(views);
    }
}

impl Model for ServiceBuilder {
    ghost use Rattle.std.specs.Coded.{codes};
    ghost use Rattle.df_plan.specs.contracts.plan.Plan as plan_type;
    ghost use Rattle.dataframes.specs.Builders.{BuilderParts};

    ghost Value = { BuilderParts };

    ghost coded = { Prim.hlevel (codes, plan_type.the_row.coded) };

    ghost view = { λ b. record { schemas = b.frames.items; views = b.views.items } };
}

impl ServiceBuilder {
    /// A service without frames and views.
    pub fn new(alloc: Global) -> ServiceBuilder
        ensures schemas { result.schemas ≡ [] }
        ensures views { result.views ≡ [] }
    {
        ServiceBuilder {
            frames: Vec::new(alloc),
            views: Vec::new(alloc),
            alloc,
        }
    }

    /// One frame more, of columns with these names and types. The first frame has the index 0.
    ///
    /// Refused are columns that are no schema (`Frame`): none, more than 32, or two of one name.
    pub fn frame(self, columns: &[(&str, CellType)]) -> Result<ServiceBuilder, FinishFault>
        ensures added { IfOk result (λ b. b ≡
            record self { schemas = self.schemas ++ columns_lent columns.now ∷ [] }) }
        ensures refused { IfErr result (IsNoFrame (columns_lent columns.now)) }
    {
        let mut builder = self;
        match builder.add_frame(columns) {
            Ok(()) => Ok(builder),
            Err(fault) => {
                drop(builder);
                Err(fault)
            }
        }
    }

    /// One view more, of a plan over the frames so far. No loader can drop it, and each dashboard knows its columns.
    ///
    /// Refused is a plan that does not check (`Plan`).
    pub fn view(self, name: &str, plan: Plan) -> Result<ServiceBuilder, FinishFault>
        ensures added { IfOk result (HasOneMore self name.now plan) }
        ensures refused { IfErr result (IsNoPlan self.schemas plan) }
    {
        let mut builder = self;
        match builder.add_view(name, plan) {
            Ok(()) => Ok(builder),
            Err(fault) => {
                drop(builder);
                Err(fault)
            }
        }
    }

    fn add_frame(&mut self, columns: &[(&str, CellType)]) -> Result<(), FinishFault>
        ensures added { IfOk result (λ _. self.new ≡
            record self.old { schemas = self.old.schemas ++ columns_lent columns.now ∷ [] }) }
        ensures refused { IfErr result (IsNoFrame (columns_lent columns.now)) }
    {
        let schema = match Schema::new(columns_of(self.alloc, columns)?) {
            Ok(schema) => schema,
            Err(fault) => return Err(FinishFault::Frame(fault)),
        };
        self.frames.push(schema)?;
        Ok(())
    }

    fn add_view(&mut self, name: &str, plan: Plan) -> Result<(), FinishFault>
        ensures added { IfOk result (λ _. HasOneMore self.old name.now plan self.new) }
        ensures refused { IfErr result (IsNoPlan self.old.schemas plan) }
    {
        let plan = checked(self.alloc, plan, self.frames.as_slice())?;
        match Text::from_str(self.alloc, name) {
            Ok(name) => {
                self.views.push((name, plan))?;
                Ok(())
            }
            Err(_) => {
                drop(plan);
                Err(FinishFault::Open(OpenFault::Memory))
            }
        }
    }

    /// Runs the service, and closes its books: each loader has a thread, and each of at most 16 watchers has one, with a
    /// dashboard. It ends once all loaders are done and each watcher has looked at all that they changed.
    pub fn run<R: ServiceRuntime, L: Load + Send, W: Watch + Send>(
        self,
        rt: &R,
        loaders: Vec<L>,
        watchers: Vec<W>,
    ) -> Result<Finished<L, W>, FinishFault>
        ensures totals { IfOk result (λ finished. IsClosed self.schemas finished.totals) }
        ensures refused { IfErr result (IsUnfinished self (length watchers.items)) }
    {
        open::<Brand, Brand, R, L, W>(
            rt,
            rt.alloc(),
            Blank::new(PARTS_OF_LEDGER),
            Blank::new(PARTS_OF_LEDGER),
            self,
            Workers { loaders, watchers },
        )
    }

    /// The schemas of its frames, and its views.
    pub(crate) fn into_parts(self) -> (Vec<Schema>, Vec<NamedPlan>)
        ensures schemas { result.0.items ≡ self.schemas }
        ensures views { result.1.items ≡ self.views }
    {
        let ServiceBuilder {
            frames,
            views,
            alloc: _,
        } = self;
        (frames, views)
    }
}

// The plan, checked over these frames.
fn checked(alloc: Global, plan: Plan, frames: &[Schema]) -> Result<CheckedPlan, FinishFault>
    ensures plan { IfOk result (λ p. p.plan ≡ plan) }
    ensures frames { IfOk result (λ p. p.frames ≡ frames.now) }
    ensures refused { IfErr result (IsNoPlan frames.now plan) }
{
    match CheckedPlan::new(alloc, plan, frames) {
        Ok(plan) => Ok(plan),
        Err(PlanFault::Memory) => Err(FinishFault::Open(OpenFault::Memory)),
        Err(fault) => Err(FinishFault::Plan(fault)),
    }
}
