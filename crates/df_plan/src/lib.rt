//! Plans: how a table is made of frames, with their check and their plain evaluation.
//!
//! A [`Plan`] is a tree of operators over frames, a [`CheckedPlan`] one that checks over their schemas, and
//! [`evaluate`] gives its rows. docs/ARCHITECTURE.md says where to add an operator.
#![tactic(auto)]

mod checked;
mod checks;
mod evaluation;
mod fault;
mod items;
mod join_checks;
mod plan;
mod window_checks;

pub use checked::CheckedPlan;
pub use checks::{MOST_PLAN_LEVELS, MOST_SCANS, schema_of};
pub use df_ops::{Agg, How, RankKind, RollKind};
pub use evaluation::evaluate;
pub use fault::PlanFault;
pub use plan::Plan;
