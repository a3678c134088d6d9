//! The door to the store for a service of one's own: totals that stay current over data which many loaders change.
//!
//! A [`ServiceBuilder`] has the frames and views of a service, and runs its loaders and watchers in threads until the books are
//! closed. A [`Load`] changes frames through the [`Service`], which numbers the rows that are appended; a [`Watch`] looks at a
//! [`Dashboard`], which takes versions and waits for nobody. docs/LIBRARY.md begins with a first program.
#![tactic(auto)]

mod books;
mod builder;
mod cells;
mod changing;
mod closing;
mod csv_rows;
mod dashboard;
mod fault;
mod files;
mod hall_changes;
mod loading;
mod opening;
mod service;
mod threads;
mod view_rows;
mod view_table;

pub use books::{Appended, Books};
pub use builder::ServiceBuilder;
pub use cells::row_of;
pub use csv_rows::{CsvRecords, LinesFault, read_rows};
pub use dashboard::Dashboard;
pub use df_catalogue::CatalogueFault;
pub use df_csv::CsvFault;
pub use df_expr::{ArithOp, CompareOp, Expr, ExprFault};
pub use df_hall::{Hall, OpenedHall, Totals};
pub use df_ops::{Agg, How, RankKind, RollKind};
pub use df_plan::{CheckedPlan, Plan, PlanFault};
pub use df_value::{
    BadCell, Boxed, Cell, CellRef, CellType, Chunk, ChunkFault, Duplicate, Frac, List, Row, Schema,
    SchemaFault, Text,
};
pub use df_versions::{ChangeFault, Naming, OpenFault, Reader, Told, Version};
pub use fault::{FinishFault, ServiceFault};
pub use files::{CsvFile, read_files};
pub use hall_changes::{HallChanges, RunningHall};
pub use loading::{Loaded, load_into};
pub use opening::{Finished, FrameTotals};
pub use service::{OpenService, Service, Tell, ViewSchema};
pub use threads::{Load, ServiceRuntime, Watch};
pub use view_rows::{ViewRow, ViewRows};
pub use view_table::{OwnedRow, ViewTable};
