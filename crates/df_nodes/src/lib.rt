//! Live nodes of one input: operators that follow their input by deltas.
//!
//! [`LiveFilter`] keeps rows, [`LiveMap`] makes another row of each (`select`, `with_columns`). Both look at one row at
//! a time and keep nothing of their input. [`LiveWindow`] puts rolling values among the cells of each row, [`LiveSum`]
//! cumulative sums; both keep their input and their output. Each promises what [`LiveNode`](df_delta::LiveNode) says.
#![tactic(auto)]

mod added_column;
mod changed_tables;
mod filter;
mod map;
mod rolling;
mod row_operator;
mod row_wise;
mod sliding;
mod sum;
mod tail_sums;
mod window;
mod window_totals;

pub use changed_tables::ChangedTables;
pub use filter::LiveFilter;
pub use map::LiveMap;
pub use rolling::Rolling;
pub use row_operator::RowOperator;
pub use row_wise::NothingStaged;
pub use sum::LiveSum;
pub use window::LiveWindow;
