//! The checks of rolling windows, cumulative sums and ranks.
ghost use Rattle.std.specs.Prelude.{◌≡◌, ◌∷◌, []};
ghost use Rattle.df_value.specs.Schemas.{column_dtype};
ghost use Rattle.df_value.specs.Outcomes.{Answers};
ghost use Rattle.df_plan.specs.Checks.{added_columns_check};
ghost use Rattle.df_plan.specs.WindowChecks as window_checks;
ghost use Rattle.df_plan.specs.WindowChecks.{rolling_check, cum_sum_check, rank_check};
ghost use Rattle.df_ops.specs.Windows as windows;

use crate::checks::add_columns;
use crate::fault::PlanFault;
use crate::items::key_dtype;
use df_expr::ExprFault;
use df_ops::{RollKind, rolling_dtype};
use df_value::{CellType, Duplicate, List, Schema, Text};
use std::alloc::Global;

/// The most rows of a rolling window.
const MOST_ROWS_OF_WINDOW: i64 = 65_536;

/// The schema of a table with a rolling column put among its own, or the first fault.
pub fn check_rolling(
    alloc: Global,
    input: &Schema,
    output: &Text,
    kind: RollKind,
    column: &Text,
    w: i64,
    m: i64,
) -> Result<Schema, PlanFault>
    ensures { Answers PlanFault.Memory
        (rolling_check input.now output.now kind column.now w m) result }
{
    if !is_window(w, m) {
        return Err(PlanFault::BadWindow);
    }
    int_column_dtype(alloc, input, column)?;
    add_column(alloc, input, output, rolling_dtype(kind))
}

/// The schema of a table with a cumulative sum put among its columns, or the first fault.
pub fn check_cum_sum(
    alloc: Global,
    input: &Schema,
    output: &Text,
    column: &Text,
) -> Result<Schema, PlanFault>
    ensures { Answers PlanFault.Memory (cum_sum_check input.now output.now column.now) result }
{
    int_column_dtype(alloc, input, column)?;
    add_column(alloc, input, output, CellType::Wide)
}

/// The schema of a table with a rank put among its columns, or the first fault.
pub fn check_rank(
    alloc: Global,
    input: &Schema,
    output: &Text,
    column: &Text,
) -> Result<Schema, PlanFault>
    ensures { Answers PlanFault.Memory (rank_check input.now output.now column.now) result }
{
    key_dtype(alloc, input, column)?;
    add_column(alloc, input, output, CellType::Int)
}

fn is_window(w: i64, m: i64) -> bool
    ensures { result ≡ window_checks.is_window w m }
{
    1 <= w && w <= MOST_ROWS_OF_WINDOW && 1 <= m && m <= w
}

fn int_column_dtype(alloc: Global, input: &Schema, name: &Text) -> Result<CellType, PlanFault>
    ensures { Answers PlanFault.Memory
        (window_checks.int_column_dtype name.now (column_dtype name.now input.now)) result }
{
    match input.dtype_of(name) {
        Some(CellType::Int) => Ok(CellType::Int),
        Some(_) => Err(PlanFault::WrongType(name.copy(alloc)?)),
        None => Err(PlanFault::Expr(ExprFault::NoColumn(name.copy(alloc)?))),
    }
}

fn add_column(
    alloc: Global,
    input: &Schema,
    output: &Text,
    dtype: CellType,
) -> Result<Schema, PlanFault>
    ensures { Answers PlanFault.Memory
        (added_columns_check input.now ((output.now, dtype) ∷ [])) result }
{
    let added = vec![in alloc; (output.copy(alloc)?, dtype)]?;
    add_columns(alloc, input, &List::from_vec(added))
}
