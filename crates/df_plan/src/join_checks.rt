//! The check of a join.
ghost use Rattle.std.specs.Prelude.{◌≡◌, ◌≢◌, [], MatchResult, None, Some, Ok, Err};
ghost use Rattle.std.specs.List.{list_any};
ghost use Rattle.std.specs.Option.{option_copied};
ghost use Rattle.std.specs.Str.{bytes_eq};
ghost use Rattle.df_value.specs.Schemas.{column_dtype};
ghost use Rattle.df_value.specs.Outcomes.{Answers};
ghost use Rattle.df_plan.specs.JoinChecks as join_checks;
ghost use Rattle.df_plan.specs.JoinChecks.{join_check, join_key_dtype, keys_fault};

use crate::checks::to_schema;
use crate::fault::PlanFault;
use crate::items::Columns;
use df_expr::ExprFault;
use df_ops::columns_of_join;
use df_value::{CellType, Duplicate, Schema, Text, first_doubled_name};
use std::alloc::Global;

/// The schema of a join of tables of these schemas, or its first fault.
pub fn check_join(
    alloc: Global,
    left: &Schema,
    right: &Schema,
    keys: &[Text],
) -> Result<Schema, PlanFault>
    ensures { Answers PlanFault.Memory (join_check left.now right.now keys.now) result }
{
    if keys.is_empty() {
        return Err(PlanFault::EmptyList);
    }
    check_keys(alloc, left, right, keys)?;
    let columns = columns_of_join(alloc, left.columns(), right.columns().as_slice(), keys)?;
    join_schema(alloc, columns, keys)
}

// The schema of these columns of a join by these keys.
fn join_schema(alloc: Global, columns: Columns, keys: &[Text]) -> Result<Schema, PlanFault>
    ensures { Answers PlanFault.Memory (join_checks.join_schema columns keys.now) result }
{
    match first_doubled_name(keys) {
        Some(name) => Err(PlanFault::DoubledName(name.copy(alloc)?)),
        None => to_schema(alloc, columns),
    }
}

// The first fault of the keys.
fn check_keys(alloc: Global, left: &Schema, right: &Schema, keys: &[Text]) -> Result<(), PlanFault>
    ensures { MatchResult result
        (λ _. keys_fault left.now right.now keys.now ≡ None)
        (λ f. f ≢ PlanFault.Memory → keys_fault left.now right.now keys.now ≡ Some f) }
{
    for name in keys {
        key_dtype(alloc, name, left.dtype_of(name), right.dtype_of(name))?;
    }
    Ok(())
}

fn key_dtype(
    alloc: Global,
    name: &Text,
    left: Option<CellType>,
    right: Option<CellType>,
) -> Result<CellType, PlanFault>
    ensures { Answers PlanFault.Memory (join_key_dtype name.now left right) result }
{
    match (left, right) {
        (Some(CellType::Frac), Some(_)) => Err(PlanFault::WrongType(name.copy(alloc)?)),
        (Some(dtype), Some(other)) if dtype == other => Ok(dtype),
        (Some(_), Some(_)) => Err(PlanFault::WrongType(name.copy(alloc)?)),
        _ => Err(PlanFault::Expr(ExprFault::NoColumn(name.copy(alloc)?))),
    }
}
