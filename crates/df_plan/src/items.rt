//! The check of the items of a node's list: what column each gives.
ghost use Rattle.std.specs.Prelude.{◌≡◌};
ghost use Rattle.df_value.specs.Schemas as schemas;
ghost use Rattle.df_value.specs.Schemas.{column_dtype};
ghost use Rattle.df_value.specs.Outcomes.{Answers};
ghost use Rattle.df_plan.specs.ItemChecks as item_checks;
ghost use Rattle.df_plan.specs.ItemChecks.{ColumnResult, key_column_result, aggregate_column_result, select_column_result, with_columns_column_result, columns_after};

use crate::fault::PlanFault;
use df_expr::{Expr, ExprFault, check, names_column};
use df_ops::Agg;
use df_value::{CellType, Duplicate, List, Schema, Text};
use std::alloc::Global;

/// Columns before they are found to be a schema.
pub type Columns = List<(Text, CellType)>;

/// What a node wants of an item of its list.
pub trait ColumnOf<T> {
    /// The column that the item gives over an input of these columns.
    ghost column_of: { schemas.Columns → T → ColumnResult };

    /// The column that the item gives, or its first fault.
    fn column(alloc: Global, input: &Schema, item: &T) -> Result<(Text, CellType), PlanFault>
        ensures { Answers PlanFault.Memory (column_of input.now item.now) result };
}

/// The keys of a group-by.
pub struct Keys;

/// The outputs of a group-by.
pub struct Aggregates;

/// The items of a select.
pub struct Outputs;

/// The items of a with_columns.
pub struct Added;

impl ColumnOf<Text> for Keys {
    ghost column_of = { key_column_result };

    fn column(alloc: Global, input: &Schema, name: &Text) -> Result<(Text, CellType), PlanFault> {
        let dtype = key_dtype(alloc, input, name)?;
        Ok((name.copy(alloc)?, dtype))
    }
}

impl ColumnOf<(Text, Agg)> for Aggregates {
    ghost column_of = { aggregate_column_result };

    fn column(
        alloc: Global,
        input: &Schema,
        item: &(Text, Agg),
    ) -> Result<(Text, CellType), PlanFault> {
        let dtype = aggregate_dtype_check(alloc, input, &item.1)?;
        Ok((item.0.copy(alloc)?, dtype))
    }
}

impl ColumnOf<(Text, Expr)> for Outputs {
    ghost column_of = { select_column_result };

    #[tactic(auto, unfolding(crate::specs::ItemChecks::select_dtype_check))]
    fn column(
        alloc: Global,
        input: &Schema,
        item: &(Text, Expr),
    ) -> Result<(Text, CellType), PlanFault> {
        let dtype = expr_dtype_check(alloc, input, &item.1)?;
        if !names_column(&item.1) {
            return Err(PlanFault::ConstantColumn(item.0.copy(alloc)?));
        }
        Ok((item.0.copy(alloc)?, dtype))
    }
}

impl ColumnOf<(Text, Expr)> for Added {
    ghost column_of = { with_columns_column_result };

    fn column(
        alloc: Global,
        input: &Schema,
        item: &(Text, Expr),
    ) -> Result<(Text, CellType), PlanFault> {
        let dtype = expr_dtype_check(alloc, input, &item.1)?;
        Ok((item.0.copy(alloc)?, dtype))
    }
}

/// The columns that are made already, and after them that of each item; or the first item's fault.
pub fn check_each<T, N: ColumnOf<T>>(
    alloc: Global,
    input: &Schema,
    out: Columns,
    items: &[T],
) -> Result<Columns, PlanFault>
    ensures { Answers PlanFault.Memory
        (columns_after (N.column_of input.now) out items.now) result }
{
    let mut out = out.into_vec();
    for item in items {
        out.push(N::column(alloc, input, item)?)?;
    }
    Ok(List::from_vec(out))
}

/// The type of a key's column, which must be there and not Frac.
pub fn key_dtype(alloc: Global, input: &Schema, name: &Text) -> Result<CellType, PlanFault>
    ensures { Answers PlanFault.Memory
        (item_checks.key_dtype name.now (column_dtype name.now input.now)) result }
{
    match input.dtype_of(name) {
        Some(CellType::Frac) => Err(PlanFault::WrongType(name.copy(alloc)?)),
        Some(dtype) => Ok(dtype),
        None => Err(PlanFault::Expr(ExprFault::NoColumn(name.copy(alloc)?))),
    }
}

fn aggregate_dtype_check(alloc: Global, input: &Schema, agg: &Agg) -> Result<CellType, PlanFault>
    ensures { Answers PlanFault.Memory
        (item_checks.aggregate_dtype_check input.now agg.now) result }
{
    let Some(name) = agg.input_column() else {
        return Ok(CellType::Int);
    };
    match input.dtype_of(name) {
        Some(dtype) => accepted_dtype(alloc, name, agg.output_dtype(dtype)),
        None => Err(PlanFault::Expr(ExprFault::NoColumn(name.copy(alloc)?))),
    }
}

fn accepted_dtype(
    alloc: Global,
    name: &Text,
    given: Option<CellType>,
) -> Result<CellType, PlanFault>
    ensures { Answers PlanFault.Memory (item_checks.accepted_dtype name.now given) result }
{
    match given {
        Some(dtype) => Ok(dtype),
        None => Err(PlanFault::WrongType(name.copy(alloc)?)),
    }
}

/// The type of an expression in a plan.
#[tactic(auto, unfolding(crate::specs::ItemChecks::expr_dtype_check))]
pub fn expr_dtype_check(alloc: Global, input: &Schema, expr: &Expr) -> Result<CellType, PlanFault>
    ensures { Answers PlanFault.Memory (item_checks.expr_dtype_check expr.now input.now) result }
{
    match check(alloc, expr, input) {
        Ok(dtype) => Ok(dtype),
        Err(ExprFault::Memory) => Err(PlanFault::Memory),
        Err(fault) => Err(PlanFault::Expr(fault)),
    }
}
