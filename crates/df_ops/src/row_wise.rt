//! Operators that look at one row at a time: filter, select, with_columns.
ghost use Rattle.std.specs.Prelude.{ℕ, List, ◌≡◌, ◌+◌, ◌<◌, ◌^◌, ◌++◌, ◌∷◌, [], true, IfOk, IsTrue, OnErr, OnOk, length, map};
ghost use Rattle.df_value.specs.declared.cell.Cell.TheVariants as cell;
ghost use Rattle.df_value.specs.CellRefs.{cell_of_ref};
ghost use Rattle.df_value.specs.Rows.{row_fits, rows_fit};
ghost use Rattle.df_value.specs.Schemas.{Columns};
ghost use Rattle.df_expr.specs.declared.expr.Expr.{Expr as AnyExpr};
ghost use Rattle.df_expr.specs.declared.expr.Expr.TheVariants as expr;
ghost use Rattle.df_expr.specs.Meters.{with_evals, CountsAtMost};
ghost use Rattle.df_expr.specs.Physical.{physical_value, IsPhysical};
ghost use Rattle.df_expr.specs.Value.{value_of};
ghost use Rattle.df_ops.specs.Tables as tables;
ghost use Rattle.df_ops.specs.TableColumns.{AppendsNewNames, HasItemValues, KeepsOtherColumns, KeepsOtherDtypes};
ghost use Rattle.df_ops.specs.RowWise as row_wise;
ghost use Rattle.df_ops.specs.RowWise.{item_column, ArePhysical, KeepsOthers};
ghost use Rattle.df_ops.specs.Places as places_spec;
ghost use Rattle.df_ops.specs.Places.{placed_cell};

use crate::named_columns::with_columns;
use crate::places::{Place, placed_row, places_of};
use crate::plain_table::{PlainTable, table_from};
use df_expr::{Expr, Meter, PhysicalExpr};
use df_value::{CellRef, CellType, Duplicate, List, Row, Text, column_dtype, push_made, then_drop};
use std::alloc::{AllocError, Global};

/// The table with the rows whose predicate is true.
#[tactic(auto, unfolding(crate::specs::Tables::filter_table))]
pub fn filter_table(
    alloc: Global,
    table: &PlainTable,
    predicate: &Expr,
) -> Result<PlainTable, AllocError>
    ensures { IfOk result (λ t. t ≡ tables.filter_table table.now predicate.now) }
{
    let rows = filter_rows(
        alloc,
        table.columns.as_slice(),
        predicate,
        table.rows.as_slice(),
    );
    table_from(table.columns.copy(alloc), rows)
}

/// Copies of the rows whose predicate is true, in their order; a predicate that is null drops its
/// row.
#[tactic(auto, using(crate::proofs::RowWiseLaws::filtered_twice))]
pub fn filter_rows(
    alloc: Global,
    columns: &[(Text, CellType)],
    predicate: &Expr,
    rows: &[Row],
) -> Result<List<Row>, AllocError>
    ensures value { IfOk result
        (λ kept. kept ≡ row_wise.filter_rows columns.now predicate.now rows.now) }

    // Filtering again is filtering by both.
    ensures twice { (again : AnyExpr)
        → row_wise.filter_rows columns.now again
        (row_wise.filter_rows columns.now predicate.now rows.now)
        ≡ row_wise.filter_rows columns.now (expr.And predicate.now again) rows.now }

    // Exactly the rows whose value is true are kept, in their order.
    ensures exactly { row_wise.IsFilter
        (λ row. value_of predicate.now columns.now row ≡ cell.Bool true)
        (row_wise.filter_rows columns.now predicate.now) }
{
    kept_rows(alloc, columns, predicate, rows)
}

fn kept_rows(
    alloc: Global,
    columns: &[(Text, CellType)],
    predicate: &Expr,
    rows: &[Row],
) -> Result<List<Row>, AllocError>
    ensures { IfOk result
        (λ kept. kept ≡ row_wise.filter_rows columns.now predicate.now rows.now) }
{
    let physical = PhysicalExpr::new(alloc, predicate, columns)?;
    let mut meter = Meter::new();
    let mut kept = Vec::new(alloc);
    for row in rows {
        keep(alloc, &mut kept, &physical, row, &mut meter)?;
    }
    Ok(List::from_vec(kept))
}

// Adds a copy of the row, if its predicate is true.
fn keep(
    alloc: Global,
    kept: &mut Vec<Row>,
    predicate: &PhysicalExpr,
    row: &Row,
    meter: &mut Meter,
) -> Result<(), AllocError>
    requires { meter.old.evals + 1 < 2 ^ 128 }
    ensures value { (columns : Columns) (of : AnyExpr) → IsPhysical of columns predicate.now
        → OnOk result
        (kept.new.items ≡ kept.old.items ++ row_wise.filter_rows columns of (row.now ∷ [])) }
    ensures counted { meter.new ≡ with_evals 1 meter.old }
{
    if keeps(predicate, row, meter) {
        kept.push(row.copy(alloc)?)?;
    }
    Ok(())
}

/// Whether a filter keeps a row: its predicate is true. Counts one evaluation.
pub fn keeps(predicate: &PhysicalExpr, row: &Row, meter: &mut Meter) -> bool
    requires { meter.old.evals + 1 < 2 ^ 128 }
    ensures physical { result ≡ row_wise.is_true (physical_value predicate.now row.now) }
    ensures value { (columns : Columns) (of : AnyExpr) → IsPhysical of columns predicate.now
        → result ≡ row_wise.keeps columns of row.now }
    ensures counted { meter.new ≡ with_evals 1 meter.old }
{
    is_true(predicate.eval(row, meter))
}

fn is_true(cell: CellRef<'_>) -> bool
    ensures { result ≡ row_wise.is_true (cell_of_ref cell.entry) }
{
    match cell {
        CellRef::Bool(truth) => truth,
        _ => false,
    }
}

/// The table of the items' values.
pub fn select_table(
    alloc: Global,
    table: &PlainTable,
    items: &[(Text, Expr)],
) -> Result<PlainTable, AllocError>
    ensures value { IfOk result (λ t. t ≡ tables.select_table table.now items.now) }
    ensures items { IfOk result (HasItemValues table.now items.now) }
{
    table_of_items(alloc, table, items)
}

#[tactic(auto, unfolding(crate::specs::Tables::select_table))]
fn table_of_items(
    alloc: Global,
    table: &PlainTable,
    items: &[(Text, Expr)],
) -> Result<PlainTable, AllocError>
    ensures { IfOk result (λ t. t ≡ tables.select_table table.now items.now) }
{
    let columns = table.columns.as_slice();
    let rows = selected_rows(alloc, columns, items, table.rows.as_slice());
    table_from(item_columns(alloc, columns, items), rows)
}

fn selected_rows(
    alloc: Global,
    columns: &[(Text, CellType)],
    items: &[(Text, Expr)],
    rows: &[Row],
) -> Result<List<Row>, AllocError>
    ensures { IfOk result
        (λ selected. selected ≡ map (row_wise.select_row columns.now items.now) rows.now) }
{
    let physical = physical_items(alloc, columns, items)?;
    let mut meter = Meter::new();
    let mut selected = Vec::with_capacity(alloc, rows.len())?;
    for row in rows {
        let made = select_row(alloc, physical.as_slice(), row, &mut meter);
        push_made(&mut selected, made)?;
    }
    Ok(List::from_vec(selected))
}

/// The items' expressions over the rows of a table with these columns.
pub fn physical_items(
    alloc: Global,
    columns: &[(Text, CellType)],
    items: &[(Text, Expr)],
) -> Result<Vec<PhysicalExpr>, AllocError>
    ensures { IfOk result (λ made. ArePhysical columns.now items.now made.items) }
{
    let mut made = Vec::with_capacity(alloc, items.len())?;
    for item in items {
        push_made(&mut made, PhysicalExpr::new(alloc, &item.1, columns))?;
    }
    Ok(made)
}

/// The items' values in a row. Counts one evaluation for each item.
pub fn select_row(
    alloc: Global,
    items: &[PhysicalExpr],
    row: &Row,
    meter: &mut Meter,
) -> Result<Row, AllocError>
    requires { meter.old.evals + length items.now < 2 ^ 128 }
    ensures value { (columns : Columns) (of : List (List ℕ × AnyExpr))
        → ArePhysical columns of items.now
        → IfOk result (λ r. r ≡ row_wise.select_row columns of row.now) }
    ensures physical { IfOk result (λ r. r ≡ map (λ p. physical_value p row.now) items.now) }
    ensures cells { IfOk result (λ r. length r ≡ length items.now) }
    ensures counted { OnOk result (meter.new ≡ with_evals (length items.now) meter.old) }
    ensures at_most { OnErr result (CountsAtMost (length items.now) meter.old meter.new) }
{
    item_values(alloc, items, row, meter)
}

fn item_values(
    alloc: Global,
    items: &[PhysicalExpr],
    row: &Row,
    meter: &mut Meter,
) -> Result<Row, AllocError>
    requires { meter.old.evals + length items.now < 2 ^ 128 }
    ensures value { IfOk result (λ r. r ≡ map (λ p. physical_value p row.now) items.now) }
    ensures counted { OnOk result (meter.new ≡ with_evals (length items.now) meter.old) }
    ensures at_most { OnErr result (CountsAtMost (length items.now) meter.old meter.new) }
{
    let mut cells = Vec::with_capacity(alloc, items.len())?;
    for item in items {
        push_made(&mut cells, item.eval(row, meter).to_cell(alloc))?;
    }
    Row::new(alloc, cells)
}

/// The table with the items' columns put among its own.
pub fn with_columns_table(
    alloc: Global,
    table: &PlainTable,
    items: &[(Text, Expr)],
) -> Result<PlainTable, AllocError>
    ensures value { IfOk result (λ t. t ≡ tables.with_columns_table table.now items.now) }
    ensures names { IfOk result (AppendsNewNames table.now items.now) }
    ensures dtypes { IfOk result (KeepsOtherDtypes table.now items.now) }

    // Over rows that fit, the items' columns have their values, and the others are as they were.
    ensures items { IsTrue (rows_fit table.now.columns table.now.rows)
        → IfOk result (HasItemValues table.now items.now) }
    ensures others { IsTrue (rows_fit table.now.columns table.now.rows)
        → IfOk result (KeepsOtherColumns table.now items.now) }
{
    table_with_items(alloc, table, items)
}

#[tactic(auto, unfolding(crate::specs::Tables::with_columns_table))]
fn table_with_items(
    alloc: Global,
    table: &PlainTable,
    items: &[(Text, Expr)],
) -> Result<PlainTable, AllocError>
    ensures { IfOk result (λ t. t ≡ tables.with_columns_table table.now items.now) }
{
    let columns = table.columns.as_slice();
    let rows = added_rows(alloc, columns, items, table.rows.as_slice());
    table_from(with_columns_schema(alloc, columns, items), rows)
}

// The columns with the items' columns put among them.
fn with_columns_schema(
    alloc: Global,
    columns: &[(Text, CellType)],
    items: &[(Text, Expr)],
) -> Result<List<(Text, CellType)>, AllocError>
    ensures { IfOk result (λ cs. cs ≡ row_wise.with_columns_schema columns.now items.now) }
{
    let added = item_columns(alloc, columns, items)?;
    with_columns(alloc, columns, added.as_slice())
}

fn added_rows(
    alloc: Global,
    columns: &[(Text, CellType)],
    items: &[(Text, Expr)],
    rows: &[Row],
) -> Result<List<Row>, AllocError>
    ensures { IfOk result
        (λ added. added ≡ map (row_wise.with_columns_row columns.now items.now) rows.now) }
{
    let physical = physical_items(alloc, columns, items)?;
    let places = places_of(alloc, columns, items)?;
    let mut meter = Meter::new();
    let mut added = Vec::with_capacity(alloc, rows.len())?;
    for row in rows {
        let places = places.as_slice();
        let made = with_columns_row(alloc, places, physical.as_slice(), row, &mut meter);
        push_made(&mut added, made)?;
    }
    Ok(List::from_vec(added))
}

/// The row with the items' values put among its cells: each in the place of the column of its name,
/// and at the end where no column has it. Counts one evaluation for each item.
pub fn with_columns_row(
    alloc: Global,
    places: &[Place],
    items: &[PhysicalExpr],
    row: &Row,
    meter: &mut Meter,
) -> Result<Row, AllocError>
    requires { meter.old.evals + length items.now < 2 ^ 128 }
    ensures value { (columns : Columns) (of : List (List ℕ × AnyExpr))
        → ArePhysical columns of items.now → places.now ≡ places_spec.places_of columns of
        → IfOk result (λ r. r ≡ row_wise.with_columns_row columns of row.now) }

    ensures physical { IfOk result (λ r. r
        ≡ map (placed_cell row.now (map (λ p. physical_value p row.now) items.now)) places.now) }

    // The columns that no item names keep their cells.
    ensures others { (columns : Columns) (of : List (List ℕ × AnyExpr))
        → ArePhysical columns of items.now → places.now ≡ places_spec.places_of columns of
        → IsTrue (row_fits columns row.now) → IfOk result (KeepsOthers columns of row.now) }
    ensures counted { OnOk result (meter.new ≡ with_evals (length items.now) meter.old) }
    ensures at_most { OnErr result (CountsAtMost (length items.now) meter.old meter.new) }
{
    put_values(alloc, places, items, row, meter)
}

fn put_values(
    alloc: Global,
    places: &[Place],
    items: &[PhysicalExpr],
    row: &Row,
    meter: &mut Meter,
) -> Result<Row, AllocError>
    requires { meter.old.evals + length items.now < 2 ^ 128 }
    ensures value { IfOk result (λ r. r
        ≡ map (placed_cell row.now (map (λ p. physical_value p row.now) items.now)) places.now) }
    ensures counted { OnOk result (meter.new ≡ with_evals (length items.now) meter.old) }
    ensures at_most { OnErr result (CountsAtMost (length items.now) meter.old meter.new) }
{
    let added = item_values(alloc, items, row, meter)?;
    then_drop(
        placed_row(alloc, places, row.as_slice(), added.as_slice()),
        added,
    )
}

fn item_columns(
    alloc: Global,
    columns: &[(Text, CellType)],
    items: &[(Text, Expr)],
) -> Result<List<(Text, CellType)>, AllocError>
    ensures { IfOk result (λ cs. cs ≡ map (item_column columns.now) items.now) }
{
    let mut out = Vec::with_capacity(alloc, items.len())?;
    for item in items {
        out.push((item.0.copy(alloc)?, expr_dtype(&item.1, columns)))?;
    }
    Ok(List::from_vec(out))
}

// The type that an expression has if it checks.
fn expr_dtype(expr: &Expr, columns: &[(Text, CellType)]) -> CellType
    ensures { result ≡ row_wise.expr_dtype expr.now columns.now }
{
    match expr {
        Expr::Column(name) => column_dtype(name, columns).unwrap_or(CellType::Int),
        Expr::Literal(_, dtype) => *dtype,
        Expr::Arith(_, _, _) => CellType::Int,
        Expr::FillNull(a, _) => expr_dtype(a.get(), columns),
        _ => CellType::Bool,
    }
}
