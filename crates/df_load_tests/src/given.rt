//! What the tests are given: rows of one column `x`, and views of the first of two frames.
ghost use Rattle.std.specs.Prelude.{◌≡◌, IfOk, length};
ghost use Rattle.df_load_tests.specs.Pairs.{row_of};

use df_ops::Agg;
use df_plan::{CheckedPlan, Plan};
use df_value::{Boxed, Cell, CellType, Chunk, List, Row, Schema, Text};
use df_versions::{ChangeFault, Naming, Told};
use std::alloc::{AllocError, Global};
use std::test::Fail;

pub fn schema(alloc: Global) -> Result<Schema, AllocError> {
    let columns = vec![in alloc; (Text::from_str(alloc, "x")?, CellType::Int)]?;
    Schema::new(List::from_vec(columns)).map_err(|_| AllocError)
}

/// The schemas of two frames.
pub fn schemas(alloc: Global) -> Result<List<Schema>, AllocError>
    ensures { IfOk result (λ schemas. length schemas ≡ 2) }
{
    let schemas = vec![in alloc; schema(alloc)?, schema(alloc)?]?;
    Ok(List::from_vec(schemas))
}

/// The row whose cell is this number.
pub fn row(alloc: Global, number: u32) -> Result<Row, AllocError>
    ensures { IfOk result (λ row. row ≡ row_of number) }
{
    Row::new(alloc, vec![in alloc; Cell::Int(i64::from(number))]?)
}

/// A chunk of so many rows, each of which has its number as its cell.
pub fn chunk(alloc: Global, first: u32, count: u8) -> Result<Chunk, AllocError> {
    let mut rows = Vec::new(alloc);
    for at in 0..count {
        rows.push(row(alloc, first.wrapping_add(u32::from(at)))?)?;
    }
    Chunk::new(alloc, &schema(alloc)?, first, List::from_vec(rows)).map_err(|_| AllocError)
}

/// The groups of equal rows of the first frame, with how many rows each has.
pub fn groups(alloc: Global) -> Result<CheckedPlan, AllocError> {
    let keys = List::from_vec(vec![in alloc; Text::from_str(alloc, "x")?]?);
    let lens = List::from_vec(vec![in alloc; (Text::from_str(alloc, "n")?, Agg::Len)]?);
    let plan = Plan::GroupBy(Boxed::new(alloc, Plan::Scan(0))?, keys, lens);
    CheckedPlan::new(alloc, plan, schemas(alloc)?.as_slice()).map_err(|_| AllocError)
}

/// What the caller of an accepted change is told.
pub fn accepted<J: Naming>(answer: Result<Told<J>, ChangeFault<J>>) -> Result<Told<J>, Fail> {
    match answer {
        Ok(told) => Ok(told),
        Err(_) => Err("a change is accepted".into()),
    }
}
