//! What the tests are given: schemas, rows and chunks of one column `x`, and a plan.
ghost use Rattle.std.specs.Prelude.{◌≡◌, ◌∷◌, [], IfOk};

use df_plan::{CheckedPlan, Plan};
use df_value::{Cell, CellType, Chunk, List, Row, Schema, Text};
use std::alloc::{AllocError, Global};

pub fn schema(alloc: Global, kind: CellType) -> Result<Schema, AllocError>
    ensures { IfOk result (λ s. s ≡ ((120 ∷ []), kind) ∷ []) }
{
    let columns = vec![in alloc; (Text::from_str(alloc, "x")?, kind)]?;
    Schema::new(List::from_vec(columns)).map_err(|_| AllocError)
}

/// A schema of whole numbers under these names.
pub fn columns(alloc: Global, names: &[&str]) -> Result<Schema, AllocError> {
    let mut columns = Vec::with_capacity(alloc, names.len())?;
    for name in names {
        columns.push((Text::from_str(alloc, *name)?, CellType::Int))?;
    }
    Schema::new(List::from_vec(columns)).map_err(|_| AllocError)
}

/// A schema with a column of each of these types.
pub fn schemas(alloc: Global, kinds: &[CellType]) -> Result<List<Schema>, AllocError> {
    let mut schemas = Vec::with_capacity(alloc, kinds.len())?;
    for kind in kinds {
        schemas.push(schema(alloc, *kind)?)?;
    }
    Ok(List::from_vec(schemas))
}

/// The plan of the first frame itself, over frames with a column of these types.
pub fn scan(alloc: Global, kinds: &[CellType]) -> Result<CheckedPlan, AllocError> {
    let frames = schemas(alloc, kinds)?;
    CheckedPlan::new(alloc, Plan::Scan(0), frames.as_slice()).map_err(|_| AllocError)
}

/// A row of this number, or null.
pub fn row(alloc: Global, number: Option<i64>) -> Result<Row, AllocError> {
    let cell = match number {
        Some(number) => Cell::Int(number),
        None => Cell::Null,
    };
    Row::new(alloc, vec![in alloc; cell]?)
}

/// Rows of these numbers, or null.
pub fn rows(alloc: Global, numbers: &[Option<i64>]) -> Result<List<Row>, AllocError> {
    let mut rows = Vec::with_capacity(alloc, numbers.len())?;
    for number in numbers {
        rows.push(row(alloc, *number)?)?;
    }
    Ok(List::from_vec(rows))
}

/// A chunk of rows of these numbers.
pub fn chunk(alloc: Global, first: u32, numbers: &[Option<i64>]) -> Result<Chunk, AllocError> {
    let schema = schema(alloc, CellType::Int)?;
    Chunk::new(alloc, &schema, first, rows(alloc, numbers)?).map_err(|_| AllocError)
}
