//! The aggregates of a group-by: what each is of, and which dtypes it takes and gives.
ghost use Rattle.std.specs.Prelude.{◌≡◌, option_map};
ghost use Rattle.df_ops.specs.AggregateDtypes as aggregate_dtypes;

use df_value::{CellType, Duplicate, Exact, Text};
use std::alloc::{AllocError, Global};

/// What is taken of the rows of a group. All but the length take the cells of a column.
#[derive(PartialEq, Eq)]
pub enum Agg {
    /// The number of rows, an Int.
    Len,
    /// The number of cells that are not null, an Int.
    Count(Text),
    /// The sum of an Int column's cells that are not null, or the number of trues of a Bool column:
    /// a Wide; 0 where there is none.
    Sum(Text),
    /// The least cell that is not null; null where there is none. Of every type but Frac.
    Min(Text),
    /// The greatest cell that is not null; null where there is none. Of every type but Frac.
    Max(Text),
    /// The first row's cell, a null one too.
    First(Text),
    /// The last row's cell, a null one too.
    Last(Text),
    /// The number of distinct cells, null being one: an Int. Of every type but Frac.
    NUnique(Text),
    /// The mean of an Int column's cells that are not null: a Frac, never reduced; null where there
    /// is none.
    Mean(Text),
}

// A body that owns one drops it by a call.
impl Drop for Agg {
    fn drop(self) {
        match self {
            Agg::Len => {}
            Agg::Count(column)
            | Agg::Sum(column)
            | Agg::Min(column)
            | Agg::Max(column)
            | Agg::First(column)
            | Agg::Last(column)
            | Agg::NUnique(column)
            | Agg::Mean(column) => drop(column),
        }
    }
}

impl Agg {
    /// The column that is taken; the length takes none.
    pub fn input_column(&self) -> Option<&Text>
        ensures { option_map (λ t. t.now) result ≡ aggregate_dtypes.input_column self.now }
    {
        match self {
            Agg::Len => None,
            Agg::Count(column) | Agg::Sum(column) | Agg::Min(column) | Agg::Max(column) => {
                Some(column)
            }
            Agg::First(column) | Agg::Last(column) | Agg::NUnique(column) | Agg::Mean(column) => {
                Some(column)
            }
        }
    }

    /// The type that is given of a column of this type; none where the aggregate does not take it.
    pub fn output_dtype(&self, dtype: CellType) -> Option<CellType>
        ensures { result ≡ aggregate_dtypes.output_dtype self.now dtype }
    {
        match (self, dtype) {
            (Agg::Len | Agg::Count(_), _) => Some(CellType::Int),
            (Agg::Sum(_), CellType::Int | CellType::Bool) => Some(CellType::Wide),
            (Agg::Mean(_), CellType::Int) => Some(CellType::Frac),
            (Agg::Sum(_) | Agg::Mean(_), _) => None,
            (Agg::First(_) | Agg::Last(_), dtype) => Some(dtype),
            (Agg::Min(_) | Agg::Max(_) | Agg::NUnique(_), CellType::Frac) => None,
            (Agg::Min(_) | Agg::Max(_), dtype) => Some(dtype),
            (Agg::NUnique(_), _) => Some(CellType::Int),
        }
    }
}

impl Exact for Agg {
    ghost use Rattle.std.proofs.Common.{rules};

    ghost decides = { Prim.search rules };
}

impl Duplicate for Agg {
    fn copy(&self, alloc: Global) -> Result<Agg, AllocError> {
        match self {
            Agg::Len => Ok(Agg::Len),
            Agg::Count(column) => Ok(Agg::Count(column.copy(alloc)?)),
            Agg::Sum(column) => Ok(Agg::Sum(column.copy(alloc)?)),
            Agg::Min(column) => Ok(Agg::Min(column.copy(alloc)?)),
            Agg::Max(column) => Ok(Agg::Max(column.copy(alloc)?)),
            Agg::First(column) => Ok(Agg::First(column.copy(alloc)?)),
            Agg::Last(column) => Ok(Agg::Last(column.copy(alloc)?)),
            Agg::NUnique(column) => Ok(Agg::NUnique(column.copy(alloc)?)),
            Agg::Mean(column) => Ok(Agg::Mean(column.copy(alloc)?)),
        }
    }
}
