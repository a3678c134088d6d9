//! Why a plan is refused.
ghost use Rattle.std.specs.Prelude.{◌≡◌};
ghost use Rattle.df_plan.specs.declared.fault.PlanFault.TheVariants.{Memory};

use df_expr::ExprFault;
use df_value::Text;
use std::alloc::{AllocError, AllocFailed};
use thiserror::Error;

/// Why a plan does not check.
#[derive(Debug, PartialEq, Eq, Drop, Error)]
pub enum PlanFault {
    /// No frame has this index.
    #[error("no frame {0}")]
    NoFrame(usize),
    /// An expression does not check, or a column is not there.
    #[error("{0}")]
    Expr(ExprFault),
    /// This name would stand twice among the columns of a result.
    #[error("a name stands twice: {0:?}")]
    DoubledName(Text),
    /// More than 3 scans.
    #[error("more than 3 scans")]
    TooManyScans,
    /// More than 12 levels.
    #[error("more than 12 levels")]
    TooDeep,
    /// A rolling window that is not of 1 to 65536 rows, or that wants fewer than 1 cell or more
    /// cells than it has rows.
    #[error("no such window")]
    BadWindow,
    /// A select without items, or a group-by without keys.
    #[error("an empty list")]
    EmptyList,
    /// A result of more than 32 columns.
    #[error("more than 32 columns")]
    TooWide,
    /// The expression of this output of a select names no column.
    #[error("no column in the expression of {0:?}")]
    ConstantColumn(Text),
    /// This column has a type that is not taken where it stands.
    #[error("a column of the wrong type: {0:?}")]
    WrongType(Text),
    #[error("out of memory")]
    Memory,
}

impl From<AllocError> for PlanFault {
    ghost from_gives = { λ _ e. e ≡ Memory };

    fn from(_e: AllocError) -> PlanFault {
        PlanFault::Memory
    }
}

impl<T: Drop> From<AllocFailed<T>> for PlanFault {
    ghost from_gives = { λ _ e. e ≡ Memory };

    fn from(_e: AllocFailed<T>) -> PlanFault {
        PlanFault::Memory
    }
}
