//! Why a service is not built, opened or closed, and why it refuses a change.
ghost use Rattle.std.specs.Prelude.{◌≡◌};
ghost use Rattle.df_value.specs.declared.chunk.ChunkFault.TheVariants as chunk_fault;
ghost use Rattle.df_versions.specs.declared.fault.OpenFault.TheVariants as open_fault;
ghost use Rattle.dataframes.specs.Faults as faults;
ghost use Rattle.dataframes.specs.declared.fault.FinishFault.TheVariants as finish_fault;
ghost use Rattle.dataframes.specs.declared.fault.ServiceFault.TheVariants as service_fault;

use crate::csv_rows::LinesFault;
use df_catalogue::CatalogueFault;
use df_csv::CsvFault;
use df_plan::PlanFault;
use df_value::{ChunkFault, SchemaFault};
use df_versions::{ChangeFault, Naming, OpenFault};
use std::alloc::{AllocError, AllocFailed};
use std::fmt;

/// Why a change is not made. The frames, the views and the books are then as they were.
#[derive(Drop)]
pub enum ServiceFault<J: Naming> {
    /// No frame has this index.
    NoFrame,
    /// The lines of CSV are no rows of the frame.
    Lines(LinesFault),
    /// The rows are no chunk of the frame behind the rows that it accepted.
    Rows(ChunkFault),
    /// The service was opened with the view, which stays.
    FixedView,
    /// The hall refuses the change, or has no version or no memory for it.
    Refused(ChangeFault<J>),
}

impl<J: Naming> ServiceFault<J> {
    /// Whether memory was refused, and nothing else: the same change may be made later.
    pub fn is_memory(&self) -> bool
        ensures { result ≡ faults.is_memory self.now }
    {
        match self {
            ServiceFault::Lines(LinesFault::Csv(CsvFault::Memory)) => true,
            ServiceFault::Rows(ChunkFault::Memory) => true,
            ServiceFault::Refused(ChangeFault::Memory) => true,
            _ => false,
        }
    }
}

impl<J: Naming> From<AllocError> for ServiceFault<J> {
    ghost from_gives = { λ _ e. e ≡ service_fault.Rows chunk_fault.Memory };

    fn from(_e: AllocError) -> ServiceFault<J> {
        ServiceFault::Rows(ChunkFault::Memory)
    }
}

impl<J: Naming, T: Drop> From<AllocFailed<T>> for ServiceFault<J> {
    ghost from_gives = { λ _ e. e ≡ service_fault.Rows chunk_fault.Memory };

    fn from(_e: AllocFailed<T>) -> ServiceFault<J> {
        ServiceFault::Rows(ChunkFault::Memory)
    }
}

impl<J: Naming> From<LinesFault> for ServiceFault<J> {
    ghost from_gives = { λ fault e. e ≡ service_fault.Lines fault };

    fn from(fault: LinesFault) -> ServiceFault<J> {
        ServiceFault::Lines(fault)
    }
}

impl<J: Naming> From<CsvFault> for ServiceFault<J> {
    ghost use Rattle.dataframes.specs.declared.csv_rows.LinesFault.TheVariants as lines_fault;

    ghost from_gives = { λ fault e. e ≡ service_fault.Lines (lines_fault.Csv fault) };

    fn from(fault: CsvFault) -> ServiceFault<J> {
        ServiceFault::Lines(LinesFault::Csv(fault))
    }
}

impl<J: Naming> fmt::Display for ServiceFault<J> {
    fn fmt<O: fmt::Write>(&self, f: &mut fmt::Formatter<O>) -> fmt::Result {
        match self {
            ServiceFault::NoFrame => write!(f, "no such frame"),
            ServiceFault::Lines(fault) => write!(f, "{fault}"),
            ServiceFault::Rows(fault) => write!(f, "{fault}"),
            ServiceFault::FixedView => write!(f, "the service was opened with this view"),
            ServiceFault::Refused(ChangeFault::Refused(fault, _)) => write!(f, "{fault}"),
            ServiceFault::Refused(ChangeFault::Memory) => write!(f, "out of memory"),
            ServiceFault::Refused(ChangeFault::Spent) => write!(f, "no further version"),
            ServiceFault::Refused(ChangeFault::Ahead) => write!(f, "another history was told"),
        }
    }
}

/// Why there are no totals of a service.
#[derive(PartialEq, Eq, Drop)]
pub enum FinishFault {
    /// The columns of a frame are no schema.
    Frame(SchemaFault),
    /// The plan of a view does not check over the frames.
    Plan(PlanFault),
    /// The hall was not opened, and nothing was run.
    Open(OpenFault),
    /// The hall refuses a view, and nothing was run.
    View(CatalogueFault),
    /// The hall has no version for a view, and nothing was run.
    Unready,
    /// The least frame of which the service counted other rows than its books.
    Missing(usize),
}

impl From<AllocError> for FinishFault {
    ghost from_gives = { λ _ e. e ≡ finish_fault.Open open_fault.Memory };

    fn from(_e: AllocError) -> FinishFault {
        FinishFault::Open(OpenFault::Memory)
    }
}

impl<T: Drop> From<AllocFailed<T>> for FinishFault {
    ghost from_gives = { λ _ e. e ≡ finish_fault.Open open_fault.Memory };

    fn from(_e: AllocFailed<T>) -> FinishFault {
        FinishFault::Open(OpenFault::Memory)
    }
}

/// What a program prints whose `main` ends with it.
impl fmt::Debug for FinishFault {
    fn fmt<O: fmt::Write>(&self, f: &mut fmt::Formatter<O>) -> fmt::Result {
        match self {
            FinishFault::Frame(fault) => write!(f, "a frame: {fault}"),
            FinishFault::Plan(fault) => write!(f, "the plan of a view: {fault}"),
            FinishFault::Open(OpenFault::TooManyFrames) => write!(f, "more than 8 frames"),
            FinishFault::Open(OpenFault::DerivedType(frame)) => {
                write!(f, "frame {frame} has a derived type")
            }
            FinishFault::Open(OpenFault::TooManyReaders) => write!(f, "more than 16 watchers"),
            FinishFault::Open(OpenFault::Memory) => write!(f, "out of memory"),
            FinishFault::View(fault) => write!(f, "a view: {fault}"),
            FinishFault::Unready => write!(f, "no version for a view"),
            FinishFault::Missing(frame) => write!(f, "frame {frame} has other books than its desk"),
        }
    }
}
