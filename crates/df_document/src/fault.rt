//! Why a document does not open.
ghost use Rattle.std.specs.Prelude.{◌≡◌};
ghost use Rattle.df_document.specs.declared.fault.DocumentFault.TheVariants.{Memory as OutOfMemory};

use df_plan::PlanFault;
use df_text::{CsvFault, ViewsFault};
use df_value::Text;
use std::alloc::{AllocError, AllocFailed};
use thiserror::Error;

/// Why a document does not open. Each name that the fault's text prints is kept here.
#[derive(Debug, PartialEq, Eq, Drop, Error)]
pub enum DocumentFault {
    /// A read of the document failed.
    #[error("the document cannot be read")]
    ReadFault,
    /// The document has more than 1,048,576 bytes.
    #[error("the document has more than 1048576 bytes")]
    TooLarge,
    /// The bytes are no view document.
    #[error("{0}")]
    Views(ViewsFault),
    /// The plan of the view of this name does not check.
    #[error("view {0:?}: {1}")]
    Plan(Text, PlanFault),
    /// The CSV of the frame of this name cannot be read.
    #[error("frame {0:?}: {1}")]
    Csv(Text, CsvFault),
    /// Memory was refused.
    #[error("out of memory")]
    Memory,
}

impl From<AllocError> for DocumentFault {
    ghost from_gives = { λ _ e. e ≡ OutOfMemory };

    fn from(_e: AllocError) -> DocumentFault {
        DocumentFault::Memory
    }
}

impl<T: Drop> From<AllocFailed<T>> for DocumentFault {
    ghost from_gives = { λ _ e. e ≡ OutOfMemory };

    fn from(_e: AllocFailed<T>) -> DocumentFault {
        DocumentFault::Memory
    }
}
