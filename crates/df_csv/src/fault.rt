//! Why a CSV file gives no records.
ghost use Rattle.std.specs.Prelude.{◌≡◌};
ghost use Rattle.df_csv.specs.declared.fault.CsvFault.TheVariants.{Memory};

use df_value::Text;
use std::alloc::{AllocError, AllocFailed};
use thiserror::Error;

/// What is wrong with a CSV file, or that there was no memory to read it.
#[derive(Debug, PartialEq, Eq, Drop, Error)]
pub enum CsvFault {
    /// A read failed.
    #[error("a read failed")]
    ReadFault,
    /// More than 67,108,864 bytes.
    #[error("more than 67108864 bytes")]
    TooLarge,
    /// Bytes that are not UTF-8.
    #[error("not UTF-8")]
    NotText,
    /// The first column of the schema whose name stands twice in the header.
    #[error("a name stands twice in the header: {0:?}")]
    DoubledHeader(Text),
    /// The first column of the schema whose name does not stand in the header.
    #[error("no column {0:?} in the header")]
    MissingColumn(Text),
    /// The number of the first record, from 1, that has another number of fields than the header.
    #[error("record {0} is not as long as the header")]
    BadRecord(u64),
    /// More than 1,048,576 records.
    #[error("more than 1048576 records")]
    TooManyRecords,
    #[error("out of memory")]
    Memory,
}

impl From<AllocError> for CsvFault {
    ghost from_gives = { λ _ e. e ≡ Memory };

    fn from(_e: AllocError) -> CsvFault {
        CsvFault::Memory
    }
}

impl<T: Drop> From<AllocFailed<T>> for CsvFault {
    ghost from_gives = { λ _ e. e ≡ Memory };

    fn from(_e: AllocFailed<T>) -> CsvFault {
        CsvFault::Memory
    }
}
