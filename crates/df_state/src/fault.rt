//! Why a catalogue refuses.
ghost use Rattle.std.specs.Prelude.{◌≡◌};
ghost use Rattle.df_state.specs.declared.fault.CatalogueFault.TheVariants as catalogue_fault;
ghost use Rattle.df_state.specs.declared.fault.NewFault.TheVariants as new_fault;

use std::alloc::{AllocError, AllocFailed};
use thiserror::Error;

/// Why a call of a catalogue is refused. What the catalogue holds is then as it was.
#[derive(Clone, Copy, Debug, PartialEq, Eq, Drop, Error)]
pub enum CatalogueFault {
    /// The chunk's schema is not the frame's.
    #[error("C1 another schema")]
    SchemaUnlike,
    /// The least number of the chunk that the frame accepted before, perhaps of a row that was
    /// deleted.
    #[error("C2 number {0} was accepted before")]
    Taken(u32),
    /// With the chunk more than 1,048,576 numbers would have been accepted by the frame.
    #[error("C3 more than 1048576 rows accepted")]
    Full,
    /// The first number that stands earlier in the list.
    #[error("C4 number {0} stands twice")]
    Doubled(u32),
    /// The first number of the list of which the frame has no row.
    #[error("C5 no row {0}")]
    NotLive(u32),
    /// A view has this name.
    #[error("C6 a view of this name")]
    ViewExists,
    /// There are 32 views.
    #[error("C7 more than 32 views")]
    TooManyViews,
    /// No view has this name.
    #[error("C8 no such view")]
    NoView,
    /// Memory was refused. It comes last, where nothing else refuses the call.
    #[error("C9 out of memory")]
    Memory,
    /// The plan was not checked over the schemas of the catalogue's frames.
    #[error("C10 a plan over other frames")]
    PlanUnlike,
    /// No frame has this index.
    #[error("C11 no such frame")]
    NoFrame,
}

/// Why a catalogue is not made.
#[derive(Clone, Copy, Debug, PartialEq, Eq, Drop, Error)]
pub enum NewFault {
    /// More than 8 frames.
    #[error("N1 more than 8 frames")]
    TooManyFrames,
    /// The least index of a frame that has a column of another type than Int, Text and Bool.
    #[error("N2 frame {0} has a derived type")]
    DerivedType(usize),
    /// Memory was refused.
    #[error("N3 out of memory")]
    Memory,
}

impl From<AllocError> for CatalogueFault {
    ghost from_gives = { λ _ e. e ≡ catalogue_fault.Memory };

    fn from(_e: AllocError) -> CatalogueFault {
        CatalogueFault::Memory
    }
}

impl<T: Drop> From<AllocFailed<T>> for CatalogueFault {
    ghost from_gives = { λ _ e. e ≡ catalogue_fault.Memory };

    fn from(_e: AllocFailed<T>) -> CatalogueFault {
        CatalogueFault::Memory
    }
}

impl From<AllocError> for NewFault {
    ghost from_gives = { λ _ e. e ≡ new_fault.Memory };

    fn from(_e: AllocError) -> NewFault {
        NewFault::Memory
    }
}

impl<T: Drop> From<AllocFailed<T>> for NewFault {
    ghost from_gives = { λ _ e. e ≡ new_fault.Memory };

    fn from(_e: AllocFailed<T>) -> NewFault {
        NewFault::Memory
    }
}
