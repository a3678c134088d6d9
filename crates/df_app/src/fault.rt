//! Why a run fails.
ghost use Rattle.std.specs.Prelude.{◌≡◌, IfOk, Some, length};
ghost use Rattle.df_store.specs.Faults.{IsOfFrames};
ghost use Rattle.df_app.specs.Faults.{named_cause_of, run_fault_of};
ghost use Rattle.df_app.specs.declared.fault.RunFault.TheVariants.{Memory as OutOfMemory};

use df_catalogue::CatalogueFault;
use df_document::DocumentFault;
use df_store::LoadCause;
use df_text::FrameSpec;
use df_value::{Duplicate, Text};
use std::alloc::{AllocError, AllocFailed, Global};
use thiserror::Error;

/// Why a run fails. Each name that the fault's text prints is kept here.
#[derive(Debug, PartialEq, Eq, Drop, Error)]
pub enum RunFault {
    /// The document does not open, for another cause than memory.
    #[error("{0}")]
    Document(DocumentFault),
    /// The frames were read and could not be loaded, for another cause than memory. No clause says
    /// that it never comes.
    #[error("{0}")]
    Load(NamedLoadCause),
    /// A write failed, or took no byte. A prefix of the output was written.
    #[error("the output cannot be written")]
    Write,
    /// Memory was refused.
    #[error("out of memory")]
    Memory,
}

/// Why frames that were read are not loaded, for another cause than memory: a [`LoadCause`] that has a frame's name in the
/// place of its index.
#[derive(Debug, PartialEq, Eq, Drop, Error)]
pub enum NamedLoadCause {
    /// The registration of a view is refused.
    #[error("L7 {0}")]
    Refused(CatalogueFault),
    /// 2^64 - 1 versions were published.
    #[error("L6 no further version")]
    Spent,
    /// A worker was told of a later version than the newest one.
    #[error("L8 a later version")]
    Ahead,
    /// The rows of the frame of this name are not accounted for.
    #[error("L5 a desk of frame {0:?} is missing")]
    MissingDesk(Text),
    /// The job of this number has not exactly one outcome.
    #[error("L2 job {0} is lost")]
    Lost(u64),
    /// The frame of this name has other rows than its good chunks.
    #[error("L3 frame {0:?} has other rows than its chunks")]
    Unlike(Text),
    /// The views are not those of the document.
    #[error("L4 other views")]
    ViewsUnlike,
}

impl NamedLoadCause {
    /// The cause of a load into these frames, with the name of its frame. Memory that was refused to the load is refused
    /// here too.
    pub(crate) fn of(
        alloc: Global,
        frames: &[FrameSpec],
        cause: LoadCause,
    ) -> Result<NamedLoadCause, AllocError>
        requires { IsOfFrames (length frames.now) cause }
        ensures { IfOk result (λ named. named_cause_of frames.now cause ≡ Some named) }
    {
        match cause {
            LoadCause::Refused(fault) => Ok(NamedLoadCause::Refused(fault)),
            LoadCause::Memory => Err(AllocError),
            LoadCause::Spent => Ok(NamedLoadCause::Spent),
            LoadCause::Ahead => Ok(NamedLoadCause::Ahead),
            LoadCause::MissingDesk(at) => {
                Ok(NamedLoadCause::MissingDesk(frames[at].name.copy(alloc)?))
            }
            LoadCause::Lost(job) => Ok(NamedLoadCause::Lost(job)),
            LoadCause::Unlike(at) => Ok(NamedLoadCause::Unlike(frames[at].name.copy(alloc)?)),
            LoadCause::ViewsUnlike => Ok(NamedLoadCause::ViewsUnlike),
        }
    }
}

impl From<DocumentFault> for RunFault {
    ghost from_gives = { λ f e. e ≡ run_fault_of f };

    fn from(fault: DocumentFault) -> RunFault {
        match fault {
            DocumentFault::Memory => RunFault::Memory,
            fault => RunFault::Document(fault),
        }
    }
}

impl From<AllocError> for RunFault {
    ghost from_gives = { λ _ e. e ≡ OutOfMemory };

    fn from(_e: AllocError) -> RunFault {
        RunFault::Memory
    }
}

impl<T: Drop> From<AllocFailed<T>> for RunFault {
    ghost from_gives = { λ _ e. e ≡ OutOfMemory };

    fn from(_e: AllocFailed<T>) -> RunFault {
        RunFault::Memory
    }
}
